//! Laws of drafts.
//!
//! Each law is the contract of a function that does nothing.

ghost use Rattle.std.specs.Prelude.{◌≡◌, ℕ, List, Ok};
ghost use Rattle.ir_draft.specs.declared.draft.Draft.{Draft};
ghost use Rattle.ir_read.specs.Draft.{draft_of};
ghost use Rattle.ir_read.specs.Items.{IsItems};

/// A text that is read as a draft is that draft's items: each of its lines has a form, and stands where it may.
pub fn drafts_are_items()
    ensures { (bytes : List ℕ) → (d : Draft) → draft_of bytes ≡ Ok d → IsItems bytes d.items }
{}
