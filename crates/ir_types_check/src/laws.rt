//! Laws of resolved drafts.
//!
//! Each law is the contract of a function that does nothing.

ghost use Rattle.std.specs.Prelude.{◌≡◌, Ok};
ghost use Rattle.ir_draft.specs.declared.draft.Draft.{Draft};
ghost use Rattle.ir_types_check.specs.declared.resolved.Resolved.{Resolved};
ghost use Rattle.ir_types_check.specs.Resolved.{resolved_of};
ghost use Rattle.ir_types_check.specs.Named.{Names};

/// Where a draft resolves, no name is defined twice and each is known, and what they stand for makes the module.
pub fn resolved_drafts_are_named()
    ensures { (d : Draft) → (r : Resolved) → resolved_of d ≡ Ok r → Names d.items r.«module» }
{}
