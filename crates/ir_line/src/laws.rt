//! Laws of forms: a line has one, and what it says fits.
//!
//! Each law is the contract of a function that does nothing and that no program calls.

ghost use Rattle.std.specs.Prelude.{◌≡◌, ℕ, List};
ghost use Rattle.ir_lex.specs.declared.list.Token.{Token};
ghost use Rattle.ir_draft.specs.declared.line.Line.{Line};
ghost use Rattle.ir_line.specs.Body as body;
ghost use Rattle.ir_line.specs.Outside as outside;
ghost use Rattle.ir_line.specs.Sound as sound;

/// No line inside a function spells two forms.
pub fn one_body_form()
    ensures { (line : List ℕ) → (t : List Token) → (l m : Line) → body.Spells line t l → body.Spells line t m → l ≡ m }
{}

/// No line outside functions spells two forms.
pub fn one_outside_form()
    ensures { (line : List ℕ) → (t : List Token) → (l m : Line) → outside.Spells line t l → outside.Spells line t m → l ≡ m }
{}

/// What a line inside a function says fits: literals are of their types, and types, operations and operands go together. Whether a call
/// fits its callee, the callee's header tells.
pub fn lines_are_sound()
    ensures { (line : List ℕ) → (t : List Token) → (l : Line) → body.Spells line t l → sound.IsSoundLine l }
{}
