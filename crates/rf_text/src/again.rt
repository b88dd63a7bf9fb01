//! The law that what is printed is read again, and that a text does not tell the ids of its module.

ghost use Rattle.std.specs.Prelude.{◌≡◌};
ghost use Rattle.ir_types.specs.declared.module.Module.{Module};
ghost use Rattle.ir_types.specs.Formed.{IsFormed};
ghost use Rattle.ir_types.specs.Renumbered.{renumbered};
ghost use Rattle.ir_print.specs.Text.{text_of};
ghost use Rattle.rf_text.specs.Again.{TextsAreReadAgain, AnyTextsAreReadAgain};
ghost use Rattle.rf_text.specs.Printable.{IsPrintable};

/// The text of a module that is formed and printable, with the ids of a module that was read, reads as that module with its ids given
/// anew, and that is formed.
pub fn texts_are_read_again()
    ensures { TextsAreReadAgain }
{}

/// So it does whatever its ids are.
pub fn any_texts_are_read_again()
    ensures { AnyTextsAreReadAgain }
{}

/// With its ids given anew a formed module has the same text, and can be printed where it could before.
pub fn renumbered_texts()
    ensures text { (m : Module) → IsFormed m → text_of (renumbered m) ≡ text_of m }
    ensures printable { (m : Module) → IsFormed m → IsPrintable m → IsPrintable (renumbered m) }
{}
