//! The law that what `opt` makes of a module can be printed and read again.

ghost use Rattle.ir_types.specs.declared.module.Module.{Module};
ghost use Rattle.ir_types.specs.Formed.{IsFormed};
ghost use Rattle.vx_serial.specs.Pair.{pair_of};
ghost use Rattle.rf_text.specs.Again.{IsReadAgain};
ghost use Rattle.rf_text.specs.Printable.{IsPrintable, IsCounted};

/// The module in which two neighbouring stores have become one can be printed where the module can; and the text of it, where the module
/// is formed, reads as it with its ids given anew, and spells that.
pub fn paired_texts_are_read_again()
    ensures printable { (m : Module) → IsPrintable m → IsPrintable (pair_of m) }
    ensures again { (m : Module) → IsFormed m → IsPrintable m → IsCounted m → IsReadAgain (pair_of m) }
{}
