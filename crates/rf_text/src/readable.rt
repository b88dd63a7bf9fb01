//! Laws of what was read: it can be printed and read again.

ghost use Rattle.rf_text.specs.Readable.{ReadModulesArePrintable, ReadModulesAreNumbered, ReadModulesArePlain};

/// A module that a text reads as, and whose layout has the low byte first, can be printed and read again: its names and kept parts are
/// such as text can have, and its ids are 0, 1 and so on in order of the text.
pub fn read_modules_are_printable()
    ensures { ReadModulesArePrintable }
{}

/// The ids of a module that a text reads as are 0, 1 and so on in order of the text, whatever its layout.
pub fn read_modules_are_numbered()
    ensures { ReadModulesAreNumbered }
{}

/// The names, results and literals of pointers of a module that a text reads as are those of a formed module, whatever its layout.
pub fn read_modules_are_plain()
    ensures { ReadModulesArePlain }
{}
