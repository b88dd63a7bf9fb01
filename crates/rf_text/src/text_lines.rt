//! The law of the lines of a module's text.

ghost use Rattle.rf_text.specs.TextLines.{TextsAreLines};

/// The text of a module that is formed and printable is lines without a lexical fault, each of which is read as the form that the
/// module has there.
pub fn texts_are_lines()
    ensures { TextsAreLines }
{}
