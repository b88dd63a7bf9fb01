//! Laws of the lines of a function's body: each is read again as it is printed.
//!
//! Each law is the contract of a function that does nothing and that no program calls.

ghost use Rattle.rf_text.specs.Printed as printed;

/// Each instruction but a call is printed as whole lines, which are read as what the instruction is with names in the place of ids.
pub fn printed_instructions()
    ensures { printed.InstsAreReadAgain }
{}

/// A label is printed as a line, which is read as that label.
pub fn printed_labels()
    ensures { printed.LabelsAreReadAgain }
{}

/// The brace at the end of a function is read as such, and an empty line as one.
pub fn printed_braces()
    ensures brace { printed.BracesAreReadAgain }
    ensures gap { printed.GapsAreReadAgain }
{}

/// The body of a function is printed as the lines of its blocks and its brace, wherever each of its instructions is read again.
pub fn printed_bodies()
    ensures { printed.BodiesAreReadAgain }
{}
