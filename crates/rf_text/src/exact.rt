//! Laws of what reading and resolving give, in both directions.

ghost use Rattle.rf_text.specs.Exact.{ReadAndResolved, ResolvedAsRead, SpelledTextsAreGiven, GivenModulesAreWithin};

/// A text that is a draft which resolves to a module reads as that module, within the limits and well typed.
pub fn read_and_resolved()
    ensures { ReadAndResolved }
{}

/// A text that reads as a module within the limits, and well typed, is a draft that resolves to it.
pub fn resolved_as_read()
    ensures { ResolvedAsRead }
{}

/// A text that spells a formed module within the limits is read and resolved as it: the checker finds nothing.
pub fn spelled_texts_are_given()
    ensures { SpelledTextsAreGiven }
{}

/// And a formed module that a text spells, and that is read and resolved from it, is within the limits.
pub fn given_modules_are_within()
    ensures { GivenModulesAreWithin }
{}
