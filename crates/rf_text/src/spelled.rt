//! Laws of what a text is, said of its lines and names alone.

ghost use Rattle.rf_text.specs.Spells.{AcceptedTextsSpell, SpelledTextsRead, SpelledOnce};

/// A text that is accepted spells its module: each line has the form that the module has there, with the module's own names in the
/// place of ids.
pub fn accepted_texts_spell()
    ensures { AcceptedTextsSpell }
{}

/// A text that spells a formed module reads as that module.
pub fn spelled_texts_read()
    ensures { SpelledTextsRead }
{}

/// A text spells one formed module at most.
pub fn one_spelled_module()
    ensures { SpelledOnce }
{}
