//! Laws of the module that a text is.

ghost use Rattle.rf_formed.specs.Accepted.{AcceptedIsFormed, AcceptedIsFormedButForWalks, AcceptedIsNumbered};

/// Where a text is a draft and the draft is a module, each function of that module is formed and no id stands twice. Of walks nothing is
/// said: whether each use is available is not asked by the reader or the type check.
pub fn accepted_is_formed_but_for_walks()
    ensures { AcceptedIsFormedButForWalks }
{}

/// Such a module is formed where each of its uses is available.
pub fn accepted_is_formed()
    ensures { AcceptedIsFormed }
{}

/// Its ids are 0, 1 and so on in order of the text.
pub fn accepted_is_numbered()
    ensures { AcceptedIsNumbered }
{}
