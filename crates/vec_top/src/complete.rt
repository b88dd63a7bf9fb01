//! The law that a command is done where nothing stands against it.

ghost use Rattle.vec_top.specs.Complete.{AcceptedIsDone};

/// Where the words hold, the input is a module that is accepted, the words fit that module and no call failed, the status is 0, or 6
/// for want of memory.
pub fn accepted_is_done()
    ensures { AcceptedIsDone }
{}
