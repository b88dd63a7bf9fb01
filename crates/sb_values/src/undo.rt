//! `Undo`: what takes a change back.
//!
//! It is plain data: what went with the change, and where it stood. Nothing here fails.

use ir_types::{Id, Inst, Opd};
use sb_lines::{Before, Spot};

/// What takes a change back, as long as the sandbox is as the change left it.
#[derive(Debug, Drop)]
pub enum Undo {
    /// An instruction came, and goes.
    Inserted { id: Id },
    /// An instruction went, and comes back.
    Removed { spot: Spot },
    /// An instruction stood elsewhere.
    Moved { id: Id, before: Before },
    /// Another instruction stood in its place.
    Replaced { old: Inst },
    /// A slot had another operand.
    Set { id: Id, slot: u32, old: Opd },
}
