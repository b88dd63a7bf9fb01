//! `Position`: where in a function the next line stands.
//!
//! Each function gives the position after a line of one kind, or refuses that line as misplaced; `passed_over` goes on after a line
//! that may be misplaced, and counts blocks alone. A position is a few counts and
//! what is open, so nothing here takes memory; a count that would pass its last value is answered as want of it.

ghost use Rattle.std.specs.Prelude.{◌≡◌, ◌+◌, Some, IfOk};
ghost use Rattle.ir_types.specs.Formed as formed;
ghost use Rattle.ir_read.specs.Answers.{Gives};
ghost use Rattle.ir_read.specs.Opaque as opaque;
ghost use Rattle.ir_read.specs.Position as position;

use crate::ReadRefusal;
use crate::numbers::{after_name, after_result, one_more};
use ir_line::{Line, Stmt};
use ir_types::Op;
use std::alloc::AllocError;

/// What is open in a function.
#[derive(Clone, Copy)]
pub(crate) enum Spot {
    /// No block: before the first line, or after a terminator.
    Between,
    /// A block that has phis alone yet.
    Front,
    /// A block after an instruction that is no phi.
    After,
    /// A `switch` whose `]` has not come.
    Cases,
}

/// Where the next line stands.
#[derive(Clone, Copy)]
pub(crate) struct Position {
    /// The next number of what has no name.
    pub(crate) next: u32,
    /// How many instructions stand before.
    pub(crate) insts: u32,
    /// How many blocks have begun.
    pub(crate) blocks: u32,
    pub(crate) spot: Spot,
}

impl Spot {
    fn is_between(self) -> bool
        ensures { result ≡ position.is_between self }
    {
        match self {
            Spot::Between => true,
            Spot::Front | Spot::After | Spot::Cases => false,
        }
    }

    fn is_cases(self) -> bool
        ensures { result ≡ position.is_cases self }
    {
        match self {
            Spot::Cases => true,
            Spot::Between | Spot::Front | Spot::After => false,
        }
    }

    /// Whether an instruction may stand here.
    fn takes(self, op: &Op) -> bool
        ensures { result ≡ position.may_stand self op.now }
    {
        match self {
            Spot::Between | Spot::Front => true,
            Spot::After => !is_phi(op),
            Spot::Cases => false,
        }
    }
}

fn is_phi(op: &Op) -> bool
    ensures { result ≡ formed.is_phi op.now }
{
    match op {
        Op::Phi { .. } => true,
        _ => false,
    }
}

/// What is open after an instruction.
fn spot_after(op: &Op) -> Spot
    ensures { result ≡ position.spot_after op.now }
{
    match op {
        Op::Phi { .. } => Spot::Front,
        Op::Ret | Op::Br { .. } | Op::CondBr { .. } | Op::Unreachable => Spot::Between,
        Op::Switch { .. } => Spot::Cases,
        _ => Spot::After,
    }
}

impl Position {
    /// Before the first line, where `next` is the next number.
    pub(crate) fn start(next: u32) -> Position
        ensures { result ≡ position.start next }
    {
        Position {
            next,
            insts: 0,
            blocks: 0,
            spot: Spot::Between,
        }
    }

    /// With a block open: an unnamed one begins where there is none.
    #[tactic(auto, unfolding(crate::specs::Position::opened))]
    fn opened(self) -> Result<Position, AllocError>
        ensures { IfOk result (λ open_block. open_block ≡ position.opened self) }
    {
        if !self.spot.is_between() {
            return Ok(self);
        }
        Ok(Position {
            next: one_more(self.next)?,
            insts: self.insts,
            blocks: one_more(self.blocks)?,
            spot: Spot::Front,
        })
    }

    /// Whether an instruction here stands in the first block.
    #[tactic(auto, unfolding(crate::specs::Position::opened))]
    pub(crate) fn in_first(self) -> bool
        ensures { result ≡ position.in_first self }
    {
        if self.spot.is_between() {
            self.blocks == 0
        } else {
            self.blocks == 1
        }
    }

    /// After a label.
    #[tactic(auto, unfolding(crate::specs::Position::after_label))]
    pub(crate) fn after_label(self, line: u32, name: &[u8]) -> Result<Position, ReadRefusal>
        ensures { Gives (λ after. after) result (position.after_label line self name.now) }
    {
        if !self.spot.is_between() {
            return Err(ReadRefusal::Misplaced { line });
        }
        let next = after_name(line, self.next, name)?;
        let blocks = one_more(self.blocks)?;
        Ok(Position {
            next,
            insts: self.insts,
            blocks,
            spot: Spot::Front,
        })
    }

    /// After an instruction.
    #[tactic(auto, unfolding(crate::specs::Position::after_stmt))]
    pub(crate) fn after_stmt(self, line: u32, stmt: &Stmt) -> Result<Position, ReadRefusal>
        ensures { Gives (λ after. after) result (position.after_stmt line self stmt.now) }
    {
        if !self.spot.takes(&stmt.op) {
            return Err(ReadRefusal::Misplaced { line });
        }
        let block = self.opened()?;
        let next = after_result(line, block.next, &stmt.result)?;
        let insts = one_more(self.insts)?;
        Ok(Position {
            next,
            insts,
            blocks: block.blocks,
            spot: spot_after(&stmt.op),
        })
    }

    /// After a case of a `switch`.
    #[tactic(auto, unfolding(crate::specs::Position::after_case))]
    pub(crate) fn after_case(self, line: u32) -> Result<Position, ReadRefusal>
        ensures { Gives (λ after. after) result (position.after_case line self) }
    {
        if self.spot.is_cases() {
            Ok(self)
        } else {
            Err(ReadRefusal::Misplaced { line })
        }
    }

    /// After the end of a `switch`.
    #[tactic(auto, unfolding(crate::specs::Position::after_cases))]
    pub(crate) fn after_cases(self, line: u32) -> Result<Position, ReadRefusal>
        ensures { Gives (λ after. after) result (position.after_cases line self) }
    {
        if self.spot.is_cases() {
            Ok(Position {
                spot: Spot::Between,
                ..self
            })
        } else {
            Err(ReadRefusal::Misplaced { line })
        }
    }

    /// At the closing brace, after the last block.
    #[tactic(auto, unfolding(crate::specs::Position::at_close))]
    pub(crate) fn at_close(self, line: u32) -> Result<Position, ReadRefusal>
        ensures { Gives (λ after. after) result (position.at_close line self) }
    {
        if self.spot.is_between() && self.blocks != 0 {
            Ok(self)
        } else {
            Err(ReadRefusal::Misplaced { line })
        }
    }

    /// After a label, whether or not it may stand here.
    #[tactic(auto, unfolding(crate::specs::Opaque::passed_label))]
    fn passed_label(self) -> Result<Position, AllocError>
        ensures { IfOk result (λ after. after ≡ opaque.passed_label self) }
    {
        if self.spot.is_cases() {
            return Ok(self);
        }
        Ok(Position {
            next: self.next,
            insts: self.insts,
            blocks: one_more(self.blocks)?,
            spot: Spot::Front,
        })
    }

    /// After an instruction, the same.
    #[tactic(auto, unfolding(crate::specs::Opaque::passed_stmt))]
    fn passed_stmt(self, op: &Op) -> Result<Position, AllocError>
        ensures { IfOk result (λ after. after ≡ opaque.passed_stmt self op.now) }
    {
        if self.spot.is_cases() {
            return Ok(self);
        }
        let block = self.opened()?;
        Ok(Position {
            next: self.next,
            insts: self.insts,
            blocks: block.blocks,
            spot: spot_after(op),
        })
    }

    /// After the end of a `switch`, the same.
    #[tactic(auto, unfolding(crate::specs::Opaque::passed_end))]
    fn passed_end(self) -> Position
        ensures { result ≡ opaque.passed_end self }
    {
        if self.spot.is_cases() {
            Position {
                spot: Spot::Between,
                ..self
            }
        } else {
            self
        }
    }

    /// After a line of this form, whether or not it may stand here.
    pub(crate) fn passed_over(self, form: &Line) -> Result<Position, AllocError>
        ensures { IfOk result (λ after. after ≡ opaque.passed_over self form.now) }
    {
        match form {
            Line::Label(_) => self.passed_label(),
            Line::Stmt(stmt) => self.passed_stmt(&stmt.op),
            Line::CasesEnd => Ok(self.passed_end()),
            _ => Ok(self),
        }
    }
}
