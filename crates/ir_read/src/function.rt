//! The lines of a function: which are outside the profile, and the position after each.
//!
//! The entry points are `after_line`, and `is_foreign_line` where positions do not matter any more. A line that is both outside the
//! profile and misplaced is outside the profile.

ghost use Rattle.std.specs.Prelude.{◌≡◌};
ghost use Rattle.ir_read.specs.Answers.{Gives};
ghost use Rattle.ir_read.specs.Function as function;
ghost use Rattle.ir_read.specs.Opaque as opaque;

use crate::ReadRefusal;
use crate::names::Names;
use crate::position::Position;
use ir_line::{Arg, Line, Stmt, Written};
use ir_types::Op;

/// Whether an operand is one of these names.
fn is_barred(names: &Names, operand: &Written) -> bool
    ensures { result ≡ function.is_barred names.now operand.now }
{
    match operand {
        Written::Symbol(name) => names.contains(name.as_slice()),
        Written::Local(_) | Written::Lit(_) => false,
    }
}

/// Whether one of these operands is.
fn any_barred(names: &Names, args: &[Arg]) -> bool
    ensures { result ≡ function.any_barred names.now args.now }
{
    let mut rest = args;
    'each: while let [arg, after @ ..] = rest {
        if is_barred(names, &arg.opd) {
            return true;
        }
        rest = after;
    }
    false
}

/// Whether an operation is outside the profile.
fn is_foreign(at: Position, op: &Op) -> bool
    ensures { result ≡ function.is_foreign at op.now }
{
    match op {
        Op::Alloca { .. } => !at.in_first(),
        Op::Call(_) => true,
        _ => false,
    }
}

/// After an instruction.
#[tactic(auto, unfolding(crate::specs::Function::after_inst))]
fn after_inst(names: &Names, line: u32, at: Position, stmt: &Stmt) -> Result<Position, ReadRefusal>
    ensures { Gives (λ after. after) result (function.after_inst names.now line at stmt.now) }
{
    if is_foreign(at, &stmt.op) || any_barred(names, stmt.args.as_slice()) {
        return Err(ReadRefusal::NotALine { line });
    }
    at.after_stmt(line, stmt)
}

/// After a line of this form.
pub(crate) fn after_line(
    names: &Names,
    line: u32,
    at: Position,
    form: &Line,
) -> Result<Position, ReadRefusal>
    ensures { Gives (λ after. after) result (function.after_line names.now line at form.now) }
{
    match form {
        Line::Empty => Ok(at),
        Line::Label(name) => at.after_label(line, name.as_slice()),
        Line::Stmt(stmt) => after_inst(names, line, at, stmt),
        Line::Case { .. } => at.after_case(line),
        Line::CasesEnd => at.after_cases(line),
        Line::Close => at.at_close(line),
        Line::Kept(_) | Line::Define { .. } => Err(ReadRefusal::NotALine { line }),
    }
}

/// Whether a line of this form is outside the profile.
pub(crate) fn is_foreign_line(names: &Names, at: Position, form: &Line) -> bool
    ensures { result ≡ opaque.is_foreign_line names.now at form.now }
{
    match form {
        Line::Stmt(stmt) => is_foreign(at, &stmt.op) || any_barred(names, stmt.args.as_slice()),
        Line::Kept(_) | Line::Define { .. } => true,
        _ => false,
    }
}
