//! The types of a function whose names are known.
//!
//! `judge` is the entry point, for one statement: it keeps the first line that is ill typed aside, as a name that is unknown later
//! comes first. Want of memory is the only failure.

ghost use Rattle.std.specs.Prelude.{◌≡◌, [], IfOk, OnOk};
ghost use Rattle.std.specs.List.{list_all};
ghost use Rattle.ir_draft.specs.declared.line.Line.TheVariants.{Stmt as StmtLine};
ghost use Rattle.ir_types_check.specs.Answers.{Gives, well_typed};
ghost use Rattle.ir_types_check.specs.InOrder.{told, first_told};
ghost use Rattle.ir_types_check.specs.Links.{choices};
ghost use Rattle.ir_types_check.specs.Typed as typed;

use crate::ResolveRefusal;
use crate::cases::Seen;
use crate::context::{Context, Spot};
use crate::edges::{number_of, targets};
use crate::links::lane_of;
use crate::locals::Meaning;
use crate::phis::phi_fits;
use crate::scope::Scope;
use crate::types::{calls, first_ty};
use ir_line::{Line, Numbered, Stmt};
use ir_types::{Literal, Op, Ty};
use std::alloc::{AllocError, Global};

/// Nothing where a line is well typed.
fn require(line: u32, fits: bool) -> Result<(), ResolveRefusal>
    ensures { Gives (λ done. done) result (well_typed line fits) }
{
    if fits {
        Ok(())
    } else {
        Err(ResolveRefusal::IllTyped { line })
    }
}

/// Whether none of these is the first block.
fn are_targets(numbers: &[u32]) -> bool
    ensures { result ≡ list_all typed.is_target numbers.now }
{
    let mut rest = numbers;
    'each: while let [number, after @ ..] = rest {
        if *number == 0 {
            return false;
        }
        rest = after;
    }
    true
}

/// Whether a statement of the block does what its operation asks, but for the types of operands.
fn op_fits(alloc: Global, known: &Context, here: u32, stmt: &Stmt) -> Result<bool, AllocError>
    ensures { IfOk result (λ fits. fits ≡ typed.op_fits known.now.tops.now known.now.locals.now known.now.ret known.now.sources.now here stmt.now stmt.now.op) }
{
    match &stmt.op {
        Op::Ret => Ok(first_ty(stmt.args.as_slice()).same(known.ret)),
        Op::Phi { blocks } => {
            phi_fits(
                alloc,
                known.locals,
                known.sources,
                here,
                stmt,
                blocks.as_slice(),
            )
        }
        Op::Call(site) => {
            let callee = site.get().callee.as_slice();
            Ok(calls(known.tops, callee, stmt.ty, stmt.args.as_slice()))
        }
        op => {
            let targets = targets(alloc, known.locals, &stmt.labels, op)?;
            Ok(are_targets(targets.as_slice()))
        }
    }
}

/// Whether a statement of the block is well typed, but for its cases. Whether its operands have their written types is given.
fn stmt_fits(
    alloc: Global,
    known: &Context,
    here: u32,
    stmt: &Stmt,
    args_fit: bool,
) -> Result<bool, AllocError>
    requires { args_fit ≡ list_all (typed.arg_fits known.now.locals.now) stmt.now.args }
    ensures { IfOk result (λ fits. fits ≡ typed.stmt_fits known.now.tops.now known.now.locals.now known.now.ret known.now.sources.now here stmt.now) }
{
    if !args_fit {
        return Ok(false);
    }
    op_fits(alloc, known, here, stmt)
}

/// The number of a case.
fn case_number(value: &Literal) -> u64
    ensures { result ≡ typed.literal_number value.now }
{
    match lane_of(value) {
        Some(number) => number,
        None => 0,
    }
}

/// Whether a case is of the type, has a new number, and goes not to the first block.
fn choice_fits(
    locals: &Scope<Meaning>,
    ty: Ty,
    seen: &Seen,
    line: u32,
    value: &Literal,
    label: &[u8],
) -> bool
    ensures { result ≡ typed.choice_fits locals.now ty seen.now (record { line = line; value = value.now; label = label.now }) }
{
    value.ty.same(ty) && !seen.contains(case_number(value)) && number_of(locals, label) != 0
}

/// The cases at the front of these lines.
#[inline(never)]
fn choices_typed(
    alloc: Global,
    locals: &Scope<Meaning>,
    ty: Ty,
    lines: &[Numbered],
) -> Result<(), ResolveRefusal>
    ensures { Gives (λ done. done) result (typed.choices_typed locals.now ty [] (choices lines.now)) }
{
    let mut seen = Seen::new(alloc);
    let mut rest = lines;
    'each: while let [first, after @ ..] = rest {
        let Line::Case { value, label } = &first.form else {
            return Ok(());
        };
        require(
            first.line,
            choice_fits(locals, ty, &seen, first.line, value, label.as_slice()),
        )?;
        seen.add(case_number(value))?;
        rest = after;
    }
    Ok(())
}

/// The cases of a statement, after which these lines follow.
fn cases_typed(
    alloc: Global,
    locals: &Scope<Meaning>,
    stmt: &Stmt,
    rest: &[Numbered],
) -> Result<(), ResolveRefusal>
    ensures { Gives (λ done. done) result (typed.cases_typed locals.now stmt.now stmt.now.op rest.now) }
{
    match &stmt.op {
        Op::Switch { .. } => choices_typed(alloc, locals, first_ty(stmt.args.as_slice()), rest),
        _ => Ok(()),
    }
}

/// A statement. Whether its operands have their written types is given.
fn stmt_typed(
    alloc: Global,
    known: &Context,
    spot: &Spot,
    stmt: &Stmt,
    args_fit: bool,
) -> Result<(), ResolveRefusal>
    requires { args_fit ≡ list_all (typed.arg_fits known.now.locals.now) stmt.now.args }
    ensures { Gives (λ done. done) result (typed.line_typed known.now.tops.now known.now.locals.now known.now.ret known.now.sources.now spot.now.at spot.now.line (StmtLine stmt.now) spot.now.rest.now) }
{
    let fits = stmt_fits(alloc, known, spot.at.block_here(), stmt, args_fit)?;
    require(spot.line, fits)?;
    cases_typed(alloc, known.locals, stmt, spot.rest)
}

/// The same, where the first line that is ill typed is kept.
pub(crate) fn judge(
    alloc: Global,
    known: &Context,
    spot: &Spot,
    stmt: &Stmt,
    args_fit: bool,
    ill: &mut Option<u32>,
) -> Result<(), AllocError>
    requires { args_fit ≡ list_all (typed.arg_fits known.now.locals.now) stmt.now.args }
    ensures { OnOk result (told ill.new ≡ first_told ill.old (typed.line_typed known.now.tops.now known.now.locals.now known.now.ret known.now.sources.now spot.now.at spot.now.line (StmtLine stmt.now) spot.now.rest.now)) }
{
    if ill.is_some() {
        return Ok(());
    }
    match stmt_typed(alloc, known, spot, stmt, args_fit) {
        Ok(()) => Ok(()),
        Err(ResolveRefusal::IllTyped { line }) => {
            *ill = Some(line);
            Ok(())
        }
        Err(_) => Err(AllocError),
    }
}
