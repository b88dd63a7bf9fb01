//! The lines of a body that have no result: instructions, labels, cases.
//!
//! Each function reads what it names to the end of the line.

ghost use Rattle.std.specs.Prelude.{◌≡◌, ◌∷◌, [], IfOk};
ghost use Rattle.ir_types.specs.declared.ty.Ty.TheVariants.{Void};
ghost use Rattle.ir_types.specs.declared.op.Op.TheVariants as ops;
ghost use Rattle.ir_words.specs.Cursors.{left};
ghost use Rattle.ir_words.specs.Words.{Gives, one};
ghost use Rattle.ir_words.specs.Values as values;
ghost use Rattle.ir_forms.specs.Grammar.{read};
ghost use Rattle.ir_forms.specs.Forms as forms;

use crate::operands::{
    aligned, case_number, labelled, local, next_target, next_typed, target, typed,
};
use crate::value_lines::{finish, value_line};
use ir_draft::{Arg, Args, Line, Stmt, Stop};
use ir_types::{Bytes, Literal, Lits, Names, Numbers, Op, Ty};
use ir_words::cursor::Cursor;
use ir_words::kinds::Kind;
use ir_words::opcode::{Act, act_of};
use ir_words::types::kind;
use std::alloc::{AllocError, Global};

/// A store.
#[tactic(auto, using(crate::proofs::LineEnds::goes_on), unfolding(crate::specs::Forms::store))]
fn store(alloc: Global, at: Cursor) -> Result<Line, Stop>
    ensures { Gives (λ x. x) result (read forms.line_of forms.store (left at.entry)) }
{
    let (value, rest) = typed(alloc, Kind::Stored, at)?;
    let (pointer, rest) = next_typed(alloc, Kind::Pointer, rest)?;
    let (align, rest) = aligned(rest)?;
    let [] = rest.tokens else {
        return Err(Stop::NotALine);
    };
    Ok(stored(alloc, value, pointer, align.unwrap_or(1)))
}

/// The form of a store.
fn stored(alloc: Global, value: Arg, pointer: Arg, align: u64) -> Line
    ensures { result ≡ forms.without_result value.ty (ops.Store align) (value ∷ pointer ∷ []) [] }
{
    Line::Stmt(Stmt {
        result: None,
        ty: value.ty,
        op: Op::Store { align },
        args: Args::two(value, pointer),
        labels: Names::new(alloc),
    })
}

/// One block.
fn one_label(alloc: Global, label: Bytes) -> Result<Names, AllocError>
    ensures { IfOk result (λ x. x ≡ label ∷ []) }
{
    let mut labels = Names::new(alloc);
    labels.push(label)?;
    Ok(labels)
}

/// An instruction without a result.
fn without_result(op: Op, args: Args, labels: Names) -> Line
    ensures { result ≡ forms.without_result Void op args labels }
{
    Line::Stmt(Stmt {
        result: None,
        ty: Ty::Void,
        op,
        args,
        labels,
    })
}

/// A return of a value.
#[tactic(auto, unfolding(crate::specs::Forms::return_value))]
fn return_value(alloc: Global, at: Cursor) -> Result<Line, Stop>
    ensures { Gives (λ x. x) result (read forms.line_of forms.return_value (left at.entry)) }
{
    let (value, rest) = typed(alloc, Kind::Value, at)?;
    finish(
        rest,
        without_result(Op::Ret, Args::one(value), Names::new(alloc)),
    )
}

/// A return.
#[tactic(auto, unfolding(crate::specs::Forms::returns))]
fn returns(alloc: Global, at: Cursor) -> Result<Line, Stop>
    ensures { Gives (λ x. x) result (read forms.line_of forms.returns (left at.entry)) }
{
    match at.expect(b"void") {
        Err(Stop::NotALine) => return_value(alloc, at),
        found => {
            let rest = found?;
            finish(
                rest,
                without_result(Op::Ret, Args::none(), Names::new(alloc)),
            )
        }
    }
}

/// A branch on a condition.
#[tactic(auto, unfolding(crate::specs::Forms::branch))]
fn branch(alloc: Global, at: Cursor) -> Result<Line, Stop>
    ensures { Gives (λ x. x) result (read forms.line_of forms.branch (left at.entry)) }
{
    let (condition, rest) = typed(alloc, Kind::Bit, at)?;
    let (first, rest) = next_target(alloc, rest)?;
    let (second, rest) = next_target(alloc, rest)?;
    let args = Args::one(condition);
    let mut labels = one_label(alloc, first)?;
    labels.push(second)?;
    finish(
        rest,
        without_result(Op::CondBr { yes: 0, no: 1 }, args, labels),
    )
}

/// A branch.
#[tactic(auto, unfolding(crate::specs::Forms::jump))]
fn jump(alloc: Global, at: Cursor) -> Result<Line, Stop>
    ensures { Gives (λ x. x) result (read forms.line_of forms.jump (left at.entry)) }
{
    match target(alloc, at) {
        Err(Stop::NotALine) => branch(alloc, at),
        found => {
            let (block, rest) = found?;
            let labels = one_label(alloc, block)?;
            finish(rest, without_result(Op::Br { to: 0 }, Args::none(), labels))
        }
    }
}

/// A switch up to its cases.
#[tactic(auto, unfolding(crate::specs::Forms::switch))]
fn switch(alloc: Global, at: Cursor) -> Result<Line, Stop>
    ensures { Gives (λ x. x) result (read forms.line_of forms.switch (left at.entry)) }
{
    let (value, rest) = typed(alloc, Kind::Integer, at)?;
    let (block, rest) = next_target(alloc, rest)?;
    let rest = rest.expect(b"[")?;
    let args = Args::one(value);
    let labels = one_label(alloc, block)?;
    let op = Op::Switch {
        other: 0,
        cases: Lits::new(alloc),
        to: Numbers::new(alloc),
    };
    finish(rest, without_result(op, args, labels))
}

/// What stands after the keyword of an operation without a result.
#[tactic(auto, unfolding(crate::specs::Forms::by_act))]
fn by_act(alloc: Global, act: Act, at: Cursor) -> Result<Line, Stop>
    ensures { Gives (λ x. x) result (read forms.line_of (forms.by_act act) (left at.entry)) }
{
    match act {
        Act::Store => store(alloc, at),
        Act::Ret => returns(alloc, at),
        Act::Br => jump(alloc, at),
        Act::Switch => switch(alloc, at),
        Act::Unreachable => finish(
            at,
            without_result(Op::Unreachable, Args::none(), Names::new(alloc)),
        ),
    }
}

/// A literal of one number.
fn number_literal(alloc: Global, ty: Ty, n: u64) -> Result<Literal, AllocError>
    ensures { IfOk result (λ x. x ≡ record { ty = ty; lanes = Some n ∷ [] }) }
{
    let mut lanes = Lits::new(alloc);
    lanes.push(Some(n))?;
    Ok(Literal { ty, lanes })
}

/// A case of a switch.
#[tactic(auto, unfolding(crate::specs::Forms::choice))]
fn choice(alloc: Global, at: Cursor) -> Result<Line, Stop>
    ensures { Gives (λ x. x) result (read forms.line_of forms.choice (left at.entry)) }
{
    let (ty, rest) = kind(Kind::Integer, at)?;
    let (n, rest) = case_number(ty, rest)?;
    let (label, rest) = next_target(alloc, rest)?;
    let value = number_literal(alloc, ty, n)?;
    finish(rest, Line::Case { value, label })
}

/// A case of a switch, or its end.
#[tactic(auto, unfolding(crate::specs::Forms::choices))]
fn choices(alloc: Global, at: Cursor) -> Result<Line, Stop>
    ensures { Gives (λ x. x) result (read forms.line_of forms.choices (left at.entry)) }
{
    match at.expect(b"]") {
        Err(Stop::NotALine) => choice(alloc, at),
        found => {
            let rest = found?;
            finish(rest, Line::CasesEnd)
        }
    }
}

/// The keyword of an operation without a result.
fn act<'a>(at: Cursor<'a>) -> Result<(Act, Cursor<'a>), Stop>
    ensures { Gives (λ x. (x.0, left x.1)) result (one values.act_of (left at.entry)) }
{
    let (word, rest) = at.next()?;
    Ok((act_of(word)?, rest))
}

/// An instruction without a result, or a line of a switch.
#[tactic(auto, unfolding(crate::specs::Forms::act_line))]
fn act_line(alloc: Global, at: Cursor) -> Result<Line, Stop>
    ensures { Gives (λ x. x) result (read forms.line_of forms.act_line (left at.entry)) }
{
    match act(at) {
        Err(Stop::NotALine) => choices(alloc, at),
        found => {
            let (act, rest) = found?;
            by_act(alloc, act, rest)
        }
    }
}

/// A label, or a line without a result.
#[tactic(auto, unfolding(crate::specs::Forms::plain_line))]
fn plain_line(alloc: Global, at: Cursor) -> Result<Line, Stop>
    ensures { Gives (λ x. x) result (read forms.line_of forms.plain_line (left at.entry)) }
{
    match labelled(alloc, at) {
        Err(Stop::NotALine) => act_line(alloc, at),
        found => {
            let (name, rest) = found?;
            finish(rest, Line::Label(name))
        }
    }
}

/// Any form of a line of a body, but the empty line, the brace and the call.
#[tactic(auto, unfolding(crate::specs::Forms::form))]
pub fn form(alloc: Global, at: Cursor) -> Result<Line, Stop>
    ensures { Gives (λ x. x) result (read forms.line_of forms.form (left at.entry)) }
{
    match local(alloc, at) {
        Err(Stop::NotALine) => plain_line(alloc, at),
        found => {
            let (name, rest) = found?;
            value_line(alloc, name, rest)
        }
    }
}
