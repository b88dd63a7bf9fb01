//! Blocks: instructions in order, terminators, and the phis of a block that is entered.
//!
//! A run of a block fails for want of memory alone, and then the state is no longer of use.

ghost use Rattle.std.specs.Prelude.{◌≡◌, IfOk, OnOk};
ghost use Rattle.std.specs.Option.{option_copied};
ghost use Rattle.ir_model.specs.Step.{State as ModelState};
ghost use Rattle.ir_model.specs.Run.{is_terminator, is_phi, chosen, leave, arm_from, arm_of};
ghost use Rattle.ir_model.specs.CallFree.{run_insts, enter, run_block};
ghost use Rattle.ir_interp.specs.Slots.{env_in, types_in};
ghost use Rattle.ir_interp.specs.Effects.{state_in};
ghost use Rattle.ir_interp.specs.Blocks.{ended_in, is_case, arrived, IsEntry};

use crate::environment::{Environment, Types};
use crate::step::{State, step};
use ir_model::Value;
use ir_types::{Block, Id, Inst, Op, Opd};
use std::alloc::Global;
use vx_list::{OutOfMemory, Seq, TryClone};
use vx_num::Lane;

/// How a block ends.
#[derive(Drop)]
pub(crate) enum Ended {
    /// In undefined behaviour.
    Stops,
    /// With a return.
    Returns(Option<Value>),
    /// On the edge to a block.
    Goes(u32),
}

/// A value that a phi brings.
#[derive(Drop)]
struct Arrival {
    id: Id,
    value: Value,
}

/// Whether an operation ends a block.
fn is_terminator(op: &Op) -> bool
    ensures { result ≡ is_terminator op.now }
{
    match op {
        Op::Ret => true,
        Op::Br { .. } => true,
        Op::CondBr { .. } => true,
        Op::Switch { .. } => true,
        Op::Unreachable => true,
        _ => false,
    }
}

/// Whether an operation is a phi.
fn is_phi(op: &Op) -> bool
    ensures { result ≡ is_phi op.now }
{
    match op {
        Op::Phi { .. } => true,
        _ => false,
    }
}

/// Whether a case is the number.
fn is_case(number: u64, case: Lane) -> bool
    ensures { result ≡ is_case number case }
{
    match case {
        Some(c) => number == c,
        None => false,
    }
}

/// The block of the first case that is the number, or else the other.
fn chosen(number: u64, other: u32, cases: &[Lane], to: &[u32]) -> u32
    ensures { result ≡ chosen number other cases.now to.now }
{
    let mut rest = to;
    for case in cases {
        let [block, more @ ..] = rest else {
            return other;
        };
        if is_case(number, *case) {
            return *block;
        }
        rest = more;
    }
    other
}

/// How a terminator ends its block at the values of its operands (Language Reference, "Terminator Instructions").
fn leave(alloc: Global, op: &Op, values: &[Value]) -> Result<Ended, OutOfMemory>
    ensures { IfOk result (λ ended. (s : ModelState) → ended_in ended s ≡ leave op.now values.now s) }
{
    match (op, values) {
        (Op::Ret, []) => Ok(Ended::Returns(None)),
        (Op::Ret, [value]) => Ok(Ended::Returns(Some(value.try_clone(alloc)?))),
        (Op::Br { to }, _) => Ok(Ended::Goes(*to)),
        (Op::CondBr { yes, no }, [Value::Lane(Some(n))]) => Ok(Ended::Goes(if *n == 0 {
            *no
        } else {
            *yes
        })),
        (Op::Switch { other, cases, to }, [Value::Lane(Some(n))]) => Ok(Ended::Goes(chosen(
            *n,
            *other,
            cases.as_lanes().as_slice(),
            to.as_slice(),
        ))),
        _ => Ok(Ended::Stops),
    }
}

/// Runs instructions in order, up to the terminator.
fn run_insts(
    alloc: Global,
    types: &Types,
    insts: &[Inst],
    state: &mut State,
) -> Result<Ended, OutOfMemory>
    ensures { IfOk result (λ ended. ended_in ended (state_in state.new.env.values.items state.new.memory) ≡ run_insts (types_in types.now.types.items) insts.now (state_in state.old.env.values.items state.old.memory)) }
{
    for inst in insts {
        if is_terminator(&inst.op) {
            let values = state.env.values_of(alloc, inst.opds.as_slice())?;
            return Ok(leave(alloc, &inst.op, values.as_slice())?);
        }
        if !step(alloc, types, inst, state)? {
            return Ok(Ended::Stops);
        }
    }
    Ok(Ended::Stops)
}

/// The operand that a phi brings from a block.
fn arm_from<'a>(from: u32, blocks: &[u32], opds: &'a [Opd]) -> Option<&'a Opd>
    ensures { option_copied result ≡ arm_from from blocks.now opds.now }
{
    let mut rest = opds;
    for block in blocks {
        let [opd, more @ ..] = rest else {
            return None;
        };
        if *block == from {
            return Some(opd);
        }
        rest = more;
    }
    None
}

/// The operand that an instruction brings from a block, if it is a phi.
fn arm_of<'a>(from: Option<u32>, op: &Op, opds: &'a [Opd]) -> Option<&'a Opd>
    ensures { option_copied result ≡ arm_of from op.now opds.now }
{
    match (from, op) {
        (Some(from), Op::Phi { blocks }) => arm_from(from, blocks.as_slice(), opds),
        _ => None,
    }
}

/// What the phis at the head of a block bring, all read in the environment on the edge.
fn arrivals(
    alloc: Global,
    from: Option<u32>,
    edge: &Environment,
    insts: &[Inst],
) -> Result<Option<Seq<Arrival>>, OutOfMemory>
    ensures { IfOk result (IsEntry from (env_in edge.now.values.items) insts.now) }
{
    let mut arrivals = Seq::new(alloc);
    for inst in insts {
        if !is_phi(&inst.op) {
            break;
        }
        let Some(opd) = arm_of(from, &inst.op, inst.opds.as_slice()) else {
            return Ok(None);
        };
        arrivals.push(Arrival {
            id: inst.id,
            value: edge.value_of(alloc, opd)?,
        })?;
    }
    Ok(Some(arrivals))
}

/// Gives the phis' ids what they bring.
fn arrive(alloc: Global, arrivals: &[Arrival], env: &mut Environment) -> Result<(), OutOfMemory>
    ensures { OnOk result (env_in env.new.values.items ≡ arrived arrivals.now (env_in env.old.values.items)) }
{
    for arrival in arrivals {
        env.set(arrival.id, arrival.value.try_clone(alloc)?)?;
    }
    Ok(())
}

/// Runs the instructions of a block that is entered from a block, or at the start.
fn enter(
    alloc: Global,
    types: &Types,
    from: Option<u32>,
    insts: &[Inst],
    state: &mut State,
) -> Result<Ended, OutOfMemory>
    ensures { IfOk result (λ ended. ended_in ended (state_in state.new.env.values.items state.new.memory) ≡ enter (types_in types.now.types.items) from (env_in state.old.env.values.items) insts.now (state_in state.old.env.values.items state.old.memory)) }
{
    let Some(arrivals) = arrivals(alloc, from, &state.env, insts)? else {
        return Ok(Ended::Stops);
    };
    arrive(alloc, arrivals.as_slice(), &mut state.env)?;
    run_insts(alloc, types, &insts[arrivals.len()..], state)
}

/// Runs a block, if it is there.
pub(crate) fn run_block(
    alloc: Global,
    types: &Types,
    from: Option<u32>,
    block: Option<&Block>,
    state: &mut State,
) -> Result<Ended, OutOfMemory>
    ensures { IfOk result (λ ended. ended_in ended (state_in state.new.env.values.items state.new.memory) ≡ run_block (types_in types.now.types.items) from (state_in state.old.env.values.items state.old.memory) (option_copied block.entry)) }
{
    match block {
        Some(block) => enter(alloc, types, from, block.insts.as_slice(), state),
        None => Ok(Ended::Stops),
    }
}
