//! Bounded runs of functions.
//!
//! A run fails for want of memory alone. Undefined behaviour and a bound that is reached are outcomes.

ghost use Rattle.std.specs.Prelude.{◌≡◌, None, IfOk, slice_get};
ghost use Rattle.std.specs.Option.{option_copied};
ghost use Rattle.ir_model.specs.Run.{functions_of};
ghost use Rattle.ir_model.specs.CallFree.{run_blocks, run_func};
ghost use Rattle.ir_interp.specs.Slots.{types_in};
ghost use Rattle.ir_interp.specs.Effects.{state_in};

use crate::blocks::{Ended, run_block};
use crate::environment::{Environment, Types};
use crate::noalias::noalias_holds;
use crate::step::State;
use ir_model::{Memory, Outcome, Values};
use ir_types::{Blocks, Func, Item};
use std::alloc::Global;
use vx_list::OutOfMemory;

/// The function of a number, from 0 among the functions of the profile.
pub(crate) fn function_at(items: &[Item], func: u32) -> Option<&Func>
    ensures { option_copied result ≡ slice_get (functions_of items.now) func }
{
    let mut before = func;
    for item in items {
        if let Item::Func(func) = item {
            if before == 0 {
                return Some(func);
            }
            before -= 1;
        }
    }
    None
}

/// The memory of a state.
fn memory_of(state: State) -> Memory
    ensures { result ≡ state.memory }
{
    let State { memory, .. } = state;
    memory
}

/// Runs blocks from the first one on, under a bound.
fn run_blocks(
    alloc: Global,
    types: &Types,
    blocks: &Blocks,
    bound: u64,
    start: State,
) -> Result<Outcome, OutOfMemory>
    ensures { IfOk result (λ outcome. outcome ≡ run_blocks (types_in types.now.types.items) blocks.now bound None 0 (state_in start.env.values.items start.memory)) }
{
    let mut state = start;
    let mut from: Option<u32> = None;
    let mut at: u32 = 0;
    for _ in 0..bound {
        match run_block(alloc, types, from, blocks.get(at as usize), &mut state)? {
            Ended::Stops => return Ok(Outcome::Undefined),
            Ended::Returns(value) => return Ok(Outcome::Returned {
                value,
                memory: memory_of(state),
            }),
            Ended::Goes(to) => {
                from = Some(at);
                at = to;
            }
        }
    }
    Ok(Outcome::Cut {
        memory: memory_of(state),
    })
}

/// Runs a function of a module of so many globals, under a bound.
pub(crate) fn run_func(
    alloc: Global,
    globals: usize,
    func: &Func,
    args: &Values,
    memory: Memory,
    bound: u64,
) -> Result<Outcome, OutOfMemory>
    ensures { IfOk result (λ outcome. outcome ≡ run_func globals func.now args.now memory bound) }
{
    if !noalias_holds(globals, &func.params, args.as_slice()) {
        return Ok(Outcome::Undefined);
    }
    let types = Types::of(alloc, func)?;
    let env = Environment::start(alloc, func.params.as_slice(), args)?;
    run_blocks(alloc, &types, &func.blocks, bound, State { env, memory })
}
