//! Bounded runs: what a function of a module does on arguments and a memory.
//!
//! `run` is the one entry point. It takes any module, any arguments and any memory: shapes that do not fit are undefined behaviour.
//! It fails for want of memory alone.
#![tactic(auto)]

ghost use Rattle.std.specs.Prelude.{◌≡◌, IfOk};
ghost use Rattle.ir_model.specs.Run.{run_of};

mod accesses;
mod addresses;
mod blocks;
mod bytes;
mod environment;
mod functions;
mod lanes;
mod noalias;
mod pairing;
mod slots;
mod step;
mod values;
mod vectors;

use functions::{function_at, run_func};
use ir_model::{Memory, Outcome, Values, runs_are_call_free};
use ir_types::Module;
use std::alloc::Global;
use vx_list::OutOfMemory;

/// The outcome of the function of a number, from 0 among the functions of the profile, on arguments and a memory, under a bound on
/// the blocks that run.
pub fn run(
    alloc: Global,
    m: &Module,
    func: u32,
    args: &Values,
    memory: Memory,
    bound: u64,
) -> Result<Outcome, OutOfMemory>
    ensures { IfOk result (λ outcome. outcome ≡ run_of m.now func args.now memory bound) }
{
    runs_are_call_free();
    match function_at(m.items.as_slice(), func) {
        Some(found) => run_func(alloc, m.globals.len(), found, args, memory, bound),
        None => Ok(Outcome::Undefined),
    }
}

#[cfg(test)]
mod tests;
