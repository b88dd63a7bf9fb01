//! Whether each use of a value comes after its definition on every walk.
//!
//! `check` is the one entry point. It takes any module, also one that is not formed: a target that is no block is no edge, and a
//! value that nothing defines stands on no walk. A refusal names the first use that is not available, with the shortest walk from
//! the entry along which the definition is missing, or says that there was no memory. Bit rows over the blocks show that a use is
//! available; only where they do not is it looked at by itself.
#![tactic(auto)]

ghost use Rattle.std.specs.Prelude.{◌≡◌, OnOk, IfErr};
ghost use Rattle.ir_types.specs.Available.{IsAvailable, IsAvailableItem, ItemMisses, IsFirstMiss};
ghost use Rattle.ir_avail.specs.Verdict.{Judges, BlamesFirst};

mod distances;
mod graph;
mod known;
mod least;
mod miss;
mod refusal;
mod rows;
#[cfg(test)]
mod tests;
mod uses;

use ir_types::{Item, Module};
pub use refusal::AvailRefusal;
use std::alloc::Global;
use uses::check_func;

/// Whether every use in every function of the profile is available along every walk: for each walk from the entry to it, the
/// definition stands on the walk before the use. Blocks that no walk reaches may use what they like. (Language Reference,
/// "Well-Formedness".)
pub fn check(alloc: Global, m: &Module) -> Result<(), AvailRefusal>
    ensures ok { OnOk result (IsAvailable m.now) }
    // the first use, in order of functions, of the text and of operands, and the shortest walk, the least among those
    ensures refused { IfErr result (λ refusal. BlamesFirst m.now refusal) }
{
    for (number, item) in m.items.as_slice().iter().enumerate() {
        check_item(alloc, number, item)?;
    }
    Ok(())
}

/// Whether each use of an item is available.
fn check_item(alloc: Global, number: usize, item: &Item) -> Result<(), AvailRefusal>
    ensures { Judges (IsAvailableItem number item.now)
        (λ user slot walk. ItemMisses user slot walk number item.now) result }
{
    match item {
        Item::Func(func) => check_func(alloc, func),
        _ => Ok(()),
    }
}
