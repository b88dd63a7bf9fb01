//! Whether the values and blocks of each function can be numbered.
//!
//! `are_counted` is the one entry point. A function whose values and blocks pass a counter of 64 bits would fill any memory first.

ghost use Rattle.std.specs.Prelude.{◌≡◌, ◌+◌, ◌-◌, ◌^◌, min};
ghost use Rattle.vec_top.specs.Counts as counts;

use ir_types::{Block, Func, Item, Module};

/// So many and those of some blocks; the last value of the counter stands for all above it.
fn with_blocks(start: u64, blocks: &[Block]) -> u64
    ensures { result ≡ min (start + counts.blocks_size blocks.now) (2 ^ 64 - 1) }
{
    let mut count = start;
    for block in blocks {
        count = count
            .saturating_add(1)
            .saturating_add(block.insts.len() as u64);
    }
    count
}

/// The values and blocks of a function.
fn size_of(func: &Func) -> u64
    ensures { result ≡ min (counts.size_of func.now) (2 ^ 64 - 1) }
{
    with_blocks(func.params.len() as u64, func.blocks.as_slice())
}

fn is_counted(item: &Item) -> bool
    ensures { result ≡ counts.is_counted item.now }
{
    match item {
        Item::Func(func) => size_of(func) < u64::MAX,
        _ => true,
    }
}

/// Whether each function of a module has fewer values and blocks than a counter of 64 bits counts.
pub(crate) fn are_counted(m: &Module) -> bool
    ensures { result ≡ counts.are_counted m.now }
{
    for item in m.items.as_slice() {
        if !is_counted(item) {
            return false;
        }
    }
    true
}
