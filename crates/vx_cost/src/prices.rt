//! The price of a list of instructions.
//!
//! The one entry point is `price`. It takes no memory and cannot fail.

ghost use Rattle.std.specs.Prelude.{◌≡◌};
ghost use Rattle.vx_cost.specs.Prices.{cost_of, price_of};

use crate::key::Key;
use ir_types::{Inst, Table};

/// The sum of the costs of the instructions, or 2^64 - 1 where the sum is greater. An instruction without a key costs 0.
pub fn price(list: &[Inst], t: &Table) -> u64
    ensures { result ≡ price_of t.now list.now }
{
    let mut total: u64 = 0;
    for inst in list {
        total = total.saturating_add(cost(inst, t));
    }
    total
}

/// What one instruction costs.
fn cost(inst: &Inst, t: &Table) -> u64
    ensures { result ≡ cost_of t.now inst.now }
{
    match Key::of(inst) {
        Some(key) => u64::from(t.costs[key.place()]),
        None => 0,
    }
}
