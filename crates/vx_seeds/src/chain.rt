//! Chains: stores of one group, each of which begins where the one before it ends.
//!
//! `least`, `chain` and `without` are the entry points. Want of memory is the only failure.

ghost use Rattle.std.specs.Prelude.{◌≡◌, ◌+ℤ◌, pos, IfOk, not, option_map};
ghost use Rattle.vx_serial.specs.Regions as region;
ghost use Rattle.vx_serial.specs.Regions.{those, first_of};
ghost use Rattle.vx_seeds.specs.Spots.{as_spot, at, held, least_of};

use crate::spot::Spot;
use ir_types::OutOfMemory;
use std::alloc::Global;

/// The store with the least constant, the first of those.
pub(crate) fn least<'a>(spots: &[&'a Spot]) -> Option<&'a Spot>
    ensures { option_map at result ≡ least_of (held spots.now) }
{
    match spots {
        [first, others @ ..] => Some(least_from(first, others)),
        [] => None,
    }
}

/// The least of one and others.
fn least_from<'a>(first: &'a Spot, others: &[&'a Spot]) -> &'a Spot
    ensures { as_spot result.now ≡ region.least_from (as_spot first.now) (held others.now) }
{
    let mut best = first;
    let mut left = others;
    while let [spot, more @ ..] = left {
        if spot.form.constant < best.form.constant {
            best = *spot;
        }
        left = more;
    }
    best
}

/// Whether a constant is another with so many bytes more.
fn ends_at(begin: i64, size: u16, end: i64) -> bool
    ensures { result ≡ region.same_constant end (begin +ℤ pos size) }
{
    match begin.checked_add(i64::from(size)) {
        Some(sum) => end <= sum && sum <= end,
        None => false,
    }
}

/// Whether the second store begins where the first ends.
fn follows(a: &Spot, b: &Spot) -> bool
    ensures { result ≡ region.follows (as_spot a.now) (as_spot b.now) }
{
    ends_at(a.form.constant, a.size, b.form.constant)
}

/// The first that follows a store.
fn next<'a>(last: &Spot, spots: &[&'a Spot]) -> Option<&'a Spot>
    ensures { option_map at result ≡ first_of (region.follows (as_spot last.now)) (held spots.now) }
{
    let mut left = spots;
    while let [spot, more @ ..] = left {
        if follows(last, spot) {
            return Some(*spot);
        }
        left = more;
    }
    None
}

/// The chain that begins with a store.
pub(crate) fn chain<'a>(
    alloc: Global,
    first: &'a Spot,
    spots: &[&'a Spot],
) -> Result<Vec<&'a Spot>, OutOfMemory>
    ensures { IfOk result (λ chain. held chain.items ≡ region.chain (as_spot first.now) (held spots.now)) }
{
    let mut chain = Vec::new(alloc);
    chain.push(first)?;
    let mut last = first;
    let mut bound = spots.len();
    while bound > 0 {
        let Some(spot) = next(last, spots) else {
            return Ok(chain);
        };
        chain.push(spot)?;
        last = spot;
        bound -= 1;
    }
    Ok(chain)
}

/// Whether a chain has a store.
fn is_in(chain: &[&Spot], spot: &Spot) -> bool
    ensures { result ≡ region.is_in (held chain.now) (as_spot spot.now) }
{
    let mut left = chain;
    while let [other, more @ ..] = left {
        if other.store.same(spot.store) {
            return true;
        }
        left = more;
    }
    false
}

/// The stores that are not in a chain.
pub(crate) fn without<'a>(
    alloc: Global,
    chain: &[&'a Spot],
    spots: &[&'a Spot],
) -> Result<Vec<&'a Spot>, OutOfMemory>
    ensures { IfOk result (λ others. held others.items ≡ those (λ t. not (region.is_in (held chain.now) t)) (held spots.now)) }
{
    let mut others = Vec::new(alloc);
    let mut left = spots;
    while let [spot, more @ ..] = left {
        if !is_in(chain, spot) {
            others.push(*spot)?;
        }
        left = more;
    }
    Ok(others)
}
