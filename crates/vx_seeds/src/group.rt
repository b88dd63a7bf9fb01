//! Groups: the stores of one root, one symbol and one width.
//!
//! `split` is the entry point. Want of memory is its only failure.

ghost use Rattle.std.specs.Prelude.{◌≡◌, IfOk, not, option_map};
ghost use Rattle.vx_view.specs.Conflicts.{same_root, same_symbol};
ghost use Rattle.vx_serial.specs.Regions.{is_alike, those};
ghost use Rattle.vx_seeds.specs.Spots.{as_spot, at, held, head};

use crate::spot::Spot;
use ir_types::{Id, Opd, OutOfMemory};
use std::alloc::Global;

/// Whether two roots are one value, one global, or poison.
fn same_root(a: &Opd, b: &Opd) -> bool
    ensures { result ≡ same_root a.now b.now }
{
    match (a, b) {
        (Opd::Val(a), Opd::Val(b)) => a.same(*b),
        (Opd::Sym(a), Opd::Sym(b)) => a == b,
        (Opd::Lit(_), Opd::Lit(_)) => true,
        _ => false,
    }
}

/// Whether two symbols are one, at one scale.
fn same_symbol(a: Option<(Id, u64)>, b: Option<(Id, u64)>) -> bool
    ensures { result ≡ same_symbol a b }
{
    match (a, b) {
        (None, None) => true,
        (Some((a, scale)), Some((b, other))) => a.same(b) && scale == other,
        _ => false,
    }
}

/// Whether two stores are of one group.
fn is_alike(a: &Spot, b: &Spot) -> bool
    ensures { result ≡ is_alike (as_spot a.now) (as_spot b.now) }
{
    same_root(&a.form.root, &b.form.root)
        && same_symbol(a.form.symbol, b.form.symbol)
        && a.size == b.size
}

/// The first of some stores.
pub(crate) fn first<'a>(spots: &[&'a Spot]) -> Option<&'a Spot>
    ensures { option_map at result ≡ head (held spots.now) }
{
    match spots {
        [first, ..] => Some(*first),
        [] => None,
    }
}

/// Those that are of a store's group.
pub(crate) fn alike<'a>(
    alloc: Global,
    first: &Spot,
    spots: &[&'a Spot],
) -> Result<Vec<&'a Spot>, OutOfMemory>
    ensures { IfOk result (λ group. held group.items ≡ those (is_alike (as_spot first.now)) (held spots.now)) }
{
    let mut group = Vec::new(alloc);
    let mut left = spots;
    while let [spot, more @ ..] = left {
        if is_alike(first, spot) {
            group.push(*spot)?;
        }
        left = more;
    }
    Ok(group)
}

/// Those that are not.
pub(crate) fn others<'a>(
    alloc: Global,
    first: &Spot,
    spots: &[&'a Spot],
) -> Result<Vec<&'a Spot>, OutOfMemory>
    ensures { IfOk result (λ others. held others.items ≡ those (λ t. not (is_alike (as_spot first.now) t)) (held spots.now)) }
{
    let mut others = Vec::new(alloc);
    let mut left = spots;
    while let [spot, more @ ..] = left {
        if !is_alike(first, spot) {
            others.push(*spot)?;
        }
        left = more;
    }
    Ok(others)
}
