//! The regions of a block, by its stores.
//!
//! `block_regions` is the entry point: group by group, in each chain by chain, and then in the order of the first of their stores. Want of
//! memory is the only failure.

ghost use Rattle.std.specs.Prelude.{◌≡◌, ℕ, suc, [], ◌∷◌, ◌++◌, IfOk, OnOk, length};
ghost use Rattle.vx_serial.specs.Regions as region;
ghost use Rattle.vx_seeds.specs.Spots.{as_spot, as_spots, at, held};

use crate::chain::{chain, least, without};
use crate::group::{alike, first, others};
use crate::order::in_order;
use crate::piece::cut;
use crate::spot::Spot;
use ir_types::{Ids, OutOfMemory};
use std::alloc::Global;

/// Adds the regions of the chain with which a group begins, and gives the stores that are not in it.
fn add_chain<'a>(
    alloc: Global,
    width: u32,
    group: &[&'a Spot],
    regions: &mut Vec<Ids>,
) -> Result<Vec<&'a Spot>, OutOfMemory>
    ensures { IfOk result (λ rest. (n : ℕ) → regions.new.items ++ region.group_regions n width (held rest.items)
        ≡ regions.old.items ++ region.group_regions (suc n) width (held group.now)) }
{
    let Some(start) = least(group) else {
        return Ok(Vec::new(alloc));
    };
    let chain = chain(alloc, start, group)?;
    cut(alloc, width, start, &chain, regions)?;
    let rest = without(alloc, &chain, group)?;
    Ok(rest)
}

/// Adds the regions of a group, so many chains at most.
fn add_group(
    alloc: Global,
    width: u32,
    group: Vec<&Spot>,
    bound: usize,
    regions: &mut Vec<Ids>,
) -> Result<(), OutOfMemory>
    ensures { OnOk result (regions.new.items ≡ regions.old.items ++ region.group_regions bound width (held group.entry.items)) }
{
    let mut left = group;
    let mut bound = bound;
    while bound > 0 {
        left = add_chain(alloc, width, left.as_slice(), regions)?;
        bound -= 1;
    }
    Ok(())
}

/// Adds the regions of the group of the first store, and gives the stores of other groups.
fn add_first<'a>(
    alloc: Global,
    width: u32,
    spots: &[&'a Spot],
    regions: &mut Vec<Ids>,
) -> Result<Vec<&'a Spot>, OutOfMemory>
    ensures { IfOk result (λ rest. (n : ℕ) → regions.new.items ++ region.grouped n width (held rest.items)
        ≡ regions.old.items ++ region.grouped (suc n) width (held spots.now)) }
{
    let Some(first) = first(spots) else {
        return Ok(Vec::new(alloc));
    };
    let group = alike(alloc, first, spots)?;
    add_group(alloc, width, group, spots.len(), regions)?;
    let rest = others(alloc, first, spots)?;
    Ok(rest)
}

/// The regions of stores, group by group.
fn grouped(alloc: Global, width: u32, spots: &[&Spot]) -> Result<Vec<Ids>, OutOfMemory>
    ensures { IfOk result (λ regions. regions.items ≡ region.grouped (length spots.now) width (held spots.now)) }
{
    let mut regions = Vec::new(alloc);
    let mut left = Vec::from_slice(alloc, spots)?;
    let mut bound = spots.len();
    while bound > 0 {
        left = add_first(alloc, width, left.as_slice(), &mut regions)?;
        bound -= 1;
    }
    Ok(regions)
}

/// Stores by reference.
fn references(alloc: Global, spots: &[Spot]) -> Result<Vec<&Spot>, OutOfMemory>
    ensures { IfOk result (λ held_spots. held held_spots.items ≡ as_spots spots.now) }
{
    let mut references = Vec::new(alloc);
    let mut left = spots;
    while let [spot, more @ ..] = left {
        references.push(spot)?;
        left = more;
    }
    Ok(references)
}

/// The regions of a block, in vector registers of so many bits.
pub(crate) fn block_regions(
    alloc: Global,
    width: u32,
    spots: &[Spot],
) -> Result<Vec<Ids>, OutOfMemory>
    ensures { IfOk result (λ regions. regions.items
        ≡ region.in_order [] (as_spots spots.now) (region.grouped (length (as_spots spots.now)) width (as_spots spots.now))) }
{
    let held = references(alloc, spots)?;
    let regions = grouped(alloc, width, &held)?;
    let ordered = in_order(alloc, &held, &regions)?;
    Ok(ordered)
}
