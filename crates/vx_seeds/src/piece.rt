//! Pieces of a chain: powers of two of stores, from the front.
//!
//! `cut` is the entry point. Want of memory is its only failure.

ghost use Rattle.std.specs.Prelude.{◌≡◌, ◌++◌, ◌/◌, ◌*◌, IfOk, OnOk, length};
ghost use Rattle.vx_serial.specs.Regions as region;
ghost use Rattle.vx_seeds.specs.Spots.{as_spot, at, held};

use crate::spot::Spot;
use ir_types::{Id, Ids, OutOfMemory};
use std::alloc::Global;
use vx_list::Seq;

/// The greatest of 16, 8, 4 and 2 that is at most a number, or none.
fn power_in(number: usize) -> usize
    ensures { result ≡ region.power_in number }
{
    if number >= 16 {
        16
    } else if number >= 8 {
        8
    } else if number >= 4 {
        4
    } else if number >= 2 {
        2
    } else {
        0
    }
}

/// Adds the pieces of a list of stores, so many at once at most.
fn add_pieces(
    alloc: Global,
    lanes: usize,
    ids: &[Id],
    pieces: &mut Vec<Ids>,
) -> Result<(), OutOfMemory>
    ensures { OnOk result (pieces.new.items ≡ pieces.old.items ++ region.pieces (length ids.now) lanes ids.now) }
{
    let mut left = ids;
    let mut bound = ids.len();
    while bound > 0 {
        let size = power_in(lanes.min(left.len()));
        if size == 0 {
            return Ok(());
        }
        let (piece, more) = left.split_at(size);
        pieces.push(Seq::from_slice(alloc, piece)?)?;
        left = more;
        bound -= 1;
    }
    Ok(())
}

/// The stores of a chain by their ids.
fn ids_of(alloc: Global, chain: &[&Spot]) -> Result<Vec<Id>, OutOfMemory>
    ensures { IfOk result (λ ids. ids.items ≡ region.ids_of (held chain.now)) }
{
    let mut ids = Vec::new(alloc);
    let mut left = chain;
    while let [spot, more @ ..] = left {
        ids.push(spot.store)?;
        left = more;
    }
    Ok(ids)
}

/// How many numbers of so many bytes stand in a register of so many bits.
fn lanes_of(width: u32, size: u16) -> usize
    ensures { result ≡ width / (8 * size) }
{
    let bits = 8 * u32::from(size);
    match width.checked_div(bits) {
        Some(lanes) => lanes as usize,
        None => 0,
    }
}

/// Adds the regions of a chain that begins with a store, in registers of so many bits.
pub(crate) fn cut(
    alloc: Global,
    width: u32,
    first: &Spot,
    chain: &[&Spot],
    pieces: &mut Vec<Ids>,
) -> Result<(), OutOfMemory>
    ensures { OnOk result (pieces.new.items ≡ pieces.old.items ++ region.cut width (as_spot first.now) (held chain.now)) }
{
    let ids = ids_of(alloc, chain)?;
    add_pieces(alloc, lanes_of(width, first.size), &ids, pieces)
}
