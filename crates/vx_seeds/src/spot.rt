//! `Spot`: a store that may be in a region, with its address; and those of a block.
//!
//! `spots` is the entry point. It asks for the definitions that addresses follow. Want of memory is the only failure.

ghost use Rattle.std.specs.Prelude.{◌≡◌, ◌++◌, IfOk, OnOk};
ghost use Rattle.std.specs.Option.{option_copied};
ghost use Rattle.ir_types.specs.Typed.{is_scalar};
ghost use Rattle.ir_types.specs.Formed.{IsFormed};
ghost use Rattle.vx_view.specs.Blocks.{block_at};
ghost use Rattle.vx_view.specs.Conflicts.{bytes_of};
ghost use Rattle.vx_serial.specs.Regions as region;
ghost use Rattle.vx_seeds.specs.Spots.{as_spot, as_spots, spot_in, pointer_of, spot_at, IsThere};

use crate::index::Index;
use ir_types::{Id, Inst, Op, Opd, OutOfMemory, Place, Ty};
use std::alloc::Global;
use vx_addr::{Form, form};

/// A store of a scalar.
#[derive(Debug, Drop)]
pub(crate) struct Spot {
    pub(crate) store: Id,
    /// Its address.
    pub(crate) form: Form,
    /// How many bytes it writes.
    pub(crate) size: u16,
}

/// Whether a type is an integer.
fn is_scalar(ty: Ty) -> bool
    ensures { result ≡ is_scalar ty }
{
    match ty {
        Ty::Int(width) => matches!(width, 1 | 8 | 16 | 32 | 64),
        _ => false,
    }
}

/// How many bytes a value of a type has in memory.
fn bytes_of(ty: Ty) -> u16
    ensures { result ≡ bytes_of ty }
{
    match ty {
        Ty::Int(width) => u16::from(width / 8),
        Ty::Row { n, w } => u16::from(n) * u16::from(w / 8),
        _ => 0,
    }
}

/// The pointer of a store of a scalar.
fn pointer_of(inst: &Inst) -> Option<&Opd>
    ensures { option_copied result ≡ pointer_of inst.now }
{
    match (&inst.op, inst.opds.as_slice()) {
        (Op::Store { .. }, [_, pointer]) if is_scalar(inst.ty) => Some(pointer),
        _ => None,
    }
}

/// A store of a block through a pointer.
fn spot_at(
    alloc: Global,
    index: &mut Index<'_>,
    place: Place,
    inst: &Inst,
    pointer: &Opd,
) -> Result<Spot, OutOfMemory>
    requires formed { IsFormed index.old }
    requires there { IsThere inst.now.id (block_at index.old place) }
    ensures is { IfOk result (λ spot. as_spot spot ≡ spot_at (block_at index.old place) inst.now pointer.now) }
    ensures same { index.new ≡ index.old }
{
    let form = form(alloc, index, inst.id, pointer)?;
    Ok(Spot {
        store: inst.id,
        form,
        size: bytes_of(inst.ty),
    })
}

/// Adds an instruction of a block, if it may be in a region.
fn add(
    alloc: Global,
    index: &mut Index<'_>,
    place: Place,
    inst: &Inst,
    spots: &mut Vec<Spot>,
) -> Result<(), OutOfMemory>
    requires formed { IsFormed index.old }
    requires there { IsThere inst.now.id (block_at index.old place) }
    ensures is { OnOk result (as_spots spots.new.items ≡ as_spots spots.old.items ++ spot_in (block_at index.old place) inst.now) }
    ensures same { index.new ≡ index.old }
{
    match pointer_of(inst) {
        Some(pointer) => {
            let spot = spot_at(alloc, index, place, inst, pointer)?;
            spots.push(spot)?;
        }
        None => {}
    }
    Ok(())
}

/// The stores of scalars of a block, in order.
pub(crate) fn spots(
    alloc: Global,
    index: &mut Index<'_>,
    place: Place,
    block: &[Inst],
) -> Result<Vec<Spot>, OutOfMemory>
    requires formed { IsFormed index.old }
    requires there { block_at index.old place ≡ block.now }
    ensures is { IfOk result (λ spots. as_spots spots.items ≡ region.spots block.now) }
    ensures same { index.new ≡ index.old }
{
    let mut spots = Vec::new(alloc);
    for inst in block {
        add(alloc, index, place, inst, &mut spots)?;
    }
    Ok(spots)
}
