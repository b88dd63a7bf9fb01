//! What is known of all values of a function at once, so that most uses are seen to be available in one step.
//!
//! `Known::new` fails for want of memory alone. `Known::clears` says yes only where the use is available; where it says no, the
//! use is to be looked at by itself. The map from ids to places is a hint: each place is looked up in the function again.

ghost use Rattle.std.specs.Prelude.{◌≡◌, true, IfOk, slice_index};
ghost use Rattle.ir_types.specs.Available.{is_param, insts_at, graph_of, IsAvailableAt};
ghost use Rattle.ir_avail.specs.Rows.{IsBand};
ghost use Rattle.ir_avail.specs.Known.{AreBands};
ghost use Rattle.ir_avail.specs.Places.{StandsAt};

use crate::graph::Graph;
use crate::miss::insts_at;
use crate::rows::Band;
use ir_types::{Func, Id, IdTable};
use std::alloc::{AllocError, Global};

/// Where a value is defined.
#[derive(Clone, Copy)]
enum Home {
    /// The parameter of this number.
    Param(usize),
    /// The instruction at this position of its block, which has this column of the bands, 64 in each.
    Inst { column: usize, position: usize },
}

/// A use: walks to it end in block `end`, of which `before` instructions stand before it.
#[derive(Clone, Copy)]
pub(crate) struct Asked {
    /// The value that is used.
    pub(crate) value: Id,
    pub(crate) before: usize,
    pub(crate) end: usize,
}

/// Places of values, and the rows of those that instructions define.
#[derive(Drop)]
pub(crate) struct Known {
    homes: IdTable<Home>,
    bands: Vec<Band>,
}

impl Known {
    /// What is known of a function.
    pub(crate) fn new(alloc: Global, func: &Func, graph: &Graph) -> Result<Known, AllocError>
        ensures { IfOk result (λ known. AreBands graph.now known.bands.items) }
    {
        let mut homes = IdTable::new(alloc);
        for (number, param) in func.params.as_slice().iter().enumerate() {
            homes.set(param.id, Home::Param(number))?;
        }
        let blocks = inst_homes(alloc, func, &mut homes)?;
        let bands = bands(alloc, graph, &blocks)?;
        Ok(Known { homes, bands })
    }

    /// Whether the use is seen to be available.
    pub(crate) fn clears(&self, func: &Func, at: Asked) -> bool
        requires { AreBands (graph_of func.now) self.now.bands.items }
        ensures { result ≡ true → IsAvailableAt func.now at.value at.before at.end }
    {
        match self.homes.get(at.value) {
            Some(Home::Param(number)) => is_param_at(func, at.value, *number),
            Some(Home::Inst { column, position }) => {
                self.clears_inst(func, at, *column, *position)
            }
            None => false,
        }
    }

    /// The same of a value that an instruction may define.
    fn clears_inst(&self, func: &Func, at: Asked, column: usize, position: usize) -> bool
        requires { AreBands (graph_of func.now) self.now.bands.items }
        ensures { result ≡ true → IsAvailableAt func.now at.value at.before at.end }
    {
        match self.bands.get(column / 64) {
            Some(band) => clears_in(func, at, band, column % 64, position),
            None => false,
        }
    }
}

/// The same of a value in a column of a band.
fn clears_in(func: &Func, at: Asked, band: &Band, column: usize, position: usize) -> bool
    requires { IsBand (graph_of func.now) band.now.homes.items band.now.rows.items }
    ensures { result ≡ true → IsAvailableAt func.now at.value at.before at.end }
{
    match band.homes.get(column) {
        Some(home) => clears_at(func, at, band, *home, column, position),
        None => false,
    }
}

/// The same of a value that may be defined at a position of its home.
fn clears_at(
    func: &Func,
    at: Asked,
    band: &Band,
    home: usize,
    column: usize,
    position: usize,
) -> bool
    requires band { IsBand (graph_of func.now) band.now.homes.items band.now.rows.items }
    requires home { slice_index band.now.homes.items column ≡ home }
    ensures { result ≡ true → IsAvailableAt func.now at.value at.before at.end }
{
    if !stands_at(func, at.value, home, position) {
        return false;
    }
    if home == at.end && position < at.before {
        return true;
    }
    band.is_clear(column, at.end)
}

/// Whether the instruction at a position of a block defines the value.
fn stands_at(func: &Func, value: Id, block: usize, position: usize) -> bool
    ensures { result ≡ true → StandsAt value (insts_at func.now block) position }
{
    match insts_at(func, block).get(position) {
        Some(inst) => inst.id.same(value),
        None => false,
    }
}

/// Whether the parameter of a number is the value.
fn is_param_at(func: &Func, value: Id, number: usize) -> bool
    ensures { result ≡ true → is_param value func.now ≡ true }
{
    match func.params.get(number) {
        Some(param) => param.id.same(value),
        None => false,
    }
}

/// Notes the place of each instruction in order of text, and gives their blocks.
fn inst_homes(
    alloc: Global,
    func: &Func,
    homes: &mut IdTable<Home>,
) -> Result<Vec<usize>, AllocError> {
    let mut blocks = Vec::new(alloc);
    for (number, block) in func.blocks.as_slice().iter().enumerate() {
        for (position, inst) in block.insts.as_slice().iter().enumerate() {
            let column = blocks.len();
            homes.set(inst.id, Home::Inst { column, position })?;
            blocks.push(number)?;
        }
    }
    Ok(blocks)
}

/// The bands of values that are defined in these blocks, 64 in each.
fn bands(alloc: Global, graph: &Graph, homes: &[usize]) -> Result<Vec<Band>, AllocError>
    ensures { IfOk result (λ bands. AreBands graph.now bands.items) }
{
    let mut bands = Vec::new(alloc);
    for part in homes.chunks(64) {
        bands.push(Band::new(alloc, graph, part)?)?;
    }
    Ok(bands)
}
