//! Trying a row: the call in memory, and whether its answer is the one that is wanted.
//!
//! The entry point is `try_row`; want of memory is its only failure. The streams are in memory and never fail, but that the output
//! is cut at a mebibyte, more than any row has.

ghost use Rattle.std.specs.Prelude.{◌≡◌, ◌↔◌, IsTrue};

use crate::row::Row;
use std::alloc::{AllocError, Global};
use vec_inspect::inspect_alone;
use vec_top::sandvec_alone;
use vx_io::{SteadySink, SteadySource};

/// The room of each output, in bytes.
const ROOM: usize = 1 << 20;

/// What a call answered.
#[derive(Drop)]
pub struct Answer {
    pub status: u8,
    pub out: Vec<u8>,
    pub err: Vec<u8>,
}

impl Answer {
    /// Whether this is what the row wants, to the byte.
    pub fn meets(&self, row: &Row) -> bool
        ensures { IsTrue result ↔ ((self.now.status ≡ row.now.status) × (self.now.out.items ≡ row.now.out.items) × (self.now.err.items ≡ row.now.err.items)) }
    {
        self.status == row.status
            && self.out.as_slice() == row.out.as_slice()
            && self.err.as_slice() == row.err.as_slice()
    }
}

/// The status of the call of some words: a question of `inspect` where they begin so, else a command of `sandvec`.
fn call(
    alloc: Global,
    words: &[String],
    input: &mut SteadySource,
    out: &mut SteadySink,
    err: &mut SteadySink,
) -> u8 {
    match words {
        [first, asked @ ..] if first.as_str() == "inspect" => inspect_alone(
            alloc, asked, input, out, err,
        ),
        _ => sandvec_alone(alloc, words, input, out, err),
    }
}

/// What the call of a row answers.
pub fn try_row(alloc: Global, row: &Row) -> Result<Answer, AllocError> {
    let mut input = SteadySource::new(Vec::from_slice(alloc, row.input.as_slice())?);
    let mut out = SteadySink::new(alloc, ROOM)?;
    let mut err = SteadySink::new(alloc, ROOM)?;
    let status = call(alloc, row.words.as_slice(), &mut input, &mut out, &mut err);
    Ok(Answer {
        status,
        out: Vec::from_slice(alloc, out.bytes())?,
        err: Vec::from_slice(alloc, err.bytes())?,
    })
}
