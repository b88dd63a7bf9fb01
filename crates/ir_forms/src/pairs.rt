//! The pairs of a `phi`: a value and the block that it comes from.
//!
//! `pairs` stops where the words are no such pairs.

ghost use Rattle.std.specs.Prelude.{◌≡◌};
ghost use Rattle.ir_words.specs.Cursors.{left};
ghost use Rattle.ir_words.specs.Words.{Gives};
ghost use Rattle.ir_forms.specs.Operands as operands;

use crate::operands::{local, operand};
use ir_draft::{Arg, Stop};
use ir_types::{Names, Numbers, Ty};
use ir_words::cursor::Cursor;
use std::alloc::Global;
use vx_list::Seq;

/// Values with the blocks that they come from.
#[derive(Debug, Drop)]
pub struct Incoming {
    /// The values, each after the type of the `phi`.
    pub args: Seq<Arg>,
    /// The names of the blocks, one a value.
    pub labels: Names,
    /// The places of the blocks in `labels`, one a value.
    pub blocks: Numbers,
}

/// One pair at this place.
#[tactic(auto, unfolding(crate::specs::Operands::pair_at))]
fn pair<'a>(
    alloc: Global,
    found: &mut Incoming,
    ty: Ty,
    place: u32,
    at: Cursor<'a>,
) -> Result<Cursor<'a>, Stop>
    ensures { Gives (λ x. (found.new, left x)) result (operands.after_pairs found.old (operands.pair_at ty place (left at.entry))) }
{
    let rest = at.expect(b"[")?;
    let (opd, rest) = operand(alloc, ty, rest)?;
    let rest = rest.expect(b",")?;
    let (label, rest) = local(alloc, rest)?;
    let rest = rest.expect(b"]")?;
    found.args.push(Arg { ty, opd })?;
    found.labels.push(label)?;
    found.blocks.push(place)?;
    Ok(rest)
}

/// All pairs, joined by commas.
#[tactic(auto, unfolding(crate::specs::Operands::pairs_at))]
pub(crate) fn pairs<'a>(
    alloc: Global,
    ty: Ty,
    at: Cursor<'a>,
) -> Result<(Incoming, Cursor<'a>), Stop>
    ensures { Gives (λ x. (x.0, left x.1)) result (operands.pairs_at ty (left at.entry)) }
{
    let mut found = Incoming {
        args: Seq::new(alloc),
        labels: Names::new(alloc),
        blocks: Numbers::new(alloc),
    };
    let mut rest = at;
    let mut place: u32 = 0;
    let mut bound = at.tokens;
    'each: while let [_, fewer @ ..] = bound {
        bound = fewer;
        rest = pair(alloc, &mut found, ty, place, rest)?;
        if !rest.begins(b",") {
            return Ok((found, rest));
        }
        rest = rest.after_first();
        place = place.checked_add(1).ok_or(Stop::OutOfMemory)?;
    }
    Err(Stop::NotALine)
}
