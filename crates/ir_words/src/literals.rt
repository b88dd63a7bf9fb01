//! Literals at the front of the words.
//!
//! Each reader stops where no literal of the type stands there.

ghost use Rattle.std.specs.Prelude.{◌≡◌, ◌∷◌, [], IfOk};
ghost use Rattle.ir_types.specs.declared.ty.Ty.TheVariants.{Int};
ghost use Rattle.ir_words.specs.Cursors.{left};
ghost use Rattle.ir_words.specs.Words.{Gives, one};
ghost use Rattle.ir_words.specs.Values as values;
ghost use Rattle.ir_words.specs.Reading as reading;

use crate::cursor::Cursor;
use crate::types::width;
use crate::values::lane_of;
use ir_draft::{Stop, Written};
use ir_types::{Literal, Lits, Ty};
use std::alloc::{AllocError, Global};
use vx_num::Lane;

/// A lane of `w` bits.
fn lane<'a>(w: u8, at: Cursor<'a>) -> Result<(Lane, Cursor<'a>), Stop>
    ensures { Gives (λ x. (x.0, left x.1)) result (one (values.lane_of w) (left at.entry)) }
{
    let (word, rest) = at.next()?;
    Ok((lane_of(w, word)?, rest))
}

/// A lane of `w` bits after its type.
#[tactic(auto, unfolding(crate::specs::Reading::typed_lane))]
fn typed_lane<'a>(w: u8, at: Cursor<'a>) -> Result<(Lane, Cursor<'a>), Stop>
    ensures { Gives (λ x. (x.0, left x.1)) result (reading.typed_lane w (left at.entry)) }
{
    let (written, rest) = width(at)?;
    let (lane, rest) = lane(w, rest)?;
    if written == w {
        Ok((lane, rest))
    } else {
        Err(Stop::NotALine)
    }
}

/// The lanes of a list, with the `>` after them.
fn lanes_within<'a>(alloc: Global, w: u8, at: Cursor<'a>) -> Result<(Lits, Cursor<'a>), Stop>
    ensures { Gives (λ x. (x.0, left x.1)) result (reading.lanes_within (left at.entry) w (left at.entry)) }
{
    let mut found = Lits::new(alloc);
    let mut rest = at;
    let mut bound = at.tokens;
    'each: while let [_, fewer @ ..] = bound {
        bound = fewer;
        let (lane, after) = typed_lane(w, rest)?;
        found.push(lane)?;
        if !after.begins(b",") {
            return Ok((found, after.expect(b">")?));
        }
        rest = after.after_first();
    }
    Err(Stop::NotALine)
}

/// A list of `n` lanes after its `<`.
#[tactic(auto, unfolding(crate::specs::Reading::listed_at))]
fn listed<'a>(alloc: Global, n: u8, w: u8, at: Cursor<'a>) -> Result<(Lits, Cursor<'a>), Stop>
    ensures { Gives (λ x. (x.0, left x.1)) result (reading.listed_at n w (left at.entry)) }
{
    let (found, rest) = lanes_within(alloc, w, at)?;
    if found.len() == n as usize {
        Ok((found, rest))
    } else {
        Err(Stop::NotALine)
    }
}

/// A lane that stands for all, after its `splat`.
#[tactic(auto, unfolding(crate::specs::Reading::splat_at))]
fn splat<'a>(alloc: Global, n: u8, w: u8, at: Cursor<'a>) -> Result<(Lits, Cursor<'a>), Stop>
    ensures { Gives (λ x. (x.0, left x.1)) result (reading.splat_at n w (left at.entry)) }
{
    let rest = at.expect(b"(")?;
    let (lane, rest) = typed_lane(w, rest)?;
    let rest = rest.expect(b")")?;
    Ok((Lits::repeated(alloc, n, lane)?, rest))
}

/// The lanes of a vector.
#[tactic(auto, unfolding(crate::specs::Reading::row_lanes))]
fn row_lanes<'a>(alloc: Global, n: u8, w: u8, at: Cursor<'a>) -> Result<(Lits, Cursor<'a>), Stop>
    ensures { Gives (λ x. (x.0, left x.1)) result (reading.row_lanes n w (left at.entry)) }
{
    if at.begins(b"poison") {
        return Ok((Lits::repeated(alloc, n, None)?, at.after_first()));
    }
    if at.begins(b"zeroinitializer") {
        return Ok((Lits::repeated(alloc, n, Some(0))?, at.after_first()));
    }
    if at.begins(b"splat") {
        return splat(alloc, n, w, at.after_first());
    }
    let rest = at.expect(b"<")?;
    listed(alloc, n, w, rest)
}

/// One lane as a list.
fn single(alloc: Global, lane: Lane) -> Result<Lits, AllocError>
    ensures { IfOk result (λ x. x ≡ lane ∷ []) }
{
    let mut lanes = Lits::new(alloc);
    lanes.push(lane)?;
    Ok(lanes)
}

/// The lanes of an integer.
#[tactic(auto, unfolding(crate::specs::Reading::lanes_at))]
fn int_lanes<'a>(alloc: Global, w: u8, at: Cursor<'a>) -> Result<(Lits, Cursor<'a>), Stop>
    ensures { Gives (λ x. (x.0, left x.1)) result (reading.lanes_at (Int w) (left at.entry)) }
{
    let (lane, rest) = lane(w, at)?;
    Ok((single(alloc, lane)?, rest))
}

/// The lanes of a literal of a type.
#[tactic(auto, unfolding(crate::specs::Reading::lanes_at))]
pub fn lanes<'a>(alloc: Global, ty: Ty, at: Cursor<'a>) -> Result<(Lits, Cursor<'a>), Stop>
    ensures { Gives (λ x. (x.0, left x.1)) result (reading.lanes_at ty (left at.entry)) }
{
    match ty {
        Ty::Void => Err(Stop::NotALine),
        Ty::Ptr => {
            let rest = at.expect(b"poison")?;
            Ok((single(alloc, None)?, rest))
        }
        Ty::Int(w) => int_lanes(alloc, w, at),
        Ty::Row { n, w } => row_lanes(alloc, n, w, at),
    }
}

/// A literal of a type.
#[tactic(auto, unfolding(crate::specs::Reading::literal_at))]
pub fn literal<'a>(alloc: Global, ty: Ty, at: Cursor<'a>) -> Result<(Written, Cursor<'a>), Stop>
    ensures { Gives (λ x. (x.0, left x.1)) result (reading.literal_at ty (left at.entry)) }
{
    let (lanes, rest) = lanes(alloc, ty, at)?;
    Ok((Written::Lit(Literal { ty, lanes }), rest))
}
