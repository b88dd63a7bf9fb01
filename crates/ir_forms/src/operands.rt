//! Operands, aligns, masks and blocks at the front of the words.
//!
//! Each reader stops where no such part stands there.

ghost use Rattle.std.specs.Prelude.{◌≡◌};
ghost use Rattle.ir_words.specs.Cursors.{left};
ghost use Rattle.ir_words.specs.Words.{Gives, one};
ghost use Rattle.ir_words.specs.Values as values;
ghost use Rattle.ir_forms.specs.Operands as operands;

use ir_draft::{Arg, Stop, Written};
use ir_types::{Bytes, Lits, Ty};
use ir_words::cursor::Cursor;
use ir_words::kinds::{Kind, is_pointer, lanes_of};
use ir_words::literals::{lanes, literal};
use ir_words::types::{kind, row_of};
use ir_words::values::{align_of, bits_number, label_of, local_of, symbol_of};
use std::alloc::Global;
use vx_num::Lane;

/// A local.
pub fn local<'a>(alloc: Global, at: Cursor<'a>) -> Result<(Bytes, Cursor<'a>), Stop>
    ensures { Gives (λ x. (x.0, left x.1)) result (one values.local_of (left at.entry)) }
{
    let (word, rest) = at.next()?;
    Ok((local_of(alloc, word)?, rest))
}

/// A symbol, where a pointer is wanted.
#[tactic(auto, unfolding(crate::specs::Operands::symbol_at))]
fn symbol<'a>(alloc: Global, ty: Ty, at: Cursor<'a>) -> Result<(Bytes, Cursor<'a>), Stop>
    ensures { Gives (λ x. (x.0, left x.1)) result (operands.symbol_at ty (left at.entry)) }
{
    if !is_pointer(ty) {
        return Err(Stop::NotALine);
    }
    let (word, rest) = at.next()?;
    Ok((symbol_of(alloc, word)?, rest))
}

/// A symbol or a literal of a type.
#[tactic(auto, unfolding(crate::specs::Operands::unnamed_at))]
fn unnamed<'a>(alloc: Global, ty: Ty, at: Cursor<'a>) -> Result<(Written, Cursor<'a>), Stop>
    ensures { Gives (λ x. (x.0, left x.1)) result (operands.unnamed_at ty (left at.entry)) }
{
    match symbol(alloc, ty, at) {
        Err(Stop::NotALine) => literal(alloc, ty, at),
        found => {
            let (name, rest) = found?;
            Ok((Written::Symbol(name), rest))
        }
    }
}

/// An operand of a type.
#[tactic(auto, unfolding(crate::specs::Operands::operand_at))]
pub fn operand<'a>(alloc: Global, ty: Ty, at: Cursor<'a>) -> Result<(Written, Cursor<'a>), Stop>
    ensures { Gives (λ x. (x.0, left x.1)) result (operands.operand_at ty (left at.entry)) }
{
    match local(alloc, at) {
        Err(Stop::NotALine) => unnamed(alloc, ty, at),
        found => {
            let (name, rest) = found?;
            Ok((Written::Local(name), rest))
        }
    }
}

/// A comma and an operand.
#[tactic(auto, unfolding(crate::specs::Operands::next_operand_at))]
pub(crate) fn next_operand<'a>(
    alloc: Global,
    ty: Ty,
    at: Cursor<'a>,
) -> Result<(Written, Cursor<'a>), Stop>
    ensures { Gives (λ x. (x.0, left x.1)) result (operands.next_operand_at ty (left at.entry)) }
{
    let rest = at.expect(b",")?;
    operand(alloc, ty, rest)
}

/// An operand after its type, which is of a kind.
#[tactic(auto, unfolding(crate::specs::Operands::typed_at))]
pub(crate) fn typed<'a>(
    alloc: Global,
    wanted: Kind,
    at: Cursor<'a>,
) -> Result<(Arg, Cursor<'a>), Stop>
    ensures { Gives (λ x. (x.0, left x.1)) result (operands.typed_at wanted (left at.entry)) }
{
    let (ty, rest) = kind(wanted, at)?;
    let (opd, rest) = operand(alloc, ty, rest)?;
    Ok((Arg { ty, opd }, rest))
}

/// A comma and an operand after its type.
#[tactic(auto, unfolding(crate::specs::Operands::next_typed_at))]
pub(crate) fn next_typed<'a>(
    alloc: Global,
    wanted: Kind,
    at: Cursor<'a>,
) -> Result<(Arg, Cursor<'a>), Stop>
    ensures { Gives (λ x. (x.0, left x.1)) result (operands.next_typed_at wanted (left at.entry)) }
{
    let rest = at.expect(b",")?;
    typed(alloc, wanted, rest)
}

/// An align.
fn align<'a>(at: Cursor<'a>) -> Result<(u64, Cursor<'a>), Stop>
    ensures { Gives (λ x. (x.0, left x.1)) result (one values.align_of (left at.entry)) }
{
    let (word, rest) = at.next()?;
    Ok((align_of(word)?, rest))
}

/// An align after its comma.
#[tactic(auto, unfolding(crate::specs::Operands::given_at))]
fn given<'a>(at: Cursor<'a>) -> Result<(Option<u64>, Cursor<'a>), Stop>
    ensures { Gives (λ x. (x.0, left x.1)) result (operands.given_at (left at.entry)) }
{
    let rest = at.expect(b"align")?;
    let (align, rest) = align(rest)?;
    Ok((Some(align), rest))
}

/// An align, where a comma follows.
#[tactic(auto, unfolding(crate::specs::Operands::aligned_at))]
pub(crate) fn aligned<'a>(at: Cursor<'a>) -> Result<(Option<u64>, Cursor<'a>), Stop>
    ensures { Gives (λ x. (x.0, left x.1)) result (operands.aligned_at (left at.entry)) }
{
    if at.begins(b",") {
        return given(at.after_first());
    }
    Ok((None, at))
}

/// Whether an entry of a mask is poison or below `n`.
fn is_entry(n: u64, entry: Lane) -> bool
    ensures { result ≡ operands.is_entry n entry }
{
    match entry {
        None => true,
        Some(e) => e < n,
    }
}

/// Whether all entries of a mask are poison or below `n`.
fn all_entries(n: u64, lanes: &[Lane]) -> bool
    ensures { result ≡ operands.are_entries n lanes.now }
{
    lanes.iter().all(|entry| is_entry(n, *entry))
}

/// The entries of a mask of a type with the type of the result, where they choose among the lanes of two vectors of a type.
#[tactic(auto, unfolding(crate::specs::Operands::masked_by))]
fn masked_by(ty: Ty, row: Ty, entries: Lits) -> Result<(Ty, Lits), Stop>
    ensures { Gives (λ x. x) result (operands.masked_by ty row entries) }
{
    let shuffled = row_of(u64::from(lanes_of(row)), ty.lane_width())?;
    if all_entries(2 * u64::from(lanes_of(ty)), entries.as_lanes().as_slice()) {
        return Ok((shuffled, entries));
    }
    Err(Stop::NotALine)
}

/// The mask of a shuffle of two vectors of a type, with the type of the result.
#[tactic(auto, unfolding(crate::specs::Operands::mask_at))]
pub(crate) fn mask<'a>(
    alloc: Global,
    ty: Ty,
    at: Cursor<'a>,
) -> Result<((Ty, Lits), Cursor<'a>), Stop>
    ensures { Gives (λ x. (x.0, left x.1)) result (operands.mask_at ty (left at.entry)) }
{
    let rest = at.expect(b",")?;
    let (row, rest) = kind(Kind::Mask, rest)?;
    let (entries, rest) = lanes(alloc, row, rest)?;
    Ok((masked_by(ty, row, entries)?, rest))
}

/// A block.
#[tactic(auto, unfolding(crate::specs::Operands::target_at))]
pub(crate) fn target<'a>(alloc: Global, at: Cursor<'a>) -> Result<(Bytes, Cursor<'a>), Stop>
    ensures { Gives (λ x. (x.0, left x.1)) result (operands.target_at (left at.entry)) }
{
    let rest = at.expect(b"label")?;
    local(alloc, rest)
}

/// A comma and a block.
#[tactic(auto, unfolding(crate::specs::Operands::next_target_at))]
pub(crate) fn next_target<'a>(alloc: Global, at: Cursor<'a>) -> Result<(Bytes, Cursor<'a>), Stop>
    ensures { Gives (λ x. (x.0, left x.1)) result (operands.next_target_at (left at.entry)) }
{
    let rest = at.expect(b",")?;
    target(alloc, rest)
}

/// The name of a label, with its colon.
#[tactic(auto, unfolding(crate::specs::Operands::labelled_at))]
pub(crate) fn labelled<'a>(alloc: Global, at: Cursor<'a>) -> Result<(Bytes, Cursor<'a>), Stop>
    ensures { Gives (λ x. (x.0, left x.1)) result (operands.labelled_at (left at.entry)) }
{
    let (word, rest) = at.next()?;
    if !rest.begins(b":") {
        return Err(Stop::NotALine);
    }
    Ok((label_of(alloc, word)?, rest.after_first()))
}

/// The number of a case.
#[tactic(auto, unfolding(crate::specs::Operands::case_at))]
pub(crate) fn case_number<'a>(ty: Ty, at: Cursor<'a>) -> Result<(u64, Cursor<'a>), Stop>
    ensures { Gives (λ x. (x.0, left x.1)) result (operands.case_at ty (left at.entry)) }
{
    let (word, rest) = at.next()?;
    Ok((bits_number(ty.lane_width(), word)?, rest))
}
