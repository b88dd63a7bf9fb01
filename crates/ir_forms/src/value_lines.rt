//! The instructions that have a result.
//!
//! Each function reads what stands after the keyword of its form to the end of the line.

ghost use Rattle.std.specs.Prelude.{◌≡◌, ◌∷◌, []};
ghost use Rattle.ir_words.specs.Cursors.{left};
ghost use Rattle.ir_words.specs.Words.{Gives, one};
ghost use Rattle.ir_words.specs.Values as values;
ghost use Rattle.ir_forms.specs.Grammar.{read, ends};
ghost use Rattle.ir_forms.specs.Forms as forms;

use crate::operands::{aligned, mask, next_operand, next_typed, operand, typed};
use crate::pairs::{Incoming, pairs};
use ir_draft::{Arg, Args, Line, Stmt, Stop};
use ir_types::{Bytes, Elem, Names, Op, Ty};
use ir_words::cursor::Cursor;
use ir_words::flags::{FlagSet, flags, has};
use ir_words::kinds::Kind;
use ir_words::opcode::{Opcode, opcode_of, pred_of};
use ir_words::types::{elem, kind};
use std::alloc::Global;
use vx_list::Seq;
use vx_num::{BinOp, CastOp, Flags, Pred};

/// The form, where the line ends.
pub(crate) fn finish(at: Cursor, form: Line) -> Result<Line, Stop>
    ensures { Gives (λ x. x) result (ends form (left at.entry)) }
{
    match at.tokens {
        [] => Ok(form),
        _ => Err(Stop::NotALine),
    }
}

/// An instruction with a result.
fn gives(alloc: Global, name: Bytes, ty: Ty, op: Op, args: Args) -> Line
    ensures { result ≡ forms.gives name ty op args }
{
    Line::Stmt(Stmt {
        result: Some(name),
        ty,
        op,
        args,
        labels: Names::new(alloc),
    })
}

/// Three operands.
fn three(alloc: Global, a: Arg, b: Arg, c: Arg) -> Result<Args, Stop>
    ensures { Gives (λ x. x) result (Some (a ∷ b ∷ c ∷ [])) }
{
    let mut args = Seq::with_capacity(alloc, 3)?;
    args.push(a)?;
    args.push(b)?;
    args.push(c)?;
    Ok(Args::from_list(args))
}

/// The flags that a binary operation may have.
fn bin_flags(op: BinOp) -> FlagSet
    ensures { result ≡ forms.bin_flags op }
{
    match op {
        BinOp::Add | BinOp::Sub | BinOp::Mul | BinOp::Shl => FlagSet::Wrap,
        BinOp::Udiv | BinOp::Sdiv | BinOp::Lshr | BinOp::Ashr => FlagSet::Exact,
        BinOp::Urem | BinOp::Srem | BinOp::And | BinOp::Xor => FlagSet::Plain,
        BinOp::Or => FlagSet::Disjoint,
    }
}

/// The flags that these words are.
fn flags_of(at: Cursor) -> Flags
    ensures { result ≡ forms.flags_of (left at.entry) }
{
    Flags {
        nuw: has(at, b"nuw"),
        nsw: has(at, b"nsw"),
        exact: has(at, b"exact"),
        disjoint: has(at, b"disjoint"),
    }
}

/// A binary operation.
#[tactic(auto, using(crate::proofs::LineEnds::goes_on), unfolding(crate::specs::Forms::binary))]
fn binary(alloc: Global, name: Bytes, op: BinOp, at: Cursor) -> Result<Line, Stop>
    ensures { Gives (λ x. x) result (read forms.line_of (forms.binary name op) (left at.entry)) }
{
    let (found, rest) = flags(bin_flags(op), at)?;
    let (ty, rest) = kind(Kind::Number, rest)?;
    let (a, rest) = operand(alloc, ty, rest)?;
    let (b, rest) = next_operand(alloc, ty, rest)?;
    let flags = flags_of(found);
    let [] = rest.tokens else {
        return Err(Stop::NotALine);
    };
    let args = Args::two(Arg { ty, opd: a }, Arg { ty, opd: b });
    Ok(gives(alloc, name, ty, Op::Bin { op, flags }, args))
}

/// What a comparison asks.
fn comparison<'a>(at: Cursor<'a>) -> Result<(Pred, Cursor<'a>), Stop>
    ensures { Gives (λ x. (x.0, left x.1)) result (one values.pred_of (left at.entry)) }
{
    let (word, rest) = at.next()?;
    Ok((pred_of(word)?, rest))
}

/// The type of a comparison's result.
fn truth_of(ty: Ty) -> Ty
    ensures { result ≡ forms.truth_of ty }
{
    match ty {
        Ty::Row { n, w: _ } => Ty::Row { n, w: 1 },
        Ty::Void | Ty::Int(_) | Ty::Ptr => Ty::Int(1),
    }
}

/// A comparison.
#[tactic(auto, using(crate::proofs::LineEnds::goes_on), unfolding(crate::specs::Forms::compare))]
fn compare(alloc: Global, name: Bytes, at: Cursor) -> Result<Line, Stop>
    ensures { Gives (λ x. x) result (read forms.line_of (forms.compare name) (left at.entry)) }
{
    let (_, rest) = flags(FlagSet::SameSign, at)?;
    let (pred, rest) = comparison(rest)?;
    let (ty, rest) = kind(Kind::Number, rest)?;
    let (a, rest) = operand(alloc, ty, rest)?;
    let (b, rest) = next_operand(alloc, ty, rest)?;
    let [] = rest.tokens else {
        return Err(Stop::NotALine);
    };
    let args = Args::two(Arg { ty, opd: a }, Arg { ty, opd: b });
    Ok(gives(alloc, name, truth_of(ty), Op::Icmp { pred }, args))
}

/// The flags that a cast may have.
fn cast_flags(op: CastOp) -> FlagSet
    ensures { result ≡ forms.cast_flags op }
{
    match op {
        CastOp::Zext => FlagSet::NonNegative,
        CastOp::Sext => FlagSet::Plain,
        CastOp::Trunc => FlagSet::Wrap,
    }
}

/// What a type may be cast to.
fn cast_kind(op: CastOp, ty: Ty) -> Kind
    ensures { result ≡ forms.cast_kind op ty }
{
    match op {
        CastOp::Zext | CastOp::Sext => Kind::WiderThan(ty),
        CastOp::Trunc => Kind::NarrowerThan(ty),
    }
}

/// A cast.
#[tactic(auto, using(crate::proofs::LineEnds::goes_on), unfolding(crate::specs::Forms::convert))]
fn convert(alloc: Global, name: Bytes, op: CastOp, at: Cursor) -> Result<Line, Stop>
    ensures { Gives (λ x. x) result (read forms.line_of (forms.convert name op) (left at.entry)) }
{
    let (found, rest) = flags(cast_flags(op), at)?;
    let (a, rest) = typed(alloc, Kind::Number, rest)?;
    let rest = rest.expect(b"to")?;
    let (ty, rest) = kind(cast_kind(op, a.ty), rest)?;
    let nneg = has(found, b"nneg");
    let [] = rest.tokens else {
        return Err(Stop::NotALine);
    };
    Ok(gives(alloc, name, ty, Op::Cast { op, nneg }, Args::one(a)))
}

/// A choice of two values.
#[tactic(auto, using(crate::proofs::LineEnds::goes_on), unfolding(crate::specs::Forms::select))]
fn select(alloc: Global, name: Bytes, at: Cursor) -> Result<Line, Stop>
    ensures { Gives (λ x. x) result (read forms.line_of (forms.select name) (left at.entry)) }
{
    let (condition, rest) = typed(alloc, Kind::Choice, at)?;
    let (a, rest) = next_typed(alloc, Kind::ChosenBy(condition.ty), rest)?;
    let (b, rest) = next_typed(alloc, Kind::Same(a.ty), rest)?;
    let [] = rest.tokens else {
        return Err(Stop::NotALine);
    };
    let ty = a.ty;
    let args = three(alloc, condition, a, b)?;
    Ok(gives(alloc, name, ty, Op::Select, args))
}

/// A lane of a vector.
#[tactic(auto, using(crate::proofs::LineEnds::goes_on), unfolding(crate::specs::Forms::extract))]
fn extract(alloc: Global, name: Bytes, at: Cursor) -> Result<Line, Stop>
    ensures { Gives (λ x. x) result (read forms.line_of (forms.extract name) (left at.entry)) }
{
    let (row, rest) = typed(alloc, Kind::Vector, at)?;
    let (index, rest) = next_typed(alloc, Kind::Integer, rest)?;
    let ty = Ty::Int(row.ty.lane_width());
    let [] = rest.tokens else {
        return Err(Stop::NotALine);
    };
    Ok(gives(alloc, name, ty, Op::Extract, Args::two(row, index)))
}

/// A vector with another lane.
#[tactic(auto, using(crate::proofs::LineEnds::goes_on), unfolding(crate::specs::Forms::insert))]
fn insert(alloc: Global, name: Bytes, at: Cursor) -> Result<Line, Stop>
    ensures { Gives (λ x. x) result (read forms.line_of (forms.insert name) (left at.entry)) }
{
    let (row, rest) = typed(alloc, Kind::Vector, at)?;
    let (lane, rest) = next_typed(alloc, Kind::LaneOf(row.ty), rest)?;
    let (index, rest) = next_typed(alloc, Kind::Integer, rest)?;
    let [] = rest.tokens else {
        return Err(Stop::NotALine);
    };
    let ty = row.ty;
    let args = three(alloc, row, lane, index)?;
    Ok(gives(alloc, name, ty, Op::Insert, args))
}

/// Lanes of two vectors.
#[tactic(auto, using(crate::proofs::LineEnds::goes_on), unfolding(crate::specs::Forms::shuffle))]
fn shuffle(alloc: Global, name: Bytes, at: Cursor) -> Result<Line, Stop>
    ensures { Gives (λ x. x) result (read forms.line_of (forms.shuffle name) (left at.entry)) }
{
    let (a, rest) = typed(alloc, Kind::Vector, at)?;
    let (b, rest) = next_typed(alloc, Kind::Same(a.ty), rest)?;
    let ((ty, mask), rest) = mask(alloc, a.ty, rest)?;
    let [] = rest.tokens else {
        return Err(Stop::NotALine);
    };
    Ok(gives(alloc, name, ty, Op::Shuffle { mask }, Args::two(a, b)))
}

/// The end of a `getelementptr` into an array: another index, or none.
fn into_array(
    alloc: Global,
    name: Bytes,
    op: Op,
    pointer: Arg,
    index: Arg,
    at: Cursor,
) -> Result<Line, Stop>
    ensures { Gives (λ x. x) result (forms.into_array name op pointer index (left at.entry)) }
{
    match next_typed(alloc, Kind::Integer, at) {
        Err(Stop::NotALine) => {
            let args = Args::two(pointer, index);
            finish(at, gives(alloc, name, Ty::Ptr, op, args))
        }
        found => {
            let (second, rest) = found?;
            let args = three(alloc, pointer, index, second)?;
            finish(rest, gives(alloc, name, Ty::Ptr, op, args))
        }
    }
}

/// A pointer some way on: over an array there may be another index.
#[tactic(auto, unfolding(crate::specs::Forms::step, crate::specs::Forms::stepped))]
fn step(alloc: Global, name: Bytes, at: Cursor) -> Result<Line, Stop>
    ensures { Gives (λ x. x) result (read forms.line_of (forms.step name) (left at.entry)) }
{
    let (found, rest) = flags(FlagSet::Address, at)?;
    let (elem, rest) = elem(Kind::Byte, rest)?;
    let (pointer, rest) = next_typed(alloc, Kind::Pointer, rest)?;
    let (index, rest) = next_typed(alloc, Kind::Integer, rest)?;
    let inbounds = has(found, b"inbounds");
    let op = Op::Gep { elem, inbounds };
    match elem {
        Elem::One(_) => {
            let args = Args::two(pointer, index);
            finish(rest, gives(alloc, name, Ty::Ptr, op, args))
        }
        Elem::Array { .. } => into_array(alloc, name, op, pointer, index, rest),
    }
}

/// A load.
#[tactic(auto, using(crate::proofs::LineEnds::goes_on), unfolding(crate::specs::Forms::load))]
fn load(alloc: Global, name: Bytes, at: Cursor) -> Result<Line, Stop>
    ensures { Gives (λ x. x) result (read forms.line_of (forms.load name) (left at.entry)) }
{
    let (ty, rest) = kind(Kind::Stored, at)?;
    let (pointer, rest) = next_typed(alloc, Kind::Pointer, rest)?;
    let (align, rest) = aligned(rest)?;
    let [] = rest.tokens else {
        return Err(Stop::NotALine);
    };
    let op = Op::Load {
        align: align.unwrap_or(1),
    };
    Ok(gives(alloc, name, ty, op, Args::one(pointer)))
}

/// A new object.
#[tactic(auto, unfolding(crate::specs::Forms::allocate))]
fn allocate(alloc: Global, name: Bytes, at: Cursor) -> Result<Line, Stop>
    ensures { Gives (λ x. x) result (read forms.line_of (forms.allocate name) (left at.entry)) }
{
    let (elem, rest) = elem(Kind::Stored, at)?;
    let (align, rest) = aligned(rest)?;
    let stmt = Stmt {
        result: Some(name),
        ty: Ty::Ptr,
        op: Op::Alloca { elem, align },
        args: Args::none(),
        labels: Names::new(alloc),
    };
    finish(rest, Line::Stmt(stmt))
}

/// A value by the block before.
#[tactic(auto, unfolding(crate::specs::Forms::phi))]
fn phi(alloc: Global, name: Bytes, at: Cursor) -> Result<Line, Stop>
    ensures { Gives (λ x. x) result (read forms.line_of (forms.phi name) (left at.entry)) }
{
    let (ty, rest) = kind(Kind::Value, at)?;
    let (found, rest) = pairs(alloc, ty, rest)?;
    let Incoming {
        args,
        labels,
        blocks,
    } = found;
    let stmt = Stmt {
        result: Some(name),
        ty,
        op: Op::Phi { blocks },
        args: Args::from_list(args),
        labels,
    };
    finish(rest, Line::Stmt(stmt))
}

/// What stands after the keyword of an operation with a result.
#[tactic(auto, unfolding(crate::specs::Forms::by_code))]
fn by_code(alloc: Global, name: Bytes, code: Opcode, at: Cursor) -> Result<Line, Stop>
    ensures { Gives (λ x. x) result (read forms.line_of (forms.by_code name code) (left at.entry)) }
{
    match code {
        Opcode::Bin(op) => binary(alloc, name, op, at),
        Opcode::Cast(op) => convert(alloc, name, op, at),
        Opcode::Icmp => compare(alloc, name, at),
        Opcode::Select => select(alloc, name, at),
        Opcode::Extract => extract(alloc, name, at),
        Opcode::Insert => insert(alloc, name, at),
        Opcode::Shuffle => shuffle(alloc, name, at),
        Opcode::Gep => step(alloc, name, at),
        Opcode::Load => load(alloc, name, at),
        Opcode::Alloca => allocate(alloc, name, at),
        Opcode::Phi => phi(alloc, name, at),
    }
}

/// The keyword of an operation with a result.
fn code<'a>(at: Cursor<'a>) -> Result<(Opcode, Cursor<'a>), Stop>
    ensures { Gives (λ x. (x.0, left x.1)) result (one values.opcode_of (left at.entry)) }
{
    let (word, rest) = at.next()?;
    Ok((opcode_of(word)?, rest))
}

/// What stands after the name of a result.
#[tactic(auto, unfolding(crate::specs::Forms::value_line))]
pub(crate) fn value_line(alloc: Global, name: Bytes, at: Cursor) -> Result<Line, Stop>
    ensures { Gives (λ x. x) result (read forms.line_of (forms.value_line name) (left at.entry)) }
{
    let rest = at.expect(b"=")?;
    let (code, rest) = code(rest)?;
    by_code(alloc, name, code, rest)
}
