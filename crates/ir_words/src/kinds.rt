//! What types a form asks for: `Kind`, and `fits`, whether a type is of it.
//!
//! Nothing here fails.

ghost use Rattle.std.specs.Prelude.{◌≡◌};
ghost use Rattle.ir_words.specs.Kinds as kinds;

use ir_types::Ty;

/// The types that may stand at a place of a form.
#[derive(Clone, Copy)]
pub enum Kind {
    /// An integer.
    Integer,
    /// An integer or a vector.
    Number,
    /// An integer of at least 8 bits.
    Byte,
    /// An integer of at least 8 bits, or a vector of such.
    Stored,
    /// An integer, a pointer or a vector.
    Value,
    /// A vector.
    Vector,
    /// A pointer.
    Pointer,
    /// An integer of one bit.
    Bit,
    /// An integer of one bit, or a vector of such.
    Choice,
    /// What such a condition chooses: of a vector, a vector of as many lanes.
    ChosenBy(Ty),
    /// This very type.
    Same(Ty),
    /// The integer that is a lane of this vector.
    LaneOf(Ty),
    /// A vector of 32 bits, as the masks of shuffles are.
    Mask,
    /// As many lanes as this type, each of more bits.
    WiderThan(Ty),
    /// As many lanes as this type, each of fewer bits.
    NarrowerThan(Ty),
}

/// Whether a type is an integer.
fn is_integer(ty: Ty) -> bool
    ensures { result ≡ kinds.is_integer ty }
{
    matches!(ty, Ty::Int(_))
}

/// Whether a type is a vector.
fn is_vector(ty: Ty) -> bool
    ensures { result ≡ kinds.is_vector ty }
{
    matches!(ty, Ty::Row { .. })
}

/// Whether a type is a pointer.
pub fn is_pointer(ty: Ty) -> bool
    ensures { result ≡ kinds.is_pointer ty }
{
    matches!(ty, Ty::Ptr)
}

/// The lanes of a vector; 0 of others.
pub fn lanes_of(ty: Ty) -> u8
    ensures { result ≡ kinds.lanes_of ty }
{
    match ty {
        Ty::Row { n, w: _ } => n,
        Ty::Void | Ty::Int(_) | Ty::Ptr => 0,
    }
}

/// Whether a type is what the condition chooses.
fn is_chosen(condition: Ty, ty: Ty) -> bool
    ensures { result ≡ kinds.is_chosen condition ty }
{
    match condition {
        Ty::Row { n, w: _ } => lanes_of(ty) == n,
        _ => true,
    }
}

/// Whether a type is of a kind.
pub fn fits(kind: Kind, ty: Ty) -> bool
    ensures { result ≡ kinds.fits kind ty }
{
    match kind {
        Kind::Integer => is_integer(ty),
        Kind::Number => is_integer(ty) || is_vector(ty),
        Kind::Byte => is_integer(ty) && ty.lane_width() != 1,
        Kind::Stored => (is_integer(ty) || is_vector(ty)) && ty.lane_width() != 1,
        Kind::Value => true,
        Kind::Vector => is_vector(ty),
        Kind::Pointer => is_pointer(ty),
        Kind::Bit => is_integer(ty) && ty.lane_width() == 1,
        Kind::Choice => ty.lane_width() == 1,
        Kind::ChosenBy(condition) => is_chosen(condition, ty),
        Kind::Same(other) => ty.same(other),
        Kind::LaneOf(row) => is_integer(ty) && ty.lane_width() == row.lane_width(),
        Kind::Mask => is_vector(ty) && ty.lane_width() == 32,
        Kind::WiderThan(other) => is_cast(other, ty) && other.lane_width() < ty.lane_width(),
        Kind::NarrowerThan(other) => is_cast(other, ty) && ty.lane_width() < other.lane_width(),
    }
}

/// Whether both are integers, or vectors of as many lanes.
fn is_cast(from: Ty, to: Ty) -> bool
    ensures { result ≡ kinds.is_cast from to }
{
    match (from, to) {
        (Ty::Int(_), Ty::Int(_)) => true,
        (Ty::Row { n, w: _ }, Ty::Row { n: m, w: _ }) => n == m,
        _ => false,
    }
}
