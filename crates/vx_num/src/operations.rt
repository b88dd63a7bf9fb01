// The operations on lanes, as instructions name them, with the flags of binary ones.
// Nothing here fails. Each enum has one variant a keyword of the text; flags that do not belong to
// an operation may be set and mean nothing for it.

/// A binary operation (Language Reference, "Binary Operations" and "Bitwise Binary Operations").
#[derive(Clone, Copy, Debug, PartialEq, Eq)]
pub enum BinOp {
    /// The sum modulo 2^width.
    Add,
    /// The difference modulo 2^width.
    Sub,
    /// The product modulo 2^width.
    Mul,
    /// Shift to the left.
    Shl,
    /// Unsigned quotient.
    Udiv,
    /// Signed quotient, truncated toward zero.
    Sdiv,
    /// Unsigned remainder.
    Urem,
    /// Signed remainder, with the sign of the dividend.
    Srem,
    /// Shift to the right, filled with zeros.
    Lshr,
    /// Shift to the right, filled with the sign bit.
    Ashr,
    /// Bitwise and.
    And,
    /// Bitwise or.
    Or,
    /// Bitwise exclusive or.
    Xor,
}

/// What `icmp` asks: `u` is of the unsigned numbers, `s` of the signed ones
/// (Language Reference, "icmp").
#[derive(Clone, Copy, Debug, PartialEq, Eq)]
pub enum Pred {
    /// Equal.
    Eq,
    /// Not equal.
    Ne,
    /// Unsigned greater.
    Ugt,
    /// Unsigned greater or equal.
    Uge,
    /// Unsigned less.
    Ult,
    /// Unsigned less or equal.
    Ule,
    /// Signed greater.
    Sgt,
    /// Signed greater or equal.
    Sge,
    /// Signed less.
    Slt,
    /// Signed less or equal.
    Sle,
}

/// A conversion between widths (Language Reference, "Conversion Operations").
#[derive(Clone, Copy, Debug, PartialEq, Eq)]
pub enum CastOp {
    /// To a greater width, filled with zeros.
    Zext,
    /// To a greater width, filled with the sign bit.
    Sext,
    /// To a smaller width, by dropping the high bits.
    Trunc,
}

/// The flags of a binary operation. A set flag makes the result poison where what it states does
/// not hold; `Flags::default()` has none set.
#[derive(Clone, Copy, Debug, Default, PartialEq, Eq)]
pub struct Flags {
    /// No unsigned wrap: of `add`, `sub`, `mul`, `shl`.
    pub nuw: bool,
    /// No signed wrap: of `add`, `sub`, `mul`, `shl`.
    pub nsw: bool,
    /// No one bit or remainder is lost: of `udiv`, `sdiv`, `lshr`, `ashr`.
    pub exact: bool,
    /// The operands share no one bit: of `or`.
    pub disjoint: bool,
}
