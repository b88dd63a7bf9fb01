//! `Token`, a piece of a line, and `Tokens`, the list of a line's.
//!
//! A token is two places, counted from 0 in its line: of its first byte, and just after its last.

use vx_list::Seq;

/// Where a token stands in its line.
#[derive(Debug, Clone, Copy, PartialEq, Eq)]
pub struct Token {
    /// The place of its first byte, from 0.
    pub from: u32,
    /// The place just after its last byte.
    pub to: u32,
}

/// The tokens of a line in order. Contracts see the plain list.
pub type Tokens = Seq<Token>;
