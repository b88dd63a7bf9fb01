//! `Resolved`: a module, and the line of each of its values and instructions.
//!
//! Nothing here fails.

ghost use Rattle.std.specs.Prelude.{◌≡◌};
ghost use Rattle.ir_types_check.specs.Resolved as resolved;

use ir_line::DraftItem;
use ir_types::{Module, Numbers};

/// A module whose names are looked up.
#[derive(Debug, Drop)]
pub struct Resolved {
    pub module: Module,
    /// For each `k` of an id the line, from 1: the header's for a parameter, its own for an instruction.
    pub lines: Numbers,
}

/// The first line that says that the layout is big-endian.
pub(crate) fn big_endian_line(items: &[DraftItem]) -> Option<u32>
    ensures { result ≡ resolved.big_endian_line items.now }
{
    let mut rest = items;
    'each: while let [item, after @ ..] = rest {
        if let Some(line) = big_line(item) {
            return Some(line);
        }
        rest = after;
    }
    None
}

/// The line of an item that says so.
fn big_line(item: &DraftItem) -> Option<u32>
    ensures { result ≡ resolved.big_line item.now }
{
    match item {
        DraftItem::Kept { line, kept } => { if kept.big_endian { Some(*line) } else { None } }
        _ => None,
    }
}
