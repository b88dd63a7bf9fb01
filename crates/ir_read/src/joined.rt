//! Lines of a text, joined by line feeds.
//!
//! The entry point is `joined_lines`. Want of memory is the only failure. Carriage returns at the ends of lines are dropped, as they are
//! of no line.

ghost use Rattle.std.specs.Prelude.{◌≡◌, ◌++◌, suc, length, take, IfOk, OnOk, OnSome};
ghost use Rattle.ir_read.specs.Lines.{lines_of};
ghost use Rattle.ir_read.specs.Opaque as opaque;

use crate::lines::first_line;
use ir_types::Bytes;
use std::alloc::{AllocError, Global};

/// Adds so many lines of a text, or all, each after a line feed.
fn push_on_new_lines(out: &mut Vec<u8>, bytes: &[u8], count: u32) -> Result<(), AllocError>
    ensures { OnOk result (out.new.items ≡ out.old.items ++ opaque.on_new_lines (take count (lines_of bytes.now))) }
{
    let mut rest = bytes;
    let mut left = count;
    while left > 0 && !rest.is_empty() {
        let (line, after) = first_line(rest);
        out.push(b'\n')?;
        out.extend_from_slice(line)?;
        rest = after;
        left -= 1;
    }
    Ok(())
}

/// The first line of a text and so many after it, or all.
pub(crate) fn joined_lines(alloc: Global, bytes: &[u8], more: u32) -> Result<Bytes, AllocError>
    ensures { IfOk result (λ text. text ≡ opaque.joined (take (suc more) (lines_of bytes.now))) }
{
    let mut out = Vec::new(alloc);
    if !bytes.is_empty() {
        let (line, after) = first_line(bytes);
        out.extend_from_slice(line)?;
        push_on_new_lines(&mut out, after, more)?;
    }
    Bytes::from_vec(alloc, out)
}
