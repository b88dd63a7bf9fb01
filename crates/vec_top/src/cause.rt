//! `Cause`: why a text is no module that the program accepts.
//!
//! `push_said` writes what is said of a cause; want of memory is its only failure.

ghost use Rattle.std.specs.Prelude.{◌≡◌, ◌++◌, codes, OnOk};
ghost use Rattle.std.specs.Fmt.{decimal};
ghost use Rattle.vec_top.specs.Replies as replies;

use ir_read::Limit;
use ir_types::{Bytes, Numbers};
use itoa::Buffer;
use std::alloc::AllocError;
use thiserror::Error;

/// The first cause against a text, in the order of the checks. Lines and bytes are counted from 1, names have their sigil.
#[derive(Debug, Drop, Error)]
pub enum Cause {
    /// A byte that no line may have, or the quote of a string that does not close.
    #[error("line {line} byte {byte}: lexical fault")]
    Lex {
        line: u32,
        byte: u32,
    },
    /// A line outside the profile.
    #[error("line {line}: not a line of the profile")]
    NotALine {
        line: u32,
    },
    /// A line of the profile in the wrong place.
    #[error("line {line}: misplaced")]
    Misplaced {
        line: u32,
    },
    /// A limit is passed.
    #[error("limit: {limit}")]
    Passes {
        limit: Limit,
    },
    /// A name that an earlier line has defined.
    #[error("line {line}: a name is defined twice")]
    TwiceDefined {
        line: u32,
        name: Bytes,
    },
    /// A name that nothing defines.
    #[error("line {line}: a name is unknown")]
    Unknown {
        line: u32,
        name: Bytes,
    },
    /// A line whose types, targets, cases or incoming blocks do not fit.
    #[error("line {line}: ill typed")]
    IllTyped {
        line: u32,
    },
    /// A use whose definition does not stand before it along these blocks, by their numbers from 0.
    #[error("line {line}: a value is not available")]
    NotAvailable {
        line: u32,
        name: Bytes,
        walk: Numbers,
    },
    /// A layout with the high byte first.
    #[error("line {line}: big-endian layout")]
    BigEndian {
        line: u32,
    },
}

impl Cause {
    /// The exit status: that of a limit, or that of a text that is no module.
    pub(crate) fn status(&self) -> u8
        ensures { result ≡ replies.status_for self.now }
    {
        match self {
            Cause::Passes { .. } => 5,
            _ => 1,
        }
    }
}

pub(crate) fn push_decimal(out: &mut Vec<u8>, n: u32) -> Result<(), AllocError>
    ensures { OnOk result (out.new.items ≡ out.old.items ++ decimal n) }
{
    let mut buffer = Buffer::new();
    out.extend_from_slice(buffer.format(n).as_bytes())?;
    Ok(())
}

/// What is said of a line.
fn push_line(out: &mut Vec<u8>, line: u32, what: &[u8]) -> Result<(), AllocError>
    ensures { OnOk result (out.new.items ≡ out.old.items ++ replies.said_of_line line what.now) }
{
    out.extend_from_slice(b"line ")?;
    push_decimal(out, line)?;
    out.extend_from_slice(b": ")?;
    out.extend_from_slice(what)?;
    Ok(())
}

/// What is said of a name in a line.
fn push_named(out: &mut Vec<u8>, line: u32, name: &[u8], what: &[u8]) -> Result<(), AllocError>
    ensures { OnOk result (out.new.items ≡ out.old.items ++ replies.said_of_line line (name.now ++ what.now)) }
{
    push_line(out, line, name)?;
    out.extend_from_slice(what)?;
    Ok(())
}

/// What is said of a lexical fault after its byte.
fn push_lexical(out: &mut Vec<u8>) -> Result<(), AllocError>
    ensures { OnOk result (out.new.items ≡ out.old.items ++ codes ": lexical fault") }
{
    out.extend_from_slice(b": lexical fault")?;
    Ok(())
}

fn push_byte(out: &mut Vec<u8>, byte: u32) -> Result<(), AllocError>
    ensures { OnOk result (out.new.items ≡ out.old.items ++ (codes " byte " ++ (decimal byte ++ codes ": lexical fault"))) }
{
    out.extend_from_slice(b" byte ")?;
    push_decimal(out, byte)?;
    push_lexical(out)?;
    Ok(())
}

fn push_lex(out: &mut Vec<u8>, line: u32, byte: u32) -> Result<(), AllocError>
    ensures { OnOk result (out.new.items ≡ out.old.items ++ (codes "line " ++ (decimal line ++ (codes " byte " ++ (decimal byte ++ codes ": lexical fault"))))) }
{
    out.extend_from_slice(b"line ")?;
    push_decimal(out, line)?;
    push_byte(out, byte)?;
    Ok(())
}

/// The blocks of a walk, each after a space.
fn push_walk(out: &mut Vec<u8>, walk: &[u32]) -> Result<(), AllocError>
    ensures { OnOk result (out.new.items ≡ out.old.items ++ replies.walk_text walk.now) }
{
    for block in walk {
        out.extend_from_slice(b" ")?;
        push_decimal(out, *block)?;
    }
    Ok(())
}

fn push_missed(out: &mut Vec<u8>, line: u32, name: &[u8], walk: &[u32]) -> Result<(), AllocError>
    ensures { OnOk result (out.new.items ≡ out.old.items ++ replies.said_of_line line (name.now ++ (codes " not available along blocks" ++ replies.walk_text walk.now))) }
{
    push_named(out, line, name, b" not available along blocks")?;
    push_walk(out, walk)?;
    Ok(())
}

fn push_limit(out: &mut Vec<u8>, limit: Limit) -> Result<(), AllocError>
    ensures { OnOk result (out.new.items ≡ out.old.items ++ replies.limit_text limit) }
{
    match limit {
        Limit::Instructions => out.extend_from_slice(b"limit: instructions"),
        Limit::Values => out.extend_from_slice(b"limit: values"),
        Limit::Blocks => out.extend_from_slice(b"limit: blocks"),
    }
}

/// What is said of a cause.
pub(crate) fn push_said(out: &mut Vec<u8>, cause: &Cause) -> Result<(), AllocError>
    ensures { OnOk result (out.new.items ≡ out.old.items ++ replies.said_of_cause cause.now) }
{
    match cause {
        Cause::Lex { line, byte } => push_lex(out, *line, *byte),
        Cause::NotALine { line } => push_line(out, *line, b"not a line of the profile"),
        Cause::Misplaced { line } => push_line(out, *line, b"misplaced"),
        Cause::Passes { limit } => push_limit(out, *limit),
        Cause::TwiceDefined { line, name } => push_named(
            out,
            *line,
            name.as_slice(),
            b" defined twice",
        ),
        Cause::Unknown { line, name } => push_named(out, *line, name.as_slice(), b" unknown"),
        Cause::IllTyped { line } => push_line(out, *line, b"ill typed"),
        Cause::NotAvailable { line, name, walk } => push_missed(
            out,
            *line,
            name.as_slice(),
            walk.as_slice(),
        ),
        Cause::BigEndian { line } => push_line(out, *line, b"big-endian layout"),
    }
}
