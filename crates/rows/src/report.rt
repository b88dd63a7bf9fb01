//! What is told of rows: those that differ, how many held, and a line that is of no row.
//!
//! Each function adds whole lines to a text; want of memory is the only failure. Bytes that would not be seen are written `\HH`, as
//! in a file of rows, so that an answer can be copied into one.

use crate::row::Row;
use crate::trial::Answer;
use std::alloc::{AllocError, Global};

/// Adds a byte as a file of rows has it.
fn tell_byte(told: &mut Vec<u8>, alloc: Global, byte: u8) -> Result<(), AllocError> {
    if byte == b'\\' || byte < 32 || byte > 126 {
        told.extend_from_slice(format!(in alloc; "\\{byte:02X}")?.as_bytes())
    } else {
        told.push(byte)?;
        Ok(())
    }
}

/// Adds the lines of a text, each as a file of rows has it.
fn tell_text(told: &mut Vec<u8>, alloc: Global, text: &[u8]) -> Result<(), AllocError> {
    let mut begun = false;
    for byte in text {
        if !begun {
            told.extend_from_slice(b"| ")?;
            begun = true;
        }
        if *byte == b'\n' {
            told.push(b'\n')?;
            begun = false;
        } else {
            tell_byte(told, alloc, *byte)?;
        }
    }
    if begun {
        told.push(b'\n')?;
    }
    Ok(())
}

/// Adds a stream whose text differs.
fn tell_stream(
    told: &mut Vec<u8>,
    alloc: Global,
    stream: &str,
    found: &[u8],
    wanted: &[u8],
) -> Result<(), AllocError> {
    if found == wanted {
        return Ok(());
    }
    told.extend_from_slice(stream.as_bytes())?;
    told.extend_from_slice(b":\n")?;
    tell_text(told, alloc, found)
}

/// Adds a row that differs, with what was answered in its place.
pub fn tell_row(
    told: &mut Vec<u8>,
    alloc: Global,
    file: &str,
    row: &Row,
    answer: &Answer,
) -> Result<(), AllocError> {
    let (line, status) = (row.line, answer.status);
    told.extend_from_slice(format!(in alloc; "{file}:{line}: differs: ")?.as_bytes())?;
    told.extend_from_slice(row.name.as_slice())?;
    told.push(b'\n')?;
    if status != row.status {
        told.extend_from_slice(format!(in alloc; "status: {status}\n")?.as_bytes())?;
    }
    tell_stream(
        told,
        alloc,
        "out",
        answer.out.as_slice(),
        row.out.as_slice(),
    )?;
    tell_stream(
        told,
        alloc,
        "err",
        answer.err.as_slice(),
        row.err.as_slice(),
    )
}

/// Adds how many rows of a file held.
pub fn tell_held(
    told: &mut Vec<u8>,
    alloc: Global,
    file: &str,
    held: usize,
    all: usize,
) -> Result<(), AllocError> {
    told.extend_from_slice(format!(in alloc; "{file}: {held} of {all} rows hold\n")?.as_bytes())
}

/// Adds that a line of a file is of no row.
pub fn tell_refusal(
    told: &mut Vec<u8>,
    alloc: Global,
    file: &str,
    line: u32,
) -> Result<(), AllocError> {
    told.extend_from_slice(format!(in alloc; "{file}:{line}: not a line of a row\n")?.as_bytes())
}
