//! Files of rows, as text that anyone can read and write.
//!
//! The entry point is `read_rows`. It fails at the first line that is of no row, or for want of memory. Empty lines and lines that
//! begin with `#` say nothing. `== NAME` begins a row; then come, each at most once a row where it is not the default:
//!
//!     words: print            the words, between single spaces (none)
//!     in:                     the input follows (the input of the row before)
//!     status: 1               the exit status (0)
//!     out:                    what standard output takes follows (nothing); `out: as in` for the input itself
//!     err:                    what standard error takes follows (nothing)
//!
//! Lines of a text begin with `| `, or with `> ` where no line feed is meant at their end. In both `\HH` is the byte of that number.

use crate::row::Row;
use std::alloc::{AllocError, Global};
use thiserror::Error;

/// Why a file has no rows.
#[derive(Debug, Drop, Error)]
pub enum RowsRefusal {
    /// The first line, from 1, that is of no row.
    #[error("line {line}: not a line of a row")]
    NotARow { line: u32 },
    #[error("no memory")]
    OutOfMemory,
}

impl From<AllocError> for RowsRefusal {
    fn from(_error: AllocError) -> RowsRefusal {
        RowsRefusal::OutOfMemory
    }
}

/// The text that lines with a bar are of.
#[derive(Clone, Copy)]
enum Part {
    Nothing,
    Input,
    Out,
    Err,
}

/// A row that is being read.
#[derive(Drop)]
struct Open {
    row: Row,
    part: Part,
}

/// The number of a hexadecimal digit.
fn hex_digit(byte: u8) -> Option<u8> {
    match byte {
        b'0'..=b'9' => Some(byte - b'0'),
        b'A'..=b'F' => Some(byte - b'A' + 10),
        b'a'..=b'f' => Some(byte - b'a' + 10),
        _ => None,
    }
}

/// The byte of two hexadecimal digits.
fn hex_byte(high: u8, low: u8) -> Option<u8> {
    let high = hex_digit(high)?;
    let low = hex_digit(low)?;
    high.checked_mul(16)?.checked_add(low)
}

/// Adds a byte by its two digits and the text after them; answers false where there are no digits.
fn add_escaped(text: &mut Vec<u8>, written: &[u8]) -> Result<bool, AllocError> {
    let [high, low, after @ ..] = written else {
        return Ok(false);
    };
    let Some(byte) = hex_byte(*high, *low) else {
        return Ok(false);
    };
    text.push(byte)?;
    text.extend_from_slice(after)?;
    Ok(true)
}

/// Adds what a written text means; answers false where a backslash stands without its digits.
fn add_text(text: &mut Vec<u8>, written: &[u8]) -> Result<bool, AllocError> {
    let mut begun = false;
    for piece in written.split(|byte| *byte == b'\\') {
        if !begun {
            text.extend_from_slice(piece)?;
            begun = true;
        } else if !add_escaped(text, piece)? {
            return Ok(false);
        }
    }
    Ok(true)
}

/// The words between single spaces.
fn read_words(alloc: Global, written: &[u8]) -> Result<Option<Vec<String>>, AllocError> {
    let mut words = Vec::new(alloc);
    for word in written.split(|byte| *byte == b' ') {
        let Ok(word) = str::from_utf8(word) else {
            return Ok(None);
        };
        if !word.is_empty() {
            words.push(String::from_str(alloc, word)?)?;
        }
    }
    Ok(Some(words))
}

/// The status that a text is.
fn read_status(written: &[u8]) -> Option<u8> {
    match str::from_utf8(written) {
        Ok(digits) => digits.parse::<u8>().ok(),
        Err(_) => None,
    }
}

impl Open {
    /// The row that a name begins, on the input of the row before.
    fn new(alloc: Global, line: u32, name: &[u8], input: &[u8]) -> Result<Open, AllocError> {
        let row = Row {
            line,
            name: Vec::from_slice(alloc, name)?,
            words: Vec::new(alloc),
            input: Vec::from_slice(alloc, input)?,
            status: 0,
            out: Vec::new(alloc),
            err: Vec::new(alloc),
        };
        Ok(Open {
            row,
            part: Part::Nothing,
        })
    }

    /// Adds a line of a text; answers false where none stands here.
    fn add_bytes(&mut self, written: &[u8], ends: bool) -> Result<bool, AllocError> {
        let text = match self.part {
            Part::Nothing => return Ok(false),
            Part::Input => &mut self.row.input,
            Part::Out => &mut self.row.out,
            Part::Err => &mut self.row.err,
        };
        if !add_text(text, written)? {
            return Ok(false);
        }
        if ends {
            text.push(b'\n')?;
        }
        Ok(true)
    }

    /// Begins a text; answers false where the line is none that does.
    fn begin_part(&mut self, line: &[u8]) -> bool {
        if line == b"in:".as_slice() {
            self.row.input.clear();
            self.part = Part::Input;
        } else if line == b"out:".as_slice() {
            self.part = Part::Out;
        } else if line == b"err:".as_slice() {
            self.part = Part::Err;
        } else {
            return false;
        }
        true
    }

    /// Adds a line with its answer beside its key; answers false where it is none.
    fn add_field(&mut self, alloc: Global, line: &[u8]) -> Result<bool, AllocError> {
        if let Some(written) = line.strip_prefix(b"words: ") {
            let Some(words) = read_words(alloc, written)? else {
                return Ok(false);
            };
            self.row.words = words;
        } else if let Some(written) = line.strip_prefix(b"status: ") {
            let Some(status) = read_status(written) else {
                return Ok(false);
            };
            self.row.status = status;
        } else if line == b"out: as in".as_slice() {
            self.row.out = Vec::from_slice(alloc, self.row.input.as_slice())?;
        } else {
            return Ok(self.begin_part(line));
        }
        self.part = Part::Nothing;
        Ok(true)
    }

    /// Adds a line of the row; answers false where it is none.
    fn add_line(&mut self, alloc: Global, line: &[u8]) -> Result<bool, AllocError> {
        if line == b"|".as_slice() {
            return self.add_bytes(b"", true);
        }
        if let Some(written) = line.strip_prefix(b"| ") {
            return self.add_bytes(written, true);
        }
        if let Some(written) = line.strip_prefix(b"> ") {
            return self.add_bytes(written, false);
        }
        self.add_field(alloc, line)
    }
}

/// The rows that were read, with the one that is open.
#[derive(Drop)]
struct Reader {
    rows: Vec<Row>,
    open: Option<Open>,
}

impl Reader {
    /// Closes the row that is open, and answers its input.
    fn close(&mut self, alloc: Global) -> Result<Vec<u8>, AllocError> {
        match self.open.take() {
            None => Ok(Vec::new(alloc)),
            Some(open) => {
                let input = Vec::from_slice(alloc, open.row.input.as_slice())?;
                self.rows.push(open.row)?;
                Ok(input)
            }
        }
    }

    /// Adds a line of the file; answers false where it is of no row.
    fn add(&mut self, alloc: Global, number: u32, line: &[u8]) -> Result<bool, AllocError> {
        if line.is_empty() || line.starts_with(b"#") {
            return Ok(true);
        }
        if let Some(name) = line.strip_prefix(b"== ") {
            let input = self.close(alloc)?;
            self.open = Some(Open::new(alloc, number, name, input.as_slice())?);
            return Ok(true);
        }
        match &mut self.open {
            None => Ok(false),
            Some(open) => open.add_line(alloc, line),
        }
    }
}

/// The rows of a file.
///
/// Refusals: `NotARow` with the first line that is of none; `OutOfMemory`.
pub fn read_rows(alloc: Global, bytes: &[u8]) -> Result<Vec<Row>, RowsRefusal> {
    let mut reader = Reader {
        rows: Vec::new(alloc),
        open: None,
    };
    let mut number: u32 = 0;
    for line in bytes.split(|byte| *byte == b'\n') {
        number = number.saturating_add(1);
        if !reader.add(alloc, number, line)? {
            return Err(RowsRefusal::NotARow { line: number });
        }
    }
    reader.close(alloc)?;
    Ok(reader.rows)
}
