//! The lines of a text.
//!
//! `first_line` cuts the first off. Nothing here fails. A line ends at a line feed, and a carriage return just before that is not of
//! the line; a last piece without a line feed is a line where it is not empty.

ghost use Rattle.std.specs.Prelude.{◌≡◌, ◌+◌, ◌-◌, ◌<◌, ◌≤◌, ◌∷◌, length};
ghost use Rattle.ir_read.specs.Lines as lines;

use memchr::memchr;

/// The first line of a text that is not empty, and the text after it.
pub(crate) fn first_line(bytes: &[u8]) -> (&[u8], &[u8])
    requires { 0 < length bytes.now }
    ensures lines { lines.lines_of bytes.now ≡ result.0.now ∷ lines.lines_of result.1.now }
    ensures fewer { length result.1.now < length bytes.now }
    ensures short { length result.0.now ≤ length bytes.now }
{
    let at = line_len(bytes);
    if at < bytes.len() {
        (without_return(&bytes[..at]), &bytes[at + 1..])
    } else {
        (bytes, &[])
    }
}

/// How many bytes stand before the first line feed.
fn line_len(bytes: &[u8]) -> usize
    ensures value { result ≡ lines.line_len bytes.now }
    ensures within { result ≤ length bytes.now }
{
    match memchr(b'\n', bytes) {
        Some(at) => at,
        None => bytes.len(),
    }
}

/// A line without the carriage return at its end.
fn without_return(line: &[u8]) -> &[u8]
    ensures { result.now ≡ lines.without_return line.now }
{
    match line {
        [front @ .., last] => { if *last == b'\r' { front } else { line } }
        [] => line,
    }
}
