//! Cutting a line into its tokens.
//!
//! The entry point is `cut_into`, which takes the longest token at each byte that begins one, on lines without a lexical fault. It
//! fails for want of memory alone. The list of tokens is the caller's, who uses it again for the next line. On other lines `cut`
//! makes the quote of a string that does not close a token of one byte.

ghost use Rattle.std.specs.Prelude.{◌≡◌, None, ◌<◌, ◌≤◌, ◌==◌, ◌+◌, ◌^◌, length, OnOk};
ghost use Rattle.std.specs.List.{prefix_len, position_or_len};
ghost use Rattle.ir_lex.specs.Bytes.{quote, is_word_byte, is_digit};
ghost use Rattle.ir_lex.specs.Scan.{one_more, string_len, name_len, more_len, cut, fault_of};
ghost use Rattle.ir_lex.specs.Tokens.{Lexed};

use crate::bytes::{begins_name, is_blank, is_digit, is_mark, is_sigil, is_word_byte};
use crate::list::Token;
use vx_list::OutOfMemory;

/// Cuts a line without a lexical fault into its tokens. The list is emptied first, and takes memory only where it has no room.
pub fn cut_into(tokens: &mut Vec<Token>, line: &[u8]) -> Result<(), OutOfMemory>
    requires short { length line.now + 1 < 2 ^ 32 }
    requires sound { fault_of line.now ≡ None }
    ensures { OnOk result (Lexed line.now tokens.new.items) }
{
    cut(tokens, line)
}

/// Puts the tokens of a line in the place of a list.
#[tactic(auto, unfolding(crate::specs::Scan::cut))]
pub(crate) fn cut(tokens: &mut Vec<Token>, line: &[u8]) -> Result<(), OutOfMemory>
    requires { length line.now + 1 < 2 ^ 32 }
    ensures { OnOk result (tokens.new.items ≡ cut line.now) }
{
    tokens.clear();
    let mut place: u32 = 0;
    let mut rest = line;
    'each: while let [byte, after @ ..] = rest {
        if is_blank(*byte) {
            place += 1;
            rest = after;
            continue;
        }
        if *byte == b';' {
            return Ok(());
        }
        let more = more_len(*byte, after);
        let to = place + 1 + more as u32;
        tokens.push(Token { from: place, to })?;
        place = to;
        rest = after.split_at(more).1;
    }
    Ok(())
}

/// How many bytes of the longest token that begins with `byte` stand after it.
#[tactic(auto, unfolding(crate::specs::Scan::more_len))]
fn more_len(byte: u8, after: &[u8]) -> usize
    ensures value { result ≡ more_len byte after.now }
    ensures within { result ≤ length after.now }
{
    if is_sigil(byte) {
        name_len(byte, after)
    } else if byte == b'"' {
        string_len(after)
    } else if is_mark(byte) || is_word_byte(byte) {
        word_len(after)
    } else {
        0
    }
}

/// How many bytes a name has after its sigil; 0 where none stands there.
#[tactic(auto, unfolding(crate::specs::Scan::name_len))]
fn name_len(sigil: u8, after: &[u8]) -> usize
    ensures value { result ≡ name_len sigil after.now }
    ensures within { result ≤ length after.now }
{
    match after {
        [] => 0,
        [b'"', rest @ ..] => one_more(string_len(rest)),
        [first, rest @ ..] if begins_name(*first) => 1 + word_len(rest),
        _ if sigil == b'%' => digits_len(after),
        _ => 0,
    }
}

/// One more than `count`, if that is not 0.
fn one_more(count: usize) -> usize
    requires { count + 1 < 2 ^ 64 }
    ensures { result ≡ one_more count }
{
    if count == 0 { 0 } else { count + 1 }
}

/// How many bytes a string has after its opening quote; 0 where it does not close.
#[tactic(auto, using(crate::proofs::Runs::string_closed, crate::proofs::Runs::string_open))]
fn string_len(after: &[u8]) -> usize
    ensures value { result ≡ string_len after.now }
    ensures within { result ≤ length after.now }
{
    let quoted = quoted_len(after);
    if quoted < after.len() { quoted + 1 } else { 0 }
}

/// How many bytes stand in front of the first quote.
fn quoted_len(bytes: &[u8]) -> usize
    ensures { result ≡ position_or_len (λ b. b == quote) bytes.now }
{
    bytes.iter().take_while(|byte| **byte != b'"').count()
}

/// How many bytes at the front may stand in a plain name or a run.
fn word_len(bytes: &[u8]) -> usize
    ensures value { result ≡ prefix_len is_word_byte bytes.now }
    ensures within { result ≤ length bytes.now }
{
    bytes.iter().take_while(|byte| is_word_byte(**byte)).count()
}

/// How many bytes at the front are digits.
fn digits_len(bytes: &[u8]) -> usize
    ensures value { result ≡ prefix_len is_digit bytes.now }
    ensures within { result ≤ length bytes.now }
{
    bytes.iter().take_while(|byte| is_digit(**byte)).count()
}
