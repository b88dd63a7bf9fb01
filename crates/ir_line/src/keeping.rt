//! Lines outside functions that are kept.
//!
//! `is_kept` tells them by their first words, `kept` reads them; want of memory is its only failure.

ghost use Rattle.std.specs.Prelude.{◌≡◌, Some, nat_eq, reverse};
ghost use Rattle.std.specs.List.{prefix_len};
ghost use Rattle.ir_words.specs.Cursors.{left};
ghost use Rattle.ir_line.specs.Keeping as keeping;
ghost use Rattle.ir_words.specs.Values as values;
ghost use Rattle.ir_words.specs.Words.{Gives};

use ir_draft::{Kept, Stop};
use ir_types::Bytes;
use ir_words::cursor::{Cursor, same_word};
use ir_words::flags::has;
use ir_words::layout::{any_big, any_other, string_of};
use ir_words::values::{all_digits, begins_name, copied, symbol_of};
use std::alloc::Global;

/// Whether bytes are a plain name.
fn is_name(bytes: &[u8]) -> bool
    ensures { result ≡ keeping.is_name bytes.now }
{
    match bytes {
        [] => false,
        [first, ..] => begins_name(*first),
    }
}

/// Whether bytes are digits.
pub(crate) fn is_digits(bytes: &[u8]) -> bool
    ensures { result ≡ keeping.is_digits bytes.now }
{
    match bytes {
        [] => false,
        _ => all_digits(bytes),
    }
}

/// Whether bytes are what stands after the `!` of metadata.
fn is_metadata(bytes: &[u8]) -> bool
    ensures { result ≡ keeping.is_metadata bytes.now }
{
    match bytes {
        [] => true,
        [first, ..] => begins_name(*first) || is_digits(bytes),
    }
}

/// Whether a line that begins so is kept.
#[tactic(auto, unfolding(crate::specs::Keeping::keeps_mark))]
fn keeps_mark(first: u8, rest: &[u8], equals: bool) -> bool
    ensures { result ≡ keeping.keeps_mark first rest.now equals }
{
    if first == b'!' {
        is_metadata(rest)
    } else if first == b'@' {
        !rest.is_empty() && equals
    } else if first == b'%' {
        is_name(rest) && equals
    } else if first == b'$' {
        is_name(rest)
    } else if first == b'^' {
        is_digits(rest)
    } else {
        false
    }
}

/// Whether a line that begins with this word is kept.
#[tactic(auto, unfolding(crate::specs::Keeping::keeps_word))]
fn keeps_word(word: &[u8]) -> bool
    ensures { result ≡ keeping.keeps_word word.now }
{
    same_word(word, b"source_filename")
        || same_word(word, b"target")
        || same_word(word, b"declare")
        || same_word(word, b"attributes")
        || same_word(word, b"module")
}

/// Whether a line that begins with this word, and `=` or not, is kept for its mark.
fn keeps_marked(word: &[u8], equals: bool) -> bool
    ensures { result ≡ keeping.keeps_marked word.now equals }
{
    match word {
        [] => false,
        [first, rest @ ..] => keeps_mark(*first, rest, equals),
    }
}

/// Whether a line is kept.
pub(crate) fn is_kept(at: Cursor) -> bool
    ensures { result ≡ keeping.is_kept (left at.entry) }
{
    match at.split_first() {
        None => false,
        Some((word, rest)) => keeps_word(word) || keeps_marked(word, rest.begins(b"=")),
    }
}

/// How many spaces stand at the end.
fn trailing(line: &[u8]) -> usize
    ensures value { result ≡ prefix_len (λ b. nat_eq b 32) (reverse line.now) }
{
    line.iter().rev().take_while(|byte| **byte == b' ').count()
}

/// A line without its trailing spaces.
fn trimmed(alloc: Global, line: &[u8]) -> Result<Bytes, Stop>
    ensures { Gives (λ x. x) result (Some (keeping.trimmed line.now)) }
{
    let size = line.len().saturating_sub(trailing(line));
    Ok(copied(alloc, line.split_at(size).0)?)
}

/// A plain name, where a word is one.
fn plain(alloc: Global, word: &[u8]) -> Result<Option<Bytes>, Stop>
    ensures { Gives (λ x. x) result (Some (values.symbol_of word.now)) }
{
    match symbol_of(alloc, word) {
        Err(Stop::NotALine) => Ok(None),
        found => Ok(Some(found?)),
    }
}

/// The name that a line `@name = ..` has.
fn defined(alloc: Global, at: Cursor) -> Result<Option<Bytes>, Stop>
    ensures { Gives (λ x. x) result (Some (keeping.defined (left at.entry))) }
{
    match at.split_first() {
        Some((word, rest)) if rest.begins(b"=") => plain(alloc, word),
        _ => Ok(None),
    }
}

/// The first plain name of a symbol.
pub(crate) fn first_symbol(alloc: Global, at: Cursor) -> Result<Option<Bytes>, Stop>
    ensures { Gives (λ x. x) result (Some (keeping.first_symbol (left at.entry))) }
{
    let mut rest = at;
    'each: while let Some((word, after)) = rest.split_first() {
        let found = plain(alloc, word)?;
        if found.is_some() {
            return Ok(found);
        }
        rest = after;
    }
    Ok(None)
}

/// The name that a `declare` line declares.
fn declared(alloc: Global, at: Cursor) -> Result<Option<Bytes>, Stop>
    ensures { Gives (λ x. x) result (Some (keeping.declared (left at.entry))) }
{
    if at.begins(b"declare") {
        return first_symbol(alloc, at);
    }
    Ok(None)
}

/// Whether a symbol is no global of its own.
fn is_indirect(at: Cursor) -> bool
    ensures { result ≡ keeping.is_indirect (left at.entry) }
{
    has(at, b"alias") || has(at, b"ifunc") || has(at, b"extern_weak") || has(at, b"addrspace")
}

/// Whether a line is of the layout.
fn is_layout(at: Cursor) -> bool
    ensures { result ≡ keeping.is_layout (left at.entry) }
{
    at.begins(b"target") && at.after_first().begins(b"datalayout")
}

/// What is read of a kept line.
pub(crate) fn kept(alloc: Global, at: Cursor) -> Result<Kept, Stop>
    ensures { Gives (λ x. x) result (Some (keeping.kept_of at.entry.line.now (left at.entry))) }
{
    let text = trimmed(alloc, at.line)?;
    let symbol = defined(alloc, at)?;
    let declared = declared(alloc, at)?;
    let global = symbol.is_some() && !is_indirect(at);
    let layout = is_layout(at);
    let string = string_of(at);
    Ok(Kept {
        text,
        symbol,
        global,
        declared,
        big_endian: layout && any_big(string),
        other_pointers: layout && any_other(string),
    })
}
