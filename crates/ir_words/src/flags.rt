//! The flags of an operation: in any order, each at most once.
//!
//! `flags` stops where a flag stands twice.

ghost use Rattle.std.specs.Prelude.{◌≡◌, ◌≤◌, length};
ghost use Rattle.ir_words.specs.Cursors.{left};
ghost use Rattle.ir_words.specs.Words.{Gives};
ghost use Rattle.ir_words.specs.Reading as reading;

use crate::cursor::{Cursor, same_word};
use ir_draft::Stop;

/// The flags that an operation can have.
#[derive(Clone, Copy)]
pub enum FlagSet {
    /// None.
    Plain,
    /// `nuw` and `nsw`.
    Wrap,
    /// `exact`.
    Exact,
    /// `disjoint`.
    Disjoint,
    /// `nneg`.
    NonNegative,
    /// `inbounds`, `nuw` and `nusw`.
    Address,
    /// `samesign`.
    SameSign,
}

/// Whether a word is a flag of the set.
fn allows(set: FlagSet, word: &[u8]) -> bool
    ensures { result ≡ reading.allows set word.now }
{
    match set {
        FlagSet::Plain => false,
        FlagSet::Wrap => same_word(word, b"nuw") || same_word(word, b"nsw"),
        FlagSet::Exact => same_word(word, b"exact"),
        FlagSet::Disjoint => same_word(word, b"disjoint"),
        FlagSet::NonNegative => same_word(word, b"nneg"),
        FlagSet::Address => same_word(word, b"inbounds")
            || same_word(word, b"nuw")
            || same_word(word, b"nusw"),
        FlagSet::SameSign => same_word(word, b"samesign"),
    }
}

/// Whether the word is among these.
pub fn has(at: Cursor, word: &[u8]) -> bool
    ensures { result ≡ reading.has word.now (left at.entry) }
{
    let mut rest = at;
    'each: while let Some((found, after)) = rest.split_first() {
        if same_word(found, word) {
            return true;
        }
        rest = after;
    }
    false
}

/// Whether each of these words stands once.
fn is_distinct(at: Cursor) -> bool
    ensures { result ≡ reading.is_distinct (left at.entry) }
{
    let mut rest = at;
    'each: while let Some((word, after)) = rest.split_first() {
        if has(after, word) {
            return false;
        }
        rest = after;
    }
    true
}

/// How many words at the front are flags of the set.
fn flags_len(set: FlagSet, at: Cursor) -> usize
    ensures { result ≡ reading.flags_len set (left at.entry) }
{
    let mut count = 0;
    let mut rest = at;
    'each: while let Some((word, after)) = rest.split_first() {
        if !allows(set, word) {
            return count;
        }
        count += 1;
        rest = after;
    }
    count
}

/// The flags of the set at the front, and what is left after them.
#[tactic(auto, unfolding(crate::specs::Reading::flags_at))]
pub fn flags<'a>(set: FlagSet, at: Cursor<'a>) -> Result<(Cursor<'a>, Cursor<'a>), Stop>
    ensures { Gives (λ x. (left x.0, left x.1)) result (reading.flags_at set (left at.entry)) }
{
    let (found, rest) = split(at, flags_len(set, at));
    if is_distinct(found) {
        Ok((found, rest))
    } else {
        Err(Stop::NotALine)
    }
}

/// So many words at the front, and the rest.
fn split<'a>(at: Cursor<'a>, count: usize) -> (Cursor<'a>, Cursor<'a>)
    ensures { (left result.0, left result.1) ≡ reading.split count (left at.entry) }
{
    (at.front(count), at.skip(count))
}
