//! `Cursor`: what is left of a line, read word by word from the front.
//!
//! A cursor is the line's bytes and the tokens that are left of it; it is copied, and nothing of the line is. A reader takes one and gives
//! what it read with the cursor after it, or stops where the front is no such part. Contracts see the words that are left.

ghost use Rattle.std.specs.Prelude.{◌≡◌, ◌≤◌, length, take, drop, option_map, bytes_eq};
ghost use Rattle.std.specs.List.{list_all};
ghost use Rattle.ir_lex.specs.Words.{words};
ghost use Rattle.ir_words.specs.Cursors.{left};
ghost use Rattle.ir_words.specs.Words as front;
ghost use Rattle.ir_words.specs.Words.{Gives};

use ir_draft::Stop;
use ir_lex::{Token, text};

/// Whether two words are the same.
#[inline]
pub fn same_word(word: &[u8], wanted: &[u8]) -> bool
    ensures { result ≡ bytes_eq word.now wanted.now }
{
    word == wanted
}

/// Whether a token is no byte of 128 or above.
fn is_ascii(word: &[u8]) -> bool
    ensures { result ≡ front.is_ascii word.now }
{
    match word {
        [] => true,
        [first, ..] => *first < 128,
    }
}

/// What is left of a line.
#[derive(Clone, Copy)]
pub struct Cursor<'a> {
    /// The bytes of the whole line.
    pub line: &'a [u8],
    /// The tokens that are left.
    pub tokens: &'a [Token],
}

impl<'a> Cursor<'a> {
    /// The first word and what is left after it, if there is one.
    #[inline]
    pub fn split_first(self) -> Option<(&'a [u8], Cursor<'a>)>
        ensures { option_map (λ x. (x.0.now, left x.1)) result ≡ front.next (left self.entry) }
    {
        match self.tokens {
            [] => None,
            [token, rest @ ..] => {
                let after = Cursor {
                    line: self.line,
                    tokens: rest,
                };
                Some((text(self.line, *token), after))
            }
        }
    }

    /// The first word, and what is left after it.
    #[inline]
    pub fn next(self) -> Result<(&'a [u8], Cursor<'a>), Stop>
        ensures { Gives (λ x. (x.0.now, left x.1)) result (front.next (left self.entry)) }
    {
        self.split_first().ok_or(Stop::NotALine)
    }

    /// What is left after the word, which is the first.
    #[inline]
    pub fn expect(self, word: &[u8]) -> Result<Cursor<'a>, Stop>
        ensures { Gives (λ x. left x) result (front.expect word.now (left self.entry)) }
    {
        match self.split_first() {
            Some((first, after)) if same_word(first, word) => Ok(after),
            _ => Err(Stop::NotALine),
        }
    }

    /// Whether the word is the first.
    #[inline]
    pub fn begins(self, word: &[u8]) -> bool
        ensures { result ≡ front.is_first word.now (left self.entry) }
    {
        match self.split_first() {
            None => false,
            Some((first, _)) => same_word(first, word),
        }
    }

    /// What is left after the first word.
    #[inline]
    pub fn after_first(self) -> Cursor<'a>
        ensures { left result ≡ front.after_first (left self.entry) }
    {
        match self.split_first() {
            None => self,
            Some((_, after)) => after,
        }
    }

    /// What is left after so many words.
    #[inline]
    pub fn skip(self, count: usize) -> Cursor<'a>
        ensures line { result.line.now ≡ self.entry.line.now }
        ensures tokens { result.tokens.now ≡ drop count self.entry.tokens.now }
    {
        let tokens = if count > self.tokens.len() {
            &[]
        } else {
            self.tokens.split_at(count).1
        };
        Cursor {
            line: self.line,
            tokens,
        }
    }

    /// So many words at the front.
    #[inline]
    pub fn front(self, count: usize) -> Cursor<'a>
        ensures line { result.line.now ≡ self.entry.line.now }
        ensures tokens { result.tokens.now ≡ take count self.entry.tokens.now }
    {
        let tokens = if count > self.tokens.len() {
            self.tokens
        } else {
            self.tokens.split_at(count).0
        };
        Cursor {
            line: self.line,
            tokens,
        }
    }

    /// Whether no token is a byte of 128 or above. Where all bytes of the line are below, which most lines say at once, no token is looked at.
    pub fn all_ascii(self) -> bool
        ensures { result ≡ list_all front.is_ascii (left self.entry) }
    {
        self.line.is_ascii() || self.each_ascii()
    }

    /// The same, token by token.
    fn each_ascii(self) -> bool
        ensures { result ≡ list_all front.is_ascii (left self.entry) }
    {
        let mut rest = self;
        'each: while let Some((word, after)) = rest.split_first() {
            if !is_ascii(word) {
                return false;
            }
            rest = after;
        }
        true
    }
}
