//! The tokens of a line of the module text, or its lexical fault.
//!
//! The entry point is `tokens`. A line is bytes without its line feed. It is either faulty, and the refusal names the first fault's
//! byte, or it is cut into its tokens, each the longest that begins at its first byte; spaces, tabs and a comment stand between
//! them and are no tokens. `text` gives a token's bytes. A caller who reads many lines takes the two halves of `tokens` apart:
//! `first_fault`, and `cut_into` with one list for all lines.
//!
//! A token is the two places in the line between which it stands, so no byte is copied. Memory is taken for the list of tokens
//! alone. The time is linear in the line.
#![tactic(auto)]

ghost use Rattle.std.specs.Prelude.{◌≡◌, ℕ, ◌+◌, ◌<◌, ◌^◌, length, IfOk, IfErr};
ghost use Rattle.ir_lex.specs.Faults.{FirstFault, IsRefusal};
ghost use Rattle.ir_lex.specs.Tokens.{Lexed};
ghost use Rattle.ir_lex.specs.Words.{word};

mod bytes;
mod faults;
mod list;
mod refusal;
mod scan;

pub use bytes::is_blank;
pub use faults::first_fault;
pub use list::{Token, Tokens};
pub use refusal::LexRefusal;
use scan::cut;
pub use scan::cut_into;
use std::alloc::Global;

/// The tokens of a line, in order, where the line has no lexical fault.
///
/// `number` is the line's number, from 1, and goes into the refusal alone. The line has fewer than 2^32 - 1 bytes.
///
/// Refusals: `Lex` with the line's number and the byte of the first fault, counted from 1; `OutOfMemory`, on a line without
/// fault alone.
///
/// LLVM Language Reference, "Identifiers" and "Lexical structure".
pub fn tokens(alloc: Global, line: &[u8], number: u32) -> Result<Tokens, LexRefusal>
    requires short { length line.now + 1 < 2 ^ 32 }
    ensures lexed { IfOk result (λ found. Lexed line.now found) }
    ensures fault { IfErr result (IsRefusal number line.now) }
    ensures refused { (k : ℕ) → FirstFault line.now k → result ≡ Err (LexRefusal.Lex number (k + 1)) }
{
    if let Some(place) = first_fault(line) {
        return Err(LexRefusal::Lex {
            line: number,
            byte: place + 1,
        });
    }
    let mut tokens = Vec::new(alloc);
    cut(&mut tokens, line)?;
    Ok(Tokens::from_vec(tokens))
}

/// The bytes of a token in its line; of places past the line's end, those bytes that are there.
#[tactic(auto, unfolding(crate::specs::Words::word))]
pub fn text<'a>(line: &'a [u8], token: Token) -> &'a [u8]
    ensures { result.now ≡ word line.now token }
{
    let from = (token.from as usize).min(line.len());
    let (_, rest) = line.split_at(from);
    let size = (token.to.saturating_sub(token.from) as usize).min(rest.len());
    rest.split_at(size).0
}

#[cfg(test)]
mod tests;
