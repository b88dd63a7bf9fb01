//! A whole text as a draft: its lines in their forms, each where it may stand.
//!
//! The one entry point is `read`. It answers with the draft, or refuses by the first lexical fault, the first line that is none of
//! the profile or misplaced, or a limit that is passed, in this order; or for want of memory. Names are not looked up.
//!
//! The text is gone through twice. The first pass finds lexical faults and takes the names that no operand may be, which may stand
//! anywhere, and looks no further into the lines of functions; the second cuts and judges each line, with a small state of the
//! function that is open. A function that is outside the profile is opaque: its lines are kept. The time is near linear.
#![tactic(auto)]

ghost use Rattle.std.specs.Prelude.{◌+◌, ◌<◌, ◌^◌, length};
ghost use Rattle.ir_read.specs.Answers.{Gives};
ghost use Rattle.ir_read.specs.Draft.{draft_of};

mod braces;
mod forms;
mod function;
mod joined;
mod laws;
mod lines;
mod names;
mod numbers;
mod open_function;
mod outlook;
mod position;
mod progress;
mod reader;
mod refusal;
mod size;
mod survey;

use ir_line::Draft;
pub use laws::drafts_are_items;
use reader::judge;
pub use refusal::{Limit, ReadRefusal};
use std::alloc::Global;
use survey::survey;

/// The draft that a text is. The text has fewer than 2^32 - 1 bytes. Empty lines are dropped, but for those of opaque functions, which
/// are kept as their lines are.
///
/// Refusals, the first of these that holds:
/// - `Lex`, the first line with a lexical fault, and its byte;
/// - `NotALine` or `Misplaced`, the first line that is outside the profile or stands where it may not; a line that is both is
///   `NotALine`. Where a function has no closing brace, the line after the last is misplaced;
/// - `Limit`, the first limit that is passed: instructions, values, blocks;
/// - `OutOfMemory`, at any time.
///
/// LLVM Language Reference, "Module Structure" and "Functions".
pub fn read(alloc: Global, bytes: &[u8]) -> Result<Draft, ReadRefusal>
    requires { length bytes.now + 1 < 2 ^ 32 }
    ensures { Gives (λ draft. draft) result (draft_of bytes.now) }
{
    let known = survey(alloc, bytes)?;
    judge(alloc, &known, bytes)
}

#[cfg(test)]
mod tests;
