//! The second pass over a text: each line where it may stand, or the first that may not.
//!
//! The entry point is `judge`. No line has a lexical fault any more, so each is cut into tokens at once, all into one list. The text from
//! the header of the open function on is at hand, as an opaque function is copied from there.

ghost use Rattle.std.specs.Prelude.{◌≡◌, ◌+◌, ◌<◌, ◌^◌, None, length, ◌∷◌};
ghost use Rattle.ir_lex.specs.Scan.{fault_of};
ghost use Rattle.ir_read.specs.Answers.{Gives};
ghost use Rattle.ir_read.specs.Draft as draft;
ghost use Rattle.ir_read.specs.Faults.{first_fault};
ghost use Rattle.ir_read.specs.Forms as forms;
ghost use Rattle.ir_read.specs.Lines.{lines_of};
ghost use Rattle.ir_read.specs.Steps as steps;

use crate::ReadRefusal;
use crate::forms::form_in;
use crate::lines::first_line;
use crate::outlook::Outlook;
use crate::progress::Progress;
use ir_lex::Token;
use ir_line::Draft;
use std::alloc::Global;

/// The text from the header of the open function on; outside functions, the text that is left.
fn since<'a>(inside: bool, from: &'a [u8], rest: &'a [u8]) -> &'a [u8]
    ensures { lines_of result.now ≡ steps.since inside (lines_of from.now) (lines_of rest.now) }
{
    if inside { from } else { rest }
}

/// A line of the text.
#[derive(Clone, Copy)]
struct TextLine<'a> {
    /// Its number, from 1.
    number: u32,
    /// The text from the header of the open function on.
    from: &'a [u8],
    /// The bytes of the line.
    bytes: &'a [u8],
}

/// One more line.
fn judge_line(
    done: &mut Progress,
    alloc: Global,
    known: &Outlook,
    tokens: &mut Vec<Token>,
    line: TextLine,
) -> Result<(), ReadRefusal>
    requires short { length line.bytes.now + 1 < 2 ^ 32 }
    requires sound { fault_of line.bytes.now ≡ None }
    ensures { Gives (λ _. done.new) result (steps.line_step known.now line.entry.number (lines_of line.entry.from.now) done.old (forms.form_in (steps.is_inside done.old.current) line.entry.bytes.now)) }
{
    if line.bytes.is_empty() {
        return Ok(());
    }
    let form = form_in(alloc, tokens, done.is_inside(), line.bytes, line.number)?;
    done.step(alloc, known, line.number, line.from, form)?;
    Ok(())
}

/// The draft of a text without a lexical fault, where `known` is what is taken from the whole of it.
pub(crate) fn judge(alloc: Global, known: &Outlook, bytes: &[u8]) -> Result<Draft, ReadRefusal>
    requires short { length bytes.now + 1 < 2 ^ 32 }
    requires sound { first_fault 1 (lines_of bytes.now) ≡ None }
    ensures { Gives (λ whole. whole) result (steps.steps_from known.now 1 (steps.outside draft.nothing_done) (lines_of bytes.now) (lines_of bytes.now)) }
{
    let mut done = Progress::new(alloc);
    let mut tokens = Vec::new(alloc);
    let mut number: u32 = 1;
    let mut from = bytes;
    let mut rest = bytes;
    while !rest.is_empty() {
        from = since(done.is_inside(), from, rest);
        let (bytes, after) = first_line(rest);
        let line = TextLine {
            number,
            from,
            bytes,
        };
        judge_line(&mut done, alloc, known, &mut tokens, line)?;
        number += 1;
        rest = after;
    }
    done.ended(number)
}
