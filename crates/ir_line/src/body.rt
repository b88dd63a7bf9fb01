//! A line inside a function.
//!
//! The entry point is `body_line`. Attachments are left out first; an empty line and a brace are told by themselves.

ghost use Rattle.std.specs.Prelude.{◌≡◌, ◌≤◌, length, bytes_eq, IfOk, IfErr, Option, Some};
ghost use Rattle.ir_lex.specs.Tokens.{Lexed};
ghost use Rattle.ir_words.specs.Cursors.{left};
ghost use Rattle.ir_words.specs.Words.{Gives};
ghost use Rattle.ir_line.specs.Body as body;
ghost use Rattle.ir_line.specs.Answers.{Answers, IsNumbered};
ghost use Rattle.ir_draft.specs.declared.line.Line.{Line};

use crate::calls::call;
use ir_draft::{Line, LineRefusal, Stop};
use ir_forms::act_lines::form;
use ir_lex::Token;
use ir_words::cursor::{Cursor, same_word};
use memchr::memchr;
use std::alloc::Global;

/// Whether a word begins with `!`.
fn is_mark(word: &[u8]) -> bool
    ensures { result ≡ body.is_mark word.now }
{
    matches!(word, [b'!', ..])
}

/// Whether the first word does.
fn begins_mark(at: Cursor) -> bool
    ensures { result ≡ body.begins_mark (left at.entry) }
{
    match at.split_first() {
        None => false,
        Some((word, _)) => is_mark(word),
    }
}

/// How many words stand before the first attachment. Most lines have no `!` at all, and then no word is looked at.
fn attachment_at(at: Cursor) -> usize
    ensures { result ≡ body.attachment_at (left at.entry) }
{
    match memchr(b'!', at.line) {
        None => at.tokens.len(),
        Some(_) => marked_at(at),
    }
}

/// The same, word by word.
fn marked_at(at: Cursor) -> usize
    ensures { result ≡ body.attachment_at (left at.entry) }
{
    let mut count = 0;
    let mut rest = at;
    'each: while let Some((word, after)) = rest.split_first() {
        if same_word(word, b",") && begins_mark(after) {
            return count;
        }
        count += 1;
        rest = after;
    }
    count
}

/// The tokens before the attachments.
fn unattached<'a>(at: Cursor<'a>) -> Cursor<'a>
    ensures line { result.line.now ≡ at.entry.line.now }
    ensures tokens { result.tokens.now ≡ body.unattached at.entry.line.now at.entry.tokens.now }
{
    at.front(attachment_at(at))
}

/// A line without attachments: a form of parts, or a call.
fn form_or_call(alloc: Global, at: Cursor) -> Result<Line, Stop>
    ensures { Gives (λ x. x) result (body.form_or_call at.entry.line.now at.entry.tokens.now) }
{
    match form(alloc, at) {
        Err(Stop::NotALine) => call(alloc, at),
        found => found,
    }
}

/// A line that is neither empty nor a brace.
#[tactic(auto, unfolding(crate::specs::Body::read_form))]
fn read_form(alloc: Global, at: Cursor) -> Result<Line, Stop>
    ensures { Gives (λ x. x) result (body.read_form at.entry.line.now at.entry.tokens.now) }
{
    if !at.all_ascii() {
        return Err(Stop::NotALine);
    }
    form_or_call(alloc, unattached(at))
}

/// Whether the line is a brace alone.
fn is_brace(at: Cursor) -> bool
    ensures { result ≡ body.is_brace (left at.entry) }
{
    match at.split_first() {
        Some((word, rest)) => rest.tokens.is_empty() && same_word(word, b"}"),
        None => false,
    }
}

/// A line inside a function.
#[tactic(auto, unfolding(crate::specs::Body::read_body))]
fn read_body(alloc: Global, at: Cursor) -> Result<Line, Stop>
    ensures { Gives (λ x. x) result (body.read_body at.entry.line.now at.entry.tokens.now) }
{
    match at.tokens {
        [] => Ok(Line::Empty),
        _ if is_brace(at) => Ok(Line::Close),
        _ => read_form(alloc, at),
    }
}

/// The answer with the line's number.
pub(crate) fn numbered(found: Result<Line, Stop>, number: u32) -> Result<Line, LineRefusal>
    ensures same { (read : Option Line) → Gives (λ x. x) found read → Answers result read }
    ensures number { IfErr result (IsNumbered number) }
{
    match found {
        Ok(form) => Ok(form),
        Err(Stop::NotALine) => Err(LineRefusal::NotALine { line: number }),
        Err(Stop::OutOfMemory) => Err(LineRefusal::OutOfMemory),
    }
}

/// The form of a line inside a function.
///
/// `t` are the tokens of `line`, and `number` is the line's number, from 1, which goes into the refusal alone. Names are as they
/// are written. Comments, attachments and the flags that mean nothing here are dropped.
///
/// Refusals: `NotALine` with the number, where the line spells no form; `OutOfMemory`.
///
/// LLVM Language Reference, "Instruction Reference".
pub fn body_line(alloc: Global, line: &[u8], t: &[Token], number: u32) -> Result<Line, LineRefusal>
    requires { Lexed line.now t.now }
    ensures found { IfOk result (body.Spells line.now t.now) }
    ensures only { (l : Line) → body.Spells line.now t.now l → Answers result (Some l) }
    ensures number { IfErr result (IsNumbered number) }
{
    numbered(read_body(alloc, Cursor { line, tokens: t }), number)
}
