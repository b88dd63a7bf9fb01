//! A line outside functions.
//!
//! The entry point is `module_line`.

ghost use Rattle.std.specs.Prelude.{◌≡◌, ◌≤◌, length, IfOk, IfErr, Option, Some};
ghost use Rattle.ir_lex.specs.Tokens.{Lexed};
ghost use Rattle.ir_words.specs.Words.{Gives};
ghost use Rattle.ir_line.specs.Outside as outside;
ghost use Rattle.ir_line.specs.Answers.{Answers, IsNumbered};
ghost use Rattle.ir_draft.specs.declared.line.Line.{Line};

use crate::body::numbered;
use crate::headers::{ends_open, header};
use crate::keeping::{first_symbol, is_kept, kept};
use ir_draft::{Line, LineRefusal, Stop};
use ir_lex::Token;
use ir_words::cursor::Cursor;
use std::alloc::Global;

/// Whether a line is the first of a function.
fn is_define(at: Cursor) -> bool
    ensures { result ≡ outside.is_define at.entry.line.now at.entry.tokens.now }
{
    at.begins(b"define") && ends_open(at)
}

/// A line outside functions.
#[tactic(auto, unfolding(crate::specs::Outside::read_outside))]
fn read_outside(alloc: Global, at: Cursor) -> Result<Line, Stop>
    ensures { Gives (λ x. x) result (outside.read_outside at.entry.line.now at.entry.tokens.now) }
{
    if at.tokens.is_empty() {
        return Ok(Line::Empty);
    }
    if is_kept(at) {
        return Ok(Line::Kept(kept(alloc, at)?));
    }
    if is_define(at) {
        let name = first_symbol(alloc, at)?;
        let head = header(alloc, at)?;
        return Ok(Line::Define { name, head });
    }
    Err(Stop::NotALine)
}

/// The form of a line outside functions.
///
/// `t` are the tokens of `line`, and `number` is the line's number, from 1, which goes into the refusal alone. A `define` line's
/// header is missing where it is outside the profile; that is no refusal.
///
/// Refusals: `NotALine` with the number, where the line is neither empty, nor kept, nor a `define` line that ends with `{`;
/// `OutOfMemory`.
///
/// LLVM Language Reference, "Module Structure" and "Functions".
pub fn module_line(
    alloc: Global,
    line: &[u8],
    t: &[Token],
    number: u32,
) -> Result<Line, LineRefusal>
    requires { Lexed line.now t.now }
    ensures found { IfOk result (outside.Spells line.now t.now) }
    ensures only { (l : Line) → outside.Spells line.now t.now l → Answers result (Some l) }
    ensures number { IfErr result (IsNumbered number) }
{
    numbered(read_outside(alloc, Cursor { line, tokens: t }), number)
}
