//! The form of one line.
//!
//! The entry point is `form_in`, for lines without a lexical fault. A line without a form is no failure; want of memory is the only
//! one. The list of tokens is the caller's, so that it takes memory for the longest line alone.

ghost use Rattle.std.specs.Prelude.{◌≡◌, None, ◌+◌, ◌<◌, ◌^◌, length, IfOk};
ghost use Rattle.ir_lex.specs.Scan.{fault_of};
ghost use Rattle.ir_lex.specs.Tokens.{Lexed};
ghost use Rattle.ir_line.specs.Body.{read_body};
ghost use Rattle.ir_line.specs.Outside.{read_outside};
ghost use Rattle.ir_read.specs.Forms as forms;

use ir_lex::{Token, cut_into};
use ir_line::{Line, LineRefusal, body_line, module_line};
use std::alloc::{AllocError, Global};

/// The form of a line inside a function.
fn form_inside(
    alloc: Global,
    line: &[u8],
    t: &[Token],
    number: u32,
) -> Result<Option<Line>, AllocError>
    requires { Lexed line.now t.now }
    ensures { IfOk result (λ form. form ≡ read_body line.now t.now) }
{
    match body_line(alloc, line, t, number) {
        Ok(form) => Ok(Some(form)),
        Err(LineRefusal::NotALine { .. }) => Ok(None),
        Err(LineRefusal::OutOfMemory) => Err(AllocError),
    }
}

/// The form of a line outside functions.
fn form_outside(
    alloc: Global,
    line: &[u8],
    t: &[Token],
    number: u32,
) -> Result<Option<Line>, AllocError>
    requires { Lexed line.now t.now }
    ensures { IfOk result (λ form. form ≡ read_outside line.now t.now) }
{
    match module_line(alloc, line, t, number) {
        Ok(form) => Ok(Some(form)),
        Err(LineRefusal::NotALine { .. }) => Ok(None),
        Err(LineRefusal::OutOfMemory) => Err(AllocError),
    }
}

/// The form of a line with these tokens.
#[tactic(auto, unfolding(crate::specs::Forms::form_by))]
pub(crate) fn form_by(
    alloc: Global,
    inside: bool,
    line: &[u8],
    t: &[Token],
    number: u32,
) -> Result<Option<Line>, AllocError>
    requires { Lexed line.now t.now }
    ensures { IfOk result (λ form. form ≡ forms.form_by inside line.now t.now) }
{
    if inside {
        form_inside(alloc, line, t, number)
    } else {
        form_outside(alloc, line, t, number)
    }
}

/// The form of a line without a lexical fault. The list is for its tokens, and what was in it is gone.
pub(crate) fn form_in(
    alloc: Global,
    tokens: &mut Vec<Token>,
    inside: bool,
    line: &[u8],
    number: u32,
) -> Result<Option<Line>, AllocError>
    requires short { length line.now + 1 < 2 ^ 32 }
    requires sound { fault_of line.now ≡ None }
    ensures { IfOk result (λ form. form ≡ forms.form_in inside line.now) }
{
    cut_into(tokens, line)?;
    form_by(alloc, inside, line, tokens.as_slice(), number)
}

/// Whether the line after one of this form stands in a function.
pub(crate) fn inside_after(inside: bool, form: &Option<Line>) -> bool
    ensures { result ≡ forms.inside_after inside form.now }
{
    match form {
        Some(Line::Define { .. }) => true,
        Some(Line::Close) => false,
        _ => inside,
    }
}
