//! The first pass over a text: its first lexical fault, or what is taken from the whole of it.
//!
//! The entry point is `survey`. It fails at the first lexical fault, or for want of memory. Only whether a line stands in a function
//! is carried from line to line, beside what is known. A line in a function gives nothing to what is known, so it is looked through
//! for faults and no more; only lines outside are cut into tokens and read.

ghost use Rattle.std.specs.Prelude.{◌≡◌, ◌+◌, ◌<◌, ◌^◌, true, false, None, length, OnOk};
ghost use Rattle.ir_lex.specs.Scan.{fault_of};
ghost use Rattle.ir_read.specs.Answers.{Gives};
ghost use Rattle.ir_read.specs.Faults.{fault_at, first_fault, unless};
ghost use Rattle.ir_read.specs.Forms as forms;
ghost use Rattle.ir_read.specs.Lines.{lines_of};
ghost use Rattle.ir_read.specs.Outlook as outlook;

use crate::ReadRefusal;
use crate::braces::is_lone_brace;
use crate::forms::{form_in, inside_after};
use crate::lines::first_line;
use crate::outlook::Outlook;
use ir_lex::{Token, first_fault};
use std::alloc::Global;

/// Refuses a line with a lexical fault.
fn sound(line: &[u8], number: u32) -> Result<(), ReadRefusal>
    requires { length line.now + 1 < 2 ^ 32 }
    ensures said { Gives (λ x. x) result (unless (fault_at number line.now) tt) }
    ensures none { OnOk result (fault_of line.now ≡ None) }
{
    match first_fault(line) {
        Some(place) => Err(ReadRefusal::Lex {
            line: number,
            byte: place + 1,
        }),
        None => Ok(()),
    }
}

/// Answers whether the line after one in a function stands in it too. No such line gives anything.
fn note_inside(line: &[u8], number: u32) -> Result<bool, ReadRefusal>
    requires { length line.now + 1 < 2 ^ 32 }
    ensures { Gives (λ next. next) result (unless (fault_at number line.now) (forms.inside_after true (forms.form_in true line.now))) }
{
    sound(line, number)?;
    Ok(!is_lone_brace(line))
}

/// Adds what a line outside functions gives, and answers whether the next one stands in a function.
fn note_outside(
    known: &mut Outlook,
    alloc: Global,
    tokens: &mut Vec<Token>,
    line: &[u8],
    number: u32,
) -> Result<bool, ReadRefusal>
    requires { length line.now + 1 < 2 ^ 32 }
    ensures { Gives (λ next. (known.new, next)) result (outlook.line_seen known.old number false line.now) }
{
    sound(line, number)?;
    let form = form_in(alloc, tokens, false, line, number)?;
    known.note(alloc, &form)?;
    Ok(inside_after(false, &form))
}

/// Adds what a line gives, and answers whether the next one stands in a function.
fn note_line(
    known: &mut Outlook,
    alloc: Global,
    tokens: &mut Vec<Token>,
    inside: bool,
    line: &[u8],
    number: u32,
) -> Result<bool, ReadRefusal>
    requires { length line.now + 1 < 2 ^ 32 }
    ensures { Gives (λ next. (known.new, next)) result (outlook.line_seen known.old number inside line.now) }
{
    if inside {
        note_inside(line, number)
    } else if line.is_empty() {
        Ok(false)
    } else {
        note_outside(known, alloc, tokens, line, number)
    }
}

/// What is taken from the whole text, or its first lexical fault.
pub(crate) fn survey(alloc: Global, bytes: &[u8]) -> Result<Outlook, ReadRefusal>
    requires { length bytes.now + 1 < 2 ^ 32 }
    ensures said { Gives (λ known. known) result (unless (first_fault 1 (lines_of bytes.now)) (outlook.outlook_of (forms.forms_of (lines_of bytes.now)))) }
    ensures sound { OnOk result (first_fault 1 (lines_of bytes.now) ≡ None) }
{
    let mut known = Outlook::new(alloc);
    let mut tokens = Vec::new(alloc);
    let mut inside = false;
    let mut number: u32 = 1;
    let mut rest = bytes;
    while !rest.is_empty() {
        let (line, after) = first_line(rest);
        inside = note_line(&mut known, alloc, &mut tokens, inside, line, number)?;
        number += 1;
        rest = after;
    }
    Ok(known)
}
