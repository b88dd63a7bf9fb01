//! The program's words.
//!
//! `command` reads what they ask for. It refuses by the place, from 0, of the first word that cannot stand, or the number of words where one is
//! missing.

ghost use Rattle.std.specs.Prelude.{◌≡◌, ◌∷◌, IfOk, Ok, map, string_bytes};
ghost use Rattle.vec_words.specs.Answers.{Answers};
ghost use Rattle.vec_words.specs.Calls as calls;
ghost use Rattle.vec_words.specs.Commands as commands;

use crate::call::{call_word, copied};
use crate::global::global_word;
use crate::numbers::steps;
use crate::pieces::same_text;
use crate::refusal::{Stop, refused};
use crate::{Command, WordsRefusal};
use ir_types::Names;
use std::alloc::{AllocError, Global};

/// The command that the words are.
///
/// Refusals: `Word` with the place, from 0, of the first word that cannot stand, or with the number of words where one is
/// missing; `OutOfMemory`.
pub fn command(alloc: Global, words: &[String]) -> Result<Command, WordsRefusal>
    ensures { Answers result (commands.command_of (map string_bytes words.now)) }
{
    match words {
        [] => refused(0),
        [first, rest @ ..] => named(alloc, first.as_bytes(), rest),
    }
}

/// The command of a name and its words.
fn named(alloc: Global, name: &[u8], rest: &[String]) -> Result<Command, WordsRefusal>
    ensures { Answers result (commands.command_of (name.now ∷ map string_bytes rest.now)) }
{
    if same_text(name, b"print") {
        return alone(Command::Print, rest);
    }
    if same_text(name, b"opt") {
        return alone(Command::Opt, rest);
    }
    if same_text(name, b"run") {
        return run(alloc, rest);
    }
    refused(0)
}

/// A command without words of its own.
fn alone(command: Command, rest: &[String]) -> Result<Command, WordsRefusal>
    ensures { Answers result (commands.alone command (map string_bytes rest.now)) }
{
    match rest {
        [] => Ok(command),
        _ => refused(1),
    }
}

/// What stands after `run`.
fn run(alloc: Global, rest: &[String]) -> Result<Command, WordsRefusal>
    ensures { Answers result (commands.run_of (map string_bytes rest.now)) }
{
    match rest {
        [option, rest @ ..] if same_text(option.as_bytes(), b"--steps") => with_steps(alloc, rest),
        _ => refused(1),
    }
}

/// What stands after `--steps`.
fn with_steps(alloc: Global, rest: &[String]) -> Result<Command, WordsRefusal>
    ensures { Answers result (commands.with_steps (map string_bytes rest.now)) }
{
    match rest {
        [] => refused(2),
        [number, rest @ ..] => match steps(number.as_bytes()) {
            None => refused(2),
            Some(steps) => with_call(alloc, steps, rest),
        },
    }
}

/// A call word and global words.
fn with_call(alloc: Global, steps: u64, words: &[String]) -> Result<Command, WordsRefusal>
    ensures { Answers result (commands.with_call steps (map string_bytes words.now)) }
{
    match words {
        [] => refused(3),
        [first, globals @ ..] => {
            if !is_call(alloc, first.as_bytes())? {
                return refused(3);
            }
            if let Some(place) = first_bad(alloc, globals)? {
                return refused(place);
            }
            let words = texts(alloc, words)?;
            Ok(Command::Run { steps, words })
        }
    }
}

/// Whether a word is a call word.
fn is_call(alloc: Global, word: &[u8]) -> Result<bool, WordsRefusal>
    ensures { Answers result (Ok (calls.is_some (calls.call_of word.now))) }
{
    match call_word(alloc, word) {
        Ok(_) => Ok(true),
        Err(Stop::Unfit) => Ok(false),
        Err(Stop::NoMemory) => Err(WordsRefusal::OutOfMemory),
    }
}

/// Whether a word is a global word.
fn is_global(alloc: Global, word: &[u8]) -> Result<bool, WordsRefusal>
    ensures { Answers result (Ok (calls.is_some (calls.contents_of word.now))) }
{
    match global_word(alloc, word) {
        Ok(_) => Ok(true),
        Err(Stop::Unfit) => Ok(false),
        Err(Stop::NoMemory) => Err(WordsRefusal::OutOfMemory),
    }
}

/// The place of the first word that is no global word; the first of these has the place 4.
fn first_bad(alloc: Global, words: &[String]) -> Result<Option<usize>, WordsRefusal>
    ensures { Answers result (Ok (commands.bad_from 4 (map string_bytes words.now))) }
{
    let mut place: usize = 4;
    let mut rest = words;
    'each: while let [word, more @ ..] = rest {
        if !is_global(alloc, word.as_bytes())? {
            return Ok(Some(place));
        }
        place = place.checked_add(1).ok_or(WordsRefusal::OutOfMemory)?;
        rest = more;
    }
    Ok(None)
}

/// The words as texts of their own.
fn texts(alloc: Global, words: &[String]) -> Result<Names, AllocError>
    ensures { IfOk result (λ texts. texts ≡ map string_bytes words.now) }
{
    let mut texts = Names::new(alloc);
    for word in words {
        texts.push(copied(alloc, word.as_bytes())?)?;
    }
    Ok(texts)
}
