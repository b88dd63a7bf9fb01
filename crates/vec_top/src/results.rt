//! What each command makes of a module that was accepted.
//!
//! `text_of` is the one entry point: the text to write, or the fault that a word of `run` does not fit the module, or want of memory.

ghost use Rattle.std.specs.Prelude.{◌≡◌, Ok};
ghost use Rattle.vec_words.specs.declared.commands.Command.TheVariants.{Opt, Run};
ghost use Rattle.vec_top.specs.Making as making;
ghost use Rattle.vec_top.specs.Results as results;

use crate::counts::are_counted;
use crate::fault::Fault;
use ir_interp::run;
use ir_print::print;
use ir_types::{Item, Module, Names, Ty};
use std::alloc::Global;
use vec_words::{Command, Start, WordsRefusal, outcome_text, start};
use vx_serial::pair;

/// How many words stand before the call word of `run`.
const WORDS_BEFORE_CALL: u32 = 3;

/// The module's text, which is read again as the module.
fn printed(alloc: Global, m: &Module) -> Result<Vec<u8>, Fault>
    requires { making.IsReady m.now }
    ensures { making.ResultFor Command.Print m.now result }
{
    if !are_counted(m) {
        return Err(Fault::NoMemory);
    }
    match print(alloc, m) {
        Ok(text) => Ok(text),
        Err(_) => Err(Fault::NoMemory),
    }
}

/// The text of what the pass makes of the module, which is read again as that.
fn optimized(alloc: Global, m: Module) -> Result<Vec<u8>, Fault>
    requires { making.IsReady m }
    ensures { making.ResultFor Opt m result }
{
    if !are_counted(&m) {
        return Err(Fault::NoMemory);
    }
    match pair(alloc, m) {
        Ok(new) => match print(alloc, &new) {
            Ok(text) => Ok(text),
            Err(_) => Err(Fault::NoMemory),
        },
        Err(_) => Err(Fault::NoMemory),
    }
}

/// The type that a function returns, by its number from 0 among the functions of the profile.
fn returned_by(m: &Module, func: u32) -> Ty
    ensures { result ≡ results.returned_by m.now func }
{
    let mut number = func;
    let mut rest = m.items.as_slice();
    'each: while let [item, more @ ..] = rest {
        if let Item::Func(found) = item {
            if number == 0 {
                return found.ret;
            }
            number -= 1;
        }
        rest = more;
    }
    Ty::Void
}

/// The start of a run, or the word that does not fit the module.
fn started(alloc: Global, m: &Module, words: &Names) -> Result<Start, Fault>
    ensures { making.Starts m.now words.now result }
{
    match start(alloc, m, words) {
        Ok(start) => Ok(start),
        Err(WordsRefusal::Word { place }) => match place.checked_add(WORDS_BEFORE_CALL) {
            Some(place) => Err(Fault::Word(place)),
            None => Err(Fault::NoMemory),
        },
        Err(WordsRefusal::OutOfMemory) => Err(Fault::NoMemory),
    }
}

/// The text of a run's outcome.
fn ran(alloc: Global, m: &Module, steps: u64, words: &Names) -> Result<Vec<u8>, Fault>
    ensures { making.ResultFor (Run steps words.now) m.now result }
{
    let Start { func, args, memory } = started(alloc, m, words)?;
    let ret = returned_by(m, func);
    let outcome = match run(alloc, m, func, &args, memory, steps) {
        Ok(outcome) => outcome,
        Err(_) => return Err(Fault::NoMemory),
    };
    match outcome_text(alloc, &outcome, &ret) {
        Ok(text) => Ok(text),
        Err(_) => Err(Fault::NoMemory),
    }
}

/// The text that a command makes of a module.
pub(crate) fn text_of(alloc: Global, command: &Command, m: Module) -> Result<Vec<u8>, Fault>
    requires { making.IsReady m }
    ensures { making.ResultFor command.now m result }
{
    match command {
        Command::Print => printed(alloc, &m),
        Command::Opt => optimized(alloc, m),
        Command::Run { steps, words } => ran(alloc, &m, *steps, words),
    }
}
