//! The words of `run`.
//!
//! `start` reads the call word and the global words against a module. It refuses by the place, from 0, of the first word that
//! does not fit. Objects are numbered: those of the globals, and then those that arguments make.

ghost use Rattle.std.specs.Prelude.{◌≡◌, IfOk, length};
ghost use Rattle.ir_model.specs.Run.{functions_of};
ghost use Rattle.vec_words.specs.Answers.{Answers, Gives};
ghost use Rattle.vec_words.specs.Globals as globals;
ghost use Rattle.vec_words.specs.Starts as starts;

use crate::arguments::values;
use crate::call::{Arg, call_word};
use crate::global::objects;
use crate::pieces::same_text;
use crate::refusal::{Stop, counted, refused};
use crate::{Start, WordsRefusal};
use ir_model::{Memory, Values};
use ir_types::{Bytes, Func, Item, Module, Names};
use std::alloc::{AllocError, Global};
use vx_list::{Seq, TryClone};

/// What a call word says of a module.
#[derive(Debug, Drop)]
pub(crate) struct Called {
    func: u32,
    /// The arguments as they are spelled.
    made: Seq<Arg>,
    args: Values,
}

/// The first function of a name, with its number.
fn named<'a>(name: &[u8], items: &'a [Item]) -> Result<(u32, &'a Func), Stop>
    ensures { Gives (λ x. (x.0, x.1.now)) result (starts.named_from name.now 0 (functions_of items.now)) }
{
    let mut number: usize = 0;
    let mut rest = items;
    'each: while let [item, more @ ..] = rest {
        if let Item::Func(func) = item {
            if same_text(func.name.as_slice(), name) {
                return Ok((counted(number)?, func));
            }
            number += 1;
        }
        rest = more;
    }
    Err(Stop::Unfit)
}

/// What a call word says, where it fits the module.
#[tactic(auto, unfolding(crate::specs::Starts::called_in))]
fn fitted(alloc: Global, m: &Module, word: &[u8]) -> Result<Called, Stop>
    ensures { Gives (λ x. x) result (starts.called_in m.now word.now) }
{
    let call = call_word(alloc, word)?;
    let (func, found) = named(call.name.as_slice(), m.items.as_slice())?;
    let args = values(
        alloc,
        m.globals.as_slice(),
        found.params.as_slice(),
        call.args.as_slice(),
    )?;
    Ok(Called {
        func,
        made: call.args,
        args,
    })
}

/// The objects after others that arguments make.
fn with_made(alloc: Global, memory: Memory, args: &[Arg]) -> Result<Memory, AllocError>
    ensures { IfOk result (λ x. x ≡ starts.made_after memory args.now) }
{
    let mut memory = memory;
    let mut rest = args;
    'each: while let [arg, more @ ..] = rest {
        if let Arg::Made(bytes) = arg {
            memory.push(bytes.try_clone(alloc)?)?;
        }
        rest = more;
    }
    Ok(memory)
}

/// The start of a call that fits the module, by global words.
fn started(
    alloc: Global,
    names: &[Bytes],
    words: &[Bytes],
    called: Called,
) -> Result<Start, WordsRefusal>
    ensures { Answers result (starts.started called (globals.with_words names.now (globals.untouched (length names.now)) 1 words.now)) }
{
    let given = objects(alloc, names, words)?;
    let Called { func, made, args } = called;
    let memory = with_made(alloc, given.memory, made.as_slice())?;
    Ok(Start { func, args, memory })
}

/// The start of a run that the words of `run` say after its options: a call word, and then global words.
///
/// Refusals: `Word` with the place, from 0, of the first word that does not fit the module, which is 0 where there is no word;
/// `OutOfMemory`.
pub fn start(alloc: Global, m: &Module, words: &Names) -> Result<Start, WordsRefusal>
    ensures { Answers result (starts.start_of m.now words.now) }
{
    match words.as_slice() {
        [] => refused(0),
        [word, rest @ ..] => match fitted(alloc, m, word.as_slice()) {
            Ok(called) => started(alloc, m.globals.as_slice(), rest, called),
            Err(Stop::Unfit) => refused(0),
            Err(Stop::NoMemory) => Err(WordsRefusal::OutOfMemory),
        },
    }
}
