//! Global words, `@NAME=HEX`, and the objects of globals that they give bytes.
//!
//! `objects` gives the objects of all globals, or refuses by the place of the first word that is none, names no global of the
//! module or one that a word before it named. A global that no word names has no bytes.

ghost use Rattle.std.specs.Prelude.{◌≡◌, IfOk, length};
ghost use Rattle.vec_words.specs.Answers.{Answers, Gives};
ghost use Rattle.vec_words.specs.Arguments as arguments;
ghost use Rattle.vec_words.specs.Calls as calls;
ghost use Rattle.vec_words.specs.Globals as globals;

use crate::WordsRefusal;
use crate::call::name;
use crate::hex::bytes;
use crate::pieces::{cut, past, same_text};
use crate::refusal::{Stop, refused};
use ir_model::{Memory, Object};
use ir_types::Bytes;
use std::alloc::{AllocError, Global};
use vx_list::Seq;

/// A global word.
#[derive(Debug, Drop)]
pub(crate) struct Contents {
    name: Bytes,
    bytes: Object,
}

/// The objects of the globals so far, and which of them a word has named.
#[derive(Debug, Drop)]
pub(crate) struct Given {
    pub(crate) memory: Memory,
    named: Seq<bool>,
}

/// A global word.
#[tactic(auto, unfolding(crate::specs::Calls::contents_of))]
pub(crate) fn global_word(alloc: Global, word: &[u8]) -> Result<Contents, Stop>
    ensures { Gives (λ x. x) result (calls.contents_of word.now) }
{
    let rest = past(b"@", word).ok_or(Stop::Unfit)?;
    let (name_text, hex) = cut(b'=', rest).ok_or(Stop::Unfit)?;
    let name = name(alloc, name_text)?;
    let bytes = bytes(alloc, hex)?;
    Ok(Contents { name, bytes })
}

/// The place of a name among the globals.
pub(crate) fn place_in(names: &[Bytes], name: &[u8]) -> Option<usize>
    ensures { result ≡ arguments.place_from 0 names.now name.now }
{
    let mut place: usize = 0;
    let mut rest = names;
    'each: while let [first, more @ ..] = rest {
        if same_text(first.as_slice(), name) {
            return Some(place);
        }
        place += 1;
        rest = more;
    }
    None
}

/// So many globals without bytes.
fn untouched(alloc: Global, count: usize) -> Result<Given, AllocError>
    ensures { IfOk result (λ given. given ≡ globals.untouched count) }
{
    let mut memory = Memory::new(alloc);
    let mut named = Seq::new(alloc);
    'each: for _ in 0..count {
        memory.push(Object::new(alloc))?;
        named.push(false)?;
    }
    Ok(Given { memory, named })
}

/// Whether the global of a number is there and was not named.
fn is_free(given: &Given, at: usize) -> bool
    ensures { result ≡ globals.is_free given.now at }
{
    at < given.memory.len() && matches!(given.named.get(at), Some(false))
}

/// The global of a number with its bytes.
#[tactic(auto, unfolding(crate::specs::Globals::with_bytes_at))]
fn with_bytes_at(given: Given, at: usize, bytes: Object) -> Result<Given, Stop>
    ensures { Gives (λ x. x) result (globals.with_bytes_at given at bytes) }
{
    if !is_free(&given, at) {
        return Err(Stop::Unfit);
    }
    let Given {
        mut memory,
        mut named,
    } = given;
    memory.replace(at, bytes);
    named.replace(at, true);
    Ok(Given { memory, named })
}

/// A global word more.
#[tactic(auto, unfolding(crate::specs::Globals::with_word))]
fn with_word(alloc: Global, names: &[Bytes], given: Given, word: &[u8]) -> Result<Given, Stop>
    ensures { Gives (λ x. x) result (globals.with_word names.now given word.now) }
{
    let Contents { name, bytes } = global_word(alloc, word)?;
    let at = place_in(names, name.as_slice()).ok_or(Stop::Unfit)?;
    with_bytes_at(given, at, bytes)
}

/// The objects of the globals by global words, of which the first has the place 1.
pub(crate) fn objects(
    alloc: Global,
    names: &[Bytes],
    words: &[Bytes],
) -> Result<Given, WordsRefusal>
    ensures { Answers result (globals.with_words names.now (globals.untouched (length names.now)) 1 words.now) }
{
    let mut given = untouched(alloc, names.len())?;
    let mut place: usize = 1;
    let mut rest = words;
    'each: while let [word, more @ ..] = rest {
        given = match with_word(alloc, names, given, word.as_slice()) {
            Ok(given) => given,
            Err(Stop::Unfit) => return refused(place),
            Err(Stop::NoMemory) => return Err(WordsRefusal::OutOfMemory),
        };
        place = place.checked_add(1).ok_or(WordsRefusal::OutOfMemory)?;
        rest = more;
    }
    Ok(given)
}
