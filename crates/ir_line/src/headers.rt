//! The header of a function.
//!
//! The entry point is `header`, which gives none where the header is outside the profile. Want of memory is its only failure.

ghost use Rattle.std.specs.Prelude.{◌≡◌, ◌≤◌, ◌<◌, ◌-◌, ◌^◌, Some, option_map, IfOk};
ghost use Rattle.ir_words.specs.Cursors.{left};
ghost use Rattle.ir_words.specs.Words.{Gives, one};
ghost use Rattle.ir_words.specs.Values as values;
ghost use Rattle.ir_words.specs.Reading as reading;
ghost use Rattle.ir_line.specs.Headers as headers;

use crate::keeping::is_digits;
use ir_draft::{Head, Stop};
use ir_forms::operands::local;
use ir_lex::{Token, text};
use ir_types::{Bytes, Id, Param, Params, Ty};
use ir_words::cursor::{Cursor, same_word};
use ir_words::types::ty;
use ir_words::values::{copied, is_plain, symbol_of};
use std::alloc::Global;

/// Where the last of the tokens ends; `to` where there is none.
fn last_to(to: u32, tokens: &[Token]) -> u32
    ensures { result ≡ headers.last_to to tokens.now }
{
    let mut end = to;
    let mut rest = tokens;
    'each: while let [token, after @ ..] = rest {
        end = token.to;
        rest = after;
    }
    end
}

/// The bytes from the first to the last of the tokens.
pub(crate) fn span(alloc: Global, at: Cursor) -> Result<Bytes, Stop>
    ensures { Gives (λ x. x) result (Some (headers.span at.entry.line.now at.entry.tokens.now)) }
{
    match at.tokens {
        [] => Ok(Bytes::new(alloc)),
        [token, rest @ ..] => {
            let whole = Token {
                from: token.from,
                to: last_to(token.to, rest),
            };
            Ok(copied(alloc, text(at.line, whole))?)
        }
    }
}

/// How many parentheses are open after a word.
pub(crate) fn depth_after(depth: usize, word: &[u8]) -> usize
    requires { depth < 2 ^ 64 - 1 }
    ensures { result ≡ headers.depth_after depth word.now }
{
    if same_word(word, b"(") {
        depth + 1
    } else if same_word(word, b")") {
        depth.saturating_sub(1)
    } else {
        depth
    }
}

/// Whether a word may stand among attributes outside parentheses.
fn is_attribute(word: &[u8]) -> bool
    ensures { result ≡ headers.is_attribute word.now }
{
    match word {
        [] => false,
        [first, ..] => first.is_ascii_alphabetic()
            || is_digits(word)
            || *first == b'"'
            || *first == b'=',
    }
}

/// Whether attributes go on with a word.
fn goes_on(depth: usize, word: &[u8]) -> bool
    ensures { result ≡ headers.goes_on depth word.now }
{
    depth != 0 || is_attribute(word) || same_word(word, b"(")
}

/// How many words of attributes stand at the front.
pub(crate) fn attrs_len(at: Cursor) -> usize
    ensures { result ≡ headers.attrs_len 0 (left at.entry) }
{
    let mut count = 0;
    let mut depth = 0;
    let mut rest = at;
    'each: while let Some((word, after)) = rest.split_first() {
        if !goes_on(depth, word) {
            return count;
        }
        depth = depth_after(depth, word);
        count += 1;
        rest = after;
    }
    count
}

/// Whether the word stands outside parentheses.
fn stands(at: Cursor, wanted: &[u8]) -> bool
    ensures { result ≡ headers.stands wanted.now 0 (left at.entry) }
{
    let mut depth = 0;
    let mut rest = at;
    'each: while let Some((word, after)) = rest.split_first() {
        if depth == 0 && same_word(word, wanted) {
            return true;
        }
        depth = depth_after(depth, word);
        rest = after;
    }
    false
}

/// Whether attributes put a header outside the profile.
pub(crate) fn is_banned(at: Cursor) -> bool
    ensures { result ≡ headers.is_banned (left at.entry) }
{
    stands(at, b"byval")
        || stands(at, b"sret")
        || stands(at, b"inalloca")
        || stands(at, b"preallocated")
        || stands(at, b"inreg")
        || stands(at, b"nest")
        || stands(at, b"addrspace")
}

/// How many words a type has.
pub(crate) fn ty_len(ty: Ty) -> usize
    ensures { result ≡ headers.ty_len ty }
{
    match ty {
        Ty::Row { .. } => 5,
        Ty::Void | Ty::Int(_) | Ty::Ptr => 1,
    }
}

/// A parameter's name, if one follows.
fn name_of(alloc: Global, at: Cursor) -> Result<Option<Bytes>, Stop>
    ensures { Gives (λ x. x) result (Some (headers.name_of (left at.entry))) }
{
    match local(alloc, at) {
        Err(Stop::NotALine) => Ok(None),
        found => {
            let (name, _) = found?;
            Ok(Some(name))
        }
    }
}

/// What is left after a name, if there is one.
fn after_name<'a>(name: &Option<Bytes>, at: Cursor<'a>) -> Cursor<'a>
    ensures line { result.line.now ≡ at.entry.line.now }
    ensures tokens { result.tokens.now ≡ headers.after_name name.now at.entry.tokens.now }
{
    match name {
        None => at,
        Some(_) => at.skip(1),
    }
}

/// A parameter of its parts.
fn param(
    alloc: Global,
    place: u32,
    ty: Ty,
    attrs: Cursor,
    name: Option<Bytes>,
) -> Result<Param, Stop>
    ensures { Gives (λ x. x) result (Some (headers.param attrs.entry.line.now place ty attrs.entry.tokens.now name)) }
{
    Ok(Param {
        id: Id {
            region: 0,
            k: place,
        },
        name,
        ty,
        attrs: span(alloc, attrs)?,
        noalias: stands(attrs, b"noalias"),
    })
}

/// A parameter after its type.
#[tactic(auto, unfolding(crate::specs::Headers::attributed))]
fn attributed<'a>(
    alloc: Global,
    place: u32,
    ty: Ty,
    at: Cursor<'a>,
) -> Result<(Param, Cursor<'a>), Stop>
    ensures read { Gives (λ x. (x.0, x.1.tokens.now)) result (headers.attributed at.entry.line.now place ty at.entry.tokens.now) }
    ensures line { IfOk result (λ x. x.1.line.now ≡ at.entry.line.now) }
{
    let count = attrs_len(at);
    let (attrs, rest) = (at.front(count), at.skip(count));
    if is_banned(attrs) {
        return Err(Stop::NotALine);
    }
    let name = name_of(alloc, rest)?;
    let rest = after_name(&name, rest);
    Ok((param(alloc, place, ty, attrs, name)?, rest))
}

/// A parameter.
#[tactic(auto, unfolding(crate::specs::Headers::param_at))]
fn param_at<'a>(alloc: Global, place: u32, at: Cursor<'a>) -> Result<(Param, Cursor<'a>), Stop>
    ensures read { Gives (λ x. (x.0, x.1.tokens.now)) result (headers.param_at at.entry.line.now place at.entry.tokens.now) }
    ensures line { IfOk result (λ x. x.1.line.now ≡ at.entry.line.now) }
{
    let (ty, _) = ty(at)?;
    attributed(alloc, place, ty, at.skip(ty_len(ty)))
}

/// The parameters, where they close here.
fn closed<'a>(params: Params, at: Cursor<'a>) -> Result<(Params, Cursor<'a>), Stop>
    ensures read { Gives (λ x. (x.0, x.1.tokens.now)) result (headers.closed at.entry.line.now params at.entry.tokens.now) }
    ensures line { IfOk result (λ x. x.1.line.now ≡ at.entry.line.now) }
{
    if at.begins(b")") {
        Ok((params, at.skip(1)))
    } else {
        Err(Stop::NotALine)
    }
}

/// Parameters joined by commas.
fn params_within<'a>(alloc: Global, at: Cursor<'a>) -> Result<(Params, Cursor<'a>), Stop>
    ensures read { Gives (λ x. (x.0, x.1.tokens.now)) result (headers.params_within at.entry.tokens.now at.entry.line.now 0 at.entry.tokens.now) }
    ensures line { IfOk result (λ x. x.1.line.now ≡ at.entry.line.now) }
{
    let mut found = Params::new(alloc);
    let mut rest = at;
    let mut place: u32 = 0;
    let mut bound = at.tokens;
    'each: while let [_, fewer @ ..] = bound {
        bound = fewer;
        let (param, after) = param_at(alloc, place, rest)?;
        found.push(param)?;
        if !after.begins(b",") {
            return closed(found, after);
        }
        rest = after.skip(1);
        place = place.checked_add(1).ok_or(Stop::OutOfMemory)?;
    }
    Err(Stop::NotALine)
}

/// The parameters after their `(`.
#[tactic(auto, unfolding(crate::specs::Headers::params_at))]
fn params_at<'a>(alloc: Global, at: Cursor<'a>) -> Result<(Params, Cursor<'a>), Stop>
    ensures read { Gives (λ x. (x.0, x.1.tokens.now)) result (headers.params_at at.entry.line.now at.entry.tokens.now) }
    ensures line { IfOk result (λ x. x.1.line.now ≡ at.entry.line.now) }
{
    if at.begins(b")") {
        return Ok((Params::new(alloc), at.skip(1)));
    }
    params_within(alloc, at)
}

/// Whether the word is the function's name.
fn is_callee(depth: usize, word: &[u8], after: Cursor) -> bool
    ensures { result ≡ headers.is_callee depth word.now (left after.entry) }
{
    depth == 0 && is_plain(word) && after.begins(b"(")
}

/// How many words stand before the function's name, if there is one.
fn name_from(at: Cursor) -> Option<usize>
    ensures { result ≡ headers.name_from 0 0 (left at.entry) }
{
    let mut count = 0;
    let mut depth = 0;
    let mut rest = at;
    'each: while let Some((word, after)) = rest.split_first() {
        if is_callee(depth, word, after) {
            return Some(count);
        }
        if depth == 0 && same_word(word, b")") {
            return None;
        }
        depth = depth_after(depth, word);
        count += 1;
        rest = after;
    }
    None
}

/// So many words at the end.
fn last_words<'a>(at: Cursor<'a>, count: usize) -> Cursor<'a>
    ensures line { result.line.now ≡ at.entry.line.now }
    ensures tokens { result.tokens.now ≡ headers.last_tokens count at.entry.tokens.now }
{
    at.skip(at.tokens.len().saturating_sub(count))
}

/// A type that is all of these words.
fn whole(at: Cursor) -> Result<Ty, Stop>
    ensures { Gives (λ x. x) result (headers.whole (reading.ty_at (left at.entry))) }
{
    let (ty, rest) = ty(at)?;
    if !rest.tokens.is_empty() {
        return Err(Stop::NotALine);
    }
    Ok(ty)
}

/// The type at the end of these words.
#[tactic(auto, unfolding(crate::specs::Headers::ret_of))]
pub(crate) fn ret_of(at: Cursor) -> Result<Ty, Stop>
    ensures { Gives (λ x. x) result (headers.ret_of at.entry.line.now at.entry.tokens.now) }
{
    let last = last_words(at, 1);
    if last.begins(b"void") {
        return Ok(Ty::Void);
    }
    if last.begins(b">") {
        return whole(last_words(at, 5));
    }
    whole(last)
}

/// The plain name at the front.
pub(crate) fn callee(alloc: Global, at: Cursor) -> Result<Bytes, Stop>
    ensures { Gives (λ x. x) result (option_map (λ x. x.0) (one values.symbol_of (left at.entry))) }
{
    let (word, _) = at.next()?;
    symbol_of(alloc, word)
}

/// A header by the words between `define` and the last brace.
#[tactic(auto, unfolding(crate::specs::Headers::head_of))]
fn head_of(alloc: Global, at: Cursor) -> Result<Head, Stop>
    ensures { Gives (λ x. x) result (headers.head_of at.entry.line.now at.entry.tokens.now) }
{
    let n = name_from(at).ok_or(Stop::NotALine)?;
    let name = callee(alloc, at.skip(n))?;
    let ret = ret_of(at.front(n))?;
    let (params, rest) = params_at(alloc, at.skip(n).skip(2))?;
    let before = span(alloc, at.front(n.saturating_sub(ty_len(ret))))?;
    let after = span(alloc, rest)?;
    Ok(Head {
        before,
        ret,
        name,
        params,
        after,
    })
}

/// The header of a `define` line, where it is of the profile.
#[tactic(auto, unfolding(crate::specs::Headers::header))]
pub(crate) fn header(alloc: Global, at: Cursor) -> Result<Option<Head>, Stop>
    ensures { Gives (λ x. x) result (Some (headers.header at.entry.line.now at.entry.tokens.now)) }
{
    if !at.all_ascii() {
        return Ok(None);
    }
    let inner = at.skip(1).front(at.tokens.len().saturating_sub(2));
    match head_of(alloc, inner) {
        Err(Stop::NotALine) => Ok(None),
        found => Ok(Some(found?)),
    }
}

/// Whether the last token is `{`.
pub(crate) fn ends_open(at: Cursor) -> bool
    ensures { result ≡ headers.ends_open at.entry.line.now at.entry.tokens.now }
{
    last_words(at, 1).begins(b"{")
}
