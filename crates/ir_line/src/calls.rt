//! Calls.
//!
//! The entry point is `call`, which stops where all the tokens are no call. What is kept of a call (TAIL, PRE, the attributes of
//! each argument, POST) is its bytes from the first to the last token.

ghost use Rattle.std.specs.Prelude.{◌≡◌, ◌≤◌, ◌<◌, ◌-◌, ◌^◌, Some, IfOk};
ghost use Rattle.ir_words.specs.Cursors.{left};
ghost use Rattle.ir_words.specs.Words.{Gives};
ghost use Rattle.ir_forms.specs.Operands as operands;
ghost use Rattle.ir_line.specs.Calls as calls;

use crate::headers::{attrs_len, callee, depth_after, is_banned, ret_of, span, ty_len};
use ir_draft::{Arg, Args, Line, Stmt, Stop, Written};
use ir_forms::operands::{local, operand};
use ir_types::{Bytes, CallSite, Names, Op, Texts, Ty};
use ir_words::cursor::{Cursor, same_word};
use ir_words::flags::has;
use ir_words::types::ty;
use ir_words::values::is_plain;
use std::alloc::Global;
use vx_list::{Boxed, Seq};

/// The arguments of a call.
#[derive(Debug, Drop)]
pub(crate) struct Arguments {
    /// The operands after their types.
    pub args: Seq<Arg>,
    /// The attributes of each.
    pub attrs: Texts,
}

/// How many words stand before the first plain name outside parentheses, if there is one.
fn symbol_at(at: Cursor) -> Option<usize>
    ensures { result ≡ calls.symbol_from 0 0 (left at.entry) }
{
    let mut count = 0;
    let mut depth = 0;
    let mut rest = at;
    'each: while let Some((word, after)) = rest.split_first() {
        if depth == 0 && is_plain(word) {
            return Some(count);
        }
        if depth == 0 && same_word(word, b")") {
            return None;
        }
        depth = depth_after(depth, word);
        count += 1;
        rest = after;
    }
    None
}

/// How many `<` are open after a word.
fn angles_after(depth: usize, angles: usize, word: &[u8]) -> usize
    requires { angles < 2 ^ 64 - 1 }
    ensures { result ≡ calls.angles_after depth angles word.now }
{
    if depth == 0 && same_word(word, b"<") {
        angles + 1
    } else if depth == 0 && same_word(word, b">") {
        angles.saturating_sub(1)
    } else {
        angles
    }
}

/// Whether a word ends an argument.
fn ends_argument(depth: usize, angles: usize, word: &[u8]) -> bool
    ensures { result ≡ calls.ends_argument depth angles word.now }
{
    depth == 0 && (same_word(word, b")") || angles == 0 && same_word(word, b","))
}

/// How many words the argument at the front has.
fn argument_len(at: Cursor) -> usize
    ensures { result ≡ calls.argument_len 0 0 (left at.entry) }
{
    let mut count = 0;
    let mut depth = 0;
    let mut angles = 0;
    let mut rest = at;
    'each: while let Some((word, after)) = rest.split_first() {
        if ends_argument(depth, angles, word) {
            return count;
        }
        angles = angles_after(depth, angles, word);
        depth = depth_after(depth, word);
        count += 1;
        rest = after;
    }
    count
}

/// An operand that is all of the words.
fn whole_operand(alloc: Global, ty: Ty, at: Cursor) -> Result<Written, Stop>
    ensures { Gives (λ x. x) result (calls.whole_operand (operands.operand_at ty (left at.entry))) }
{
    let (opd, rest) = operand(alloc, ty, at)?;
    if !rest.tokens.is_empty() {
        return Err(Stop::NotALine);
    }
    Ok(opd)
}

/// The longest end of the words that is one operand, and how many words stand before it.
fn last_operand(alloc: Global, ty: Ty, at: Cursor) -> Result<(usize, Written), Stop>
    ensures { Gives (λ x. x) result (calls.operand_from ty 0 (left at.entry)) }
{
    let mut count = 0;
    let mut rest = at;
    'each: while let Some((_, after)) = rest.split_first() {
        match whole_operand(alloc, ty, rest) {
            Err(Stop::NotALine) => {}
            found => return Ok((count, found?)),
        }
        count += 1;
        rest = after;
    }
    Err(Stop::NotALine)
}

/// Whether the words are attributes of a call of the profile.
fn are_attributes(at: Cursor) -> bool
    ensures { result ≡ calls.are_attributes (left at.entry) }
{
    attrs_len(at) == at.tokens.len() && !is_banned(at)
}

/// An argument after its type, with its attributes.
#[tactic(auto, unfolding(crate::specs::Calls::argument_of))]
fn argument_of(alloc: Global, ty: Ty, at: Cursor) -> Result<(Arg, Bytes), Stop>
    ensures { Gives (λ x. x) result (calls.argument_of at.entry.line.now ty at.entry.tokens.now) }
{
    let (count, opd) = last_operand(alloc, ty, at)?;
    let attrs = at.front(count);
    if !are_attributes(attrs) {
        return Err(Stop::NotALine);
    }
    Ok((Arg { ty, opd }, span(alloc, attrs)?))
}

/// An argument that is all of the words.
#[tactic(auto, unfolding(crate::specs::Calls::argument))]
fn argument(alloc: Global, at: Cursor) -> Result<(Arg, Bytes), Stop>
    ensures { Gives (λ x. x) result (calls.argument at.entry.line.now at.entry.tokens.now) }
{
    let (ty, _) = ty(at)?;
    argument_of(alloc, ty, at.skip(ty_len(ty)))
}

/// The arguments, where they close here.
fn closed<'a>(found: Arguments, at: Cursor<'a>) -> Result<(Arguments, Cursor<'a>), Stop>
    ensures read { Gives (λ x. (x.0, x.1.tokens.now)) result (calls.closed_arguments at.entry.line.now found at.entry.tokens.now) }
    ensures line { IfOk result (λ x. x.1.line.now ≡ at.entry.line.now) }
{
    if at.begins(b")") {
        Ok((found, at.skip(1)))
    } else {
        Err(Stop::NotALine)
    }
}

/// Arguments joined by commas, with the `)` after them.
fn arguments_within<'a>(alloc: Global, at: Cursor<'a>) -> Result<(Arguments, Cursor<'a>), Stop>
    ensures read { Gives (λ x. (x.0, x.1.tokens.now)) result (calls.arguments_within at.entry.tokens.now at.entry.line.now at.entry.tokens.now) }
    ensures line { IfOk result (λ x. x.1.line.now ≡ at.entry.line.now) }
{
    let mut found = Arguments {
        args: Seq::new(alloc),
        attrs: Texts::new(alloc),
    };
    let mut rest = at;
    let mut bound = at.tokens;
    'each: while let [_, fewer @ ..] = bound {
        bound = fewer;
        let size = argument_len(rest);
        let (arg, attrs) = argument(alloc, rest.front(size))?;
        found.args.push(arg)?;
        found.attrs.push(attrs)?;
        let after = rest.skip(size);
        if !after.begins(b",") {
            return closed(found, after);
        }
        rest = after.skip(1);
    }
    Err(Stop::NotALine)
}

/// The arguments with the parentheses around them.
#[tactic(auto, unfolding(crate::specs::Calls::arguments_at))]
fn arguments_at<'a>(alloc: Global, at: Cursor<'a>) -> Result<(Arguments, Cursor<'a>), Stop>
    ensures read { Gives (λ x. (x.0, x.1.tokens.now)) result (calls.arguments_at at.entry.line.now at.entry.tokens.now) }
    ensures line { IfOk result (λ x. x.1.line.now ≡ at.entry.line.now) }
{
    if !at.begins(b"(") {
        return Err(Stop::NotALine);
    }
    if at.skip(1).begins(b")") {
        let none = Arguments {
            args: Seq::new(alloc),
            attrs: Texts::new(alloc),
        };
        return Ok((none, at.skip(2)));
    }
    arguments_within(alloc, at.skip(1))
}

/// Whether each parenthesis has its mate.
fn is_balanced(at: Cursor) -> bool
    ensures { result ≡ calls.is_balanced 0 (left at.entry) }
{
    let mut depth = 0;
    let mut rest = at;
    'each: while let Some((word, after)) = rest.split_first() {
        if depth == 0 && same_word(word, b")") {
            return false;
        }
        depth = depth_after(depth, word);
        rest = after;
    }
    depth == 0
}

/// Whether the words may stand after the arguments.
fn may_follow(at: Cursor) -> bool
    ensures { result ≡ calls.may_follow (left at.entry) }
{
    is_balanced(at) && !has(at, b"[")
}

/// Whether a result is named exactly where there is one.
fn names_result(name: &Option<Bytes>, ty: Ty) -> bool
    ensures { result ≡ calls.names_result name.now ty }
{
    match ty {
        Ty::Void => name.is_none(),
        Ty::Int(_) | Ty::Ptr | Ty::Row { .. } => name.is_some(),
    }
}

/// A call of its parts.
fn call_line(
    alloc: Global,
    name: Option<Bytes>,
    ty: Ty,
    site: CallSite,
    args: Seq<Arg>,
) -> Result<Line, Stop>
    ensures { Gives (λ x. x) result (Some (calls.call_line name ty site args)) }
{
    Ok(Line::Stmt(Stmt {
        result: name,
        ty,
        op: Op::Call(Boxed::new(alloc, site)?),
        args: Args::from_list(args),
        labels: Names::new(alloc),
    }))
}

/// A call by what is left of its line after the word `call`, with the words before that.
#[tactic(auto, unfolding(crate::specs::Calls::call_after))]
fn call_after(alloc: Global, name: Option<Bytes>, tail: Cursor, at: Cursor) -> Result<Line, Stop>
    requires { tail.line.now ≡ at.line.now }
    ensures { Gives (λ x. x) result (calls.call_after at.entry.line.now name tail.entry.tokens.now at.entry.tokens.now) }
{
    let n = symbol_at(at).ok_or(Stop::NotALine)?;
    let callee = callee(alloc, at.skip(n))?;
    let ty = ret_of(at.front(n))?;
    let (found, post) = arguments_at(alloc, at.skip(n).skip(1))?;
    if !names_result(&name, ty) || !may_follow(post) {
        return Err(Stop::NotALine);
    }
    let Arguments { args, attrs } = found;
    let site = CallSite {
        tail: span(alloc, tail)?,
        pre: span(alloc, at.front(n.saturating_sub(ty_len(ty))))?,
        callee,
        attrs,
        post: span(alloc, post)?,
    };
    call_line(alloc, name, ty, site, args)
}

/// How many words TAIL has.
fn tail_len(at: Cursor) -> usize
    ensures { result ≡ calls.tail_len (left at.entry) }
{
    if at.begins(b"tail") || at.begins(b"notail") {
        1
    } else {
        0
    }
}

/// A call after the name of its result.
#[tactic(auto, unfolding(crate::specs::Calls::call_for))]
fn call_for(alloc: Global, name: Option<Bytes>, at: Cursor) -> Result<Line, Stop>
    ensures { Gives (λ x. x) result (calls.call_for at.entry.line.now name at.entry.tokens.now) }
{
    let n = tail_len(at);
    let rest = at.skip(n);
    if !rest.begins(b"call") {
        return Err(Stop::NotALine);
    }
    call_after(alloc, name, at.front(n), rest.skip(1))
}

/// The call that all of the words are.
#[tactic(auto, unfolding(crate::specs::Calls::call))]
pub(crate) fn call(alloc: Global, at: Cursor) -> Result<Line, Stop>
    ensures { Gives (λ x. x) result (calls.call at.entry.line.now at.entry.tokens.now) }
{
    match local(alloc, at) {
        Err(Stop::NotALine) => call_for(alloc, None, at),
        found => {
            let (name, _) = found?;
            if !at.skip(1).begins(b"=") {
                return Err(Stop::NotALine);
            }
            call_for(alloc, Some(name), at.skip(2))
        }
    }
}
