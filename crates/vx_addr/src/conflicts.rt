//! `conflict`: whether two instructions of a block must keep their order for what they do to memory.
//!
//! Want of memory is the only failure; the view may then have more notes, and is otherwise as before.

ghost use Rattle.std.specs.Prelude.{◌≡◌, ◌||◌, ◌&&◌, ◌-ℤ◌, not, IfOk, option_map};
ghost use Rattle.std.specs.Int.{w64, int_wrap};
ghost use Rattle.ir_types.specs.declared.module.Module.{Module};
ghost use Rattle.ir_types.specs.Formed.{IsFormed};
ghost use Rattle.vx_view.specs.Addresses.{form_in};
ghost use Rattle.ir_types.specs.Available.{same_id};
ghost use Rattle.vx_view.specs.Answers.{is_value, found as view_of_found};
ghost use Rattle.vx_view.specs.Blocks.{block_at};
ghost use Rattle.vx_view.specs.Conflicts as view_of;
ghost use Rattle.vx_view.specs.Conflicts.{conflict, access_of, is_call, minds_calls, is_division, same_root, same_symbol, is_past};
ghost use Rattle.vx_view.specs.Views.{StandsFor, IsAskable, Asks};
ghost use Rattle.vx_addr.specs.Parts.{as_form, where_of, paired};
ghost use Rattle.vx_addr.specs.Walks.{Names, on_walks, on_access, conflict_names};

use crate::access::{Access, access_of};
use crate::address::Form;
use crate::forms::form_at;
use crate::kind::{kind_of, never_meet};
use crate::lookup::standing;
use ir_types::{Id, Inst, Op, Opd, OutOfMemory, Place};
use std::alloc::Global;
use vx_list::Equal;
use vx_num::BinOp;
use vx_view::View;

/// Whether two instructions of one block conflict: a call with what minds calls, or two accesses of which one writes and that are not
/// apart. It asks for both, and for what the walks from their pointers follow or stop at.
pub fn conflict<V: View>(alloc: Global, view: &mut V, i: Id, j: Id) -> Result<bool, OutOfMemory>
    requires { IsAskable (V.seen view.old) }
    ensures is { IfOk result (λ meets. (m : Module) → StandsFor (V.seen view.new) m → IsFormed m → meets ≡ conflict m i j) }
    ensures asks { Asks (λ m. Names (conflict_names m i j)) (V.seen view.old) (V.seen view.new) }
{
    let found = both(view, i, j)?;
    match found {
        Some((place, first, second)) => meets(alloc, view, place, &first, &second),
        None => Ok(false),
    }
}

/// Two instructions and the place of the first, where both are there.
fn paired(
    first: Option<(Place, Inst)>,
    second: Option<(Place, Inst)>,
) -> Option<(Place, Inst, Inst)>
    ensures { result ≡ paired first second }
{
    match (first, second) {
        (Some((place, first)), Some((_, second))) => Some((place, first, second)),
        _ => None,
    }
}

/// The instructions of two ids, and the place of the first.
fn both<V: View>(view: &mut V, i: Id, j: Id) -> Result<Option<(Place, Inst, Inst)>, OutOfMemory>
    requires { IsAskable (V.seen view.old) }
    ensures is { IfOk result (λ found. (m : Module) → StandsFor (V.seen view.new) m → IsFormed m → found ≡ paired (option_map where_of (view_of_found m i)) (option_map where_of (view_of_found m j))) }
    ensures asks { Asks (λ m. Names (λ x. same_id i x || same_id j x)) (V.seen view.old) (V.seen view.new) }
{
    let first = standing(view, i)?;
    let second = standing(view, j)?;
    Ok(paired(first, second))
}

/// Whether two instructions of a block conflict.
fn meets<V: View>(
    alloc: Global,
    view: &mut V,
    place: Place,
    first: &Inst,
    second: &Inst,
) -> Result<bool, OutOfMemory>
    requires { IsAskable (V.seen view.old) }
    ensures is { IfOk result (λ meets. (m : Module) → StandsFor (V.seen view.new) m → IsFormed m → meets ≡ view_of.conflict_in m (block_at m place) first.now second.now) }
    ensures asks { Asks (λ m. Names (λ x. on_access (block_at m place) (access_of first.now) x || on_access (block_at m place) (access_of second.now) x)) (V.seen view.old) (V.seen view.new) }
{
    if calls_meet(first, second) {
        return Ok(true);
    }
    meet(alloc, view, place, first, second)
}

/// Whether a division is one.
fn is_division(op: BinOp) -> bool
    ensures { result ≡ is_division op }
{
    matches!(op, BinOp::Udiv | BinOp::Sdiv | BinOp::Urem | BinOp::Srem)
}

/// Whether an operation is a call.
pub(crate) fn is_call(op: &Op) -> bool
    ensures { result ≡ is_call op.now }
{
    match op {
        Op::Call(_) => true,
        _ => false,
    }
}

/// Whether an operation keeps its order with calls.
pub(crate) fn minds_calls(op: &Op) -> bool
    ensures { result ≡ minds_calls op.now }
{
    match op {
        Op::Load { .. } | Op::Store { .. } | Op::Alloca { .. } | Op::Call(_) => true,
        Op::Bin { op, .. } => is_division(*op),
        _ => false,
    }
}

/// Whether one of two instructions is a call that the other minds.
fn calls_meet(i: &Inst, j: &Inst) -> bool
    ensures { result ≡ (is_call i.now.op && minds_calls j.now.op || is_call j.now.op && minds_calls i.now.op) }
{
    is_call(&i.op) && minds_calls(&j.op) || is_call(&j.op) && minds_calls(&i.op)
}

/// Whether two instructions of a block access memory, one of them writes, and they are not apart.
fn meet<V: View>(
    alloc: Global,
    view: &mut V,
    place: Place,
    first: &Inst,
    second: &Inst,
) -> Result<bool, OutOfMemory>
    requires { IsAskable (V.seen view.old) }
    ensures is { IfOk result (λ meets. (m : Module) → StandsFor (V.seen view.new) m → IsFormed m → meets ≡ view_of.meet m (block_at m place) (access_of first.now) (access_of second.now)) }
    ensures asks { Asks (λ m. Names (λ x. on_access (block_at m place) (access_of first.now) x || on_access (block_at m place) (access_of second.now) x)) (V.seen view.old) (V.seen view.new) }
{
    match (access_of(first), access_of(second)) {
        (Some(a), Some(b)) if a.writes || b.writes => {
            let apart = accesses_apart(alloc, view, place, &a, &b)?;
            Ok(!apart)
        }
        _ => Ok(false),
    }
}

/// Whether two accesses of a block are apart.
fn accesses_apart<V: View>(
    alloc: Global,
    view: &mut V,
    place: Place,
    a: &Access,
    b: &Access,
) -> Result<bool, OutOfMemory>
    requires { IsAskable (V.seen view.old) }
    ensures is { IfOk result (λ apart. (m : Module) → StandsFor (V.seen view.new) m → IsFormed m → apart ≡ view_of.is_apart m (form_in (block_at m place) a.now.pointer.now) a.now.size (form_in (block_at m place) b.now.pointer.now) b.now.size) }
    ensures asks { Asks (λ m. Names (λ x. on_walks (block_at m place) a.now.pointer.now x || on_walks (block_at m place) b.now.pointer.now x)) (V.seen view.old) (V.seen view.new) }
{
    let one = form_at(alloc, view, place, a.pointer)?;
    let other = form_at(alloc, view, place, b.pointer)?;
    let apart = is_apart(view, &one, a.size, &other, b.size)?;
    Ok(apart)
}

/// Whether two roots are one value, one global, or poison.
pub(crate) fn same_root(a: &Opd, b: &Opd) -> bool
    ensures { result ≡ same_root a.now b.now }
{
    match (a, b) {
        (Opd::Val(a), Opd::Val(b)) => a.equal(b),
        (Opd::Sym(a), Opd::Sym(b)) => a == b,
        (Opd::Lit(_), Opd::Lit(_)) => true,
        _ => false,
    }
}

/// Whether two symbols are one, at one scale.
fn same_symbol(a: Option<(Id, u64)>, b: Option<(Id, u64)>) -> bool
    ensures { result ≡ same_symbol a b }
{
    match (a, b) {
        (None, None) => true,
        (Some((a, scale)), Some((b, other))) => a.equal(&b) && scale == other,
        _ => false,
    }
}

/// Whether the second access begins where the first ends or later, or ends where it begins or earlier.
fn is_past(first: u16, second: u16, distance: i64) -> bool
    ensures { result ≡ is_past first second distance }
{
    i64::from(first) <= distance || distance <= -i64::from(second)
}

/// Whether two accesses of these forms and sizes are apart.
fn is_apart<V: View>(
    view: &mut V,
    a: &Form,
    first: u16,
    b: &Form,
    second: u16,
) -> Result<bool, OutOfMemory>
    requires { IsAskable (V.seen view.old) }
    ensures is { IfOk result (λ apart. (m : Module) → StandsFor (V.seen view.new) m → apart ≡ view_of.is_apart m (as_form a.now) first (as_form b.now) second) }
    ensures asks { Asks (λ m. Names (λ x. is_value x a.now.root || is_value x b.now.root)) (V.seen view.old) (V.seen view.new) }
{
    if same_root(&a.root, &b.root) {
        return Ok(are_far(a, first, b, second));
    }
    roots_never_meet(view, &a.root, &b.root)
}

/// How far the second lies after the first, modulo 2^64 as a signed number.
fn distance(first: i64, second: i64) -> i64
    ensures { result ≡ int_wrap w64 (second -ℤ first) }
{
    second.wrapping_sub(first)
}

/// Whether two accesses from one root have one symbol and lie far enough from each other.
pub(crate) fn are_far(a: &Form, first: u16, b: &Form, second: u16) -> bool
    ensures { result ≡ (same_symbol a.now.symbol b.now.symbol && is_past first second (int_wrap w64 (b.now.constant -ℤ a.now.constant))) }
{
    same_symbol(a.symbol, b.symbol) && is_past(first, second, distance(a.constant, b.constant))
}

/// Whether two roots are of kinds that never meet.
fn roots_never_meet<V: View>(view: &mut V, a: &Opd, b: &Opd) -> Result<bool, OutOfMemory>
    requires { IsAskable (V.seen view.old) }
    ensures is { IfOk result (λ apart. (m : Module) → StandsFor (V.seen view.new) m → apart ≡ view_of.never_meet (view_of.kind_of m a.now) (view_of.kind_of m b.now)) }
    ensures asks { Asks (λ m. Names (λ x. is_value x a.now || is_value x b.now)) (V.seen view.old) (V.seen view.new) }
{
    let a = kind_of(view, a)?;
    let b = kind_of(view, b)?;
    Ok(never_meet(a, b))
}
