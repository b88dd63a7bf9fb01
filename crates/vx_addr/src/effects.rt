//! `effect_of` and `effects_conflict`: what an instruction does to memory, asked once and then compared.
//!
//! Want of memory is the only failure of the first; the view may then have more notes, and is otherwise as before. The second asks
//! nothing.

ghost use Rattle.std.specs.Prelude.{◌≡◌, List, Some, IfOk, option_map};
ghost use Rattle.ir_types.specs.declared.inst.Inst.{Inst};
ghost use Rattle.ir_types.specs.declared.module.Module.{Module};
ghost use Rattle.ir_types.specs.Formed.{IsFormed};
ghost use Rattle.vx_view.specs.Blocks.{block_at};
ghost use Rattle.vx_view.specs.Conflicts.{access_of};
ghost use Rattle.vx_view.specs.Conflicts as view_of;
ghost use Rattle.vx_view.specs.Views.{StandsFor, IsAskable, Asks};
ghost use Rattle.vx_addr.specs.Effects.{effect_of, effects_conflict, touch_of, touches_meet, are_apart};
ghost use Rattle.vx_addr.specs.Parts.{as_access, as_touch, as_effect, as_form, as_kind};
ghost use Rattle.vx_addr.specs.Walks.{Names, on_walks, on_access};

use crate::access::{Access, access_of};
use crate::conflicts::{are_far, is_call, minds_calls, same_root};
use crate::effect::{Effect, Touch};
use crate::forms::form_at;
use crate::kind::{kind_of, never_meet};
use ir_types::{Inst, OutOfMemory, Place};
use std::alloc::Global;
use vx_view::View;

/// What an instruction of a block does to memory. It asks for what the walks from its pointer follow or stop at.
pub fn effect_of<V: View>(
    alloc: Global,
    view: &mut V,
    place: Place,
    inst: &Inst,
) -> Result<Effect, OutOfMemory>
    requires { IsAskable (V.seen view.old) }
    ensures is { IfOk result (λ effect. (m : Module) → StandsFor (V.seen view.new) m → IsFormed m → as_effect effect ≡ effect_of m (block_at m place) inst.now) }
    ensures asks { Asks (λ m. Names (on_access (block_at m place) (access_of inst.now))) (V.seen view.old) (V.seen view.new) }
{
    let touch = touch_of(alloc, view, place, inst)?;
    Ok(Effect {
        call: is_call(&inst.op),
        minds_calls: minds_calls(&inst.op),
        touch,
    })
}

/// What an instruction of a block touches, if it is a load or a store.
fn touch_of<V: View>(
    alloc: Global,
    view: &mut V,
    place: Place,
    inst: &Inst,
) -> Result<Option<Touch>, OutOfMemory>
    requires { IsAskable (V.seen view.old) }
    ensures is { IfOk result (λ touch. (m : Module) → StandsFor (V.seen view.new) m → IsFormed m → option_map as_touch touch ≡ touch_of m (block_at m place) (access_of inst.now)) }
    ensures asks { Asks (λ m. Names (on_access (block_at m place) (access_of inst.now))) (V.seen view.old) (V.seen view.new) }
{
    match access_of(inst) {
        Some(access) => {
            let touch = touch(alloc, view, place, &access)?;
            Ok(Some(touch))
        }
        None => Ok(None),
    }
}

/// What an access touches.
fn touch<V: View>(
    alloc: Global,
    view: &mut V,
    place: Place,
    access: &Access<'_>,
) -> Result<Touch, OutOfMemory>
    requires { IsAskable (V.seen view.old) }
    ensures is { IfOk result (λ touch. (m : Module) → StandsFor (V.seen view.new) m → IsFormed m → Some (as_touch touch) ≡ touch_of m (block_at m place) (Some (as_access access.now))) }
    ensures asks { Asks (λ m. Names (on_walks (block_at m place) access.now.pointer.now)) (V.seen view.old) (V.seen view.new) }
{
    let form = form_at(alloc, view, place, access.pointer)?;
    let kind = kind_of(view, &form.root)?;
    Ok(Touch {
        form,
        kind,
        size: access.size,
        writes: access.writes,
    })
}

/// Whether two instructions of one block conflict, by what is kept of them.
pub fn effects_conflict(a: &Effect, b: &Effect) -> bool
    ensures { result ≡ effects_conflict (as_effect a.now) (as_effect b.now) }
{
    a.call && b.minds_calls || b.call && a.minds_calls || touches_meet(&a.touch, &b.touch)
}

/// Whether what is touched may be the same, and one of two writes.
fn touches_meet(a: &Option<Touch>, b: &Option<Touch>) -> bool
    ensures { result ≡ touches_meet (option_map as_touch a.now) (option_map as_touch b.now) }
{
    match (a, b) {
        (Some(a), Some(b)) => (a.writes || b.writes) && !are_apart(a, b),
        _ => false,
    }
}

/// Whether what two touch is apart.
fn are_apart(a: &Touch, b: &Touch) -> bool
    ensures { result ≡ are_apart (as_touch a.now) (as_touch b.now) }
{
    if same_root(&a.form.root, &b.form.root) {
        return are_far(&a.form, a.size, &b.form, b.size);
    }
    never_meet(a.kind, b.kind)
}

/// In a module, what is kept of two instructions of a block tells whether they conflict there.
pub fn effects_tell_conflicts()
    ensures { (m : Module) (block : List Inst) (i j : Inst) → effects_conflict (effect_of m block i) (effect_of m block j) ≡ view_of.conflict_in m block i j }
{}
