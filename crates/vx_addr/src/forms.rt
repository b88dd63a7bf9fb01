//! `form`: the form of a pointer, as a user of it sees it.
//!
//! Want of memory is the only failure; the view may then have more notes, and is otherwise as before.

ghost use Rattle.std.specs.Prelude.{◌≡◌, IfOk, option_map};
ghost use Rattle.ir_types.specs.declared.module.Module.{Module};
ghost use Rattle.ir_types.specs.Formed.{IsFormed};
ghost use Rattle.vx_view.specs.Addresses.{form, form_in};
ghost use Rattle.vx_view.specs.Blocks.{block_at};
ghost use Rattle.vx_view.specs.Views.{StandsFor, IsAskable, Asks};
ghost use Rattle.vx_addr.specs.Parts.{as_form, as_walked, only_place};
ghost use Rattle.vx_addr.specs.Walks.{Names, on_walks, form_names, still, bare};

use crate::address::Form;
use crate::lookup::standing;
use crate::walk::{Walk, pointers, sums};
use ir_types::{Id, Inst, Opd, OutOfMemory, Place};
use std::alloc::Global;
use vx_list::TryClone;
use vx_view::View;

/// The form of a pointer in the block of its user. It asks for the user, and for what the walks follow or stop at.
pub fn form<V: View>(
    alloc: Global,
    view: &mut V,
    user: Id,
    pointer: &Opd,
) -> Result<Form, OutOfMemory>
    requires { IsAskable (V.seen view.old) }
    ensures is { IfOk result (λ given. (m : Module) → StandsFor (V.seen view.new) m → IsFormed m → as_form given ≡ form m user pointer.now) }
    ensures asks { Asks (λ m. Names (form_names m user pointer.now)) (V.seen view.old) (V.seen view.new) }
{
    let found = standing(view, user)?;
    match only_place(found) {
        Some(place) => form_at(alloc, view, place, pointer),
        None => form_alone(alloc, pointer),
    }
}

/// The place of an instruction.
fn only_place(found: Option<(Place, Inst)>) -> Option<Place>
    ensures { result ≡ option_map only_place found }
{
    match found {
        Some((place, _)) => Some(place),
        None => None,
    }
}

/// The form of a pointer whose user is not there: nothing is added to it.
fn form_alone(alloc: Global, pointer: &Opd) -> Result<Form, OutOfMemory>
    ensures { IfOk result (λ given. as_form given ≡ bare pointer.now) }
{
    Ok(Form {
        root: pointer.try_clone(alloc)?,
        symbol: None,
        constant: 0,
    })
}

/// The form of a pointer in a block.
pub(crate) fn form_at<V: View>(
    alloc: Global,
    view: &mut V,
    place: Place,
    pointer: &Opd,
) -> Result<Form, OutOfMemory>
    requires { IsAskable (V.seen view.old) }
    ensures is { IfOk result (λ given. (m : Module) → StandsFor (V.seen view.new) m → IsFormed m → as_form given ≡ form_in (block_at m place) pointer.now) }
    ensures asks { Asks (λ m. Names (on_walks (block_at m place) pointer.now)) (V.seen view.old) (V.seen view.new) }
{
    let walk = pointers(alloc, view, place, pointer.try_clone(alloc)?)?;
    let walk = sums(view, place, walk)?;
    Ok(form_there(walk))
}

/// The form where a walk ended.
fn form_there(walk: Walk) -> Form
    ensures { as_form result ≡ still (as_walked walk) }
{
    Form {
        root: walk.pointer,
        symbol: walk.offset.symbol,
        constant: walk.offset.constant,
    }
}
