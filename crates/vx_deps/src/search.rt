//! `reach`: the instructions of a block that end at the last of a region's stores.
//!
//! Want of memory is the only failure; the view may then have more notes, and is otherwise as before.

ghost use Rattle.std.specs.Prelude.{◌≡◌, IfOk, option_map};
ghost use Rattle.ir_types.specs.declared.module.Module.{Module};
ghost use Rattle.ir_types.specs.Formed.{IsFormed};
ghost use Rattle.vx_view.specs.Views.{StandsFor, IsAskable, Asks};
ghost use Rattle.vx_deps.specs.Reach.{reach, has, has_all, parts, as_reach, LooksFor};

use crate::extent::Reach;
use crate::trail::looked_at;
use ir_types::{Id, Ids, OutOfMemory};
use std::alloc::Global;
use vx_list::Equal;
use vx_view::View;

/// The at most 256 instructions of the block that end at the last of these stores of one block.
pub fn reach<V: View>(alloc: Global, view: &mut V, stores: &Ids) -> Result<Reach, OutOfMemory>
    requires { IsAskable (V.seen view.old) }
    ensures is { IfOk result (λ given. (m : Module) → StandsFor (V.seen view.new) m → IsFormed m → as_reach given ≡ reach m stores.now) }
    ensures asks { Asks (λ m. LooksFor m stores.now) (V.seen view.old) (V.seen view.new) }
{
    let all = stores.as_slice();
    let mut left = all;
    while let Some((store, more)) = parts(left) {
        let ids = looked_at(alloc, view, store)?;
        if has_all(&ids, all) {
            return Ok(Reach::Near(ids));
        }
        left = more;
    }
    Ok(Reach::Far)
}

/// The first of some ids, and those after it.
fn parts(ids: &[Id]) -> Option<(Id, &[Id])>
    ensures { option_map (λ p. (p.0, p.1.now)) result ≡ parts ids.now }
{
    match ids {
        [first, more @ ..] => Some((*first, more)),
        [] => None,
    }
}

/// Whether an id is among these.
fn has(ids: &[Id], id: Id) -> bool
    ensures { result ≡ has ids.now id }
{
    let mut left = ids;
    while let [first, more @ ..] = left {
        if id.equal(first) {
            return true;
        }
        left = more;
    }
    false
}

/// Whether each of these stores is among ids.
fn has_all(ids: &Ids, stores: &[Id]) -> bool
    ensures { result ≡ has_all ids.now stores.now }
{
    let mut left = stores;
    while let [first, more @ ..] = left {
        if !has(ids.as_slice(), *first) {
            return false;
        }
        left = more;
    }
    true
}
