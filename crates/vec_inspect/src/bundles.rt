//! Whether bundles may be asked for an order: each has a member, all members are among some ids, and none is twice.
//!
//! `stands_against` is the entry point: the first fault of bundles, if there is one.

ghost use Rattle.std.specs.Prelude.{◌≡◌, ◌<◌, ◌↔◌, ◌++◌, IfOk, OnOk, IfNone, IsTrue, All, length};
ghost use Rattle.std.specs.List.{list_any};
ghost use Rattle.ir_types.specs.Available.{same_id};
ghost use Rattle.vx_serial.specs.Window.{joined as all_of};
ghost use Rattle.vx_deps.specs.Cycles.{AreBundlesOf};
ghost use Rattle.vec_inspect.specs.Members as stands;

use ir_types::{Id, Ids};
use std::alloc::{AllocError, Global};
use vx_list::{Equal, Seq};

/// What stands against bundles.
#[derive(Clone, Copy, Debug)]
pub(crate) enum Fault {
    /// A bundle without a member.
    Empty,
    /// A member that is not among the ids.
    Outside(Id),
    /// A member that comes again.
    Twice(Id),
}

/// Whether an id is one of these.
fn has(ids: &[Id], id: Id) -> bool
    ensures { result ≡ list_any (same_id id) ids.now }
{
    let mut left = ids;
    while let [first, more @ ..] = left {
        if id.equal(first) {
            return true;
        }
        left = more;
    }
    false
}

/// The first of some members that is not among ids.
fn first_outside(ids: &[Id], members: &[Id]) -> Option<Id>
    ensures { result ≡ stands.first_outside ids.now members.now }
{
    let mut left = members;
    while let [first, more @ ..] = left {
        if !has(ids, *first) {
            return Some(*first);
        }
        left = more;
    }
    None
}

/// The first of some members that comes again.
fn first_twice(members: &[Id]) -> Option<Id>
    ensures { result ≡ stands.first_twice members.now }
{
    let mut left = members;
    while let [first, more @ ..] = left {
        if has(more, *first) {
            return Some(*first);
        }
        left = more;
    }
    None
}

/// The members of all bundles.
fn joined(alloc: Global, bundles: &[Ids]) -> Result<Ids, AllocError>
    ensures { IfOk result (λ ids. ids ≡ all_of bundles.now) }
{
    let mut members = Seq::new(alloc);
    let mut left = bundles;
    while let [first, more @ ..] = left {
        members.extend_from_slice(first.as_slice())?;
        left = more;
    }
    Ok(members)
}

/// Whether each bundle has a member.
fn are_filled(bundles: &[Ids]) -> bool
    ensures { IsTrue result ↔ All (λ b. 0 < length b) bundles.now }
{
    bundles.iter().all(|bundle| !bundle.is_empty())
}

/// The first fault of bundles whose members are to be among some ids.
#[tactic(auto, using(crate::proofs::Membership::bundles_of))]
pub(crate) fn stands_against(
    alloc: Global,
    ids: &[Id],
    bundles: &[Ids],
) -> Result<Option<Fault>, AllocError>
    ensures { IfOk result (λ fault. IfNone fault (AreBundlesOf ids.now bundles.now)) }
{
    let members = joined(alloc, bundles)?;
    if !are_filled(bundles) {
        return Ok(Some(Fault::Empty));
    }
    if let Some(id) = first_outside(ids, members.as_slice()) {
        return Ok(Some(Fault::Outside(id)));
    }
    if let Some(id) = first_twice(members.as_slice()) {
        return Ok(Some(Fault::Twice(id)));
    }
    Ok(None)
}
