//! The window of bundles in what a graph holds: its instructions, groups and edges, as the schedule asks for them.
//!
//! It runs from the first member of any bundle to the last that is held. Places count its instructions from 0 in block order. Want of
//! memory is the only failure.

ghost use Rattle.std.specs.Prelude.{◌≡◌, ◌+◌, ◌<◌, ◌^◌, ◌++◌, IfOk, OnOk, length, map, slice_get, get_or, []};
ghost use Rattle.std.specs.List.{list_any};
ghost use Rattle.ir_types.specs.Available.{same_id};
ghost use Rattle.vx_serial.specs.Window.{is_member};
ghost use Rattle.vx_deps.specs.Graphs.{as_node};
ghost use Rattle.vx_deps.specs.Orders.{place_of, singles, groups_in, ids_at};
ghost use Rattle.vx_deps.specs.Rows.{row, row_ids, from_member, edges_of, edges_between};

use crate::node::{Node, depends_on};
use crate::refusal::Bundles;
use ir_types::{Id, Ids};
use std::alloc::{AllocError, Global};
use vx_list::{Equal, Seq};
use vx_order::{Groups, Numbers};

/// Whether an id is one of these.
fn has(ids: &[Id], id: Id) -> bool
    ensures { result ≡ list_any (same_id id) ids.now }
{
    let mut left = ids;
    while let [first, more @ ..] = left {
        if id.equal(first) {
            return true;
        }
        left = more;
    }
    false
}

/// Whether an id is a member of one of these bundles.
pub(crate) fn is_member(bundles: &[Ids], id: Id) -> bool
    ensures { result ≡ is_member bundles.now id }
{
    let mut left = bundles;
    while let [first, more @ ..] = left {
        if has(first.as_slice(), id) {
            return true;
        }
        left = more;
    }
    false
}

/// The instructions of the window, the last of the block first, as those that are held.
pub(crate) fn from_member<'a>(nodes: &'a [Node], bundles: &[Ids]) -> &'a [Node]
    ensures { row (map as_node result.now) ≡ from_member bundles.now (row (map as_node nodes.now)) }
{
    let mut left = nodes;
    while let Some((first, later)) = left.split_last() {
        if is_member(bundles, first.inst.id) {
            return left;
        }
        left = later;
    }
    left
}

/// The ids of the instructions of a window in block order.
pub(crate) fn ids_of(alloc: Global, window: &[Node]) -> Result<Ids, AllocError>
    ensures ids { IfOk result (λ ids. ids ≡ row_ids (row (map as_node window.now))) }
    ensures few { IfOk result (λ ids. length ids < 2 ^ 32) }
{
    if window.len() >= 1 << 32 {
        return Err(AllocError);
    }
    let mut ids = Seq::with_capacity(alloc, window.len())?;
    let mut left = window;
    while let [later @ .., first] = left {
        ids.push(first.inst.id)?;
        left = later;
    }
    Ok(ids)
}

/// The place of an id; their number where it is none of these.
fn place_of(ids: &[Id], id: Id) -> u32
    requires { length ids.now < 2 ^ 32 }
    ensures { result ≡ place_of ids.now id }
{
    let mut at = 0;
    let mut left = ids;
    while let [first, more @ ..] = left {
        if first.equal(&id) {
            return at;
        }
        at += 1;
        left = more;
    }
    at
}

/// The places of the members of a bundle, in their order.
fn places(alloc: Global, ids: &[Id], bundle: &[Id]) -> Result<Numbers, AllocError>
    requires { length ids.now < 2 ^ 32 }
    ensures { IfOk result (λ places. places ≡ map (place_of ids.now) bundle.now) }
{
    let mut places = Seq::with_capacity(alloc, bundle.len())?;
    for id in bundle {
        places.push(place_of(ids, *id))?;
    }
    Ok(places)
}

/// Puts each instruction that is no member at the end as a group by itself.
fn push_singles(
    alloc: Global,
    groups: &mut Groups,
    ids: &[Id],
    bundles: &[Ids],
) -> Result<(), AllocError>
    requires { length ids.now < 2 ^ 32 }
    ensures { OnOk result (groups.new ≡ groups.old ++ singles bundles.now 0 ids.now) }
{
    let mut at = 0;
    let mut left = ids;
    while let [first, more @ ..] = left {
        if !is_member(bundles, *first) {
            groups.push(Seq::from_slice(alloc, &[at])?)?;
        }
        at += 1;
        left = more;
    }
    Ok(())
}

/// The groups of a window: each bundle, and each other instruction by itself.
pub(crate) fn groups_in(alloc: Global, ids: &[Id], bundles: &[Ids]) -> Result<Groups, AllocError>
    requires { length ids.now < 2 ^ 32 }
    ensures { IfOk result (λ groups. groups ≡ groups_in bundles.now ids.now) }
{
    let mut groups = Seq::with_capacity(alloc, ids.len())?;
    for bundle in bundles {
        groups.push(places(alloc, ids, bundle.as_slice())?)?;
    }
    push_singles(alloc, &mut groups, ids, bundles)?;
    Ok(groups)
}

/// Puts the edges from an instruction, by its place, to those after it at the end; these come the last of the block first.
fn push_edges(
    edges: &mut Vec<(u32, u32)>,
    from: u32,
    first: &Node,
    later: &[Node],
) -> Result<(), AllocError>
    requires { from + length later.now + 1 < 2 ^ 32 }
    ensures { OnOk result (edges.new.items ≡ edges.old.items ++ edges_of from (as_node first.now) (from + 1) (row (map as_node later.now))) }
{
    let mut at = from + 1;
    let mut left = later;
    while let [more @ .., next] = left {
        if depends_on(next, first) {
            edges.push((from, at))?;
        }
        at += 1;
        left = more;
    }
    Ok(())
}

/// The edges between the instructions of a window, which come the last of the block first.
pub(crate) fn edges_between(alloc: Global, window: &[Node]) -> Result<Vec<(u32, u32)>, AllocError>
    requires { length window.now < 2 ^ 32 }
    ensures { IfOk result (λ edges. edges.items ≡ edges_between 0 (row (map as_node window.now))) }
{
    let mut edges = Vec::new(alloc);
    let mut at = 0;
    let mut left = window;
    while let [later @ .., first] = left {
        push_edges(&mut edges, at, first, later)?;
        at += 1;
        left = later;
    }
    Ok(edges)
}

/// The id of the instruction at a place, if there is one.
fn id_at(ids: &[Id], place: u32) -> Option<Id>
    ensures { result ≡ slice_get ids.now place }
{
    match ids.get(place as usize) {
        Some(id) => Some(*id),
        None => None,
    }
}

/// The ids of the instructions at places, in the order of these.
fn ids_at(alloc: Global, ids: &[Id], places: &[u32]) -> Result<Ids, AllocError>
    ensures { IfOk result (λ there. there ≡ ids_at ids.now places.now) }
{
    let mut there = Seq::with_capacity(alloc, places.len())?;
    let mut left = places;
    while let [first, more @ ..] = left {
        if let Some(id) = id_at(ids, *first) {
            there.push(id)?;
        }
        left = more;
    }
    Ok(there)
}

/// The group of a number; an empty one where there is none.
fn group_at(groups: &Groups, number: u32) -> &[u32]
    ensures { result.now ≡ get_or groups.now number [] }
{
    match groups.get(number as usize) {
        Some(group) => group.as_slice(),
        None => &[],
    }
}

/// Groups by their numbers, each as the ids of its members.
pub(crate) fn named(
    alloc: Global,
    ids: &[Id],
    groups: &Groups,
    numbers: &[u32],
) -> Result<Bundles, AllocError>
    ensures { IfOk result (λ named. named ≡ map (λ g. ids_at ids.now (get_or groups.now g [])) numbers.now) }
{
    let mut named = Seq::with_capacity(alloc, numbers.len())?;
    for number in numbers {
        named.push(ids_at(alloc, ids, group_at(groups, *number))?)?;
    }
    Ok(named)
}
