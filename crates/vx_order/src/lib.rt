//! The order of groups of places under dependences.
//!
//! The one entry point is `schedule`. Groups partition the places of a row; an edge (i, j) says that the place j depends on the
//! place i. Edges between places are edges between their groups. At each place of the order stands, among the groups all of
//! whose predecessors are placed, the one of least position, which is the least of its members. `NoOrder` says that no such
//! order exists, and keeps groups that form a cycle; want of memory is the other refusal.
//!
//! A group is known by its position while the order is made. Counts of open predecessors and an ordered set of the groups that
//! may come next make the time near linear in places and edges.
#![tactic(auto)]

ghost use Rattle.std.specs.Prelude.{◌≡◌, ◌<◌, All, Some, IfOk, IfErr};
ghost use Rattle.vx_order.specs.Groups.{IsPartition, size};
ghost use Rattle.vx_order.specs.Order.{order_of, Refuses};

mod cycle;
mod order;
mod refusal;
mod table;

use order::order;
pub use refusal::OrderRefusal;
use std::alloc::Global;
use table::Table;
use vx_list::Seq;

/// The members of a group, which are places from 0.
pub type Numbers = Seq<u32>;
/// A list of groups; a group's number is its place in the list, from 0.
pub type Groups = Seq<Numbers>;
/// A list of group numbers, of which each has an edge to the next, and the last to the first.
pub type Cycle = Seq<u32>;

/// The numbers of the groups in their order.
///
/// The groups partition the places from 0 to one less than their number, and the edges name such places. An edge between two
/// members of one group is a cycle of that group alone; an edge may stand more than once.
///
/// Refusals: `NoOrder` exactly where no order exists, unless memory is wanting first; `OutOfMemory`.
pub fn schedule(
    alloc: Global,
    groups: &Groups,
    edges: &[(u32, u32)],
) -> Result<Vec<u32>, OrderRefusal>
    requires partition { IsPartition groups.now }
    requires named { All (λ e. (e.0 < size groups.now) × (e.1 < size groups.now)) edges.now }
    ensures order { IfOk result (λ order. order_of groups.now edges.now ≡ Some order.items) }
    ensures refused { IfErr result (Refuses groups.now edges.now) }
{
    let table = Table::of(alloc, groups.as_slice())?;
    let links = table.links(alloc, edges)?;
    let nodes = table.positions(alloc)?;
    match order(alloc, table.len(), nodes.as_slice(), links.as_slice()) {
        Ok(order) => Ok(table.owners_of(alloc, order.as_slice())?),
        Err(OrderRefusal::NoOrder { cycle }) => Err(OrderRefusal::NoOrder {
            cycle: Seq::from_vec(table.owners_of(alloc, cycle.as_slice())?),
        }),
        Err(OrderRefusal::OutOfMemory) => Err(OrderRefusal::OutOfMemory),
    }
}

#[cfg(test)]
mod tests;
