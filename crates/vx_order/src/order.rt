//! The order of nodes under links: the least node that may come next, again and again.
//!
//! The one entry point is `order`. Nodes are numbers in ascending order. For each number the count of links to it whose other
//! end is not placed is kept, and the set of the nodes that may come next: those not placed, with the count 0. Where the set is
//! empty too early no order exists, and a cycle is looked for.

ghost use Rattle.std.specs.Prelude.{◌≡◌, ℕ, ◌+◌, ◌<◌, ◌≤◌, ◌==◌, ◌&&◌, ◌||◌, All, Some, None, IfOk, IfErr, OnOk, true, nat_lt, length, count_by, slice_index, slice_index_or, []};
ghost use Rattle.std.specs.Ordering.{nat_cmp};
ghost use Rattle.std.specs.BTreeSet.{contains};
ghost use Rattle.vx_order.specs.Groups.{has};
ghost use Rattle.vx_order.specs.Order.{order_on};
ghost use Rattle.vx_order.specs.Walks.{Ascends, tally, ends_from, RefusesNodes, AreLinks};

use crate::OrderRefusal;
use crate::cycle::find_cycle;
use std::alloc::{AllocError, Global};
use std::collections::BTreeSet;
use vx_list::Seq;

/// The nodes in their order, each at its turn the least of those whose predecessors are placed. All are below `bound`.
pub(crate) fn order(
    alloc: Global,
    bound: usize,
    nodes: &[u32],
    links: &[(u32, u32)],
) -> Result<Vec<u32>, OrderRefusal>
    requires ascending { Ascends 0 nodes.now }
    requires below { All (λ v. v < bound) nodes.now }
    requires links { AreLinks nodes.now links.now }
    ensures below { IfOk result (λ order. All (λ v. v < bound) order.items) }
    ensures order { IfOk result (λ order. order_on nodes.now links.now ≡ Some order.items) }
    ensures refused { IfErr result (RefusesNodes nodes.now links.now) }
{
    let ends = ends(alloc, bound, links)?;
    let mut counts = open_counts(alloc, bound, links)?;
    let mut ready = starts(alloc, nodes, counts.as_slice())?;
    let mut placed = Vec::with_capacity(alloc, nodes.len())?;
    'each: for _node in nodes {
        let Some(node) = ready.pop_first() else {
            let start = first_open(nodes, counts.as_slice());
            return Err(OrderRefusal::NoOrder {
                cycle: find_cycle(alloc, start, links, counts.as_slice())?,
            });
        };
        placed.push(node)?;
        release(&mut counts, &mut ready, ends[node as usize].as_slice())?;
    }
    Ok(placed)
}

/// For each number below `bound` the other ends of the links from it, in their order.
fn ends(alloc: Global, bound: usize, links: &[(u32, u32)]) -> Result<Vec<Seq<u32>>, AllocError>
    requires { All (λ l. l.0 < bound) links.now }
    ensures { IfOk result (λ ends. (length ends.items ≡ bound) × ((v : ℕ) → slice_index_or ends.items v [] ≡ ends_from v links.now)) }
{
    let mut ends = Vec::with_capacity(alloc, bound)?;
    'rows: for _row in 0..bound {
        ends.push(Seq::new(alloc))?;
    }
    for (from, to) in links {
        ends[*from as usize].push(*to)?;
    }
    Ok(ends)
}

/// For each number below `bound` the count of the links to it.
fn open_counts(alloc: Global, bound: usize, links: &[(u32, u32)]) -> Result<Vec<usize>, AllocError>
    requires { All (λ l. l.1 < bound) links.now }
    ensures { IfOk result (λ counts. (length counts.items ≡ bound)
        × ((v : ℕ) → slice_index counts.items v ≡ count_by (λ l. l.1 == v) links.now)) }
{
    let mut counts = vec![in alloc; 0; bound]?;
    for (_, to) in links {
        counts[*to as usize] += 1;
    }
    Ok(counts)
}

/// The nodes whose count is 0.
fn starts(alloc: Global, nodes: &[u32], counts: &[usize]) -> Result<BTreeSet<u32>, AllocError>
    requires { All (λ v. v < length counts.now) nodes.now }
    ensures { IfOk result (λ ready. (v : ℕ) → contains nat_cmp ready v ≡ (has nodes.now v && (slice_index counts.now v == 0))) }
{
    let mut ready = BTreeSet::new(alloc);
    for node in nodes {
        if counts[*node as usize] == 0 {
            ready.insert(*node)?;
        }
    }
    Ok(ready)
}

/// Counts one link less for each of these ends of links, and puts each whose count came to 0 into the set.
fn release(
    counts: &mut Vec<usize>,
    ready: &mut BTreeSet<u32>,
    ends: &[u32],
) -> Result<(), AllocError>
    requires counted { (v : ℕ) → tally v ends.now ≤ slice_index counts.old.items v }
    requires below { All (λ v. v < length counts.old.items) ends.now }
    ensures len { length counts.new.items ≡ length counts.old.items }
    ensures counted { OnOk result ((v : ℕ) → slice_index counts.new.items v + tally v ends.now ≡ slice_index counts.old.items v) }
    ensures ready { OnOk result ((v : ℕ) → contains nat_cmp ready.new v
        ≡ (contains nat_cmp ready.old v || (nat_lt 0 (tally v ends.now) && (slice_index counts.new.items v == 0)))) }
{
    for end in ends {
        let at = *end as usize;
        counts[at] -= 1;
        if counts[at] == 0 {
            ready.insert(*end)?;
        }
    }
    Ok(())
}

/// The first node whose count is positive.
fn first_open(nodes: &[u32], counts: &[usize]) -> u32
    requires below { All (λ v. v < length counts.now) nodes.now }
    requires some { (k : ℕ) × (k < length nodes.now) × (0 < slice_index counts.now (slice_index nodes.now k)) }
    ensures node { has nodes.now result ≡ true }
    ensures positive { 0 < slice_index counts.now result }
{
    for node in nodes {
        if counts[*node as usize] > 0 {
            return *node;
        }
    }
    unreachable!()
}
