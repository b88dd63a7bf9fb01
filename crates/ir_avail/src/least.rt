//! The least of the shortest ways from the entry.
//!
//! `least` is the entry point; it fails for want of memory alone. From each block it goes on to the least target whose distance
//! is one less.

ghost use Rattle.std.specs.Prelude.{◌≡◌, ℕ, ◌≤◌, ◌⊎◌, IfOk, IfSome, IfNone};
ghost use Rattle.ir_avail.specs.Avoids.{IsTargetAt, LeadsLeast};

use crate::distances::{is_at, targets};
use crate::graph::Graph;
use ir_types::Numbers;
use std::alloc::{AllocError, Global};
use vx_list::Seq;

/// The entry and the least of the shortest ways from it, of `len` edges.
pub(crate) fn least(
    alloc: Global,
    graph: &Graph,
    distances: &[Option<usize>],
    len: usize,
) -> Result<Numbers, AllocError>
    ensures { IfOk result (λ walk. LeadsLeast graph.now distances.now len walk) }
{
    let mut walk = Seq::new(alloc);
    walk.push(0)?;
    let mut at: u32 = 0;
    let mut left = len;
    'down: while left > 0 {
        left -= 1;
        if let Some(next) = least_target(graph, distances, left, at) {
            walk.push(next)?;
            at = next;
        }
    }
    Ok(walk)
}

/// The least target of a block at the distance.
fn least_target(graph: &Graph, distances: &[Option<usize>], distance: usize, at: u32) -> Option<u32>
    ensures some { IfSome result (λ b. IsTargetAt graph.now distances.now at distance b) }
    ensures least { IfSome result (λ b. (c : ℕ) → IsTargetAt graph.now distances.now at distance c → b ≤ c) }
    ensures none { IfNone result ((c : ℕ) → IsTargetAt graph.now distances.now at distance c → ⊥) }
{
    let mut least = None;
    let len = graph.len();
    for target in targets(graph, at as usize) {
        if (*target as usize) < len && is_at(distances, *target as usize, distance) {
            least = Some(lesser(least, *target));
        }
    }
    least
}

/// The lesser of both, or the one where there is no other.
fn lesser(other: Option<u32>, one: u32) -> u32
    ensures one { result ≤ one }
    ensures other { IfSome other (λ n. result ≤ n) }
    ensures either { (result ≡ one) ⊎ (other ≡ Some result) }
{
    match other {
        Some(other) => if other < one { other } else { one },
        None => one,
    }
}
