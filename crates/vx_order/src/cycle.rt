//! A cycle of links among nodes that could not be placed.
//!
//! The one entry point is `find_cycle`. A number whose count is positive has a link from another such number. The
//! walk goes from one to the one before it until one comes again; what lies between is a cycle, found in reverse.

ghost use Rattle.std.specs.Prelude.{◌≡◌, ℕ, ◌<◌, ◌∷◌, ◌++◌, List, All, IfOk, length, reverse, slice_index, true};
ghost use Rattle.vx_order.specs.Groups.{has};
ghost use Rattle.vx_order.specs.Order.{IsCycle};
ghost use Rattle.vx_order.specs.Backward.{HasOpenBefore, IsOpenBefore, IsTrail};

use std::alloc::{AllocError, Global};
use vx_list::Seq;

/// Numbers with a positive count, each with a link to the next, and the last to the first.
pub(crate) fn find_cycle(
    alloc: Global,
    start: u32,
    links: &[(u32, u32)],
    counts: &[usize],
) -> Result<Seq<u32>, AllocError>
    requires ends { All (λ l. (l.0 < length counts.now) × (l.1 < length counts.now)) links.now }
    requires start { (start < length counts.now) × (0 < slice_index counts.now start) }
    requires before { HasOpenBefore links.now counts.now }
    ensures { IfOk result (λ cycle. IsCycle links.now cycle
        × ((v : ℕ) → has cycle v ≡ true → 0 < slice_index counts.now v)) }
{
    let before = before_each(alloc, links, counts)?;
    let mut met = vec![in alloc; false; counts.len()]?;
    let mut trail = Vec::new(alloc);
    let mut at = start;
    while !met[at as usize] {
        met[at as usize] = true;
        trail.push(at)?;
        at = before[at as usize];
    }
    Ok(last_round(alloc, at, trail)?)
}

/// For each number with a positive count another such number from which a link leads to it.
fn before_each(
    alloc: Global,
    links: &[(u32, u32)],
    counts: &[usize],
) -> Result<Vec<u32>, AllocError>
    requires ends { All (λ l. (l.0 < length counts.now) × (l.1 < length counts.now)) links.now }
    requires before { HasOpenBefore links.now counts.now }
    ensures len { IfOk result (λ before. length before.items ≡ length counts.now) }
    ensures before { IfOk result (λ before. (v : ℕ) → v < length counts.now → 0 < slice_index counts.now v
        → IsOpenBefore links.now counts.now (slice_index before.items v) v) }
{
    let mut before = vec![in alloc; 0; counts.len()]?;
    for (from, to) in links {
        if counts[*from as usize] > 0 {
            before[*to as usize] = *from;
        }
    }
    Ok(before)
}

/// The end of a trail from the last place where `at` stands in it, in reverse.
fn last_round(alloc: Global, at: u32, trail: Vec<u32>) -> Result<Seq<u32>, AllocError>
    requires met { has trail.items at ≡ true }
    ensures { IfOk result (λ round. (front : List ℕ) × (rest : List ℕ) × (round ≡ at ∷ front) × (reverse trail.items ≡ front ++ at ∷ rest)) }
{
    let mut trail = trail;
    let mut round = Seq::new(alloc);
    round.push(at)?;
    while let Some(node) = trail.pop() {
        if node == at {
            break;
        }
        round.push(node)?;
    }
    Ok(round)
}
