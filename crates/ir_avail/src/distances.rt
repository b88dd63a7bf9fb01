//! Distances to a block along ways that leave no barred block.
//!
//! `distances` is the entry point; it fails for want of memory alone. A distance is a number of edges, and `None` where there is
//! no way. The blocks at a distance are found from those at one less, in rounds until one finds none.

ghost use Rattle.std.specs.Prelude.{◌≡◌, ℕ, ◌<◌, ◌≤◌, ◌↔◌, ◌⊎◌, false, true, length, count_by, IfOk, IsSome, IsTrue};
ghost use Rattle.std.specs.Option.{is_none};
ghost use Rattle.ir_types.specs.Walks.{HasEdge, targets_at};
ghost use Rattle.ir_avail.specs.Avoids.{bar_at, distance_at, AreDistances, AreNear, IsNext};

use crate::graph::Graph;
use std::alloc::{AllocError, Global};

/// The distances that a round leaves, and whether it found a new one.
#[derive(Drop)]
struct Round {
    distances: Vec<Option<usize>>,
    found: bool,
}

/// For each block the fewest edges to `end` along blocks of which none but the last is barred.
pub(crate) fn distances(
    alloc: Global,
    graph: &Graph,
    barred: &[bool],
    end: usize,
) -> Result<Vec<Option<usize>>, AllocError>
    ensures { IfOk result (λ d. AreDistances graph.now (bar_at barred.now) end d.items) }
{
    let mut distances = only(alloc, graph.len(), end)?;
    let mut most: usize = 0;
    'rounds: loop {
        let round = next_round(alloc, graph, barred, &distances, most)?;
        distances = round.distances;
        if !round.found {
            return Ok(distances);
        }
        most += 1;
    }
}

/// Distance 0 for the one block, and none for the others.
fn only(alloc: Global, len: usize, end: usize) -> Result<Vec<Option<usize>>, AllocError>
    ensures len { IfOk result (λ d. length d.items ≡ len) }
    ensures at { IfOk result (λ d. end < len → distance_at d.items end ≡ Some 0) }
    ensures others { IfOk result (λ d. (a n : ℕ) → distance_at d.items a ≡ Some n → (a ≡ end) × (n ≡ 0)) }
{
    let mut distances = Vec::with_capacity(alloc, len)?;
    for number in 0..len {
        let distance = if number == end { Some(0) } else { None };
        distances.push(distance)?;
    }
    Ok(distances)
}

/// The distances of one more edge beside those that are known.
fn next_round(
    alloc: Global,
    graph: &Graph,
    barred: &[bool],
    distances: &[Option<usize>],
    most: usize,
) -> Result<Round, AllocError>
    requires len { length distances.now ≡ length graph.now }
    requires most { most ≤ length graph.now }
    ensures len { IfOk result (λ r. length r.distances.items ≡ length graph.now) }
    ensures next { IfOk result (λ r. (a : ℕ) → a < length graph.now
        → IsNext graph.now (bar_at barred.now) distances.now most a (distance_at r.distances.items a)) }
    ensures fewer { IfOk result (λ r. r.found ≡ true
        → count_by is_none r.distances.items < count_by is_none distances.now) }
    ensures same { IfOk result (λ r. r.found ≡ false
        → (a : ℕ) → distance_at distances.now a ≡ None → distance_at r.distances.items a ≡ None) }
{
    let mut next = Vec::with_capacity(alloc, distances.len())?;
    let mut found = false;
    for number in 0..distances.len() {
        let distance = next_distance(graph, barred, distances, most, number);
        found = is_found(found, distance, distances[number]);
        next.push(distance)?;
    }
    Ok(Round {
        distances: next,
        found,
    })
}

/// Whether a distance was found before, or this one is new.
fn is_found(found: bool, distance: Option<usize>, old: Option<usize>) -> bool
    ensures one { result ≡ true → (found ≡ true) ⊎ ((old ≡ None) × IsSome distance) }
    ensures none { result ≡ false → (found ≡ false) × (old ≡ None → distance ≡ None) }
{
    found || distance.is_some() && old.is_none()
}

/// A block's distance, or one more than `most` where it has none and a target has `most`.
fn next_distance(
    graph: &Graph,
    barred: &[bool],
    distances: &[Option<usize>],
    most: usize,
    number: usize,
) -> Option<usize>
    requires len { length distances.now ≡ length graph.now }
    requires within { number < length graph.now }
    requires most { most ≤ length graph.now }
    ensures { IsNext graph.now (bar_at barred.now) distances.now most number result }
{
    let len = distances.len();
    if let Some(distance) = distances[number] {
        return Some(distance);
    }
    if is_barred(barred, number) || !leads_to(graph, distances, most, number) {
        return None;
    }
    prove!(most <= len);
    Some(most + 1)
}

/// Whether the block is barred.
fn is_barred(barred: &[bool], number: usize) -> bool
    ensures { result ≡ bar_at barred.now number }
{
    match barred.get(number) {
        Some(bar) => *bar,
        None => false,
    }
}

/// The targets of a block.
pub(crate) fn targets(graph: &Graph, number: usize) -> &[u32]
    ensures { result.now ≡ targets_at graph.now number }
{
    match graph.get(number) {
        Some(targets) => targets.as_slice(),
        None => &[],
    }
}

/// Whether the block is at the distance.
pub(crate) fn is_at(distances: &[Option<usize>], number: usize, distance: usize) -> bool
    ensures { IsTrue result ↔ (distance_at distances.now number ≡ Some distance) }
{
    match distance_of(distances, number) {
        Some(own) => own == distance,
        None => false,
    }
}

/// The distance of a block.
pub(crate) fn distance_of(distances: &[Option<usize>], number: usize) -> Option<usize>
    ensures { result ≡ distance_at distances.now number }
{
    match distances.get(number) {
        Some(distance) => *distance,
        None => None,
    }
}

/// Whether an edge leads from the block to one at the distance.
fn leads_to(graph: &Graph, distances: &[Option<usize>], distance: usize, number: usize) -> bool
    ensures { IsTrue result ↔ ((b : ℕ) × HasEdge graph.now number b × (distance_at distances.now b ≡ Some distance)) }
{
    let len = graph.len();
    for target in targets(graph, number) {
        let target = *target as usize;
        if target < len && is_at(distances, target, distance) {
            return true;
        }
    }
    false
}
