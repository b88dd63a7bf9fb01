//! The blocks of a function that a walk from the entry reaches.
//!
//! `reached` is the entry point. The search goes from the entry round by round, and marks each block once. That all it marks is reached
//! is proved of the search; that nothing more is rests on a last pass over all edges. Want of memory is the only failure, and what a pass
//! that fails would answer, which it never does.

ghost use Rattle.std.specs.Prelude.{◌≡◌, ◌<◌, ℕ, Bool, true, false, IfOk, OnOk, length, slice_index_or};
ghost use Rattle.std.specs.List.{list_all};
ghost use Rattle.vx_serial.specs.Regions as region;
ghost use Rattle.ir_types.specs.Walks.{targets_at};
ghost use Rattle.vx_seeds.specs.Reached.{Marks, Holds, Leads, in_round, is_marked, IsClosed, AreReached};

use ir_types::{Numbers, OutOfMemory};
use std::alloc::{AllocError, Global};

/// Marks a block and notes that it was found, unless it is marked.
fn mark(target: u32, marks: &mut Vec<bool>, found: &mut Vec<u32>) -> Result<(), OutOfMemory>
    ensures holds { OnOk result ((p : ℕ → Bool) → p target ≡ true → Holds p marks.old.items found.old.items → Holds p marks.new.items found.new.items) }
    ensures len { length marks.new.items ≡ length marks.old.items }
{
    let at = target as usize;
    match marks.get(at) {
        Some(false) => {
            marks[at] = true;
            found.push(target)?;
            Ok(())
        }
        _ => Ok(()),
    }
}

/// Marks the targets of a block.
fn spread(targets: &[u32], marks: &mut Vec<bool>, found: &mut Vec<u32>) -> Result<(), OutOfMemory>
    ensures holds { OnOk result ((p : ℕ → Bool) → list_all p targets.now ≡ true → Holds p marks.old.items found.old.items → Holds p marks.new.items found.new.items) }
    ensures len { length marks.new.items ≡ length marks.old.items }
{
    let mut left = targets;
    while let [target, more @ ..] = left {
        mark(*target, marks, found)?;
        left = more;
    }
    Ok(())
}

/// The targets of a block; what is no block has none.
fn targets(graph: &[Numbers], number: usize) -> &[u32]
    ensures { result.now ≡ targets_at graph.now number }
{
    match graph.get(number) {
        Some(list) => list.as_slice(),
        None => &[],
    }
}

/// The blocks that were found one edge further.
fn round(
    alloc: Global,
    graph: &[Numbers],
    blocks: &[u32],
    marks: &mut Vec<bool>,
) -> Result<Vec<u32>, OutOfMemory>
    ensures holds { IfOk result (λ found. (p q : ℕ → Bool) → Leads graph.now p q → list_all p blocks.now ≡ true → Marks q marks.old.items → Holds q marks.new.items found.items) }
    ensures len { length marks.new.items ≡ length marks.old.items }
{
    let mut found = Vec::new(alloc);
    for block in blocks {
        spread(targets(graph, *block as usize), marks, &mut found)?;
    }
    Ok(found)
}

/// So many blocks, none of which is marked.
fn unmarked(alloc: Global, len: usize) -> Result<Vec<bool>, OutOfMemory>
    ensures none { IfOk result (λ marks. (x : ℕ) → slice_index_or marks.items x false ≡ false) }
    ensures len { IfOk result (λ marks. length marks.items ≡ len) }
{
    let mut marks = Vec::with_capacity(alloc, len)?;
    while marks.len() < len {
        marks.push(false)?;
    }
    Ok(marks)
}

/// The marks when the search has gone as many rounds as there are blocks.
fn search(alloc: Global, graph: &[Numbers]) -> Result<Vec<bool>, OutOfMemory>
    ensures is { IfOk result (λ marks. Marks (in_round graph.now (length graph.now)) marks.items) }
    ensures len { IfOk result (λ marks. length marks.items ≡ length graph.now) }
{
    let mut marks = unmarked(alloc, graph.len())?;
    let mut found = Vec::new(alloc);
    mark(0, &mut marks, &mut found)?;
    let mut rounds = 0;
    while rounds < graph.len() {
        found = round(alloc, graph, &found, &mut marks)?;
        rounds += 1;
    }
    Ok(marks)
}

/// Whether a block is marked; what is no block counts as marked.
fn is_marked(marks: &[bool], number: usize) -> bool
    ensures { result ≡ is_marked marks.now number }
{
    match marks.get(number) {
        Some(marked) => *marked,
        None => true,
    }
}

/// Whether all targets are marked.
fn all_marked(marks: &[bool], targets: &[u32]) -> bool
    ensures { result ≡ list_all (is_marked marks.now) targets.now }
{
    let mut left = targets;
    while let [target, more @ ..] = left {
        if !is_marked(marks, *target as usize) {
            return false;
        }
        left = more;
    }
    true
}

/// Whether the entry is marked and edges lead from marked blocks to marked ones.
fn is_closed(graph: &[Numbers], marks: &[bool]) -> bool
    ensures { result ≡ true → IsClosed graph.now marks.now }
{
    if !is_marked(marks, 0) {
        return false;
    }
    let mut number = 0;
    while number < graph.len() {
        if is_marked(marks, number) && !all_marked(marks, targets(graph, number)) {
            return false;
        }
        number += 1;
    }
    true
}

/// For each block whether a walk from the entry reaches it.
pub(crate) fn reached(alloc: Global, graph: &[Numbers]) -> Result<Vec<bool>, OutOfMemory>
    ensures { IfOk result (λ marks. AreReached graph.now marks.items) }
{
    let marks = search(alloc, graph)?;
    if is_closed(graph, &marks) {
        Ok(marks)
    } else {
        Err(AllocError)
    }
}
