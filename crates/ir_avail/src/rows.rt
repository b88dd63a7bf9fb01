//! Bit rows over the blocks: for up to 64 values at once, whether a walk may come to a block without passing their homes.
//!
//! `Band::new` is the entry point; it fails for want of memory alone. A bit is set where a walk from the entry may come to the
//! block without the value. Bits are carried along the edges until no row gains one. What a clear bit says rests on a last
//! pass over all edges; should that pass fail, every bit is set, and each use is then looked at by itself.

ghost use Rattle.std.specs.Prelude.{◌≡◌, ℕ, ◌-◌, ◌<◌, ◌^◌, ◌⊎◌, true, length, IfOk, slice_index, slice_get};
ghost use Rattle.std.specs.Int.{bit_at};
ghost use Rattle.ir_avail.specs.Rows.{IsBand, AreHomes, IsClosed};

use crate::distances::targets;
use crate::graph::Graph;
use std::alloc::{AllocError, Global};

/// The rows of up to 64 values.
#[derive(Drop)]
pub(crate) struct Band {
    /// For each column the block in which its value is defined.
    pub(crate) homes: Vec<usize>,
    /// For each block its bits, by column.
    pub(crate) rows: Vec<u64>,
}

impl Band {
    /// The rows of values that are defined in these blocks.
    pub(crate) fn new(alloc: Global, graph: &Graph, homes: &[usize]) -> Result<Band, AllocError>
        ensures { IfOk result (λ band. IsBand graph.now band.homes.items band.rows.items) }
    {
        let words = home_words(alloc, graph.len(), homes)?;
        let rows = spread_rows(alloc, graph, &words)?;
        let homes = Vec::from_slice(alloc, homes)?;
        if is_closed(graph, &words, &rows) {
            Ok(Band { homes, rows })
        } else {
            let rows = full(alloc, graph.len(), u64::MAX)?;
            Ok(Band { homes, rows })
        }
    }

    /// Whether the bit of a column is clear in the row of a block.
    pub(crate) fn is_clear(&self, column: usize, block: usize) -> bool
        ensures { result ≡ true → (row : ℕ) × (slice_get self.now.rows.items block ≡ Some row)
            × (column < 64) × (bit_at row column ≡ 0) }
    {
        match self.rows.get(block) {
            Some(row) => lacks_bit(*row, column),
            None => false,
        }
    }
}

/// Whether the column is one of 64 and its bit is clear.
fn lacks_bit(row: u64, column: usize) -> bool
    ensures { result ≡ true → (column < 64) × (bit_at row column ≡ 0) }
{
    if column < 64 {
        (row >> column) & 1 == 0
    } else {
        false
    }
}

/// So many words of one value.
fn full(alloc: Global, len: usize, word: u64) -> Result<Vec<u64>, AllocError>
    ensures { IfOk result (λ words. (k row : ℕ) → slice_get words.items k ≡ Some row → row ≡ word) }
{
    let mut words = Vec::with_capacity(alloc, len)?;
    'each: for _ in 0..len {
        words.push(word)?;
    }
    Ok(words)
}

/// For each block the columns whose home it is.
fn home_words(alloc: Global, len: usize, homes: &[usize]) -> Result<Vec<u64>, AllocError>
    ensures { IfOk result (λ words. AreHomes homes.now words.items) }
{
    let mut words = full(alloc, len, 0)?;
    for column in 0..homes.len().min(64) {
        add_home(&mut words, homes[column], column);
    }
    Ok(words)
}

/// Sets the bit of a column in the word of its home.
fn add_home(words: &mut Vec<u64>, home: usize, column: usize)
    requires { column < 64 }
    ensures { (a other : ℕ) → bit_at (slice_index words.new.items a) other ≡ 1
        → ((a ≡ home) × (other ≡ column)) ⊎ (bit_at (slice_index words.old.items a) other ≡ 1) }
{
    if home < words.len() {
        words[home] = with_bit(words[home], column);
    }
}

/// The word with one bit set.
fn with_bit(word: u64, column: usize) -> u64
    requires { column < 64 }
    ensures { (other : ℕ) → bit_at result other ≡ 1 → (other ≡ column) ⊎ (bit_at word other ≡ 1) }
{
    word | 1u64 << column
}

/// All bits of the entry's row, carried along the edges until no row gains one. A row gains each bit at most once.
fn spread_rows(alloc: Global, graph: &Graph, words: &[u64]) -> Result<Vec<u64>, AllocError> {
    let mut rows = full(alloc, graph.len(), 0)?;
    let mut changed = Vec::new(alloc);
    if let Some(entry) = rows.get_mut(0) {
        *entry = u64::MAX;
    }
    changed.push(0)?;
    let most = graph.len().saturating_mul(64).saturating_add(1);
    for _ in 0..most {
        match changed.pop() {
            Some(number) => spread(graph, words, &mut rows, &mut changed, number)?,
            None => break,
        }
    }
    Ok(rows)
}

/// Carries a block's row along its edges, and notes the blocks whose rows gain bits.
fn spread(
    graph: &Graph,
    words: &[u64],
    rows: &mut Vec<u64>,
    changed: &mut Vec<usize>,
    number: usize,
) -> Result<(), AllocError> {
    let leaves = row_at(rows, number) & !row_at(words, number);
    for target in targets(graph, number) {
        let target = *target as usize;
        let row = row_at(rows, target);
        if leaves & !row != 0 && target < rows.len() {
            rows[target] = row | leaves;
            changed.push(target)?;
        }
    }
    Ok(())
}

/// The word of a block, 0 where there is none.
fn row_at(rows: &[u64], number: usize) -> u64
    ensures { result ≡ slice_index rows.now number }
{
    match rows.get(number) {
        Some(row) => *row,
        None => 0,
    }
}

/// Whether the entry's row is full and no edge would change a row.
fn is_closed(graph: &Graph, words: &[u64], rows: &[u64]) -> bool
    ensures closed { result ≡ true → IsClosed graph.now words.now rows.now }
    ensures entry { result ≡ true → slice_index rows.now 0 ≡ 2 ^ 64 - 1 }
{
    if row_at(rows, 0) != u64::MAX {
        return false;
    }
    for number in 0..graph.len() {
        let row = row_at(rows, number);
        let word = row_at(words, number);
        if !goes_into(row, word, targets(graph, number), rows) {
            return false;
        }
    }
    true
}

/// Whether each target's row has the bits that the row has and the word lacks.
fn goes_into(row: u64, word: u64, targets: &[u32], rows: &[u64]) -> bool
    ensures { result ≡ true → (k column : ℕ) → k < length targets.now → bit_at row column ≡ 1 → bit_at word column ≡ 0
        → bit_at (slice_index rows.now (slice_index targets.now k)) column ≡ 1 }
{
    for target in targets {
        let own = row_at(rows, *target as usize);
        if row | (word | own) != word | own {
            return false;
        }
    }
    true
}
