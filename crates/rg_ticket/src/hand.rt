//! What a pass knows and stands for, as contracts see it.
//!
//! No value of a `Hand` is made at run time: it is the view that a pass carries in proofs. `specs/Hands.antt` says how each
//! call changes it.
use std::collections::LinkedList;

/// The hand of one pass: a pass starts with its own alone, and joining adds up two hands.
pub struct Hand {
    /// The limit of the tickets that it draws from.
    pub limit: u64,
    /// The numbers that were drawn through the passes that it stands for.
    pub numbers: LinkedList<u64>,
    /// Whether a draw through this very pass was answered `None`.
    pub ended: bool,
    /// How many of the passes that it stands for were answered `None`.
    pub ended_passes: u64,
    /// How many passes it stands for: itself, and all that stand for those that were joined into it.
    pub stands_for: u64,
    /// Whether it is the pass that `make` gave.
    pub is_first: bool,
    /// How often it was split.
    pub splits: u64,
}
