//! The regions of a module: lists of neighbouring stores that may become one vector store.
//!
//! `regions` is the one entry point. Want of memory is the only failure.
#![tactic(auto)]

mod block;
mod chain;
mod graph;
mod group;
mod index;
mod known;
mod module;
mod order;
mod piece;
mod reached;
mod spot;

pub use module::{Seeds, regions};
