//! The stated pass of the optimizer, as a definition and as code that equals it.
//!
//! `pair` gives the module that the optimizer writes: two neighbouring stores of one straight-line function become one. Want of
//! memory is the only failure. Of the pass that takes its place, here stand the definitions, in `specs/`, and the types that they speak
//! of: the regions of a module, the nodes of a region's tree, and what comes of it.
#![tactic(auto)]

mod cause;
mod laws;
mod node;
mod pairing;
mod seed;
mod verdict;

pub use cause::Cause;
pub use laws::groups_partition;
pub use node::{How, Node, Tree};
pub use pairing::{pair, pair_is_least};
pub use seed::Seed;
pub use verdict::Verdict;

#[cfg(test)]
mod tests;
