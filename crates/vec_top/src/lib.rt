//! The program as a function of its words and streams.
//!
//! `sandvec_alone` is the one entry point: it reads the words, then the input, then writes, and answers the exit status. What it
//! promises at each status stands in its clauses, whose words are in `specs/Replies`, `specs/Accepts` and `specs/Results`.
#![tactic(auto)]

mod accept;
mod cause;
mod complete;
mod counts;
mod fault;
mod results;
mod top;

pub use complete::accepted_is_done;
pub use top::sandvec_alone;

#[cfg(test)]
mod tests;
