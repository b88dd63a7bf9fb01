//! The forms of the lines of a function that are trees of parts: instructions, labels, cases; all but calls.
//!
//! The entry point is `act_lines::form`. It gives the line that the words spell, or stops: they spell none, or there was no memory.
//! `operands` has the readers of parts that calls and headers share.
#![tactic(auto)]

pub mod act_lines;
pub mod operands;
mod pairs;
mod value_lines;

pub use pairs::Incoming;
