//! The words of the program: the command that they ask for, the start of a run, and the text of how it ended.
//!
//! `command` reads the program's words, `start` the words of `run` against a module, and `outcome_text` writes an outcome. Each
//! refusal names a word by its place from 0, or is want of memory. Words are read from the front, piece by piece; nothing is
//! copied but names and bytes that are kept. Reading is linear in the words, but that each global word looks its name up among
//! the globals in order.
#![tactic(auto)]

mod arguments;
mod call;
mod commands;
mod global;
mod hex;
mod laws;
mod literal;
mod numbers;
mod outcome;
mod pieces;
mod refusal;
mod run_words;
mod starts;
mod words;

pub use commands::Command;
pub use laws::{place_rule, starts_fit};
pub use outcome::outcome_text;
pub use refusal::WordsRefusal;
pub use run_words::start;
pub use starts::Start;
pub use words::command;

#[cfg(test)]
mod tests;
