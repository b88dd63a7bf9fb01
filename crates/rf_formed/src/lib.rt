//! Laws: a text that is read, whose names resolve and whose lines are well typed, is a formed module as soon as its uses are available;
//! what `opt` makes of a module can be printed and read again.
//!
//! There is no code that runs. Each law is the contract of a public function with an empty body, over the definitions of the reader,
//! the type check and the pass; a caller that calls it has the law. Nothing here fails.
#![tactic(auto)]

mod accepted;
mod packed;

pub use accepted::{accepted_is_formed, accepted_is_formed_but_for_walks, accepted_is_numbered};
pub use packed::paired_texts_are_read_again;
