//! Tickets: the numbers below a limit, each of which goes to one thread at most, with no lock and no wait.
//!
//! `make` is the entry point. It gives the `Tickets`, which threads share, and the first `Pass`. `split` cuts a pass
//! for each further thread, `draw` takes the next number through a pass or answers `None` once there is none left, `join`
//! puts a pass back into another, and `close` ends it all and gives the last value of the word that counts the draws.
//! Only want of memory in `make` is a failure.
//!
//! The state is one atomic word. What a pass has drawn and what it stands for is plain data that exists in contracts
//! alone (`Hand`); `specs/Rule.antt` says what the word and all hands have in common at each moment.
#![tactic(auto)]

mod calls;
mod hand;
mod pass;
mod rule;
#[cfg(test)]
mod tests;
mod tickets;

pub use calls::make;
pub use hand::Hand;
pub use pass::Pass;
pub use tickets::Tickets;

/// That memory could not be had, which no contract promises.
pub type OutOfMemory = std::alloc::AllocError;
