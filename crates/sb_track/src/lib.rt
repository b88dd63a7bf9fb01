//! `Tracked`: a sandbox that can be asked, changed, and brought back to where it was saved.
//!
//! It is a `View` and a `Sand`. Since a save it keeps what takes each change back, so that `revert` brings module, order and use lists back
//! without memory, and `accept` lets go of it. Where notes are open it notes each question once, with its answer. Want of memory is the
//! one failure but for a change that does not fit, and either changes nothing.
//!
//! `Track` is what it holds; `notes` has the questions that were asked, `asking` their answers. `specs/Tracking` says what it is as a view.
#![tactic(auto)]

mod asking;
mod notes;
#[cfg(test)]
mod tests;
mod track;
mod tracked;

pub use tracked::Tracked;
