//! Questions of the vectorizer about a module, asked by words and answered as text: an instrument for tests and for measuring.
//!
//! `inspect_alone` is the one entry point. It reads questions from the words and a module from the input, asks what the pass will ask
//! (`form`, `conflict`, `reach`, `order`) over a view of the module, and writes the answers, one question after another. Nothing is
//! proved of the text; what the calls owe their callees is asked of the words first, and a question that does not hold is refused
//! with its cause. The exit status means what that of the program `sandvec` means.
#![tactic(auto)]

mod accept;
mod answer;
mod ask;
mod bundles;
mod listing;
mod question;
mod refusal;
mod request;
mod told;
mod top;

pub use top::inspect_alone;
