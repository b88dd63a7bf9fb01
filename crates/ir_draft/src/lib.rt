//! The draft of a module: the forms of its lines with their numbers, before any name is looked up.
//!
//! This is data only: `Line` is the form of one line, `Draft` what a whole text is read to. Copies are the value and equality is
//! equality. `LineRefusal` and `Stop` are how the readers of lines refuse; nothing here fails but for want of memory.
#![tactic(auto)]

mod args;
mod draft;
mod head;
mod kept;
mod line;
mod refusal;
mod stmt;
mod written;

pub use args::Args;
pub use draft::{Body, Draft, DraftItem, DraftItems, Numbered};
pub use head::Head;
pub use kept::Kept;
pub use line::Line;
pub use refusal::{LineRefusal, Stop};
pub use stmt::Stmt;
pub use written::{Arg, Written};
