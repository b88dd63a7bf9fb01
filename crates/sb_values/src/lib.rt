//! `Sandbox`: a module that can be changed, and changed back.
//!
//! It is lifted from a module and lowered to one. In between it has the instructions by their ids, linked in their blocks, and the use
//! lists of all values; every change is made in both. `edit` makes one change, if it fits, and gives an `Undo`; `undo` brings module, order
//! and use lists back as they were, without memory. What is asked is answered in constant time. Want of memory is the one failure but
//! for a change that does not fit, and either changes nothing.
//!
//! `Parts` makes changes in both parts; `fitting` tests them, and `answering` has what is asked. Definitions stand in `specs/`: `Sandboxes` has what contracts see, `Undoing` what
//! takes a change back.
#![tactic(auto)]

mod answering;
mod fitting;
mod found;
mod parts;
mod sandbox;
mod undo;

pub use found::Found;
pub use sandbox::Sandbox;
pub use undo::Undo;
