//! Use lists: for each value the operand slots that hold it, newest first.
//!
//! `UseLists` is the entry point: `add` puts a use at the head of a list, `take` takes one out of its middle, `put_back` brings it back
//! to its old place, and `list` gives all. Only want of memory is a failure, and within the room that `reserve` made there is none.
//!
//! `Slots` has the use lists of all operand slots of a module's instructions: it makes what each kind of change makes of them, and brings them
//! back. `laws` has what that means for a module: lists that are exact stay exact.
//!
//! A use is one slot that names its neighbours; both a list's head and a slot are found by their hash, so nothing walks a list but `list`.
//! What is taken out keeps its slot, so `put_back` takes no memory. Contracts see a function from ids to lists (`specs/Chains`).
#![tactic(auto)]

mod chains;
mod entering;
mod kept;
mod laws;
mod lifting;
mod listing;
mod slots;
#[cfg(test)]
mod tests;
mod use_lists;

pub use laws::{
    ids_stay_apart, lists_stay_exact, operands_are_listed, others_are_not_listed,
    slots_are_counted, stocks_are_undone, stocks_have_the_lists,
};
pub use slots::Slots;
pub use use_lists::{Spot, UseLists};
