//! The form of one line of the module text: its tokens read as a label, an instruction, a header or a kept line.
//!
//! The entry points are `body_line`, for a line inside a function, and `module_line`, for a line outside. Each answers with the
//! one form that the line spells, or refuses where it spells none, or for want of memory. Names are as they are written.
//!
//! Inside, the rest of a line is its bytes and the tokens that are left; nothing is copied but what a form keeps. The time is
//! linear in the line. The types of the answers are `ir_draft`'s, and are given on from here.
#![tactic(auto)]

mod body;
mod calls;
mod headers;
mod keeping;
mod laws;
mod outside;

pub use body::body_line;
pub use ir_draft::{
    Arg, Args, Body, Draft, DraftItem, DraftItems, Head, Kept, Line, LineRefusal, Numbered, Stmt,
    Written,
};
pub use laws::{lines_are_sound, one_body_form, one_outside_form};
pub use outside::module_line;

#[cfg(test)]
mod tests;
