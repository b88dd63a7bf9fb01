//! The words of a line, and the parts that stand on words alone: types, literals, flags, keywords, the string of a layout.
//!
//! What is left of a line is a `Cursor`; nothing is copied but names and lanes. Each reader gives what it
//! read from the front and what is left, or stops (`ir_draft::Stop`): the front is no such part, or there was no memory.
#![tactic(auto)]

pub mod cursor;
pub mod flags;
pub mod kinds;
pub mod layout;
pub mod literals;
pub mod opcode;
pub mod types;
pub mod values;
