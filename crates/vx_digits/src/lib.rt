//! Numbers as digits: decimals by their value, and numbers of so many bits as they are written.
//!
//! `number` reads digits; `fitting` and `negative` say which number of a width one is, with a minus or without. `push_decimal` and
//! `push_lane` put a number after what is written already; want of memory is their only failure, and may leave a part of the text.
#![tactic(auto)]

mod reading;
mod writing;

pub use reading::{fitting, negative, number};
pub use writing::{push_decimal, push_lane};
