//! Lists that contracts see as lists, and the two things that each type of the project can do: be copied and be compared.
//!
//! `Seq` keeps its items in one allocation; `Short` keeps a few inline, for operands and lanes. The value of both, in every
//! contract, is the plain list of their items. `Text` is a list of bytes that keeps short
//! ones in place. `Roomy` is the list whose contracts speak of its room too, and `Boxed` a value
//! after a pointer. `TryClone` says that a copy is the same value, `Equal` that the answer is equality.
#![tactic(auto)]

mod boxed;
mod copying;
mod equality;
mod roomy;
mod seq;
mod short;
#[cfg(test)]
mod tests;
mod text;

pub use boxed::Boxed;
pub use copying::TryClone;
pub use equality::Equal;
pub use roomy::Roomy;
pub use seq::Seq;
pub use short::Short;
pub use text::Text;

/// That memory could not be had, which no contract promises.
pub type OutOfMemory = std::alloc::AllocError;
