//! The text of a module of LLVM IR.
//!
//! `print` gives it, whatever the module; want of memory is its only failure. `text_of`, in `specs/Text`, says what it is.
//! `shown_name` gives what it shows of one value.
#![tactic(auto)]

mod flow_ops;
mod form;
mod func;
mod index;
mod inst;
mod memory_ops;
mod module;
mod names;
mod number;
mod operand;
mod scope;
mod shown;
mod value_ops;

pub use module::print;
pub use shown::shown_name;

#[cfg(test)]
mod tests;
