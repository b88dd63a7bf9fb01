//! What instructions cost: settings on a table of costs, and the price of a list of instructions.
//!
//! A table has one cost for each of twenty keys; a key is of one form of instruction, on scalars or on vectors. `with_settings`
//! puts the costs that words like `int=5` give into a table; the refusal names the first word that is no setting or sets a key
//! once more. `price` sums the costs of instructions, up to 2^64 - 1.
//!
//! Nothing here takes memory.
#![tactic(auto)]

mod key;
mod prices;
mod refusal;
mod settings;

pub use prices::price;
pub use refusal::SettingRefusal;
pub use settings::with_settings;

#[cfg(test)]
mod tests;
