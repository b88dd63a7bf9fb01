//! Laws: the changes of a region lead from a module to the one in which the region is rewritten.
//!
//! There is no code that runs. Each law is the contract of a public function with an empty body, over the definitions of `vx_view` and
//! `vx_serial`; a caller that calls it has the law. Nothing here fails.
#![tactic(auto)]

mod laws;

pub use laws::{changes_lead, gone_are, removed_in_turn};
