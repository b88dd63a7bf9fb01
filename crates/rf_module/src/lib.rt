//! Laws: the nodes of a region's tree lead to one another, and a rewritten module is formed (as far as it is proved).
//!
//! There is no code that runs. Each law is the contract of a public function with an empty body, over the definitions of `vx_view` and
//! `vx_serial`; a caller that calls it has the law. Nothing here fails. `proofs/` has, for the law that a rewritten module is formed, which is
//! not stated yet: that a formed module stays formed with another row in a block whose lines are fine (`Exchanged`), the vector forms
//! of operations (`Forms`), that groups come in turn (`Turns`), and that gathers and slots are fine where they stand (`Steps`, `Slots`,
//! `Bundles`, `Extracts`).
#![tactic(auto)]

mod laws;

pub use laws::trees_are_complete;
