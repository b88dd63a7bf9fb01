//! The instructions of a module linked in their blocks: found by id in constant time, and changed and changed back in constant time.
//!
//! `Lines` is the entry point. It is lifted from a module and can be lowered to one; in between it holds that module (`seen`), and every
//! change makes of it what the definition says, so that what is asked of it is what the module answers. Want of memory is the only
//! failure. Definitions stand in `specs/`: `Arena` has what `Lines` holds, `Filling` modules by their blocks, `Spots` where an instruction
//! comes and where it stood, `Params` parameters by their functions. Blocks are rings of nodes; `Whole` says what holds of them.
#![tactic(auto)]

mod arena;
mod changing;
mod copying;
mod laws;
mod lifting;
mod lines;
mod lowering;
mod nodes;
mod params;
mod spot;
#[cfg(test)]
mod tests;
mod types;

pub use laws::moves_before_another;
pub use lines::Lines;
pub use params::ParamSpot;
pub use spot::{Before, Found, Spot};
