//! How a bundle of lanes is had: the first rule that holds of it, up to the order of bundles.
//!
//! `Legality` is what the rules tell, and `specs/Legality.antt` defines it; `legality_tells_how` is the law that a cycle is all that
//! `legal` adds. `inst_of` asks a view what a lane is in a block, and `ty_of` for the type of an operand; the other functions are rules for
//! what was answered and for the nodes that stand already. Want of memory is the only failure.
#![tactic(auto)]

mod bundle;
mod found;
mod inst;
mod laws;
mod legality;
mod lookup;

pub use bundle::{are_literals, is_taken, reused, same_lanes};
pub use found::{all_may_widen, are_repeated, are_there};
pub use inst::{is_kind, may_widen, same_operation};
pub use laws::{found_lanes_are_there, legality_tells_how};
pub use legality::Legality;
pub use lookup::{Found, found_of, inst_of, ty_of};
