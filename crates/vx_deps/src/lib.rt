//! Which instructions of a block end at a region's stores, and which of them depend on which, over a view.
//!
//! The entry points are `reach` and `Graph`. What they give is the definition's value in every formed module that the view then stands
//! for. `reach` asks for instructions one after another, back from a store: for the stores, and for the at most 256 instructions that
//! end at one. A `Graph` grows by one instruction at the front; it asks once for what that does to memory and keeps it, and then tells
//! dependences without a question, in every module for which it is right. `specs/Reach.antt` and `specs/Graphs.antt` say what is asked
//! and what is kept. Want of memory is the only failure; the view may then have more notes, and is otherwise as before.
#![tactic(auto)]

mod extent;
mod graph;
mod laws;
mod lookup;
mod node;
mod ordering;
mod refusal;
mod search;
mod trail;
mod window;

pub use extent::Reach;
pub use graph::Graph;
pub use laws::{
    graphs_have_the_order, graphs_hold_each_once, graphs_tell_dependences, orders_read_near,
    reaches_have_the_stores, reads_are_near,
};
pub use ordering::order;
pub use refusal::{Bundles, OrderRefusal};
pub use search::reach;
