//! Laws: instructions of a block in another order refine what they were.
//!
//! There is no code that runs. Each law is the contract of a public function with an empty body, over the definitions of
//! `ir_model`, `vx_view` and `vx_serial`; a caller that calls it has the law. Nothing here fails.
#![tactic(auto)]

mod laws;

pub use laws::{
    accesses_keep_apart, blocks_refine, effects_swap, exits_are_entered, exits_lead_on,
    functions_refine, modules_refine, neighbours_swap, orders_reorder, outcomes_refine,
    phis_are_entered, rows_refine, starts_are_entered, steps_keep_ready, steps_swap,
    whole_blocks_refine, windows_refine,
};
