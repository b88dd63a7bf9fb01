//! The tickets that threads share: one atomic word, which counts the draws, and the limit.
//!
//! The calls stand in `calls.rt`.
ghost use Rattle.std.specs.Prelude.{◌≡◌};

use crate::hand::Hand;
use crate::rule::EachOnce;
use atomic_table::Table;
use std::alloc::Global;

/// The numbers below a limit, to be drawn each once at most. Threads share it by `&`.
#[derive(Drop)]
pub struct Tickets {
    pub(crate) limit: u64,
    pub(crate) table: Table<(), Hand, u64, EachOnce, Global>,
    ghost limit_is_key: { limit ≡ table.shared.key },
    ghost one_word: { table.shared.table_id.words ≡ 1 },
    ghost no_slot: { table.shared.table_id.slots ≡ 0 },
}
