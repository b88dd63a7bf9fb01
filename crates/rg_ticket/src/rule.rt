//! The rule that the word of the tickets and the hands of all passes keep, and what a draw, a look, a split and a join do to hands.
//!
//! `EachOnce` is the rule. The others name what each kind of step does to the hands.
use crate::hand::Hand;
use atomic_table::{Join, Play, Split, TableRule};

/// Each number below the limit is drawn once at most.
pub struct EachOnce;

impl TableRule<(), Hand, u64> for EachOnce {
    ghost use Rattle.rg_ticket.specs.Hands.{first_hand};
    ghost use Rattle.rg_ticket.specs.Rule.{Holds};

    ghost holds = { Holds };

    ghost first = { first_hand };
}

/// One `fetch_add` of 1.
pub struct Draw;

impl Play<(), Hand> for Draw {
    ghost use Rattle.rg_ticket.specs.Rule.{Draws};

    ghost then = { λ _. Draws };
}

/// The word is read, and nothing changes.
pub struct Look;

impl Play<(), Hand> for Look {
    ghost use Rattle.rg_ticket.specs.Rule.{Looks};

    ghost then = { λ _. Looks };
}

/// A pass is cut in two.
pub struct Cut;

impl Split<Hand> for Cut {
    ghost use Rattle.rg_ticket.specs.Hands.{after_split, newcomer};

    ghost left = { after_split };

    ghost right = { λ v. newcomer v.limit };
}

/// A pass takes in another.
pub struct Merge;

impl Join<Hand> for Merge {
    ghost use Rattle.rg_ticket.specs.Hands.{joined, spent};

    ghost both = { joined };

    ghost spent = { spent };
}
