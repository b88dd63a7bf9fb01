//! The calls of the tickets: made, drawn from, split, joined and closed.
//!
//! `make` is the entry point, and its want of memory the one failure. A draw is one `fetch_add` of 1 on the word, with no
//! lock, no wait and no memory. Three conditions keep the word from its end: the limit is below 2^63, only the first pass
//! is split, fewer than 2^32 times, and the first pass is joined into no other.
ghost use Rattle.std.specs.Prelude.{◌≡◌, ◌+◌, ◌^◌, ◌<◌, ◌≤◌, ◌↔◌, ℕ, true, false, min, length, IfOk, IfSome, IfNone, IsNone};
ghost use Rattle.rg_ticket.specs.Hands.{times, once_below, IsEachOnce, first_hand, newcomer, drew, shut, after_draw, after_split, joined};
ghost use Rattle.rg_ticket.specs.Passes.{view, limit_of, IsPassOf};

use crate::OutOfMemory;
use crate::pass::Pass;
use crate::rule::{Cut, Draw, Look, Merge};
use crate::tickets::Tickets;
use atomic_table::Table;
use std::alloc::Global;

/// The tickets with the numbers below `limit`, none drawn yet, and the first pass to them.
pub fn make(alloc: Global, limit: u64) -> Result<(Tickets, Pass), OutOfMemory>
    requires limit { limit < 2 ^ 63 }
    ensures limit { IfOk result (λ made. limit_of made.0 ≡ limit) }
    ensures pass { IfOk result (λ made. IsPassOf made.0 made.1 × (view made.1 ≡ first_hand limit)) }
{
    let (table, seat) = Table::of_words(alloc, &[0], &limit)?;
    Ok((Tickets { limit, table }, Pass::of(seat)))
}

impl Tickets {
    /// Draws the next number. `None` comes exactly where the word stood at the limit or above, and the pass may then draw no
    /// more. No other draw through any pass of these tickets gives the same number.
    pub fn draw(&self, pass: &mut Pass) -> Option<u64>
        requires own { IsPassOf self.now pass.old }
        requires not_ended { (view pass.old).ended ≡ false }
        ensures own { IsPassOf self.now pass.new }
        ensures number { IfSome result (λ k. (k < limit_of self.now) × (view pass.new ≡ drew k (view pass.old))) }
        // no earlier draw through the passes that it stands for gave it
        ensures new { IfSome result (λ k. times k (view pass.old).numbers ≡ 0) }
        ensures none { IfNone result (view pass.new ≡ shut (view pass.old)) }
        // the word that was found tells both the answer and the hand
        ensures word { (found : ℕ) × (IsNone result ↔ (limit_of self.now ≤ found)) × (view pass.new ≡ after_draw found (view pass.old)) }
        // once a pass was answered None, all draws through passes that it was joined into are too
        ensures none_again { 0 < (view pass.old).ended_passes → IsNone result }
        ensures each_once { IsEachOnce (limit_of self.now) (view pass.new).numbers }
    {
        let found = self.table.shared.fetch_add::<Draw>(&mut pass.seat, 0, 1);
        if found < self.limit {
            Some(found)
        } else {
            None
        }
    }

    /// A further pass, which has drawn nothing yet. Only the pass that `make` gave is split.
    pub fn split(&self, pass: &mut Pass) -> Pass
        requires own { IsPassOf self.now pass.old }
        requires first { (view pass.old).is_first ≡ true }
        requires few { (view pass.old).splits < 2 ^ 32 }
        ensures old { IsPassOf self.now pass.new × (view pass.new ≡ after_split (view pass.old)) }
        ensures new { IsPassOf self.now result × (view result ≡ newcomer (limit_of self.now)) }
    {
        Pass::of(self.table.shared.split_seat::<Cut>(&mut pass.seat))
    }

    /// Puts `other`, which is not the pass that `make` gave, into `pass`, which stands for both from then on.
    pub fn join(&self, pass: &mut Pass, other: Pass)
        requires own { IsPassOf self.now pass.old × IsPassOf self.now other }
        requires not_first { (view other).is_first ≡ false }
        ensures both { IsPassOf self.now pass.new × (view pass.new ≡ joined (view pass.old) (view other)) }
        // no number was drawn through both
        ensures each_once { IsEachOnce (limit_of self.now) (view pass.new).numbers }
    {
        let Pass { seat } = other;
        self.table.shared.join_seat::<Merge>(&mut pass.seat, seat);
        self.table.shared.load::<Look>(&mut pass.seat, 0);
    }

    /// Ends the tickets, with the first pass, into which every other pass was joined. Gives the word's last value, the number
    /// of draws.
    pub fn close(self, pass: Pass) -> u64
        requires own { IsPassOf self pass }
        requires first { (view pass).is_first ≡ true }
        requires all_joined { (view pass).stands_for ≡ 1 + (view pass).splits }
        // each number below the lesser of the limit and the word, once
        ensures each_once { (x : ℕ) → times x (view pass).numbers ≡ once_below x (min (limit_of self) result) }
        ensures draws { result ≡ length (view pass).numbers + (view pass).ended_passes }
        ensures none_left { 0 < (view pass).ended_passes → limit_of self ≤ result }
    {
        let Tickets { limit: _, table } = self;
        let Pass { seat } = pass;
        let closed = table.close_with(seat);
        let word = closed.word(0);
        closed.free();
        word
    }
}
