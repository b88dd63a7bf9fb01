//! Numbers drawn by one thread through two passes, and by four threads.
ghost use Rattle.std.specs.Prelude.{◌≡◌, ◌+◌, ◌^◌, ◌<◌, true, false, All, IfOk, vec_len};
ghost use Rattle.rg_ticket.specs.Passes.{view, IsPassOf};

use crate::{Pass, Tickets, make};
use std::alloc::{AllocError, Global};
use std::test::Fail;
use std::thread;

// A pass that was split off, and what was drawn through it.
#[derive(Drop)]
struct Drawer {
    pass: Pass,
    drawn: Vec<u64>,
    failed: bool,
}

impl Drawer {
    // Draws until none is left.
    fn run(&mut self, tickets: &Tickets)
        requires own { IsPassOf tickets.now self.old.pass }
        requires not_ended { (view self.old.pass).ended ≡ false }
        ensures own { IsPassOf tickets.now self.new.pass }
        ensures role { ((view self.new.pass).is_first ≡ (view self.old.pass).is_first) × ((view self.new.pass).stands_for ≡ (view self.old.pass).stands_for) × ((view self.new.pass).splits ≡ (view self.old.pass).splits) }
    {
        'drawing: while let Some(number) = tickets.draw(&mut self.pass) {
            if self.drawn.push(number).is_err() {
                self.failed = true;
                return;
            }
        }
    }
}

fn hire(
    alloc: Global,
    tickets: &Tickets,
    first: &mut Pass,
    count: usize,
) -> Result<Vec<Drawer>, AllocError>
    requires own { IsPassOf tickets.now first.old × ((view first.old).is_first ≡ true) }
    requires fresh { ((view first.old).stands_for ≡ 1) × ((view first.old).splits ≡ 0) × (count < 2 ^ 32) }
    ensures first { IfOk result (λ drawers. IsPassOf tickets.now first.new × ((view first.new).is_first ≡ true) × ((view first.new).stands_for ≡ 1) × ((view first.new).splits ≡ vec_len drawers)) }
    ensures ready { IfOk result (λ drawers. All (λ d. IsPassOf tickets.now d.pass × ((view d.pass).ended ≡ false) × ((view d.pass).is_first ≡ false) × ((view d.pass).stands_for ≡ 1)) drawers.items) }
{
    let mut drawers = Vec::new(alloc);
    'hiring: for _ in 0..count {
        let pass = tickets.split(first);
        drawers.push(Drawer {
            pass,
            drawn: Vec::new(alloc),
            failed: false,
        })?;
    }
    Ok(drawers)
}

// Joins all passes into the first.
fn gather(tickets: &Tickets, first: &mut Pass, mut drawers: Vec<Drawer>)
    requires own { IsPassOf tickets.now first.old }
    requires all { All (λ d. IsPassOf tickets.now d.pass × ((view d.pass).is_first ≡ false) × ((view d.pass).stands_for ≡ 1)) drawers.items }
    ensures own { IsPassOf tickets.now first.new }
    ensures role { ((view first.new).is_first ≡ (view first.old).is_first) × ((view first.new).splits ≡ (view first.old).splits) }
    ensures stands_for { (view first.new).stands_for ≡ (view first.old).stands_for + vec_len drawers }
{
    'joining: while let Some(Drawer { pass, .. }) = drawers.pop() {
        tickets.join(first, pass);
    }
}

#[test]
fn two_passes_draw_by_turns(rt: HostRuntime) -> Result<(), Fail> {
    let (tickets, mut first) = make(rt.alloc(), 3)?;
    let mut second = tickets.split(&mut first);
    let Some(zero) = tickets.draw(&mut first) else {
        panic!(rt; "0 was left")
    };
    let Some(one) = tickets.draw(&mut second) else {
        panic!(rt; "1 was left")
    };
    let Some(two) = tickets.draw(&mut second) else {
        panic!(rt; "2 was left")
    };
    assert_eq!(rt; [zero, one, two], [0, 1, 2]);
    assert_eq!(rt; tickets.draw(&mut first), None);
    assert_eq!(rt; tickets.draw(&mut second), None);
    tickets.join(&mut first, second);
    assert_eq!(rt; tickets.close(first), 5, "three numbers and two refusals");
    Ok(())
}

#[test]
fn undrawn_tickets_close_at_zero(rt: HostRuntime) -> Result<(), Fail> {
    for limit in [0, 1, 9_223_372_036_854_775_807] {
        let (tickets, first) = make(rt.alloc(), limit)?;
        assert_eq!(rt; tickets.close(first), 0, "at {limit}");
    }
    Ok(())
}

fn shareable<T: Send + Sync>(_value: &T) {}

fn sendable<T: Send>(_value: &T) {}

#[test]
fn tickets_are_shared_and_passes_sent(rt: HostRuntime) -> Result<(), Fail> {
    let (tickets, first) = make(rt.alloc(), 1)?;
    shareable(&tickets);
    sendable(&first);
    assert_eq!(rt; tickets.close(first), 0);
    Ok(())
}

#[test]
fn four_threads_draw_each_number_once(rt: HostRuntime) -> Result<(), Fail> {
    let (tickets, mut first) = make(rt.alloc(), 10_000)?;
    let mut drawers = hire(rt.alloc(), &tickets, &mut first, 4)?;
    let shared = &tickets;
    thread::for_each_mut(
        &rt,
        drawers.as_mut_slice(),
        4,
        &|_, drawer| drawer.run(shared),
    );
    let mut seen = [0u8; 10_000];
    for drawer in &drawers {
        assert!(rt; !drawer.failed);
        for number in &drawer.drawn {
            let Some(count) = seen.get_mut(*number as usize) else {
                panic!(rt; "{number} is not below the limit")
            };
            *count = count.saturating_add(1);
        }
    }
    assert!(rt; seen.iter().all(|count| *count == 1));
    gather(&tickets, &mut first, drawers);
    assert_eq!(rt;
        tickets.close(first),
        10_004,
        "each number, and a refusal for each pass"
    );
    Ok(())
}
