//! The nodes of all blocks, each with its neighbours.
//!
//! A block is a ring: its mark, and a node for each of its instructions in order. The node before the mark is the last, the one after it the
//! first, so no node lacks a neighbour. What is taken out of a ring keeps its node, which holds nothing then. Want of memory is the only failure, of `push_mark`.

ghost use Rattle.std.specs.Prelude.{◌≡◌, ℕ, ◌+◌, ◌<◌, ◌≤◌, cond, ◌==◌, length, vec_capacity, OnOk};
ghost use Rattle.sb_lines.specs.declared.nodes.Held.TheVariants.{Block, Gone};
ghost use Rattle.sb_lines.specs.Nodes.{held, next, prev, IsLinked, IsUnlinked};

use ir_types::{Inst, OutOfMemory, Place};

/// What a node holds.
#[derive(Debug, Drop)]
pub(crate) enum Held {
    /// It is the mark of a block.
    Block(Place),
    /// An instruction of a block.
    Line { place: Place, inst: Inst },
    /// Nothing: its instruction was taken out.
    Gone,
}

/// A place in a ring.
#[derive(Debug, Drop)]
pub(crate) struct Node {
    pub(crate) held: Held,
    pub(crate) prev: usize,
    pub(crate) next: usize,
}

/// Writes the node after one.
fn set_next(nodes: &mut Vec<Node>, at: usize, to: usize)
    requires { at < length nodes.old.items }
    ensures next { (x : ℕ) → next nodes.new.items x ≡ cond (at == x) to (next nodes.old.items x) }
    ensures prev { (x : ℕ) → prev nodes.new.items x ≡ prev nodes.old.items x }
    ensures held { (x : ℕ) → held nodes.new.items x ≡ held nodes.old.items x }
    ensures length { length nodes.new.items ≡ length nodes.old.items }
    ensures capacity { vec_capacity nodes.new ≡ vec_capacity nodes.old }
{
    nodes[at].next = to;
}

/// Writes the node before one.
fn set_prev(nodes: &mut Vec<Node>, at: usize, to: usize)
    requires { at < length nodes.old.items }
    ensures next { (x : ℕ) → next nodes.new.items x ≡ next nodes.old.items x }
    ensures prev { (x : ℕ) → prev nodes.new.items x ≡ cond (at == x) to (prev nodes.old.items x) }
    ensures held { (x : ℕ) → held nodes.new.items x ≡ held nodes.old.items x }
    ensures length { length nodes.new.items ≡ length nodes.old.items }
    ensures capacity { vec_capacity nodes.new ≡ vec_capacity nodes.old }
{
    nodes[at].prev = to;
}

/// Puts something in a node, and gives what it held.
pub(crate) fn hold(nodes: &mut Vec<Node>, at: usize, what: Held) -> Held
    requires { at < length nodes.old.items }
    ensures was { result ≡ held nodes.old.items at }
    ensures next { (x : ℕ) → next nodes.new.items x ≡ next nodes.old.items x }
    ensures prev { (x : ℕ) → prev nodes.new.items x ≡ prev nodes.old.items x }
    ensures held { (x : ℕ) → held nodes.new.items x ≡ cond (at == x) what (held nodes.old.items x) }
    ensures length { length nodes.new.items ≡ length nodes.old.items }
    ensures capacity { vec_capacity nodes.new ≡ vec_capacity nodes.old }
{
    std::mem::replace(&mut nodes[at].held, what)
}

/// One more node, which holds nothing and stands in no ring; there is room.
pub(crate) fn push_gone(nodes: &mut Vec<Node>)
    requires { length nodes.old.items < vec_capacity nodes.old }
    ensures next { (x : ℕ) → next nodes.new.items x ≡ next nodes.old.items x }
    ensures prev { (x : ℕ) → prev nodes.new.items x ≡ prev nodes.old.items x }
    ensures held { (x : ℕ) → held nodes.new.items x ≡ held nodes.old.items x }
    ensures length { length nodes.new.items ≡ length nodes.old.items + 1 }
    ensures capacity { vec_capacity nodes.old ≤ vec_capacity nodes.new }
{
    let node = Node {
        held: Held::Gone,
        prev: 0,
        next: 0,
    };
    if nodes.push(node).is_err() {
        unreachable!();
    }
}

/// One more node, which is the mark of an empty block.
pub(crate) fn push_mark(nodes: &mut Vec<Node>, place: Place) -> Result<(), OutOfMemory>
    ensures next { OnOk result ((x : ℕ) → next nodes.new.items x ≡ cond (length nodes.old.items == x) (length nodes.old.items) (next nodes.old.items x)) }
    ensures prev { OnOk result ((x : ℕ) → prev nodes.new.items x ≡ cond (length nodes.old.items == x) (length nodes.old.items) (prev nodes.old.items x)) }
    ensures held { OnOk result ((x : ℕ) → held nodes.new.items x ≡ cond (length nodes.old.items == x) (Block place) (held nodes.old.items x)) }
    ensures length { OnOk result (length nodes.new.items ≡ length nodes.old.items + 1) }
{
    let at = nodes.len();
    nodes.push(Node {
        held: Held::Block(place),
        prev: at,
        next: at,
    })?;
    Ok(())
}

/// Links a node in before another.
pub(crate) fn link(nodes: &mut Vec<Node>, at: usize, before: usize)
    requires at { at < length nodes.old.items }
    requires before { before < length nodes.old.items }
    requires prev { prev nodes.old.items before < length nodes.old.items }
    ensures linked { IsLinked nodes.old.items nodes.new.items before at }
    ensures length { length nodes.new.items ≡ length nodes.old.items }
    ensures capacity { vec_capacity nodes.new ≡ vec_capacity nodes.old }
{
    let prev = nodes[before].prev;
    set_next(nodes, at, before);
    set_prev(nodes, at, prev);
    set_next(nodes, prev, at);
    set_prev(nodes, before, at);
}

/// Takes a node out: its neighbours name each other.
pub(crate) fn unlink(nodes: &mut Vec<Node>, at: usize)
    requires at { at < length nodes.old.items }
    requires next { next nodes.old.items at < length nodes.old.items }
    requires prev { prev nodes.old.items at < length nodes.old.items }
    ensures unlinked { IsUnlinked nodes.old.items nodes.new.items at }
    ensures length { length nodes.new.items ≡ length nodes.old.items }
    ensures capacity { vec_capacity nodes.new ≡ vec_capacity nodes.old }
{
    let next = nodes[at].next;
    let prev = nodes[at].prev;
    set_next(nodes, prev, next);
    set_prev(nodes, next, prev);
}
