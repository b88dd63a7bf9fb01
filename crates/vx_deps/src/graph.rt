//! `Graph`: instructions of a block one after another, and which of them depend on which.
//!
//! A graph grows by one instruction at the front. It asks once for what the instruction does to memory and keeps that, so that
//! `depends` asks nothing. Contracts see what it holds, and for which modules that is right. Want of memory is the only failure, and
//! leaves the graph as it was.

ghost use Rattle.std.specs.Prelude.{◌≡◌, ◌∷◌, true, [], Some, IfOk, IfErr, OnOk, OnErr, option_map};
ghost use Rattle.ir_types.specs.declared.module.Module.{Module};
ghost use Rattle.ir_types.specs.Formed.{IsFormed};
ghost use Rattle.vx_view.specs.declared.question.Question.TheVariants as ask;
ghost use Rattle.vx_view.specs.Answers.{answer};
ghost use Rattle.vx_view.specs.Views.{StandsFor, IsAskable, Asks};
ghost use Rattle.vx_deps.specs.Reach.{is_answered, id_answered};
ghost use Rattle.vx_serial.specs.Bundles.{AreOnce};
ghost use Rattle.vx_deps.specs.Graphs.{held, ids_of, keeps, kept_of, as_node, IsRight, Precedes, NamesNode};
ghost use Rattle.vx_deps.specs.Orders.{order, window_ids};
ghost use Rattle.vx_deps.specs.Cycles.{AreBundlesOf, Refuses};

use crate::node::{Node, depends_on, node_of};
use crate::refusal::{Bundles, OrderRefusal};
use crate::window::{edges_between, from_member, groups_in, ids_of, named};
use ir_types::{Id, OutOfMemory};
use std::alloc::Global;
use vx_list::{Equal, Seq};
use vx_order::{OrderRefusal as ScheduleRefusal, schedule};
use vx_view::View;

/// Instructions of a block, one after another.
#[derive(Debug, Drop)]
pub struct Graph {
    /// The last of the block first.
    nodes: Seq<Node>,
}

impl Graph {
    /// The graph that holds nothing.
    pub fn new(alloc: Global) -> Graph
        ensures { held result ≡ [] }
    {
        Graph {
            nodes: Seq::new(alloc),
        }
    }

    /// Puts the instruction just before the first that is held at the front.
    pub fn grow<V: View>(&mut self, alloc: Global, view: &mut V, id: Id) -> Result<(), OutOfMemory>
        requires askable { IsAskable (V.seen view.old) }
        requires there { is_answered (answer (V.seen view.old).contents.own (ask.Inst id)) ≡ true }
        requires next { Precedes (id_answered (answer (V.seen view.old).contents.own (ask.Next id))) (ids_of (held self.old)) }
        ensures ids { OnOk result (ids_of (held self.new) ≡ id ∷ ids_of (held self.old)) }
        ensures right { OnOk result ((m : Module) → StandsFor (V.seen view.new) m → IsFormed m → IsRight m (held self.old) → IsRight m (held self.new)) }
        ensures err { OnErr result (self.new ≡ self.old) }
        ensures asks { Asks (λ m. NamesNode m id) (V.seen view.old) (V.seen view.new) }
    {
        let node = node_of(alloc, view, id)?;
        self.nodes.push(node)?;
        Ok(())
    }

    /// The node of an instruction.
    fn node(&self, id: Id) -> Option<&Node>
        ensures { option_map (λ n. as_node n.now) result ≡ kept_of id (held self.now) }
    {
        let mut left = self.nodes.as_slice();
        while let [first, more @ ..] = left {
            if first.inst.id.equal(&id) {
                return Some(first);
            }
            left = more;
        }
        None
    }

    /// Whether of two instructions that are held the second, which stands later, depends on the first.
    pub fn depends(&self, earlier: Id, later: Id) -> bool
        ensures { result ≡ keeps (held self.now) earlier later }
    {
        match (self.node(earlier), self.node(later)) {
            (Some(earlier), Some(later)) => depends_on(later, earlier),
            _ => false,
        }
    }
    /// The order of the window of bundles, which runs from the first member of any to the last instruction that is held: its groups, each
    /// a bundle or an instruction that is no member, in the order in which the window may run. No instruction is held twice.
    ///
    /// Refusals: `NoOrder` exactly where there is no order, unless memory is wanting first; `OutOfMemory`.
    pub fn order(&self, alloc: Global, bundles: &Bundles) -> Result<Bundles, OrderRefusal>
        requires once { AreOnce (ids_of (held self.now)) }
        requires bundles { AreBundlesOf (ids_of (held self.now)) bundles.now }
        ensures order { IfOk result (λ groups. order (held self.now) bundles.now ≡ Some groups) }
        ensures refused { IfErr result (Refuses (keeps (held self.now)) (window_ids (held self.now) bundles.now) bundles.now) }
    {
        let window = from_member(self.nodes.as_slice(), bundles.as_slice());
        let ids = ids_of(alloc, window)?;
        let groups = groups_in(alloc, ids.as_slice(), bundles.as_slice())?;
        let edges = edges_between(alloc, window)?;
        match schedule(alloc, &groups, edges.as_slice()) {
            Ok(order) => Ok(named(alloc, ids.as_slice(), &groups, order.as_slice())?),
            Err(ScheduleRefusal::NoOrder { cycle }) => Err(OrderRefusal::NoOrder {
                cycle: named(alloc, ids.as_slice(), &groups, cycle.as_slice())?,
            }),
            Err(ScheduleRefusal::OutOfMemory) => Err(OrderRefusal::OutOfMemory),
        }
    }
}
