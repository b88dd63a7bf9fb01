//! `order`: the order of the window of bundles in the reach of a region's stores.
//!
//! A graph grows over the reach from its end to the first member of any bundle, and has the order then. `NoOrder` keeps a cycle of
//! groups; want of memory is the other refusal. The view may then have more notes, and is otherwise as before.

ghost use Rattle.std.specs.Prelude.{◌≡◌, ◌<◌, Some, IfOk, IfErr, length};
ghost use Rattle.ir_types.specs.declared.module.Module.{Module};
ghost use Rattle.ir_types.specs.Formed.{IsFormed};
ghost use Rattle.vx_view.specs.Views.{StandsFor, IsAskable, Asks};
ghost use Rattle.vx_deps.specs.Graphs.{held, ids_of, IsRight};
ghost use Rattle.vx_deps.specs.Orders.{from_member};
ghost use Rattle.vx_deps.specs.Cycles.{AreBundlesOf};
ghost use Rattle.vx_deps.specs.Ordered.{order_over, RefusesIn, IsReach, FollowOn, NamesRow};

use crate::graph::Graph;
use crate::refusal::{Bundles, OrderRefusal};
use crate::window::is_member;
use ir_types::{Id, Ids, OutOfMemory};
use std::alloc::Global;
use vx_view::View;

/// The ids from the first member of these bundles on.
fn from_member<'a>(ids: &'a [Id], bundles: &[Ids]) -> &'a [Id]
    ensures { result.now ≡ from_member bundles.now ids.now }
{
    let mut left = ids;
    while let [first, more @ ..] = left {
        if is_member(bundles, *first) {
            return left;
        }
        left = more;
    }
    left
}

/// The graph that holds instructions of a block that follow one another.
fn grown<V: View>(alloc: Global, view: &mut V, ids: &[Id]) -> Result<Graph, OutOfMemory>
    requires askable { IsAskable (V.seen view.old) }
    requires row { FollowOn (V.seen view.old).contents.own ids.now }
    ensures ids { IfOk result (λ graph. ids_of (held graph) ≡ ids.now) }
    ensures right { IfOk result (λ graph. (m : Module) → StandsFor (V.seen view.new) m → IsFormed m → IsRight m (held graph)) }
    ensures asks { Asks (λ m. NamesRow m ids.now) (V.seen view.old) (V.seen view.new) }
{
    let mut graph = Graph::new(alloc);
    let mut left = ids;
    while let Some((last, more)) = left.split_last() {
        graph.grow(alloc, view, *last)?;
        left = more;
    }
    Ok(graph)
}

/// The order of the window of bundles, which runs from the first member of any bundle to the last of a reach: its groups, each a bundle
/// or an instruction that is no member, in the order in which the window may run.
///
/// There is a bundle, each has a member, all members are of the reach, and none is twice. Refusals: `NoOrder` exactly where there is no
/// order, unless memory is wanting first; `OutOfMemory`.
pub fn order<V: View>(
    alloc: Global,
    view: &mut V,
    reach: &Ids,
    bundles: &Bundles,
) -> Result<Bundles, OrderRefusal>
    requires askable { IsAskable (V.seen view.old) }
    requires own { StandsFor (V.seen view.old) (V.seen view.old).contents.own }
    requires formed { IsFormed (V.seen view.old).contents.own }
    requires reach { IsReach (V.seen view.old) reach.now }
    requires some { 0 < length bundles.now }
    requires bundles { AreBundlesOf reach.now bundles.now }
    ensures order { IfOk result (λ groups. (m : Module) → StandsFor (V.seen view.new) m → IsFormed m → order_over m reach.now bundles.now ≡ Some groups) }
    ensures refused { IfErr result (λ refusal. (m : Module) → StandsFor (V.seen view.new) m → IsFormed m → RefusesIn m reach.now bundles.now refusal) }
    ensures asks { Asks (λ m. NamesRow m (from_member bundles.now reach.now)) (V.seen view.old) (V.seen view.new) }
{
    let window = from_member(reach.as_slice(), bundles.as_slice());
    let graph = grown(alloc, view, window)?;
    graph.order(alloc, bundles)
}
