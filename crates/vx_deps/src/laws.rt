//! Laws of a reach, of what is asked for it, and of what a graph keeps.
//!
//! Each law is the contract of a function that does nothing and that no program calls; a caller that calls it has the law.

ghost use Rattle.ir_types.specs.declared.id.Id.{Id};
ghost use Rattle.ir_types.specs.declared.inst.Inst.{Inst};
ghost use Rattle.ir_types.specs.declared.module.Module.{Module};
ghost use Rattle.ir_types.specs.Formed.{IsFormed};
ghost use Rattle.std.specs.Prelude.{◌≡◌, ◌∷◌, List, None, Some};
ghost use Rattle.vx_serial.specs.Bundles.{AreOnce};
ghost use Rattle.vx_view.specs.declared.question.Question.{Question};
ghost use Rattle.vx_deps.specs.Graphs.{Kept, ids_of, IsRight, IsHeld, TellsOf};
ghost use Rattle.vx_deps.specs.Orders.{HaveMembers, IsWindowOrder};
ghost use Rattle.vx_deps.specs.Ordered.{NamesRow};
ghost use Rattle.vx_deps.specs.Reach.{reach, AreNear, AreFar, Stand, LooksFor, NamesNear};

/// In a formed module, what is asked for the reach of stores of one block names ids of their neighbourhood alone.
pub fn reads_are_near()
    ensures { (m : Module) → IsFormed m → (insts : List Inst) (stores : List Id) → Stand m insts stores → (q : Question) → LooksFor m stores q → NamesNear m insts stores q }
{}

/// In a formed module, what is asked for an order in the reach of stores of one block names ids of their neighbourhood alone.
pub fn orders_read_near()
    ensures { (m : Module) → IsFormed m → (insts : List Inst) (stores : List Id) → Stand m insts stores → (ids : List Id) → reach m stores ≡ Some ids → (q : Question) → NamesRow m ids q → NamesNear m insts stores q }
{}

/// A reach is what is looked at for one of the stores, with all stores among it; where there is none, there is no such store.
pub fn reaches_have_the_stores()
    ensures near { (m : Module) (stores ids : List Id) → reach m stores ≡ Some ids → AreNear m stores ids }
    ensures far { (m : Module) (stores : List Id) → reach m stores ≡ None → AreFar m stores }
{}

/// A graph that is right for a formed module holds no instruction twice.
pub fn graphs_hold_each_once()
    ensures { (m : Module) (kept : List Kept) → IsFormed m → IsRight m kept → AreOnce (ids_of kept) }
{}

/// In each formed module for which a graph is right, what it keeps between two that it holds is whether the second depends on the first.
pub fn graphs_tell_dependences()
    ensures { (m : Module) (kept : List Kept) → IsFormed m → IsRight m kept → (x y : Id) → IsHeld kept x → IsHeld kept y → TellsOf m kept x y }
{}

/// In each formed module for which a graph is right, the order that it has of bundles that it holds is that of their window there, which
/// runs from the first member to the last instruction that is held.
pub fn graphs_have_the_order()
    ensures { (m : Module) (last : Kept) (kept : List Kept) → IsFormed m → IsRight m (last ∷ kept) → (bundles : List (List Id)) → HaveMembers (ids_of (last ∷ kept)) bundles → IsWindowOrder m last.inst.id (last ∷ kept) bundles }
{}
