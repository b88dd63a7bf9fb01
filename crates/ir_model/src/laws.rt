//! Laws of runs and of refinement.
//!
//! Each law is the contract of a function that does nothing and that no program calls; a caller that calls it has the law.

ghost use Rattle.std.specs.Prelude.{◌≡◌, ℕ, ◌≤◌, Option, List, length};
ghost use Rattle.std.specs.List.{Contains};
ghost use Rattle.ir_types.specs.declared.id.Id.{Id};
ghost use Rattle.ir_types.specs.declared.ty.Ty.{Ty};
ghost use Rattle.ir_types.specs.declared.inst.Inst.{Inst};
ghost use Rattle.ir_types.specs.declared.func.Block.{Block};
ghost use Rattle.ir_types.specs.declared.func.Func.{Func};
ghost use Rattle.ir_types.specs.declared.module.Item.TheVariants.{Func as FuncItem};
ghost use Rattle.ir_types.specs.declared.module.Module.{Module};
ghost use Rattle.ir_types.specs.Formed.{IsFormed};
ghost use Rattle.ir_types.specs.Renumbered.{renumbered};
ghost use Rattle.ir_model.specs.declared.value.Value.{Value};
ghost use Rattle.ir_model.specs.declared.outcome.Outcome.{Outcome};
ghost use Rattle.ir_model.specs.Memory.{Memory};
ghost use Rattle.ir_model.specs.Step.{Calls, Reached, step};
ghost use Rattle.ir_model.specs.Run.{run_block, run_of};
ghost use Rattle.ir_model.specs.CallFree.{plain_run_of};
ghost use Rattle.ir_model.specs.Refines.{OutcomeRefines, ModuleRefines};
ghost use Rattle.ir_model.specs.Shapes.{StartsAreShaped, OperandsHaveShapes, StepsKeepShapes, ResultsHaveShapes};
ghost use Rattle.ir_model.specs.Causes.{UndefinedHasCauses};
ghost use Rattle.ir_model.specs.Monotone.{WentRefines, ReachedRefines, ExitRefines, CallsRefine};

/// An outcome may stand for itself, and outcomes refine in a chain.
pub fn outcomes_refine()
    ensures same { (o : Outcome) → OutcomeRefines o o }
    ensures chain { (a b c : Outcome) → OutcomeRefines a b → OutcomeRefines b c → OutcomeRefines a c }
{}

/// A module may stand for itself, and modules refine in a chain, where the one in the middle has no more globals than the last.
pub fn modules_refine()
    ensures same { (m : Module) → ModuleRefines m m }
    ensures chain { (a b c : Module) → length b.globals ≤ length c.globals → ModuleRefines a b → ModuleRefines b c → ModuleRefines a c }
{}

/// A formed module with its ids given anew is formed, and both may stand for each other.
pub fn renumbered_refines()
    ensures formed { (m : Module) → IsFormed m → IsFormed (renumbered m) }
    ensures new { (m : Module) → IsFormed m → ModuleRefines (renumbered m) m }
    ensures old { (m : Module) → IsFormed m → ModuleRefines m (renumbered m) }
{}

/// In a formed module a name is one function's alone, so what a call names is one function.
pub fn callees_are_single()
    ensures { (m : Module) → IsFormed m → (f g : Func) → Contains m.items (FuncItem f) → Contains m.items (FuncItem g) → f.name ≡ g.name → f ≡ g }
{}

/// As long as calls are not read, a run is what it is where a call has no meaning.
pub fn runs_are_call_free()
    ensures { (m : Module) (func : ℕ) (args : List Value) (memory : Memory) (bound : ℕ) → run_of m func args memory bound ≡ plain_run_of m func args memory bound }
{}

/// One step is monotone in operands, memory and calls, for all forms; and so is a block.
pub fn steps_are_monotone()
    ensures step { (n : ℕ) (types : Id → Ty) (new old : Calls) → CallsRefine n new old → (i : Inst) (r s : Reached) → ReachedRefines n r s → WentRefines (ReachedRefines n) (step types new i r) (step types old i s) }
    ensures block { (n : ℕ) (types : Id → Ty) (new old : Calls) → CallsRefine n new old → (from : Option ℕ) (b : Option Block) (r s : Reached) → ReachedRefines n r s → WentRefines (ExitRefines n) (run_block types new from r b) (run_block types old from s b) }
{}

/// In a formed module, from arguments that fit, a run is undefined only where two `noalias` objects meet at the start, or where it comes to
/// `unreachable`, a division by zero, by poison or without a result, a load or store through poison, out of its object or misaligned, or
/// a branch or switch on poison; or, as long as calls are not read, to a call.
pub fn undefined_has_causes()
    ensures { UndefinedHasCauses }
{}

/// Along a run of a formed module from arguments that fit, each value that stands has its type's shape, and each pointer names an object
/// that is there: at the start, and after each step; so have operands, and what is returned.
pub fn values_keep_their_shapes()
    ensures start { StartsAreShaped }
    ensures operands { OperandsHaveShapes }
    ensures step { StepsKeepShapes }
    ensures result { ResultsHaveShapes }
{}
