//! Laws of instructions in another order.
//!
//! Each law is the contract of a function that does nothing and that no program calls; a caller that calls it has the law.

ghost use Rattle.rf_order.specs.Swaps.{EffectsSwap};
ghost use Rattle.rf_order.specs.Blocks.{BlocksRefine, ExitsAreEntered, ExitsLeadOn, PhisAreEntered, StartsAreEntered, WholeBlocksRefine};
ghost use Rattle.rf_order.specs.Functions.{FunctionsRefine, ModulesRefine, OutcomesRefine};
ghost use Rattle.rf_order.specs.Ready.{AccessesKeepApart, NeighboursSwap, RowsRefine, StepsKeepReady, WindowsRefine};
ghost use Rattle.rf_order.specs.Steps.{StepsSwap};
ghost use Rattle.rf_order.specs.Windows.{OrdersReorder};

/// Two neighbouring operations whose accesses are apart may be done in the other order.
pub fn effects_swap()
    ensures { EffectsSwap }
{}

/// Two neighbouring instructions that do not share an id may swap: two that are no calls where their effects may, and a call with what
/// stays what it is whatever the call does.
pub fn steps_swap()
    ensures { StepsSwap }
{}

/// Where a window has an order, its instructions come in it with each after all that it depends on.
pub fn orders_reorder()
    ensures { OrdersReorder }
{}

/// A step of an instruction that may run keeps a state ready.
pub fn steps_keep_ready()
    ensures { StepsKeepReady }
{}

/// Accesses of instructions that may run in a ready state are apart where their forms show it.
pub fn accesses_keep_apart()
    ensures { AccessesKeepApart }
{}

/// Neighbours of which the second does not depend on the first may swap, in a ready state, over all calls that keep shapes and objects:
/// where the old order is defined, the new one comes to the same.
pub fn neighbours_swap()
    ensures { NeighboursSwap }
{}

/// A row of instructions in another order, each after all that it depends on, comes to the same, where the old row is defined.
pub fn rows_refine()
    ensures { RowsRefine }
{}

/// A block's window in its order, with what stands after it, comes to the same, where it was defined.
pub fn windows_refine()
    ensures { WindowsRefine }
{}

/// In a formed module a block that a walk comes to, with a window in its order, comes to the same, where it was defined: for every list of
/// bundles that has an order, over all calls that keep shapes and objects. The window holds no phi, and the groups have their members in
/// their own order.
pub fn blocks_refine()
    ensures { BlocksRefine }
{}

/// On arguments that fit, where `noalias` holds, the first block of a function of a formed module is entered with roots that stand apart.
pub fn starts_are_entered()
    ensures { StartsAreEntered }
{}

/// Where a block that is entered goes on to another, that one is entered, before its phis.
pub fn exits_are_entered()
    ensures { ExitsAreEntered }
{}

/// A whole block, its phis too, with its window in the order that it has, comes to the same, where it was defined.
pub fn whole_blocks_refine()
    ensures { WholeBlocksRefine }
{}

/// Where a block is entered, what its phis come to is entered after them.
pub fn phis_are_entered()
    ensures { PhisAreEntered }
{}

/// Where a block that is entered goes on to another, that one is entered on the longer walk, from this one.
pub fn exits_lead_on()
    ensures { ExitsLeadOn }
{}

/// A function of a formed module with one block in the order of its window comes to the same, where it was defined: for all arguments and
/// memories that fit, every bound, and all calls that keep shapes and objects.
pub fn functions_refine()
    ensures { FunctionsRefine }
{}

/// As long as calls are not read: the outcome of a function with one block in the order of its window refines the function's in the module.
pub fn outcomes_refine()
    ensures { OutcomesRefine }
{}

/// As long as calls are not read, a formed module with one block of a function in the order of its window refines what it was.
pub fn modules_refine()
    ensures { ModulesRefine }
{}
