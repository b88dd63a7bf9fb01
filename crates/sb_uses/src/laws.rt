//! Laws of use lists under changes of their module.
//!
//! Each law is the contract of a function that does nothing and that no program calls; a caller that calls it has the law.

ghost use Rattle.std.specs.Prelude.{◌≡◌, ◌≤◌, ◌+◌, ℕ, List, None, Some, length, slice_get};
ghost use Rattle.ir_types.specs.declared.id.Id.{Id};
ghost use Rattle.ir_types.specs.declared.opd.Opd.{Opd};
ghost use Rattle.ir_types.specs.declared.module.Module.{Module};
ghost use Rattle.ir_types.specs.Formed.{IsFormed};
ghost use Rattle.vx_view.specs.declared.change.Change.{Change};
ghost use Rattle.vx_view.specs.Answers.{found, Standing};
ghost use Rattle.vx_view.specs.Changes.{applied, Fits};
ghost use Rattle.vx_view.specs.Uses.{Lists, IsExact};
ghost use Rattle.vx_view.specs.UsesAfter.{opd_taken, all_taken, lists_after};
ghost use Rattle.sb_uses.specs.Stock.{Stock, HasSlot, LacksSlot, HasSlots, LacksSlots};
ghost use Rattle.sb_uses.specs.StockAfter.{stock_after, stock_undone, CanUndo};
ghost use Rattle.sb_uses.specs.Totals.{IdsApart, slots_of, slots_came, slots_gone};

/// The ids of a formed module are apart, and changes that fit keep them apart.
pub fn ids_stay_apart()
    ensures formed { (m : Module) → IsFormed m → IdsApart m }
    ensures changed { (m : Module) (c : Change) → IdsApart m → Fits m c → IdsApart (applied c m) }
{}

/// Use lists that have each use of a module once have each once after a change that fits.
pub fn lists_stay_exact()
    ensures { (m : Module) (c : Change) (lists : Lists) → IdsApart m → Fits m c → IsExact m lists → IsExact (applied c m) (lists_after m c lists) }
{}

/// Each slot of an instruction is in the list of the value that it holds.
pub fn operands_are_listed()
    ensures all { (m : Module) (lists : Lists) → IdsApart m → IsExact m lists → (x : Id) (s : Standing) → found m x ≡ Some s → HasSlots x 0 s.inst.opds lists }
    ensures one { (m : Module) (lists : Lists) → IdsApart m → IsExact m lists → (x : Id) (slot : ℕ) (old : Opd) (s : Standing) → found m x ≡ Some s → slice_get s.inst.opds slot ≡ Some old → HasSlot x slot old lists }
{}

/// No list has a slot of an id that is no instruction, nor one of an instruction whose slots were taken out.
pub fn others_are_not_listed()
    ensures new { (m : Module) (lists : Lists) → IdsApart m → IsExact m lists → (x : Id) (os : List Opd) → found m x ≡ None → LacksSlots x 0 os lists }
    ensures taken { (m : Module) (lists : Lists) → IdsApart m → IsExact m lists → (x : Id) (os : List Opd) (s : Standing) → found m x ≡ Some s → LacksSlots x 0 os (all_taken x 0 s.inst.opds lists) }
    ensures slot { (m : Module) (lists : Lists) → IdsApart m → IsExact m lists → (x : Id) (slot : ℕ) (old new : Opd) (s : Standing) → found m x ≡ Some s → slice_get s.inst.opds slot ≡ Some old → LacksSlot x slot new (opd_taken x slot old lists) }
{}

/// The slots of a module are counted by what comes and goes with a change.
pub fn slots_are_counted()
    ensures changed { (m : Module) (c : Change) → IdsApart m → Fits m c → slots_of (applied c m) + slots_gone m c ≡ slots_of m + slots_came c }
    ensures part { (m : Module) → IdsApart m → (x : Id) (s : Standing) → found m x ≡ Some s → length s.inst.opds ≤ slots_of m }
{}

/// What a change makes of use lists with what is kept has the lists after the change.
pub fn stocks_have_the_lists()
    ensures { (m : Module) (c : Change) (s : Stock) → IdsApart m → Fits m c → (stock_after m c s).lists ≡ lists_after m c s.lists }
{}

/// What a change that fits makes of use lists is taken back: every list is in its order again, and what was kept before is kept.
pub fn stocks_are_undone()
    ensures back { (m : Module) (c : Change) (s : Stock) → IdsApart m → IsExact m s.lists → Fits m c → stock_undone m c (stock_after m c s) ≡ s }
    ensures can { (m : Module) (c : Change) (s : Stock) → IdsApart m → IsExact m s.lists → Fits m c → CanUndo m c (stock_after m c s) }
{}
