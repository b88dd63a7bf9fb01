//! Laws: a packing refines what it replaces.
//!
//! There is no code that runs. Each law is the contract of a public function with an empty body, over the definitions of
//! `ir_model` and `vx_serial`; a caller that calls it has the law. Nothing here fails.
#![tactic(auto)]

ghost use Rattle.std.specs.Prelude.{◌≡◌, ℕ, ◌≤◌, List, ◌∷◌, length};
ghost use Rattle.ir_types.specs.declared.module.Module.{Module};
ghost use Rattle.ir_types.specs.declared.ty.Ty.TheVariants.{Row};
ghost use Rattle.ir_types.specs.Formed.{IsFormed};
ghost use Rattle.ir_model.specs.declared.value.Value.TheVariants.{Row as RowValue};
ghost use Rattle.ir_model.specs.Values.{Pointer, MayStandFor};
ghost use Rattle.ir_model.specs.Memory.{Memory};
ghost use Rattle.ir_model.specs.Refines.{ModuleRefines};
ghost use Rattle.vx_serial.specs.Pair.{pair_of};
ghost use Rattle.rf_pack.specs.Lanes.{OffsetFits, LaneStore, lanes_of, after_store, after_stores};

/// A store of a vector with the pointer and the align of its first lane may stand for the stores of its lanes, of which each is
/// after the one before: where all of these are defined, so is the vector's, and the memory is the same.
pub fn row_store_refines()
    ensures { (w : ℕ) (p : Pointer) (l : LaneStore) (ls : List LaneStore) (m : Memory) → w ≤ 64 → OffsetFits p → MayStandFor (after_store l.align (Row (length (l ∷ ls)) w) (RowValue (lanes_of (l ∷ ls))) p m) (after_stores w p (l ∷ ls) m) }
{}

/// The module in which two neighbouring stores have become one refines the module.
pub fn pair_refines()
    ensures { (m : Module) → ModuleRefines (pair_of m) m }
{}

/// A formed module in which two neighbouring stores have become one is formed.
pub fn pair_stays_formed()
    ensures { (m : Module) → IsFormed m → IsFormed (pair_of m) }
{}
