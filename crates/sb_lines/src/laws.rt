//! Laws of where instructions come.
//!
//! Each law is the contract of a function that does nothing and that no program calls; a caller that calls it has the law.

ghost use Rattle.std.specs.Prelude.{◌≡◌};
ghost use Rattle.ir_types.specs.declared.id.Id.{Id};
ghost use Rattle.ir_types.specs.declared.module.Module.{Module};
ghost use Rattle.vx_view.specs.Changes.{applied};
ghost use Rattle.vx_view.specs.declared.change.Change.TheVariants.{Move};
ghost use Rattle.sb_lines.specs.Spots.{moved_to};
ghost use Rattle.sb_lines.specs.declared.spot.Before.TheVariants.{Line};

/// To move an instruction to before another is the change that says so.
pub fn moves_before_another()
    ensures { (m : Module) (y x : Id) → moved_to y (Line x) m ≡ applied (Move y x) m }
{}
