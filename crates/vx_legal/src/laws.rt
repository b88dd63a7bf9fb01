//! Laws of how lanes are had.
//!
//! Each law is the contract of a function that does nothing and that no program calls; a caller that calls it has the law.

ghost use Rattle.std.specs.Prelude.{◌≡◌, List};
ghost use Rattle.std.specs.List.{list_all};
ghost use Rattle.ir_types.specs.declared.id.Id.{Id};
ghost use Rattle.ir_types.specs.declared.opd.Opd.{Opd};
ghost use Rattle.ir_types.specs.declared.inst.Inst.{Inst};
ghost use Rattle.ir_types.specs.declared.module.Module.{Module};
ghost use Rattle.vx_serial.specs.declared.node.Node.{Node};
ghost use Rattle.vx_serial.specs.Legal.{legal, has_cycle, insts_of, inst_of, is_there};
ghost use Rattle.vx_legal.specs.Found.{found_of, there};
ghost use Rattle.vx_legal.specs.Legality.{legality, as_how};

/// How lanes are had is what the rules tell, and where they fit, whether the bundles have an order.
pub fn legality_tells_how()
    ensures { (m : Module) (block : List Inst) (last : Id) (tree : List Node) (lanes : List Opd) → legal m block last tree lanes ≡ as_how (has_cycle m block last tree (insts_of block lanes)) (legality m block last tree lanes) }
{}

/// What was answered for lanes has the instructions that they are, and tells whether all are there.
pub fn found_lanes_are_there()
    ensures insts { (block : List Inst) (lanes : List Opd) → there (found_of block lanes) ≡ insts_of block lanes }
    ensures all { (block : List Inst) (lanes : List Opd) → list_all is_there (found_of block lanes) ≡ list_all (λ o. is_there (inst_of block o)) lanes }
{}
