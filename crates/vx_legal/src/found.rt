//! The rules for what was answered for lanes: what is no instruction of the block, what has no vector form, and what is a lane twice.
//!
//! Nothing here fails.

ghost use Rattle.std.specs.Prelude.{◌≡◌};
ghost use Rattle.std.specs.List.{list_all, list_any};
ghost use Rattle.ir_types.specs.Available.{same_id};
ghost use Rattle.ir_types.specs.Formed.{is_phi};
ghost use Rattle.ir_types.specs.declared.inst.Inst.{Inst};
ghost use Rattle.vx_serial.specs.Legal.{is_there, may_widen, are_repeated};
ghost use Rattle.vx_legal.specs.Found.{there};

use crate::inst::may_widen;
use ir_types::{Id, Inst, Op};

/// Whether an operation is a phi.
fn is_phi(op: &Op) -> bool
    ensures { result ≡ is_phi op.now }
{
    match op {
        Op::Phi { .. } => true,
        _ => false,
    }
}

/// Whether a lane is an instruction of the block that is no phi.
fn is_there(found: &Option<Inst>) -> bool
    ensures { result ≡ is_there found.now }
{
    match found {
        Some(inst) => !is_phi(&inst.op),
        None => false,
    }
}

/// Whether all lanes are instructions of the block, and none a phi.
pub fn are_there(found: &[Option<Inst>]) -> bool
    ensures { result ≡ list_all is_there found.now }
{
    let mut left = found;
    while let [first, more @ ..] = left {
        if !is_there(first) {
            return false;
        }
        left = more;
    }
    true
}

/// Whether each that is an instruction of the block may be a lane of what is widened.
pub fn all_may_widen(is_root: bool, found: &[Option<Inst>]) -> bool
    ensures { result ≡ list_all (may_widen is_root) (there found.now) }
{
    let mut left = found;
    while let [first, more @ ..] = left {
        if let Some(inst) = first {
            if !may_widen(is_root, inst) {
                return false;
            }
        }
        left = more;
    }
    true
}

/// Whether an id is that of one of these.
fn has(found: &[Option<Inst>], id: Id) -> bool
    ensures { result ≡ list_any (λ (j : Inst). same_id j.id id) (there found.now) }
{
    let mut left = found;
    while let [first, more @ ..] = left {
        if let Some(inst) = first {
            if inst.id.same(id) {
                return true;
            }
        }
        left = more;
    }
    false
}

/// Whether an instruction is a lane twice.
pub fn are_repeated(found: &[Option<Inst>]) -> bool
    ensures { result ≡ are_repeated (there found.now) }
{
    let mut left = found;
    while let [first, more @ ..] = left {
        if let Some(inst) = first {
            if has(more, inst.id) {
                return true;
            }
        }
        left = more;
    }
    false
}
