//! Where pointers lead: which parameter an id's pointer is of, and how many bytes after it.
//!
//! The state is a table of what is known of each id that an instruction or a parameter defines; of others nothing is. `learn` fails
//! for want of memory alone, and then the table is no longer of use.

ghost use Rattle.std.specs.Prelude.{◌≡◌, IfOk, OnOk};
ghost use Rattle.vx_serial.specs.Pair.{leads_at_start, set_lead, lead_on, leads_after};
ghost use Rattle.vx_serial.specs.PairScan.{leads_in};

use ir_types::{Id, IdTable, Inst, Op, Opd, OutOfMemory, Param};
use std::alloc::Global;
use vx_num::{Lane, advance};

/// What is known of pointers.
#[derive(Drop)]
pub(crate) struct Known {
    /// The parameter, and the constant in bytes, modulo 2^64 as signed.
    table: IdTable<Option<(Id, i64)>>,
}

impl Known {
    /// What is known at a function's start: each parameter leads to itself.
    pub(crate) fn at_start(alloc: Global, params: &[Param]) -> Result<Known, OutOfMemory>
        ensures { IfOk result (λ known. leads_in known.table ≡ leads_at_start params.now) }
    {
        let mut known = Known {
            table: IdTable::new(alloc),
        };
        for param in params {
            known.set(param.id, Some((param.id, 0)))?;
        }
        Ok(known)
    }

    /// Where an id leads.
    pub(crate) fn lead_of(&self, id: Id) -> Option<(Id, i64)>
        ensures { result ≡ leads_in self.now.table id }
    {
        match self.table.get(id) {
            Some(lead) => *lead,
            None => None,
        }
    }

    /// Says where an id leads.
    fn set(&mut self, id: Id, lead: Option<(Id, i64)>) -> Result<(), OutOfMemory>
        ensures { OnOk result (leads_in self.new.table ≡ set_lead (leads_in self.old.table) id lead) }
    {
        self.table.set(id, lead)?;
        Ok(())
    }

    /// What is known after an instruction.
    pub(crate) fn learn(&mut self, inst: &Inst) -> Result<(), OutOfMemory>
        ensures { OnOk result (leads_in self.new.table ≡ leads_after (leads_in self.old.table) inst.now) }
    {
        match (&inst.op, inst.opds.as_slice()) {
            (Op::Store { .. }, _) => Ok(()),
            (Op::Gep { .. }, [Opd::Val(pointer), Opd::Lit(literal)]) => {
                let lead = lead_on(self.lead_of(*pointer), literal.lanes.as_lanes().as_slice());
                self.set(inst.id, lead)
            }
            _ => self.set(inst.id, None),
        }
    }
}

/// A literal number of bytes further.
fn lead_on(lead: Option<(Id, i64)>, lanes: &[Lane]) -> Option<(Id, i64)>
    ensures { result ≡ lead_on lead lanes.now }
{
    match (lead, lanes) {
        (Some((base, constant)), [Some(bytes)]) => Some((base, advance(constant, *bytes, 64, 1))),
        _ => None,
    }
}
