//! The scan for the first pair of stores, in one pass over the instructions.
//!
//! The state is what is known of pointers, and the last store that may still pair: the last instruction that touches memory, where
//! it stores a literal through a pointer that leads to a parameter. Want of memory is the only failure.

ghost use Rattle.std.specs.Prelude.{◌≡◌, ◌<◌, ◌+ℤ◌, pos, None, length, option_map, IfOk, IfSome};
ghost use Rattle.std.specs.Ordering.{int_eq};
ghost use Rattle.vx_serial.specs.Pair.{is_memory, led_store, led_store_of, joined, joined_to, joined_by_distance, both_stored, is_lead, paired};
ghost use Rattle.vx_serial.specs.PairScan.{leads_in, pair_at, waiting_after, scan, with_found};

use super::leads::Known;
use ir_types::{Id, Inst, Literal, Lits, Op, Opd, Opds, OutOfMemory, Ty};
use std::alloc::Global;
use vx_list::{Equal, TryClone};
use vx_num::Lane;

/// A store of one literal through a pointer that leads to a parameter.
#[derive(Clone, Copy, Debug)]
pub struct LedStore {
    pub lane: Lane,
    pub pointer: Id,
    /// In bytes.
    pub align: u64,
    /// The parameter.
    pub base: Id,
    /// How many bytes after the parameter's pointer.
    pub constant: i64,
}

/// A store that the next instruction that touches memory may pair with.
#[derive(Clone, Copy, Debug)]
pub struct Waiting {
    /// Its place from 0 among the instructions.
    pub place: usize,
    pub store: LedStore,
}

/// A pair.
#[derive(Debug, Drop)]
pub struct Found {
    /// The place of the first store, from 0.
    pub first: usize,
    pub second: usize,
    /// The store of both.
    pub both: Inst,
}

/// The first pair, if there is one.
pub(crate) fn first_pair(
    alloc: Global,
    known: &mut Known,
    insts: &[Inst],
) -> Result<Option<Found>, OutOfMemory>
    ensures pair { IfOk result (λ found. paired (leads_in known.old.table) insts.now ≡ option_map (with_found insts.now) found) }
    ensures order { IfOk result (λ found. IfSome found (λ f. (f.first < f.second) × (f.second < length insts.now))) }
{
    scanned(alloc, known, insts)
}

/// What the scan of all instructions finds.
fn scanned(alloc: Global, known: &mut Known, insts: &[Inst]) -> Result<Option<Found>, OutOfMemory>
    ensures { IfOk result (λ found. found ≡ scan (leads_in known.old.table) None 0 insts.now) }
{
    let mut waiting: Option<Waiting> = None;
    let mut at: usize = 0;
    let mut rest = insts;
    while let [inst, more @ ..] = rest {
        let found = pair_at(alloc, known, waiting, at, inst)?;
        if found.is_some() {
            return Ok(found);
        }
        waiting = waiting_after(known, waiting, at, inst);
        known.learn(inst)?;
        at += 1;
        rest = more;
    }
    Ok(None)
}

/// The instruction as the second of a pair with the waiting store.
fn pair_at(
    alloc: Global,
    known: &Known,
    waiting: Option<Waiting>,
    at: usize,
    inst: &Inst,
) -> Result<Option<Found>, OutOfMemory>
    ensures { IfOk result (λ found. found ≡ pair_at (leads_in known.now.table) waiting at inst.now) }
{
    match waiting {
        Some(earlier) if is_memory(&inst.op) => {
            match joined_to(alloc, known, earlier.store, inst)? {
                Some(both) => Ok(Some(Found {
                    first: earlier.place,
                    second: at,
                    both,
                })),
                None => Ok(None),
            }
        }
        _ => Ok(None),
    }
}

/// The waiting store after an instruction.
fn waiting_after(known: &Known, waiting: Option<Waiting>, at: usize, inst: &Inst) -> Option<Waiting>
    ensures { result ≡ waiting_after (leads_in known.now.table) waiting at inst.now }
{
    if !is_memory(&inst.op) {
        return waiting;
    }
    match led_store_of(known, inst) {
        Some(store) => Some(Waiting { place: at, store }),
        None => None,
    }
}

fn is_memory(op: &Op) -> bool
    ensures { result ≡ is_memory op.now }
{
    match op {
        Op::Load { .. } => true,
        Op::Store { .. } => true,
        _ => false,
    }
}

/// The instruction as a store of one literal through a pointer that leads to a parameter.
fn led_store_of(known: &Known, inst: &Inst) -> Option<LedStore>
    ensures { result ≡ led_store_of (leads_in known.now.table) inst.now }
{
    match (&inst.op, inst.ty, inst.opds.as_slice()) {
        (Op::Store { align }, Ty::Int(_), [Opd::Lit(literal), Opd::Val(pointer)]) => {
            led_store(
                *align,
                literal.lanes.as_lanes().as_slice(),
                *pointer,
                known.lead_of(*pointer),
            )
        }
        _ => None,
    }
}

fn led_store(align: u64, lanes: &[Lane], pointer: Id, lead: Option<(Id, i64)>) -> Option<LedStore>
    ensures { result ≡ led_store align lanes.now pointer lead }
{
    match (lanes, lead) {
        ([lane], Some((base, constant))) => Some(LedStore {
            lane: *lane,
            pointer,
            align,
            base,
            constant,
        }),
        _ => None,
    }
}

/// The store of an earlier store and of an instruction, where they pair.
fn joined_to(
    alloc: Global,
    known: &Known,
    earlier: LedStore,
    inst: &Inst,
) -> Result<Option<Inst>, OutOfMemory>
    ensures { IfOk result (λ both. both ≡ joined_to (leads_in known.now.table) earlier inst.now) }
{
    match led_store_of(known, inst) {
        Some(later) => joined(alloc, known, inst, earlier, later),
        None => Ok(None),
    }
}

/// The store of both, where they are at one parameter and 4 bytes apart.
fn joined(
    alloc: Global,
    known: &Known,
    inst: &Inst,
    earlier: LedStore,
    later: LedStore,
) -> Result<Option<Inst>, OutOfMemory>
    ensures { IfOk result (λ both. both ≡ joined (leads_in known.now.table) inst.now earlier later) }
{
    let lead = known.lead_of(earlier.pointer);
    if is_lead(lead, earlier.base, earlier.constant) && earlier.base.equal(&later.base) {
        joined_by_distance(alloc, inst, earlier, later)
    } else {
        Ok(None)
    }
}

fn is_lead(lead: Option<(Id, i64)>, base: Id, constant: i64) -> bool
    ensures { result ≡ is_lead lead base constant }
{
    match lead {
        Some((b, c)) => b == base && c == constant,
        None => false,
    }
}

fn joined_by_distance(
    alloc: Global,
    inst: &Inst,
    earlier: LedStore,
    later: LedStore,
) -> Result<Option<Inst>, OutOfMemory>
    ensures { IfOk result (λ both. both ≡ joined_by_distance inst.now earlier later) }
{
    if is_next(earlier.constant, later.constant) {
        Ok(Some(both_stored(alloc, inst, earlier, later)?))
    } else if is_next(later.constant, earlier.constant) {
        Ok(Some(both_stored(alloc, inst, later, earlier)?))
    } else {
        Ok(None)
    }
}

/// Whether the second constant is the first and 4, which no wrapped sum is.
fn is_next(low: i64, high: i64) -> bool
    ensures { result ≡ int_eq high (low +ℤ pos 4) }
{
    low.checked_add(4) == Some(high)
}

/// The store of both, in the place of an instruction.
fn both_stored(
    alloc: Global,
    inst: &Inst,
    low: LedStore,
    high: LedStore,
) -> Result<Inst, OutOfMemory>
    ensures { IfOk result (λ both. both ≡ both_stored inst.now low high) }
{
    let mut lanes = Lits::new(alloc);
    lanes.push(low.lane)?;
    lanes.push(high.lane)?;
    let ty = Ty::Row { n: 2, w: 32 };
    let mut opds = Opds::new(alloc);
    opds.push(Opd::Lit(Literal { ty, lanes }))?;
    opds.push(Opd::Val(low.pointer))?;
    Ok(Inst {
        id: inst.id,
        name: inst.name.try_clone(alloc)?,
        ty,
        op: Op::Store { align: low.align },
        opds,
    })
}
