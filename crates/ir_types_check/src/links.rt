//! `Linked` and `Cases`: what the names that a statement uses stand for.
//!
//! The entry points are `link`, for its own line, and `op_with`, its operation with the cases after it. They fail at the first name
//! that is unknown, or for want of memory. As a name is looked up once, `link` tells too whether each operand has the type that is
//! written for it.

ghost use Rattle.std.specs.Prelude.{◌≡◌, ◌+◌, ◌&&◌, [], IfOk, OnOk, map};
ghost use Rattle.std.specs.List.{list_all};
ghost use Rattle.ir_types_check.specs.Answers.{Gives};
ghost use Rattle.ir_types_check.specs.InOrder as order;
ghost use Rattle.ir_types_check.specs.Links as links;
ghost use Rattle.ir_types_check.specs.Scope.{meaning};
ghost use Rattle.ir_types_check.specs.Typed as typed;

use crate::ResolveRefusal;
use crate::context::Context;
use crate::edges::Ends;
use crate::locals::Meaning;
use crate::scope::{Scope, with_sigil};
use crate::tops::Top;
use crate::types::args_fit;
use ir_line::{Arg, Line, Numbered, Stmt, Written};
use ir_types::{Bytes, Id, Literal, Lits, Numbers, Op, Opd, Opds, Ty};
use std::alloc::{AllocError, Global};
use vx_list::TryClone;
use vx_num::Lane;

/// The operands of a line, and the blocks that it names.
#[derive(Drop)]
pub(crate) struct Linked {
    pub(crate) opds: Opds,
    pub(crate) blocks: Ends,
}

/// The cases of a `switch`: numbers, and the block of each.
#[derive(Drop)]
pub(crate) struct Cases {
    pub(crate) values: Lits,
    pub(crate) to: Numbers,
}

/// The number of a place of a function in the module.
fn in_module(base: u32, place: u32) -> Result<u32, AllocError>
    ensures { IfOk result (λ k. k ≡ base + place) }
{
    base.checked_add(place).ok_or(AllocError)
}

/// A value; whether it has this type goes into `fits`.
fn value_of(
    alloc: Global,
    known: &Context,
    line: u32,
    name: &[u8],
    ty: Ty,
    fits: &mut bool,
) -> Result<Opd, ResolveRefusal>
    ensures opd { Gives (λ opd. opd) result (links.value_of known.now.base line name.now (meaning name.now known.now.locals.now)) }
    ensures fits { OnOk result (fits.new ≡ (fits.old && typed.is_value_of ty (meaning name.now known.now.locals.now))) }
{
    match known.locals.get(name) {
        Some(Meaning::Value { place, ty: found }) => {
            let k = in_module(known.base, *place)?;
            *fits = *fits && found.same(ty);
            Ok(Opd::Val(Id { region: 0, k }))
        }
        _ => {
            let name = with_sigil(alloc, b'%', name)?;
            Err(ResolveRefusal::Unknown { line, name })
        }
    }
}

/// A global.
fn global_of(
    alloc: Global,
    tops: &Scope<Top>,
    line: u32,
    name: &[u8],
) -> Result<Opd, ResolveRefusal>
    ensures { Gives (λ opd. opd) result (links.global_of line name.now (meaning name.now tops.now)) }
{
    match tops.get(name) {
        Some(Top::Global(number)) => Ok(Opd::Sym(*number)),
        _ => {
            let name = with_sigil(alloc, b'@', name)?;
            Err(ResolveRefusal::Unknown { line, name })
        }
    }
}

/// A block.
fn block_of(
    alloc: Global,
    locals: &Scope<Meaning>,
    line: u32,
    name: &[u8],
) -> Result<u32, ResolveRefusal>
    ensures { Gives (λ block. block) result (links.block_of line name.now (meaning name.now locals.now)) }
{
    match locals.get(name) {
        Some(Meaning::Block(number)) => Ok(*number),
        _ => {
            let name = with_sigil(alloc, b'%', name)?;
            Err(ResolveRefusal::Unknown { line, name })
        }
    }
}

/// Whether a function of the draft has the name of a callee.
fn callee_of(alloc: Global, tops: &Scope<Top>, line: u32, name: &[u8]) -> Result<(), ResolveRefusal>
    ensures { Gives (λ known. known) result (links.callee_of line name.now (meaning name.now tops.now)) }
{
    match tops.get(name) {
        Some(Top::Function(_)) => Ok(()),
        _ => {
            let name = with_sigil(alloc, b'@', name)?;
            Err(ResolveRefusal::Unknown { line, name })
        }
    }
}

/// The operand that is written; whether it has its written type goes into `fits`.
#[tactic(auto, using(crate::proofs::Binding::and_true))]
fn opd_of(
    alloc: Global,
    known: &Context,
    line: u32,
    arg: &Arg,
    fits: &mut bool,
) -> Result<Opd, ResolveRefusal>
    ensures opd { Gives (λ opd. opd) result (links.opd_of known.now.tops.now known.now.locals.now known.now.base line arg.now.opd) }
    ensures fits { OnOk result (fits.new ≡ (fits.old && typed.arg_fits known.now.locals.now arg.now)) }
{
    match &arg.opd {
        Written::Local(name) => value_of(alloc, known, line, name.as_slice(), arg.ty, fits),
        Written::Symbol(name) => global_of(alloc, known.tops, line, name.as_slice()),
        Written::Lit(literal) => Ok(Opd::Lit(literal.try_clone(alloc)?)),
    }
}

impl Linked {
    /// Nothing.
    pub(crate) fn new(alloc: Global) -> Linked
        ensures { result ≡ record { opds = []; blocks = [] } }
    {
        Linked {
            opds: Opds::new(alloc),
            blocks: Ends::new(alloc),
        }
    }

    /// With the operands that are written; whether all have their written types goes into `fits`.
    #[tactic(auto, using(crate::proofs::Binding::and_true, crate::proofs::Binding::and_more))]
    fn add_opds(
        &mut self,
        alloc: Global,
        known: &Context,
        line: u32,
        args: &[Arg],
        fits: &mut bool,
    ) -> Result<(), ResolveRefusal>
        ensures opds { Gives (λ _. self.new.opds) result (links.opds_onto known.now.tops.now known.now.locals.now known.now.base line self.old.opds args.now) }
        ensures blocks { OnOk result (self.new.blocks ≡ self.old.blocks) }
        ensures fits { OnOk result (fits.new ≡ (fits.old && list_all (typed.arg_fits known.now.locals.now) args.now)) }
    {
        let mut rest = args;
        'each: while let [arg, after @ ..] = rest {
            self.opds.push(opd_of(alloc, known, line, arg, fits)?)?;
            rest = after;
        }
        Ok(())
    }

    /// With the blocks of some labels.
    fn add_blocks(
        &mut self,
        alloc: Global,
        locals: &Scope<Meaning>,
        line: u32,
        labels: &[Bytes],
    ) -> Result<(), ResolveRefusal>
        ensures blocks { Gives (λ _. self.new.blocks) result (links.blocks_onto locals.now line self.old.blocks labels.now) }
        ensures opds { OnOk result (self.new.opds ≡ self.old.opds) }
    {
        let mut rest = labels;
        'each: while let [label, after @ ..] = rest {
            let block = block_of(alloc, locals, line, label.as_slice())?;
            self.blocks.push(block)?;
            rest = after;
        }
        Ok(())
    }

    /// With the operands, then the labels.
    #[tactic(auto, unfolding(crate::specs::Links::in_order))]
    fn add_in_order(
        &mut self,
        alloc: Global,
        known: &Context,
        line: u32,
        stmt: &Stmt,
        fits: &mut bool,
    ) -> Result<(), ResolveRefusal>
        requires { self.old ≡ record { opds = []; blocks = [] } }
        ensures linked { Gives (λ _. self.new) result (links.in_order known.now.tops.now known.now.locals.now known.now.base line stmt.now) }
        ensures fits { OnOk result (fits.new ≡ (fits.old && list_all (typed.arg_fits known.now.locals.now) stmt.now.args)) }
    {
        self.add_opds(alloc, known, line, stmt.args.as_slice(), fits)?;
        self.add_blocks(alloc, known.locals, line, stmt.labels.as_slice())?;
        Ok(())
    }

    /// With one operand and one label.
    #[tactic(auto, unfolding(crate::specs::Links::with_pair))]
    fn add_pair(
        &mut self,
        alloc: Global,
        known: &Context,
        line: u32,
        arg: &Arg,
        label: &[u8],
    ) -> Result<(), ResolveRefusal>
        ensures { Gives (λ _. self.new) result (links.with_pair known.now.tops.now known.now.locals.now known.now.base line self.old arg.now.opd label.now) }
    {
        let mut fits = true;
        let opd = opd_of(alloc, known, line, arg, &mut fits)?;
        let block = block_of(alloc, known.locals, line, label)?;
        self.opds.push(opd)?;
        self.blocks.push(block)?;
        Ok(())
    }

    /// With operands and labels by turns, as many as there are of both.
    #[inline(never)]
    fn add_pairs(
        &mut self,
        alloc: Global,
        known: &Context,
        line: u32,
        args: &[Arg],
        labels: &[Bytes],
    ) -> Result<(), ResolveRefusal>
        ensures { Gives (λ _. self.new) result (links.pairs_onto known.now.tops.now known.now.locals.now known.now.base line self.old args.now labels.now) }
    {
        let mut args = args;
        let mut labels = labels;
        'each: while let [arg, more @ ..] = args {
            let [label, others @ ..] = labels else {
                return Ok(());
            };
            self.add_pair(alloc, known, line, arg, label.as_slice())?;
            args = more;
            labels = others;
        }
        Ok(())
    }

    /// With what the names of a statement stand for; whether all operands have their written types goes into `fits`.
    pub(crate) fn link(
        &mut self,
        alloc: Global,
        known: &Context,
        line: u32,
        stmt: &Stmt,
        fits: &mut bool,
    ) -> Result<(), ResolveRefusal>
        requires { self.old ≡ record { opds = []; blocks = [] } }
        ensures linked { Gives (λ _. self.new) result (links.linked known.now.tops.now known.now.locals.now known.now.base line stmt.now) }
        ensures fits { OnOk result (fits.new ≡ (fits.old && list_all (typed.arg_fits known.now.locals.now) stmt.now.args)) }
    {
        match &stmt.op {
            Op::Phi { .. } => {
                *fits = *fits && args_fit(known.locals, stmt.args.as_slice());
                self.add_pairs(
                    alloc,
                    known,
                    line,
                    stmt.args.as_slice(),
                    stmt.labels.as_slice(),
                )
            }
            Op::Call(site) => {
                callee_of(alloc, known.tops, line, site.get().callee.as_slice())?;
                self.add_in_order(alloc, known, line, stmt, fits)
            }
            _ => self.add_in_order(alloc, known, line, stmt, fits),
        }
    }
}

/// The lane of a case's literal.
pub(crate) fn lane_of(literal: &Literal) -> Lane
    ensures { result ≡ links.lane_of literal.now }
{
    match literal.lanes.as_lanes().as_slice() {
        [] => None,
        [lane, ..] => *lane,
    }
}

impl Cases {
    /// None.
    fn new(alloc: Global) -> Cases
        ensures { result ≡ record { values = []; to = [] } }
    {
        Cases {
            values: Lits::new(alloc),
            to: Numbers::new(alloc),
        }
    }

    /// With one more.
    #[tactic(auto, unfolding(crate::specs::Links::with_choice))]
    fn add(
        &mut self,
        alloc: Global,
        locals: &Scope<Meaning>,
        line: u32,
        value: &Literal,
        label: &[u8],
    ) -> Result<(), ResolveRefusal>
        ensures { Gives (λ _. self.new) result (links.with_choice locals.now self.old (record { line = line; value = value.now; label = label.now })) }
    {
        let block = block_of(alloc, locals, line, label)?;
        self.values.push(lane_of(value))?;
        self.to.push(block)?;
        Ok(())
    }
}

/// The cases at the front of these lines.
#[inline(never)]
fn front_cases(
    alloc: Global,
    locals: &Scope<Meaning>,
    lines: &[Numbered],
) -> Result<Cases, ResolveRefusal>
    ensures { Gives (λ cases. cases) result (links.cases_onto locals.now (record { values = []; to = [] }) (links.choices lines.now)) }
{
    let mut cases = Cases::new(alloc);
    let mut rest = lines;
    'each: while let [first, after @ ..] = rest {
        let Line::Case { value, label } = &first.form else {
            return Ok(cases);
        };
        cases.add(alloc, locals, first.line, value, label.as_slice())?;
        rest = after;
    }
    Ok(cases)
}

/// The block at a place among the labels.
fn block_at(blocks: &Ends, place: u32) -> u32
    ensures { result ≡ links.block_at blocks.now place }
{
    match blocks.get(place as usize) {
        Some(block) => *block,
        None => 0,
    }
}

/// The blocks at some places.
fn blocks_at(alloc: Global, blocks: &Ends, places: &[u32]) -> Result<Numbers, AllocError>
    ensures { IfOk result (λ found. found ≡ map (links.block_at blocks.now) places.now) }
{
    let mut found = Numbers::new(alloc);
    for place in places {
        found.push(block_at(blocks, *place))?;
    }
    Ok(found)
}

/// The operation with blocks in place of the places of labels, and with its cases, where these lines follow it.
pub(crate) fn op_with(
    alloc: Global,
    locals: &Scope<Meaning>,
    blocks: &Ends,
    op: &Op,
    rest: &[Numbered],
) -> Result<Op, ResolveRefusal>
    ensures { Gives (λ whole. whole) result (order.op_with locals.now blocks.now op.now rest.now) }
{
    match op {
        Op::Phi { blocks: places } => Ok(Op::Phi {
            blocks: blocks_at(alloc, blocks, places.as_slice())?,
        }),
        Op::Br { to } => Ok(Op::Br {
            to: block_at(blocks, *to),
        }),
        Op::CondBr { yes, no } => Ok(Op::CondBr {
            yes: block_at(blocks, *yes),
            no: block_at(blocks, *no),
        }),
        Op::Switch { other, .. } => {
            let Cases { values, to } = front_cases(alloc, locals, rest)?;
            Ok(Op::Switch {
                other: block_at(blocks, *other),
                cases: values,
                to,
            })
        }
        _ => Ok(op.try_clone(alloc)?),
    }
}
