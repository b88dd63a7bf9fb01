//! `Sources`: for each block of a function the blocks with an edge to it.
//!
//! `sources_of` is the entry point; want of memory is the only failure.

ghost use Rattle.std.specs.Prelude.{◌≡◌, [], IfOk, OnOk, map, replicate};
ghost use Rattle.ir_types_check.specs.Links.{choices};
ghost use Rattle.ir_types_check.specs.Typed as typed;

use crate::locals::{Locals, Meaning};
use crate::outline::At;
use crate::scope::Scope;
use ir_line::{Line, Numbered};
use ir_types::{Names, Op};
use std::alloc::{AllocError, Global};
use vx_list::{Seq, Short};

/// The blocks at the other ends of a few edges, mostly two at most.
pub(crate) type Ends = Short<u32, 2>;

/// For each block the blocks with an edge to it, one for each edge.
pub(crate) type Sources = Seq<Ends>;

/// The number of the block that a label names.
pub(crate) fn number_of(locals: &Scope<Meaning>, label: &[u8]) -> u32
    ensures { result ≡ typed.number_of locals.now label.now }
{
    match locals.get(label) {
        Some(Meaning::Block(number)) => *number,
        _ => 0,
    }
}

/// The number of the block of the label at a place.
pub(crate) fn number_at(locals: &Scope<Meaning>, labels: &Names, place: u32) -> u32
    ensures { result ≡ typed.number_at locals.now labels.now place }
{
    match labels.get(place as usize) {
        Some(label) => number_of(locals, label.as_slice()),
        None => number_of(locals, &[]),
    }
}

/// The numbers of the blocks of the labels at some places.
pub(crate) fn numbers_at(
    alloc: Global,
    locals: &Scope<Meaning>,
    labels: &Names,
    places: &[u32],
) -> Result<Ends, AllocError>
    ensures { IfOk result (λ numbers. numbers ≡ map (typed.number_at locals.now labels.now) places.now) }
{
    let mut numbers = Ends::new(alloc);
    for place in places {
        numbers.push(number_at(locals, labels, *place))?;
    }
    Ok(numbers)
}

/// The targets that a branch or a `switch` names in its own line.
pub(crate) fn targets(
    alloc: Global,
    locals: &Scope<Meaning>,
    labels: &Names,
    op: &Op,
) -> Result<Ends, AllocError>
    ensures { IfOk result (λ numbers. numbers ≡ typed.targets locals.now labels.now op.now) }
{
    match op {
        Op::Br { to } => numbers_at(alloc, locals, labels, &[*to]),
        Op::CondBr { yes, no } => numbers_at(alloc, locals, labels, &[*yes, *no]),
        Op::Switch { other, .. } => numbers_at(alloc, locals, labels, &[*other]),
        _ => Ok(Ends::new(alloc)),
    }
}

/// With an edge.
fn add_edge(sources: &mut Sources, alloc: Global, from: u32, to: u32) -> Result<(), AllocError>
    ensures { OnOk result (sources.new ≡ typed.with_edge from sources.old to) }
{
    let to = to as usize;
    if to < sources.len() {
        let mut row = sources.replace(to, Ends::new(alloc));
        row.push(from)?;
        sources.replace(to, row);
    }
    Ok(())
}

/// With edges to some blocks.
fn add_edges(
    sources: &mut Sources,
    alloc: Global,
    from: u32,
    targets: &[u32],
) -> Result<(), AllocError>
    ensures { OnOk result (sources.new ≡ typed.with_edges from sources.old targets.now) }
{
    let mut rest = targets;
    'each: while let [to, after @ ..] = rest {
        add_edge(sources, alloc, from, *to)?;
        rest = after;
    }
    Ok(())
}

/// With the edges of the cases at the front of these lines.
fn add_choices(
    sources: &mut Sources,
    alloc: Global,
    locals: &Scope<Meaning>,
    from: u32,
    lines: &[Numbered],
) -> Result<(), AllocError>
    ensures { OnOk result (sources.new ≡ typed.with_edges from sources.old (typed.choice_targets locals.now (choices lines.now))) }
{
    let mut rest = lines;
    'each: while let [first, after @ ..] = rest {
        let Line::Case { value: _, label } = &first.form else {
            return Ok(());
        };
        add_edge(sources, alloc, from, number_of(locals, label.as_slice()))?;
        rest = after;
    }
    Ok(())
}

/// With the edges of the cases of an operation.
fn add_cases(
    sources: &mut Sources,
    alloc: Global,
    locals: &Scope<Meaning>,
    from: u32,
    op: &Op,
    rest: &[Numbered],
) -> Result<(), AllocError>
    ensures { OnOk result (sources.new ≡ typed.with_edges from sources.old (typed.case_targets locals.now op.now rest.now)) }
{
    match op {
        Op::Switch { .. } => add_choices(sources, alloc, locals, from, rest),
        _ => Ok(()),
    }
}

/// With the edges of a line, after which these follow.
fn add_line(
    sources: &mut Sources,
    alloc: Global,
    locals: &Scope<Meaning>,
    at: At,
    form: &Line,
    rest: &[Numbered],
) -> Result<(), AllocError>
    ensures { OnOk result (sources.new ≡ typed.with_line_edges locals.now at sources.old form.now rest.now) }
{
    match form {
        Line::Stmt(stmt) => {
            let targets = targets(alloc, locals, &stmt.labels, &stmt.op)?;
            add_edges(sources, alloc, at.block_here(), targets.as_slice())?;
            add_cases(sources, alloc, locals, at.block_here(), &stmt.op, rest)
        }
        _ => Ok(()),
    }
}

/// So many blocks without an edge.
#[tactic(auto, using(crate::proofs::Rows::replicate_more))]
fn no_edges(alloc: Global, blocks: u32) -> Result<Sources, AllocError>
    ensures { IfOk result (λ sources. sources ≡ replicate blocks []) }
{
    let mut sources = Sources::with_capacity(alloc, blocks as usize)?;
    for _block in 0..blocks {
        sources.push(Ends::new(alloc))?;
    }
    Ok(sources)
}

/// The sources of a function's blocks.
pub(crate) fn sources_of(
    alloc: Global,
    locals: &Locals,
    body: &[Numbered],
) -> Result<Sources, AllocError>
    ensures { IfOk result (λ sources. sources ≡ typed.sources_of locals.now body.now) }
{
    let mut sources = no_edges(alloc, locals.at.blocks)?;
    let mut at = At::start();
    let mut rest = body;
    'each: while let [first, after @ ..] = rest {
        add_line(&mut sources, alloc, &locals.scope, at, &first.form, after)?;
        at = at.past(&first.form)?;
        rest = after;
    }
    Ok(sources)
}
