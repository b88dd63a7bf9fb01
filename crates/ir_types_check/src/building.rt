//! `Built`: the blocks of a function so far; `Done`: the items of a module so far.
//!
//! The entry points add one item to `Done`. They fail at the first name that is unknown, or for want of memory, and then what was
//! done so far is no more of use. The first line that is ill typed is kept aside.

ghost use Rattle.std.specs.Prelude.{◌≡◌, ◌++◌, ◌&&◌, None, Some, Ok, IfOk, OnOk, length};
ghost use Rattle.std.specs.List.{list_all};
ghost use Rattle.ir_draft.specs.declared.line.Line.TheVariants.{Stmt as StmtLine};
ghost use Rattle.ir_types_check.specs.Answers.{Gives};
ghost use Rattle.ir_types_check.specs.Blocks as build;
ghost use Rattle.ir_types_check.specs.InOrder.{told, first_told};
ghost use Rattle.ir_types_check.specs.Locals.{locals_of};
ghost use Rattle.ir_types_check.specs.Outline.{start};
ghost use Rattle.ir_types_check.specs.Resolved as resolved;
ghost use Rattle.ir_types_check.specs.Typed as typed;

use crate::ResolveRefusal;
use crate::context::{Context, Spot};
use crate::edges::sources_of;
use crate::links::{Linked, op_with};
use crate::locals::Locals;
use crate::outline::{At, count_of, is_terminator, one_more, written, written_name};
use crate::scope::{Scope, copied};
use crate::tops::Top;
use crate::typed::judge;
use ir_line::{Head, Line, Numbered, Stmt};
use ir_types::{Block, Blocks, Bytes, Func, Id, Inst, Insts, Item, Items, Numbers, Param, Params};
use std::alloc::{AllocError, Global};
use std::mem;

/// The blocks of a function so far.
#[derive(Drop)]
pub(crate) struct Built {
    /// Those that are closed.
    pub(crate) blocks: Blocks,
    /// The one that is open.
    pub(crate) current: Option<Block>,
    /// The line of each parameter and instruction of the module so far.
    pub(crate) lines: Numbers,
}

/// The items of a module so far.
#[derive(Drop)]
pub(crate) struct Done {
    pub(crate) items: Items,
    /// The line of each parameter and instruction so far.
    pub(crate) lines: Numbers,
}

/// The id with this number in the module.
fn id_of(k: u32) -> Id
    ensures { result ≡ build.id_of k }
{
    Id { region: 0, k }
}

/// The instruction that a statement is, where these lines follow it; whether its operands have their written types goes into `fits`.
#[tactic(auto, unfolding(crate::specs::Blocks::inst_of))]
fn inst_of(
    alloc: Global,
    known: &Context,
    spot: &Spot,
    k: u32,
    stmt: &Stmt,
    fits: &mut bool,
) -> Result<Inst, ResolveRefusal>
    ensures inst { Gives (λ inst. inst) result (build.inst_of known.now.tops.now known.now.locals.now known.now.base k spot.now.line stmt.now spot.now.rest.now) }
    ensures fits { OnOk result (fits.new ≡ (fits.old && list_all (typed.arg_fits known.now.locals.now) stmt.now.args)) }
{
    let mut linked = Linked::new(alloc);
    linked.link(alloc, known, spot.line, stmt, fits)?;
    let op = op_with(alloc, known.locals, &linked.blocks, &stmt.op, spot.rest)?;
    let name = written(alloc, &stmt.result)?;
    Ok(Inst {
        id: id_of(k),
        name,
        ty: stmt.ty,
        op,
        opds: linked.opds,
    })
}

/// How many instructions stand at the front of these lines before the block ends.
fn insts_ahead(lines: &[Numbered]) -> usize {
    let mut count = 0usize;
    for line in lines {
        match &line.form {
            Line::Label(_) => return count,
            Line::Stmt(stmt) => {
                count = count.saturating_add(1);
                if is_terminator(&stmt.op) {
                    return count;
                }
            }
            _ => {}
        }
    }
    count
}

/// Adds an instruction to the open block; to an unnamed one, with room for these lines, where there is none.
fn push_inst(
    alloc: Global,
    current: &mut Option<Block>,
    inst: Inst,
    rest: &[Numbered],
) -> Result<(), AllocError>
    ensures { OnOk result (current.new ≡ Some (build.with_last (build.open_block current.old) inst)) }
{
    if let Some(block) = current {
        block.insts.push(inst)?;
        return Ok(());
    }
    let room = if is_terminator(&inst.op) {
        1
    } else {
        insts_ahead(rest).saturating_add(1)
    };
    let mut insts = Insts::with_capacity(alloc, room)?;
    insts.push(inst)?;
    *current = Some(Block { name: None, insts });
    Ok(())
}

impl Built {
    /// Adds an instruction, which closes its block or leaves it open.
    #[tactic(auto, unfolding(crate::specs::Blocks::with_inst))]
    fn add_inst(
        &mut self,
        alloc: Global,
        line: u32,
        inst: Inst,
        rest: &[Numbered],
    ) -> Result<(), AllocError>
        ensures { OnOk result (self.new ≡ build.with_inst line self.old inst) }
    {
        self.lines.push(line)?;
        let ends = is_terminator(&inst.op);
        push_inst(alloc, &mut self.current, inst, rest)?;
        if ends {
            self.close()?;
        }
        Ok(())
    }

    /// Closes the open block, if there is one.
    fn close(&mut self) -> Result<(), AllocError>
        ensures { OnOk result (self.new ≡ record { blocks = build.closed self.old.blocks self.old.current; current = None; lines = self.old.lines }) }
    {
        if let Some(block) = self.current.take() {
            self.blocks.push(block)?;
        }
        Ok(())
    }

    /// Adds a label, which opens a block.
    #[tactic(auto, unfolding(crate::specs::Blocks::labelled))]
    fn add_label(
        &mut self,
        alloc: Global,
        name: &Bytes,
        rest: &[Numbered],
    ) -> Result<(), AllocError>
        ensures { OnOk result (self.new ≡ build.labelled self.old name.now) }
    {
        self.close()?;
        let name = written_name(alloc, name)?;
        let insts = Insts::with_capacity(alloc, insts_ahead(rest))?;
        self.current = Some(Block { name, insts });
        Ok(())
    }

    /// Adds a statement, and keeps its line where that is the first that is ill typed.
    #[tactic(auto, unfolding(crate::specs::Blocks::with_statement))]
    fn add_statement(
        &mut self,
        alloc: Global,
        known: &Context,
        spot: &Spot,
        stmt: &Stmt,
        ill: &mut Option<u32>,
    ) -> Result<(), ResolveRefusal>
        ensures built { Gives (λ _. self.new) result (build.with_statement known.now.tops.now known.now.locals.now known.now.base spot.now.line self.old stmt.now spot.now.rest.now) }
        ensures typed { OnOk result (told ill.new ≡ first_told ill.old (typed.line_typed known.now.tops.now known.now.locals.now known.now.ret known.now.sources.now spot.now.at spot.now.line (StmtLine stmt.now) spot.now.rest.now)) }
    {
        let k = count_of(self.lines.len())?;
        let mut fits = true;
        let inst = inst_of(alloc, known, spot, k, stmt, &mut fits)?;
        self.add_inst(alloc, spot.line, inst, spot.rest)?;
        judge(alloc, known, spot, stmt, fits, ill)?;
        Ok(())
    }

    /// Adds a line of the body.
    fn add_line(
        &mut self,
        alloc: Global,
        known: &Context,
        spot: &Spot,
        form: &Line,
        ill: &mut Option<u32>,
    ) -> Result<(), ResolveRefusal>
        ensures built { Gives (λ _. self.new) result (build.built_line known.now.tops.now known.now.locals.now known.now.base spot.now.line self.old form.now spot.now.rest.now) }
        ensures typed { OnOk result (told ill.new ≡ first_told ill.old (typed.line_typed known.now.tops.now known.now.locals.now known.now.ret known.now.sources.now spot.now.at spot.now.line form.now spot.now.rest.now)) }
    {
        match form {
            Line::Label(name) => {
                self.add_label(alloc, name, spot.rest)?;
                Ok(())
            }
            Line::Stmt(stmt) => self.add_statement(alloc, known, spot, stmt, ill),
            _ => Ok(()),
        }
    }

    /// Adds all lines of the body.
    fn add_lines(
        &mut self,
        alloc: Global,
        known: &Context,
        body: &[Numbered],
        ill: &mut Option<u32>,
    ) -> Result<(), ResolveRefusal>
        ensures built { Gives (λ _. self.new) result (build.built_lines known.now.tops.now known.now.locals.now known.now.base self.old body.now) }
        ensures typed { OnOk result (told ill.new ≡ first_told ill.old (typed.lines_typed known.now.tops.now known.now.locals.now known.now.ret known.now.sources.now start body.now)) }
    {
        let mut at = At::start();
        let mut rest = body;
        'each: while let [first, after @ ..] = rest {
            let spot = Spot {
                at,
                line: first.line,
                rest: after,
            };
            self.add_line(alloc, known, &spot, &first.form, ill)?;
            at = at.past(&first.form)?;
            rest = after;
        }
        Ok(())
    }
}

/// A parameter with its id.
fn param_of(alloc: Global, k: u32, param: &Param) -> Result<Param, AllocError>
    ensures { IfOk result (λ copy. copy ≡ build.param_of k param.now) }
{
    Ok(Param {
        id: id_of(k),
        name: written(alloc, &param.name)?,
        ty: param.ty,
        attrs: copied(alloc, param.attrs.as_slice())?,
        noalias: param.noalias,
    })
}

/// The parameters with their ids, from a number on.
fn params_from(alloc: Global, base: u32, params: &[Param]) -> Result<Params, AllocError>
    ensures { IfOk result (λ copies. copies ≡ build.params_from base params.now) }
{
    let mut copies = Params::with_capacity(alloc, params.len())?;
    let mut k = base;
    let mut rest = params;
    'each: while let [param, after @ ..] = rest {
        let copy = param_of(alloc, k, param)?;
        copies.push(copy)?;
        k = one_more(k)?;
        rest = after;
    }
    Ok(copies)
}

/// Adds the header's line for each parameter.
fn add_param_lines(lines: &mut Numbers, line: u32, params: &[Param]) -> Result<(), AllocError>
    ensures { OnOk result (lines.new ≡ build.param_lines line lines.old params.now) }
{
    let mut rest = params;
    'each: while let [_, after @ ..] = rest {
        lines.push(line)?;
        rest = after;
    }
    Ok(())
}

/// A function of these blocks.
fn func_of(alloc: Global, base: u32, head: &Head, blocks: Blocks) -> Result<Func, AllocError>
    ensures { IfOk result (λ func. func ≡ build.func_of base head.now blocks) }
{
    let before = copied(alloc, head.before.as_slice())?;
    let name = copied(alloc, head.name.as_slice())?;
    let params = params_from(alloc, base, head.params.as_slice())?;
    let after = copied(alloc, head.after.as_slice())?;
    Ok(Func {
        before,
        ret: head.ret,
        name,
        params,
        after,
        blocks,
    })
}

/// A function of a draft.
#[derive(Clone, Copy)]
pub(crate) struct Function<'a> {
    /// The number of the line of its header.
    pub(crate) line: u32,
    /// Its header.
    pub(crate) head: &'a Head,
    /// The lines after its header.
    pub(crate) body: &'a [Numbered],
}

/// The blocks of a function, after these lines of the module's ids.
#[tactic(auto, unfolding(crate::specs::Blocks::built_of))]
fn built_of(
    alloc: Global,
    known: &Context,
    lines: Numbers,
    func: Function,
    ill: &mut Option<u32>,
) -> Result<Built, ResolveRefusal>
    requires { known.now.base ≡ length lines }
    ensures built { Gives (λ after. after) result (build.built_of known.now.tops.now known.now.locals.now func.entry.line lines func.entry.head.now func.entry.body.now) }
    ensures typed { OnOk result (told ill.new ≡ first_told ill.old (typed.lines_typed known.now.tops.now known.now.locals.now known.now.ret known.now.sources.now start func.entry.body.now)) }
{
    let mut lines = lines;
    add_param_lines(&mut lines, func.line, func.head.params.as_slice())?;
    let mut built = Built {
        blocks: Blocks::with_capacity(alloc, known.sources.len())?,
        current: None,
        lines,
    };
    built.add_lines(alloc, known, func.body, ill)?;
    Ok(built)
}

impl Done {
    /// Adds an item that is kept as it is.
    #[tactic(auto, unfolding(crate::specs::Resolved::with_kept))]
    pub(crate) fn add_kept(&mut self, item: Item) -> Result<(), AllocError>
        ensures { OnOk result (self.new ≡ resolved.with_kept self.old item) }
    {
        self.items.push(item)
    }

    /// Adds a function, whose names these are, and keeps the first line that is ill typed.
    #[tactic(auto, unfolding(crate::specs::Resolved::resolved_function, crate::specs::Resolved::with_built, crate::specs::Typed::function_typed))]
    pub(crate) fn add_function(
        &mut self,
        alloc: Global,
        tops: &Scope<'static, Top>,
        own: &Locals,
        func: Function,
        ill: &mut Option<u32>,
    ) -> Result<(), ResolveRefusal>
        requires { locals_of func.line func.head.now func.body.now ≡ Ok own.now }
        ensures built { Gives (λ _. self.new) result (resolved.resolved_function tops.now func.entry.line self.old func.entry.head.now func.entry.body.now) }
        ensures typed { OnOk result (told ill.new ≡ first_told ill.old (typed.function_typed tops.now func.entry.line func.entry.head.now func.entry.body.now)) }
    {
        let sources = sources_of(alloc, own, func.body)?;
        let lines = mem::replace(&mut self.lines, Numbers::new(alloc));
        let known = Context {
            tops,
            locals: &own.scope,
            sources: &sources,
            ret: func.head.ret,
            base: count_of(lines.len())?,
        };
        let mut built = built_of(alloc, &known, lines, func, ill)?;
        built.close()?;
        let made = func_of(alloc, known.base, func.head, built.blocks)?;
        self.items.push(Item::Func(made))?;
        self.lines = built.lines;
        Ok(())
    }
}
