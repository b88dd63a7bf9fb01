//! The names of a function: what is shown of each value and of each block.
//!
//! `Names::of` gathers them once a function; a look-up by id is then one in an index. Want of memory is the only failure.
//! The locals stand in order of the text, and the index has the place of each id's last. Written names stay in the function, and
//! numbers are written out only where they are shown.

ghost use Rattle.std.specs.Prelude.{◌≡◌, ◌++◌, ◌∷◌, List, IfOk, OnOk, slice_get};
ghost use Rattle.std.specs.Option.{option_copied};
ghost use Rattle.ir_print.specs.Names as names;
ghost use Rattle.ir_print.specs.Names.{Named};

use crate::form::Shown;
use crate::index::{Index, index_of};
use ir_types::{Block, Bytes, Func, Id, Inst, Op, Param, Ty};
use std::alloc::{AllocError, Global};
use std::marker::Model;

/// A value with what is shown of it.
#[derive(Drop)]
pub struct Local<'a> {
    pub id: Id,
    pub ty: Ty,
    /// Its written name, or its number, without the `%`.
    pub text: Shown<'a>,
}

/// The names of one function.
#[derive(Drop)]
pub struct Names<'a> {
    locals: Vec<Local<'a>>,
    labels: Vec<Shown<'a>>,
    index: Index,
}

impl<'a> Model for Names<'a> {
    ghost use Rattle.ir_print.specs.Names.{Names as Shown};

    ghost Value = { Shown };

    ghost use Rattle.ir_print.specs.Index.{IsIndex};

    ghost view = { λ n. record { locals = n.locals.items; labels = n.labels.items } };

    ghost invariant = { λ n. IsIndex n.index n.locals.items };
}

/// The next number, and what is shown of all values and blocks so far.
#[derive(Drop)]
struct Numbering<'a> {
    next: u64,
    locals: Vec<Local<'a>>,
    labels: Vec<Shown<'a>>,
}

/// What is shown where `n` is the next number.
fn shown<'a>(n: u64, name: &'a Option<Bytes>) -> Shown<'a>
    ensures { result ≡ names.shown n name.now }
{
    match name {
        Some(name) => Shown::written(name.as_slice()),
        None => Shown::number(n),
    }
}

/// The number after `n`. That there is one is a matter of memory: each number is of a value or a block that is there.
fn counted(n: u64, name: &Option<Bytes>) -> Result<u64, AllocError>
    ensures { IfOk result (λ after. after ≡ names.counted n name.now) }
{
    match name {
        Some(_) => Ok(n),
        None => n.checked_add(1).ok_or(AllocError),
    }
}

impl<'a> Numbering<'a> {
    /// Adds a value.
    fn add_value(&mut self, id: Id, ty: Ty, name: &'a Option<Bytes>) -> Result<(), AllocError>
        ensures locals { OnOk result ((rest : List Named) →
            self.new.locals.items ++ names.locals_from self.new.next rest
            ≡ self.old.locals.items ++ names.locals_from self.old.next (names.Named.Value id ty name.now ∷ rest)) }
        ensures labels { OnOk result ((rest : List Named) →
            self.new.labels.items ++ names.labels_from self.new.next rest
            ≡ self.old.labels.items ++ names.labels_from self.old.next (names.Named.Value id ty name.now ∷ rest)) }
    {
        let text = shown(self.next, name);
        let next = counted(self.next, name)?;
        self.locals.push(Local { id, ty, text })?;
        self.next = next;
        Ok(())
    }

    /// Adds a block.
    fn add_label(&mut self, name: &'a Option<Bytes>) -> Result<(), AllocError>
        ensures locals { OnOk result ((rest : List Named) →
            self.new.locals.items ++ names.locals_from self.new.next rest
            ≡ self.old.locals.items ++ names.locals_from self.old.next (names.Named.Label name.now ∷ rest)) }
        ensures labels { OnOk result ((rest : List Named) →
            self.new.labels.items ++ names.labels_from self.new.next rest
            ≡ self.old.labels.items ++ names.labels_from self.old.next (names.Named.Label name.now ∷ rest)) }
    {
        let text = shown(self.next, name);
        let next = counted(self.next, name)?;
        self.labels.push(text)?;
        self.next = next;
        Ok(())
    }

    /// Adds parameters.
    fn add_params(&mut self, params: &'a [Param]) -> Result<(), AllocError>
        ensures locals { OnOk result ((rest : List Named) →
            self.new.locals.items ++ names.locals_from self.new.next rest
            ≡ self.old.locals.items ++ names.locals_from self.old.next (names.params_named params.now rest)) }
        ensures labels { OnOk result ((rest : List Named) →
            self.new.labels.items ++ names.labels_from self.new.next rest
            ≡ self.old.labels.items ++ names.labels_from self.old.next (names.params_named params.now rest)) }
    {
        for param in params {
            self.add_value(param.id, param.ty, &param.name)?;
        }
        Ok(())
    }

    /// Adds an instruction, which names something where it has a result.
    fn add_inst(&mut self, inst: &'a Inst) -> Result<(), AllocError>
        ensures locals { OnOk result ((rest : List Named) →
            self.new.locals.items ++ names.locals_from self.new.next rest
            ≡ self.old.locals.items ++ names.locals_from self.old.next (names.result_named (names.is_void inst.now.ty) (names.is_store inst.now.op) inst.now rest)) }
        ensures labels { OnOk result ((rest : List Named) →
            self.new.labels.items ++ names.labels_from self.new.next rest
            ≡ self.old.labels.items ++ names.labels_from self.old.next (names.result_named (names.is_void inst.now.ty) (names.is_store inst.now.op) inst.now rest)) }
    {
        match (inst.ty, &inst.op) {
            (Ty::Void, _) => Ok(()),
            (_, Op::Store { .. }) => Ok(()),
            _ => self.add_value(inst.id, inst.ty, &inst.name),
        }
    }

    /// Adds the instructions of a block.
    fn add_insts(&mut self, insts: &'a [Inst]) -> Result<(), AllocError>
        ensures locals { OnOk result ((rest : List Named) →
            self.new.locals.items ++ names.locals_from self.new.next rest
            ≡ self.old.locals.items ++ names.locals_from self.old.next (names.insts_named insts.now rest)) }
        ensures labels { OnOk result ((rest : List Named) →
            self.new.labels.items ++ names.labels_from self.new.next rest
            ≡ self.old.labels.items ++ names.labels_from self.old.next (names.insts_named insts.now rest)) }
    {
        for inst in insts {
            self.add_inst(inst)?;
        }
        Ok(())
    }

    /// Adds blocks with their instructions, after which nothing follows.
    fn add_blocks(&mut self, blocks: &'a [Block]) -> Result<(), AllocError>
        ensures locals { OnOk result (self.new.locals.items ≡ self.old.locals.items ++ names.locals_from self.old.next (names.blocks_named blocks.now)) }
        ensures labels { OnOk result (self.new.labels.items ≡ self.old.labels.items ++ names.labels_from self.old.next (names.blocks_named blocks.now)) }
    {
        for block in blocks {
            self.add_label(&block.name)?;
            self.add_insts(block.insts.as_slice())?;
        }
        Ok(())
    }
}

impl<'a> Names<'a> {
    /// The names of a function.
    pub(crate) fn of(alloc: Global, func: &'a Func) -> Result<Names<'a>, AllocError>
        ensures { IfOk result (λ shown. shown ≡ names.names_of func.now) }
    {
        let mut numbering = Numbering {
            next: 0,
            locals: Vec::new(alloc),
            labels: Vec::new(alloc),
        };
        numbering.add_params(func.params.as_slice())?;
        numbering.add_blocks(func.blocks.as_slice())?;
        let Numbering {
            next: _,
            locals,
            labels,
        } = numbering;
        let index = index_of(alloc, locals.as_slice())?;
        Ok(Names {
            locals,
            labels,
            index,
        })
    }

    /// The value of an id.
    #[inline(always)]
    pub(crate) fn local(&self, id: Id) -> Option<&Local<'a>>
        ensures { option_copied result ≡ names.local_of id self.now.locals }
    {
        let at = self.index.get(id)?;
        self.locals.get(at)
    }

    /// What is shown of a block.
    pub(crate) fn label(&self, block: u32) -> Option<&Shown<'a>>
        ensures { option_copied result ≡ slice_get self.now.labels block }
    {
        self.labels.get(block as usize)
    }
}
