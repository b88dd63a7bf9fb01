//! The values and the types of a function's ids, and those of operands.
//!
//! What an id was given last is its value; an id that was given none is a poison pointer. The first parameter or instruction that
//! has an id gives its type; an id of none has no type. What fails fails for want of memory alone.

ghost use Rattle.std.specs.Prelude.{◌≡◌, IfOk, OnOk, map};
ghost use Rattle.ir_types.specs.declared.id.Id.{Id};
ghost use Rattle.ir_types.specs.declared.ty.Ty.{Ty};
ghost use Rattle.ir_model.specs.Values.{literal_value, value_of, type_of, with_value};
ghost use Rattle.ir_model.specs.Run.{types_of, typed_params, typed_insts, typed_blocks, start_env};
ghost use Rattle.ir_interp.specs.Slots.{over, env_in, types_in};

use crate::slots::Slots;
use ir_model::{Value, Values};
use ir_types::{Block, Func, Id, Inst, Literal, Opd, Param, Ty};
use std::alloc::Global;
use vx_list::{OutOfMemory, TryClone};

/// The values of ids.
#[derive(Drop)]
pub(crate) struct Environment {
    values: Slots<Value>,
}

impl Environment {
    /// The environment at the start of a function: each parameter has its argument.
    pub(crate) fn start(
        alloc: Global,
        params: &[Param],
        args: &Values,
    ) -> Result<Environment, OutOfMemory>
        ensures { IfOk result (λ env. env_in env.values.items ≡ start_env params.now args.now) }
    {
        let mut values = Slots::new(alloc);
        for i in 0..params.len() {
            let Some(value) = args.get(i) else {
                return Ok(Environment { values });
            };
            values.add(params[i].id, value.try_clone(alloc)?)?;
        }
        Ok(Environment { values })
    }

    /// Gives an id a value.
    pub(crate) fn set(&mut self, id: Id, value: Value) -> Result<(), OutOfMemory>
        ensures { OnOk result (env_in self.new.values.items ≡ with_value (env_in self.old.values.items) id value) }
    {
        self.values.set(id, value)?;
        Ok(())
    }

    /// The value of an operand; a global's is the pointer to the start of its object.
    pub(crate) fn value_of(&self, alloc: Global, opd: &Opd) -> Result<Value, OutOfMemory>
        ensures { IfOk result (λ value. value ≡ value_of (env_in self.now.values.items) opd.now) }
    {
        match opd {
            Opd::Val(id) => match self.values.get(*id) {
                Some(value) => value.try_clone(alloc),
                None => Ok(Value::Ptr(None)),
            },
            Opd::Lit(literal) => literal_value(alloc, literal),
            Opd::Sym(global) => Ok(Value::Ptr(Some((*global, 0)))),
        }
    }

    /// The values of operands, in order.
    pub(crate) fn values_of(&self, alloc: Global, opds: &[Opd]) -> Result<Vec<Value>, OutOfMemory>
        ensures { IfOk result (λ values. values.items ≡ map (value_of (env_in self.now.values.items)) opds.now) }
    {
        let mut values = Vec::with_capacity(alloc, opds.len())?;
        for opd in opds {
            values.push(self.value_of(alloc, opd)?)?;
        }
        Ok(values)
    }
}

/// The value of a literal.
fn literal_value(alloc: Global, literal: &Literal) -> Result<Value, OutOfMemory>
    ensures { IfOk result (λ value. value ≡ literal_value literal.now.ty literal.now.lanes) }
{
    match (literal.ty, literal.lanes.as_lanes().as_slice()) {
        (Ty::Int(_), [lane]) => Ok(Value::Lane(*lane)),
        (Ty::Row { .. }, _) => Ok(Value::Row(literal.lanes.try_clone(alloc)?)),
        _ => Ok(Value::Ptr(None)),
    }
}

/// The types of ids.
#[derive(Drop)]
pub(crate) struct Types {
    types: Slots<Ty>,
}

impl Types {
    /// The types of the ids of a function.
    pub(crate) fn of(alloc: Global, func: &Func) -> Result<Types, OutOfMemory>
        ensures { IfOk result (λ types. types_in types.types.items ≡ types_of func.now) }
    {
        let mut types = Types {
            types: Slots::new(alloc),
        };
        types.add_params(func.params.as_slice())?;
        types.add_blocks(func.blocks.as_slice())?;
        Ok(types)
    }

    /// Adds the types of parameters.
    fn add_params(&mut self, params: &[Param]) -> Result<(), OutOfMemory>
        ensures { OnOk result ((rest : Id → Ty) → over self.new.types.items rest ≡ over self.old.types.items (typed_params params.now rest)) }
    {
        for param in params {
            self.types.add(param.id, param.ty)?;
        }
        Ok(())
    }

    /// Adds the types of blocks.
    fn add_blocks(&mut self, blocks: &[Block]) -> Result<(), OutOfMemory>
        ensures { OnOk result (types_in self.new.types.items ≡ over self.old.types.items (typed_blocks blocks.now)) }
    {
        for block in blocks {
            self.add_insts(block.insts.as_slice())?;
        }
        Ok(())
    }

    /// Adds the types of instructions.
    fn add_insts(&mut self, insts: &[Inst]) -> Result<(), OutOfMemory>
        ensures { OnOk result ((rest : Id → Ty) → over self.new.types.items rest ≡ over self.old.types.items (typed_insts insts.now rest)) }
    {
        for inst in insts {
            self.types.add(inst.id, inst.ty)?;
        }
        Ok(())
    }

    /// The type of an operand.
    pub(crate) fn type_of(&self, opd: &Opd) -> Ty
        ensures { result ≡ type_of (types_in self.now.types.items) opd.now }
    {
        match opd {
            Opd::Val(id) => match self.types.get(*id) {
                Some(ty) => *ty,
                None => Ty::Void,
            },
            Opd::Lit(literal) => literal.ty,
            Opd::Sym(_) => Ty::Ptr,
        }
    }

    /// The types of operands, in order.
    pub(crate) fn types_of(&self, alloc: Global, opds: &[Opd]) -> Result<Vec<Ty>, OutOfMemory>
        ensures { IfOk result (λ types. types.items ≡ map (type_of (types_in self.now.types.items)) opds.now) }
    {
        let mut types = Vec::with_capacity(alloc, opds.len())?;
        for opd in opds {
            types.push(self.type_of(opd))?;
        }
        Ok(types)
    }
}
