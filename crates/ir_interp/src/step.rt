//! One step: what an instruction does to the environment and the memory.
//!
//! A step fails for want of memory alone, and then the state is no longer of use. Undefined behaviour is an answer.

ghost use Rattle.std.specs.Prelude.{◌≡◌, ℕ, Option, List, IfOk};
ghost use Rattle.ir_types.specs.declared.ty.Ty.{Ty};
ghost use Rattle.ir_types.specs.declared.op.Op.TheVariants.{Load, Store, Alloca};
ghost use Rattle.ir_model.specs.Memory.{Memory};
ghost use Rattle.ir_model.specs.Accesses.{value_effect};
ghost use Rattle.ir_model.specs.Step.{result_of, effect_of};
ghost use Rattle.ir_model.specs.Values.{pointer_of};
ghost use Rattle.ir_model.specs.CallFree.{step_of};
ghost use Rattle.ir_interp.specs.Slots.{types_in};
ghost use Rattle.ir_interp.specs.Effects.{effect_in, state_in, state_if};

use crate::accesses::{alloca, typed_load, typed_store};
use crate::addresses::{address_value, inbounds_value, pointer_of};
use crate::environment::{Environment, Types};
use crate::values::{bin_value, cast_value, cmp_value, select_value};
use crate::vectors::{extract_value, insert_value, shuffle_value};
use ir_model::{Memory, Value};
use ir_types::{Elem, Inst, Op, Ty};
use std::alloc::Global;
use vx_list::OutOfMemory;

/// What an instruction came to, beside what it left in the memory.
#[derive(Drop)]
pub(crate) enum Effect {
    /// Undefined behaviour.
    Undefined,
    /// Its result.
    Result(Value),
    /// No result.
    Nothing,
}

/// Where a function stands between two instructions.
#[derive(Drop)]
pub(crate) struct State {
    pub(crate) env: Environment,
    pub(crate) memory: Memory,
}

/// The result of a form without memory: operation, result type, operand types, operand values.
fn result_of(
    alloc: Global,
    op: &Op,
    ty: Ty,
    types: &[Ty],
    values: &[Value],
) -> Result<Option<Value>, OutOfMemory>
    ensures { IfOk result (λ value. value ≡ result_of op.now ty types.now values.now) }
{
    match (op, ty, types) {
        (Op::Bin { op, flags }, _, _) => bin_value(alloc, *op, *flags, ty, values),
        (Op::Icmp { pred }, _, [compared, _]) => cmp_value(alloc, *pred, ty, *compared, values),
        (Op::Cast { op, nneg }, _, [from]) => cast_value(alloc, *op, *nneg, ty, *from, values),
        (Op::Select, _, _) => select_value(alloc, ty, values),
        (Op::Extract, Ty::Int(_), [vector, _]) => Ok(extract_value(*vector, values)),
        (Op::Insert, _, _) => insert_value(alloc, ty, values),
        (Op::Shuffle { mask }, Ty::Row { .. }, [vector, _]) => shuffle_value(
            alloc,
            mask.as_lanes().as_slice(),
            *vector,
            values,
        ),
        (
            Op::Gep {
                elem,
                inbounds: false,
            },
            _,
            _,
        ) => Ok(address_value(*elem, ty, types, values)),
        _ => Ok(None),
    }
}

/// The effect of a result that leaves the memory.
fn value_effect(value: Option<Value>) -> Effect
    ensures { (m : Memory) → effect_in result m ≡ value_effect value m }
{
    match value {
        Some(value) => Effect::Result(value),
        None => Effect::Undefined,
    }
}

/// What an instruction comes to at the values of its operands.
fn effect_of(
    alloc: Global,
    op: &Op,
    ty: Ty,
    types: &[Ty],
    values: &[Value],
    memory: &mut Memory,
) -> Result<Effect, OutOfMemory>
    ensures { IfOk result (λ effect. effect_in effect memory.new ≡ effect_of op.now ty types.now values.now memory.old) }
{
    match op {
        Op::Gep {
            elem,
            inbounds: true,
        } => Ok(value_effect(inbounds_value(*elem, ty, types, values, memory))),
        Op::Load { align } => Ok(load(alloc, *align, ty, values, memory)?),
        Op::Store { align } => Ok(store(alloc, *align, ty, values, memory)?),
        Op::Alloca { elem, .. } => Ok(allocated(alloc, *elem, ty, values, memory)?),
        _ => Ok(value_effect(result_of(alloc, op, ty, types, values)?)),
    }
}

/// What a load comes to.
fn load(
    alloc: Global,
    align: u64,
    ty: Ty,
    values: &[Value],
    memory: &Memory,
) -> Result<Effect, OutOfMemory>
    ensures { IfOk result (λ effect. (types : List Ty) → effect_in effect memory.now ≡ effect_of (Load align) ty types values.now memory.now) }
{
    match values {
        [p] => Ok(value_effect(typed_load(alloc, align, ty, pointer_of(p), memory)?)),
        _ => Ok(Effect::Undefined),
    }
}

/// What a store comes to.
fn store(
    alloc: Global,
    align: u64,
    ty: Ty,
    values: &[Value],
    memory: &mut Memory,
) -> Result<Effect, OutOfMemory>
    ensures { IfOk result (λ effect. (types : List Ty) → effect_in effect memory.new ≡ effect_of (Store align) ty types values.now memory.old) }
{
    match values {
        [value, p] => {
            let defined = typed_store(alloc, align, ty, value, pointer_of(p), memory)?;
            Ok(if defined {
                Effect::Nothing
            } else {
                Effect::Undefined
            })
        }
        _ => Ok(Effect::Undefined),
    }
}

/// What an `alloca` comes to.
fn allocated(
    alloc: Global,
    elem: Elem,
    ty: Ty,
    values: &[Value],
    memory: &mut Memory,
) -> Result<Effect, OutOfMemory>
    ensures { IfOk result (λ effect. (types : List Ty) (align : Option ℕ) → effect_in effect memory.new ≡ effect_of (Alloca elem align) ty types values.now memory.old) }
{
    match (ty, values) {
        (Ty::Ptr, []) => Ok(Effect::Result(alloca(alloc, elem, memory)?)),
        _ => Ok(Effect::Undefined),
    }
}

/// One step, which says whether it is defined.
pub(crate) fn step(
    alloc: Global,
    types: &Types,
    inst: &Inst,
    state: &mut State,
) -> Result<bool, OutOfMemory>
    ensures { IfOk result (λ defined. state_if defined (state_in state.new.env.values.items state.new.memory) ≡ step_of (types_in types.now.types.items) inst.now (state_in state.old.env.values.items state.old.memory)) }
{
    let opds = inst.opds.as_slice();
    let values = state.env.values_of(alloc, opds)?;
    let opd_types = types.types_of(alloc, opds)?;
    let effect = effect_of(
        alloc,
        &inst.op,
        inst.ty,
        opd_types.as_slice(),
        values.as_slice(),
        &mut state.memory,
    )?;
    match effect {
        Effect::Undefined => Ok(false),
        Effect::Result(value) => {
            state.env.set(inst.id, value)?;
            Ok(true)
        }
        Effect::Nothing => Ok(true),
    }
}
