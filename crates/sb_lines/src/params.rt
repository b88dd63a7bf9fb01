//! Parameters by their ids.
//!
//! `params_of` is the entry point: it gathers those of all functions of the profile. Want of memory is the only failure, and what a module is
//! answered in which two parameters have one id.

ghost use Rattle.std.specs.Prelude.{◌≡◌, ℕ, ◌==◌, false, cond, None, Some, OnOk, IfOk, length, option_map};
ghost use Rattle.ir_types.specs.declared.id.Id.{Id};
ghost use Rattle.ir_types.specs.Available.{same_id};
ghost use Rattle.ir_types.specs.IdTable.{found};
ghost use Rattle.vx_view.specs.Answers.{funcs_of, param_in, either};
ghost use Rattle.sb_lines.specs.Params.{spot_of, of_func, spots_in, spots_at};

use crate::copying::func_after;
use ir_types::{Id, IdTable, Item, OutOfMemory, Param, Ty};
use std::alloc::{AllocError, Global};

/// What is kept of a parameter.
#[derive(Clone, Copy, Debug)]
pub struct ParamSpot {
    /// The number of its function.
    pub func: u32,
    pub noalias: bool,
    pub ty: Ty,
}

/// The parameters of functions.
pub(crate) type Params = IdTable<ParamSpot>;

/// What is kept of a parameter of the function of a number.
fn spot_of(func: u32, param: &Param) -> ParamSpot
    ensures { result ≡ spot_of func param.now }
{
    ParamSpot {
        func,
        noalias: param.noalias,
        ty: param.ty,
    }
}

/// Keeps a parameter, whose id none has so far.
fn keep(params: &mut Params, func: u32, param: &Param) -> Result<(), OutOfMemory>
    ensures none { OnOk result (found params.old param.now.id ≡ None) }
    ensures now { OnOk result ((id : Id) → found params.new id ≡ cond (same_id param.now.id id) (Some (spot_of func param.now)) (found params.old id)) }
{
    if params.get(param.id).is_some() {
        return Err(AllocError);
    }
    params.set(param.id, spot_of(func, param))?;
    Ok(())
}

/// Keeps the parameters of a function.
fn keep_all(params: &mut Params, func: u32, list: &[Param]) -> Result<(), OutOfMemory>
    ensures own { OnOk result ((id : Id) → of_func func (found params.new id) ≡ either (of_func func (found params.old id)) (option_map (spot_of func) (param_in id list.now))) }
    ensures others { OnOk result ((id : Id) (k : ℕ) → (func == k) ≡ false → of_func k (found params.new id) ≡ of_func k (found params.old id)) }
{
    for param in list {
        keep(params, func, param)?;
    }
    Ok(())
}

/// Keeps the parameters of an item before which so many functions stand.
fn keep_item(params: &mut Params, number: u32, item: &Item) -> Result<(), OutOfMemory>
    ensures { OnOk result ((id : Id) (k : ℕ) → of_func k (found params.new id) ≡ either (of_func k (found params.old id)) (spots_in id k number item.now)) }
{
    if let Item::Func(func) = item {
        keep_all(params, number, func.params.as_slice())?;
    }
    Ok(())
}

/// The parameters of all functions.
pub(crate) fn params_of(alloc: Global, items: &[Item]) -> Result<Params, OutOfMemory>
    ensures { IfOk result (λ params. (id : Id) (k : ℕ) → of_func k (found params id) ≡ spots_at id k 0 items.now) }
{
    let mut params = Params::new(alloc);
    let mut number = 0;
    for item in items {
        keep_item(&mut params, number, item)?;
        number = func_after(number, item)?;
    }
    Ok(params)
}

/// How many functions of the profile there are.
pub(crate) fn count_funcs(items: &[Item]) -> Result<u32, OutOfMemory>
    ensures { IfOk result (λ number. number ≡ length (funcs_of items.now)) }
{
    let mut left = items;
    let mut number = 0;
    while let [item, rest @ ..] = left {
        left = rest;
        number = func_after(number, item)?;
    }
    Ok(number)
}
