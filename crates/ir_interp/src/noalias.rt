//! Whether `noalias` arguments are alone at a function's start.
//!
//! Nothing here fails. The time grows with the number of `noalias` parameters times that of arguments.

ghost use Rattle.std.specs.Prelude.{◌≡◌, ◌+◌, ◌<◌, not, ◌||◌, Some, ◌++◌, [], drop, length, reverse, slice_get, take};
ghost use Rattle.std.specs.List.{list_any};
ghost use Rattle.ir_model.specs.declared.value.Value.{Value};
ghost use Rattle.ir_model.specs.Run.{names, is_unshared, noalias_holds};

use ir_model::Value;
use ir_types::Params;

/// Whether a pointer names the object.
fn names(object: u32, value: &Value) -> bool
    ensures { result ≡ names object value.now }
{
    match value {
        Value::Ptr(Some((named, _))) => *named == object,
        _ => false,
    }
}

/// Whether one of some pointers names the object.
fn any_names(object: u32, values: &[Value]) -> bool
    ensures { result ≡ list_any (names object) values.now }
{
    for value in values {
        if names(object, value) {
            return true;
        }
    }
    false
}

/// Whether an argument names no object that a global or another argument names; poison names none.
fn is_unshared(globals: usize, value: &Value, before: &[Value], after: &[Value]) -> bool
    ensures { result ≡ is_unshared globals value.now (before.now ++ after.now) }
{
    match value {
        Value::Ptr(Some((object, _))) => {
            globals <= *object as usize && !any_names(*object, before) && !any_names(*object, after)
        }
        _ => true,
    }
}

/// Whether the argument at a place is alone, where its parameter is `noalias`.
fn holds_at(globals: usize, noalias: bool, args: &[Value], at: usize) -> bool
    requires { at < length args.now }
    ensures { (value : Value) → slice_get args.now at ≡ Some value
        → result ≡ (not noalias || is_unshared globals value (reverse (take at args.now) ++ drop (at + 1) args.now)) }
{
    !noalias || is_unshared(globals, &args[at], &args[..at], &args[at + 1..])
}

/// Whether each `noalias` argument is alone (Language Reference, "Parameter Attributes").
pub(crate) fn noalias_holds(globals: usize, params: &Params, args: &[Value]) -> bool
    ensures { result ≡ noalias_holds globals [] params.now args.now }
{
    for i in 0..args.len() {
        let Some(param) = params.get(i) else {
            return true;
        };
        if !holds_at(globals, param.noalias, args, i) {
            return false;
        }
    }
    true
}
