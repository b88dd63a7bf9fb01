//! The text of an outcome: one line, and then a line for each object.
//!
//! `outcome_text` is the one entry point; want of memory is its only failure. What is written is put after what is there.

ghost use Rattle.std.specs.Prelude.{◌≡◌, ◌-◌, ◌^◌, ◌≤◌, ◌++◌, IfOk, OnOk, codes, nat_eq, nat_lt, if◌then◌else◌, false, suc, ℤ};
ghost use Rattle.std.specs.Fmt.{decimal};
ghost use Rattle.vec_words.specs.Outcomes as outcomes;

use crate::hex::push_bytes;
use ir_model::{Object, Outcome, Value};
use ir_types::{OutOfMemory, Ty};
use std::alloc::{AllocError, Global};
use vx_digits::{push_decimal, push_lane};
use vx_num::Lane;

/// Lanes after the first.
fn push_more_lanes(out: &mut Vec<u8>, w: u8, lanes: &[Lane]) -> Result<(), AllocError>
    ensures { OnOk result (out.new.items ≡ out.old.items ++ outcomes.more_lanes_text w lanes.now) }
{
    for lane in lanes {
        out.extend_from_slice(b", ")?;
        push_lane(out, w, *lane)?;
    }
    Ok(())
}

/// Lanes with commas between.
fn push_lanes(out: &mut Vec<u8>, w: u8, lanes: &[Lane]) -> Result<(), AllocError>
    ensures { OnOk result (out.new.items ≡ out.old.items ++ outcomes.lanes_text w lanes.now) }
{
    match lanes {
        [] => Ok(()),
        [first, rest @ ..] => {
            push_lane(out, w, *first)?;
            push_more_lanes(out, w, rest)?;
            Ok(())
        }
    }
}

/// A signed decimal.
fn push_offset(out: &mut Vec<u8>, offset: i64) -> Result<(), AllocError>
    ensures { OnOk result (out.new.items ≡ out.old.items ++ outcomes.offset_text offset) }
{
    if offset < 0 {
        out.extend_from_slice(b"-")?;
    }
    push_decimal(out, offset.unsigned_abs())?;
    Ok(())
}

/// A place in an object.
fn push_place(out: &mut Vec<u8>, object: u32, offset: i64) -> Result<(), AllocError>
    ensures { OnOk result (out.new.items ≡ out.old.items ++ (codes "object " ++ (decimal object ++ (codes " + " ++ outcomes.offset_text offset)))) }
{
    out.extend_from_slice(b"object ")?;
    push_decimal(out, object as u64)?;
    out.extend_from_slice(b" + ")?;
    push_offset(out, offset)?;
    Ok(())
}

/// A pointer.
fn push_pointer(out: &mut Vec<u8>, pointer: Option<(u32, i64)>) -> Result<(), AllocError>
    ensures { OnOk result (out.new.items ≡ out.old.items ++ outcomes.pointer_text pointer) }
{
    match pointer {
        None => out.extend_from_slice(b"poison")?,
        Some((object, offset)) => push_place(out, object, offset)?,
    }
    Ok(())
}

/// A vector.
fn push_row(out: &mut Vec<u8>, w: u8, lanes: &[Lane]) -> Result<(), AllocError>
    ensures { OnOk result (out.new.items ≡ out.old.items ++ (codes "<" ++ (outcomes.lanes_text w lanes.now ++ codes ">"))) }
{
    out.extend_from_slice(b"<")?;
    push_lanes(out, w, lanes)?;
    out.extend_from_slice(b">")?;
    Ok(())
}

/// The bits of a lane.
fn shown_bits(ty: Ty) -> u8
    ensures { result ≡ outcomes.shown_bits ty }
{
    match ty {
        Ty::Int(w) => w,
        Ty::Row { n: _, w } => w,
        _ => 64,
    }
}

/// A value of a type.
fn push_value(out: &mut Vec<u8>, ret: Ty, value: &Value) -> Result<(), AllocError>
    ensures { OnOk result (out.new.items ≡ out.old.items ++ outcomes.value_text ret value.now) }
{
    match value {
        Value::Lane(lane) => push_lane(out, shown_bits(ret), *lane),
        Value::Row(lanes) => push_row(out, shown_bits(ret), lanes.as_lanes().as_slice()),
        Value::Ptr(pointer) => push_pointer(out, *pointer),
    }
}

/// What was returned.
fn push_returned(out: &mut Vec<u8>, ret: Ty, value: &Option<Value>) -> Result<(), AllocError>
    ensures { OnOk result (out.new.items ≡ out.old.items ++ outcomes.returned_text ret value.now) }
{
    match value {
        None => out.extend_from_slice(b"void")?,
        Some(value) => push_value(out, ret, value)?,
    }
    Ok(())
}

/// The bytes of an object after a space, if there are any.
fn push_contents(out: &mut Vec<u8>, bytes: &[Option<u8>]) -> Result<(), AllocError>
    ensures { OnOk result (out.new.items ≡ out.old.items ++ outcomes.contents_text bytes.now) }
{
    match bytes {
        [] => Ok(()),
        _ => {
            out.extend_from_slice(b" ")?;
            push_bytes(out, bytes)?;
            Ok(())
        }
    }
}

/// The line of an object.
fn push_object(out: &mut Vec<u8>, number: u64, bytes: &[Option<u8>]) -> Result<(), AllocError>
    ensures { OnOk result (out.new.items ≡ out.old.items ++ outcomes.object_text number bytes.now) }
{
    out.extend_from_slice(b"object ")?;
    push_decimal(out, number)?;
    out.extend_from_slice(b":")?;
    push_contents(out, bytes)?;
    out.extend_from_slice(b"\n")?;
    Ok(())
}

/// The lines of objects.
fn push_objects(out: &mut Vec<u8>, memory: &[Object]) -> Result<(), AllocError>
    ensures { OnOk result (out.new.items ≡ out.old.items ++ outcomes.objects_text 0 memory.now) }
{
    let mut number: u64 = 0;
    let mut rest = memory;
    'each: while let [object, more @ ..] = rest {
        push_object(out, number, object.as_slice())?;
        number += 1;
        rest = more;
    }
    Ok(())
}

/// The lines of a return.
fn push_return(
    out: &mut Vec<u8>,
    ret: Ty,
    value: &Option<Value>,
    memory: &[Object],
) -> Result<(), AllocError>
    ensures { OnOk result (out.new.items ≡ out.old.items ++ (codes "returned " ++ (outcomes.returned_text ret value.now ++ (codes "\n" ++ outcomes.objects_text 0 memory.now)))) }
{
    out.extend_from_slice(b"returned ")?;
    push_returned(out, ret, value)?;
    out.extend_from_slice(b"\n")?;
    push_objects(out, memory)?;
    Ok(())
}

/// The text of an outcome of a function that returns a value of the type `ret`.
pub fn outcome_text(alloc: Global, o: &Outcome, ret: &Ty) -> Result<Vec<u8>, OutOfMemory>
    ensures { IfOk result (λ text. text.items ≡ outcomes.text_of_outcome o.now ret.now) }
{
    let mut out = Vec::new(alloc);
    match o {
        Outcome::Returned { value, memory } => push_return(
            &mut out,
            *ret,
            value,
            memory.as_slice(),
        )?,
        Outcome::Undefined => out.extend_from_slice(b"undefined\n")?,
        Outcome::Cut { memory } => {
            out.extend_from_slice(b"cut\n")?;
            push_objects(&mut out, memory.as_slice())?
        }
    }
    Ok(out)
}
