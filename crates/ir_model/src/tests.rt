//! That values and outcomes are copied as they are, and told apart.

use crate::{Memory, Object, Outcome, Value};
use ir_types::Lits;
use std::alloc::{AllocError, Global};
use vx_list::{Equal, TryClone};

/// A row of 7 and poison.
fn row(alloc: Global) -> Result<Value, AllocError> {
    let mut lanes = Lits::new(alloc);
    lanes.push(Some(7))?;
    lanes.push(None)?;
    Ok(Value::Row(lanes))
}

/// A memory of one object of one byte.
fn memory(alloc: Global, byte: Option<u8>) -> Result<Memory, AllocError> {
    let mut object = Object::new(alloc);
    object.push(byte)?;
    let mut memory = Memory::new(alloc);
    memory.push(object)?;
    Ok(memory)
}

fn value_at(alloc: Global, at: u32) -> Result<Value, AllocError> {
    match at {
        0 => Ok(Value::Lane(Some(7))),
        1 => Ok(Value::Lane(None)),
        2 => row(alloc),
        3 => Ok(Value::Ptr(None)),
        4 => Ok(Value::Ptr(Some((0, 4)))),
        _ => Ok(Value::Ptr(Some((1, 4)))),
    }
}

fn outcome_at(alloc: Global, at: u32) -> Result<Outcome, AllocError> {
    match at {
        0 => Ok(Outcome::Undefined),
        1 => Ok(Outcome::Cut {
            memory: memory(alloc, None)?,
        }),
        2 => Ok(Outcome::Cut {
            memory: memory(alloc, Some(0))?,
        }),
        3 => Ok(Outcome::Returned {
            value: None,
            memory: memory(alloc, None)?,
        }),
        _ => Ok(Outcome::Returned {
            value: Some(row(alloc)?),
            memory: memory(alloc, None)?,
        }),
    }
}

#[test]
fn values_and_outcomes(rt: HostRuntime) {
    let alloc = rt.alloc();
    for i in 0..6 {
        for j in 0..6 {
            let copy = value_at(alloc, j).and_then(|v| v.try_clone(alloc));
            match (value_at(alloc, i), copy) {
                (Ok(left), Ok(right)) => assert_eq!(rt;
                    left.equal(&right),
                    i == j,
                    "values {i} and {j}"
                ),
                _ => assert!(rt; false, "no memory"),
            }
        }
    }
    for i in 0..5 {
        for j in 0..5 {
            let copy = outcome_at(alloc, j).and_then(|o| o.try_clone(alloc));
            match (outcome_at(alloc, i), copy) {
                (Ok(left), Ok(right)) => assert_eq!(rt;
                    left.equal(&right),
                    i == j,
                    "outcomes {i} and {j}"
                ),
                _ => assert!(rt; false, "no memory"),
            }
        }
    }
}
