//! Outcomes: how a run of a function ends.
//!
//! Nothing here fails but for want of memory. A memory is a list of objects, an object a list of bytes, of which each is a number
//! or, where it is none, poison.

use crate::{Memory, Value};
use std::alloc::{AllocError, Global};
use vx_list::{Equal, TryClone};

/// How a run ends.
#[derive(Debug, Drop)]
pub enum Outcome {
    /// The function returned.
    Returned {
        /// None from a function of no result.
        value: Option<Value>,
        memory: Memory,
    },
    /// The run met undefined behaviour (Language Reference, "Undefined Behavior").
    Undefined,
    /// The bound on blocks was reached.
    Cut {
        memory: Memory,
    },
}

impl TryClone for Outcome {
    fn try_clone(&self, alloc: Global) -> Result<Self, AllocError> {
        match self {
            Outcome::Returned { value, memory } => Ok(Outcome::Returned {
                value: value.try_clone(alloc)?,
                memory: memory.try_clone(alloc)?,
            }),
            Outcome::Undefined => Ok(Outcome::Undefined),
            Outcome::Cut { memory } => Ok(Outcome::Cut {
                memory: memory.try_clone(alloc)?,
            }),
        }
    }
}

impl Equal for Outcome {
    fn equal(&self, other: &Self) -> bool {
        match (self, other) {
            (
                Outcome::Returned { value, memory },
                Outcome::Returned {
                    value: v,
                    memory: m,
                },
            ) => { value.equal(v) && memory.equal(m) }
            (Outcome::Undefined, Outcome::Undefined) => true,
            (Outcome::Cut { memory }, Outcome::Cut { memory: m }) => memory.equal(m),
            _ => false,
        }
    }
}
