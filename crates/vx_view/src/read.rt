//! Reads: questions with the answers that they had.
//!
//! Nothing here fails but for want of memory.

use crate::{Answer, Question};
use std::alloc::{AllocError, Global};
use vx_list::{Equal, Seq, TryClone};

/// A question that was asked, with its answer.
#[derive(Debug, Drop)]
pub struct Read {
    pub question: Question,
    pub answer: Answer,
}

/// A list of reads.
pub type Reads = Seq<Read>;

impl TryClone for Read {
    fn try_clone(&self, alloc: Global) -> Result<Self, AllocError> {
        Ok(Read {
            question: self.question,
            answer: self.answer.try_clone(alloc)?,
        })
    }
}

impl Equal for Read {
    fn equal(&self, other: &Self) -> bool {
        self.question.equal(&other.question) && self.answer.equal(&other.answer)
    }
}
