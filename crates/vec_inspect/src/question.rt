//! `Question`: a question whose values are found in the module.
//!
//! `Listing::question` finds them. It refuses the first word that names none, or none of the kind that is asked for.

use crate::listing::{Line, Listing};
use crate::refusal::Refusal;
use crate::request::Request;
use ir_types::{Id, Ids, Inst, Op, Opd};
use std::alloc::{AllocError, Global};
use vx_deps::Bundles;
use vx_list::{Equal, Seq, TryClone};

/// A question about a module.
#[derive(Debug, Drop)]
pub(crate) enum Question {
    /// The form of a pointer, as a user of it sees it.
    Form { pointer: Opd, user: Id },
    /// Whether two instructions of one block conflict.
    Conflict { first: Id, second: Id },
    /// The instructions that end at the last of these, which are of one block.
    Reach { stores: Ids },
    /// The order of the window of bundles, whose first is the stores at which it ends.
    Order { bundles: Bundles },
}

/// The pointer of a load or a store.
fn accessed(inst: &Inst) -> Option<&Opd> {
    match inst.op {
        Op::Load { .. } => inst.opds.as_slice().first(),
        Op::Store { .. } => inst.opds.as_slice().get(1),
        _ => None,
    }
}

impl<'a> Listing<'a> {
    /// The instruction that a word names.
    fn instruction(&self, alloc: Global, word: &str) -> Result<Line<'a>, Refusal> {
        let line = self.value(alloc, word)?;
        if line.inst.is_none() {
            return Err(Refusal::NoInstruction {
                word: String::from_str(alloc, word)?,
            });
        }
        Ok(line)
    }

    /// The instruction that a word names, in the block of another.
    fn beside(&self, alloc: Global, first: &Line<'a>, word: &str) -> Result<Line<'a>, Refusal> {
        let line = self.instruction(alloc, word)?;
        if !line.place.equal(&first.place) {
            return Err(Refusal::Elsewhere {
                word: String::from_str(alloc, word)?,
            });
        }
        Ok(line)
    }

    /// The pointer that a word names: a value, a global, or that of a load or store.
    fn pointer(&self, alloc: Global, word: &str) -> Result<Opd, Refusal> {
        if let Some(number) = self.global(word) {
            return Ok(Opd::Sym(number));
        }
        let line = self.value(alloc, word)?;
        if let Some(inst) = line.inst {
            if let Some(pointer) = accessed(inst) {
                return Ok(pointer.try_clone(alloc)?);
            }
        }
        if line.is_pointer {
            return Ok(Opd::Val(line.id));
        }
        Err(Refusal::NoPointer {
            word: String::from_str(alloc, word)?,
        })
    }

    /// The user of a pointer that a word names: of a global none, which the blank id stands for.
    fn user(&self, alloc: Global, pointer: &str, user: &str) -> Result<Id, Refusal> {
        if self.global(user).is_some() && pointer == user {
            return Ok(Id { region: 1, k: 0 });
        }
        if pointer == user {
            return Ok(self.value(alloc, user)?.id);
        }
        Ok(self.instruction(alloc, user)?.id)
    }

    /// The instructions of one block that some words name.
    fn in_one_block(&self, alloc: Global, words: &[String]) -> Result<Ids, Refusal> {
        let mut ids = Seq::new(alloc);
        let Some(first) = words.first() else {
            return Ok(ids);
        };
        let first = self.instruction(alloc, first.as_str())?;
        for word in words {
            ids.push(self.beside(alloc, &first, word.as_str())?.id)?;
        }
        Ok(ids)
    }

    /// The members of a bundle, which commas part.
    fn bundle(&self, alloc: Global, word: &str) -> Result<Ids, Refusal> {
        let mut ids = Seq::new(alloc);
        for member in word.split(',') {
            ids.push(self.instruction(alloc, member)?.id)?;
        }
        Ok(ids)
    }

    /// The bundles that some words name.
    fn bundles(&self, alloc: Global, words: &[String]) -> Result<Bundles, Refusal> {
        let mut bundles = Seq::new(alloc);
        for word in words {
            bundles.push(self.bundle(alloc, word.as_str())?)?;
        }
        Ok(bundles)
    }

    /// A question, with its values.
    pub(crate) fn question(&self, alloc: Global, asked: Request<'_>) -> Result<Question, Refusal> {
        match asked {
            Request::Form { pointer, user } => Ok(Question::Form {
                pointer: self.pointer(alloc, pointer)?,
                user: self.user(alloc, pointer, user)?,
            }),
            Request::Conflict { first, second } => {
                let first = self.instruction(alloc, first)?;
                Ok(Question::Conflict {
                    first: first.id,
                    second: self.beside(alloc, &first, second)?.id,
                })
            }
            Request::Reach { stores } => Ok(Question::Reach {
                stores: self.in_one_block(alloc, stores)?,
            }),
            Request::Order { bundles } => Ok(Question::Order {
                bundles: self.bundles(alloc, bundles)?,
            }),
        }
    }
}
