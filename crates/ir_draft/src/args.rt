//! `Args`: the operands of a line, in the order of its form.
//!
//! Contracts see the list of them. One or two, as most lines have, lie in place; more stand in an allocation. They are given all at
//! once, and nothing here fails but for want of memory.

ghost use Rattle.std.specs.Prelude.{◌≡◌, ◌==◌, ◌↔◌, ◌∷◌, [], length, IsTrue};
ghost use Rattle.ir_draft.specs.Args.{kept_args};

use crate::Arg;
use std::alloc::{AllocError, Global};
use std::marker::Model;
use vx_list::{Equal, Seq, TryClone};

/// A list of operands, of which there are mostly one or two.
#[derive(Debug, Drop)]
pub struct Args {
    kept: Kept,
}

/// How the operands are kept.
#[derive(Debug, Drop)]
enum Kept {
    Nothing,
    One([Arg; 1]),
    Two([Arg; 2]),
    More(Seq<Arg>),
}

impl Model for Args {
    ghost use Rattle.std.specs.Prelude.{List};
    ghost use Rattle.ir_draft.specs.declared.written.Arg.{Arg};
    ghost use Rattle.ir_draft.specs.Args.{kept_args};

    ghost Value = { List Arg };

    ghost view = { λ s. kept_args s.kept };
}

impl Args {
    /// No operand.
    pub fn none() -> Args
        ensures { result ≡ [] }
    {
        Args {
            kept: Kept::Nothing,
        }
    }

    /// One operand.
    pub fn one(arg: Arg) -> Args
        ensures { result ≡ arg ∷ [] }
    {
        Args {
            kept: Kept::One([arg]),
        }
    }

    /// Two operands.
    pub fn two(first: Arg, second: Arg) -> Args
        ensures { result ≡ first ∷ second ∷ [] }
    {
        Args {
            kept: Kept::Two([first, second]),
        }
    }

    /// The operands of a list.
    pub fn from_list(list: Seq<Arg>) -> Args
        ensures { result ≡ list }
    {
        Args {
            kept: Kept::More(list),
        }
    }

    /// The operands in order.
    pub fn as_slice(&self) -> &[Arg]
        ensures { result.now ≡ self.now }
    {
        match &self.kept {
            Kept::Nothing => &[],
            Kept::One(args) => &args[..],
            Kept::Two(args) => &args[..],
            Kept::More(list) => list.as_slice(),
        }
    }

    /// The number of operands.
    pub fn len(&self) -> usize
        ensures { result ≡ length self.now }
    {
        self.as_slice().len()
    }

    /// Whether there is no operand.
    pub fn is_empty(&self) -> bool
        ensures { result ≡ (length self.now == 0) }
    {
        self.as_slice().is_empty()
    }
}

impl TryClone for Args {
    fn try_clone(&self, alloc: Global) -> Result<Self, AllocError> {
        let args = self.as_slice();
        let mut list = Seq::with_capacity(alloc, args.len())?;
        for arg in args {
            list.push(arg.try_clone(alloc)?)?;
        }
        Ok(Args::from_list(list))
    }
}

/// Whether two lists have the same operands.
fn are_same(left: &[Arg], right: &[Arg]) -> bool
    ensures { IsTrue result ↔ (left.now ≡ right.now) }
{
    if left.len() != right.len() {
        return false;
    }
    for i in 0..left.len() {
        if !left[i].equal(&right[i]) {
            return false;
        }
    }
    true
}

impl Equal for Args {
    fn equal(&self, other: &Self) -> bool {
        are_same(self.as_slice(), other.as_slice())
    }
}
