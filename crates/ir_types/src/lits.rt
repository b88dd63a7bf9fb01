//! `Lits`: the lanes of a literal, the entries of a mask, the numbers of cases.
//!
//! Contracts see them as the list of the lanes. Most literals are scalars: a single lane lies in place and takes no memory, and
//! from two lanes on they stand after one pointer, so that an operand is small. Since a single lane is not kept as a slice,
//! `as_lanes` gives the lanes in a form that has one. Nothing here fails but for want of memory.

ghost use Rattle.std.specs.Prelude.{◌≡◌, ◌==◌, ◌∷◌, ◌++◌, [], length, replicate, slice_get, IfOk, OnOk, OnErr};

use std::alloc::{AllocError, Global};
use std::marker::Model;
use vx_list::{Equal, Seq, TryClone};
use vx_num::Lane;

/// A list of lanes, of which most have one.
#[derive(Debug, Drop)]
pub struct Lits {
    kept: Kept,
    alloc: Global,
}

/// How the lanes are kept.
#[derive(Debug, Drop)]
enum Kept {
    /// None.
    Empty,
    /// One, a number.
    Number(u64),
    /// One, poison.
    Poison,
    /// Any number of them.
    Many(Box<Seq<Lane>>),
}

/// The lanes of a list, to be read.
#[derive(Drop)]
pub enum Lanes<'a> {
    /// One.
    One([Lane; 1]),
    /// Any number of them.
    All(&'a [Lane]),
}

impl Model for Lits {
    ghost use Rattle.std.specs.Prelude.{ℕ, List};
    ghost use Rattle.std.specs.declared.option.Option.{Option};
    ghost use Rattle.std.specs.Coded.{coded_list, coded_option, coded_ℕ};

    ghost Value = { List (Option ℕ) };

    ghost coded = { coded_list (coded_option coded_ℕ) };

    ghost use Rattle.ir_types.specs.Lits.{kept_lanes};

    ghost view = { λ l. kept_lanes l.kept };
}

ghost use Rattle.ir_types.specs.Lits.{kept_lanes, lanes};

impl<'a> Lanes<'a> {
    /// The lanes in order.
    pub fn as_slice(&self) -> &[Lane]
        ensures { result.now ≡ lanes self.now }
    {
        match self {
            Lanes::One(lane) => lane.as_slice(),
            Lanes::All(lanes) => lanes,
        }
    }
}

/// One lane, in place.
fn kept_lane(lane: Lane) -> Kept
    ensures { kept_lanes result ≡ lane ∷ [] }
{
    match lane {
        Some(number) => Kept::Number(number),
        None => Kept::Poison,
    }
}

/// Two lanes, after a pointer.
fn kept_lanes_two(alloc: Global, first: Lane, second: Lane) -> Result<Kept, AllocError>
    ensures { IfOk result (λ kept. kept_lanes kept ≡ first ∷ second ∷ []) }
{
    let mut lanes = Seq::with_capacity(alloc, 2)?;
    lanes.push(first)?;
    lanes.push(second)?;
    Ok(Kept::Many(Box::new(alloc, lanes)?))
}

impl Kept {
    /// The lanes, to be read.
    fn as_lanes(&self) -> Lanes<'_>
        ensures { lanes result ≡ kept_lanes self.now }
    {
        match self {
            Kept::Empty => Lanes::All(&[]),
            Kept::Number(number) => Lanes::One([Some(*number)]),
            Kept::Poison => Lanes::One([None]),
            Kept::Many(lanes) => Lanes::All(lanes.as_slice()),
        }
    }

    /// Puts a lane at the end.
    fn push(&mut self, alloc: Global, lane: Lane) -> Result<(), AllocError>
        ensures ok { OnOk result (kept_lanes self.new ≡ kept_lanes self.old ++ lane ∷ []) }
        ensures err { OnErr result (kept_lanes self.new ≡ kept_lanes self.old) }
    {
        match self {
            Kept::Empty => *self = kept_lane(lane),
            Kept::Number(first) => *self = kept_lanes_two(alloc, Some(*first), lane)?,
            Kept::Poison => *self = kept_lanes_two(alloc, None, lane)?,
            Kept::Many(lanes) => lanes.push(lane)?,
        }
        Ok(())
    }

    /// The same lanes once more.
    fn try_clone(&self, alloc: Global) -> Result<Kept, AllocError>
        ensures { IfOk result (λ copy. kept_lanes copy ≡ kept_lanes self.now) }
    {
        match self {
            Kept::Empty => Ok(Kept::Empty),
            Kept::Number(number) => Ok(Kept::Number(*number)),
            Kept::Poison => Ok(Kept::Poison),
            Kept::Many(lanes) => Ok(Kept::Many(Box::new(alloc, lanes.try_clone(alloc)?)?)),
        }
    }
}

impl Lits {
    /// The list of no lanes, which takes no memory.
    pub fn new(alloc: Global) -> Lits
        ensures { result ≡ [] }
    {
        Lits {
            kept: Kept::Empty,
            alloc,
        }
    }

    /// The same lane so many times.
    pub fn repeated(alloc: Global, n: u8, lane: Lane) -> Result<Lits, AllocError>
        ensures { IfOk result (λ x. x ≡ replicate n lane) }
    {
        let mut lanes = Lits::new(alloc);
        'each: for _ in 0..n {
            lanes.push(lane)?;
        }
        Ok(lanes)
    }

    /// The lanes, to be read.
    pub fn as_lanes(&self) -> Lanes<'_>
        ensures { lanes result ≡ self.now }
    {
        self.kept.as_lanes()
    }

    /// The number of lanes.
    pub fn len(&self) -> usize
        ensures { result ≡ length self.now }
    {
        self.as_lanes().as_slice().len()
    }

    /// Whether there is no lane.
    pub fn is_empty(&self) -> bool
        ensures { result ≡ (length self.now == 0) }
    {
        self.as_lanes().as_slice().is_empty()
    }

    /// The lane at a place from 0, if there is one.
    pub fn get(&self, at: usize) -> Option<Lane>
        ensures { result ≡ slice_get self.now at }
    {
        self.as_lanes().as_slice().get(at).copied()
    }

    /// Puts a lane at the end.
    pub fn push(&mut self, lane: Lane) -> Result<(), AllocError>
        ensures ok { OnOk result (self.new ≡ self.old ++ lane ∷ []) }
        ensures err { OnErr result (self.new ≡ self.old) }
    {
        self.kept.push(self.alloc, lane)
    }
}

impl TryClone for Lits {
    fn try_clone(&self, alloc: Global) -> Result<Self, AllocError> {
        Ok(Lits {
            kept: self.kept.try_clone(alloc)?,
            alloc,
        })
    }
}

impl Equal for Lits {
    fn equal(&self, other: &Self) -> bool {
        Lane::equal_all(self.as_lanes().as_slice(), other.as_lanes().as_slice())
    }
}
