//! `Scope`: the names that are defined so far, each with what it means.
//!
//! Its value is the list of them in order. A look-up is one in a hash map, whose keys are the names as they stand in the draft, or
//! owned where they stand nowhere. A name that is defined again is refused; else want of memory is the only failure.

ghost use Rattle.std.specs.Prelude.{◌≡◌, ◌∷◌, ◌++◌, [], None, OnOk, IfOk};
ghost use Rattle.std.specs.Cow.{cow_slice_items};
ghost use Rattle.std.specs.Option.{is_some, option_copied};
ghost use Rattle.ir_types_check.specs.Answers.{Gives};
ghost use Rattle.ir_types_check.specs.Scope as scope;

use crate::ResolveRefusal;
use indexmap::IndexMap;
use ir_types::Bytes;
use std::alloc::{AllocError, Global};
use std::borrow::CowSlice;
use std::marker::Model;

/// A name as a key: where it stands in the draft, or owned.
pub(crate) type Key<'a> = CowSlice<'a, u8>;

/// The names defined so far.
#[derive(Drop)]
pub(crate) struct Scope<'a, T> {
    entries: IndexMap<Key<'a>, T>,
}

impl<'a, T> Model for Scope<'a, T> {
    ghost use Rattle.std.specs.Prelude.{List, ℕ, map};
    ghost use Rattle.std.specs.Cow.{cow_slice_items};

    ghost Value = { List (List ℕ × T) };

    ghost view = { λ s. map (λ e. (cow_slice_items e.0, e.1)) s.entries.entries };
}

/// A name with its sigil.
#[inline(never)]
pub(crate) fn with_sigil(alloc: Global, sigil: u8, name: &[u8]) -> Result<Bytes, AllocError>
    ensures { IfOk result (λ whole. whole ≡ sigil ∷ name.now) }
{
    let mut whole = Vec::with_capacity(alloc, 1)?;
    whole.push(sigil)?;
    whole.extend_from_slice(name)?;
    Bytes::from_vec(alloc, whole)
}

/// A copy of a name or of another text, made in one piece.
pub(crate) fn copied(alloc: Global, text: &[u8]) -> Result<Bytes, AllocError>
    ensures { IfOk result (λ copy. copy ≡ text.now) }
{
    Bytes::from_slice(alloc, text)
}

impl<'a, T: Drop> Scope<'a, T> {
    /// No names.
    pub(crate) fn new(alloc: Global) -> Scope<'a, T>
        ensures { result ≡ [] }
    {
        Scope {
            entries: IndexMap::new(alloc),
        }
    }

    /// No names, with room for so many.
    pub(crate) fn with_room(alloc: Global, room: usize) -> Result<Scope<'a, T>, AllocError>
        ensures { IfOk result (λ scope. scope ≡ []) }
    {
        Ok(Scope {
            entries: IndexMap::with_capacity(alloc, room)?,
        })
    }

    /// What a name means.
    pub(crate) fn get(&self, name: &[u8]) -> Option<&T>
        ensures { option_copied result ≡ scope.meaning name.now self.now }
    {
        self.entries.get(name)
    }

    /// Adds a name, or gives another meaning to one that was there; and whether it was.
    fn put(&mut self, key: Key<'a>, meaning: T) -> Result<bool, AllocError>
        ensures was { IfOk result (λ was. was ≡ is_some (scope.meaning (cow_slice_items key.entry) self.old)) }
        ensures added { OnOk result (scope.meaning (cow_slice_items key.entry) self.old ≡ None → self.new ≡ self.old ++ (cow_slice_items key.entry, meaning) ∷ []) }
    {
        let before = self.entries.insert(key, meaning)?;
        Ok(before.is_some())
    }

    /// Adds a name that was not there.
    pub(crate) fn add(&mut self, name: &'a [u8], meaning: T) -> Result<(), AllocError>
        requires { scope.meaning name.now self.old ≡ None }
        ensures { OnOk result (self.new ≡ self.old ++ (name.now, meaning) ∷ []) }
    {
        self.put(CowSlice::Borrowed(name), meaning)?;
        Ok(())
    }

    /// Adds a name that a line of the draft defines.
    #[tactic(auto, unfolding(crate::specs::Scope::define))]
    pub(crate) fn define(
        &mut self,
        alloc: Global,
        line: u32,
        sigil: u8,
        name: &'a [u8],
        meaning: T,
    ) -> Result<(), ResolveRefusal>
        ensures { Gives (λ _. self.new) result (scope.define line sigil name.now meaning self.old) }
    {
        if self.put(CowSlice::Borrowed(name), meaning)? {
            let name = with_sigil(alloc, sigil, name)?;
            return Err(ResolveRefusal::TwiceDefined { line, name });
        }
        Ok(())
    }

    /// Adds a name that outlives the line which defines it.
    #[tactic(auto, unfolding(crate::specs::Scope::define))]
    pub(crate) fn define_owned(
        &mut self,
        alloc: Global,
        line: u32,
        sigil: u8,
        name: &[u8],
        meaning: T,
    ) -> Result<(), ResolveRefusal>
        ensures { Gives (λ _. self.new) result (scope.define line sigil name.now meaning self.old) }
    {
        let key = Vec::from_slice(alloc, name)?;
        if self.put(CowSlice::Owned(key), meaning)? {
            let name = with_sigil(alloc, sigil, name)?;
            return Err(ResolveRefusal::TwiceDefined { line, name });
        }
        Ok(())
    }
}
