//! `Notes`: the questions that were asked, each once, with its answer, in order of first asking.
//!
//! `note` is the entry point, in constant time. Contracts see the list of reads. A question that was noted is found by its hash. Want of
//! memory is the only failure, and changes nothing.

ghost use Rattle.std.specs.Prelude.{◌≡◌, [], ◌∷◌, ◌++◌, false, IfOk, OnOk, OnErr};
ghost use Rattle.std.specs.List.{list_any};
ghost use Rattle.vx_view.specs.Views.{is_noted, noting};
ghost use Rattle.sb_track.specs.Indexing.{asked_of};

use ir_types::OutOfMemory;
use std::alloc::Global;
use std::collections::HashSet;
use std::marker::Model;
use vx_list::TryClone;
use vx_view::{Answer, Question, Read, Reads};

/// The kind of a question.
#[derive(Clone, Copy, Debug, PartialEq, Eq, Hash)]
pub(crate) enum Kind {
    Inst,
    Next,
    Prev,
    Users,
    First,
}

/// A question by its kind and the two numbers of its id or place.
#[derive(Clone, Copy, Debug, PartialEq, Eq, Hash)]
pub(crate) struct Asked {
    pub(crate) kind: Kind,
    pub(crate) major: u32,
    pub(crate) minor: u32,
}

/// What was asked.
#[derive(Drop)]
pub(crate) struct Notes {
    reads: Reads,
    /// The questions of the reads.
    index: HashSet<Asked>,
}

impl Model for Notes {
    ghost use Rattle.std.specs.Prelude.{List};
    ghost use Rattle.std.specs.Coded.{coded_list};
    ghost use Rattle.vx_view.specs.declared.read.Read.{Read};
    ghost use Rattle.vx_view.specs.contracts.read.Read.{the_row};
    ghost use Rattle.sb_track.specs.Indexing.{IsIndex};

    ghost Value = { List Read };

    ghost coded = { coded_list the_row.coded };

    ghost view = { λ n. n.reads };

    ghost invariant = { λ n. IsIndex n.index.keys n.reads };
}

/// The kind and the numbers of a question.
fn asked_of(question: &Question) -> Asked
    ensures { result ≡ asked_of question.now }
{
    match question {
        Question::Inst(id) => of_id(Kind::Inst, id.region, id.k),
        Question::Next(id) => of_id(Kind::Next, id.region, id.k),
        Question::Prev(id) => of_id(Kind::Prev, id.region, id.k),
        Question::Users(id) => of_id(Kind::Users, id.region, id.k),
        Question::First(place) => of_id(Kind::First, place.func, place.block),
    }
}

/// A question by its parts.
fn of_id(kind: Kind, major: u32, minor: u32) -> Asked
    ensures { result ≡ record { kind = kind; major = major; minor = minor } }
{
    Asked { kind, major, minor }
}

impl Notes {
    /// Nothing was asked, which takes no memory.
    pub(crate) fn new(alloc: Global) -> Notes
        ensures { result ≡ [] }
    {
        Notes {
            reads: Reads::new(alloc),
            index: HashSet::new(alloc),
        }
    }

    /// Notes a question with its answer, if it was not asked before.
    pub(crate) fn note(
        &mut self,
        alloc: Global,
        question: &Question,
        answer: &Answer,
    ) -> Result<(), OutOfMemory>
        ensures ok { OnOk result (self.new ≡ noting question.now answer.now self.old) }
        ensures err { OnErr result (self.new ≡ self.old) }
    {
        if self.has(question) {
            return Ok(());
        }
        let answer = answer.try_clone(alloc)?;
        self.push(Read {
            question: *question,
            answer,
        })
    }

    /// What was asked.
    pub(crate) fn into_reads(self) -> Reads
        ensures { result ≡ self }
    {
        let Notes { reads, index: _ } = self;
        reads
    }

    /// Whether a question was asked before.
    fn has(&self, question: &Question) -> bool
        ensures { result ≡ is_noted question.now self.now }
    {
        self.index.contains(&asked_of(question))
    }

    /// Puts a question at the end that was not asked before.
    fn push(&mut self, read: Read) -> Result<(), OutOfMemory>
        requires { is_noted read.question self.old ≡ false }
        ensures ok { OnOk result (self.new ≡ self.old ++ read ∷ []) }
        ensures err { OnErr result (self.new ≡ self.old) }
    {
        let asked = asked_of(&read.question);
        self.index.reserve(1)?;
        self.reads.push(read)?;
        match self.index.insert(asked) {
            Ok(_) => Ok(()),
            Err(_) => unreachable!(),
        }
    }
}
