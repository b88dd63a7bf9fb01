//! `Tracked`: a sandbox as a view that can be changed and brought back.
//!
//! Contracts see what it holds (`seen`) and the spare, as the traits say. Each mark has a number of its own.

ghost use Rattle.std.specs.Prelude.{◌≡◌, None, IfOk};
ghost use Rattle.vx_view.specs.Views.{State};
ghost use Rattle.sb_values.specs.Sandboxes.{contents};
ghost use Rattle.sb_track.specs.Tracking as tracking;
ghost use Rattle.sb_track.specs.Tracking.{seen};

use crate::track::Track;
use ir_types::{Id, Module, OutOfMemory, Uses};
use sb_values::Sandbox;
use std::alloc::Global;
use std::marker::Model;
use vx_view::{Answer, ApplyRefusal, Change, Mark, Question, Reads, Sand, View};

/// A sandbox that is tracked.
#[derive(Drop)]
pub struct Tracked {
    track: Track,
    /// How many marks were opened.
    saves: u64,
    alloc: Global,
}

impl Model for Tracked {
    ghost use Rattle.sb_track.specs.declared.track.Track.{Track};
    ghost use Rattle.sb_track.specs.contracts.track.Track.{the_row};
    ghost use Rattle.sb_track.specs.Tracking.{IsTracked};

    ghost Value = { Track };

    ghost coded = { the_row.coded };

    ghost view = { λ t. t.track };

    ghost invariant = { λ t. IsTracked t.track };
}

impl Tracked {
    /// A sandbox with nothing open, which takes no memory.
    pub fn new(alloc: Global, sand: Sandbox) -> Tracked
        ensures { seen result ≡ record { contents = contents sand; notes = None; saved = None } }
    {
        Tracked {
            track: Track {
                sand,
                undos: Vec::new(alloc),
                mark: None,
                notes: None,
            },
            saves: 0,
            alloc,
        }
    }

    /// The module as it now is.
    pub fn lower(&self) -> Result<Module, OutOfMemory>
        ensures { IfOk result (λ m. m ≡ (seen self.now).contents.own) }
    {
        self.track.sand.lower()
    }

    /// The uses of a value, newest first.
    pub fn uses(&self, value: Id) -> Result<Uses, OutOfMemory>
        ensures { IfOk result (λ uses. uses ≡ (seen self.now).contents.lists value) }
    {
        self.track.sand.uses(value)
    }
}

impl View for Tracked {
    ghost seen = { seen };

    fn ask(&mut self, question: &Question) -> Result<Answer, OutOfMemory> {
        self.track.ask(self.alloc, question)
    }
}

impl Sand for Tracked {
    ghost spare = { tracking.spare };

    fn reserve(&mut self, cost: u64) -> Result<(), OutOfMemory> {
        self.track.reserve(cost)
    }

    fn save(&mut self) -> Mark {
        self.saves = self.saves.wrapping_add(1);
        self.track.save(self.saves);
        Mark { number: self.saves }
    }

    fn apply(&mut self, change: Change) -> Result<(), ApplyRefusal> {
        self.track.apply(change)
    }

    fn accept(&mut self, _mark: Mark) {
        self.track.accept();
    }

    fn revert(&mut self, _mark: Mark) {
        self.track.revert();
    }

    fn note(&mut self) {
        self.track.note(self.alloc);
    }

    fn noted(&mut self) -> Reads {
        self.track.noted()
    }
}
