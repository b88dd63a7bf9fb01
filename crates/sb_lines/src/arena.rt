//! `Arena`: what `Lines` holds, and what is looked up in it.
//!
//! The frame is the module without its instructions. Each id that was ever an instruction's has a node, and each block a mark. Want of memory
//! is the only failure, of `reserve`.

ghost use Rattle.std.specs.Prelude.{◌≡◌, ◌≤◌, ◌<◌, ℕ, IsOk, OnOk, length, option_map};
ghost use Rattle.ir_types.specs.declared.id.Id.{Id};
ghost use Rattle.sb_lines.specs.Nodes.{next, prev};
ghost use Rattle.sb_lines.specs.Arena.{mark, spot, standing, as_told, next_of, prev_of, first_of, id_held, place_held, before_held, line_of, key_of, node, room};
ghost use Rattle.sb_lines.specs.Steps.{IsKept};

use crate::nodes::{Held, Node};
use crate::params::ParamSpot;
use crate::{Before, Found};
use ir_types::{Id, IdTable, Module, OutOfMemory, Place};
use std::collections::HashMap;

/// The name of a block.
#[derive(Clone, Copy, Debug, PartialEq, Eq, Hash)]
pub(crate) struct BlockKey {
    pub(crate) func: u32,
    pub(crate) block: u32,
}

/// Instructions in rings.
#[derive(Drop)]
pub(crate) struct Arena {
    /// The module; what instructions its blocks have here means nothing.
    pub(crate) frame: Module,
    /// How many functions of the profile it has.
    pub(crate) funcs: u32,
    pub(crate) params: IdTable<ParamSpot>,
    pub(crate) nodes: Vec<Node>,
    /// The mark of each block.
    pub(crate) marks: HashMap<BlockKey, usize>,
    /// The node of each id, also of one whose instruction was taken out.
    pub(crate) table: HashMap<Id, usize>,
}

impl Arena {
    /// The node of an id.
    pub(crate) fn node(&self, id: Id) -> Option<usize>
        ensures { result ≡ node self.now id }
    {
        self.table.get(&id).copied()
    }

    /// The mark of a block.
    pub(crate) fn mark(&self, place: Place) -> Option<usize>
        ensures { result ≡ mark self.now place }
    {
        self.marks.get(&key_of(place)).copied()
    }

    /// The node before which an instruction comes.
    pub(crate) fn spot(&self, before: Before) -> Option<usize>
        ensures { result ≡ spot self.now before }
    {
        match before {
            Before::Line(id) => self.node(id),
            Before::End(place) => self.mark(place),
        }
    }

    /// The instruction of an id, with its block.
    pub(crate) fn found(&self, id: Id) -> Option<Found<'_>>
        ensures { option_map as_told result ≡ standing self.now id }
    {
        let at = self.node(id)?;
        match self.nodes.get(at) {
            Some(
                Node {
                    held: Held::Line { place, inst },
                    ..
                },
            ) => Some(Found {
                place: *place,
                inst,
            }),
            _ => None,
        }
    }

    /// The id of the instruction that a node holds.
    pub(crate) fn id_at(&self, at: usize) -> Option<Id>
        ensures { result ≡ id_held self.now at }
    {
        match self.nodes.get(at) {
            Some(
                Node {
                    held: Held::Line { inst, .. },
                    ..
                },
            ) => Some(inst.id),
            _ => None,
        }
    }

    /// The block in whose ring a node is.
    pub(crate) fn place_at(&self, at: usize) -> Option<Place>
        ensures { result ≡ place_held self.now at }
    {
        match self.nodes.get(at) {
            Some(
                Node {
                    held: Held::Line { place, .. },
                    ..
                },
            ) => Some(*place),
            Some(
                Node {
                    held: Held::Block(place),
                    ..
                },
            ) => Some(*place),
            _ => None,
        }
    }

    /// What comes before a node: an instruction, or the end of a block.
    pub(crate) fn before_at(&self, at: usize) -> Option<Before>
        ensures { result ≡ before_held self.now at }
    {
        match self.nodes.get(at) {
            Some(
                Node {
                    held: Held::Line { inst, .. },
                    ..
                },
            ) => Some(Before::Line(inst.id)),
            Some(
                Node {
                    held: Held::Block(place),
                    ..
                },
            ) => Some(Before::End(*place)),
            _ => None,
        }
    }

    /// The node after one.
    pub(crate) fn next_node(&self, at: usize) -> usize
        ensures { result ≡ next self.now.nodes.items at }
    {
        match self.nodes.get(at) {
            Some(node) => node.next,
            None => 0,
        }
    }

    /// The node before one.
    pub(crate) fn prev_node(&self, at: usize) -> usize
        ensures { result ≡ prev self.now.nodes.items at }
    {
        match self.nodes.get(at) {
            Some(node) => node.prev,
            None => 0,
        }
    }

    /// The node of an instruction that stands in a block.
    fn line(&self, id: Id) -> Option<usize>
        ensures { result ≡ line_of self.now id }
    {
        let at = self.node(id)?;
        self.id_at(at)?;
        Some(at)
    }

    /// The instruction after that of an id.
    pub(crate) fn next(&self, id: Id) -> Option<Id>
        ensures { result ≡ next_of self.now id }
    {
        let at = self.line(id)?;
        self.id_at(self.next_node(at))
    }

    /// The instruction before that of an id.
    pub(crate) fn prev(&self, id: Id) -> Option<Id>
        ensures { result ≡ prev_of self.now id }
    {
        let at = self.line(id)?;
        self.id_at(self.prev_node(at))
    }

    /// The first instruction of a block.
    pub(crate) fn first(&self, place: Place) -> Option<Id>
        ensures { result ≡ first_of self.now place }
    {
        let at = self.mark(place)?;
        self.id_at(self.next_node(at))
    }

    /// Makes room for so many more ids.
    pub(crate) fn reserve(&mut self, more: usize) -> Result<(), OutOfMemory>
        ensures kept { IsKept self.old self.new }
        ensures node { (id : Id) → node self.new id ≡ node self.old id }
        ensures ok { OnOk result (more ≤ room self.new) }
        ensures had_room { more ≤ room self.old → IsOk result }
        ensures room { room self.old ≤ room self.new }
    {
        self.nodes.reserve(more)?;
        self.table.reserve(more)
    }
}

/// The name of the block of a place.
pub(crate) fn key_of(place: Place) -> BlockKey
    ensures { result ≡ key_of place }
{
    BlockKey {
        func: place.func,
        block: place.block,
    }
}
