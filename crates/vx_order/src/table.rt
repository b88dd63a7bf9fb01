//! `Table`: for each place the number of its group and the group's position.
//!
//! `Table::of` is the one way to make it; want of memory is the only failure. Two vectors have an entry for each place.

ghost use Rattle.std.specs.Prelude.{◌≡◌, ℕ, ◌+◌, ◌<◌, ◌≤◌, ◌^◌, All, IfOk, length, map, cond, slice_index, true};
ghost use Rattle.vx_order.specs.Groups.{IsPartition, has};
ghost use Rattle.vx_order.specs.Groups as spec;
ghost use Rattle.vx_order.specs.Fixed.{fixed_points};

use std::alloc::{AllocError, Global};
use vx_list::Seq;

/// What is known of each place.
#[derive(Debug, Drop)]
pub(crate) struct Table {
    /// The number of its group.
    owners: Vec<u32>,
    /// The position of its group.
    positions: Vec<u32>,
}

impl Table {
    ghost use Rattle.vx_order.specs.Tables.{IsTableOf};

    /// The table of groups that partition the places.
    pub(crate) fn of(alloc: Global, groups: &[Seq<u32>]) -> Result<Table, AllocError>
        requires { IsPartition groups.now }
        ensures { IfOk result (IsTableOf groups.now) }
    {
        let places = size(groups);
        let mut owners = vec![in alloc; 0; places]?;
        let mut positions = vec![in alloc; 0; places]?;
        for number in 0..groups.len() {
            let group = groups[number].as_slice();
            fill(&mut owners, group, number as u32);
            fill(&mut positions, group, least(group));
        }
        Ok(Table { owners, positions })
    }

    /// The number of places.
    pub(crate) fn len(&self) -> usize
        ensures { result ≡ length self.now.owners.items }
    {
        self.owners.len()
    }

    /// The edges as links between the positions of groups.
    pub(crate) fn links(
        &self,
        alloc: Global,
        edges: &[(u32, u32)],
    ) -> Result<Vec<(u32, u32)>, AllocError>
        requires { All (λ e. (e.0 < length self.now.positions.items) × (e.1 < length self.now.positions.items)) edges.now }
        ensures { IfOk result (λ links. links.items
            ≡ map (λ e. (slice_index self.now.positions.items e.0, slice_index self.now.positions.items e.1)) edges.now) }
    {
        let mut links = Vec::with_capacity(alloc, edges.len())?;
        for (from, to) in edges {
            links.push((self.positions[*from as usize], self.positions[*to as usize]))?;
        }
        Ok(links)
    }

    /// The positions of all groups, ascending.
    pub(crate) fn positions(&self, alloc: Global) -> Result<Vec<u32>, AllocError>
        ensures { IfOk result (λ nodes. nodes.items ≡ fixed_points 0 self.now.positions.items) }
    {
        let mut nodes = Vec::new(alloc);
        for (place, position) in self.positions.iter().enumerate() {
            if *position as usize == place {
                nodes.push(*position)?;
            }
        }
        Ok(nodes)
    }

    /// The numbers of the groups that hold places.
    pub(crate) fn owners_of(&self, alloc: Global, places: &[u32]) -> Result<Vec<u32>, AllocError>
        requires { All (λ p. p < length self.now.owners.items) places.now }
        ensures { IfOk result (λ owners. owners.items ≡ map (slice_index self.now.owners.items) places.now) }
    {
        let mut owners = Vec::with_capacity(alloc, places.len())?;
        for place in places {
            owners.push(self.owners[*place as usize])?;
        }
        Ok(owners)
    }
}

/// How many places the groups hold.
fn size(groups: &[Seq<u32>]) -> usize
    requires { spec.size groups.now ≤ 2 ^ 32 }
    ensures { result ≡ spec.size groups.now }
{
    let mut places = 0;
    for group in groups {
        places += group.len();
    }
    places
}

/// The least of the members of a group.
fn least(group: &[u32]) -> u32
    ensures { result ≡ spec.least group.now }
{
    let [first, more @ ..] = group else { return 0 };
    let mut found = *first;
    for place in more {
        found = found.min(*place);
    }
    found
}

/// Puts a value at each of these places.
fn fill(table: &mut Vec<u32>, group: &[u32], value: u32)
    requires { All (λ p. p < length table.old.items) group.now }
    ensures len { length table.new.items ≡ length table.old.items }
    ensures values { (p : ℕ) → p < length table.old.items → slice_index table.new.items p ≡ cond (has group.now p) value (slice_index table.old.items p) }
{
    for place in group {
        table[*place as usize] = value;
    }
}
