//! Laws of the windows of bundles.
//!
//! Each law is the contract of a function that does nothing and that no program calls; a caller that calls it has the law.

ghost use Rattle.vx_serial.specs.Bundles.{GroupsPartition};

/// The groups of bundles of a window take each of its places once, as the schedule asks.
pub fn groups_partition()
    ensures { GroupsPartition }
{}
