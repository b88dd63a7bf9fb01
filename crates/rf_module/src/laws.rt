//! Laws of the tree of a region.
//!
//! Each law is the contract of a function that does nothing and that no program calls; a caller that calls it has the law.

ghost use Rattle.rf_module.specs.Trees.{TreesAreComplete};

/// In a formed module the tree of lawful stores begins with them; how the lanes of each node are had is told by the nodes before it, and the
/// slots of a widened one lead to nodes that have the lanes of the slots.
pub fn trees_are_complete()
    ensures { TreesAreComplete }
{}
