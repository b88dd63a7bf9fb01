//! Laws of the changes of a region.
//!
//! Each law is the contract of a function that does nothing and that no program calls; a caller that calls it has the law.

ghost use Rattle.rf_rewrite.specs.Rewritten.{ChangesLead};
ghost use Rattle.rf_rewrite.specs.Removing.{GoneAre, RemovedInTurn};

/// In a formed module without ids of later regions, with lawful stores whose bundle is widened, the region's changes fit one after another
/// and lead to the module in which the region is rewritten.
pub fn changes_lead()
    ensures { ChangesLead }
{}

/// Where an instruction stands in a formed module: ids of its block that go in turn, with which no other instruction goes, are what goes.
pub fn gone_are()
    ensures { GoneAre }
{}

/// In a formed module, where the bundle of stores is widened and the region creates no id that is there already, the region's changes remove at
/// each time the greatest id that no instruction of those left to remove uses.
pub fn removed_in_turn()
    ensures { RemovedInTurn }
{}
