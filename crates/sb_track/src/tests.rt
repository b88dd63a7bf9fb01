//! A sandbox is asked, a change is refused, and the module is as it was.

ghost use Rattle.ir_types.specs.Formed.{IsFormed};

use super::*;
use ir_types::{Id, Items, Module, Names, Place};
use sb_values::Sandbox;
use std::alloc::Global;
use std::test::Fail;
use vx_view::{Change, Question, Sand, View};

// a module of nothing
fn empty(alloc: Global) -> Module
    ensures { IsFormed result }
{
    Module {
        items: Items::new(alloc),
        globals: Names::new(alloc),
        big_endian_line: None,
    }
}

#[test]
fn what_does_not_fit_changes_nothing(rt: HostRuntime) -> Result<(), Fail> {
    let read = empty(rt.alloc());
    let sand = Sandbox::lift(rt.alloc(), &read)?;
    let mut tracked = Tracked::new(rt.alloc(), sand);
    tracked.reserve(1)?;
    tracked.note();
    let first = Question::First(Place { func: 0, block: 0 });
    tracked.ask(&first)?;
    tracked.ask(&first)?;
    let reads = tracked.noted();
    assert_eq!(rt; reads.len(), 1);
    let mark = tracked.save();
    tracked.revert(mark);
    let again = tracked.lower()?;
    assert!(rt; again.equal(&read));
    let refused = tracked.apply(Change::Remove {
        id: Id { region: 0, k: 0 },
    });
    assert!(rt; refused.is_err());
    Ok(())
}
