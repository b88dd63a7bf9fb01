//! A use is taken out of a list and put back.

ghost use Rattle.std.specs.Prelude.{◌≡◌};
ghost use Rattle.sb_uses.specs.Places.{use_of};

use super::*;
use ir_types::{Id, Use};
use std::test::Fail;

// the value 0 of what was read
const VALUE: Id = Id { region: 0, k: 0 };

// the first slot of an instruction
fn used_by(k: u32) -> Use
    ensures { result ≡ use_of k 0 }
{
    Use {
        user: Id { region: 0, k },
        slot: 0,
    }
}

#[test]
fn a_use_comes_back(rt: HostRuntime) -> Result<(), Fail> {
    let mut lists = UseLists::new(rt.alloc());
    lists.reserve(2)?;
    lists.add(VALUE, used_by(1))?;
    lists.add(VALUE, used_by(2))?;
    let spot = lists.take(VALUE, used_by(1));
    let without = lists.list(VALUE)?;
    assert!(rt; without.as_slice() == [used_by(2)].as_slice());
    lists.put_back(VALUE, used_by(1), spot);
    let again = lists.list(VALUE)?;
    assert!(rt; again.as_slice() == [used_by(2), used_by(1)].as_slice());
    Ok(())
}
