//! Schedules of two groups, with the order that the rule gives.

ghost use Rattle.std.specs.Prelude.{◌≡◌, ◌∷◌, [], IfOk};

use super::*;
use std::alloc::AllocError;
use std::test::Fail;

/// The groups of the places 0 and 2, and 1.
fn two_groups(alloc: Global) -> Result<Groups, AllocError>
    ensures { IfOk result (λ groups. groups ≡ (0 ∷ 2 ∷ []) ∷ (1 ∷ []) ∷ []) }
{
    let mut groups = Seq::new(alloc);
    groups.push(Seq::from_vec(Vec::from_slice(alloc, &[0, 2])?))?;
    groups.push(Seq::from_vec(Vec::from_slice(alloc, &[1])?))?;
    Ok(groups)
}

#[test]
fn the_least_ready_group_is_next(rt: HostRuntime) -> Result<(), Fail> {
    let groups = two_groups(rt.alloc())?;
    match schedule(rt.alloc(), &groups, &[(1, 2)]) {
        Ok(order) => assert_eq!(rt; order.as_slice(), [1, 0].as_slice()),
        Err(_) => panic!(rt; "there is an order"),
    }
    Ok(())
}

#[test]
fn a_cycle_is_kept(rt: HostRuntime) -> Result<(), Fail> {
    let groups = two_groups(rt.alloc())?;
    match schedule(rt.alloc(), &groups, &[(0, 1), (1, 2)]) {
        Err(OrderRefusal::NoOrder { cycle }) => {
            assert_eq!(rt; cycle.len(), 2);
            let first = *cycle.get(0).expect(&rt, "a group");
            let second = *cycle.get(1).expect(&rt, "a group");
            assert!(rt; first < 2 && second < 2 && first != second);
        }
        _ => panic!(rt; "there is no order"),
    }
    Ok(())
}
