//! Hands used one after another, and by threads.
ghost use Rattle.std.specs.Prelude.{◌≡◌, ◌<◌, map, vec_len};
ghost use Rattle.steal_pool.specs.Hands.{fixed_of};

use crate::hand::Hand;
use crate::laws::tasks_come_out_as_often_as_dealt;
use crate::{deal, gather};
use duct_units::List;
use std::test::Fail;

/// Hand `k` takes once.
fn take_at(hands: &mut Vec<Hand>, k: usize) -> Option<u32>
    requires { k < vec_len hands.old }
    ensures fixed { map fixed_of hands.new.items ≡ map fixed_of hands.old.items }
    ensures len { vec_len hands.new ≡ vec_len hands.old }
{
    hands[k].take()
}

#[test]
fn shares_are_dealt_in_turn(rt: HostRuntime) -> Result<(), Fail> {
    let two = deal(rt.alloc(), &[1, 3, 4, 5, 6], 2)?;
    assert_eq!(rt; two.as_slice()[0].share(), [1, 4, 6].as_slice());
    assert_eq!(rt; two.as_slice()[1].share(), [3, 5].as_slice());
    let many = deal(rt.alloc(), &[1, 3, 4, 5, 6], 32)?;
    assert_eq!(rt; many.as_slice()[4].share(), [6].as_slice());
    assert_eq!(rt; many.as_slice()[5].share().len(), 0);
    Ok(())
}

#[test]
fn a_hand_alone_takes_every_task(rt: HostRuntime) -> Result<(), Fail> {
    let mut hands = deal(rt.alloc(), &[1, 3, 4], 2)?.into_vec();
    assert_eq!(rt; take_at(&mut hands, 0), Some(1));
    assert_eq!(rt; take_at(&mut hands, 0), Some(4));
    assert_eq!(rt; take_at(&mut hands, 0), Some(3));
    assert_eq!(rt; take_at(&mut hands, 0), Some(1));
    assert_eq!(rt; take_at(&mut hands, 0), Some(4));
    assert_eq!(rt; take_at(&mut hands, 0), None);
    assert_eq!(rt; take_at(&mut hands, 1), Some(3));
    assert_eq!(rt; hands[0].taken(), [1, 4, 3].as_slice());
    assert_eq!(rt; hands[1].taken().len(), 0);
    let gathered = gather(rt.alloc(), List::from_vec(hands))?;
    assert_eq!(rt; gathered.taken.as_slice(), [1, 4, 3].as_slice());
    assert_eq!(rt; gathered.left.as_slice().len(), 0);
    Ok(())
}

#[test]
fn what_no_hand_took_is_left(rt: HostRuntime) -> Result<(), Fail> {
    let mut hands = deal(rt.alloc(), &[1, 3, 4], 2)?.into_vec();
    assert_eq!(rt; take_at(&mut hands, 0), Some(1));
    let gathered = gather(rt.alloc(), List::from_vec(hands))?;
    assert_eq!(rt; gathered.taken.as_slice(), [1].as_slice());
    assert_eq!(rt; gathered.left.as_slice(), [4, 3].as_slice());
    Ok(())
}

#[test]
fn threads_leave_nothing(rt: HostRuntime) -> Result<(), Fail> {
    let tasks = [5, 1, 5, 2, 9, 9, 0, 7];
    let gathered = tasks_come_out_as_often_as_dealt(&rt, rt.alloc(), &tasks, 3)?;
    assert_eq!(rt; gathered.taken.as_slice().len(), 8);
    assert_eq!(rt; gathered.left.as_slice().len(), 0);
    Ok(())
}
