//! The programs under a rule run, and give what their contracts say.

use lock_api::ruled::{AddsOne, Sums};
use lock_examples::Ring;
use lock_examples::ruled::{
    Accounts, Counter, One, count, lend_in_turns, permits_after, relay, shuffle, try_add,
};
use lock_test_support::answer::answers_or_lacks_memory;
use std::test::Fail;

#[test]
fn two_and_four_threads_count(rt: HostRuntime) -> Result<(), Fail> {
    assert!(rt; count(&rt, rt.alloc(), 2, 3_000)? == 6_000);
    assert!(rt; count(&rt, rt.alloc(), 4, 3_000)? == 12_000);
    Ok(())
}

#[test]
fn money_stays(rt: HostRuntime) -> Result<(), Fail> {
    let accounts = Accounts {
        left: 70,
        right: 30,
    };
    let after = shuffle(
        &rt,
        rt.alloc(),
        accounts,
        &[50, 7, 90, 1],
        &[20, 40, 3, 100],
    )?;
    assert!(rt; after.left <= 100 && after.right == 100 - after.left);
    Ok(())
}

#[test]
fn workers_give_all_permits_back(rt: HostRuntime) -> Result<(), Fail> {
    assert!(rt; permits_after(&rt, rt.alloc(), 3, 2, 2_000)? == 3);
    assert!(rt; permits_after(&rt, rt.alloc(), 1, 1, 2_000)? == 1);
    Ok(())
}

/// Sets of objects that two threads borrow.
const OBJECTS: [&[u64]; 3] = [&[], &[7], &[3, 1, 2, 1]];

#[test]
fn lent_objects_come_back(rt: HostRuntime) -> Result<(), Fail> {
    for objects in OBJECTS {
        let mut ring = Ring::with_places(rt.alloc(), objects.len())?;
        for object in objects {
            if !ring.is_full() {
                ring.push(*object);
            }
        }
        let turns = if objects.is_empty() { 0 } else { 500 };
        let mut after = lend_in_turns::<HostRuntime, One>(&rt, rt.alloc(), ring, turns)?;
        let (mut expected, mut found) = (Vec::new(rt.alloc()), Vec::new(rt.alloc()));
        expected.extend_from_slice(objects)?;
        for _ in objects {
            if !after.is_empty() {
                found.push(after.pop())?;
            }
        }
        expected.sort()?;
        found.sort()?;
        assert!(rt; after.is_empty() && found == expected);
    }
    Ok(())
}

#[test]
fn items_come_in_order(rt: HostRuntime) -> Result<(), Fail> {
    let mut items = Vec::new(rt.alloc());
    for item in 0..500u32 {
        items.push(item)?;
    }
    let copy = relay(&rt, rt.alloc(), items.as_slice())?;
    assert!(rt; copy.as_slice() == items.as_slice());
    Ok(())
}

#[test]
fn try_adds_nothing_while_value_is_out(rt: HostRuntime) -> Result<(), Fail> {
    let (counter, user) = Counter::new(rt.alloc(), 7)?;
    let (first, second) = counter.split_ready::<Sums>(user);
    let mut value = counter.lock(&rt, first);
    let second = match try_add(&counter, second) {
        Ok(_) => panic!(rt; "the value was out"),
        Err(second) => second,
    };
    *value = value.wrapping_add(1);
    let first = counter.unlock_ready::<AddsOne>(value);
    let second = match try_add(&counter, second) {
        Ok(second) => second,
        Err(_) => panic!(rt; "the value was at home"),
    };
    let user = counter.join_ready::<Sums>(second, first);
    assert!(rt; counter.into_inner(user) == 9);
    Ok(())
}

#[test]
fn refused_memory_count(rt: HostRuntime) -> Result<(), Fail> {
    answers_or_lacks_memory(&rt, count(&rt, rt.alloc(), 2, 3), 6)
}

#[test]
fn refused_memory_relay(rt: HostRuntime) -> Result<(), Fail> {
    let copied = relay(&rt, rt.alloc(), &[3, 1, 2]);
    let is_copy = copied.map(|copy| copy.as_slice() == [3, 1, 2].as_slice());
    answers_or_lacks_memory(&rt, is_copy, true)
}
