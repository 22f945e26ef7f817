//! Each call that allocates, with an allocation refused.
use crate::tests::WRITER;
use lock_states::world::World;
use lock_test_support::answer::lacks_memory;
use lock_word::seated::{Attempt, SeatedLock};
use lock_word::{AtomicStep, ExWant, ExWant as Wanted, Outcome};
use std::test::Fail;

#[test]
fn refused_memory_world(rt: HostRuntime) -> Result<(), Fail> {
    let mut world = match World::new(rt.alloc(), 2, 1) {
        Ok(world) => world,
        Err(fault) => return lacks_memory(&rt, fault),
    };
    let steps = [
        AtomicStep::Load(2),
        AtomicStep::Exchange(2, Wanted::Exclusive),
    ];
    match world.run(rt.alloc(), &steps) {
        Ok(made) => {
            assert!(rt; made.as_slice() == [Outcome::Loaded(0), Outcome::Done].as_slice());
            assert!(rt; world.word() == WRITER);
        }
        Err(fault) => {
            lacks_memory(&rt, fault)?;
            assert!(rt; world.word() == 0);
            assert!(rt; world.step(AtomicStep::Load(2)) == Outcome::Loaded(0));
        }
    }
    Ok(())
}

#[test]
fn refused_memory_seated_lock(rt: HostRuntime) -> Result<(), Fail> {
    match SeatedLock::new(rt.alloc(), 1) {
        Ok((lock, mut party)) => {
            assert!(rt; lock.attempt(&mut party, ExWant::Exclusive) == Attempt::Done);
            assert!(rt; lock.load(&mut party) == WRITER);
            Ok(())
        }
        Err(fault) => lacks_memory(&rt, fault),
    }
}
