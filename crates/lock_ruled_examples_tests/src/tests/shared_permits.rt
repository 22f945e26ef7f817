//! Two threads that share one permit.
use lock_api::ruled::SharedSemaphore;
use lock_examples::shared_permits::double_both;
use std::test::Fail;

#[test]
fn permits_of_doubling_threads_come_back(rt: HostRuntime) -> Result<(), Fail> {
    let semaphore = SharedSemaphore::new(rt.alloc(), 1)?;
    assert_eq!(rt; double_both(&rt, &semaphore, (3, 4)), (6, 8));
    assert_eq!(rt; semaphore.available_permits(), 1);
    Ok(())
}
