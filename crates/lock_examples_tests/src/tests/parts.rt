//! Guards of a variant's value, and of an element of a list.
use lock_api::raw::{LockCore, RawLock};
use lock_api::{MappedMutexGuard, Mutex, MutexGuard, WordMutex};
use lock_examples::{Element, Job, Progress};
use std::test::Fail;

/// Whether a waiting job has no progress, and the progress of a running one and the job, after 2 is written to it.
fn write_progress<C: LockCore>(job: Mutex<RawLock<C>, Job>) -> (bool, Option<u64>, Job) {
    let has_none = MutexGuard::try_map(job.lock(), Progress).is_err();
    *job.lock() = Job::Running(1);
    let Ok(mut progress) = MutexGuard::try_map(job.lock(), Progress) else {
        return (has_none, None, Job::Waiting);
    };
    if let Some(number) = MappedMutexGuard::get_mut(&mut progress) {
        *number = 2;
    }
    let written = MappedMutexGuard::get(&progress).copied();
    drop(progress);
    (has_none, written, job.into_inner())
}

#[test]
fn progress_of_a_running_job_is_written(rt: HostRuntime) -> Result<(), Fail> {
    let job = WordMutex::new(rt.alloc(), rt, Job::Waiting)?;
    let (has_none, written, job) = write_progress(job);
    assert_eq!(rt; (has_none, written), (true, Some(2)));
    assert!(rt; matches!(job, Job::Running(2)));
    Ok(())
}

/// The element of a list at the first index, and the second index if the list has no element there.
fn find<C: LockCore>(
    list: &Mutex<RawLock<C>, Vec<u64>>,
    at: [usize; 2],
) -> (Option<u64>, Option<usize>) {
    let found = match MutexGuard::try_map(list.lock(), Element(at[0])) {
        Ok(element) => MappedMutexGuard::get(&element).copied(),
        Err(_) => None,
    };
    let missed = match MutexGuard::try_map_or_err(list.lock(), Element(at[1])) {
        Ok(_) => None,
        Err((_, missed)) => Some(missed),
    };
    (found, missed)
}

#[test]
fn an_element_of_a_list_is_read(rt: HostRuntime) -> Result<(), Fail> {
    let list = WordMutex::new(rt.alloc(), rt, vec![in rt.alloc(); 5u64, 6]?)?;
    assert_eq!(rt; find(&list, [1, 2]), (Some(6), Some(2)));
    Ok(())
}
