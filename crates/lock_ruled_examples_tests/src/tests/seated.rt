//! A writer and a reader on one atomic word, each on its thread.
use crate::tests::WRITER_ALONE;
use lock_api::Fault;
use lock_examples::seated::write_and_read;
use std::test::Fail;

#[test]
fn writer_and_reader_take_turns(rt: HostRuntime) -> Result<(), Fail> {
    let (written, read) = write_and_read(&rt, rt.alloc(), 1)?;
    assert_eq!(rt; written, WRITER_ALONE);
    assert_eq!(rt; read, 1);
    assert!(rt; write_and_read(&rt, rt.alloc(), 0) == Err(Fault::BadLimits));
    Ok(())
}
