//! A shelf lends objects, and gets each back at the end of its loan.
use lock_api::raw::{LockCore, RawLock, WordRaw};
use lock_examples::{Loan, Shelf};
use std::test::Fail;

/// The object of a loan.
fn object<C: LockCore>(loan: &Option<Loan<'_, RawLock<C>, u64>>) -> Option<u64> {
    match loan {
        Some(loan) => Some(loan.object),
        None => None,
    }
}

/// What three loans of two objects lend at a time, and what another lends once the second has ended.
fn borrowed<C: LockCore>(
    shelf: &Shelf<RawLock<C>, u64>,
) -> Result<([Option<u64>; 3], Option<u64>), Fail> {
    shelf.put(3)?;
    shelf.put(4)?;
    let (first, second, third) = (shelf.borrow(), shelf.borrow(), shelf.borrow());
    let at_a_time = [object(&first), object(&second), object(&third)];
    drop(second);
    Ok((at_a_time, object(&shelf.borrow())))
}

#[test]
fn a_loan_returns_its_object(rt: HostRuntime) -> Result<(), Fail> {
    let shelf: Shelf<WordRaw<HostRuntime>, u64> = Shelf::new(rt.alloc(), rt)?;
    assert_eq!(rt; borrowed(&shelf)?, ([Some(3), Some(4), None], Some(4)));
    Ok(())
}
