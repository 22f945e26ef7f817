//! Operations of the user's own on the value behind a `Desk`: deposits and withdrawals.
ghost use Rattle.lock_examples.specs.Account.{entry_of};

use lock_api::model::Op;

/// An operation on an account, in cents. A change answers the new balance, and a read the present one.
#[derive(Clone, Copy, PartialEq, Eq, Debug)]
pub enum AccountOp {
    /// It does not fit if the balance would overflow 64 bits.
    Deposit(u32),
    /// It does not fit if the balance is smaller.
    Withdraw(u32),
}

impl Op<u64> for AccountOp {
    type Answer = u64;

    ghost meaning = { entry_of };

    fn fits(&self, balance: &u64) -> bool {
        match self {
            AccountOp::Deposit(cents) => balance.checked_add(*cents as u64).is_some(),
            AccountOp::Withdraw(cents) => *cents as u64 <= *balance,
        }
    }

    fn ask(&self, balance: &u64) -> u64 {
        *balance
    }

    fn apply(&self, balance: &mut u64) -> u64 {
        match self {
            AccountOp::Deposit(cents) => *balance += *cents as u64,
            AccountOp::Withdraw(cents) => *balance -= *cents as u64,
        }
        *balance
    }
}
