//! A bank of two accounts, between which threads move money.
ghost use Rattle.std.specs.Prelude.{◌≡◌, ◌+◌, ◌^◌, ◌<◌, IfOk};
ghost use Rattle.std.specs.Thread.{IsSync};

use lock_api::Fault;
use lock_api::ruled::{Constant, Measure, RuledMutex, SameView, User};
use std::alloc::Global;
use std::sync::Wait;
use std::thread::{Threads, join};

/// Two accounts.
#[derive(Clone, Copy, PartialEq, Eq, Debug, Drop)]
pub struct Accounts {
    pub left: u64,
    pub right: u64,
}

/// The direction of a transfer.
#[derive(Clone, Copy, PartialEq, Eq, Debug)]
pub enum Direction {
    ToLeft,
    ToRight,
}

impl Accounts {
    /// Returns the accounts after the transfer, or unchanged if the amount is not there.
    pub fn transfer(self, way: Direction, amount: u64) -> Accounts
        requires { self.left + self.right < 2 ^ 64 }
        ensures { result.left + result.right ≡ self.left + self.right }
    {
        let Accounts { left, right } = self;
        match way {
            Direction::ToRight if amount <= left => Accounts {
                left: left - amount,
                right: right + amount,
            },
            Direction::ToLeft if amount <= right => Accounts {
                left: left + amount,
                right: right - amount,
            },
            _ => self,
        }
    }
}

/// The measure of the accounts: what is on both.
pub struct Sum;

impl Measure<Accounts> for Sum {
    ghost use Rattle.std.specs.Prelude.{◌+◌};

    ghost measure = { λ accounts. accounts.left + accounts.right };
}

type Bank = RuledMutex<Accounts, u64, Constant<Sum>>;

type Teller = User<Accounts, u64>;

/// Makes each transfer that is possible, one after another.
fn transfer_all<R: Wait>(
    rt: &R,
    bank: &Bank,
    teller: Teller,
    way: Direction,
    amounts: &[u64],
) -> Teller
    requires bank { teller.mutex ≡ bank.now }
    requires range { teller.view < 2 ^ 64 }
    ensures { result ≡ teller }
{
    let mut teller = teller;
    for amount in amounts {
        let mut accounts = bank.lock(rt, teller);
        bank.known(&accounts);
        *accounts = accounts.transfer(way, *amount);
        teller = bank.unlock_ready::<SameView>(accounts);
    }
    teller
}

/// Returns the accounts after two threads have made the transfers, one to the right and one to the left.
pub fn shuffle<R: Threads + Wait + Sync>(
    rt: &R,
    alloc: Global,
    accounts: Accounts,
    to_right: &[u64],
    to_left: &[u64],
) -> Result<Accounts, Fault>
    requires { accounts.left + accounts.right < 2 ^ 64 }
    ensures { IfOk result (λ after. after.left + after.right ≡ accounts.left + accounts.right) }
{
    let (bank, teller) = Bank::new(alloc, accounts)?;
    let shared = &bank;
    let (teller, other) = bank.split_ready::<SameView>(teller);
    let (teller, other) = join(
        rt,
        move || -> Teller
            requires { IsSync R.row × (teller.mutex ≡ shared.now) × (teller.view < 2 ^ 64) }
            ensures { result ≡ teller }
        { transfer_all(rt, shared, teller, Direction::ToRight, to_right) },
        move || -> Teller
            requires { IsSync R.row × (other.mutex ≡ shared.now) × (other.view < 2 ^ 64) }
            ensures { result ≡ other }
        { transfer_all(rt, shared, other, Direction::ToLeft, to_left) },
    );
    let teller = bank.join_ready::<SameView>(teller, other);
    Ok(bank.into_inner_ready(teller))
}
