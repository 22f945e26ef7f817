//! The number of free permits, and the steps of calls on it.
ghost use Rattle.std.specs.Prelude.{◌≡◌, ◌≤◌, IfOk, IfErr, MatchResult};
ghost use Rattle.lock_modes.specs.declared.fault.Fault.TheVariants as fault;
ghost use Rattle.lock_ruled.specs.PermitCalls.{IsSameCall};

mod call;
mod token;

use crate::shared_semaphore::plays::{GivePermits, LookAtPermits, TakePermits};
use crate::shared_semaphore::rule::{PermitRule, PermitView};
use atomic_table::Table;
pub(crate) use call::PermitCall;
use lock_modes::Fault;
use std::alloc::Global;
use std::marker::Model;
pub use token::PermitToken;
pub(crate) use token::ReleasedPermits;

/// The number of free permits.
const FREE: usize = 0;

/// The number of free permits, in a table. Contracts see which semaphore it is, and the number of all permits.
#[derive(Drop)]
pub(crate) struct PermitTable {
    table: Table<(), PermitView, u64, PermitRule, Global>,
}

impl Model for PermitTable {
    ghost use Rattle.std.specs.Prelude.{◌≡◌};
    ghost use Rattle.lock_ruled.specs.Accounts.{SemaphoreView};

    ghost Value = { SemaphoreView };

    ghost view = { λ s. record { id = s.table.shared.table_id; permits = s.table.shared.key } };

    ghost invariant = { λ s. s.table.shared.table_id.words ≡ 1 };
}

impl PermitTable {
    /// Makes a table of so many permits, all of them free.
    pub(crate) fn new(alloc: Global, permits: u64) -> Result<PermitTable, Fault>
        ensures permits { IfOk result (λ made. made.permits ≡ permits) }
        ensures fault { IfErr result (λ error. error ≡ fault.OutOfMemory) }
    {
        match Table::of_words(alloc, &[permits], &permits) {
            Ok((table, _)) => Ok(PermitTable { table }),
            Err(_) => Err(Fault::OutOfMemory),
        }
    }

    /// Begins a call for this many permits, by a load of the number of free ones.
    pub(crate) fn begin<K>(&self, permits: u64, kept: K) -> PermitCall<K>
        ensures semaphore { result.semaphore ≡ self.now }
        ensures permits { result.permits ≡ permits }
        ensures own { result.own ≡ 0 }
        ensures kept { result.kept ≡ kept }
    {
        let (free, seat) = self.table.shared.load_new_seat::<LookAtPermits>(FREE);
        PermitCall {
            seat,
            permits,
            free,
            kept,
        }
    }

    /// Takes the permits by one exchange, or returns the call that found another number of free ones.
    pub(crate) fn take<K>(&self, call: PermitCall<K>) -> Result<PermitCall<K>, PermitCall<K>>
        requires semaphore { call.semaphore ≡ self.now }
        requires none { call.own ≡ 0 }
        requires enough { call.permits ≤ call.free }
        ensures within { call.permits ≤ self.now.permits }
        ensures same { MatchResult result (IsSameCall call) (IsSameCall call) }
        ensures took { MatchResult result (λ took. took.own ≡ took.permits) (λ same. same.own ≡ 0) }
    {
        let PermitCall {
            mut seat,
            permits,
            free,
            kept,
        } = call;
        let shared = &self.table.shared;
        let found = shared.compare_exchange::<TakePermits>(&mut seat, FREE, free, free - permits);
        let call = PermitCall {
            seat,
            permits,
            free: found,
            kept,
        };
        if found == free { Ok(call) } else { Err(call) }
    }

    /// Adds the permits of the token to the free ones.
    pub(crate) fn give_back(&self, token: PermitToken) -> ReleasedPermits
        requires { token.semaphore ≡ self.now }
    {
        let PermitToken { mut seat, permits } = token;
        self.table
            .shared
            .fetch_add::<GivePermits>(&mut seat, FREE, permits);
        ReleasedPermits { seat }
    }

    /// Returns how many permits are free.
    pub(crate) fn free(&self) -> u64
        ensures { result ≤ self.now.permits }
    {
        self.table.shared.load_new_seat::<LookAtPermits>(FREE).0
    }
}
