//! A call for permits.
ghost use Rattle.std.specs.Prelude.{◌≡◌, nat_lt};
ghost use Rattle.lock_ruled.specs.Accounts.{token_of};

use crate::shared_semaphore::rule::PermitView;
use crate::shared_semaphore::table::token::PermitToken;
use atomic_table::Seat;
use std::marker::Model;

/// A call for permits. Only the steps of a `PermitTable` reach its seat.
///
/// It cannot be dropped: it ends with a token of the permits that it took, or leaves where it took none. So no body can lose
/// permits that a call took.
pub(crate) struct PermitCall<K> {
    pub(super) seat: Seat<(), PermitView>,
    pub(super) permits: u64,
    /// How many permits its last step found free.
    pub(super) free: u64,
    /// What the call keeps until it ends.
    pub(super) kept: K,
}

impl<K> Model for PermitCall<K> {
    ghost use Rattle.std.specs.Prelude.{◌≡◌, ◌≤◌, []};
    ghost use Rattle.lock_ruled.specs.Seals.{PermitCallView, call_view, call_view_code};

    ghost Value = { PermitCallView K };

    ghost coded = { call_view_code K.code };

    ghost view = { λ c.
        call_view (record { id = c.seat.table_id; permits = c.seat.me.0.all }) c.permits c.seat.me.0.own c.free c.kept };

    ghost invariant = { λ c. (c.seat.me.1 ≡ []) × (c.free ≤ c.seat.me.0.all) };
}

impl<K> PermitCall<K> {
    /// Returns whether its last step found fewer free permits than it wants.
    pub(crate) fn found_few(&self) -> bool
        ensures { result ≡ nat_lt self.now.free self.now.permits }
    {
        self.free < self.permits
    }

    /// Ends the call with a token of the permits that it took. Also returns what it kept.
    pub(crate) fn into_token(self) -> (PermitToken, K)
        requires { self.own ≡ self.permits }
        ensures token { result.0 ≡ token_of self.semaphore self.permits }
        ensures kept { result.1 ≡ self.kept }
    {
        let PermitCall {
            seat,
            permits,
            free: _,
            kept,
        } = self;
        (PermitToken { seat, permits }, kept)
    }

    /// Ends a call that took no permits. Returns what it kept.
    pub(crate) fn leave(self) -> K
        requires { self.own ≡ 0 }
        ensures { result ≡ self.kept }
    {
        let PermitCall {
            seat,
            permits: _,
            free: _,
            kept,
        } = self;
        drop(seat);
        kept
    }
}
