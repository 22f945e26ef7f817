//! An upgrade of a fair lock, from its first attempt to its end.
ghost use Rattle.std.specs.Prelude.{◌≡◌, ◌||◌, true, false, is_ok, IfOk, IfErr};
ghost use Rattle.lock_modes.specs.declared.mode.Mode.TheVariants.{Upgradable, Exclusive};
ghost use Rattle.lock_modes.specs.Modes.{may_become};
ghost use Rattle.lock_modes.specs.Tokens.{bag_of_tokens, IsOutAs};
ghost use Rattle.lock_raws_fair.specs.Sleeping.{UpgradeMaySleep};

use crate::fair_arbiter::{FairArbiter, FairToken, PendingUpgrade};
use crate::fair_wake::FairWake;
use lock_raws_monitor::Arbiter;

/// An upgrade that looks at the state next. It cannot be copied or dropped: it ends with its token.
pub(crate) struct Upgrade<T> {
    pending: PendingUpgrade<T>,
}

/// An upgrade that the state refused. Only `await_upgrade` lets it look again.
pub(crate) struct RefusedUpgrade<T> {
    pending: PendingUpgrade<T>,
}

/// An upgrade that waits, while one is announced. It spins or sleeps.
pub(crate) struct WaitingUpgrade<T> {
    pending: PendingUpgrade<T>,
}

impl<T> Upgrade<T> {
    /// Makes an upgrade that is not announced.
    pub(crate) fn of(token: FairToken<T>) -> Upgrade<T>
        ensures { result.pending ≡ record { token = token; announced = false } }
    {
        Upgrade {
            pending: PendingUpgrade::of(token),
        }
    }
}

impl<T> WaitingUpgrade<T> {
    /// Ends the pause.
    pub(crate) fn resumed(self) -> Upgrade<T>
        ensures { result.pending ≡ self.pending }
    {
        let WaitingUpgrade { pending } = self;
        Upgrade { pending }
    }
}

impl<A: Arbiter> FairArbiter<A> {
    /// Makes the token exclusive, which ends the upgrade, or refuses it.
    pub(crate) fn attempt_upgrade(
        &mut self,
        upgrade: Upgrade<A::Token>,
    ) -> Result<FairToken<A::Token>, RefusedUpgrade<A::Token>>
        requires upgradable { upgrade.pending.token.mode ≡ Upgradable }
        ensures mode { IfOk result (λ next. next.mode ≡ Exclusive) }
        ensures admitted { IsOutAs self.old.tokens_out upgrade.pending.token.token Upgradable
            → is_ok result ≡ may_become (bag_of_tokens self.old.tokens_out) Exclusive }
        ensures refused { IfErr result (λ refused. (refused.pending ≡ upgrade.pending) × (self.new ≡ self.old)) }
    {
        let Upgrade { pending } = upgrade;
        match self.upgrade(pending) {
            Ok(next) => Ok(next),
            Err(pending) => Err(RefusedUpgrade { pending }),
        }
    }

    /// Ends an upgrade if its time is over. Returns its token and the owed wake-up.
    pub(crate) fn withdraw_if(
        &mut self,
        is_over: bool,
        refused: RefusedUpgrade<A::Token>,
    ) -> Result<(FairToken<A::Token>, FairWake), RefusedUpgrade<A::Token>>
        ensures ends { is_ok result ≡ is_over }
        ensures back { IfOk result (λ ended. ended.0 ≡ refused.pending.token) }
        ensures stays { IfErr result (λ same. (same ≡ refused) × (self.new ≡ self.old)) }
    {
        if !is_over {
            return Err(refused);
        }
        let RefusedUpgrade { pending } = refused;
        Ok(self.withdraw(pending))
    }

    /// Announces an upgrade, unless one is announced. Also returns whether it did.
    pub(crate) fn await_upgrade(
        &mut self,
        refused: RefusedUpgrade<A::Token>,
    ) -> (WaitingUpgrade<A::Token>, bool)
        requires refused { IsOutAs self.old.tokens_out refused.pending.token.token Upgradable
            → may_become (bag_of_tokens self.old.tokens_out) Exclusive ≡ false }
        ensures token { result.0.pending.token ≡ refused.pending.token }
        ensures announced { result.0.pending.announced ≡ (refused.pending.announced || result.1) }
        ensures waits { self.new ≡ record self.old { upgrade_waits = true } }
        ensures sleeps { UpgradeMaySleep self.new result.0.pending }
    {
        let RefusedUpgrade { mut pending } = refused;
        let is_new = self.announce(&mut pending);
        (WaitingUpgrade { pending }, is_new)
    }
}
