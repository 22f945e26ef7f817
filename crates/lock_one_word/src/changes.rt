//! The calls that release a token or change its mode.
ghost use Rattle.std.specs.Prelude.{◌≡◌, true, MatchResult, OnErr, is_ok};
ghost use Rattle.lock_modes.specs.declared.mode.Mode.TheVariants.{Shared, Exclusive, Upgradable};
ghost use Rattle.lock_one.specs.Machine.{core_of};
ghost use Rattle.lock_word.specs.declared.want.ExWant.TheVariants.{Upgrade};
ghost use Rattle.lock_word.specs.Rule.{WordShows};
ghost use Rattle.lock_one_word.specs.Calls.{IsTokenOf, WasTried, HasTimedOut};

use crate::until::{Deadline, Endless, Until};
use crate::word_lock::{WordLock, WordToken};
use lock_modes::Mode;
use lock_one::TURN;
use lock_word::Down;
use std::sync::Wait;
use std::time::{Clock, Instant};

impl WordLock {
    /// Loads the word by a token. It encodes what all parties hold, the token among them.
    pub fn load(&self, token: WordToken) -> (u64, WordToken)
        requires { token.lock ≡ self.now }
        ensures token { result.1 ≡ token }
        ensures shows { WordShows self.now.readers result.0 token.held }
    {
        let mut seat = token.into_seat();
        let word = self.load_word(&mut seat);
        (word % TURN, seat.into_token())
    }

    /// Releases a token of the mode, and wakes the sleepers that this unblocks. After the step that releases, it accesses
    /// the word no more.
    #[tactic(auto, using(crate::proofs::Tokens::may_release, crate::proofs::Tokens::releases))]
    pub fn release(&self, token: WordToken, mode: Mode)
        requires { IsTokenOf self.now mode token }
    {
        let mut seat = token.into_seat();
        self.take(&mut seat, Down::of_mode(mode));
        seat.end();
    }

    /// Makes an exclusive token shared, and wakes the sleepers that this unblocks.
    pub fn downgrade(&self, token: WordToken) -> WordToken
        requires { IsTokenOf self.now Exclusive token }
        ensures { IsTokenOf self.now Shared result }
    {
        let mut seat = token.into_seat();
        self.take(&mut seat, Down::ToShared);
        seat.into_token()
    }

    /// Makes an exclusive token upgradable, and wakes the sleepers that this unblocks.
    pub fn downgrade_to_upgradable(&self, token: WordToken) -> WordToken
        requires { IsTokenOf self.now Exclusive token }
        ensures { IsTokenOf self.now Upgradable result }
    {
        let mut seat = token.into_seat();
        self.take(&mut seat, Down::ToUpgradable);
        seat.into_token()
    }

    /// Makes an upgradable token shared, and wakes the sleepers that this unblocks.
    pub fn downgrade_upgradable(&self, token: WordToken) -> WordToken
        requires { IsTokenOf self.now Upgradable token }
        ensures { IsTokenOf self.now Shared result }
    {
        let mut seat = token.into_seat();
        self.take(&mut seat, Down::UpgradableToShared);
        seat.into_token()
    }

    /// Makes an upgradable token exclusive without blocking, or returns it unchanged if a word refuses.
    pub fn try_upgrade(&self, token: WordToken) -> Result<WordToken, WordToken>
        requires { IsTokenOf self.now Upgradable token }
        ensures upgraded { MatchResult result (IsTokenOf self.now Exclusive) (λ back. back ≡ token) }
        ensures tried { WasTried self.now Upgrade (is_ok result) }
    {
        let (looked, mut seat) = self.begin_upgrade(token, false);
        let ended = self.attempt(&mut seat, looked);
        let upgraded = ended.is_ok();
        let token = seat.into_token();
        if upgraded { Ok(token) } else { Err(token) }
    }

    /// Makes an upgradable token exclusive, blocking until no other token is held.
    pub fn upgrade<R: Wait>(&self, rt: &R, token: WordToken) -> WordToken
        requires { IsTokenOf self.now Upgradable token }
        ensures { IsTokenOf self.now Exclusive result }
    {
        match self.upgrade_within(rt, token, &Endless) {
            Ok(token) => token,
            Err(_) => unreachable!(),
        }
    }

    /// Makes an upgradable token exclusive, blocking until `deadline`, or returns it unchanged.
    pub fn upgrade_until<R: Wait + Clock>(
        &self,
        rt: &R,
        token: WordToken,
        deadline: Instant,
    ) -> Result<WordToken, WordToken>
        requires { IsTokenOf self.now Upgradable token }
        ensures upgraded { MatchResult result (IsTokenOf self.now Exclusive) (λ back. back ≡ token) }
        ensures refused { OnErr result (HasTimedOut self.now) }
    {
        self.upgrade_within(rt, token, &Deadline(deadline))
    }

    /// Makes an upgradable token exclusive, blocking until the wait is over, or returns it unchanged.
    #[inline(always)]
    fn upgrade_within<R: Wait, U: Until<R>>(
        &self,
        rt: &R,
        token: WordToken,
        until: &U,
    ) -> Result<WordToken, WordToken>
        requires { IsTokenOf self.now Upgradable token }
        ensures upgraded { MatchResult result (IsTokenOf self.now Exclusive) (λ back. back ≡ token) }
        ensures refused { OnErr result (HasTimedOut self.now) }
        ensures over { OnErr result (U.has_end ≡ true) }
    {
        let (looked, mut seat) = self.begin_upgrade(token, true);
        let ended = self.come_to_end(rt, &mut seat, looked, until);
        let upgraded = ended.is_ok();
        let token = seat.into_token();
        if upgraded { Ok(token) } else { Err(token) }
    }
}
