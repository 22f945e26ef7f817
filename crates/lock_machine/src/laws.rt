//! Laws of the machine of guards. Each is the contract of a function with an empty body.
ghost use Rattle.lock_machine.specs.SoundRuns.{RunsAreSound, CallsKeepSound, RunsKeepLimits, SkipsKeepSound};
ghost use Rattle.lock_machine.specs.Replies.{RepliesAreAsMany};
ghost use Rattle.lock_machine.specs.Kept.{RefusalsKeepMachine, RefusedUpgradesKeepGuard};
ghost use Rattle.lock_machine.specs.Order.{WrongKindsComeFirst, UnfitComesBeforeWaiting, StrangersAreForeign};
ghost use Rattle.lock_machine.specs.Numbers.{NumbersAreUsedOnce, NewNumbersAreFree, SkipsGoForward};
ghost use Rattle.lock_machine.specs.Exclusion.{ExclusiveGuardsExclude, MutexGuardsExclude, NewGuardsAreHeld};
ghost use Rattle.lock_machine.specs.Barring.{BarsPersist, BarsKeepOthersOut};
ghost use Rattle.lock_machine.specs.declared.call.Call.{Call};
ghost use Rattle.lock_machine.specs.Parked.{ParkedGuardsHoldNothing};
ghost use Rattle.lock_machine.specs.Parking.{ParkedIsResumed};
ghost use Rattle.lock_machine.specs.Values.{OnlyWritesChangeValue, ReadersSeeOneValue};
ghost use Rattle.lock_machine.specs.TokenSteps.{TokensAreThoseHeld, TokensAreGivenBackOnce, SpentCountsReleases};
ghost use Rattle.lock_machine.specs.Nesting.{NestedGuardsMakeOneToken, NestedBumpsKeepToken};

use crate::Op;

/// Every machine that a run reaches from a new one is sound, and keeps its kind and limits. Runs keep a sound machine
/// sound.
pub fn runs_are_sound<T, O: Op<T>>()
    ensures sound { RunsAreSound O.meaning }
    ensures kept { CallsKeepSound O.meaning }
    ensures limits { RunsKeepLimits O.meaning }
    ensures skips { SkipsKeepSound T }
{}

/// A run has as many replies as calls.
pub fn replies_are_as_many<T, O: Op<T>>()
    ensures { RepliesAreAsMany O.meaning }
{}

/// A call that is refused or not admitted leaves the machine unchanged.
pub fn refusals_keep_machine<T, O: Op<T>>()
    ensures { RefusalsKeepMachine O.meaning }
{}

/// An upgrade that is not admitted leaves its guard and the value unchanged, also one for a single operation.
pub fn refused_upgrades_keep_guard<T, O: Op<T>>()
    ensures { RefusedUpgradesKeepGuard O.meaning }
{}

/// The order of refusals. A call that the kind does not have is refused for that first. A level of another party is
/// foreign, held or parked. An operation that does not fit is refused even where the upgrade is not admitted.
pub fn refusals_come_in_order<T, O: Op<T>>()
    ensures kinds { WrongKindsComeFirst O.meaning }
    ensures strangers { StrangersAreForeign }
    ensures unfit { UnfitComesBeforeWaiting O.meaning }
{}

/// A new guard's number is above every number issued before, and no guard has it already.
pub fn numbers_are_used_once<T, O: Op<T>>()
    ensures rising { NumbersAreUsedOnce O.meaning }
    ensures free { NewNumbersAreFree O.meaning }
    ensures skips { SkipsGoForward T }
{}

/// While an exclusive guard of a mutex or a reader-writer machine is held, no acquisition is admitted.
pub fn exclusive_guards_exclude<T>()
    ensures exclusive { ExclusiveGuardsExclude T }
    ensures mutex { MutexGuardsExclude T }
{}

/// The guard of an acquisition is held, under the number that was answered and in the mode that was acquired.
pub fn new_guards_are_held<T>()
    ensures { NewGuardsAreHeld T }
{}

/// The bar of a party stays until the party acquires exclusively or withdraws, whatever is called. While it stays, only
/// that party acquires, and only exclusively.
pub fn bars_keep_others_out<T, O: Op<T>>()
    ensures stands { BarsPersist O.meaning }
    ensures others { BarsKeepOthersOut }
{}

/// Without a bar, parking a guard and resuming it at once changes only the count of spent tokens.
///
/// The two calls may come from two parties. On a reentrant machine only the party that parked a level resumes it.
pub fn parked_is_resumed<T, O: Op<T>>()
    ensures plain { ParkedIsResumed O.meaning Call.Park }
    ensures fair { ParkedIsResumed O.meaning Call.ParkFair }
{}

/// Parked guards hold nothing: without them the machine admits the same parties, answers the same questions, and
/// upgrades the same guards.
pub fn parked_guards_hold_nothing<T>()
    ensures { ParkedGuardsHoldNothing T }
{}

/// Only a change, and an operation under an upgrade, change the value.
pub fn only_writes_change_value<T, O: Op<T>>()
    ensures { OnlyWritesChangeValue O.meaning }
{}

/// While a guard is held shared or upgradable, and makes no operation under an upgrade, the value stays the same,
/// whatever the parties call.
pub fn readers_see_one_value<T, O: Op<T>>()
    ensures { ReadersSeeOneValue O.meaning }
{}

/// The steps that a run makes on the raw state are a run of the modes. It ends with the tokens of the held guards: one
/// each, but on a reentrant machine one while any guard is held. Each acquired token was released once or is still
/// held.
pub fn tokens_are_those_held<T, O: Op<T>>()
    ensures held { TokensAreThoseHeld O.meaning }
    ensures once { TokensAreGivenBackOnce O.meaning }
{}

/// `spent` counts the released tokens, and stays at its largest value.
pub fn spent_counts_releases<T, O: Op<T>>()
    ensures { SpentCountsReleases O.meaning }
{}

/// On a reentrant machine the first held guard acquires the one token, and the last one releases it, in whatever order
/// they end. Otherwise only the bump of a sole held guard releases it, and acquires it again.
pub fn nested_guards_make_one_token<T, O: Op<T>>()
    ensures one_token { NestedGuardsMakeOneToken O.meaning }
    ensures nested_bumps { NestedBumpsKeepToken O.meaning }
{}
