//! The laws of a lock of one word. Each is the contract of a function with an empty body.
ghost use Rattle.lock_one.specs.Answers.{AnswersMatchHolds, FirstSteps, RefusalsHaveCauses};
ghost use Rattle.lock_one.specs.Bars.{BarredCallsAreNext};
ghost use Rattle.lock_one.specs.Runs.{EveryRunIsServed};
ghost use Rattle.lock_one.specs.Steps.{LastAccess};
ghost use Rattle.lock_one.specs.Stored.{StoringKeepsWords};
ghost use Rattle.lock_one.specs.Turn.{ReadersGetATurn};

/// After the exchange of a release, the call does not access the word. At most a wake-up follows.
pub fn releases_touch_no_more()
    ensures { LastAccess }
{}

/// After any acts of any number of threads on a new lock, what they hold is compatible, and no sleeping thread is forgotten.
pub fn every_run_is_served()
    ensures { EveryRunIsServed }
{}

/// From the step that sets the bar of a call to the one that clears it, no other call acquires, except for an upgrade. Only
/// the acquisition of that call clears its bar, or its withdrawal after its deadline. A call of a mutex sleeps at most four
/// times without a bar, its own or another's. Another writer sleeps under a bar, or under the turn of readers.
pub fn barred_calls_are_next()
    ensures { BarredCallsAreNext }
{}

/// From the step that sets the turn of readers to the next acquisition by a reader, at most one other call acquires: the one
/// that has set the bar. Only that acquisition clears the turn, or a withdrawal after a deadline. While it is set, a reader
/// that has set it is in its call. A reader sleeps at most four times under a writer without it.
pub fn readers_get_a_turn()
    ensures { ReadersGetATurn }
{}

/// A call that ends with false has changed nothing. One that acquires ends with true where it has taken what it wants, and
/// one that releases where it has given its hold. A try ends with false only on a word that refuses it.
pub fn answers_match_holds()
    ensures { AnswersMatchHolds }
{}

/// Whatever its steps are answered, a try is refused by a word that refuses it, and a call that blocks after its deadline.
pub fn refusals_have_causes()
    ensures { RefusalsHaveCauses }
{}

/// On a word that admits it, and that has no bit of sleepers, a call acquires by one exchange. A release of a holder that is
/// alone is one exchange, and one of a reader a load and a subtraction, where no word that they find has that bit.
pub fn first_steps()
    ensures { FirstSteps }
{}

/// Each word is stored as one number and read back as it was. Below 2^27 readers the number has 32 bits.
pub fn storing_keeps_words()
    ensures { StoringKeepsWords }
{}
