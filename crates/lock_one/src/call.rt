//! A call on a lock of one word, step by step.
ghost use Rattle.std.specs.Prelude.{◌≡◌, ◌<◌, ◌^◌, ◌&&◌, ◌||◌, if◌then◌else◌};
ghost use Rattle.lock_one.specs.Machine.{release_of, alone, class_of, has_turn, removes_reader, under_bar};
ghost use Rattle.lock_one.specs.Rule.{is_shared, passes_turn};

use crate::action::{Action, Sleeper};
use crate::sleep_view::Debt;
use crate::stage::Stage;
use lock_word::{BAR, Down, EXCLUSIVE, ExWant, Occupancy, UPGRADABLE, has_bar, unblocks};

/// The turn of readers.
pub const TURN: u64 = 34_359_738_368;

/// The bit of sleepers.
pub const SLEEPERS: u64 = 68_719_476_736;

/// The readers' limit from which on a call yields in place of a sleep. A sleep compares the low half of a stored word, which
/// has 27 bits of readers.
const YIELDS_FROM: u64 = 134_217_728;

/// How many more exchanges a release makes after its first one fails. Then it subtracts, which cannot fail.
const EXCHANGES: u32 = 8;

/// How often a call sleeps before a call of a mutex sets the bar, and a reader its turn. So a call that slept enough is next,
/// and a lock that is seldom contended for long hands nothing over.
const ENOUGH_SLEEPS: u8 = 4;

/// How many pauses a call makes before it sleeps.
const PAUSES: u32 = 6;

/// The first pause spins two to the power of this number of times. Each later one is twice as long.
const SHORTEST: u32 = 6;

/// The longest pause spins two to the power of this number of times.
const LONGEST: u32 = 9;

/// A call between two of its steps.
#[derive(Clone, Copy, PartialEq, Eq, Debug)]
pub struct WordCall {
    /// The readers' limit of the lock. A lock for one reader is a mutex.
    pub readers: u64,
    /// The step whose answer the call awaits.
    pub stage: Stage,
    /// What the call acquires.
    pub want: ExWant,
    /// What the call releases.
    pub down: Down,
    /// Whether the call blocks.
    pub blocks: bool,
    /// Whether the call sets the bar before it sleeps. In a mutex it first sleeps up to four times.
    pub announces: bool,
    /// Whether the call has set the bar.
    pub announced: bool,
    /// Whether the call has set the turn of readers.
    pub turned: bool,
    /// Whether the deadline of the call has passed.
    pub late: bool,
    /// How often the call has slept, up to four. A brief sleep that lasted its time counts as four.
    pub sleeps: u8,
    /// How many pauses the call has made, or how many exchanges of a release have failed.
    pub pauses: u32,
    /// The word that the call found last.
    pub loaded: u64,
    /// The word that the exchange under way leaves.
    pub left: u64,
}

impl WordCall {
    ghost use Rattle.lock_one.specs.Machine.{acquiring, has_sleepers, has_turn, with_sleepers, with_turn, word_withdrawn, taking, next_of, goes_to, ended, acquired, refused, wakes_one, has_slept, is_due, is_brief, class_of, decide, drops_turn, mark_or_sleep, wait, sleep, sleeps_after, takes_turn, time_out, release_on, subtract, release_again, look_to_remove, marked, sets_bar, sets_turn, wakes, withdrawn, won};

    /// Begins a call that acquires or upgrades. Returns the call and its first action.
    pub fn acquire(readers: u64, want: ExWant, blocks: bool, announces: bool) -> (WordCall, Action)
        ensures { result ≡ acquiring readers want blocks announces }
    {
        let call = WordCall {
            readers,
            stage: Stage::Look,
            want,
            down: Down::Shared,
            blocks,
            announces,
            announced: false,
            turned: false,
            late: false,
            sleeps: 0,
            pauses: 0,
            loaded: 0,
            left: 0,
        };
        (call, Action::Load)
    }

    /// Takes the answer to the last action, and returns the next action.
    pub fn next(&mut self, found: u64) -> Action
        ensures { (self.new, result) ≡ next_of found self.old }
    {
        match self.stage {
            Stage::Look => self.decide(found),
            Stage::Try if found == self.loaded => self.has_won(),
            Stage::Try => self.decide(found),
            Stage::Pause => self.to(Stage::Look, Action::Load),
            Stage::Mark if found == self.loaded => self.has_marked(),
            Stage::Mark => self.decide(found),
            Stage::Sleep => {
                self.late = found == 1;
                self.sleeps = self.sleeps_after(found);
                self.pauses = 0;
                self.to(Stage::Look, Action::Load)
            }
            Stage::Withdraw if found == self.loaded => self.has_withdrawn(),
            Stage::Withdraw => self.decide(found),
            Stage::Leave if found == self.loaded => self.refused(),
            Stage::Leave => self.decide(found),
            Stage::LookToRemove => self.look_to_remove(found),
            Stage::Subtract => self.wake(found),
            Stage::Release if found == self.loaded => self.wake(found),
            Stage::Release => self.release_again(found),
            Stage::Wake => self.end(true),
            Stage::WakeRefused => self.refused(),
            Stage::WakeAcquired => self.acquired(),
            Stage::Acquired | Stage::Refused | Stage::Ended => self.end(false),
        }
    }

    fn to(&mut self, stage: Stage, action: Action) -> Action
        ensures { (self.new, result) ≡ goes_to self.old stage action }
    {
        self.stage = stage;
        action
    }

    fn end(&mut self, answer: bool) -> Action
        ensures { (self.new, result) ≡ ended answer self.old }
    {
        self.to(Stage::Ended, Action::End(answer))
    }

    fn acquired(&mut self) -> Action
        ensures { (self.new, result) ≡ acquired self.old }
    {
        self.to(Stage::Acquired, Action::End(true))
    }

    fn refused(&mut self) -> Action
        ensures { (self.new, result) ≡ refused self.old }
    {
        self.to(Stage::Refused, Action::End(false))
    }

    fn wakes_one(&self) -> bool
        ensures { result ≡ wakes_one self.now }
    {
        self.readers == 1
    }

    fn has_slept(&self) -> bool
        ensures { result ≡ has_slept self.now }
    {
        self.sleeps != 0
    }

    /// Returns whether the call may set the bar: a call of a mutex once it has slept enough.
    fn is_due(&self) -> bool
        ensures { result ≡ is_due self.now }
    {
        !self.wakes_one() || self.sleeps == ENOUGH_SLEEPS
    }

    /// Returns how often the call has slept after a sleep with this answer.
    fn sleeps_after(&self, found: u64) -> u8
        ensures { result ≡ sleeps_after found self.now }
    {
        if found == 2 && self.is_brief() {
            return ENOUGH_SLEEPS;
        }
        if self.sleeps < ENOUGH_SLEEPS {
            self.sleeps + 1
        } else {
            self.sleeps
        }
    }

    /// Returns whether the next sleep is brief: that of a reader, or of a call of a mutex that was woken.
    fn is_brief(&self) -> bool
        ensures { result ≡ is_brief self.now }
    {
        if self.sleeps >= ENOUGH_SLEEPS {
            return false;
        }
        if self.wakes_one() {
            let is_exclusive = matches!(self.want, ExWant::Exclusive);
            let has_bar = self.loaded % SLEEPERS >= BAR;
            return self.has_slept() && self.announces && is_exclusive && !has_bar;
        }
        is_shared(self.want) && !has_turn(self.loaded)
    }

    /// Returns whether the call takes the turn as it acquires on this word.
    fn takes_turn(&self, word: u64) -> bool
        ensures { result ≡ takes_turn self.now word }
    {
        has_turn(word) && is_shared(self.want)
    }

    /// Acquires if the word admits it. Otherwise the call pauses, sleeps or ends.
    fn decide(&mut self, word: u64) -> Action
        ensures { (self.new, result) ≡ decide word self.old }
    {
        self.loaded = word;
        let exchanged = self
            .want
            .exchanged(self.announced, self.readers, word % TURN);
        match exchanged {
            Some(next) if !has_turn(word) || passes_turn(self.announced, self.want) => {
                let left = self.word_after(word, next);
                self.left = left;
                self.to(Stage::Try, Action::Exchange(word, left))
            }
            _ => self.wait(),
        }
    }

    /// Returns the word after an acquisition that leaves this of its holds and its bar.
    fn word_after(&self, word: u64, next: u64) -> u64
        requires { next < 2 ^ 35 }
        ensures { result ≡ (if takes_turn self.now word then next else with_sleepers (with_turn next (has_turn word)) (has_sleepers word || (wakes_one self.now && has_slept self.now))) }
    {
        if self.takes_turn(word) {
            return next;
        }
        let turn = if has_turn(word) { TURN } else { 0 };
        let keeps = word >= SLEEPERS || self.wakes_one() && self.has_slept();
        let sleepers = if keeps { SLEEPERS } else { 0 };
        next.saturating_add(turn).saturating_add(sleepers)
    }

    /// Ends the call that has acquired, after a wake-up if it took the turn.
    fn has_won(&mut self) -> Action
        ensures { (self.new, result) ≡ won self.old }
    {
        if self.takes_turn(self.loaded) && self.loaded >= SLEEPERS {
            return self.to(Stage::WakeAcquired, Action::WakeAll);
        }
        self.acquired()
    }

    /// Pauses, sleeps or ends the call, since the loaded word refuses.
    fn wait(&mut self) -> Action
        ensures { (self.new, result) ≡ wait self.old }
    {
        if !self.blocks {
            return self.refused();
        }
        if self.late {
            return self.time_out();
        }
        let made = self.pauses;
        if made < PAUSES {
            self.pauses = made + 1;
            let spin = if made < LONGEST - SHORTEST {
                made + SHORTEST
            } else {
                LONGEST
            };
            return self.to(Stage::Pause, Action::Spin(spin));
        }
        self.mark_or_sleep()
    }

    fn sets_bar(&self) -> bool
        ensures { result ≡ sets_bar self.now }
    {
        let is_exclusive = matches!(self.want, ExWant::Exclusive);
        self.announces
            && is_exclusive
            && !self.announced
            && self.is_due()
            && self.loaded % SLEEPERS < BAR
    }

    fn sets_turn(&self) -> bool
        ensures { result ≡ sets_turn self.now }
    {
        let flags = self.loaded % SLEEPERS;
        is_shared(self.want)
            && !self.wakes_one()
            && self.sleeps == ENOUGH_SLEEPS
            && flags < TURN
            && flags >= EXCLUSIVE
    }

    /// Sleeps, after an exchange that sets the bit of sleepers, the bar and the turn where they are needed.
    fn mark_or_sleep(&mut self) -> Action
        ensures { (self.new, result) ≡ mark_or_sleep self.old }
    {
        let word = self.loaded;
        let bar = if self.sets_bar() { BAR } else { 0 };
        let turns = has_turn(word) || self.sets_turn();
        let turn = if turns { TURN } else { 0 };
        let left = word % TURN + bar + turn + SLEEPERS;
        if left == word {
            return self.sleep();
        }
        self.left = left;
        self.to(Stage::Mark, Action::Exchange(word, left))
    }

    fn has_marked(&mut self) -> Action
        ensures { (self.new, result) ≡ marked self.old }
    {
        let turned = self.turned || self.sets_turn();
        self.announced = self.announced || self.sets_bar();
        self.turned = turned;
        self.loaded = self.left;
        self.sleep()
    }

    fn sleep(&mut self) -> Action
        ensures { (self.new, result) ≡ sleep self.old }
    {
        let class = class_of(self.announced, self.want);
        let action = if self.readers < YIELDS_FROM {
            Action::Sleep(self.loaded, class, self.is_brief())
        } else {
            Action::Yield
        };
        self.to(Stage::Sleep, action)
    }

    /// Ends the call after its deadline.
    ///
    /// A call with a bar clears it first, and one that has set the turn clears that. A call of a mutex that has slept, with a
    /// bar or without, sets the bit of sleepers, since it may have been woken in place of another thread.
    fn time_out(&mut self) -> Action
        ensures { (self.new, result) ≡ time_out self.old }
    {
        let word = self.loaded;
        if self.announced || self.drops_turn() {
            let left = self.word_withdrawn();
            self.left = left;
            return self.to(Stage::Withdraw, Action::Exchange(word, left));
        }
        if self.wakes_one() && self.has_slept() && word < SLEEPERS {
            let left = word + SLEEPERS;
            self.left = left;
            return self.to(Stage::Leave, Action::Exchange(word, left));
        }
        self.refused()
    }

    fn drops_turn(&self) -> bool
        ensures { result ≡ drops_turn self.now }
    {
        self.turned && has_turn(self.loaded)
    }

    /// Returns the word after a withdrawal.
    fn word_withdrawn(&self) -> u64
        ensures { result ≡ word_withdrawn self.now }
    {
        let word = self.loaded;
        if !self.announced {
            return word.saturating_sub(TURN);
        }
        let turn = if has_turn(word) { TURN } else { 0 };
        let sleepers = if self.wakes_one() { SLEEPERS } else { 0 };
        (word % TURN).saturating_sub(BAR) + turn + sleepers
    }

    fn has_withdrawn(&mut self) -> Action
        ensures { (self.new, result) ≡ withdrawn self.old }
    {
        self.announced = false;
        self.turned = false;
        if self.loaded >= SLEEPERS && !self.wakes_one() {
            self.to(Stage::WakeRefused, Action::WakeAll)
        } else {
            self.refused()
        }
    }

    /// Begins a call that releases or downgrades. Returns the call and its first action.
    pub fn release(readers: u64, down: Down) -> (WordCall, Action)
        ensures { result ≡ taking readers down }
    {
        let (mut call, _) = WordCall::acquire(readers, ExWant::Shared, false, false);
        call.down = down;
        let action = if removes_reader(readers, down) {
            call.to(Stage::LookToRemove, Action::Load)
        } else {
            call.stage = Stage::Release;
            call.release_on(alone_word(down))
        };
        (call, action)
    }

    /// Begins the exchange that releases on this word.
    fn release_on(&mut self, word: u64) -> Action
        ensures { (self.new, result) ≡ release_on word self.old }
    {
        self.loaded = word;
        let (keeps, _) = released(self.readers, word, self.down);
        let core = (word % TURN).saturating_sub(self.down.amount());
        let turn = if has_turn(word) { TURN } else { 0 };
        let sleepers = if keeps { SLEEPERS } else { 0 };
        let left = core + turn + sleepers;
        self.left = left;
        self.to(Stage::Release, Action::Exchange(word, left))
    }

    /// Releases a shared hold by a subtraction, or by the exchange that can clear the bit of sleepers, if it is set.
    fn look_to_remove(&mut self, word: u64) -> Action
        ensures { (self.new, result) ≡ look_to_remove word self.old }
    {
        if word >= SLEEPERS {
            return self.release_on(word);
        }
        self.subtract()
    }

    /// Makes the release on the word that a failed exchange found, by another exchange or, after many, by a subtraction.
    fn release_again(&mut self, word: u64) -> Action
        ensures { (self.new, result) ≡ release_again word self.old }
    {
        if self.pauses >= EXCHANGES {
            return self.subtract();
        }
        self.pauses += 1;
        self.release_on(word)
    }

    fn subtract(&mut self) -> Action
        ensures { (self.new, result) ≡ subtract self.old }
    {
        let down = self.down;
        self.to(Stage::Subtract, Action::Subtract(down))
    }

    /// Makes the wake-up that the release of this word owes.
    fn wake(&mut self, word: u64) -> Action
        ensures { (self.new, result) ≡ wakes (release_of self.old.readers word self.old.down).1 self.old }
    {
        let (_, debt) = released(self.readers, word, self.down);
        match debt {
            Debt::Nothing => self.end(true),
            Debt::One => self.to(Stage::Wake, Action::WakeOne),
            Debt::All => self.to(Stage::Wake, Action::WakeAll),
            Debt::Next => self.to(Stage::Wake, Action::WakeNext),
            Debt::Turn => self.to(Stage::Wake, Action::WakeTurn),
        }
    }
}

/// Returns whether T is set.
fn has_turn(word: u64) -> bool
    ensures { result ≡ has_turn word }
{
    word % SLEEPERS >= TURN
}

fn is_shared(want: ExWant) -> bool
    ensures { result ≡ is_shared want }
{
    matches!(want, ExWant::Shared)
}

/// Returns whether the turn of readers lets a call pass.
fn passes_turn(announced: bool, want: ExWant) -> bool
    ensures { result ≡ passes_turn announced want }
{
    match want {
        ExWant::Shared | ExWant::Upgrade => true,
        ExWant::Exclusive => announced,
        ExWant::Upgradable | ExWant::Announce => false,
    }
}

/// Returns what a call that sleeps is to a wake-up.
fn class_of(announced: bool, want: ExWant) -> Sleeper
    ensures { result ≡ class_of announced want }
{
    match want {
        _ if announced => Sleeper::Next,
        ExWant::Upgrade => Sleeper::Next,
        ExWant::Shared => Sleeper::Reader,
        ExWant::Exclusive | ExWant::Upgradable | ExWant::Announce => Sleeper::Other,
    }
}

/// Returns whether the release subtracts one reader while the bit of sleepers is clear. Other releases begin with an exchange.
pub fn removes_reader(readers: u64, down: Down) -> bool
    ensures { result ≡ removes_reader readers down }
{
    matches!(down, Down::Shared) && readers != 1
}

/// Returns the word of a holder that is alone, for which the exchange of its release looks first.
pub fn alone_word(down: Down) -> u64
    ensures { result ≡ alone down }
{
    match down {
        Down::Shared => 1,
        Down::Exclusive | Down::ToShared | Down::ToUpgradable => EXCLUSIVE,
        Down::Upgradable | Down::UpgradableToShared => UPGRADABLE + 1,
        Down::Withdraw => BAR,
    }
}

/// Returns whether the bit of sleepers stays after a release of this word, and the wake-up that it owes.
fn released(readers: u64, word: u64, down: Down) -> (bool, Debt)
    ensures { result ≡ release_of readers word down }
{
    if word < SLEEPERS {
        return (false, Debt::Nothing);
    }
    let before = word % TURN;
    let after = before.saturating_sub(down.amount());
    let frees = if readers == 1 {
        after % BAR == 0
    } else {
        unblocks(
            readers,
            Occupancy::of_word(before),
            Occupancy::of_word(after),
        )
    };
    if !frees {
        return (true, Debt::Nothing);
    }
    if has_bar(after) {
        return (true, debt_under_bar(readers, word));
    }
    if has_turn(word) {
        return (true, Debt::Turn);
    }
    (false, if readers == 1 { Debt::One } else { Debt::All })
}

/// Returns the wake-up of a release of this word that leaves a bar. A writer that leaves no turn wakes the readers too.
fn debt_under_bar(readers: u64, word: u64) -> Debt
    ensures { result ≡ under_bar readers word }
{
    if readers == 1 || has_turn(word) || word % TURN % BAR < EXCLUSIVE {
        Debt::Next
    } else {
        Debt::Turn
    }
}
