//! An arbiter with a journal of its steps.
use crate::arbiter::{Arbiter, Unchanged};
use crate::step_journal::StepJournal;
use lock_modes::{Bag, Fault, Mode, ModeStep};
use std::alloc::Global;
use std::marker::Model;

/// The capacity of a journal that is made without one.
pub const DEFAULT_ENTRIES: usize = 1_024;

/// An arbiter, and the journal of its steps.
///
/// A step that finds the journal full is made but not recorded, and no step after it is recorded. It has no bar, so its
/// journal is a run without one.
#[derive(Drop)]
pub struct RecordingArbiter<A: Arbiter> {
    arbiter: A,
    journal: StepJournal,
}

impl<A: Arbiter> Model for RecordingArbiter<A> {
    ghost use Rattle.lock_raws_monitor.specs.Recording.{Recording, IsRecording};

    ghost Value = { Recording A.Token };

    ghost view = { λ r. record {
      tokens_out = A.tokens_out r.arbiter;
      bar = A.bar r.arbiter;
      readers = A.reader_limit r.arbiter;
      journal = r.journal;
    } };

    ghost invariant = { λ r. IsRecording (A.tokens_out r.arbiter) (A.reader_limit r.arbiter) r.journal };
}

impl<A: Arbiter> RecordingArbiter<A> {
    ghost use Rattle.std.specs.Prelude.{◌≡◌, ◌↔◌, false, [], IfOk, IfErr};
    ghost use Rattle.lock_modes.specs.Limits.{IsLimit, IsMakerFault};
    ghost use Rattle.lock_raws_monitor.specs.Journal.{empty_journal};
    ghost use Rattle.lock_raws_monitor.specs.Recording.{IsRecording};

    /// Makes an arbiter without tokens, and an empty journal. It allocates all the memory that it ever needs.
    pub fn with_room(
        alloc: Global,
        readers: u64,
        entries: usize,
    ) -> Result<RecordingArbiter<A>, Fault>
        ensures limits { (result ≡ Err Fault.BadLimits) ↔ (IsLimit readers → ⊥) }
        ensures in_range { IfOk result (λ _. IsLimit readers) }
        ensures fault { IfErr result IsMakerFault }
        ensures empty { IfOk result (λ made. made.tokens_out ≡ []) }
        ensures unbarred { IfOk result (λ made. made.bar ≡ false) }
        ensures limit_kept { IfOk result (λ made. made.readers ≡ readers) }
        ensures journal { IfOk result (λ made. made.journal ≡ empty_journal entries) }
    {
        let arbiter: A = Arbiter::new(alloc, readers)?;
        let journal = StepJournal::new(alloc, entries)?;
        Ok(RecordingArbiter { arbiter, journal })
    }

    /// Returns the recorded steps, the first one first.
    pub fn journal(&self) -> &[ModeStep]
        ensures steps { result.now ≡ self.now.journal.steps }
        ensures recording { IsRecording self.now.tokens_out self.now.readers self.now.journal }
    {
        self.journal.steps()
    }

    /// Returns whether a step found the journal full.
    pub fn stopped(&self) -> bool
        ensures stopped { result ≡ self.now.journal.stopped }
        ensures recording { IsRecording self.now.tokens_out self.now.readers self.now.journal }
    {
        self.journal.stopped()
    }
}

impl<A: Arbiter> Arbiter for RecordingArbiter<A> {
    ghost use Rattle.std.specs.Prelude.{◌≡◌, false};
    ghost use Rattle.lock_raws_monitor.specs.Journal.{empty_journal};
    ghost use Rattle.lock_raws_monitor.specs.Recording.{Records};
    ghost use Rattle.lock_raws_monitor.specs.declared.recording_arbiter.TheConstants.{DEFAULT_ENTRIES};

    type Token = A::Token;

    ghost tokens_out = { λ r. r.tokens_out };

    ghost reader_limit = { λ r. r.readers };

    ghost bar = { λ r. r.bar };

    ghost has_bars = { false };

    ghost starts = { λ r. r.journal ≡ empty_journal DEFAULT_ENTRIES };

    ghost records = { λ old new step. Records old.journal new.journal step };

    fn new(alloc: Global, readers: u64) -> Result<RecordingArbiter<A>, Fault> {
        RecordingArbiter::with_room(alloc, readers, DEFAULT_ENTRIES)
    }

    fn bag(&self) -> Bag {
        self.arbiter.bag()
    }

    fn readers(&self) -> u64 {
        self.arbiter.readers()
    }

    fn barred(&self) -> bool {
        self.arbiter.barred()
    }

    fn announce(&mut self) -> bool {
        false
    }

    fn withdraw(&mut self) {
        self.arbiter.withdraw();
    }

    fn admit_as(&mut self, mode: Mode, is_own: bool) -> Option<A::Token> {
        let token = self.arbiter.admit_as(mode, is_own)?;
        self.journal.write(ModeStep::Acquire(mode));
        Some(token)
    }

    fn give_back(&mut self, token: A::Token, mode: Mode) -> bool {
        if !self.arbiter.give_back(token, mode) {
            return false;
        }
        self.journal.write(ModeStep::Release(mode));
        true
    }

    fn change(
        &mut self,
        token: A::Token,
        from: Mode,
        to: Mode,
    ) -> Result<A::Token, Unchanged<A::Token>> {
        let next = self.arbiter.change(token, from, to)?;
        self.journal.write(ModeStep::Change(from, to));
        Ok(next)
    }
}
