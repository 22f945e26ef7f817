//! The journal of a lock's steps.
use lock_modes::{Fault, ModeStep};
use std::alloc::Global;
use std::marker::Model;

/// The steps that were recorded, up to the capacity.
#[derive(Drop)]
pub(crate) struct StepJournal {
    steps: Vec<ModeStep>,
    room: usize,
    stopped: bool,
}

impl Model for StepJournal {
    ghost use Rattle.std.specs.Prelude.{◌≤◌, vec_capacity};
    ghost use Rattle.lock_raws_monitor.specs.Journal.{Journal};

    ghost Value = { Journal };

    ghost view = { λ j. record { steps = j.steps.items; room = j.room; stopped = j.stopped } };

    ghost invariant = { λ j. j.room ≤ vec_capacity j.steps };
}

impl StepJournal {
    ghost use Rattle.std.specs.Prelude.{◌≡◌, IfOk, IfErr};
    ghost use Rattle.lock_raws_monitor.specs.Journal.{empty_journal, journal_after};

    /// Makes an empty journal. It allocates all its memory.
    pub(crate) fn new(alloc: Global, room: usize) -> Result<StepJournal, Fault>
        ensures empty { IfOk result (λ journal. journal ≡ empty_journal room) }
        ensures fault { IfErr result (λ fault. fault ≡ Fault.OutOfMemory) }
    {
        let Ok(steps) = Vec::with_capacity(alloc, room) else {
            return Err(Fault::OutOfMemory);
        };
        Ok(StepJournal {
            steps,
            room,
            stopped: false,
        })
    }

    /// Records a step if there is room, and otherwise stops for good.
    pub(crate) fn write(&mut self, step: ModeStep)
        ensures { self.new ≡ journal_after self.old step }
    {
        if self.steps.len() < self.room {
            self.steps.push_reserved(step);
        } else {
            self.stopped = true;
        }
    }

    /// Returns the recorded steps.
    pub(crate) fn steps(&self) -> &[ModeStep]
        ensures { result.now ≡ self.now.steps }
    {
        self.steps.as_slice()
    }

    /// Returns whether a step found no room.
    pub(crate) fn stopped(&self) -> bool
        ensures { result ≡ self.now.stopped }
    {
        self.stopped
    }
}
