//! The guards of a script by their numbers.
use lock_machine::Want;
use std::alloc::{AllocError, Global};
use std::mem;

/// The state of a script's guard. `Want` is what an acquisition of such a guard asks for.
#[derive(Drop)]
pub enum GuardState<G> {
    Held(Want, G),
    /// The guard was released, to be acquired again.
    Parked(Want),
    Gone,
}

/// The guards of a script by their numbers, which count from 1.
#[derive(Drop)]
pub struct ScriptGuards<G> {
    states: Vec<GuardState<G>>,
}

impl<G: Drop> ScriptGuards<G> {
    /// Makes an empty list of guards.
    pub fn new(alloc: Global) -> ScriptGuards<G> {
        ScriptGuards {
            states: Vec::new(alloc),
        }
    }

    /// Appends a guard, and returns its number.
    pub fn add(&mut self, want: Want, guard: G) -> Result<u64, AllocError> {
        self.states.push(GuardState::Held(want, guard))?;
        Ok(self.states.len() as u64)
    }

    /// Takes the state of the guard, and leaves `Gone`.
    pub fn take(&mut self, number: u64) -> GuardState<G> {
        match self.states.get_mut(number.wrapping_sub(1) as usize) {
            Some(state) => mem::replace(state, GuardState::Gone),
            None => GuardState::Gone,
        }
    }

    /// Takes the guard, if it is held.
    pub fn take_held(&mut self, number: u64) -> Option<(Want, G)> {
        match self.take(number) {
            GuardState::Held(want, guard) => Some((want, guard)),
            GuardState::Parked(_) | GuardState::Gone => None,
        }
    }

    /// Releases all guards.
    pub fn release_all(&mut self) {
        self.states.clear();
    }

    /// Sets the state of the guard.
    pub fn put(&mut self, number: u64, state: GuardState<G>) {
        if let Some(place) = self.states.get_mut(number.wrapping_sub(1) as usize) {
            *place = state;
        }
    }
}
