//! The items of a queue, without a lock.
ghost use Rattle.std.specs.Prelude.{◌≡◌, ◌==◌, [], ◌∷◌, ◌++◌, false, true, length, IfErr, IfNone, IfOk, IfSome};
ghost use Rattle.lock_examples.specs.Line.{Line, is_full, is_empty};

use std::alloc::{AllocError, Global};
use std::collections::VecDeque;
use std::marker::Model;

/// Items in the order in which they came, up to a number of places.
#[derive(Drop)]
pub struct Ring<T> {
    items: VecDeque<T>,
}

impl<T> Model for Ring<T> {
    ghost Value = { Line T };

    ghost view = { λ ring. record { items = ring.items.items; places = ring.items.cap } };
}

impl<T> Ring<T> {
    /// Makes an empty ring. It allocates all the memory that it ever needs.
    pub fn with_places(alloc: Global, places: usize) -> Result<Ring<T>, AllocError>
        ensures { IfOk result (λ ring. ring ≡ record { items = []; places = places }) }
    {
        let items = VecDeque::with_capacity(alloc, places)?;
        Ok(Ring { items })
    }

    pub fn is_full(&self) -> bool
        ensures { result ≡ is_full self.now }
    {
        self.items.capacity() <= self.items.len()
    }

    pub fn is_empty(&self) -> bool
        ensures { result ≡ is_empty self.now }
    {
        self.items.is_empty()
    }

    pub fn push(&mut self, item: T)
        requires { is_full self.old ≡ false }
        ensures { self.new ≡ record self.old { items = self.old.items ++ item ∷ [] } }
    {
        self.items.push_back_reserved(item);
    }

    /// Pushes an item, or returns it if the ring is full.
    pub fn try_push(&mut self, item: T) -> Result<(), T>
        ensures pushed { IfOk result (λ _. self.new ≡ record self.old { items = self.old.items ++ item ∷ [] }) }
        ensures back { IfErr result (λ back. (back ≡ item) × (self.new ≡ self.old) × (is_full self.old ≡ true)) }
        ensures room { IfOk result (λ _. is_full self.old ≡ false) }
    {
        if self.is_full() {
            return Err(item);
        }
        self.push(item);
        Ok(())
    }

    pub fn pop(&mut self) -> T
        requires { is_empty self.old ≡ false }
        ensures items { self.old.items ≡ result ∷ self.new.items }
        ensures places { self.new.places ≡ self.old.places }
    {
        self.items.pop_front().unwrap()
    }

    /// Pops the oldest item, or returns `None` if the ring is empty.
    pub fn try_pop(&mut self) -> Option<T>
        ensures some { IfSome result (λ item. (self.old.items ≡ item ∷ self.new.items) × (self.new.places ≡ self.old.places)) }
        ensures none { IfNone result ((self.old.items ≡ []) × (self.new ≡ self.old)) }
    {
        self.items.pop_front()
    }
}
