//! The pauses of a contended call before it sleeps.
ghost use Rattle.std.specs.Prelude.{◌≡◌, ◌+◌, ◌<◌, ◌^◌};

use std::hint::spin_loop;
use std::thread;

/// How many pauses of a call spin. Each later one yields the thread.
const SPINS: u32 = 3;

/// The pauses of a contended call between its attempts: spins that double, and then yields.
#[derive(Drop)]
pub struct Pauses {
    made: u32,
}

impl Pauses {
    /// How many pauses a call makes before it sleeps. With more spins, or fewer yields, four threads acquire a mutex less often.
    pub const MOST: u32 = 20;

    /// Begins with the shortest pause.
    pub fn new() -> Pauses
        ensures { result.made ≡ 0 }
    {
        Pauses { made: 0 }
    }

    /// Makes the next pause.
    pub fn pause(&mut self)
        ensures { self.old.made + 1 < 2 ^ 32 → self.new.made ≡ self.old.made + 1 }
    {
        if self.made < SPINS {
            for _ in 0..1u32 << self.made {
                spin_loop();
            }
        } else {
            thread::yield_now();
        }
        self.made = self.made.saturating_add(1);
    }
}
