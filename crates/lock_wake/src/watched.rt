//! What a thread parks on: a word, and the number that a load found there.
ghost use Rattle.std.specs.Prelude.{◌≡◌, ◌<◌};
ghost use Rattle.lock_wake.specs.Watches.{watching};

use atomic_table::{Shared, TableRule};
use std::sync::Wait;
use std::thread;
use std::time::Duration;

/// A word, and the number that a load found there. A thread parks while the word is this number.
///
/// It has no `Drop` and no `Clone`. The step that ends the wait calls `end`, so no thread parks after that step.
pub struct Watched {
    word: usize,
    number: u64,
}

impl Watched {
    /// Returns what a thread parks on after its load of the word found this number.
    pub fn new(word: usize, number: u64) -> Watched
        ensures { result ≡ watching word number }
    {
        Watched { word, number }
    }

    /// Parks the thread while the low half of the word is that of the number, for at most `time`. It may return spuriously. If
    /// the number is `last` or above, it yields instead.
    ///
    /// A number that is 2^32 greater has the same low half. No proof says that the word does not reach it before the park.
    pub fn park<R: Wait, S, V, K, P: TableRule<S, V, K>>(
        &self,
        rt: &R,
        shared: &Shared<S, V, K, P>,
        last: u64,
        time: Option<Duration>,
    )
        requires { self.now.word < shared.now.table_id.words }
    {
        if self.number >= last {
            return thread::yield_now();
        }
        let low_half = (self.number % 0x1_0000_0000) as u32;
        match time {
            Some(time) => shared.park_timeout(rt, self.word, low_half, time),
            None => shared.park(rt, self.word, low_half),
        }
    }

    /// Consumes the value: no thread can park on it any more.
    pub fn end(self) {
        let Watched { word: _, number: _ } = self;
    }
}
