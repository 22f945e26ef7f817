//! How a blocked user waits: it marks the mutex as awaited, and sleeps until a release ends the epoch.
ghost use Rattle.std.specs.Prelude.{◌≡◌};
ghost use Rattle.lock_ruled.specs.declared.rule.UserStage.TheVariants.{Sleeps, Free};
ghost use Rattle.lock_ruled.specs.Plays.{at_stage};
ghost use Rattle.lock_ruled.specs.Acquiring.{MayAcquire, Acquired};
ghost use Rattle.lock_wake.specs.Watches.{word_of, number_of};

use crate::mutex::RuledMutex;
use crate::rule::{MutexRule, UserView};
use atomic_table::Seat;
use lock_wake::Watched;
use std::sync::Wait;
use std::time::Duration;

impl<T: Drop, V, P: MutexRule<T, V>> RuledMutex<T, V, P> {
    /// Blocks until it acquires.
    pub(crate) fn block<R: Wait>(&self, rt: &R, seat: &mut Seat<Option<T>, UserView<T, V>>)
        requires { MayAcquire self.now seat.old }
        ensures { Acquired P.rule seat.old seat.new }
    {
        for _ in rt.forever() {
            let Some(watched) = self.mark(seat) else {
                return;
            };
            self.sleep(rt, seat, watched, None);
        }
        unreachable!()
    }

    /// Sleeps until the epoch ends, or for at most `time`. It may end spuriously.
    pub(crate) fn sleep<R: Wait>(
        &self,
        rt: &R,
        seat: &mut Seat<Option<T>, UserView<T, V>>,
        watched: Watched,
        time: Option<Duration>,
    )
        requires mutex { seat.old.table_id ≡ self.now }
        requires word { word_of watched ≡ 1 }
        requires sleeps { seat.old.me.0.stage ≡ Sleeps (number_of watched) }
        ensures seat { seat.new.table_id ≡ seat.old.table_id }
        ensures left { seat.new.me ≡ at_stage seat.old.me Free }
    {
        self.park(rt, seat, &watched, time);
        drop(self.leave(seat, watched));
    }
}
