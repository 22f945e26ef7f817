//! The owed wake-up of an epoch.
ghost use Rattle.std.specs.Prelude.{◌≡◌, ◌<◌};
ghost use Rattle.lock_wake.specs.OwedWakes.{owed};

use atomic_table::{Shared, TableRule};

/// Which sleepers an owed wake-up is for.
#[derive(Clone, Copy, PartialEq, Eq, Debug)]
pub enum Whom {
    Nobody,
    One,
    All,
}

/// The owed wake-up of those that park on a word: decided, and not made yet.
///
/// It has no `Drop` and no `Clone`, and `make` consumes it. So code that loses one does not compile.
pub struct OwedWake {
    word: usize,
    whom: Whom,
}

impl OwedWake {
    /// Returns what is owed to the threads that park on the word, whoever ended their epoch.
    pub fn new(word: usize, whom: Whom) -> OwedWake
        ensures { result ≡ owed word whom }
    {
        OwedWake { word, whom }
    }

    /// Wakes the threads that park on the word.
    pub fn make<S, V, K, P: TableRule<S, V, K>>(self, shared: &Shared<S, V, K, P>)
        requires { self.word < shared.now.table_id.words }
    {
        let OwedWake { word, whom } = self;
        match whom {
            Whom::Nobody => (),
            Whom::One => shared.wake_one(word),
            Whom::All => shared.wake_all(word),
        }
    }
}
