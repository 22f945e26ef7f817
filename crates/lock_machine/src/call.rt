//! The calls of the machine.
ghost use Rattle.std.specs.Prelude.{◌≡◌, ⊤};

use lock_modes::PartyId;
use std::alloc::AllocError;
use std::clone::Clone;

/// What an acquisition acquires. A mutex and a reentrant machine have `Lock`, a reader-writer machine has the others.
#[derive(Clone, Copy, PartialEq, Eq, Debug)]
pub enum Want {
    Lock,
    Read,
    Write,
    UpgradableRead,
}

/// The form of a call that may not be admitted: `Block` is then refused with `WouldWait`, and the other forms answer
/// none.
#[derive(Clone, Copy, PartialEq, Eq, Debug)]
pub enum Form {
    Block,
    Try,
    For,
    Until,
}

/// The way in which a guard is unlocked. All ways mean the same.
#[derive(Clone, Copy, PartialEq, Eq, Debug)]
pub enum Way {
    Plain,
    Fair,
    IntoArc,
    IntoArcFair,
}

/// A call of the machine by a party, on the guard of a number where it names one. `O` is the type of operations on the
/// value.
#[derive(Copy, PartialEq, Eq, Debug)]
pub enum Call<O> {
    Acquire(Want, Form, PartyId),
    Unlock(PartyId, u64, Way),
    Park(PartyId, u64),
    ParkFair(PartyId, u64),
    Resume(PartyId, u64),
    Abandon(PartyId, u64),
    Bump(PartyId, u64),
    Upgrade(Form, PartyId, u64),
    Downgrade(PartyId, u64),
    DowngradeToUpgradable(PartyId, u64),
    WithUpgraded(Form, PartyId, u64, O),
    Get(PartyId, u64, O),
    Change(PartyId, u64, O),
    IsLocked,
    IsLockedExclusive,
    IsOwnedBy(PartyId),
    Announce(PartyId),
    Withdraw(PartyId),
    IsBarred,
    Spent,
}

/// Written by hand: the derived one takes long to prove.
impl<O: Copy> Clone for Call<O> {
    ghost is_clone = { λ call copy. copy ≡ call };

    ghost is_infallible = { λ _. ⊤ };

    fn clone(&self) -> Result<Call<O>, AllocError> {
        Ok(*self)
    }
}
