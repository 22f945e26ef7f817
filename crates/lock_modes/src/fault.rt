//! Faults and their numbers.
ghost use Rattle.std.specs.Prelude.{◌≡◌};
ghost use Rattle.lock_modes.specs.Fault.{number_of};
ghost use Rattle.lock_modes.specs.declared.fault.Fault.TheVariants.{OutOfMemory};

use std::alloc::{AllocError, AllocFailed};
use std::error::Error;
use std::fmt;

/// Why a call is refused. Scripts print a fault by its number.
///
/// A refused call changes nothing, with one exception: `unlocked` of a reentrant guard. If that answers `FullCount`,
/// the level stays released.
#[derive(Clone, Copy, PartialEq, Eq, Debug)]
pub enum Fault {
    /// A blocking call that is not admitted now.
    WouldWait = 1,
    /// No guard has that number.
    UnknownGuard = 2,
    /// The guard is parked, and the call needs it held.
    Parked = 3,
    /// The guard is held, and the call needs it parked.
    NotParked = 4,
    /// The guard or level belongs to another party.
    Foreign = 5,
    /// The mode of the guard does not allow the call.
    WrongMode = 6,
    /// This kind of machine does not have the call.
    WrongKind = 7,
    /// As many guards as places are held or parked.
    NoPlace = 8,
    /// The last number was used: of guards, or of the steps of a world.
    NumbersSpent = 9,
    /// The owner has as many levels as the limit.
    FullCount = 10,
    /// A guard is held or parked.
    GuardsOut = 11,
    /// A limit is out of its range.
    BadLimits = 12,
    /// An allocation, or the clone of an `Arc`, failed.
    OutOfMemory = 13,
    /// The operation or projection does not fit the present value.
    NoFocus = 14,
    /// An exchange without an open load.
    NoLoad = 15,
    /// No party has that number.
    UnknownParty = 16,
    /// The bar is set already.
    Barred = 17,
    /// The party has not announced itself.
    NotAnnounced = 18,
}

impl Fault {
    /// Returns the fault's number, from 1 to 18.
    pub fn number(&self) -> u8
        ensures { result ≡ number_of self.now }
    {
        *self as u8
    }
}

impl From<AllocError> for Fault {
    ghost from_gives = { λ _ fault. fault ≡ OutOfMemory };

    fn from(_refused: AllocError) -> Fault {
        Fault::OutOfMemory
    }
}

impl<T: Drop> From<AllocFailed<T>> for Fault {
    ghost from_gives = { λ _ fault. fault ≡ OutOfMemory };

    fn from(_refused: AllocFailed<T>) -> Fault {
        Fault::OutOfMemory
    }
}

impl fmt::Display for Fault {
    fn fmt<W: fmt::Write>(&self, f: &mut fmt::Formatter<W>) -> fmt::Result {
        f.write_str(match self {
            Fault::WouldWait => "the call would have to wait",
            Fault::UnknownGuard => "there is no such guard",
            Fault::Parked => "the guard is parked",
            Fault::NotParked => "the guard is not parked",
            Fault::Foreign => "the guard is another party's",
            Fault::WrongMode => "the guard's mode does not allow this",
            Fault::WrongKind => "this kind of lock does not have the call",
            Fault::NoPlace => "there is no place for another guard",
            Fault::NumbersSpent => "the numbers are spent",
            Fault::FullCount => "the owner holds as many levels as there may be",
            Fault::GuardsOut => "a guard is out",
            Fault::BadLimits => "a limit is out of its range",
            Fault::OutOfMemory => "out of memory",
            Fault::NoFocus => "the operation does not fit the value",
            Fault::NoLoad => "there is no open load",
            Fault::UnknownParty => "there is no such party",
            Fault::Barred => "a writer has announced itself",
            Fault::NotAnnounced => "the party has not announced itself",
        })
    }
}

impl Error for Fault {}
