//! The invariant of every `Desk`.
ghost use Rattle.lock_machine.specs.Sound.{IsSound};

use crate::desk::Desk;
use lock_modes::RawState;

/// States that the machine of a `Desk` is sound, whatever was called. The laws of the machine require it.
pub fn desk_is_sound<R: RawState, T>(desk: &Desk<R, T>)
    ensures { IsSound desk.now.register }
{
    desk.guards.sound();
}
