//! The range of limits.
ghost use Rattle.std.specs.Prelude.{◌↔◌, IsTrue};
ghost use Rattle.lock_modes.specs.Limits.{IsLimit};

/// The largest number of places, readers, levels or parties.
pub const MAX_LIMIT: u64 = 4_294_967_295;

/// The readers' limit of a lock that is made without one.
pub const DEFAULT_READERS: u64 = 64;

/// Returns whether the number may be a limit: from 1 to `MAX_LIMIT`.
pub fn is_limit(limit: u64) -> bool
    ensures { IsTrue result ↔ IsLimit limit }
{
    limit != 0 && limit <= MAX_LIMIT
}
