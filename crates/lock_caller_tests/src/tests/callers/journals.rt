//! What a caller knows of a recording arbiter.
ghost use Rattle.std.specs.Prelude.{◌≡◌, [], ◌∷◌, IfOk};

use lock_api::Fault;
use lock_api::model::{Mode, ModeStep};
use lock_api::raw::{Arbiter, Recorded};
use std::alloc::Global;

/// The first token of an arbiter is the first step of its journal.
pub fn first_step(alloc: Global) -> Result<(Recorded, Option<<Recorded as Arbiter>::Token>), Fault>
    ensures { IfOk result (λ made. made.0.journal.steps ≡ ModeStep.Acquire Mode.Shared ∷ []) }
{
    let mut arbiter = Recorded::with_room(alloc, 1, 2)?;
    let token = arbiter.admit(Mode::Shared);
    Ok((arbiter, token))
}
