//! Operations on a pair that may not fit it.
ghost use Rattle.std.specs.Prelude.{◌≡◌, if◌then◌else◌};
ghost use Rattle.lock_script.specs.Pair.{meaning};

use lock_machine::{Op, Reply};
use lock_modes::Fault;
use lock_script::{Pair, PairOp};

/// Asks the operation of the pair. The reply is `NoFocus` if it does not fit.
pub fn ask(operation: PairOp, pair: &Pair) -> Reply<i64>
    ensures { result ≡ (if (meaning operation).fits pair.now
        then Reply.Answer ((meaning operation).read_answer pair.now) else Reply.Refused Fault.NoFocus) }
{
    if operation.fits(pair) {
        Reply::Answer(operation.ask(pair))
    } else {
        Reply::Refused(Fault::NoFocus)
    }
}

/// Applies the operation to the pair. The reply is `NoFocus` if it does not fit.
pub fn change(operation: PairOp, pair: &mut Pair) -> Reply<i64>
    ensures answer { result ≡ (if (meaning operation).fits pair.old
        then Reply.Answer ((meaning operation).change_answer pair.old) else Reply.Refused Fault.NoFocus) }
    ensures pair { pair.new ≡ (if (meaning operation).fits pair.old
        then (meaning operation).after pair.old else pair.old) }
{
    if operation.fits(pair) {
        Reply::Answer(operation.apply(pair))
    } else {
        Reply::Refused(Fault::NoFocus)
    }
}
