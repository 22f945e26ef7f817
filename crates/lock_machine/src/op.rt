//! Operations on the value of a machine.
ghost use Rattle.std.specs.Prelude.{◌≡◌, IsTrue};

/// A named operation on a value of type `T`. The machine's definitions use its meaning.
pub trait Op<T> {
    ghost use Rattle.lock_machine.specs.Operation.{Operation};

    type Answer;

    /// Where the operation fits, what it answers, and what it leaves.
    ghost meaning: { Self → Operation T Self.Answer };

    /// Returns whether the operation applies to this value.
    fn fits(&self, value: &T) -> bool
        ensures { result ≡ (meaning self.now).fits value.now };

    /// Answers from the value, without changing it.
    fn ask(&self, value: &T) -> Self::Answer
        requires { IsTrue ((meaning self.now).fits value.now) }
        ensures { result ≡ (meaning self.now).read_answer value.now };

    /// Changes the value, and answers.
    fn apply(&self, value: &mut T) -> Self::Answer
        requires { IsTrue ((meaning self.now).fits value.old) }
        ensures answer { result ≡ (meaning self.now).change_answer value.old }
        ensures value { value.new ≡ (meaning self.now).after value.old };
}
