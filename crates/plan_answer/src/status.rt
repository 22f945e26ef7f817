//! The status of a program.
use crate::no_answer::NoAnswer;
use crate::verdict::Verdict;

/// What the answers say, of which the worst one decides.
#[derive(Clone, Copy, PartialEq, Eq, Debug)]
pub enum Status {
    Fine,
    /// A search has no answer in its memory or its time.
    Unanswered,
    /// A plan is bad, or a file is not read or written.
    Faulty,
    /// An answer names a stop, or says that there is no order.
    Stops,
}

impl Status {
    /// Returns what an answer says.
    pub fn of(verdict: Verdict) -> Status {
        match verdict {
            Verdict::NeverStops => Status::Fine,
            Verdict::Stops | Verdict::Unordered => Status::Stops,
        }
    }

    /// Returns what it says that there is no answer.
    pub fn without_answer(why: &NoAnswer) -> Status {
        match why {
            NoAnswer::TooLarge
            | NoAnswer::OutOfMemory
            | NoAnswer::Full(_)
            | NoAnswer::OutOfTime(_)
            | NoAnswer::Late => Status::Unanswered,
            _ => Status::Faulty,
        }
    }

    /// Returns the worse one of two.
    pub fn or_worse(self, other: Status) -> Status {
        if self.rank() < other.rank() {
            other
        } else {
            self
        }
    }

    fn rank(self) -> u8 {
        match self {
            Status::Fine => 0,
            Status::Unanswered => 1,
            Status::Faulty => 2,
            Status::Stops => 3,
        }
    }

    /// Returns the number that a program ends with.
    pub fn code(self) -> u8 {
        match self {
            Status::Fine => 0,
            Status::Stops => 3,
            Status::Faulty => 1,
            Status::Unanswered => 4,
        }
    }
}
