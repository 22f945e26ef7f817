//! The two traits of parts that can be read.
ghost use Rattle.std.specs.Prelude.{◌≡◌, Option, None, Some, IsSome, option_copied};

use crate::{Project, TryProject};

/// A part that a value of type `T` may have, for reading alone. Each `TryProject` is one.
pub trait TryView<T>: Drop {
    type Part;

    /// Why a value has no such part.
    type Miss;

    /// The part of a value.
    ghost part: { Self → T → Option Self.Part };

    /// The miss of a value without the part.
    ghost missed: { Self → T → Self.Miss };

    fn get<'a>(&self, whole: &'a T) -> Option<&'a Self::Part>
    where
        Self: 'a,
        ensures { option_copied result ≡ part self.now whole.now };

    /// Returns the miss. Of a value that has the part it says nothing.
    fn miss(&self, whole: &T) -> Self::Miss
        ensures { part self.now whole.now ≡ None → result ≡ missed self.now whole.now };
}

/// A part that every value has, for reading alone. Each `Project` is one.
pub trait View<T>: TryView<T> {
    fn of<'a>(&self, whole: &'a T) -> &'a Self::Part
    where
        Self: 'a,
        ensures { Self.part self.now whole.now ≡ Some result.now };

    ghost total: { (p : Self) (whole : T) → IsSome (Self.part p whole) };
}

impl<T, P: TryProject<T>> TryView<T> for P {
    type Part = P::Part;

    type Miss = P::Miss;

    ghost part = { λ p. (P.lens p).part };

    ghost missed = { P.missed };

    fn get<'a>(&self, whole: &'a T) -> Option<&'a P::Part>
    where
        Self: 'a,
    {
        TryProject::get(self, whole)
    }

    fn miss(&self, whole: &T) -> P::Miss {
        TryProject::miss(self, whole)
    }
}

impl<T, P: Project<T>> View<T> for P {
    ghost total = { P.total };

    fn of<'a>(&self, whole: &'a T) -> &'a P::Part
    where
        Self: 'a,
    {
        Project::of(self, whole)
    }
}
