//! The two traits of projections.
ghost use Rattle.std.specs.Prelude.{◌≡◌, Option, None, Some, option_copied};
ghost use Rattle.std.specs.Option.{option_copied_mut};
ghost use Rattle.std.specs.Borrow.{Lends, LendsIf, sem};
ghost use Rattle.lock_parts.specs.Lens.{Lens, IsLawful, IsTotal};

/// A lens to a part that a value of type `T` may have.
///
/// `get_mut` takes the value first, since a proof follows the borrow of the first argument.
pub trait TryProject<T>: Drop {
    type Part;

    /// Why a value has no such part.
    type Miss;

    /// The part of a value, and the value with another part.
    ghost lens: { Self → Lens T Self.Part };

    /// The miss of a value without the part.
    ghost missed: { Self → T → Self.Miss };

    fn get<'a>(&self, whole: &'a T) -> Option<&'a Self::Part>
    where
        Self: 'a,
        ensures { option_copied result ≡ (lens self.now).part whole.now };

    /// Returns the part for writing. If there is none, the value stays as it is.
    fn get_mut<'a>(whole: &'a mut T, projection: &Self) -> Option<&'a mut Self::Part>
    where
        Self: 'a,
        ensures* writes_back { sem 𝓛 (LendsIf T.row Self.Part.row whole.entry result
            ((lens projection.now).put whole.old) whole.old) }
        ensures value { option_copied_mut result ≡ (lens projection.now).part whole.old };

    /// Returns the miss. Of a value that has the part it says nothing.
    fn miss(&self, whole: &T) -> Self::Miss
        ensures { (lens self.now).part whole.now ≡ None → result ≡ missed self.now whole.now };

    ghost lawful: { (p : Self) → IsLawful (lens p) };
}

/// A lens to a part that every value has.
pub trait Project<T>: TryProject<T> {
    fn of<'a>(&self, whole: &'a T) -> &'a Self::Part
    where
        Self: 'a,
        ensures { (Self.lens self.now).part whole.now ≡ Some result.now };

    /// Returns the part for writing.
    fn of_mut<'a>(whole: &'a mut T, projection: &Self) -> &'a mut Self::Part
    where
        Self: 'a,
        ensures* writes_back { sem 𝓛 (Lends T.row Self.Part.row whole.entry result
            ((Self.lens projection.now).put whole.old)) }
        ensures value { (Self.lens projection.now).part whole.old ≡ Some result.now };

    ghost total: { (p : Self) → IsTotal (Self.lens p) };
}
