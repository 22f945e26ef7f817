//! Fields of structs as projections.
ghost use Rattle.std.specs.Prelude.{◌≡◌, refl};
ghost use Rattle.std.specs.Borrow.{Lends, sem};
ghost use Rattle.lock_parts.specs.Lens.{IsField, field_lens, IsLawful-field_lens};

use crate::{Project, TryProject};

/// The name of a field of `T`. `At` makes the projection of it.
///
/// For a field of a plain struct the facts in `is_field` hold by computation, so each is `refl`.
pub trait Field<T>: Drop + 'static {
    type Part;

    /// The field of a value.
    ghost part: { T → Self.Part };

    /// The value with another field.
    ghost with_part: { T → Self.Part → T };

    /// Returns the field.
    fn of(whole: &T) -> &Self::Part
        ensures { result.now ≡ part whole.now };

    /// Returns the field for writing.
    fn of_mut(whole: &mut T) -> &mut Self::Part
        ensures* writes_back { sem 𝓛 (Lends T.row Self.Part.row whole.entry result
            (with_part whole.old)) }
        ensures value { result.now ≡ part whole.old };

    ghost is_field: { IsField part with_part };
}

/// The projection to a field.
#[derive(Clone, Copy, Debug, Drop)]
pub struct At<F>(pub F);

impl<T, F: Field<T>> TryProject<T> for At<F> {
    type Part = F::Part;

    type Miss = ();

    ghost lens = { λ _. field_lens F.part F.with_part };

    ghost missed = { λ _ _. tt };

    ghost lawful = { λ _. IsLawful-field_lens F.part F.with_part F.is_field };

    fn get<'a>(&self, whole: &'a T) -> Option<&'a F::Part>
    where
        Self: 'a,
    {
        Some(F::of(whole))
    }

    fn get_mut<'a>(whole: &'a mut T, _projection: &At<F>) -> Option<&'a mut F::Part>
    where
        Self: 'a,
    {
        Some(F::of_mut(whole))
    }

    fn miss(&self, _whole: &T) {}
}

impl<T, F: Field<T>> Project<T> for At<F> {
    ghost total = { λ _ _. refl };

    fn of<'a>(&self, whole: &'a T) -> &'a F::Part
    where
        Self: 'a,
    {
        F::of(whole)
    }

    fn of_mut<'a>(whole: &'a mut T, _projection: &At<F>) -> &'a mut F::Part
    where
        Self: 'a,
    {
        F::of_mut(whole)
    }
}
