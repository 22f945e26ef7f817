//! A reference to a projection is a projection.
use crate::{Project, TryProject};

impl<T, P: TryProject<T>> TryProject<T> for &P {
    type Part = P::Part;

    type Miss = P::Miss;

    ghost lens = { λ p. P.lens p.now };

    ghost missed = { λ p. P.missed p.now };

    ghost lawful = { λ p. P.lawful p.now };

    fn get<'a>(&self, whole: &'a T) -> Option<&'a P::Part>
    where
        Self: 'a,
    {
        P::get(*self, whole)
    }

    fn get_mut<'a>(whole: &'a mut T, projection: &Self) -> Option<&'a mut P::Part>
    where
        Self: 'a,
    {
        P::get_mut(whole, *projection)
    }

    fn miss(&self, whole: &T) -> P::Miss {
        P::miss(*self, whole)
    }
}

impl<T, P: Project<T>> Project<T> for &P {
    ghost total = { λ p. P.total p.now };

    fn of<'a>(&self, whole: &'a T) -> &'a P::Part
    where
        Self: 'a,
    {
        P::of(*self, whole)
    }

    fn of_mut<'a>(whole: &'a mut T, projection: &Self) -> &'a mut P::Part
    where
        Self: 'a,
    {
        P::of_mut(whole, *projection)
    }
}
