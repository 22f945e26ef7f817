//! The composition of projections.
ghost use Rattle.std.specs.Option.{option_map_or};
ghost use Rattle.lock_parts.specs.Lens.{through, IsLawful-through, IsTotal-through};
ghost use Rattle.lock_parts.specs.declared.missed.Missed.TheVariants.{First, Second};

use crate::{Missed, Project, TryProject};

/// The projection by `first`, and then by `second`.
#[derive(Clone, Copy, Debug, Drop)]
pub struct Then<P, Q> {
    pub first: P,
    pub second: Q,
}

impl<T, P: TryProject<T>, Q: TryProject<P::Part>> TryProject<T> for Then<P, Q> {
    type Part = Q::Part;

    type Miss = Missed<P::Miss, Q::Miss>;

    ghost lens = { λ p. through (P.lens p.first) (Q.lens p.second) };

    ghost missed = { λ p whole. option_map_or (λ part. Second (Q.missed p.second part))
        ((P.lens p.first).part whole) (First (P.missed p.first whole)) };

    ghost lawful = { λ p. IsLawful-through (P.lens p.first) (Q.lens p.second)
        (P.lawful p.first) (Q.lawful p.second) };

    fn get<'a>(&self, whole: &'a T) -> Option<&'a Q::Part>
    where
        Self: 'a,
    {
        self.second.get(self.first.get(whole)?)
    }

    fn get_mut<'a>(whole: &'a mut T, projection: &Self) -> Option<&'a mut Q::Part>
    where
        Self: 'a,
    {
        let part = P::get_mut(whole, &projection.first)?;
        Q::get_mut(part, &projection.second)
    }

    fn miss(&self, whole: &T) -> Missed<P::Miss, Q::Miss> {
        match self.first.get(whole) {
            None => Missed::First(self.first.miss(whole)),
            Some(part) => Missed::Second(self.second.miss(part)),
        }
    }
}

impl<T, P: Project<T>, Q: Project<P::Part>> Project<T> for Then<P, Q> {
    ghost total = { λ p. IsTotal-through (P.lens p.first) (Q.lens p.second)
        (P.total p.first) (Q.total p.second) };

    fn of<'a>(&self, whole: &'a T) -> &'a Q::Part
    where
        Self: 'a,
    {
        self.second.of(self.first.of(whole))
    }

    fn of_mut<'a>(whole: &'a mut T, projection: &Self) -> &'a mut Q::Part
    where
        Self: 'a,
    {
        let part = P::of_mut(whole, &projection.first);
        Q::of_mut(part, &projection.second)
    }
}
