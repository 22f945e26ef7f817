//! Guards of a part of the value.
ghost use Rattle.std.specs.Prelude.{◌≡◌, None, Some, IsSome, IfOk, IfErr, MatchBool, option_and_then, option_copied};
ghost use Rattle.std.specs.Option.{option_copied_mut};
ghost use Rattle.std.specs.Borrow.{Lends, LendsIf, sem};
ghost use Rattle.lock_guard.specs.GuardPart.{guard_part, guard_with_part};

use crate::guard::{LockGuard, LockGuardFair, LockGuardMut};
use lock_parts::{Missed, Project, Then, TryProject, TryView, View};
use std::fmt;
use std::fmt::{Debug, Display, Formatter};
use std::ops::{Deref, DerefMut};

/// A guard of a part of the value that a guard of type `G` protects. It carries no fact about the part.
#[derive(Drop)]
pub struct Mapped<G, P> {
    guard: G,
    projection: P,
}

impl<G: LockGuard, P: TryView<G::Value>> Mapped<G, P> {
    ghost use Rattle.lock_guard.specs.GuardPart.{guard_miss};
    ghost use Rattle.lock_guard.specs.Mapped.{IsMapOf, IsMappedOr, mapped_part};

    /// Makes the guard of a part, by a projection that always has one.
    pub fn of(guard: G, projection: P) -> Self
    where
        P: View<G::Value>,
        ensures { IsMapOf guard projection result }
    {
        Mapped { guard, projection }
    }

    /// Makes the guard of a part, or returns the guard unchanged if the value has no such part.
    pub fn try_of(guard: G, projection: P) -> Result<Self, G>
        ensures { IsMappedOr (guard_part G.value_of (P.part projection) guard) guard projection
            (λ back. back ≡ guard) result }
    {
        let mapped = Mapped { guard, projection };
        if mapped.has_part() {
            return Ok(mapped);
        }
        Err(mapped.into_guard())
    }

    /// Makes the guard of a part. If the value has no such part, returns the guard unchanged with the projection's
    /// miss.
    pub fn try_of_or_err(guard: G, projection: P) -> Result<Self, (G, P::Miss)>
        ensures { IsMappedOr (guard_part G.value_of (P.part projection) guard) guard projection
            (λ back. (back.0 ≡ guard)
            × (guard_miss G.value_of (P.missed projection) guard ≡ Some back.1)) result }
    {
        let mapped = Mapped { guard, projection };
        if mapped.has_part() {
            return Ok(mapped);
        }
        let miss = mapped.miss();
        Err((mapped.into_guard(), miss))
    }

    /// Returns the part, if the value has it.
    pub fn get(guard: &Self) -> Option<&P::Part>
        ensures { option_copied result ≡ mapped_part G.value_of P.part guard.now }
    {
        guard.projection.get(guard.guard.value())
    }

    /// Releases the lock by a fair release.
    pub fn unlock_fair(guard: Self)
    where
        G: LockGuardFair,
    {
        guard.into_guard().unlock_fair();
    }

    fn has_part(&self) -> bool
        ensures { MatchBool result
            (IsSome (mapped_part G.value_of P.part self.now))
            (mapped_part G.value_of P.part self.now ≡ None) }
    {
        Mapped::get(self).is_some()
    }

    /// Returns the projection's miss, of a value without the part.
    fn miss(&self) -> P::Miss
        ensures { mapped_part G.value_of P.part self.now ≡ None →
            guard_miss G.value_of (P.missed self.now.projection) self.now.guard ≡ Some result }
    {
        self.projection.miss(self.guard.value())
    }

    fn into_guard(self) -> G
        ensures { result ≡ self.guard }
    {
        let Mapped {
            guard,
            projection: _,
        } = self;
        guard
    }
}

impl<G: LockGuard, P: TryProject<G::Value>> Mapped<G, P> {
    ghost use Rattle.lock_guard.specs.GuardPart.{guard_miss};
    ghost use Rattle.lock_parts.specs.Then.{then};
    ghost use Rattle.lock_guard.specs.Mapped.{IsMapOf, IsMappedOr, mapped_part};

    /// Makes the guard of a part of the part, by a projection that always has one.
    pub fn map<Q: Project<P::Part>>(guard: Self, projection: Q) -> Mapped<G, Then<P, Q>>
        ensures { IsMapOf guard.guard (then guard.projection projection) result }
    {
        guard.then(projection)
    }

    /// Makes the guard of a part of the part, or returns the guard unchanged if there is no such part.
    pub fn try_map<Q: TryProject<P::Part>>(
        guard: Self,
        projection: Q,
    ) -> Result<Mapped<G, Then<P, Q>>, Self>
        ensures { IsMappedOr
            (option_and_then (Q.lens projection).part
            (guard_part G.value_of (P.lens guard.projection).part guard.guard))
            guard.guard (then guard.projection projection) (λ back. back ≡ guard) result }
    {
        let both = guard.then(projection);
        if both.has_part() {
            return Ok(both);
        }
        Err(both.into_first())
    }

    /// Makes the guard of a part of the part. If there is no such part, returns the guard unchanged with the miss.
    pub fn try_map_or_err<Q: TryProject<P::Part>>(
        guard: Self,
        projection: Q,
    ) -> Result<Mapped<G, Then<P, Q>>, (Self, Missed<P::Miss, Q::Miss>)>
        ensures { IsMappedOr
            (option_and_then (Q.lens projection).part
            (guard_part G.value_of (P.lens guard.projection).part guard.guard))
            guard.guard (then guard.projection projection)
            (λ back. (back.0 ≡ guard) × (guard_miss G.value_of
            (⟦<Then<P, Q> as TryProject<G::Value>>⟧.missed (then guard.projection projection))
            guard.guard ≡ Some back.1)) result }
    {
        let both = guard.then(projection);
        if both.has_part() {
            return Ok(both);
        }
        let miss = both.miss();
        Err((both.into_first(), miss))
    }

    fn then<Q>(self, second: Q) -> Mapped<G, Then<P, Q>>
        ensures { IsMapOf self.guard (then self.projection second) result }
    {
        let Mapped {
            guard,
            projection: first,
        } = self;
        Mapped {
            guard,
            projection: Then { first, second },
        }
    }
}

impl<G, P, Q: Drop> Mapped<G, Then<P, Q>> {
    ghost use Rattle.lock_guard.specs.Mapped.{IsMapOf};

    /// Returns the guard of the part by the first projection alone.
    fn into_first(self) -> Mapped<G, P>
        ensures { IsMapOf self.guard self.projection.first result }
    {
        let Mapped {
            guard,
            projection: Then { first, second: _ },
        } = self;
        Mapped {
            guard,
            projection: first,
        }
    }
}

impl<G: LockGuardMut, P: TryProject<G::Value> + Copy> Mapped<G, P> {
    ghost use Rattle.lock_guard.specs.contracts.guard.mapped.Mapped.{the_row};
    ghost use Rattle.lock_guard.specs.Mapped.{mapped_part, mapped_with_part};

    /// Returns the part for writing, if the value has it.
    ///
    /// The projection is copied, since a proof cannot follow a field that is lent next to the guard. For a projection
    /// that is not `Copy`, use a reference to it: that is a projection too.
    pub fn get_mut(guard: &mut Self) -> Option<&mut P::Part>
        ensures* writes_back { sem 𝓛 (LendsIf (the_row G.row P.row) P.Part.row guard.entry result
            (mapped_with_part G.value_of G.with_value P.lens guard.old) guard.old) }
        ensures value { option_copied_mut result ≡ mapped_part G.value_of (λ p. (P.lens p).part) guard.old }
    {
        let projection = guard.projection;
        part_mut(&mut guard.guard, &projection)
    }
}

impl<G: LockGuard, P: View<G::Value>> Deref for Mapped<G, P> {
    ghost use Rattle.lock_guard.specs.Mapped.{mapped_part};

    type Target = P::Part;

    ghost deref_gives = { λ mapped part. mapped_part G.value_of P.part mapped ≡ Some part };

    fn deref(&self) -> &P::Part {
        self.projection.of(self.guard.value())
    }
}

impl<G: LockGuardMut, P: Project<G::Value> + Copy> DerefMut for Mapped<G, P> {
    ghost use Rattle.lock_guard.specs.contracts.guard.mapped.Mapped.{the_row};
    ghost use Rattle.lock_guard.specs.Mapped.{mapped_part, mapped_with_part};

    ghost deref_mut_gives = { λ mapped part.
        mapped_part G.value_of (λ p. (P.lens p).part) mapped ≡ Some part };

    fn deref_mut(&mut self) -> &mut P::Part
        ensures* writes_back { sem 𝓛 (Lends (the_row G.row P.row) P.Part.row self.entry result
            (mapped_with_part G.value_of G.with_value P.lens self.old)) }
        ensures value { mapped_part G.value_of (λ p. (P.lens p).part) self.old ≡ Some result.now }
    {
        let projection = self.projection;
        total_part_mut(&mut self.guard, &projection)
    }
}

impl<G: LockGuard, P: View<G::Value>> Debug for Mapped<G, P>
where
    P::Part: Debug,
{
    fn fmt<W: fmt::Write>(&self, f: &mut Formatter<W>) -> fmt::Result {
        self.deref().fmt(f)
    }
}

impl<G: LockGuard, P: View<G::Value>> Display for Mapped<G, P>
where
    P::Part: Display,
{
    fn fmt<W: fmt::Write>(&self, f: &mut Formatter<W>) -> fmt::Result {
        self.deref().fmt(f)
    }
}

/// Lends the part of a guard's value.
fn part_mut<'a, G: LockGuardMut, P: TryProject<G::Value>>(
    guard: &'a mut G,
    projection: &P,
) -> Option<&'a mut P::Part>
where
    P: 'a,
    ensures* writes_back { sem 𝓛 (LendsIf G.row P.Part.row guard.entry result
        (guard_with_part G.value_of G.with_value (P.lens projection.now) guard.old) guard.old) }
    ensures value { option_copied_mut result
        ≡ guard_part G.value_of (P.lens projection.now).part guard.old }
{
    P::get_mut(guard.value_mut(), projection)
}

/// Lends the part of a guard's value, by a projection that always has one.
fn total_part_mut<'a, G: LockGuardMut, P: Project<G::Value>>(
    guard: &'a mut G,
    projection: &P,
) -> &'a mut P::Part
where
    P: 'a,
    ensures* writes_back { sem 𝓛 (Lends G.row P.Part.row guard.entry result
        (guard_with_part G.value_of G.with_value (P.lens projection.now) guard.old)) }
    ensures value { guard_part G.value_of (P.lens projection.now).part guard.old ≡ Some result.now }
{
    P::of_mut(guard.value_mut(), projection)
}
