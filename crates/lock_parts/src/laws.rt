//! Laws of projections. Each is the contract of a function that does nothing else.
ghost use Rattle.std.specs.Prelude.{◌≡◌, None, Some, IsSome, option_and_then};
ghost use Rattle.lock_parts.specs.Lens.{IsLawful};
ghost use Rattle.lock_parts.specs.Then.{other_grouping};
ghost use Rattle.lock_parts.specs.declared.then.Then.{Then};
ghost use Rattle.lock_parts.specs.declared.missed.Missed.TheVariants.{First, Second};

use crate::{Then, TryProject};

/// A write keeps a part where there was one.
pub fn write_keeps_part<T, P: TryProject<T>>()
    ensures { (p : P) (whole : T) (new : P.Part) →
        IsSome ((P.lens p).part whole) → IsSome ((P.lens p).part ((P.lens p).put whole new)) }
{}

/// Borrowing a part that is not there changes nothing.
pub fn missed_write_changes_nothing<T, P: TryProject<T>>(whole: &mut T, projection: &P)
    ensures { (P.lens projection.now).part whole.old ≡ None → whole.new ≡ whole.old }
{
    let _ = P::get_mut(whole, projection);
}

/// `Then` meets the laws where both of its projections do.
pub fn then_is_lawful<T, P: TryProject<T>, Q: TryProject<P::Part>>()
    ensures { (p : Then P Q) → IsLawful (⟦<Then<P, Q> as TryProject<T>>⟧.lens p) }
{}

/// Mapping twice is mapping by `Then`, for reads and for writes.
pub fn mapping_twice_is_then<T, P: TryProject<T>, Q: TryProject<P::Part>>()
    ensures reads { (p : Then P Q) (whole : T) →
        (⟦<Then<P, Q> as TryProject<T>>⟧.lens p).part whole
        ≡ option_and_then (Q.lens p.second).part ((P.lens p.first).part whole) }
    ensures writes { (p : Then P Q) (whole : T) (part : P.Part) (new : Q.Part) →
        (P.lens p.first).part whole ≡ Some part →
        (⟦<Then<P, Q> as TryProject<T>>⟧.lens p).put whole new
        ≡ (P.lens p.first).put whole ((Q.lens p.second).put part new) }
{}

/// `Then` is associative.
pub fn then_is_associative<T, P: TryProject<T>, Q: TryProject<P::Part>, S: TryProject<Q::Part>>()
    ensures { (p : Then (Then P Q) S) →
        ⟦<Then<Then<P, Q>, S> as TryProject<T>>⟧.lens p
        ≡ ⟦<Then<P, Then<Q, S>> as TryProject<T>>⟧.lens (other_grouping p) }
{}

/// The miss of `Then` is that of its first projection, else that of the second in the part of the first.
pub fn then_misses_in_order<T, P: TryProject<T>, Q: TryProject<P::Part>>()
    ensures first { (p : Then P Q) (whole : T) →
        (P.lens p.first).part whole ≡ None →
        ⟦<Then<P, Q> as TryProject<T>>⟧.missed p whole ≡ First (P.missed p.first whole) }
    ensures second { (p : Then P Q) (whole : T) (part : P.Part) →
        (P.lens p.first).part whole ≡ Some part →
        ⟦<Then<P, Q> as TryProject<T>>⟧.missed p whole ≡ Second (Q.missed p.second part) }
{}
