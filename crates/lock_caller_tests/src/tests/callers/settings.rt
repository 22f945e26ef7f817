//! A field of a struct as a projection.
ghost use Rattle.std.specs.Prelude.{refl};

use lock_api::Field;

/// A value behind a lock.
#[derive(Drop)]
pub struct Settings {
    pub limit: u64,
    pub retries: u64,
}

/// The name of the field `limit`.
#[derive(Clone, Copy)]
pub struct Limit;

impl Field<Settings> for Limit {
    type Part = u64;

    ghost part = { λ settings. settings.limit };

    ghost with_part = { λ settings limit. record settings { limit = limit } };

    ghost is_field = { record {
      part_of_with = λ settings limit. refl;
      with_same = λ settings. refl;
      with_twice = λ settings first last. refl;
    } };

    fn of(settings: &Settings) -> &u64 {
        &settings.limit
    }

    fn of_mut(settings: &mut Settings) -> &mut u64 {
        &mut settings.limit
    }
}
