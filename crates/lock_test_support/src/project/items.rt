//! The items of a pair, which every pair has.
ghost use Rattle.lock_test_support.specs.Pairs.{first_item, second_item, IsLawful-first_item, IsLawful-second_item};
ghost use Rattle.std.specs.Prelude.{refl};

use lock_parts::{Project, TryProject};

/// The first item of a pair.
#[derive(Clone, Copy, Debug)]
pub struct Item0;

/// The second item of a pair.
#[derive(Clone, Copy, Debug)]
pub struct Item1;

impl<A, B> TryProject<(A, B)> for Item0 {
    type Part = A;

    type Miss = ();

    ghost lens = { λ _. first_item };

    ghost missed = { λ _ _. tt };

    ghost lawful = { λ _. IsLawful-first_item };

    fn get<'a>(&self, whole: &'a (A, B)) -> Option<&'a A>
    where
        Self: 'a,
    {
        Some(&whole.0)
    }

    fn get_mut<'a>(whole: &'a mut (A, B), _projection: &Item0) -> Option<&'a mut A>
    where
        Self: 'a,
    {
        Some(&mut whole.0)
    }

    fn miss(&self, _whole: &(A, B)) {}
}

impl<A, B> Project<(A, B)> for Item0 {
    ghost total = { λ _ _. refl };

    fn of<'a>(&self, whole: &'a (A, B)) -> &'a A
    where
        Self: 'a,
    {
        &whole.0
    }

    fn of_mut<'a>(whole: &'a mut (A, B), _projection: &Item0) -> &'a mut A
    where
        Self: 'a,
    {
        &mut whole.0
    }
}

impl<A, B> TryProject<(A, B)> for Item1 {
    type Part = B;

    type Miss = ();

    ghost lens = { λ _. second_item };

    ghost missed = { λ _ _. tt };

    ghost lawful = { λ _. IsLawful-second_item };

    fn get<'a>(&self, whole: &'a (A, B)) -> Option<&'a B>
    where
        Self: 'a,
    {
        Some(&whole.1)
    }

    fn get_mut<'a>(whole: &'a mut (A, B), _projection: &Item1) -> Option<&'a mut B>
    where
        Self: 'a,
    {
        Some(&mut whole.1)
    }

    fn miss(&self, _whole: &(A, B)) {}
}

impl<A, B> Project<(A, B)> for Item1 {
    ghost total = { λ _ _. refl };

    fn of<'a>(&self, whole: &'a (A, B)) -> &'a B
    where
        Self: 'a,
    {
        &whole.1
    }

    fn of_mut<'a>(whole: &'a mut (A, B), _projection: &Item1) -> &'a mut B
    where
        Self: 'a,
    {
        &mut whole.1
    }
}
