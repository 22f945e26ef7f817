//! An element of a list and the variant of an enum as parts of a value.
ghost use Rattle.std.specs.Prelude.{slice_get};
ghost use Rattle.lock_examples.specs.Parts.{progress, IsLawful-progress};

use lock_api::{TryProject, TryView};

/// An element of a list, for reading.
#[derive(Clone, Copy)]
pub struct Element(pub usize);

impl<T> TryView<Vec<T>> for Element {
    type Part = T;

    type Miss = usize;

    ghost part = { λ element list. slice_get list.items element.0 };

    ghost missed = { λ element list. element.0 };

    fn get<'a>(&self, list: &'a Vec<T>) -> Option<&'a T>
    where
        Self: 'a,
    {
        list.get(self.0)
    }

    fn miss(&self, _list: &Vec<T>) -> usize {
        self.0
    }
}

/// A job behind a lock.
#[derive(Drop)]
pub enum Job {
    Waiting,
    Running(u64),
}

/// How far a running job has come.
#[derive(Clone, Copy)]
pub struct Progress;

impl TryProject<Job> for Progress {
    type Part = u64;

    type Miss = ();

    ghost lens = { λ _. progress };

    ghost missed = { λ _ _. tt };

    ghost lawful = { λ _. IsLawful-progress };

    fn get<'a>(&self, job: &'a Job) -> Option<&'a u64>
    where
        Self: 'a,
    {
        match job {
            Job::Waiting => None,
            Job::Running(progress) => Some(progress),
        }
    }

    fn get_mut<'a>(job: &'a mut Job, _part: &Progress) -> Option<&'a mut u64>
    where
        Self: 'a,
    {
        match job {
            Job::Waiting => None,
            Job::Running(progress) => Some(progress),
        }
    }

    fn miss(&self, _job: &Job) {}
}
