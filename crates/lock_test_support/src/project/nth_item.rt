//! An item of a pair by its number.
ghost use Rattle.lock_test_support.specs.Pairs.{nth_item, IsLawful-nth_item};

use lock_parts::TryProject;

/// The item of a pair of numbers at this index. The miss of a pair without it is the index.
#[derive(Clone, Copy, Debug)]
pub struct NthItem(pub usize);

impl TryProject<(u64, u64)> for NthItem {
    type Part = u64;

    type Miss = usize;

    ghost lens = { λ nth. nth_item nth.0 };

    ghost missed = { λ nth _. nth.0 };

    ghost lawful = { λ nth. IsLawful-nth_item nth.0 };

    fn get<'a>(&self, whole: &'a (u64, u64)) -> Option<&'a u64>
    where
        Self: 'a,
    {
        match self.0 {
            0 => Some(&whole.0),
            1 => Some(&whole.1),
            _ => None,
        }
    }

    fn get_mut<'a>(whole: &'a mut (u64, u64), projection: &NthItem) -> Option<&'a mut u64>
    where
        Self: 'a,
    {
        match projection.0 {
            0 => Some(&mut whole.0),
            1 => Some(&mut whole.1),
            _ => None,
        }
    }

    fn miss(&self, _whole: &(u64, u64)) -> usize {
        self.0
    }
}
