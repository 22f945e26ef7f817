//! The value of a script.
use lock_machine::Op;

/// A pair of numbers: its items 0 and 1.
#[derive(Clone, Copy, PartialEq, Eq, Debug)]
pub struct Pair {
    pub first: i64,
    pub second: i64,
}

impl Pair {
    ghost use Rattle.std.specs.Prelude.{◌≡◌, IsTrue};
    ghost use Rattle.lock_script.specs.Pair.{is_item, item, with_item};

    /// Returns an item by its number.
    fn item(&self, number: u64) -> i64
        requires { IsTrue (is_item number) }
        ensures { result ≡ item number self.now }
    {
        if number == 0 { self.first } else { self.second }
    }

    /// Replaces an item.
    fn set_item(&mut self, number: u64, item: i64)
        requires { IsTrue (is_item number) }
        ensures { self.new ≡ with_item number item self.old }
    {
        if number == 0 {
            self.first = item;
        } else {
            self.second = item;
        }
    }
}

/// An operation on an item of a pair. It fits if the pair has that item.
#[derive(Clone, Copy, PartialEq, Eq, Debug)]
pub enum PairOp {
    /// Reads the item.
    Item(u64),
    /// Replaces the item.
    Set(u64, i64),
    /// Adds to the item. It fits only if the sum is a signed number of 64 bits.
    Add(u64, i64),
}

impl PairOp {
    ghost use Rattle.std.specs.Prelude.{◌≡◌};
    ghost use Rattle.lock_script.specs.Pair.{item_of};

    /// Returns the number of the item.
    fn number(&self) -> u64
        ensures { result ≡ item_of self.now }
    {
        match self {
            PairOp::Item(number) | PairOp::Set(number, _) | PairOp::Add(number, _) => *number,
        }
    }
}

impl Op<Pair> for PairOp {
    ghost use Rattle.lock_script.specs.Pair.{meaning};

    type Answer = i64;

    ghost meaning = { meaning };

    fn fits(&self, pair: &Pair) -> bool {
        if self.number() > 1 {
            return false;
        }
        match self {
            PairOp::Item(_) | PairOp::Set(_, _) => true,
            PairOp::Add(number, term) => pair.item(*number).checked_add(*term).is_some(),
        }
    }

    fn ask(&self, pair: &Pair) -> i64 {
        pair.item(self.number())
    }

    fn apply(&self, pair: &mut Pair) -> i64 {
        let item = match self {
            PairOp::Item(number) => pair.item(*number),
            PairOp::Set(_, item) => *item,
            PairOp::Add(number, term) => pair.item(*number) + *term,
        };
        pair.set_item(self.number(), item);
        item
    }
}
