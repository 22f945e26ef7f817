//! A row of `NumberedSlots`.
ghost use Rattle.std.specs.Prelude.{◌≡◌, is_some, IsSome};

/// A number that was used, and its item until it is taken.
#[derive(Drop)]
pub(crate) struct Row<X> {
    pub(crate) number: u64,
    pub(crate) item: Option<X>,
}

impl<X> Row<X> {
    ghost use Rattle.std.specs.Borrow.{sem, Lends};
    ghost use Rattle.lock_slots.specs.contracts.row.Row.{the_row};
    ghost use Rattle.lock_slots.specs.Rows.{with_item};

    pub(crate) fn has_item(&self) -> bool
        ensures { result ≡ is_some self.now.item }
    {
        self.item.is_some()
    }

    pub(crate) fn item(&self) -> &X
        requires { IsSome self.now.item }
        ensures { self.now.item ≡ Some result.now }
    {
        match &self.item {
            Some(item) => item,
            None => unreachable!(),
        }
    }

    pub(crate) fn item_mut(&mut self) -> &mut X
        requires { IsSome self.old.item }
        ensures* writes_back { sem 𝓛 (Lends (the_row X.row) X.row self.entry result (with_item self.old)) }
        ensures value { self.old.item ≡ Some result.now }
    {
        match &mut self.item {
            Some(item) => item,
            None => unreachable!(),
        }
    }

    /// Removes and returns the item.
    pub(crate) fn take(&mut self) -> X
        requires { IsSome self.old.item }
        ensures item { self.old.item ≡ Some result }
        ensures left { self.new ≡ record self.old { item = None } }
    {
        let Some(item) = self.item.take() else {
            unreachable!()
        };
        item
    }
}
