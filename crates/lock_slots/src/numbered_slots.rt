//! Items under rising numbers.
ghost use Rattle.std.specs.Prelude.{◌≡◌, ℕ, ◌+◌, ◌-◌, ◌<◌, ◌≤◌, ◌^◌, [], ◌∷◌, ◌++◌, length, IfOk, MatchOption, None, Some, IsSome, vec_capacity, slice_index_or};
ghost use Rattle.std.specs.Bool.{OnFalse};
ghost use Rattle.std.specs.Borrow.{sem};
ghost use Rattle.lock_slots.specs.Items.{find, without, put};
ghost use Rattle.lock_slots.specs.Rows.{items_of, AreRising, NoRow, IsRow};

use crate::hints::Hints;
use crate::row::Row;
use std::alloc::{AllocError, Global};
use std::marker::Model;

/// How many empty rows may exist on top of as many as are filled, before they are removed.
const SLACK: usize = 16;

/// Items under numbers. Each new item gets the next number, and no number is used twice.
///
/// Each number has a row, and an item that is taken leaves its row empty. Empty rows are removed once they outnumber
/// the filled ones by `SLACK`, or fill the capacity. The capacity is a quarter more than the items, and `SLACK`. So a
/// call takes a few steps on average, and allocates nothing.
#[derive(Drop)]
pub struct NumberedSlots<X> {
    rows: Vec<Row<X>>,
    hints: Hints,
    items: usize,
    capacity: usize,
    last: u64,
}

impl<X> Model for NumberedSlots<X> {
    ghost use Rattle.std.specs.Prelude.{vec_capacity};
    ghost use Rattle.lock_slots.specs.Rows.{items_of};
    ghost use Rattle.lock_slots.specs.NumberedItems.{NumberedItems, AreSlotRows};

    ghost Value = { NumberedItems X };

    ghost view = { λ r. record {
      items = items_of r.rows.items;
      capacity = r.capacity;
      last = r.last;
    } };

    ghost invariant = { λ r. AreSlotRows r.rows.items r.items r.capacity r.last (vec_capacity r.rows) };
}

/// A number that has an item, and a guess of its row.
#[derive(Clone, Copy)]
pub struct Bookmark {
    pub number: u64,
    row: usize,
}

impl<X> NumberedSlots<X> {
    ghost use Rattle.lock_slots.specs.Lends.{lends_item};

    /// Returns the last number that was used, or 0.
    pub fn last(&self) -> u64
        ensures { result ≡ self.now.last }
    {
        self.last
    }

    /// Returns how many items there are.
    pub fn len(&self) -> usize
        ensures number { result ≡ length self.now.items }
        ensures within { result ≤ self.now.capacity }
    {
        self.items
    }

    /// Returns how many items there may be.
    pub fn capacity(&self) -> usize
        ensures { result ≡ self.now.capacity }
    {
        self.capacity
    }

    /// Finds the item under a number.
    pub fn look(&self, number: u64) -> Option<Bookmark>
        ensures { MatchOption result (find number self.now.items ≡ None)
            (λ b. (b.number ≡ number) × IsSome (find number self.now.items)) }
    {
        let row = row_of(&self.rows, number, self.hints.guess(number))?;
        if self.rows[row].has_item() {
            Some(Bookmark { number, row })
        } else {
            None
        }
    }

    /// Returns the item at a bookmark.
    pub fn item(&self, bookmark: Bookmark) -> &X
        requires { IsSome (find bookmark.number self.now.items) }
        ensures { find bookmark.number self.now.items ≡ Some result.now }
    {
        let row = marked_row(&self.rows, bookmark);
        self.rows[row].item()
    }

    /// Returns the item at a bookmark for writing.
    pub fn item_mut(&mut self, bookmark: Bookmark) -> &mut X
        requires { IsSome (find bookmark.number self.old.items) }
        ensures* writes_back { sem 𝓛 (lends_item X.row self.entry bookmark.number result) }
        ensures item { find bookmark.number self.old.items ≡ Some result.now }
    {
        let row = marked_row(&self.rows, bookmark);
        self.rows[row].item_mut()
    }

    /// Counts the numbers up to this one as used.
    pub fn skip_to(&mut self, last: u64)
        requires { self.old.last ≤ last }
        ensures { self.new ≡ record self.old { last = last } }
    {
        self.last = last;
    }
}

impl<X: Drop> NumberedSlots<X> {
    /// Makes an empty instance with room for `capacity` items.
    pub fn new(alloc: Global, capacity: u64) -> Result<NumberedSlots<X>, AllocError>
        requires { capacity < 2 ^ 32 }
        ensures { IfOk result (λ r. r ≡ record { items = []; capacity = capacity; last = 0 }) }
    {
        let capacity = capacity as usize;
        let room = capacity + capacity / 4 + SLACK;
        let rows = Vec::with_capacity(alloc, room)?;
        Ok(NumberedSlots {
            rows,
            hints: Hints::new(alloc, room)?,
            items: 0,
            capacity,
            last: 0,
        })
    }

    /// Adds an item under the next number, and returns the number.
    pub fn push(&mut self, item: X) -> u64
        requires room { length self.old.items < self.old.capacity }
        requires numbers { self.old.last < 2 ^ 64 - 1 }
        ensures number { result ≡ self.old.last + 1 }
        ensures added { self.new ≡ record self.old {
          items = self.old.items ++ (self.old.last + 1, item) ∷ [];
          last = self.old.last + 1;
        } }
    {
        if is_crowded(&self.rows, self.items) {
            clear_away(&mut self.rows);
            note_all(self.rows.as_slice(), &mut self.hints);
        }
        let number = self.last + 1;
        self.hints.note(number, self.rows.len());
        self.rows.push_reserved(Row {
            number,
            item: Some(item),
        });
        self.items += 1;
        self.last = number;
        number
    }

    /// Removes and returns the item at a bookmark.
    pub fn take(&mut self, bookmark: Bookmark) -> X
        requires { IsSome (find bookmark.number self.old.items) }
        ensures item { find bookmark.number self.old.items ≡ Some result }
        ensures taken { self.new ≡ record self.old { items = without bookmark.number self.old.items } }
    {
        let row = marked_row(&self.rows, bookmark);
        let item = self.rows[row].take();
        self.items -= 1;
        item
    }
}

// Returns whether empty rows must be removed before a row is added.
fn is_crowded<X>(rows: &Vec<Row<X>>, items: usize) -> bool
    requires { items < 2 ^ 32 }
    ensures { OnFalse result (length rows.now.items < vec_capacity rows.now) }
{
    rows.len() >= rows.capacity() || rows.len() >= 2 * items + SLACK
}

// Removes the empty rows.
fn clear_away<X: Drop>(rows: &mut Vec<Row<X>>)
    ensures items { items_of rows.new.items ≡ items_of rows.old.items }
    ensures rising { (last : ℕ) → AreRising 0 rows.old.items last → AreRising 0 rows.new.items last }
    ensures full { length rows.new.items ≡ length (items_of rows.new.items) }
    ensures capacity { vec_capacity rows.new ≡ vec_capacity rows.old }
{
    rows.retain(|row| row.has_item());
}

// Notes the rows of all numbers.
fn note_all<X>(rows: &[Row<X>], hints: &mut Hints) {
    for row in 0..rows.len() {
        hints.note(rows[row].number, row);
    }
}

// Returns the row of a bookmark.
fn marked_row<X>(rows: &Vec<Row<X>>, bookmark: Bookmark) -> usize
    requires rising { (last : ℕ) × AreRising 0 rows.now.items last }
    requires item { IsSome (find bookmark.number (items_of rows.now.items)) }
    ensures row { IsRow bookmark.number rows.now.items result }
    ensures found { (r : _) → r ≡ slice_index_or rows.now.items result r → find bookmark.number (items_of rows.now.items) ≡ r.item }
{
    let Some(row) = row_of(rows, bookmark.number, bookmark.row) else {
        unreachable!()
    };
    row
}

// Finds the row of a number, by a guess, and by binary search if the guess is wrong.
fn row_of<X>(rows: &Vec<Row<X>>, number: u64, guess: usize) -> Option<usize>
    requires { (last : ℕ) × AreRising 0 rows.now.items last }
    ensures { MatchOption result (NoRow number rows.now.items) (IsRow number rows.now.items) }
{
    if guess < rows.len() && rows[guess].number == number {
        Some(guess)
    } else {
        halve(rows.as_slice(), number)
    }
}

// Finds the row of a number by binary search.
fn halve<X>(rows: &[Row<X>], number: u64) -> Option<usize>
    requires { (last : ℕ) × AreRising 0 rows.now last }
    ensures { MatchOption result (NoRow number rows.now) (IsRow number rows.now) }
{
    let mut low = 0;
    let mut high = rows.len();
    while low < high {
        let middle = low + (high - low) / 2;
        let found = rows[middle].number;
        if found == number {
            return Some(middle);
        }
        if found < number {
            low = middle + 1;
        } else {
            high = middle;
        }
    }
    None
}
