//! Rows of cells in one list.

ghost use Rattle.std.specs.Prelude.{◌≡◌, ◌+◌, ◌*◌, ◌^◌, ◌<◌, ◌∷◌, ◌++◌, ℕ, [], Some, None, length, map, if◌then◌else◌, IfOk, OnOk};
ghost use Rattle.race_marks.specs.Rows.{Shape, AreLaid, ArePlaced, cell_count, is_placed, place_at};

use std::alloc::{AllocError, Global};
use std::marker::Model;

/// A row: how many cells of its home come before it, and how many it has.
#[derive(Clone, Copy)]
pub struct Row {
    pub start: usize,
    pub length: usize,
}

/// Rows of cells one after another, once for each of so many homes, one home after another.
#[derive(Drop)]
pub struct Rows {
    homes: u32,
    rows: Vec<Row>,
    width: usize,
}

impl Model for Rows {
    ghost Value = { Shape };

    ghost view = { λ r. record {
      homes = r.homes;
      lengths = map (λ row. row.length) r.rows.items;
    } };

    ghost invariant = { λ r. AreLaid r.homes r.rows.items r.width };
}

impl Rows {
    /// No row yet.
    pub fn new(alloc: Global, homes: u32) -> Rows
        ensures { result ≡ record { homes = homes; lengths = [] } }
    {
        Rows {
            homes,
            rows: Vec::new(alloc),
            width: 0,
        }
    }

    /// Rows of these lengths.
    pub fn of_lengths(alloc: Global, homes: u32, lengths: &[u32]) -> Result<Rows, AllocError>
        ensures { IfOk result (λ r. r ≡ record { homes = homes; lengths = lengths.now }) }
    {
        let mut rows = Rows::new(alloc, homes);
        for length in lengths {
            rows.push(*length as usize)?;
        }
        Ok(rows)
    }

    /// One row more, of so many cells.
    pub fn push(&mut self, length: usize) -> Result<(), AllocError>
        ensures { OnOk result (self.new ≡ record {
          homes = self.old.homes;
          lengths = self.old.lengths ++ length ∷ [];
        }) }
    {
        let start = self.width;
        let Some(width) = width_with(start, length, self.homes) else {
            return Err(AllocError);
        };
        self.rows.push(Row { start, length })?;
        self.width = width;
        Ok(())
    }

    /// How many cells there are in all.
    pub fn cells(&self) -> usize
        ensures { result ≡ cell_count self.now }
    {
        self.homes as usize * self.width
    }

    /// The place in the list of a cell of a row at a home.
    #[inline(always)]
    pub fn place(&self, row: u32, home: u32, index: u64) -> Option<usize>
        ensures { result ≡ (if is_placed self.now row home index
            then Some (place_at self.now row home index) else None) }
    {
        let row = self.rows.get(row as usize)?;
        if home < self.homes && (index as usize) < row.length {
            Some(home as usize * self.width + (row.start + index as usize))
        } else {
            None
        }
    }
}

/// Each cell of rows has a place among all, and no other has it.
pub fn places_apart()
    ensures { (v : Shape) → ArePlaced v }
{}

// So many cells in a home, and a row more; none where all homes then pass what memory may hold.
fn width_with(width: usize, length: usize, homes: u32) -> Option<usize>
    ensures { (n : ℕ) → result ≡ Some n → (n ≡ width + length) × (homes * n < 2 ^ 64) }
{
    let wider = width.checked_add(length)?;
    let _all = wider.checked_mul(homes as usize)?;
    Some(wider)
}
