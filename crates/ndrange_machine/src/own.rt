//! Memory that each work-group or each work-item has of its own.

ghost use Rattle.std.specs.Prelude.{◌≡◌, ℕ, ◌==◌, ◌&&◌, is_some, Some, length, if◌then◌else◌, IfOk};
ghost use Rattle.race_marks.specs.Rows.{cell_count};
ghost use Rattle.ndrange_machine.specs.Words.{Words, word_at, AreFilled};

use race_marks::filled::Filled;
use race_marks::rows::{Rows, places_apart};
use std::alloc::{AllocError, Global};
use std::marker::Model;

/// The words of rows of cells, which each of so many homes has.
#[derive(Drop)]
pub struct OwnCells {
    rows: Rows,
    words: Filled<u32>,
}

impl Model for OwnCells {
    ghost Value = { Words };

    ghost view = { λ c. record { shape = c.rows; words = c.words } };

    ghost invariant = { λ c. length c.words ≡ cell_count c.rows };
}

impl OwnCells {
    /// Rows of these lengths, once for each of so many homes, with the word in each cell. All
    /// memory is taken here.
    pub fn new(
        alloc: Global,
        homes: u32,
        lengths: &[u32],
        word: u32,
    ) -> Result<OwnCells, AllocError>
        ensures { IfOk result (λ c. AreFilled c homes lengths.now word) }
    {
        places_apart();
        let rows = Rows::of_lengths(alloc, homes, lengths)?;
        let words = Filled::new(alloc, rows.cells(), word)?;
        Ok(OwnCells { rows, words })
    }

    /// The word in a cell of a row at a home; none where there is no such cell.
    #[inline(always)]
    pub fn read(&self, home: u32, row: u32, index: u64) -> Option<u32>
        ensures { result ≡ word_at self.now home row index }
    {
        places_apart();
        match self.rows.place(row, home, index) {
            Some(place) => Some(self.words.get(place)),
            None => None,
        }
    }

    /// Puts the word into a cell of a row at a home, and says whether there is such a cell.
    #[inline(always)]
    pub fn write(&mut self, home: u32, row: u32, index: u64, word: u32) -> bool
        ensures there { result ≡ is_some (word_at self.old home row index) }
        ensures cells { (h a i : ℕ) → word_at self.new h a i
            ≡ (if ((a == row) && ((h == home) && (i == index)))
            && is_some (word_at self.old home row index)
            then Some word else word_at self.old h a i) }
    {
        places_apart();
        match self.rows.place(row, home, index) {
            Some(place) => {
                self.words.set(place, word);
                true
            }
            None => false,
        }
    }
}
