//! The marks of rows of cells whose accesses one flag orders.

ghost use Rattle.std.specs.Prelude.{◌≡◌, ◌<◌, replicate, IfOk, length};
ghost use Rattle.race_marks.specs.Marks as told;
ghost use Rattle.race_marks.specs.Rows.{cell_count};
ghost use Rattle.race_marks.specs.Tracked.{Kept, is_race, touched, after_release};

use crate::marks::{Marks, Touch};
use crate::rows::Rows;
use std::alloc::{AllocError, Global};
use std::marker::Model;

/// Rows of cells, each with its mark.
#[derive(Drop)]
pub struct Tracked {
    rows: Rows,
    marks: Marks,
}

impl Model for Tracked {
    ghost Value = { Kept };

    ghost view = { λ t. record {
      groups = t.marks.groups;
      shape = t.rows;
      marks = t.marks.marks;
    } };

    ghost invariant = { λ t. length t.marks.marks ≡ cell_count t.rows };
}

impl Tracked {
    /// The rows' cells, which no item of so many groups has touched.
    pub fn new(alloc: Global, rows: Rows, groups: u32) -> Result<Tracked, AllocError>
        ensures { IfOk result (λ t. t ≡ record {
          groups = groups;
          shape = rows;
          marks = replicate (cell_count rows) told.Untouched;
        }) }
    {
        let marks = Marks::new(alloc, rows.cells(), groups as usize)?;
        Ok(Tracked { rows, marks })
    }

    /// Takes an access of the row's cell at the home into account, and says whether it is a race.
    /// What isn't one of the cells changes nothing.
    #[inline(always)]
    pub fn touch(&mut self, row: u32, home: u32, index: u64, touch: Touch) -> bool
        requires { touch.group < self.old.groups }
        ensures race { result ≡ is_race self.old row home index touch }
        ensures marks { self.new ≡ touched self.old row home index touch }
    {
        match self.rows.place(row, home, index) {
            Some(place) => self.marks.touch(place, touch),
            None => false,
        }
    }

    /// Takes a release of the group into account, which has the cells' flag or doesn't.
    pub fn release(&mut self, group: u32, flagged: bool)
        requires { group < self.old.groups }
        ensures { self.new ≡ after_release self.old group flagged }
    {
        if flagged {
            self.marks.release(group);
        }
    }
}
