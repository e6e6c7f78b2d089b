//! The marks of all cells that work-items may race for.

ghost use Rattle.std.specs.Prelude.{◌≡◌, ◌<◌, ◌∷◌, ◌++◌, List, [], length, map, IfOk};
ghost use Rattle.kernel_tree.specs.declared.events.Event as held_event;
ghost use Rattle.kernel_tree.specs.declared.events.Event.TheVariants as event_form;
ghost use Rattle.kernel_tree.specs.Launch.{first_item};
ghost use Rattle.kernel_tree.specs.Device.{Device, State, Fence, has_flag, is_flagged, run, wants};
ghost use Rattle.kernel_tree.specs.Tree.{array_of};
ghost use Rattle.race_marks.specs.Marked.{BeginsMarks, Marked, MarksTell, TracksAccess, TracksCell, TracksFour};

use crate::marks::Touch;
use crate::rows::Rows;
use crate::tracked::Tracked;
use kernel_tree::tree::Array;
use std::alloc::{AllocError, Global};
use std::marker::Model;

/// A mark for each cell of the outputs and the local arrays. Inputs are read alone, and a work-item
/// has its private arrays to itself, so that no access of these is a race.
#[derive(Drop)]
pub struct CellMarks {
    groups: u32,
    outputs: Tracked,
    locals: Tracked,
}

impl Model for CellMarks {
    ghost Value = { Marked };

    ghost view = { λ m. record {
      groups = m.groups;
      outputs = m.outputs;
      locals = m.locals;
    } };

    ghost invariant = { λ m. (m.outputs.groups ≡ m.groups) × (m.locals.groups ≡ m.groups) };
}

impl CellMarks {
    /// The marks of outputs with these cells, and of local arrays of these lengths in each of so
    /// many groups, that no work-item has touched. All memory is taken here.
    pub fn new(
        alloc: Global,
        outs: &[Vec<u32>],
        locals: &[u32],
        groups: u32,
    ) -> Result<CellMarks, AllocError>
        ensures groups { IfOk result (λ m. m.groups ≡ groups) }
        ensures begins { IfOk result (BeginsMarks outs.now locals.now groups) }
    {
        Ok(CellMarks {
            groups,
            outputs: Tracked::new(alloc, rows_of(alloc, outs)?, groups)?,
            locals: Tracked::new(alloc, Rows::of_lengths(alloc, groups, locals)?, groups)?,
        })
    }

    /// Takes an access of the array's cell at the index into account, and says whether it is a
    /// race.
    #[inline(always)]
    pub fn touch(&mut self, array: Array, index: u32, touch: Touch) -> bool
        requires { touch.group < self.old.groups }
        ensures groups { self.new.groups ≡ self.old.groups }
        ensures tracks { TracksAccess self.old (array_of array) index touch result self.new }
    {
        self.touch_cell(array, index as u64, touch)
    }

    /// Takes an access of the four cells at the offset, which counts in fours, into account, and
    /// tells the first of them that is a race.
    pub fn touch_four(&mut self, array: Array, offset: u32, touch: Touch) -> Option<u32>
        requires { touch.group < self.old.groups }
        ensures groups { self.new.groups ≡ self.old.groups }
        ensures tracks { TracksFour self.old (array_of array) offset touch result self.new }
    {
        let first = 4 * offset as u64;
        for lane in 0..4u32 {
            if self.touch_cell(array, first + lane as u64, touch) {
                return Some(lane);
            }
        }
        None
    }

    /// Takes a release of the group with these flags into account.
    pub fn release(&mut self, group: u32, on_local: bool, on_global: bool)
        requires { group < self.old.groups }
        ensures groups { self.new.groups ≡ self.old.groups }
        ensures tells { (d : Device) (s : State) (es : List held_event.Event)
            → MarksTell d s es self.old
            → ((f : Fence) → has_flag (wants d (run d s es) (first_item d.launch group)) f
            ≡ is_flagged on_local on_global f)
            → MarksTell d s (es ++ event_form.Release group ∷ []) self.new }
    {
        self.outputs.release(group, on_global);
        self.locals.release(group, on_local);
    }

    // Takes an access of one cell into account, and says whether it is a race.
    #[inline(always)]
    fn touch_cell(&mut self, array: Array, index: u64, touch: Touch) -> bool
        requires { touch.group < self.old.groups }
        ensures groups { self.new.groups ≡ self.old.groups }
        ensures tracks { TracksCell self.old (array_of array) index touch result self.new }
    {
        match array {
            Array::Output(a) => self.outputs.touch(a, 0, index, touch),
            Array::Local(a) => self.locals.touch(a, touch.group as u32, index, touch),
            Array::Input(_) => false,
            Array::Private(_) => false,
        }
    }
}

// The rows of these cells, which all work-items share.
fn rows_of(alloc: Global, cells: &[Vec<u32>]) -> Result<Rows, AllocError>
    ensures { IfOk result (λ r. r ≡ record {
      homes = 1;
      lengths = map (λ row. length row.items) cells.now;
    }) }
{
    let mut rows = Rows::new(alloc, 1);
    for row in cells {
        rows.push(row.len())?;
    }
    Ok(rows)
}
