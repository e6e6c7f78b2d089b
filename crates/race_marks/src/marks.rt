//! Marks of cells: eight bytes a cell, which tell of all accesses of a run so far as much as a race
//! can ask.

ghost use Rattle.std.specs.Prelude.{◌≡◌, ◌<◌, ◌==◌, false, length, map, replicate, slice_index_or, slice_set, if◌then◌else◌, IfOk};
ghost use Rattle.std.specs.List.{All};
ghost use Rattle.race_marks.specs.Marks as told;
ghost use Rattle.race_marks.specs.Held.{lately_of, in_group, mark_at, mark_of, swept_mark, IsKept, Notes, View};
ghost use Rattle.race_marks.specs.declared.marks.Lately.TheVariants as lately;

use crate::filled::Filled;
use std::alloc::{AllocError, Global};
use std::marker::Model;

/// An access of a cell by a work-item of a group.
#[derive(Clone, Copy)]
pub struct Touch {
    pub group: u16,
    pub item: u16,
    pub writes: bool,
}

/// What a group's items have done with a cell since the group's last release with the cell's flag.
#[derive(Clone, Copy)]
pub enum Lately {
    /// None has touched it.
    Nothing,
    /// One item alone has read it, and none has written it.
    ReadByOne,
    /// Several items have read it, and none has written it.
    ReadByMany,
    /// One item alone has touched it, and has written it.
    WrittenByOne,
}

/// Who has touched a cell in a run without a race.
#[derive(Clone, Copy)]
pub enum Touched {
    /// Nobody.
    ByNone,
    /// Items of several groups have read it, and none has written it.
    ReadByGroups,
    /// Items of one group alone, which have only read it.
    ReadInGroup,
    /// Items of one group alone, and one has written it.
    WrittenInGroup,
}

/// A cell's mark: who has touched it, and of a single group what was done in its epoch at the last
/// access, and by which item. An epoch that isn't the group's is an earlier one.
#[derive(Clone, Copy)]
pub struct Mark {
    pub touched: Touched,
    pub lately: Lately,
    pub item: u16,
    pub group: u16,
    pub epoch: u16,
}

/// The marks of cells whose accesses one flag orders, and the epochs of the groups.
#[derive(Drop)]
pub struct Marks {
    marks: Filled<Mark>,
    epochs: Vec<u16>,
}

impl Model for Marks {
    ghost Value = { View };

    ghost view = { λ m. record {
      groups = length m.epochs.items;
      marks = map (mark_of m.epochs.items) m.marks;
    } };

    ghost invariant = { λ m. All (IsKept m.epochs.items) m.marks };
}

impl Marks {
    /// The marks of so many cells that no item of so many groups has touched. All memory is taken
    /// here.
    pub fn new(alloc: Global, cells: usize, groups: usize) -> Result<Marks, AllocError>
        ensures { IfOk result (λ m. m ≡ record {
          groups = groups;
          marks = replicate cells told.Untouched;
        }) }
    {
        let untouched = Mark {
            touched: Touched::ByNone,
            lately: Lately::Nothing,
            item: 0,
            group: 0,
            epoch: 0,
        };
        let marks = Filled::new(alloc, cells, untouched)?;
        let epochs = vec![in alloc; 1u16; groups]?;
        Ok(Marks { marks, epochs })
    }

    /// Whether the access races with one of the run so far. One that doesn't is taken into account.
    #[inline(always)]
    pub fn touch(&mut self, cell: usize, touch: Touch) -> bool
        requires cell { cell < length self.old.marks }
        requires group { touch.group < self.old.groups }
        ensures race { result ≡ told.races (slice_index_or self.old.marks cell told.Untouched)
            touch.group touch.item touch.writes }
        ensures marks { self.new ≡ record {
          groups = self.old.groups;
          marks = if result then self.old.marks else slice_set self.old.marks cell
              (told.noted (slice_index_or self.old.marks cell told.Untouched)
              touch.group touch.item touch.writes);
        } }
    {
        match noted(
            self.marks.get(cell),
            self.epochs[touch.group as usize],
            touch,
        ) {
            Some(mark) => {
                self.marks.set(cell, mark);
                false
            }
            None => true,
        }
    }

    /// Takes a release of the group with the flag into account.
    pub fn release(&mut self, group: u32)
        requires { group < self.old.groups }
        ensures { self.new ≡ record {
          groups = self.old.groups;
          marks = map (told.released group) self.old.marks;
        } }
    {
        let epoch = self.epochs[group as usize];
        if epoch < u16::MAX {
            self.epochs[group as usize] = epoch + 1;
        } else {
            sweep(&mut self.marks, group);
            self.epochs[group as usize] = 1;
        }
    }
}

// What was done in the epoch, where the last access was in this one.
#[inline(always)]
fn lately_now(mark: Mark, now: u16) -> Lately
    ensures { lately_of result mark.item
        ≡ (if mark.epoch == now then lately_of mark.lately mark.item else told.Nothing) }
{
    if mark.epoch == now {
        mark.lately
    } else {
        Lately::Nothing
    }
}

// Whether the touch races with what an item of its group has done in its epoch.
#[inline(always)]
fn races_lately(lately: Lately, item: u16, touch: Touch) -> bool
    ensures { result ≡ told.races_lately (lately_of lately item) touch.item touch.writes }
{
    match lately {
        Lately::Nothing => false,
        Lately::ReadByOne => item != touch.item && touch.writes,
        Lately::ReadByMany => touch.writes,
        Lately::WrittenByOne => item != touch.item,
    }
}

// What was done with the touch, which is no race, where this item was the last.
#[inline(always)]
fn noted_lately(lately: Lately, item: u16, touch: Touch) -> Lately
    ensures { told.races_lately (lately_of lately item) touch.item touch.writes ≡ false
        → lately_of result touch.item
        ≡ told.noted_lately (lately_of lately item) touch.item touch.writes }
{
    if touch.writes {
        return Lately::WrittenByOne;
    }
    match lately {
        Lately::Nothing => Lately::ReadByOne,
        Lately::ReadByOne => {
            if item == touch.item {
                Lately::ReadByOne
            } else {
                Lately::ReadByMany
            }
        }
        Lately::ReadByMany => Lately::ReadByMany,
        Lately::WrittenByOne => Lately::WrittenByOne,
    }
}

// The mark with the touch, at its group's epoch; none where it is a race.
#[inline(always)]
fn noted(mark: Mark, now: u16, touch: Touch) -> Option<Mark>
    ensures { Notes mark now touch result }
{
    match mark.touched {
        Touched::ByNone => Some(first_mark(now, touch)),
        Touched::ReadByGroups => { if touch.writes { None } else { Some(mark) } }
        Touched::ReadInGroup => noted_in_group(mark, now, touch, false),
        Touched::WrittenInGroup => noted_in_group(mark, now, touch, true),
    }
}

// The mark of a cell that nobody has touched before.
#[inline(always)]
fn first_mark(now: u16, touch: Touch) -> Mark
    ensures { result ≡ mark_at now touch touch.writes
        (if touch.writes then lately.WrittenByOne else lately.ReadByOne) }
{
    Mark {
        touched: touched_in_group(touch.writes),
        lately: if touch.writes {
            Lately::WrittenByOne
        } else {
            Lately::ReadByOne
        },
        item: touch.item,
        group: touch.group,
        epoch: now,
    }
}

// Of a mark that tells of one group, which has written the cell or not.
#[inline(always)]
fn noted_in_group(mark: Mark, now: u16, touch: Touch, written: bool) -> Option<Mark>
    requires { mark.touched ≡ in_group written }
    ensures { Notes mark now touch result }
{
    if mark.group == touch.group {
        noted_in_own(mark, now, touch, written)
    } else if written || touch.writes {
        None
    } else {
        Some(Mark {
            touched: Touched::ReadByGroups,
            lately: mark.lately,
            item: mark.item,
            group: mark.group,
            epoch: mark.epoch,
        })
    }
}

// Of a mark that tells of the touch's group.
#[inline(always)]
fn noted_in_own(mark: Mark, now: u16, touch: Touch, written: bool) -> Option<Mark>
    requires touched { mark.touched ≡ in_group written }
    requires own { mark.group ≡ touch.group }
    ensures { Notes mark now touch result }
{
    let lately = lately_now(mark, now);
    if races_lately(lately, mark.item, touch) {
        None
    } else {
        Some(Mark {
            touched: touched_in_group(written || touch.writes),
            lately: noted_lately(lately, mark.item, touch),
            item: touch.item,
            group: touch.group,
            epoch: now,
        })
    }
}

#[inline(always)]
fn touched_in_group(written: bool) -> Touched
    ensures { result ≡ in_group written }
{
    if written {
        Touched::WrittenInGroup
    } else {
        Touched::ReadInGroup
    }
}

// The marks of a group get epoch 0, which is before each. Those that have it stay.
fn sweep(marks: &mut Filled<Mark>, group: u32)
    ensures { marks.new ≡ map (swept_mark group) marks.old }
{
    for cell in 0..marks.len() {
        let mark = marks.get(cell);
        if mark.epoch > 0 {
            marks.set(cell, swept(mark, group));
        }
    }
}

fn swept(mark: Mark, group: u32) -> Mark
    ensures { result ≡ swept_mark group mark }
{
    Mark {
        touched: mark.touched,
        lately: mark.lately,
        item: mark.item,
        group: mark.group,
        epoch: if mark.group as u32 == group {
            0
        } else {
            mark.epoch
        },
    }
}
