//! Flags of work-items and work-groups, and the events that they enable.

ghost use Rattle.std.specs.Prelude.{◌≡◌, ◌↔◌, ◌+◌, ◌-◌, ◌^◌, ◌<◌, ◌≤◌, ℕ, true, false, Some, length, replicate, is_some, slice_get, slice_set, if◌then◌else◌, IfOk, IsTrue};
ghost use Rattle.kernel_tree.specs.Launch.{item_count, group_count};
ghost use Rattle.enabled_events.specs.Flags.{Counted, CountSteps, IsHeight, IsPlaceOf, NoneSteps};
ghost use Rattle.enabled_events.specs.Grids.{laid, IsSmall};
ghost use Rattle.enabled_events.specs.Listed.{Flags, event_at, flagged_events};

use crate::grid::Grid;
use count_tree::places::Places;
use count_tree::steps::Steps;
use kernel_tree::events::Event;
use std::alloc::{AllocError, Global};
use std::marker::{Brand, Model};
use std::sync::ledger::{Blank, Ledger};

/// Which work-items have an event of their own, and which work-groups a release, counted in a tree;
/// and how many items of each group have one.
#[derive(Drop)]
pub struct Ready {
    grid: Grid,
    items: Vec<bool>,
    groups: Vec<bool>,
    places: Places,
    steps: Vec<u32>,
}

impl Model for Ready {
    ghost Value = { Flags };

    ghost view = { λ r. record {
      grid = r.grid;
      items = r.items.items;
      groups = r.groups.items;
    } };

    ghost invariant = { λ r. Counted r.grid r.items.items r.groups.items r.places
        × CountSteps r.grid r.items.items r.groups.items r.steps.items };
}

impl Ready {
    /// Nothing is enabled yet, of the work-items of this grid. All memory is taken here.
    pub fn new(alloc: Global, grid: Grid) -> Result<Ready, AllocError>
        requires { IsSmall grid }
        ensures { IfOk result (λ r. r ≡ record {
          grid = grid;
          items = replicate (item_count (laid grid)) false;
          groups = replicate (group_count (laid grid)) false;
        }) }
    {
        let items = grid.item_count();
        let groups = grid.group_count() as usize;
        Ok(Ready {
            grid,
            items: vec![in alloc; false; items as usize]?,
            groups: vec![in alloc; false; groups]?,
            places: Places::new(alloc, items.max(1))?,
            steps: vec![in alloc; 0u32; groups]?,
        })
    }

    /// Each work-item of this grid can step, and no group may be released. All memory is taken
    /// here, in a time that grows with the number of items alone.
    pub fn all_stepping(alloc: Global, grid: Grid) -> Result<Ready, AllocError>
        requires { IsSmall grid }
        ensures { IfOk result (λ r. r ≡ record {
          grid = grid;
          items = replicate (item_count (laid grid)) true;
          groups = replicate (group_count (laid grid)) false;
        }) }
    {
        let items = grid.item_count();
        let groups = grid.group_count() as usize;
        Ok(Ready {
            grid,
            items: vec![in alloc; true; items as usize]?,
            groups: vec![in alloc; false; groups]?,
            places: Places::filled(alloc, items)?,
            steps: vec![in alloc; grid.group_size(); groups]?,
        })
    }

    /// How many events are enabled.
    #[inline(always)]
    pub fn enabled(&self) -> u32
        ensures { result ≡ length (flagged_events self.now) }
    {
        self.places.flagged()
    }

    /// The enabled event of this number, in the order of the items, from 0. A step is a look at one
    /// count: just n of them, where 2 ^ n is the least power that isn't below the number of items.
    pub fn nth_enabled_counted<L: Ledger>(&self, k: u32, steps: &mut Steps<L>) -> Event
        requires { k < length (flagged_events self.now) }
        ensures event { slice_get (flagged_events self.now) k ≡ Some result }
        ensures cost { (n : ℕ) → IsHeight (length self.now.items) n → steps.new ≡ steps.old + n }
    {
        let place = self.places.nth_flagged(k, steps);
        self.event_of(place, k)
    }

    /// The enabled event of this number, in the order of the items, from 0. The first takes no look
    /// at the counts.
    #[inline(always)]
    pub fn nth_enabled(&self, k: u32) -> Event
        requires { k < length (flagged_events self.now) }
        ensures { slice_get (flagged_events self.now) k ≡ Some result }
    {
        if k == 0 {
            self.event_of(self.places.first(), k)
        } else {
            nth_from::<Brand>(self, k, Blank::new(1))
        }
    }

    /// Whether no item of a group can step.
    #[inline(always)]
    pub fn has_stopped(&self, group: u32) -> bool
        requires { group < length self.now.groups }
        ensures { IsTrue result ↔ NoneSteps self.now group }
    {
        self.steps[group as usize] == 0
    }

    /// Whether an item can step from now on.
    pub fn set_item(&mut self, item: u32, steps: bool)
        requires { item < length self.old.items }
        ensures { self.new ≡ record {
          grid = self.old.grid;
          items = slice_set self.old.items item steps;
          groups = self.old.groups;
        } }
    {
        let group = self.grid.group_of(item) as usize;
        self.steps[group] = recounted(self.steps[group], self.items[item as usize], steps);
        self.items[item as usize] = steps;
        let flag = stands(&self.items, &self.groups, self.grid, item);
        self.places.set(item, flag);
    }

    /// Whether a group may be released from now on.
    pub fn set_group(&mut self, group: u32, together: bool)
        requires { group < length self.old.groups }
        ensures { self.new ≡ record {
          grid = self.old.grid;
          items = self.old.items;
          groups = slice_set self.old.groups group together;
        } }
    {
        self.groups[group as usize] = together;
        let first = self.grid.first_of(group);
        let flag = stands(&self.items, &self.groups, self.grid, first);
        self.places.set(first, flag);
    }

    // The event at the place whose flag comes after `k` others.
    #[inline(always)]
    fn event_of(&self, place: u32, k: u32) -> Event
        requires { IsPlaceOf self.now place k }
        ensures { slice_get (flagged_events self.now) k ≡ Some result }
    {
        if self.items[place as usize] {
            Event::Step(place)
        } else {
            Event::Release(self.grid.group_of(place))
        }
    }
}

fn nth_from<L: Ledger>(ready: &Ready, k: u32, blank: Blank) -> Event
    requires name { blank.name ≡ L.name }
    requires parts { blank.parts ≡ L.parts }
    requires some { 0 < blank.parts }
    requires within { k < length (flagged_events ready.now) }
    ensures { slice_get (flagged_events ready.now) k ≡ Some result }
{
    let mut steps = Steps::<L>::new(blank);
    ready.nth_enabled_counted(k, &mut steps)
}

// The count of a group's items that step, after one of them is set.
fn recounted(count: u32, before: bool, now: bool) -> u32
    ensures { (if before then 1 else 0) ≤ count → count < 2 ^ 32 - 1
        → result + (if before then 1 else 0) ≡ count + (if now then 1 else 0) }
{
    match (before, now) {
        (true, false) => count.saturating_sub(1),
        (false, true) => count.saturating_add(1),
        _ => count,
    }
}

// Whether an event stands at an item.
fn stands(items: &[bool], groups: &[bool], grid: Grid, place: u32) -> bool
    requires small { IsSmall grid }
    requires items { length items.now ≡ item_count (laid grid) }
    requires groups { length groups.now ≡ group_count (laid grid) }
    requires place { place < length items.now }
    ensures { result ≡ is_some (event_at grid items.now groups.now place) }
{
    if items[place as usize] {
        true
    } else {
        let group = grid.group_of(place);
        place == grid.first_of(group) && groups[group as usize]
    }
}
