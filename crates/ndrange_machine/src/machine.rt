//! The machine.

ghost use Rattle.std.specs.Prelude.{◌≡◌, ◌↔◌, ◌+◌, ◌<◌, ◌≤◌, ℕ, List, [], false, length, map, slice_get, slice_index, Some, None, replicate, IsTrue, IfOk};
ghost use Rattle.kernel_tree.specs.Code as code;
ghost use Rattle.kernel_tree.specs.Launch as seen;
ghost use Rattle.kernel_tree.specs.declared.events.Event as held_event;
ghost use Rattle.kernel_tree.specs.declared.events.Event.TheVariants as event_form;
ghost use Rattle.kernel_tree.specs.declared.events.FaultKind.TheVariants.{OutOfRange, Race};
ghost use Rattle.kernel_tree.specs.Device.{device_of, AllEnded};
ghost use Rattle.kernel_tree.specs.Kernels.{kernel_of};
ghost use Rattle.kernel_tree.specs.Schedule.{AreEnabled};
ghost use Rattle.kernel_tree.specs.Seen.{shared_cell};
ghost use Rattle.kernel_tree.specs.Tree.{array_of};
ghost use Rattle.enabled_events.specs.Flags.{IsHeight};
ghost use Rattle.enabled_events.specs.Grids.{grid_of, laid, IsSmall};
ghost use Rattle.enabled_events.specs.Listed.{flagged_events};
ghost use Rattle.race_marks.specs.Marked.{BeginsMarks, TracksAccess, TracksFour};
ghost use Rattle.ndrange_machine.specs.Changes.{start_view};
ghost use Rattle.ndrange_machine.specs.Sights.{access_of_want, fault_in, lane_of, raced_cell, touch_at};
ghost use Rattle.ndrange_machine.specs.ItemView.{ItemView};
ghost use Rattle.ndrange_machine.specs.Known.{AreGroups};
ghost use Rattle.ndrange_machine.specs.Memory.{rows_of};
ghost use Rattle.ndrange_machine.specs.Words.{AreFilled};
ghost use Rattle.ndrange_machine.specs.declared.want.Want.TheVariants as want_form;

use crate::change::Change;
use crate::four::Four;
use crate::ids::Ids;
use crate::items::Items;
use crate::line::{Line, depth_of, lines_of, steps_from};
use crate::memory::Memory;
use crate::want::{Want, want_begun};
use count_tree::steps::Steps;
use enabled_events::grid::Grid;
use enabled_events::laws::{flags_follow, flags_tell};
use enabled_events::ready::Ready;
use kernel_tree::events::{Access, Cell, Event, Fault, FaultKind, Seen};
use kernel_tree::launches::{Cells, Launch};
use kernel_tree::tree::{Array, Kernel};
use race_marks::cells::CellMarks;
use race_marks::laws::marks_stay;
use race_marks::marks::Touch;
use std::alloc::{AllocError, Global};
use std::sync::ledger::Ledger;

/// A kernel at some point of a run. The fault is that of the last event that had one: a step says
/// by a `bool` whether it had one, so that nothing of it is looked at where all is well.
#[derive(Drop)]
pub struct Machine {
    lines: Vec<Line>,
    launch: Launch,
    memory: Memory,
    items: Items,
    groups: Vec<u16>,
    marks: CellMarks,
    ready: Ready,
    fault: Option<Fault>,
    ghost small: { IsSmall (grid_of launch) },
    ghost all_items: { length items ≡ seen.item_count launch },
    ghost ready_grid: { ready.grid ≡ grid_of launch },
    ghost ready_items: { length ready.items ≡ seen.item_count launch },
    ghost ready_groups: { length ready.groups ≡ seen.group_count launch },
    ghost marked_groups: { marks.groups ≡ seen.group_count launch },
    ghost grouped: { length groups.items ≡ seen.item_count launch },
    ghost its_group: { (j : ℕ) → j < seen.item_count launch
        → slice_index groups.items j ≡ seen.group_of launch j },
}

impl Machine {
    ghost use Rattle.ndrange_machine.specs.Stands.{StandsFor, CountsEnabled, AreOutputs, enabled_count, state_after};
    ghost use Rattle.ndrange_machine.specs.Takes.{Advances, TellsAccess, Takes, Changes, PassesOne, PassesGroup, IsWanted, IsAtBarrier, IsGoing, SameCore, StandsAt, Tells, is_going, told_if};
    ghost use Rattle.ndrange_machine.specs.Groups.{SamePlace, TellsTogether, TellsEnded, SetsFlag, Refreshes, Meets, Settles, Stops, AtStart, Begins, MarksRelease};

    /// The machine at the start of the kernel's run. All its memory is taken here.
    pub fn start(
        alloc: Global,
        kernel: Kernel,
        launch: Launch,
        cells: Cells,
    ) -> Result<Machine, AllocError>
        requires may_start { seen.MayStart (kernel_of kernel) launch cells }
        ensures { IfOk result (λ m. StandsFor (kernel_of kernel) launch cells m []) }
    {
        let Kernel {
            locals,
            privates,
            variables,
            vectors,
            body,
            ..
        } = kernel;
        let grid = Grid {
            global: launch.global,
            local: launch.local,
        };
        let rest = cells.rest;
        let lines = lines_of(alloc, body)?;
        let steps = steps_from(&lines, 0);
        let stores = Stores::start(alloc, grid, cells, locals, privates, steps)?;
        let items = Items::start(
            alloc,
            grid.item_count(),
            depth_of(&lines),
            variables,
            vectors,
            rest,
        )?;
        let Stores { memory, tables } = stores;
        let Tables {
            groups,
            marks,
            ready,
        } = tables;
        let mut machine = Machine {
            lines,
            launch,
            memory,
            items,
            groups,
            marks,
            ready,
            fault: None,
        };
        machine.begin(steps);
        Ok(machine)
    }

    /// How many events are enabled.
    pub fn enabled(&self) -> u32
        ensures number { result ≡ enabled_count self.now }
        ensures counts { (k : code.Kernel) (l : seen.Launch) (c : seen.Cells)
            (es : List held_event.Event)
            → StandsFor k l c self.now es
            → CountsEnabled (device_of k l c) (state_after k l c es) result }
    {
        flags_tell();
        self.ready.enabled()
    }

    /// The enabled event of this number, in the order of the work-items, from 0.
    #[inline(always)]
    pub fn nth_enabled(&self, k: u32) -> Event
        requires { k < enabled_count self.now }
        ensures told { slice_get (flagged_events self.now.ready) k ≡ Some result }
        ensures event { (kernel : code.Kernel) (l : seen.Launch) (c : seen.Cells)
            (es all : List held_event.Event)
            → StandsFor kernel l c self.now es
            → AreEnabled (device_of kernel l c) (state_after kernel l c es) all
            → slice_get all k ≡ Some result }
    {
        flags_tell();
        self.ready.nth_enabled(k)
    }

    /// The enabled event of this number, in the order of the work-items, from 0. A step is a look
    /// at one count of enabled events: just n of them, where 2 ^ n is the least power that isn't
    /// below the number of work-items.
    pub fn nth_enabled_counted<L: Ledger>(&self, k: u32, steps: &mut Steps<L>) -> Event
        requires { k < enabled_count self.now }
        ensures told { slice_get (flagged_events self.now.ready) k ≡ Some result }
        ensures event { (kernel : code.Kernel) (l : seen.Launch) (c : seen.Cells)
            (es all : List held_event.Event)
            → StandsFor kernel l c self.now es
            → AreEnabled (device_of kernel l c) (state_after kernel l c es) all
            → slice_get all k ≡ Some result }
        ensures cost { (n : ℕ) → IsHeight (seen.item_count self.now.launch) n
            → steps.new ≡ steps.old + n }
    {
        flags_tell();
        self.ready.nth_enabled_counted(k, steps)
    }

    /// Whether all work-items have ended.
    pub fn finished(&self) -> bool
        ensures { (k : code.Kernel) (l : seen.Launch) (c : seen.Cells) (es : List held_event.Event)
            → StandsFor k l c self.now es
            → IsTrue result ↔ AllEnded (device_of k l c) (state_after k l c es) }
    {
        for item in 0..self.grid().item_count() {
            if !self.has_ended(item) {
                return false;
            }
        }
        true
    }

    /// Takes an enabled event, and tells what is seen of it: the event, its access of shared
    /// memory, and its fault. No event is taken after a fault. A release has none.
    pub fn step(&mut self, event: Event) -> Seen
        ensures takes { Takes self.old event self.new result }
        ensures release { (g : ℕ) → event ≡ event_form.Release g → result.fault ≡ None }
    {
        let access = self.access(event);
        let fault = self.advance_by_want(event);
        Seen {
            event,
            access,
            fault,
        }
    }

    /// The access of shared memory that an enabled event has, if any.
    pub fn access(&self, event: Event) -> Option<Access>
        ensures { TellsAccess self.now event result }
    {
        match event {
            Event::Step(item) => access_in(self.want(item)),
            Event::Release(_) => None,
        }
    }

    /// Takes an enabled event, and tells its fault alone. No event is taken after a fault. A
    /// release has none.
    #[inline(always)]
    pub fn advance(&mut self, event: Event) -> Option<Fault>
        ensures advances { Advances self.old event self.new result }
        ensures release { (g : ℕ) → event ≡ event_form.Release g → result ≡ None }
    {
        match event {
            Event::Step(item) => {
                if self.step_item(item) {
                    self.fault
                } else {
                    None
                }
            }
            Event::Release(group) => {
                self.release_group(group);
                None
            }
        }
    }

    // As `advance`, by what a work-item wants whatever its line is. So `go` has one caller, into
    // which the compiler puts it.
    fn advance_by_want(&mut self, event: Event) -> Option<Fault>
        ensures advances { Advances self.old event self.new result }
        ensures release { (g : ℕ) → event ≡ event_form.Release g → result ≡ None }
    {
        match event {
            Event::Step(item) => {
                if self.take_item(item) {
                    self.fault
                } else {
                    None
                }
            }
            Event::Release(group) => {
                self.release_group(group);
                None
            }
        }
    }

    /// The contents of the output arrays.
    pub fn outputs(self) -> Vec<Vec<u32>>
        ensures { (k : code.Kernel) (l : seen.Launch) (c : seen.Cells) (es : List held_event.Event)
            → StandsFor k l c self es
            → AreOutputs k l c (state_after k l c es) (map (λ row. row.items) result.items) }
    {
        let Machine { memory, .. } = self;
        let Memory { outs, .. } = memory;
        outs
    }

    // Where work-items stand

    // Whether the work-item of this number stands at a barrier.
    fn is_at_barrier(&self, item: u32) -> bool
        ensures { IsAtBarrier self.now item result }
    {
        match self.items.line(item) {
            Some(line) => matches!(self.lines.get(line), Some(Line::Barrier { .. })),
            None => false,
        }
    }

    // Whether the work-item of this number has neither ended nor stands at a barrier.
    #[inline(always)]
    fn can_step(&self, item: u32) -> bool
        ensures { IsGoing self.now item result }
    {
        match self.items.line(item) {
            Some(line) => self.goes_on(line),
            None => false,
        }
    }

    // Whether a work-item that stands at this line has neither ended nor stands at a barrier.
    #[inline(always)]
    fn goes_on(&self, line: usize) -> bool
        ensures { result ≡ is_going (slice_get self.now.lines.items line) }
    {
        steps_from(&self.lines, line)
    }

    // Whether the two work-items stand at one place, in turns of the same numbers.
    fn stand_together(&self, one: u32, other: u32) -> bool
        ensures { (a b : ItemView) → slice_get self.now.items one ≡ Some a
            → slice_get self.now.items other ≡ Some b → IsTrue result ↔ SamePlace a b }
    {
        let count = self.items.count();
        if (one as usize) < count && (other as usize) < count {
            self.items.stand_together(one, other)
        } else {
            true
        }
    }

    // Whether all work-items of a group stand at one barrier, in turns of the same numbers.
    fn are_together(&self, group: u32) -> bool
        requires { group < seen.group_count self.now.launch }
        ensures { TellsTogether self.now group result }
    {
        let grid = self.grid();
        let first = grid.first_of(group);
        if !self.is_at_barrier(first) {
            return false;
        }
        for number in 0..grid.group_size() {
            if !self.stand_together(first, grid.member(group, number)) {
                return false;
            }
        }
        true
    }

    // Whether all work-items of a group have ended.
    fn have_ended(&self, group: u32) -> bool
        requires { group < seen.group_count self.now.launch }
        ensures { TellsEnded self.now group result }
    {
        let grid = self.grid();
        for number in 0..grid.group_size() {
            if !self.has_ended(grid.member(group, number)) {
                return false;
            }
        }
        true
    }

    // Whether the work-item of this number has ended.
    fn has_ended(&self, item: u32) -> bool
        ensures { (it : ItemView) → slice_get self.now.items item ≡ Some it
            → IsTrue result ↔ length self.now.lines.items ≤ it.line }
    {
        match self.items.line(item) {
            Some(line) => self.lines.len() <= line,
            None => true,
        }
    }

    // What the work-item of this number wants.
    fn want(&self, item: u32) -> Want
        ensures { IsWanted self.now item result }
    {
        if (item as usize) < self.items.count() {
            self.items.want(
                item,
                &self.lines,
                Ids::of_item(&self.launch, item),
                &self.launch.sizes,
            )
        } else {
            Want::Ends
        }
    }

    // Groups

    // How work-items lie in groups.
    fn grid(&self) -> Grid
        ensures { result ≡ grid_of self.now.launch }
    {
        Grid {
            global: self.launch.global,
            local: self.launch.local,
        }
    }

    // The group of a work-item.
    #[inline(always)]
    fn group_of(&self, item: u32) -> u16
        requires { item < seen.item_count self.now.launch }
        ensures { result ≡ seen.group_of self.now.launch item }
    {
        self.groups[item as usize]
    }

    // Which events are enabled

    // Sets whether a work-item has an event of its own.
    fn set_flag(&mut self, item: u32)
        ensures core { SameCore self.old self.new }
        ensures marks { self.new.marks ≡ self.old.marks }
        ensures flag { SetsFlag self.old self.new item }
    {
        if item < self.grid().item_count() {
            let steps = self.can_step(item);
            self.ready.set_item(item, steps);
        }
    }

    // Sets which work-items of a group have an event of their own, and whether it may be released.
    fn refresh(&mut self, group: u32)
        requires { group < seen.group_count self.old.launch }
        ensures core { SameCore self.old self.new }
        ensures marks { self.new.marks ≡ self.old.marks }
        ensures flags { Refreshes self.old self.new group }
    {
        let grid = self.grid();
        for number in 0..grid.group_size() {
            self.set_flag(grid.member(group, number));
        }
        let together = self.are_together(group);
        self.ready.set_group(group, together);
    }

    // Sets which events are enabled at the start, where the flags have it that all work-items can
    // step, or none of them. Where all can step, they are right as they are.
    fn begin(&mut self, steps: bool)
        requires { AtStart self.old steps }
        ensures core { SameCore self.old self.new }
        ensures marks { self.new.marks ≡ self.old.marks }
        ensures flags { Begins self.old self.new }
    {
        if steps {
            return;
        }
        for group in 0..self.grid().group_count() {
            self.refresh(group);
        }
    }

    // Sets whether a group whose work-items have all stopped may be released, and says whether it
    // diverges.
    fn meet(&mut self, group: u32) -> bool
        requires { group < seen.group_count self.old.launch }
        ensures core { SameCore self.old self.new }
        ensures marks { self.new.marks ≡ self.old.marks }
        ensures meets { Meets self.old self.new group result }
    {
        let together = self.are_together(group);
        self.ready.set_group(group, together);
        if together {
            false
        } else {
            !self.have_ended(group)
        }
    }

    // Sets which events are enabled after the step of a work-item to this line, and says whether
    // its group diverges.
    #[inline(always)]
    fn settle(&mut self, item: u32, line: usize) -> bool
        requires there { item < seen.item_count self.old.launch }
        requires stands { StandsAt self.old item line }
        ensures core { SameCore self.old self.new }
        ensures marks { self.new.marks ≡ self.old.marks }
        ensures settles { Settles self.old self.new item result }
    {
        flags_follow();
        if self.goes_on(line) {
            return false;
        }
        self.ready.set_item(item, false);
        let group = self.group_of(item) as u32;
        if self.ready.has_stopped(group) {
            self.meet(group)
        } else {
            false
        }
    }

    // Events

    // Takes the next step of a work-item that there is.
    #[inline(always)]
    fn step_item(&mut self, item: u32) -> bool
        ensures { Advances self.old (event_form.Step item) self.new (told_if result self.new) }
    {
        if (item as usize) < self.groups.len() {
            self.go(item)
        } else {
            false
        }
    }

    // Takes the next step of a work-item that there is, whatever its line is.
    fn take_item(&mut self, item: u32) -> bool
        ensures { Advances self.old (event_form.Step item) self.new (told_if result self.new) }
    {
        if (item as usize) < self.groups.len() {
            self.take(item)
        } else {
            false
        }
    }

    // Takes the next step of a work-item. Where its line is one of those that most events are of,
    // no `Want` is made of it.
    #[inline(always)]
    fn go(&mut self, item: u32) -> bool
        requires { item < seen.item_count self.old.launch }
        ensures { Advances self.old (event_form.Step item) self.new (told_if result self.new) }
    {
        let at = self.items.line_of(item);
        match self.lines.get(at) {
            Some(Line::Assign(v, e)) => match self.items.value(item, &self.launch, e) {
                Some(word) => {
                    let v = *v;
                    self.keep(item, Change::Sets(v, word), at + 1)
                }
                None => self.take(item),
            },
            Some(Line::Load(v, array, i)) => match self.items.value(item, &self.launch, i) {
                Some(index) => {
                    let v = *v;
                    let array = *array;
                    self.load(item, v, array, index, at + 1)
                }
                None => self.take(item),
            },
            Some(Line::Store(array, i, e)) => match self.items.value(item, &self.launch, i) {
                Some(index) => match self.items.value(item, &self.launch, e) {
                    Some(word) => {
                        let array = *array;
                        self.store(item, array, index, word, at + 1)
                    }
                    None => self.take(item),
                },
                None => self.take(item),
            },
            Some(Line::Tail(head)) => match self
                .items
                .want_back(item, &self.lines, &self.launch, *head)
            {
                Want::Changes(change, line) => self.keep(item, change, line),
                _ => self.take(item),
            },
            Some(Line::Head(start, bound, _, exit)) => match want_begun(
                &self.launch,
                item,
                *start,
                bound,
                at,
                *exit,
            ) {
                Want::Changes(change, line) => self.keep(item, change, line),
                _ => self.take(item),
            },
            Some(_) => self.take(item),
            None => self.take(item),
        }
    }

    // Takes the next step of a work-item, whatever its line is.
    fn take(&mut self, item: u32) -> bool
        requires { item < seen.item_count self.old.launch }
        ensures { Advances self.old (event_form.Step item) self.new (told_if result self.new) }
    {
        marks_stay();
        match self.want(item) {
            Want::Ends | Want::Waits { .. } => false,
            Want::Fails(kind) => self.fails(kind),
            Want::Changes(change, line) => self.keep(item, change, line),
            Want::Reads(variable, array, index, line) => {
                self.load(item, variable, array, index, line)
            }
            Want::Writes(array, index, word, line) => self.store(item, array, index, word, line),
            Want::ReadsFour(variable, array, offset, line) => {
                self.load_four(item, variable, array, offset, line)
            }
            Want::WritesFour(array, offset, four, line) => {
                self.store_four(item, array, offset, four, line)
            }
        }
    }

    // Changes a work-item, which touches no memory, and goes to the line.
    #[inline(always)]
    fn keep(&mut self, item: u32, change: Change, line: usize) -> bool
        requires { item < seen.item_count self.old.launch }
        ensures { IsWanted self.old item (want_form.Changes change line)
            → Advances self.old (event_form.Step item) self.new (told_if result self.new) }
    {
        marks_stay();
        self.change(item, change, line);
        let diverges = self.settle(item, line);
        self.tells_divergence(diverges)
    }

    // Loads a cell's word into a private variable, and goes to the line.
    #[inline(always)]
    fn load(&mut self, item: u32, variable: u32, array: Array, index: u32, line: usize) -> bool
        requires { item < seen.item_count self.old.launch }
        ensures { IsWanted self.old item (want_form.Reads variable array index line)
            → Advances self.old (event_form.Step item) self.new (told_if result self.new) }
    {
        let group = self.group_of(item) as u32;
        match self.memory.read(array, group, item, index as u64) {
            Some(word) => {
                let races = self.touch(item, array, index, false);
                self.change(item, Change::Sets(variable, word), line);
                let diverges = self.settle(item, line);
                self.tells(races, diverges, array, index)
            }
            None => self.stop_outside(item, line),
        }
    }

    // Stores the word in a cell, and goes to the line.
    #[inline(always)]
    fn store(&mut self, item: u32, array: Array, index: u32, word: u32, line: usize) -> bool
        requires { item < seen.item_count self.old.launch }
        ensures { IsWanted self.old item (want_form.Writes array index word line)
            → Advances self.old (event_form.Step item) self.new (told_if result self.new) }
    {
        let group = self.group_of(item) as u32;
        if self.memory.write(array, group, item, index as u64, word) {
            let races = self.touch(item, array, index, true);
            self.change(item, Change::Keeps, line);
            let diverges = self.settle(item, line);
            self.tells(races, diverges, array, index)
        } else {
            self.stop_outside(item, line)
        }
    }

    // Loads four cells' words into a private variable of four, and goes to the line.
    fn load_four(
        &mut self,
        item: u32,
        variable: u32,
        array: Array,
        offset: u32,
        line: usize,
    ) -> bool
        requires { item < seen.item_count self.old.launch }
        ensures { IsWanted self.old item (want_form.ReadsFour variable array offset line)
            → Advances self.old (event_form.Step item) self.new (told_if result self.new) }
    {
        let group = self.group_of(item) as u32;
        match self.memory.read_four(array, group, item, offset) {
            Some(four) => {
                let lane = self.touch_four(item, array, offset, false);
                self.change(item, Change::SetsFour(variable, four), line);
                let diverges = self.settle(item, line);
                self.tells_four(lane, diverges, array, offset)
            }
            None => self.stop_outside(item, line),
        }
    }

    // Stores four words in cells, and goes to the line.
    fn store_four(&mut self, item: u32, array: Array, offset: u32, four: Four, line: usize) -> bool
        requires { item < seen.item_count self.old.launch }
        ensures { IsWanted self.old item (want_form.WritesFour array offset four line)
            → Advances self.old (event_form.Step item) self.new (told_if result self.new) }
    {
        let group = self.group_of(item) as u32;
        if self.memory.write_four(array, group, item, offset, four) {
            let lane = self.touch_four(item, array, offset, true);
            self.change(item, Change::Keeps, line);
            let diverges = self.settle(item, line);
            self.tells_four(lane, diverges, array, offset)
        } else {
            self.stop_outside(item, line)
        }
    }

    // Goes to the line after an access outside its array.
    fn stop_outside(&mut self, item: u32, line: usize) -> bool
        requires { item < seen.item_count self.old.launch }
        ensures fault { told_if result self.new
            ≡ Some (record { kind = OutOfRange; cell = None }) }
        ensures stops { Stops self.old self.new item line }
    {
        self.change(item, Change::Keeps, line);
        self.settle(item, line);
        self.fails(FaultKind::OutOfRange)
    }

    // Whether an event has a fault

    // An event of one access, which races or leaves a group that diverges.
    #[inline(always)]
    fn tells(&mut self, races: bool, diverges: bool, array: Array, index: u32) -> bool
        ensures { Tells self.old self.new result
            (fault_in (lane_of races) (shared_cell (array_of array) index) diverges) }
    {
        if races {
            self.races(shared(array, index as u64))
        } else {
            self.tells_divergence(diverges)
        }
    }

    // An event of four accesses, of which this lane races, or which leaves a group that diverges.
    fn tells_four(&mut self, lane: Option<u32>, diverges: bool, array: Array, offset: u32) -> bool
        ensures { Tells self.old self.new result
            (fault_in lane (raced_cell (array_of array) offset lane) diverges) }
    {
        match lane {
            Some(lane) => self.races(shared(array, 4 * offset as u64 + lane as u64)),
            None => self.tells_divergence(diverges),
        }
    }

    // An event that fails by nothing but that it leaves a group that diverges, if it does.
    #[inline(always)]
    fn tells_divergence(&mut self, diverges: bool) -> bool
        ensures { Tells self.old self.new result (fault_in None None diverges) }
    {
        if diverges {
            self.fails(FaultKind::Divergent)
        } else {
            false
        }
    }

    // An event that races for this cell.
    fn races(&mut self, cell: Option<Cell>) -> bool
        ensures { Tells self.old self.new result (Some (record { kind = Race; cell = cell })) }
    {
        self.fault = Some(Fault {
            kind: FaultKind::Race,
            cell,
        });
        true
    }

    // An event that fails by this, without a cell.
    fn fails(&mut self, kind: FaultKind) -> bool
        ensures { Tells self.old self.new result (Some (record { kind = kind; cell = None })) }
    {
        self.fault = Some(Fault { kind, cell: None });
        true
    }

    // What a work-item touches

    // Takes a work-item's access of a cell into account, and says whether it is a race.
    #[inline(always)]
    fn touch(&mut self, item: u32, array: Array, index: u32, writes: bool) -> bool
        requires { item < seen.item_count self.old.launch }
        ensures core { SameCore self.old self.new }
        ensures ready { self.new.ready ≡ self.old.ready }
        ensures tracks { TracksAccess self.old.marks (array_of array) index
            (touch_at self.old.launch item writes) result self.new.marks }
    {
        let touch = self.touch_of(item, writes);
        self.marks.touch(array, index, touch)
    }

    // Takes a work-item's access of four cells into account, and tells the first that is a race.
    fn touch_four(&mut self, item: u32, array: Array, offset: u32, writes: bool) -> Option<u32>
        requires { item < seen.item_count self.old.launch }
        ensures core { SameCore self.old self.new }
        ensures ready { self.new.ready ≡ self.old.ready }
        ensures tracks { TracksFour self.old.marks (array_of array) offset
            (touch_at self.old.launch item writes) result self.new.marks }
    {
        let touch = self.touch_of(item, writes);
        self.marks.touch_four(array, offset, touch)
    }

    // A work-item's access as the marks take it.
    #[inline(always)]
    fn touch_of(&self, item: u32, writes: bool) -> Touch
        requires { item < seen.item_count self.now.launch }
        ensures { result ≡ touch_at self.now.launch item writes }
    {
        Touch {
            group: self.group_of(item),
            item: item as u16,
            writes,
        }
    }

    // Takes the release of a group that there is.
    fn release_group(&mut self, group: u32)
        ensures { Advances self.old (event_form.Release group) self.new None }
    {
        if group < self.grid().group_count() {
            self.release(group);
        }
    }

    // Takes the release of a group.
    fn release(&mut self, group: u32)
        requires { group < seen.group_count self.old.launch }
        ensures { Advances self.old (event_form.Release group) self.new None }
    {
        flags_follow();
        let want = self.want(self.grid().first_of(group));
        self.pass_group(group);
        self.release_marks(group, want);
        self.refresh(group);
    }

    // Takes the release of a group into account that stands at this barrier.
    fn release_marks(&mut self, group: u32, want: Want)
        requires { group < seen.group_count self.old.launch }
        ensures core { SameCore self.old self.new }
        ensures ready { self.new.ready ≡ self.old.ready }
        ensures marks { MarksRelease self.old self.new group want }
    {
        if let Want::Waits {
            on_local,
            on_global,
            ..
        } = want
        {
            self.marks.release(group, on_local, on_global);
        }
    }

    // Takes the work-items of a group past their barrier.
    fn pass_group(&mut self, group: u32)
        requires { group < seen.group_count self.old.launch }
        ensures { PassesGroup self.old self.new group }
    {
        let grid = self.grid();
        for number in 0..grid.group_size() {
            self.pass(grid.member(group, number));
        }
    }

    // Takes a work-item past its barrier.
    fn pass(&mut self, item: u32)
        requires { item < seen.item_count self.old.launch }
        ensures { PassesOne self.old self.new item }
    {
        if let Want::Waits { next, .. } = self.want(item) {
            self.change(item, Change::Keeps, next);
        }
    }

    // Changes a work-item, which goes to the line.
    #[inline(always)]
    fn change(&mut self, item: u32, change: Change, line: usize)
        requires { item < seen.item_count self.old.launch }
        ensures item { Changes self.old self.new item change line }
        ensures memory { self.new.memory ≡ self.old.memory }
        ensures marks { self.new.marks ≡ self.old.marks }
        ensures ready { self.new.ready ≡ self.old.ready }
    {
        self.items.change(item, change, line);
    }
}

// What a machine has beside its text and its work-items.
#[derive(Drop)]
struct Stores {
    memory: Memory,
    tables: Tables,
}

impl Stores {
    // With these cells at the start, local and private arrays of these lengths, and work-items that
    // can all step, or none of them.
    fn start(
        alloc: Global,
        grid: Grid,
        cells: Cells,
        locals: Vec<u32>,
        privates: Vec<u32>,
        steps: bool,
    ) -> Result<Stores, AllocError>
        requires { IsSmall grid }
        ensures ins { IfOk result (λ s. rows_of s.memory.ins.items ≡ cells.ins) }
        ensures outs { IfOk result (λ s. rows_of s.memory.outs.items ≡ cells.outs) }
        ensures locals { IfOk result (λ s. AreFilled s.memory.locals
            (seen.group_count (laid grid)) locals.items cells.rest) }
        ensures privates { IfOk result (λ s. AreFilled s.memory.privates
            (seen.item_count (laid grid)) privates.items cells.rest) }
        ensures groups { IfOk result
            (λ s. AreGroups grid (seen.item_count (laid grid)) s.tables.groups.items) }
        ensures marked { IfOk result (λ s. s.tables.marks.groups ≡ seen.group_count (laid grid)) }
        ensures marks { IfOk result (λ s. BeginsMarks s.memory.outs.items locals.items
            (seen.group_count (laid grid)) s.tables.marks) }
        ensures ready { IfOk result (λ s. s.tables.ready ≡ record {
          grid = grid;
          items = replicate (seen.item_count (laid grid)) steps;
          groups = replicate (seen.group_count (laid grid)) false;
        }) }
    {
        let Cells { ins, outs, rest } = cells;
        let memory = Memory::start(alloc, grid, ins, outs, &locals, &privates, rest)?;
        let tables = Tables::start(alloc, grid, &memory.outs, &locals, steps)?;
        Ok(Stores { memory, tables })
    }
}

// What a machine keeps of its work-items and groups beside where they stand: each item's group, the
// marks of cells, and which events are enabled.
#[derive(Drop)]
struct Tables {
    groups: Vec<u16>,
    marks: CellMarks,
    ready: Ready,
}

impl Tables {
    // Of outputs with these cells and local arrays of these lengths, where nothing was touched, no
    // group may be released, and all work-items can step, or none of them.
    fn start(
        alloc: Global,
        grid: Grid,
        outs: &[Vec<u32>],
        locals: &[u32],
        steps: bool,
    ) -> Result<Tables, AllocError>
        requires { IsSmall grid }
        ensures groups { IfOk result
            (λ t. AreGroups grid (seen.item_count (laid grid)) t.groups.items) }
        ensures marked { IfOk result (λ t. t.marks.groups ≡ seen.group_count (laid grid)) }
        ensures marks { IfOk result (λ t. BeginsMarks outs.now locals.now
            (seen.group_count (laid grid)) t.marks) }
        ensures ready { IfOk result (λ t. t.ready ≡ record {
          grid = grid;
          items = replicate (seen.item_count (laid grid)) steps;
          groups = replicate (seen.group_count (laid grid)) false;
        }) }
    {
        let groups = groups_of_items(alloc, grid)?;
        let marks = CellMarks::new(alloc, outs, locals, grid.group_count())?;
        Ok(Tables {
            groups,
            marks,
            ready: ready_at_start(alloc, grid, steps)?,
        })
    }
}

// The flags of the work-items of a grid that can all step, or none of them.
fn ready_at_start(alloc: Global, grid: Grid, steps: bool) -> Result<Ready, AllocError>
    requires { IsSmall grid }
    ensures { IfOk result (λ r. r ≡ record {
      grid = grid;
      items = replicate (seen.item_count (laid grid)) steps;
      groups = replicate (seen.group_count (laid grid)) false;
    }) }
{
    if steps {
        Ready::all_stepping(alloc, grid)
    } else {
        Ready::new(alloc, grid)
    }
}

// The group of each work-item.
fn groups_of_items(alloc: Global, grid: Grid) -> Result<Vec<u16>, AllocError>
    requires { IsSmall grid }
    ensures { IfOk result (λ groups. AreGroups grid (seen.item_count (laid grid)) groups.items) }
{
    let mut groups = Vec::new(alloc);
    for item in 0..grid.item_count() {
        groups.push(grid.group_of(item) as u16)?;
    }
    Ok(groups)
}

// The cell as it is seen; a private array's isn't.
#[inline(always)]
fn shared(array: Array, index: u64) -> Option<Cell>
    ensures { result ≡ shared_cell (array_of array) index }
{
    match array {
        Array::Private(_) => None,
        _ => Some(Cell { array, index }),
    }
}

// The access of shared memory that a work-item makes that wants this.
fn access_in(want: Want) -> Option<Access>
    ensures { result ≡ access_of_want want }
{
    match want {
        Want::Reads(_, array, index, _) => shared(array, index as u64).map(Access::Read),
        Want::Writes(array, index, ..) => shared(array, index as u64).map(Access::Write),
        Want::ReadsFour(_, array, offset, _) => {
            shared(array, 4 * offset as u64).map(Access::ReadFour)
        }
        Want::WritesFour(array, offset, ..) => {
            shared(array, 4 * offset as u64).map(Access::WriteFour)
        }
        Want::Ends | Want::Waits { .. } | Want::Fails(_) | Want::Changes(..) => None,
    }
}
