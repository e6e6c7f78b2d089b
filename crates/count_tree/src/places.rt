//! Places with flags.

ghost use Rattle.std.specs.Prelude.{◌≡◌, ◌+◌, ◌-◌, ◌^◌, ◌++◌, ◌<◌, ◌≤◌, ℕ, false, List, length, take, replicate, slice_index, slice_set, if◌then◌else◌, IfOk};
ghost use Rattle.std.specs.List.{sum};
ghost use Rattle.count_tree.specs.Nodes.{IsFirst, IsFirstAfter, IsTree, HasRoom};

use crate::counts::Counts;
use crate::nodes::find;
use crate::steps::Steps;
use std::alloc::{AllocError, Global};
use std::marker::{Brand, Model};
use std::sync::ledger::{Blank, Ledger};

/// Places, each with a flag or none: 1 or 0. Their number is a power of two. The first flagged
/// place is kept, so that it takes no look at the counts.
#[derive(Drop)]
pub struct Places {
    counts: Counts,
    first: u32,
}

impl Model for Places {
    ghost Value = { List ℕ };

    ghost view = { λ p. p.counts.flags };

    ghost invariant = { λ p. IsTree p.counts × IsFirst p.counts.flags p.first };
}

impl Places {
    /// Room for so many places, without a flag. All memory is taken here.
    pub fn new(alloc: Global, places: u32) -> Result<Places, AllocError>
        requires some { 0 < places }
        requires few { places ≤ 65536 }
        ensures none { IfOk result (λ p. p ≡ replicate (length p) 0) }
        ensures room { IfOk result (λ p. HasRoom places (length p)) }
    {
        Places::started(alloc, places, 0)
    }

    /// Room for so many places, each of which has a flag. All memory is taken here, in a time that
    /// grows with the number of places alone.
    pub fn filled(alloc: Global, places: u32) -> Result<Places, AllocError>
        requires { places ≤ 65536 }
        ensures flags { IfOk result (λ p. p ≡ replicate places 1 ++ replicate (length p - places) 0) }
        ensures room { IfOk result (λ p. HasRoom places (length p)) }
    {
        Places::started(alloc, places, places)
    }

    // Room for so many places, of which the first so many have a flag.
    fn started(alloc: Global, places: u32, flagged: u32) -> Result<Places, AllocError>
        requires few { places ≤ 65536 }
        requires within { flagged ≤ places }
        ensures flags { IfOk result (λ p. p ≡ replicate flagged 1 ++ replicate (length p - flagged) 0) }
        ensures room { IfOk result (λ p. HasRoom places (length p)) }
    {
        let counts = Counts::new(alloc, room(places as usize), flagged as usize)?;
        let first = if flagged == 0 { u32::MAX } else { 0 };
        Ok(Places { counts, first })
    }

    /// How many places have a flag.
    #[inline(always)]
    pub fn flagged(&self) -> u32
        ensures { result ≡ sum self.now }
    {
        self.counts.total()
    }

    /// The place whose flag comes after `k` others. A step is a look at one count: of 2 ^ n places
    /// n.
    #[inline(always)]
    pub fn nth_flagged<L: Ledger>(&self, k: u32, steps: &mut Steps<L>) -> u32
        requires { k < sum self.now }
        ensures place { result < length self.now }
        ensures others { sum (take result self.now) ≡ k }
        ensures there { slice_index self.now result ≡ 1 }
        ensures cost { (n : ℕ) → length self.now ≡ 2 ^ n → steps.new ≡ steps.old + n }
    {
        find(&self.counts, k, steps) as u32
    }

    /// The first place that has a flag.
    #[inline(always)]
    pub fn first(&self) -> u32
        requires { 0 < sum self.now }
        ensures place { result < length self.now }
        ensures others { sum (take result self.now) ≡ 0 }
        ensures there { slice_index self.now result ≡ 1 }
    {
        self.first
    }

    /// Sets a place's flag, or takes it away.
    pub fn set(&mut self, place: u32, on: bool)
        requires { place < length self.old }
        ensures { self.new ≡ slice_set self.old place (if on then 1 else 0) }
    {
        self.counts.put(place as usize, on);
        self.first = first_after::<Brand>(&self.counts, self.first, place, on, Blank::new(1));
    }
}

// The first flagged place after one's flag is set or taken away, where it was this one before.
fn first_after<L: Ledger>(counts: &Counts, first: u32, place: u32, on: bool, blank: Blank) -> u32
    requires name { blank.name ≡ L.name }
    requires parts { blank.parts ≡ L.parts }
    requires some { 0 < blank.parts }
    requires tree { IsTree counts.now }
    ensures { IsFirstAfter first place on counts.now.flags result }
{
    if on {
        first.min(place)
    } else if place == first {
        next_first::<L>(counts, place, blank)
    } else {
        first
    }
}

// The first flagged place after the first one's flag is taken away. The next place is tried before
// the whole tree.
fn next_first<L: Ledger>(counts: &Counts, place: u32, blank: Blank) -> u32
    requires name { blank.name ≡ L.name }
    requires parts { blank.parts ≡ L.parts }
    requires some { 0 < blank.parts }
    requires tree { IsTree counts.now }
    ensures { IsFirstAfter place place false counts.now.flags result }
{
    if counts.has_flag(place as usize + 1) {
        place + 1
    } else {
        first_of::<L>(counts, blank)
    }
}

// The first flagged place, or one past all where none is flagged.
fn first_of<L: Ledger>(counts: &Counts, blank: Blank) -> u32
    requires name { blank.name ≡ L.name }
    requires parts { blank.parts ≡ L.parts }
    requires some { 0 < blank.parts }
    requires tree { IsTree counts.now }
    ensures { IsFirst counts.now.flags result }
{
    if counts.total() == 0 {
        u32::MAX
    } else {
        let mut steps = Steps::<L>::new(blank);
        find(counts, 0, &mut steps) as u32
    }
}

// The least power of two that is not below this number.
fn room(places: usize) -> usize
    requires { places ≤ 65536 }
    ensures { HasRoom places result }
{
    let mut room = 1;
    while room < places {
        room *= 2;
    }
    room
}
