//! The counts of a tree's nodes, each of which tells how many flags the left part of its node has.
//! The root is node 1, and the parts of node i are 2 * i + 1, on the left, and 2 * i. Only `look`
//! tells the count of a node, at one step.

ghost use Rattle.std.specs.Prelude.{◌≡◌, ◌+◌, ◌-◌, ◌*◌, ◌^◌, ◌++◌, ◌<◌, ◌≤◌, ℕ, true, false, length, min, replicate, slice_index, slice_set, if◌then◌else◌, IfOk};
ghost use Rattle.count_tree.specs.Nodes.{AreCounts, IsPower, IsTree, Nodes, turned};

use crate::steps::Steps;
use std::alloc::{AllocError, Global};
use std::marker::Model;
use std::sync::ledger::Ledger;

/// Flags of leaves, each 1 or 0, and how many of them there are: in the left part of each node, and
/// in all.
#[derive(Drop)]
pub(crate) struct Counts {
    flags: Vec<u8>,
    lefts: Vec<u32>,
    total: u32,
}

impl Model for Counts {
    ghost Value = { Nodes };

    ghost view = { λ c. record { flags = c.flags.items; lefts = c.lefts.items; total = c.total } };
}

impl Counts {
    /// Counts of so many leaves, of which the first so many have a flag.
    pub fn new(alloc: Global, leaves: usize, flagged: usize) -> Result<Counts, AllocError>
        requires few { leaves ≤ 65536 }
        requires power { IsPower leaves }
        requires within { flagged ≤ leaves }
        ensures tree { IfOk result (λ c. IsTree c) }
        ensures flags { IfOk result (λ c. c.flags ≡ replicate flagged 1 ++ replicate (leaves - flagged) 0) }
    {
        let mut flags = vec![in alloc; 0u8; leaves]?;
        set_first(&mut flags, flagged);
        let mut lefts = vec![in alloc; 0u32; leaves]?;
        count_up(&mut lefts, flagged);
        Ok(Counts {
            flags,
            lefts,
            total: flagged as u32,
        })
    }

    /// How many leaves there are.
    #[inline(always)]
    pub fn leaves(&self) -> usize
        ensures { result ≡ length self.now.flags }
    {
        self.flags.len()
    }

    /// How many leaves have a flag.
    #[inline(always)]
    pub fn total(&self) -> u32
        ensures { result ≡ self.now.total }
    {
        self.total
    }

    /// Whether this is a leaf that has a flag.
    #[inline(always)]
    pub fn has_flag(&self, place: usize) -> bool
        ensures { result ≡ true → (place < length self.now.flags) × (slice_index self.now.flags place ≡ 1) }
    {
        place < self.flags.len() && self.flags[place] == 1
    }

    /// The count of a node, at one step.
    #[inline(always)]
    pub fn look<L: Ledger>(&self, node: usize, steps: &mut Steps<L>) -> u32
        requires { node < length self.now.lefts }
        ensures count { result ≡ slice_index self.now.lefts node }
        ensures cost { steps.new ≡ steps.old + 1 }
    {
        steps.tick();
        self.lefts[node]
    }

    /// Sets a leaf's flag, or takes it away.
    pub fn put(&mut self, place: usize, on: bool)
        requires tree { IsTree self.old }
        requires place { place < length self.old.flags }
        ensures tree { IsTree self.new }
        ensures flags { self.new.flags ≡ slice_set self.old.flags place (if on then 1 else 0) }
    {
        let flag = flag_of(on);
        if self.flags[place] != flag {
            self.flags[place] = flag;
            self.total = changed(self.total, 1, on);
            mend(&self.flags, &mut self.lefts, place);
        }
    }
}

// A leaf's flag.
#[inline(always)]
fn flag_of(on: bool) -> u8
    ensures { result ≡ (if on then 1 else 0) }
{
    if on { 1 } else { 0 }
}

// Sets the first so many flags, where none is set.
fn set_first(flags: &mut [u8], flagged: usize)
    requires few { length flags.old ≤ 65536 }
    requires none { flags.old ≡ replicate (length flags.old) 0 }
    requires within { flagged ≤ length flags.old }
    ensures { flags.new ≡ replicate flagged 1 ++ replicate (length flags.old - flagged) 0 }
{
    for place in 0..flagged {
        flags[place] = 1;
    }
}

// A count after so many more are counted, or so many fewer.
#[inline(always)]
fn changed(count: u32, by: u32, more: bool) -> u32
    requires more { more ≡ true → count + by < 2 ^ 32 }
    requires fewer { more ≡ false → by ≤ count }
    ensures more { more ≡ true → result ≡ count + by }
    ensures fewer { more ≡ false → result + by ≡ count }
{
    if more { count + by } else { count - by }
}

// Counts anew in the nodes above a leaf, where its flag was turned.
fn mend(flags: &[u8], lefts: &mut [u32], place: usize)
    requires few { length flags.now ≤ 65536 }
    requires place { place < length flags.now }
    requires bit { slice_index flags.now place ≤ 1 }
    requires counts { AreCounts (turned flags.now place) lefts.old }
    ensures { AreCounts flags.now lefts.new }
{
    let more = flags[place] == 1;
    let mut node = 2 * flags.len() - 1 - place;
    while 1 < node {
        let on_the_left = (node % 2) as u32;
        node /= 2;
        lefts[node] = changed(lefts[node], on_the_left, more);
    }
}

// The counts where the first so many leaves have a flag.
fn count_up(lefts: &mut [u32], flagged: usize)
    requires few { length lefts.old ≤ 65536 }
    requires power { IsPower (length lefts.old) }
    requires within { flagged ≤ length lefts.old }
    ensures { AreCounts (replicate flagged 1 ++ replicate (length lefts.old - flagged) 0) lefts.new }
{
    let mut level = 1;
    let mut width = lefts.len();
    while level < lefts.len() {
        width /= 2;
        count_level(lefts, level, width, flagged);
        level *= 2;
    }
}

// The counts on a level of so many nodes, whose parts have so many leaves each.
fn count_level(lefts: &mut [u32], level: usize, width: usize, flagged: usize)
    requires few { length lefts.old ≤ 65536 }
    requires leaves { level * (2 * width) ≡ length lefts.old }
    requires some { 0 < width }
    ensures long { length lefts.new ≡ length lefts.old }
    ensures each { (j : ℕ) → j < level → slice_index lefts.new (2 * level - 1 - j) ≡ min (flagged - j * (2 * width)) width }
    ensures kept { (i : ℕ) → i < level → slice_index lefts.new i ≡ slice_index lefts.old i }
{
    for number in 0..level {
        let before = number * (2 * width);
        lefts[2 * level - 1 - number] = flagged.saturating_sub(before).min(width) as u32;
    }
}
