//! How a kernel is launched, with which contents, and in which order its events are taken.

use std::marker::Model;

/// A launch: how many work-items in all and in a work-group, in dimensions 0 and 1, and a word for
/// each size of the kernel.
#[derive(Drop)]
pub struct Launch {
    pub global: (u32, u32),
    pub local: (u32, u32),
    pub sizes: Vec<u32>,
}

impl Model for Launch {
    ghost use Rattle.kernel_tree.specs.Launch as seen;

    ghost Value = { seen.Launch };

    ghost view = { λ l. record {
      global = l.global;
      local = l.local;
      sizes = l.sizes.items;
    } };
}

/// What memory begins with: the cells of each input and of each output, and the word in all other
/// memory.
#[derive(Drop)]
pub struct Cells {
    pub ins: Vec<Vec<u32>>,
    pub outs: Vec<Vec<u32>>,
    pub rest: u32,
}

impl Model for Cells {
    ghost use Rattle.std.specs.Prelude.{map};
    ghost use Rattle.kernel_tree.specs.Launch as seen;

    ghost Value = { seen.Cells };

    ghost view = { λ c. record {
      ins = map (λ row. row.items) c.ins.items;
      outs = map (λ row. row.items) c.outs.items;
      rest = c.rest;
    } };
}

/// In which order events are taken.
#[derive(Drop)]
pub enum Schedule {
    /// At each event in turn the next number, modulo the count of enabled events, says which of
    /// them; after the last number it is the first.
    Numbers(Vec<u32>),
    /// Each event takes the next number of a generator begun at this seed.
    Seed(u32),
}
