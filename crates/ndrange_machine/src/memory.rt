//! All memory: a row of cells for each array, once for each home that the array has.

ghost use Rattle.std.specs.Prelude.{◌≡◌, ◌*◌, ℕ, ◌==◌, ◌&&◌, is_some, Some, IfOk, length, option_map, if◌then◌else◌};
ghost use Rattle.kernel_tree.specs.Device.{Cell, behind, home};
ghost use Rattle.kernel_tree.specs.Launch.{group_count, item_count};
ghost use Rattle.enabled_events.specs.Grids.{laid, IsSmall};
ghost use Rattle.ndrange_machine.specs.Known.{four_of};
ghost use Rattle.kernel_tree.specs.Tree.{array_of};
ghost use Rattle.ndrange_machine.specs.Memory.{cell_in, held, read_held, put_held, put_four};
ghost use Rattle.ndrange_machine.specs.Words.{AreFilled};

use crate::four::Four;
use crate::own::OwnCells;
use enabled_events::grid::Grid;
use kernel_tree::tree::Array;
use std::alloc::{AllocError, Global};

/// The cells of all arrays: of the inputs and outputs, which all work-items share, of the local
/// arrays of each work-group, and of the private arrays of each work-item.
#[derive(Drop)]
pub struct Memory {
    pub ins: Vec<Vec<u32>>,
    pub outs: Vec<Vec<u32>>,
    pub locals: OwnCells,
    pub privates: OwnCells,
}

impl Memory {
    /// The inputs and outputs with these cells, and the word in each cell of local and private
    /// arrays of these lengths, which each group and each work-item of the grid has. All memory is
    /// taken here.
    pub fn start(
        alloc: Global,
        grid: Grid,
        ins: Vec<Vec<u32>>,
        outs: Vec<Vec<u32>>,
        locals: &[u32],
        privates: &[u32],
        word: u32,
    ) -> Result<Memory, AllocError>
        requires { IsSmall grid }
        ensures ins { IfOk result (λ m. m.ins.items ≡ ins.items) }
        ensures outs { IfOk result (λ m. m.outs.items ≡ outs.items) }
        ensures locals { IfOk result (λ m.
            AreFilled m.locals (group_count (laid grid)) locals.now word) }
        ensures privates { IfOk result (λ m.
            AreFilled m.privates (item_count (laid grid)) privates.now word) }
    {
        let locals = OwnCells::new(alloc, grid.group_count(), locals, word)?;
        let privates = OwnCells::new(alloc, grid.item_count(), privates, word)?;
        Ok(Memory {
            ins,
            outs,
            locals,
            privates,
        })
    }

    /// The word in a cell of the array as a work-item of this group names it; none outside the
    /// array.
    #[inline(always)]
    pub fn read(&self, array: Array, group: u32, item: u32, index: u64) -> Option<u32>
        ensures { let a = array_of array in
            result ≡ held self.now (record { array = a; home = home group item a; index = index }) }
    {
        match array {
            Array::Input(a) => read_in(&self.ins, a, index),
            Array::Output(a) => read_in(&self.outs, a, index),
            Array::Local(a) => self.locals.read(group, a, index),
            Array::Private(a) => self.privates.read(item, a, index),
        }
    }

    /// Puts the word into a cell of the array as a work-item of this group names it, and says
    /// whether there is such a cell.
    #[inline(always)]
    pub fn write(&mut self, array: Array, group: u32, item: u32, index: u64, word: u32) -> bool
        ensures there { let a = array_of array in
            result ≡ is_some (held self.old (record {
              array = a;
              home = home group item a;
              index = index;
            })) }
        ensures outputs { length self.new.outs.items ≡ length self.old.outs.items }
        ensures cells { let a = array_of array in
            let d : Cell = record { array = a; home = home group item a; index = index } in
            (c : Cell) → held self.new c ≡ put_held (held self.old) d word c }
    {
        match array {
            Array::Input(a) => write_in(&mut self.ins, a, index, word),
            Array::Output(a) => write_in(&mut self.outs, a, index, word),
            Array::Local(a) => self.locals.write(group, a, index, word),
            Array::Private(a) => self.privates.write(item, a, index, word),
        }
    }

    /// The words in the four cells of the array at the offset, which counts in fours; none where
    /// one is outside the array.
    pub fn read_four(&self, array: Array, group: u32, item: u32, offset: u32) -> Option<Four>
        ensures { let a = array_of array in
            let d : Cell = record { array = a; home = home group item a; index = 4 * offset } in
            option_map four_of result ≡ read_held (held self.now) d }
    {
        let first = 4 * offset as u64;
        let x = self.read(array, group, item, first)?;
        let y = self.read(array, group, item, first + 1)?;
        let z = self.read(array, group, item, first + 2)?;
        let w = self.read(array, group, item, first + 3)?;
        Some(Four { x, y, z, w })
    }

    /// Puts four words into the cells of the array at the offset, which counts in fours, as many of
    /// them as there are, and says whether there is the last.
    pub fn write_four(
        &mut self,
        array: Array,
        group: u32,
        item: u32,
        offset: u32,
        four: Four,
    ) -> bool
        ensures there { let a = array_of array in
            let d : Cell = record { array = a; home = home group item a; index = 4 * offset } in
            result ≡ is_some (held self.old (behind 3 d)) }
        ensures outputs { length self.new.outs.items ≡ length self.old.outs.items }
        ensures cells { let a = array_of array in
            let d : Cell = record { array = a; home = home group item a; index = 4 * offset } in
            (c : Cell) → held self.new c ≡ put_four (held self.old) d (four_of four) c }
    {
        let first = 4 * offset as u64;
        self.write(array, group, item, first, four.x);
        self.write(array, group, item, first + 1, four.y);
        self.write(array, group, item, first + 2, four.z);
        self.write(array, group, item, first + 3, four.w)
    }
}

#[inline(always)]
fn read_in(rows: &[Vec<u32>], row: u32, index: u64) -> Option<u32>
    ensures { result ≡ cell_in rows.now row index }
{
    rows.get(row as usize)?.get(index as usize).copied()
}

#[inline(always)]
fn write_in(rows: &mut [Vec<u32>], row: u32, index: u64, word: u32) -> bool
    ensures there { result ≡ is_some (cell_in rows.old row index) }
    ensures cells { (a i : ℕ) → cell_in rows.new a i
        ≡ (if (a == row) && (i == index) && is_some (cell_in rows.old row index)
        then Some word else cell_in rows.old a i) }
{
    let there = read_in(rows, row, index).is_some();
    if there {
        let cells = &mut rows[row as usize];
        cells[index as usize] = word;
    }
    there
}
