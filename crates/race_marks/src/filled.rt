//! Lists that are written only as far as they were used.

ghost use Rattle.std.specs.Prelude.{◌≡◌, ◌<◌, ◌≤◌, List, length, replicate, slice_index_or, slice_set, IfOk};
ghost use Rattle.race_marks.specs.Filled.{filled};

use std::alloc::{AllocError, Global};
use std::marker::Model;

// How many items at least are written at once, where there are as many.
const STRETCH: usize = 1024;

/// A list of so many items, all the same at first. All its memory is taken at the start, and
/// written up to the last item that was put there, and a stretch beyond.
#[derive(Drop)]
pub struct Filled<T: Copy> {
    first: T,
    count: usize,
    written: Vec<T>,
}

impl<T: Copy> Model for Filled<T> {
    ghost Value = { List T };

    ghost view = { λ f. filled f.written.items f.count f.first };

    ghost invariant = { λ f. (length f.written.items ≤ f.count) × (f.count ≤ f.written.cap) };
}

impl<T: Copy> Filled<T> {
    /// So many items, all the same.
    pub fn new(alloc: Global, count: usize, first: T) -> Result<Filled<T>, AllocError>
        ensures { IfOk result (λ f. f ≡ replicate count first) }
    {
        let written = Vec::with_capacity(alloc, count)?;
        Ok(Filled {
            first,
            count,
            written,
        })
    }

    /// How many items there are.
    pub fn len(&self) -> usize
        ensures { result ≡ length self.now }
    {
        self.count
    }

    /// The item at the place.
    #[inline(always)]
    pub fn get(&self, place: usize) -> T
        requires { place < length self.now }
        ensures { result ≡ slice_index_or self.now place result }
    {
        if place < self.written.len() {
            self.written[place]
        } else {
            self.first
        }
    }

    /// Puts an item at the place.
    #[inline(always)]
    pub fn set(&mut self, place: usize, item: T)
        requires { place < length self.old }
        ensures { self.new ≡ slice_set self.old place item }
    {
        if place >= self.written.len() {
            write_to(&mut self.written, place, self.count, self.first);
        }
        self.written[place] = item;
    }
}

// Writes the item until the list has the place, and a stretch beyond, where it is to have so many.
fn write_to<T: Copy>(written: &mut Vec<T>, place: usize, count: usize, item: T)
    requires before { length written.old.items ≤ place }
    requires there { place < count }
    requires room { count ≤ written.old.cap }
    ensures reaches { place < length written.new.items }
    ensures within { length written.new.items ≤ count }
    ensures room { count ≤ written.new.cap }
    ensures same { filled written.new.items count item ≡ filled written.old.items count item }
{
    let end = place + STRETCH.min(count - place);
    let _ = written.resize(end, item);
}
