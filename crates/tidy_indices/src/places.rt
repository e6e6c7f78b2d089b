//! What is known at a place in a kernel.

ghost use Rattle.std.specs.Prelude.{◌≡◌, IfOk, Some, [], ◌∷◌, map, min};
ghost use Rattle.index_expr.specs.Expression.{expression_of};
ghost use Rattle.kernel_tree.specs.Tree.{formula_of, start_of};
ghost use Rattle.index_simplify.specs.PlainRanges.{ranges_of};
ghost use Rattle.tidy_indices.specs.Places as spec;
ghost use Rattle.tidy_indices.specs.Spans.{span_of};
ghost use Rattle.tidy_indices.specs.Tidy as tidy;

use crate::copies::copied;
use crate::reading::reading;
use crate::spans::{narrowed, span_of};
use crate::spelling::spell_simplified;
use index_expr::{Index, Operation};
use index_simplify::{Ranges, simplified};
use kernel_tree::tree::{Dimension, Expr, Start};
use length_spelling::Turn;
use size_arith::{Name, Names};
use std::alloc::{AllocError, Global};

/// What is known at a place in a kernel: of the sizes, of a work-item's ids, and of the loops and
/// ifs around.
#[derive(Drop)]
pub struct Place {
    sizes: Vec<Name>,
    // What each turn is below, by the turns' numbers, and what sizes are multiples of.
    around: Ranges,
    // How great each turn is at most.
    lasts: Vec<u32>,
    // Whether each loop's bound spells an index expression.
    is_known: bool,
}

// The number of which each size is a multiple.
fn multiples_of(alloc: Global, names: &[Name]) -> Result<Vec<u32>, AllocError>
    ensures { IfOk result (λ ms. ms.items ≡ map (λ n. n.multiple) names.now) }
{
    let mut multiples = Vec::with_capacity(alloc, names.len())?;
    for name in names {
        multiples.push(name.multiple)?;
    }
    Ok(multiples)
}

// The same expressions in memory of their own.
fn copies(alloc: Global, indices: &[Index]) -> Result<Vec<Index>, AllocError>
    ensures { IfOk result (λ copies. map expression_of copies.items
        ≡ map expression_of indices.now) }
{
    let mut copies = Vec::with_capacity(alloc, indices.len())?;
    for index in indices {
        copies.push(index.copy(alloc)?)?;
    }
    Ok(copies)
}

// 2^32, which is above each word.
fn beyond_words(alloc: Global) -> Result<Index, AllocError>
    ensures { IfOk result (λ e. expression_of e ≡ spec.beyond_words) }
{
    Index::binary(
        alloc,
        Operation::Product,
        Index::Literal(65536),
        Index::Literal(65536),
    )
}

// A launch has at most so many items, so a group's id is below that in each dimension.
const ITEM_LIMIT: u32 = 65536;

// What an item's id in its group is below in a dimension, where the kernel asks for this size.
fn local_length(alloc: Global, size: Option<u32>) -> Result<Index, AllocError>
    ensures { IfOk result (λ e. expression_of e ≡ spec.local_length size) }
{
    match size {
        Some(size) => Ok(Index::Literal(size)),
        None => beyond_words(alloc),
    }
}

// And how great it is at most.
fn local_last(size: Option<u32>) -> u32
    ensures { result ≡ spec.local_last size }
{
    match size {
        Some(size) => size.saturating_sub(1),
        None => u32::MAX,
    }
}

// The sizes that a kernel asks for along a row and from row to row.
fn sizes_asked(local: Option<(u32, u32)>) -> (Option<u32>, Option<u32>)
    ensures { result ≡ (spec.size_across local, spec.size_down local) }
{
    match local {
        Some((across, down)) => (Some(across), Some(down)),
        None => (None, None),
    }
}

// What sizes are multiples of, without the turns.
fn without_turns(alloc: Global, ranges: &Ranges) -> Result<Ranges, AllocError>
    ensures { IfOk result (λ r. ranges_of r ≡ spec.without_turns (ranges_of ranges.now)) }
{
    let multiples = Vec::from_slice(alloc, &ranges.multiples)?;
    Ok(Ranges {
        lengths: Vec::new(alloc),
        multiples,
    })
}

// The turn that an `if` asks of: a group's id or an item's own.
fn asked_turn(start: Start) -> Option<u32>
    ensures { result ≡ spec.asked_turn (start_of start) }
{
    match start {
        Start::GroupId(dimension) => Turn::Group(dimension).number(),
        Start::LocalId(dimension) => Turn::Local(dimension).number(),
        _ => None,
    }
}

// The shorter of two lengths in numbers; else the one that is told last, since how great the turn
// is at most tells the number too.
fn shorter(known: &Index, told: Index) -> Index
    ensures { expression_of result ≡ spec.shorter (expression_of known.now) (expression_of told) }
{
    match (known, &told) {
        (Index::Literal(m), Index::Literal(n)) => Index::Literal(*m.min(n)),
        (_, _) => told,
    }
}

// The turn of this number is below this length too.
fn shorten(lengths: &mut Vec<Index>, turn: u32, length: Index)
    ensures { map expression_of lengths.new.items
        ≡ spec.changed_at turn (λ known. spec.shorter known (expression_of length))
        (map expression_of lengths.old.items) }
{
    if let Some(known) = lengths.get_mut(turn as usize) {
        *known = shorter(known, length);
    }
}

// And at most so great.
fn lower(lasts: &mut Vec<u32>, turn: u32, last: u32)
    ensures { lasts.new.items ≡ spec.changed_at turn (λ known. min known last) lasts.old.items }
{
    if let Some(known) = lasts.get_mut(turn as usize) {
        *known = last.min(*known);
    }
}

// What a group's id and an item's own are below in the two dimensions, in a kernel that asks for
// groups of this size.
fn id_lengths(alloc: Global, local: Option<(u32, u32)>) -> Result<Vec<Index>, AllocError>
    ensures { IfOk result (λ v. map expression_of v.items ≡ spec.id_lengths local) }
{
    let (across, down) = sizes_asked(local);
    let mut lengths = Vec::with_capacity(alloc, 4)?;
    lengths.push(Index::Literal(ITEM_LIMIT))?;
    lengths.push(local_length(alloc, across)?)?;
    lengths.push(Index::Literal(ITEM_LIMIT))?;
    lengths.push(local_length(alloc, down)?)?;
    Ok(lengths)
}

// And how great they are at most.
fn id_lasts(alloc: Global, local: Option<(u32, u32)>) -> Result<Vec<u32>, AllocError>
    ensures { IfOk result (λ v. v.items ≡ spec.id_lasts local) }
{
    let (across, down) = sizes_asked(local);
    let mut lasts = Vec::with_capacity(alloc, 4)?;
    lasts.push(ITEM_LIMIT - 1)?;
    lasts.push(local_last(across))?;
    lasts.push(ITEM_LIMIT - 1)?;
    lasts.push(local_last(down))?;
    Ok(lasts)
}

impl Place {
    /// Outside of all loops, in a kernel that asks for groups of this size.
    pub fn outside(
        alloc: Global,
        names: &Names,
        local: Option<(u32, u32)>,
    ) -> Result<Self, AllocError>
        ensures { IfOk result (λ place. spec.plain_place place ≡ spec.outside names.now local) }
    {
        let sizes = Vec::from_slice(alloc, names.as_slice())?;
        let multiples = multiples_of(alloc, names.as_slice())?;
        let lengths = id_lengths(alloc, local)?;
        Ok(Place {
            sizes,
            around: Ranges { lengths, multiples },
            lasts: id_lasts(alloc, local)?,
            is_known: true,
        })
    }

    // The same place in memory of its own.
    fn copy(&self, alloc: Global) -> Result<Self, AllocError>
        ensures { IfOk result (λ place. spec.plain_place place ≡ spec.plain_place self.now) }
    {
        let sizes = Vec::from_slice(alloc, &self.sizes)?;
        let lengths = copies(alloc, &self.around.lengths)?;
        let multiples = Vec::from_slice(alloc, &self.around.multiples)?;
        let lasts = Vec::from_slice(alloc, &self.lasts)?;
        Ok(Place {
            sizes,
            around: Ranges { lengths, multiples },
            lasts,
            is_known: self.is_known,
        })
    }

    // In one loop more, with this length, whose variable is at most so great.
    fn with_loop(&self, alloc: Global, length: Index, last: u32) -> Result<Self, AllocError>
        ensures { IfOk result (λ place. spec.plain_place place
            ≡ spec.with_loop (spec.plain_place self.now) (expression_of length) last) }
    {
        let mut place = self.copy(alloc)?;
        place.around.lengths.push(length)?;
        place.lasts.push(last)?;
        Ok(place)
    }

    // In one loop more, whose bound spells this expression.
    fn in_loop_of(&self, alloc: Global, bound: &Index) -> Result<Self, AllocError>
        ensures { IfOk result (λ place. spec.plain_place place
            ≡ spec.in_loop (spec.plain_place self.now) (Some (expression_of bound.now))) }
    {
        match span_of(&self.sizes, &[], bound) {
            Some(span) => {
                let ranges = without_turns(alloc, &self.around)?;
                let length = simplified(alloc, bound, &ranges)?;
                self.with_loop(alloc, length, span.greatest.saturating_sub(1))
            }
            None => self.with_loop(alloc, beyond_words(alloc)?, u32::MAX),
        }
    }

    /// In one loop more, with this bound.
    pub fn inside(&self, alloc: Global, bound: &Expr) -> Result<Self, AllocError>
        ensures { IfOk result (λ place. spec.plain_place place
            ≡ spec.inside (spec.plain_place self.now) (formula_of bound.now)) }
    {
        match reading(alloc, bound)? {
            Some(bound) => self.in_loop_of(alloc, &bound),
            None => {
                let mut place = self.copy(alloc)?;
                place.is_known = false;
                Ok(place)
            }
        }
    }

    // Where a turn is below this length too, so great at most.
    fn with_turn_below(
        &self,
        alloc: Global,
        turn: u32,
        length: Index,
        last: u32,
    ) -> Result<Self, AllocError>
        ensures { IfOk result (λ place. spec.plain_place place
            ≡ spec.with_turn_below (spec.plain_place self.now) turn (expression_of length) last) }
    {
        let mut place = self.copy(alloc)?;
        shorten(&mut place.around.lengths, turn, length);
        lower(&mut place.lasts, turn, last);
        Ok(place)
    }

    // Where a turn is below the bound that spells this expression: one that may wrap tells nothing.
    fn with_turn_within(&self, alloc: Global, turn: u32, bound: &Index) -> Result<Self, AllocError>
        ensures { IfOk result (λ place. spec.plain_place place
            ≡ spec.with_turn_in (spec.plain_place self.now) turn
            (Some (expression_of bound.now))) }
    {
        match span_of(&self.sizes, &[], bound) {
            Some(span) => {
                let ranges = without_turns(alloc, &self.around)?;
                let length = simplified(alloc, bound, &ranges)?;
                self.with_turn_below(alloc, turn, length, span.greatest.saturating_sub(1))
            }
            None => self.copy(alloc),
        }
    }

    /// In an `if` more, which asks whether this start is below this bound.
    pub fn guarded(&self, alloc: Global, start: Start, bound: &Expr) -> Result<Self, AllocError>
        ensures { IfOk result (λ place. spec.plain_place place
            ≡ spec.guarded (spec.plain_place self.now) (start_of start) (formula_of bound.now)) }
    {
        match (asked_turn(start), reading(alloc, bound)?) {
            (Some(turn), Some(bound)) => self.with_turn_within(alloc, turn, &bound),
            (_, _) => self.copy(alloc),
        }
    }

    // What is of use for an expression here: what is known of turns is so where nothing wraps.
    fn tidied_index(&self, alloc: Global, index: &Index) -> Result<Expr, AllocError>
        ensures { IfOk result (λ e. formula_of e ≡ tidy.tidied_by (spec.plain_place self.now)
            (span_of (spec.plain_place self.now).sizes (spec.plain_place self.now).lasts
            (expression_of index.now))
            (expression_of index.now)) }
    {
        match span_of(&self.sizes, &self.lasts, index) {
            Some(_) => {
                let index = narrowed(alloc, index, &self.lasts)?;
                spell_simplified(alloc, &index, &self.around)
            }
            None => spell_simplified(alloc, index, &without_turns(alloc, &self.around)?),
        }
    }

    /// A tidy expression for an index or a bound here.
    pub fn tidied(&self, alloc: Global, expr: &Expr) -> Result<Expr, AllocError>
        ensures { IfOk result (λ e. formula_of e
            ≡ tidy.tidied_at (spec.plain_place self.now) (formula_of expr.now)) }
    {
        match reading(alloc, expr)? {
            Some(index) if self.is_known => self.tidied_index(alloc, &index),
            _ => copied(alloc, expr),
        }
    }
}
