//! The patterns that lay out the members of lists anew.

ghost use Rattle.std.specs.Prelude.{◌≡◌, ◌++◌, ◌∷◌, ◌<◌, IfOk, OnOk, map, replicate, reverse, length, take, drop};
ghost use Rattle.lift_tree.specs.Values.{Both, value_of, members, array, nth};
ghost use Rattle.lift_tree.specs.Lists.{concat, zip_with, pieces, pieces_that_fit, padded, width, columns};
ghost use Rattle.lift_tree.specs.Meaning.{rows, array_of_rows};
ghost use Rattle.pattern_value.specs.Pieces.{pieces_in};
ghost use Rattle.pattern_value.specs.Shut.{column};

use crate::part::{all_copied, copied, copied_at, into_members, list, members_of};
use lift_tree::value::Val;
use std::alloc::{AllocError, Global};

/// The rows one after another.
#[tactic(auto, using(crate::proofs::Layouts::joins))]
pub fn joined(alloc: Global, v: Val) -> Result<Val, AllocError>
    ensures { IfOk result (λ u. value_of u ≡ array (concat (rows (value_of v)))) }
{
    let mut all = Vec::new(alloc);
    for row in into_members(alloc, v) {
        append(alloc, &mut all, row)?;
    }
    Ok(list(all))
}

#[tactic(auto, using(crate::proofs::Layouts::joins))]
fn append(alloc: Global, all: &mut Vec<Val>, row: Val) -> Result<(), AllocError>
    ensures { OnOk result (map value_of all.new.items
        ≡ map value_of all.old.items ++ members (value_of row)) }
{
    for x in into_members(alloc, row) {
        all.push(x)?;
    }
    Ok(())
}

/// The columns, as many as the first row is long; where a row is shorter its members are 0.
#[tactic(auto, using(crate::proofs::Layouts::transposes))]
pub fn transposed(alloc: Global, v: &Val) -> Result<Val, AllocError>
    ensures { IfOk result (λ u. value_of u
        ≡ array_of_rows (columns (width (rows (value_of v.now))) (rows (value_of v.now)))) }
{
    let rows = members_of(v);
    let mut columns = Vec::new(alloc);
    for index in 0..width_of(rows) {
        columns.push(column_at(alloc, rows, index)?)?;
    }
    Ok(list(columns))
}

#[tactic(auto, using(crate::proofs::Layouts::transposes))]
fn width_of(rows: &[Val]) -> usize
    ensures { result ≡ width (map members (map value_of rows.now)) }
{
    match rows {
        [] => 0,
        [row, ..] => members_of(row).len(),
    }
}

#[tactic(auto, using(crate::proofs::Layouts::transposes))]
fn column_at(alloc: Global, rows: &[Val], index: usize) -> Result<Val, AllocError>
    ensures { IfOk result (λ u. value_of u ≡ array (column index rows.now)) }
{
    let mut all = Vec::new(alloc);
    for row in rows {
        all.push(member_at(alloc, row, index)?)?;
    }
    Ok(list(all))
}

fn member_at(alloc: Global, row: &Val, index: usize) -> Result<Val, AllocError>
    ensures { IfOk result (λ x. value_of x ≡ nth (members (value_of row.now)) index) }
{
    copied_at(alloc, members_of(row), index)
}

/// The members from the last to the first.
#[tactic(auto, using(crate::proofs::Layouts::reverses))]
pub fn reversed(alloc: Global, v: Val) -> Val
    ensures { value_of result ≡ array (reverse (members (value_of v))) }
{
    let mut all = into_members(alloc, v);
    all.reverse();
    list(all)
}

/// Pieces of a list: so many of `size` members, each `step` members further on.
#[derive(Clone, Copy)]
pub struct Pieces<'v> {
    pub members: &'v [Val],
    pub count: usize,
    pub size: usize,
    pub step: usize,
}

impl<'v> Pieces<'v> {
    /// The first piece, in memory of its own.
    #[tactic(auto, using(crate::proofs::Layouts::cuts))]
    pub fn first(&self, alloc: Global) -> Result<Val, AllocError>
        ensures { IfOk result (λ v. value_of v
            ≡ array (take self.now.size (map value_of self.now.members.now))) }
    {
        Ok(list(all_copied(alloc, taken(self.members, self.size))?))
    }

    /// The pieces behind the first.
    #[tactic(auto, using(crate::proofs::Layouts::cuts))]
    pub fn rest(&self) -> Pieces<'v>
        requires { 0 < self.now.count }
        ensures pieces { pieces_in self.now
            ≡ array (take self.now.size (map value_of self.now.members.now)) ∷ pieces_in result }
        ensures fewer { result.count < self.now.count }
    {
        Pieces {
            members: dropped(self.members, self.step),
            count: self.count - 1,
            size: self.size,
            step: self.step,
        }
    }

    /// The list of the pieces.
    #[tactic(auto, using(crate::proofs::Layouts::cut_pieces))]
    pub fn cut(self, alloc: Global) -> Result<Val, AllocError>
        ensures { IfOk result (λ u. value_of u ≡ array (pieces_in self.entry)) }
    {
        let mut rows = Vec::new(alloc);
        let mut left = self;
        while left.count > 0 {
            rows.push(left.first(alloc)?)?;
            left = left.rest();
        }
        Ok(list(rows))
    }
}

#[tactic(auto, using(crate::proofs::Layouts::take_min))]
fn taken(xs: &[Val], count: usize) -> &[Val]
    ensures { result.now ≡ take count xs.now }
{
    &xs[..count.min(xs.len())]
}

#[tactic(auto, using(crate::proofs::Layouts::drop_beyond))]
fn dropped(xs: &[Val], count: usize) -> &[Val]
    ensures { result.now ≡ drop count xs.now }
{
    if count <= xs.len() { &xs[count..] } else { &[] }
}

/// The pieces of `size` members that begin at 0 and at each multiple of `step`, while they fit.
#[tactic(auto, using(crate::proofs::Layouts::counts))]
pub fn windows(v: &Val, size: u32, step: u32) -> Pieces<'_>
    ensures { pieces_in result ≡ map array (pieces (pieces_that_fit size step
        (length (members (value_of v.now)))) size step (members (value_of v.now))) }
{
    let members = members_of(v);
    let (size, step) = (size as usize, step as usize);
    let count = if step == 0 {
        0
    } else {
        (members.len() + step).saturating_sub(size) / step
    };
    Pieces {
        members,
        count,
        size,
        step,
    }
}

/// So many copies of the first member before, and so many of the last after.
#[tactic(auto, using(crate::proofs::Layouts::pads))]
pub fn pad(alloc: Global, v: &Val, before: u32, after: u32) -> Result<Val, AllocError>
    ensures { IfOk result
        (λ u. value_of u ≡ array (padded before after (members (value_of v.now)))) }
{
    let xs = members_of(v);
    let mut all = Vec::new(alloc);
    let first = copied_at(alloc, xs, 0)?;
    repeat(alloc, &mut all, &first, before)?;
    extend(alloc, &mut all, xs)?;
    let last = copied_at(alloc, xs, xs.len().saturating_sub(1))?;
    repeat(alloc, &mut all, &last, after)?;
    Ok(list(all))
}

#[tactic(auto, using(crate::proofs::Layouts::pads))]
fn repeat(alloc: Global, all: &mut Vec<Val>, v: &Val, count: u32) -> Result<(), AllocError>
    ensures { OnOk result (map value_of all.new.items
        ≡ map value_of all.old.items ++ replicate count (value_of v.now)) }
{
    for index in 0..count {
        all.push(copied(alloc, v)?)?;
    }
    Ok(())
}

#[tactic(auto, using(crate::proofs::Layouts::pads))]
fn extend(alloc: Global, all: &mut Vec<Val>, xs: &[Val]) -> Result<(), AllocError>
    ensures { OnOk result (map value_of all.new.items
        ≡ map value_of all.old.items ++ map value_of xs.now) }
{
    for x in xs {
        all.push(copied(alloc, x)?)?;
    }
    Ok(())
}

/// The pairs of the members of two lists, as many as the shorter has.
#[tactic(auto, using(crate::proofs::Layouts::zips))]
pub fn zipped(alloc: Global, v: &Val, u: &Val) -> Result<Val, AllocError>
    ensures { IfOk result (λ w. value_of w
        ≡ array (zip_with Both (members (value_of v.now)) (members (value_of u.now)))) }
{
    let xs = members_of(v);
    let ys = members_of(u);
    let mut pairs = Vec::new(alloc);
    for index in 0..xs.len().min(ys.len()) {
        let x = Box::new(alloc, copied_at(alloc, xs, index)?)?;
        let y = Box::new(alloc, copied_at(alloc, ys, index)?)?;
        pairs.push(Val::Pair(x, y))?;
    }
    Ok(list(pairs))
}
