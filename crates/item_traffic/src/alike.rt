//! Work-items that take as many turns of each map.

ghost use Rattle.std.specs.Prelude.{◌≡◌, ◌<◌, ◌≤◌, ◌+◌, ◌^◌, ℕ, List};
ghost use Rattle.kernel_tree.specs.Formula.{IdsAlong};
ghost use Rattle.kernel_traffic.specs.Traffic.{turns_below};
ghost use Rattle.kernel_tree.specs.Launch.{IsDivided, IsWhole, column_of, ids_of, item_count};
ghost use Rattle.lift_ir.specs.AtLaunch.{length_at};
ghost use Rattle.lowering.specs.Terms.{kind_of, map_of, term_of};
ghost use Rattle.size_arith.specs.Ranges.{AreNames};
ghost use Rattle.term_traffic.specs.Short.{HasShortLoops};
ghost use Rattle.term_traffic.specs.Traffic.{turns_of};
ghost use Rattle.launch_lengths.specs.Bases.{bases_of};
ghost use Rattle.item_traffic.specs.TakeAlike.{AlikeItemsHaveOneTraffic, TakeAlike, ids_at};

use crate::counts::Count;
use kernel_tree::launches::Launch;
use launch_lengths::length_of;
use lift_tree::term::{Dimension, Level};
use lowering::term::{Kind, Map, Term};
use size_arith::Poly;

// How many places from this one on, all below the stride, take as many turns of a map over so many.
#[tactic(auto, using(crate::proofs::Places::alike_below, crate::proofs::Places::alike_past))]
fn places_alike(place: u32, stride: u32, length: u32) -> u32
    requires { place < stride }
    ensures some { 0 < result }
    ensures within { place + result ≤ stride }
    ensures alike { (k : ℕ) → k < result
        → turns_below place length stride ≡ turns_below (place + k) length stride }
{
    let more = length % stride;
    if place < more {
        more - place
    } else {
        stride - place
    }
}

// How many items from the one in this column on, of a row of so many, in groups of so many, take as
// many turns of a map of a kind.
#[tactic(auto, using(crate::proofs::Places::some_groups, crate::proofs::Places::group_below))]
fn columns_alike(column: u32, global: u32, local: u32, kind: Kind, length: u32) -> u32
    requires divided { IsDivided global local }
    requires within { column < global }
    ensures some { 0 < result }
    ensures row { column + result ≤ global }
    ensures alike { (row : IdsAlong) (sizes : List ℕ) (k : ℕ) → k < result
        → turns_of (ids_at global local column row sizes) (kind_of kind) length
        ≡ turns_of (ids_at global local (column + k) row sizes) (kind_of kind) length }
{
    match kind {
        Kind::Over(Level::Launch, Dimension::X) => places_alike(column, global, length),
        Kind::Over(Level::Groups, Dimension::X) => {
            let groups = places_alike(column / local, global / local, length);
            groups * local - column % local
        }
        Kind::Over(Level::Items, Dimension::X) => {
            if length % local == 0 {
                global - column
            } else {
                places_alike(column % local, local, length)
            }
        }
        Kind::Over(Level::Launch, Dimension::Y) => global - column,
        Kind::Over(Level::Groups, Dimension::Y) => global - column,
        Kind::Over(Level::Items, Dimension::Y) => global - column,
        Kind::Sequential => global - column,
    }
}

// And of a launch's items.
#[tactic(auto, using(crate::proofs::Turns::strides))]
fn items_alike(launch: &Launch, item: u32, kind: Kind, length: u32) -> u32
    requires whole { IsWhole launch.now }
    requires within { item < item_count launch.now }
    ensures some { 0 < result }
    ensures row { column_of launch.now item + result ≤ launch.now.global.0 }
    ensures alike { (k : ℕ) → k < result
        → turns_of (ids_of launch.now item) (kind_of kind) length
        ≡ turns_of (ids_of launch.now (item + k)) (kind_of kind) length }
{
    let (global, local) = (launch.global.0, launch.local.0);
    columns_alike(item % global, global, local, kind, length)
}

impl Count<'_> {
    // How many items from this one on, all in its row, take as many turns of a map.
    fn turns_alike(&self, kind: Kind, length: &Poly) -> u32
        requires names { AreNames self.now.names.now }
        requires whole { IsWhole self.now.launch.now }
        requires within { self.now.item < item_count self.now.launch.now }
        requires short { length_at (bases_of self.now.names.now self.now.launch.now.sizes)
            length.now < 2 ^ 31 }
        ensures some { 0 < result }
        ensures row { column_of self.now.launch.now self.now.item + result
            ≤ self.now.launch.now.global.0 }
        ensures alike { (k : ℕ) → k < result
            → turns_of (ids_of self.now.launch.now self.now.item) (kind_of kind)
            (length_at (bases_of self.now.names.now self.now.launch.now.sizes) length.now)
            ≡ turns_of (ids_of self.now.launch.now (self.now.item + k)) (kind_of kind)
            (length_at (bases_of self.now.names.now self.now.launch.now.sizes) length.now) }
    {
        let launch = self.launch;
        let length = length_of(length, self.names, &launch.sizes);
        items_alike(launch, self.item, kind, length)
    }

    // And of each map of a map.
    #[cycle(alike)]
    fn map_alike(&self, map: &Map) -> u32
        requires names { AreNames self.now.names.now }
        requires whole { IsWhole self.now.launch.now }
        requires within { self.now.item < item_count self.now.launch.now }
        requires short { HasShortLoops
            (length_at (bases_of self.now.names.now self.now.launch.now.sizes))
            (map_of map.now) }
        ensures some { 0 < result }
        ensures row { column_of self.now.launch.now self.now.item + result
            ≤ self.now.launch.now.global.0 }
        ensures alike { (k : ℕ) → k < result
            → TakeAlike (length_at (bases_of self.now.names.now self.now.launch.now.sizes))
            (ids_of self.now.launch.now self.now.item)
            (ids_of self.now.launch.now (self.now.item + k)) (map_of map.now) }
    {
        let turns = self.turns_alike(map.kind, &map.length);
        let array = self.alike(&map.array);
        let body = self.alike(&map.body);
        turns.min(array.min(body))
    }

    /// How many items from this one on, all in its row, take as many turns of each map of a term.
    #[cycle(alike)]
    pub fn alike(&self, term: &Term) -> u32
        requires names { AreNames self.now.names.now }
        requires whole { IsWhole self.now.launch.now }
        requires within { self.now.item < item_count self.now.launch.now }
        requires short { HasShortLoops
            (length_at (bases_of self.now.names.now self.now.launch.now.sizes))
            (term_of term.now) }
        ensures some { 0 < result }
        ensures row { column_of self.now.launch.now self.now.item + result
            ≤ self.now.launch.now.global.0 }
        ensures alike { (k : ℕ) → k < result
            → TakeAlike (length_at (bases_of self.now.names.now self.now.launch.now.sizes))
            (ids_of self.now.launch.now self.now.item)
            (ids_of self.now.launch.now (self.now.item + k)) (term_of term.now) }
    {
        match term {
            Term::Pair(a, b) | Term::Zip(a, b) | Term::LetArray(a, b) => {
                let first = self.alike(a);
                let second = self.alike(b);
                first.min(second)
            }
            Term::First(a)
            | Term::Second(a)
            | Term::Reshape(_, a)
            | Term::LetElement(_, _, a)
            | Term::Copy(_, _, a) => self.alike(a),
            Term::Map(map) => self.map_alike(map),
            Term::Fold(fold) => self.alike(&fold.array),
            Term::Literal(_)
            | Term::Bound(_)
            | Term::Source(_)
            | Term::Apply(_, _, _)
            | Term::ApplyNumber(_, _, _)
            | Term::ApplyLanes { .. }
            | Term::DivideLanes(_, _, _)
            | Term::Select(_, _, _)
            | Term::Store(_, _) => items_alike(self.launch, self.item, Kind::Sequential, 0),
        }
    }
}

/// Items that take as many turns of each map of a term load and store as much.
pub fn items_load_and_store_alike()
    ensures { AlikeItemsHaveOneTraffic }
{}
