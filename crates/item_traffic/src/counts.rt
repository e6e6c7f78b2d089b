//! The loads or stores of one work-item.

ghost use Rattle.std.specs.Prelude.{◌≡◌, ◌<◌, ◌^◌};
ghost use Rattle.kernel_traffic.specs.Traffic as turns;
ghost use Rattle.kernel_tree.specs.Launch.{IsWhole, ids_of, item_count};
ghost use Rattle.lift_ir.specs.AtLaunch.{length_at};
ghost use Rattle.lift_ir.specs.Lowering.{element_ty};
ghost use Rattle.lift_tree.specs.Types.{ty_of};
ghost use Rattle.lowering.specs.Terms.{fold_of, kind_of, load_set_of, map_of, term_of};
ghost use Rattle.size_arith.specs.Ranges.{AreNames};
ghost use Rattle.term_traffic.specs.Regions.{all_in};
ghost use Rattle.term_traffic.specs.Short.{HasShortLoops};
ghost use Rattle.term_traffic.specs.Traffic as spec;
ghost use Rattle.launch_lengths.specs.Bases.{bases_of};
ghost use Rattle.item_traffic.specs.Counts.{held, load_of, store_of};
ghost use Rattle.item_traffic.specs.Places.{region_in, regions_at, regions_in};

use crate::access::Access;
use crate::region::{Part, Region, Scope, Way, region_of};
use kernel_tree::launches::Launch;
use launch_lengths::length_of;
use lift_tree::term::{Dimension, Level};
use lift_tree::ty::Ty;
use lowering::term::{Fold, Kind, LoadSet, Map, Term};
use size_arith::{Name, Poly};

/// What is counted, of which item of which launch, where sizes have these ranges.
#[derive(Clone, Copy)]
pub struct Count<'l> {
    pub access: Access,
    pub names: &'l [Name],
    pub launch: &'l Launch,
    pub item: u32,
}

// The turns from one on, by a stride, below a bound.
fn turns_below(from: u32, bound: u32, stride: u32) -> u64
    requires { 0 < stride }
    ensures { result ≡ turns.turns_below from bound stride }
{
    (bound.saturating_sub(from) as u64).div_ceil(stride as u64)
}

// How many turns the item takes of a map of a kind over so many.
#[tactic(auto, using(crate::proofs::Turns::strides))]
fn turns_of(launch: &Launch, item: u32, kind: Kind, length: u32) -> u64
    requires whole { IsWhole launch.now }
    requires within { item < item_count launch.now }
    ensures { result ≡ spec.turns_of (ids_of launch.now item) (kind_of kind) length }
{
    let (global, local) = (launch.global, launch.local);
    let (column, row) = (item % global.0, item / global.0);
    match kind {
        Kind::Over(Level::Launch, Dimension::X) => turns_below(column, length, global.0),
        Kind::Over(Level::Launch, Dimension::Y) => turns_below(row, length, global.1),
        Kind::Over(Level::Groups, Dimension::X) => {
            turns_below(column / local.0, length, global.0 / local.0)
        }
        Kind::Over(Level::Groups, Dimension::Y) => {
            turns_below(row / local.1, length, global.1 / local.1)
        }
        Kind::Over(Level::Items, Dimension::X) => turns_below(column % local.0, length, local.0),
        Kind::Over(Level::Items, Dimension::Y) => turns_below(row % local.1, length, local.1),
        Kind::Sequential => turns_below(0, length, 1),
    }
}

// The loads of these scalars of an argument's element.
fn loads(access: Access, loaded: &LoadSet, part: &Part) -> u64
    ensures { result
        ≡ held (spec.loads_in (load_of access) (load_set_of loaded.now) (regions_at part.now)) }
{
    match loaded {
        LoadSet::Skip => 0,
        LoadSet::Take => access.load(part.region(&Way::Whole)),
        LoadSet::TakeFour => access.load(part.region(&Way::Whole)).saturating_mul(4),
        LoadSet::Each(first, second) => {
            let first = loads(access, first, &Part::First(&*part));
            first.saturating_add(loads(access, second, &Part::Second(&*part)))
        }
    }
}

// The stores of an element of this type.
fn stores(access: Access, ty: &Ty, to: Region) -> u64
    ensures { result
        ≡ held (spec.stores_in (store_of access) (element_ty (ty_of ty.now)) (all_in (region_in to))) }
{
    match ty {
        Ty::Number | Ty::Array(_, _) => access.store(to),
        Ty::Vector => access.store(to).saturating_mul(4),
        Ty::Pair(a, b) => {
            let first = stores(access, a, to);
            let second = stores(access, b, to);
            first.saturating_add(second)
        }
    }
}

impl Count<'_> {
    /// How many turns the item takes of a map.
    pub fn turns(&self, kind: Kind, length: &Poly) -> u64
        requires names { AreNames self.now.names.now }
        requires whole { IsWhole self.now.launch.now }
        requires within { self.now.item < item_count self.now.launch.now }
        requires short { length_at (bases_of self.now.names.now self.now.launch.now.sizes)
            length.now < 2 ^ 31 }
        ensures { result ≡ spec.turns_of (ids_of self.now.launch.now self.now.item)
            (kind_of kind)
            (length_at (bases_of self.now.names.now self.now.launch.now.sizes) length.now) }
    {
        let launch = self.launch;
        let length = length_of(length, self.names, &launch.sizes);
        turns_of(launch, self.item, kind, length)
    }

    /// What the item does for an argument: it fills the copies in it.
    #[cycle(counting)]
    pub fn argument(&self, scope: &Scope, term: &Term) -> u64
        requires names { AreNames self.now.names.now }
        requires whole { IsWhole self.now.launch.now }
        requires within { self.now.item < item_count self.now.launch.now }
        requires short { HasShortLoops
            (length_at (bases_of self.now.names.now self.now.launch.now.sizes))
            (term_of term.now) }
        ensures { result ≡ held (spec.argument_traffic (load_of self.now.access)
            (store_of self.now.access)
            (length_at (bases_of self.now.names.now self.now.launch.now.sizes))
            (ids_of self.now.launch.now self.now.item) (regions_in scope.now)
            (term_of term.now)) }
    {
        match term {
            Term::Pair(a, b) | Term::Zip(a, b) => {
                let first = self.argument(scope, a);
                let second = self.argument(scope, b);
                first.saturating_add(second)
            }
            Term::First(a) | Term::Second(a) | Term::Reshape(_, a) => self.argument(scope, a),
            Term::LetArray(value, body) => {
                let first = self.argument(scope, value);
                let inner = Scope::Value(&*value, &*scope);
                let second = self.argument(&inner, body);
                first.saturating_add(second)
            }
            Term::Copy(space, _, a) => self.written(scope, a, region_of(*space)),
            Term::Literal(_)
            | Term::Bound(_)
            | Term::Source(_)
            | Term::Apply(_, _, _)
            | Term::ApplyNumber(_, _, _)
            | Term::ApplyLanes { .. }
            | Term::DivideLanes(_, _, _)
            | Term::Select(_, _, _)
            | Term::LetElement(_, _, _)
            | Term::Map(_)
            | Term::Fold(_)
            | Term::Store(_, _) => 0,
        }
    }

    // What it does for a map.
    #[cycle(counting)]
    fn map(&self, scope: &Scope, map: &Map, to: Region) -> u64
        requires names { AreNames self.now.names.now }
        requires whole { IsWhole self.now.launch.now }
        requires within { self.now.item < item_count self.now.launch.now }
        requires short { HasShortLoops
            (length_at (bases_of self.now.names.now self.now.launch.now.sizes))
            (map_of map.now) }
        ensures { result ≡ held (spec.written_traffic (load_of self.now.access)
            (store_of self.now.access)
            (length_at (bases_of self.now.names.now self.now.launch.now.sizes))
            (ids_of self.now.launch.now self.now.item) (regions_in scope.now)
            (map_of map.now) (all_in (region_in to))) }
    {
        let argument = self.argument(scope, &map.array);
        let turns = self.turns(map.kind, &map.length);
        let loads = loads(self.access, &map.loads, &Part::Whole(&*scope, &map.array));
        let inner = Scope::Element(&map.loads, &map.array, &*scope);
        let body = self.written(&inner, &map.body, to);
        let turn = loads.saturating_add(body);
        argument.saturating_add(turns.saturating_mul(turn))
    }

    // And for a fold.
    #[cycle(counting)]
    fn fold(&self, scope: &Scope, fold: &Fold, to: Region) -> u64
        requires names { AreNames self.now.names.now }
        requires whole { IsWhole self.now.launch.now }
        requires within { self.now.item < item_count self.now.launch.now }
        requires short { HasShortLoops
            (length_at (bases_of self.now.names.now self.now.launch.now.sizes))
            (fold_of fold.now) }
        ensures { result ≡ held (spec.written_traffic (load_of self.now.access)
            (store_of self.now.access)
            (length_at (bases_of self.now.names.now self.now.launch.now.sizes))
            (ids_of self.now.launch.now self.now.item) (regions_in scope.now)
            (fold_of fold.now) (all_in (region_in to))) }
    {
        let argument = self.argument(scope, &fold.array);
        let turns = self.turns(Kind::Sequential, &fold.length);
        let loads = loads(self.access, &fold.loads, &Part::Whole(&*scope, &fold.array));
        let stores = stores(self.access, &fold.accumulator, to);
        let all = turns.saturating_mul(loads);
        argument.saturating_add(all.saturating_add(stores))
    }

    /// What it does for a term in writing position, which goes there.
    #[cycle(counting)]
    pub fn written(&self, scope: &Scope, term: &Term, to: Region) -> u64
        requires names { AreNames self.now.names.now }
        requires whole { IsWhole self.now.launch.now }
        requires within { self.now.item < item_count self.now.launch.now }
        requires short { HasShortLoops
            (length_at (bases_of self.now.names.now self.now.launch.now.sizes))
            (term_of term.now) }
        ensures { result ≡ held (spec.written_traffic (load_of self.now.access)
            (store_of self.now.access)
            (length_at (bases_of self.now.names.now self.now.launch.now.sizes))
            (ids_of self.now.launch.now self.now.item) (regions_in scope.now)
            (term_of term.now) (all_in (region_in to))) }
    {
        match term {
            Term::Store(ty, _) => stores(self.access, ty, to),
            Term::Reshape(_, a) => self.written(scope, a, to),
            Term::LetArray(value, body) => {
                let first = self.argument(scope, value);
                let inner = Scope::Value(&*value, &*scope);
                let second = self.written(&inner, body, to);
                first.saturating_add(second)
            }
            Term::LetElement(_, _, body) => self.written(&Scope::Held(&*scope), body, to),
            Term::Map(map) => self.map(scope, map, to),
            Term::Fold(fold) => self.fold(scope, fold, to),
            Term::Literal(_)
            | Term::Bound(_)
            | Term::Source(_)
            | Term::Apply(_, _, _)
            | Term::ApplyNumber(_, _, _)
            | Term::ApplyLanes { .. }
            | Term::DivideLanes(_, _, _)
            | Term::Select(_, _, _)
            | Term::Pair(_, _)
            | Term::Zip(_, _)
            | Term::First(_)
            | Term::Second(_)
            | Term::Copy(_, _, _) => 0,
        }
    }
}
