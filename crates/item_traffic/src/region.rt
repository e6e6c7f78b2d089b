//! Where the scalars of arguments lie, sought without memory.

ghost use Rattle.std.specs.Prelude.{◌≡◌, if◌then◌else◌};
ghost use Rattle.lowering.specs.Terms.{load_set_of, space_of, term_of};
ghost use Rattle.term_traffic.specs.Regions as spec;
ghost use Rattle.term_traffic.specs.Regions.{regions_left, regions_of};
ghost use Rattle.item_traffic.specs.Places.{choices_in, region_in, regions_at, regions_in};

use lowering::term::{LoadSet, Space, Term};

/// A memory.
#[derive(Clone, Copy, PartialEq, Eq)]
pub enum Region {
    /// None: it is in a private variable.
    Nowhere,
    Global,
    Local,
    Private,
}

/// Choices that lead to a component of a pair, the outermost first; `true` chooses the second.
#[derive(Clone, Copy)]
pub enum Way<'w> {
    Whole,
    Side(bool, &'w Way<'w>),
}

/// What each binder stands for, the nearest first.
#[derive(Clone, Copy)]
pub enum Scope<'s> {
    Empty,
    /// An argument's value.
    Value(&'s Term, &'s Scope<'s>),
    /// An element of an argument, some of whose scalars are loaded.
    Element(&'s LoadSet, &'s Term, &'s Scope<'s>),
    /// An element in private variables.
    Held(&'s Scope<'s>),
}

/// A part of an argument.
#[derive(Clone, Copy)]
pub enum Part<'p> {
    Whole(&'p Scope<'p>, &'p Term),
    First(&'p Part<'p>),
    Second(&'p Part<'p>),
}

/// The memory that a copy lies in.
pub fn region_of(space: Space) -> Region
    ensures { region_in result ≡ spec.region_in (space_of space) }
{
    match space {
        Space::Local => Region::Local,
        Space::Private => Region::Private,
    }
}

// Whether what stands there is loaded, or is no component.
fn is_taken(loads: &LoadSet, way: &Way) -> bool
    ensures { (x : spec.Regions) → regions_left (load_set_of loads.now) x (choices_in way.now)
        ≡ (if result then spec.NoMemory else x (choices_in way.now)) }
{
    match loads {
        LoadSet::Skip => false,
        LoadSet::Take | LoadSet::TakeFour => true,
        LoadSet::Each(first, second) => match way {
            Way::Whole => true,
            Way::Side(is_second, rest) => {
                if *is_second {
                    is_taken(second, rest)
                } else {
                    is_taken(first, rest)
                }
            }
        },
    }
}

impl Scope<'_> {
    // Where a component of what a variable stands for lies.
    #[cycle(regions)]
    fn seek(&self, variable: u32, way: &Way) -> Region
        ensures { region_in result ≡ regions_in self.now variable (choices_in way.now) }
    {
        match self {
            Scope::Empty => Region::Nowhere,
            Scope::Value(value, outer) => {
                if variable == 0 {
                    seek(outer, value, way)
                } else {
                    outer.seek(variable - 1, way)
                }
            }
            Scope::Element(loads, array, outer) => {
                if variable == 0 {
                    if is_taken(loads, way) {
                        Region::Nowhere
                    } else {
                        seek(outer, array, way)
                    }
                } else {
                    outer.seek(variable - 1, way)
                }
            }
            Scope::Held(outer) => {
                if variable == 0 {
                    Region::Nowhere
                } else {
                    outer.seek(variable - 1, way)
                }
            }
        }
    }
}

/// Where a component of an argument lies.
#[cycle(regions)]
pub fn seek(scope: &Scope, term: &Term, way: &Way) -> Region
    ensures { region_in result
        ≡ regions_of (regions_in scope.now) (term_of term.now) (choices_in way.now) }
{
    match term {
        Term::Bound(variable) => scope.seek(*variable, way),
        Term::Source(_) => Region::Global,
        Term::Pair(a, b) | Term::Zip(a, b) => match way {
            Way::Whole => Region::Nowhere,
            Way::Side(second, rest) => {
                if *second {
                    seek(scope, b, rest)
                } else {
                    seek(scope, a, rest)
                }
            }
        },
        Term::First(a) => seek(scope, a, &Way::Side(false, &*way)),
        Term::Second(a) => seek(scope, a, &Way::Side(true, &*way)),
        Term::Reshape(_, a) => seek(scope, a, way),
        Term::LetArray(value, body) => seek(&Scope::Value(&*value, &*scope), body, way),
        Term::Copy(space, _, _) => region_of(*space),
        Term::Literal(_)
        | Term::Apply(_, _, _)
        | Term::ApplyNumber(_, _, _)
        | Term::ApplyLanes { .. }
        | Term::DivideLanes(_, _, _)
        | Term::Select(_, _, _)
        | Term::LetElement(_, _, _)
        | Term::Map(_)
        | Term::Fold(_)
        | Term::Store(_, _) => Region::Nowhere,
    }
}

impl Part<'_> {
    /// Where a component of it lies.
    pub fn region(&self, way: &Way) -> Region
        ensures { region_in result ≡ regions_at self.now (choices_in way.now) }
    {
        match self {
            Part::Whole(scope, term) => seek(scope, term, way),
            Part::First(whole) => whole.region(&Way::Side(false, &*way)),
            Part::Second(whole) => whole.region(&Way::Side(true, &*way)),
        }
    }
}
