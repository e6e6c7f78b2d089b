//! Which components of its variables a term names.

ghost use Rattle.std.specs.Prelude.{◌≡◌, ◌++◌, IfOk, OnOk};
ghost use Rattle.group_form.specs.Named as spec;
ghost use Rattle.lowering.specs.Terms.{load_set_of, term_of};

use crate::component::{Component, add_components, add_nearest, add_outside};
use crate::way::{Way, add_after, after, onward, whole};
use lowering::term::{LoadSet, Map, Term};
use std::alloc::{AllocError, Global};

// The ways to the scalars that are loaded.
fn taken(alloc: Global, loads: &LoadSet) -> Result<Vec<Way>, AllocError>
    ensures { IfOk result (λ ways. ways.items ≡ spec.taken (load_set_of loads.now)) }
{
    match loads {
        LoadSet::Skip => Ok(Vec::new(alloc)),
        LoadSet::Take | LoadSet::TakeFour => whole(alloc),
        LoadSet::Each(first, second) => {
            let mut ways = after(alloc, false, &taken(alloc, first)?)?;
            add_after(alloc, true, &taken(alloc, second)?, &mut ways)?;
            Ok(ways)
        }
    }
}

// The ways to what is loaded of an element, and to what the body that binds it names of it.
fn of_element(alloc: Global, loads: &LoadSet, named: &[Component]) -> Result<Vec<Way>, AllocError>
    ensures { IfOk result
        (λ ways. ways.items ≡ spec.taken (load_set_of loads.now) ++ spec.ways 0 named.now) }
{
    let mut ways = taken(alloc, loads)?;
    add_nearest(alloc, named, &mut ways)?;
    Ok(ways)
}

// The ways to the components of the nearest binder.
fn nearest(alloc: Global, named: &[Component]) -> Result<Vec<Way>, AllocError>
    ensures { IfOk result (λ ways. ways.items ≡ spec.ways 0 named.now) }
{
    let mut ways = Vec::new(alloc);
    add_nearest(alloc, named, &mut ways)?;
    Ok(ways)
}

// The same components outside the nearest binder.
fn outside(alloc: Global, named: &[Component]) -> Result<Vec<Component>, AllocError>
    ensures { IfOk result (λ components. components.items ≡ spec.outside named.now) }
{
    let mut components = Vec::new(alloc);
    add_outside(alloc, named, &mut components)?;
    Ok(components)
}

// What a term names, where these ways of its own value are wanted.
#[cycle(naming)]
fn named(alloc: Global, term: &Term, ways: &[Way]) -> Result<Vec<Component>, AllocError>
    ensures { IfOk result (λ all. all.items ≡ spec.named (term_of term.now) ways.now) }
{
    let mut all = Vec::new(alloc);
    add_named(alloc, term, ways, &mut all)?;
    Ok(all)
}

// What a term names, the whole of whose value is wanted.
#[cycle(naming)]
fn named_whole(alloc: Global, term: &Term) -> Result<Vec<Component>, AllocError>
    ensures { IfOk result (λ all. all.items ≡ spec.named (term_of term.now) spec.whole) }
{
    named(alloc, term, &whole(alloc)?)
}

// Adds the same.
#[cycle(naming)]
fn add_whole(alloc: Global, term: &Term, all: &mut Vec<Component>) -> Result<(), AllocError>
    ensures { OnOk result
        (all.new.items ≡ all.old.items ++ spec.named (term_of term.now) spec.whole) }
{
    add_named(alloc, term, &whole(alloc)?, all)
}

// Adds what an array names over which a body is run that names these components.
#[cycle(naming)]
fn add_array(
    alloc: Global,
    array: &Term,
    loads: &LoadSet,
    inner: &[Component],
    all: &mut Vec<Component>,
) -> Result<(), AllocError>
    ensures { OnOk result (all.new.items ≡ all.old.items ++ spec.named (term_of array.now)
        (spec.taken (load_set_of loads.now) ++ spec.ways 0 inner.now)) }
{
    add_named(alloc, array, &of_element(alloc, loads, inner)?, all)
}

// Adds what a term names, where these ways of its own value are wanted.
#[cycle(naming)]
fn add_named(
    alloc: Global,
    term: &Term,
    ways: &[Way],
    all: &mut Vec<Component>,
) -> Result<(), AllocError>
    ensures { OnOk result
        (all.new.items ≡ all.old.items ++ spec.named (term_of term.now) ways.now) }
{
    match term {
        Term::Literal(_) | Term::Source(_) => Ok(()),
        Term::Bound(variable) => add_components(alloc, *variable, ways, all),
        Term::Apply(_, a, b) | Term::Pair(a, b) => {
            add_whole(alloc, a, all)?;
            add_whole(alloc, b, all)
        }
        Term::ApplyLanes { left, right, .. } => {
            add_whole(alloc, left, all)?;
            add_whole(alloc, right, all)
        }
        Term::ApplyNumber(_, _, a)
        | Term::DivideLanes(_, _, a)
        | Term::Store(_, a)
        | Term::Copy(_, _, a) => add_whole(alloc, a, all),
        Term::Select(condition, yes, no) => {
            add_whole(alloc, condition, all)?;
            add_whole(alloc, yes, all)?;
            add_whole(alloc, no, all)
        }
        Term::Zip(a, b) => {
            add_named(alloc, a, &onward(alloc, false, ways)?, all)?;
            add_named(alloc, b, &onward(alloc, true, ways)?, all)
        }
        Term::First(a) => add_named(alloc, a, &after(alloc, false, ways)?, all),
        Term::Second(a) => add_named(alloc, a, &after(alloc, true, ways)?, all),
        Term::Reshape(_, a) => add_named(alloc, a, ways, all),
        Term::LetArray(value, body) => {
            let inner = named(alloc, body, ways)?;
            add_named(alloc, value, &nearest(alloc, &inner)?, all)?;
            add_outside(alloc, &inner, all)
        }
        Term::LetElement(_, value, body) => {
            add_whole(alloc, value, all)?;
            add_outside(alloc, &named(alloc, body, ways)?, all)
        }
        Term::Map(map) => {
            let inner = named(alloc, &map.body, ways)?;
            add_array(alloc, &map.array, &map.loads, &inner, all)?;
            add_outside(alloc, &inner, all)
        }
        Term::Fold(fold) => {
            let inner = named_whole(alloc, &fold.body)?;
            add_array(alloc, &fold.array, &fold.loads, &inner, all)?;
            add_whole(alloc, &fold.start, all)?;
            add_outside(alloc, &outside(alloc, &inner)?, all)
        }
    }
}

/// What the body of a local map names: of its element, with what is loaded of that,
/// and of the variables outside it.
#[derive(Drop)]
pub struct Names {
    pub element: Vec<Way>,
    pub variables: Vec<Component>,
}

/// What a local map names.
pub fn named_by_map(alloc: Global, map: &Map) -> Result<Names, AllocError>
    ensures element { IfOk result (λ names. names.element.items
        ≡ spec.element_ways (load_set_of map.now.loads) (term_of map.now.body)) }
    ensures variables { IfOk result
        (λ names. names.variables.items ≡ spec.named_outside (term_of map.now.body)) }
{
    let inner = named_whole(alloc, &map.body)?;
    Ok(Names {
        element: of_element(alloc, &map.loads, &inner)?,
        variables: outside(alloc, &inner)?,
    })
}
