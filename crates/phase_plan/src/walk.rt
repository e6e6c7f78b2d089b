//! The walk through a body, phase by phase.

ghost use Rattle.std.specs.Prelude.{◌≡◌, ◌+◌, ◌++◌, [], ◌∷◌, map, IfOk, OnOk, false, true};
ghost use Rattle.lift_tree.specs.Types.{ty_of};
ghost use Rattle.lift_ir.specs.AtLaunch.{ty_at};
ghost use Rattle.lift_ir.specs.Types.{width};
ghost use Rattle.lowering.specs.Terms.{load_set_of, term_of};
ghost use Rattle.printed_form.specs.Counts.{local_count};
ghost use Rattle.group_form.specs.Forms.{StandsOverGroups};
ghost use Rattle.group_form.specs.GridTerms as grids;
ghost use Rattle.group_form.specs.GridTerms.{StandsAlongGroups, StandsOverGrid};
ghost use Rattle.group_form.specs.GridTheorem.{grid_phase_count, phases_along};
ghost use Rattle.group_form.specs.Origins as origins;
ghost use Rattle.group_form.specs.Uses as uses;
ghost use Rattle.phase_plan.specs.Bodies.{IsOfPhases, unaligned};
ghost use Rattle.phase_plan.specs.Origins.{origin_in, origins_in};
ghost use Rattle.phase_plan.specs.Walks.{destination_from, origin_from, width_of, GoesOn};

use crate::named::named_by_map;
use crate::origin::{Origin, by_side};
use crate::scope::Scope;
use crate::uses::{add_element_reads, add_variable_reads, add_writes};
use barrier_placement::Touch;
use lift_tree::ty::Ty;
use lowering::term::{Map, Term};
use std::alloc::{AllocError, Global};

/// Where a phase's value goes.
#[derive(Clone, Copy)]
pub enum Destination<'t> {
    /// To local arrays, one for each component of a value of this type.
    Locals(&'t Ty),
    /// To the outputs.
    Outputs,
}

/// What has been met.
#[derive(Drop)]
pub struct Walk {
    /// How many phases.
    pub phases: u32,
    /// Their uses of local arrays.
    pub touches: Vec<Touch>,
    /// How many local arrays.
    pub arrays: u32,
}

// One more. A number that would pass 2^32 - 1 is answered as want of
// memory: what it counts takes more.
fn next(number: u32) -> Result<u32, AllocError>
    ensures { IfOk result (λ n. n ≡ number + 1) }
{
    number.checked_add(1).ok_or(AllocError)
}

// Where a value of this type lies in local arrays from the first on. `end` becomes the number of
// the first array past them.
fn laid(alloc: Global, ty: &Ty, end: &mut u32) -> Result<Origin, AllocError>
    ensures origin { IfOk result
        (λ o. origin_in o ≡ origins.laid_from end.old (ty_at [] (ty_of ty.now))) }
    ensures end { OnOk result (end.new ≡ end.old + width (ty_at [] (ty_of ty.now))) }
{
    match ty {
        Ty::Number | Ty::Vector => {
            let array = *end;
            *end = next(array)?;
            Ok(Origin::Within(array, true))
        }
        Ty::Pair(a, b) => {
            let first = laid(alloc, a, end)?;
            let second = laid(alloc, b, end)?;
            by_side(alloc, first, second)
        }
        Ty::Array(element, _) => laid(alloc, element, end),
    }
}

impl Walk {
    /// Nothing has been met.
    pub fn new(alloc: Global) -> Self
        ensures phases { result.phases ≡ 0 }
        ensures touches { result.touches.items ≡ [] }
        ensures arrays { result.arrays ≡ 0 }
    {
        Walk {
            phases: 0,
            touches: Vec::new(alloc),
            arrays: 0,
        }
    }

    // Writes a phase's value, and gives where it lies then.
    fn write(&mut self, alloc: Global, to: Destination, direct: bool) -> Result<Origin, AllocError>
        ensures origin { IfOk result (λ o. origin_in o ≡ origin_from self.old.arrays to.entry) }
        ensures touches { OnOk result (self.new.touches.items ≡ self.old.touches.items
            ++ uses.touches_in self.old.phases
            (uses.writes_to (destination_from self.old.arrays to.entry) direct)) }
        ensures phases { OnOk result (self.new.phases ≡ self.old.phases) }
        ensures arrays { OnOk result (self.new.arrays ≡ self.old.arrays + width_of to.entry) }
    {
        match to {
            Destination::Locals(ty) => {
                let first = self.arrays;
                let origin = laid(alloc, ty, &mut self.arrays)?;
                add_writes(first, self.arrays, direct, self.phases, &mut self.touches)?;
                Ok(origin)
            }
            Destination::Outputs => Ok(Origin::Elsewhere),
        }
    }

    // The phase of a local map over what lies there. Gives where its value lies.
    fn add_phase(
        &mut self,
        alloc: Global,
        scope: &Scope,
        argument: &Origin,
        map: &Map,
        to: Destination,
        direct: bool,
    ) -> Result<Origin, AllocError>
        ensures origin { IfOk result (λ o. origin_in o ≡ origin_from self.old.arrays to.entry) }
        ensures goes_on { OnOk result (GoesOn self.old self.new
            (uses.loop_uses (origins_in scope.now) (origin_in argument.now)
            (load_set_of map.now.loads) (term_of map.now.body)
            (destination_from self.old.arrays to.entry) direct ∷ [])
            (width_of to.entry)) }
    {
        let names = named_by_map(alloc, map)?;
        let origin = self.write(alloc, to, direct)?;
        add_element_reads(argument, &names.element, self.phases, &mut self.touches)?;
        add_variable_reads(
            alloc,
            scope,
            &names.variables,
            self.phases,
            &mut self.touches,
        )?;
        self.phases = next(self.phases)?;
        Ok(origin)
    }

    // The phases of an argument. Gives where it lies.
    #[cycle(walking)]
    fn argument(&mut self, alloc: Global, scope: &Scope, term: &Term) -> Result<Origin, AllocError>
        requires { IsOfPhases false (term_of term.now) }
        ensures origin { IfOk result (λ o. origin_in o
            ≡ origins.origin_of (origins_in scope.now) self.old.arrays (term_of term.now)) }
        ensures goes_on { OnOk result (GoesOn self.old self.new
            (uses.argument_uses (origins_in scope.now) self.old.arrays (term_of term.now))
            (local_count (term_of term.now))) }
        ensures phases { OnOk result
            (self.new.phases ≡ self.old.phases + uses.phases_in (term_of term.now)) }
    {
        match term {
            Term::Bound(variable) => match scope.origin(*variable) {
                Some(origin) => origin.copy(alloc),
                None => Ok(Origin::Elsewhere),
            },
            Term::Zip(a, b) => {
                let first = self.argument(alloc, scope, a)?;
                let second = self.argument(alloc, scope, b)?;
                by_side(alloc, first, second)
            }
            Term::First(a) => Ok(self.argument(alloc, scope, a)?.side(false)),
            Term::Second(a) => Ok(self.argument(alloc, scope, a)?.side(true)),
            Term::Reshape(_, a) => self.argument(alloc, scope, a)?.bent(alloc),
            Term::LetArray(value, body) => {
                let value = self.argument(alloc, scope, value)?;
                let inner = Scope::Bound(&value, &*scope);
                self.argument(alloc, &inner, body)?.bent(alloc)
            }
            Term::Copy(_, ty, a) => { self.written(alloc, scope, a, Destination::Locals(ty), true) }
            Term::Source(_)
            | Term::Literal(_)
            | Term::Apply(_, _, _)
            | Term::ApplyNumber(_, _, _)
            | Term::ApplyLanes { .. }
            | Term::DivideLanes(_, _, _)
            | Term::Select(_, _, _)
            | Term::Pair(_, _)
            | Term::LetElement(_, _, _)
            | Term::Map(_)
            | Term::Fold(_)
            | Term::Store(_, _) => Ok(Origin::Elsewhere),
        }
    }

    // The phases of a term in writing position. Gives where its value lies.
    #[cycle(walking)]
    fn written(
        &mut self,
        alloc: Global,
        scope: &Scope,
        term: &Term,
        to: Destination,
        direct: bool,
    ) -> Result<Origin, AllocError>
        requires { IsOfPhases true (term_of term.now) }
        ensures origin { IfOk result (λ o. origin_in o
            ≡ origin_from (self.old.arrays + local_count (term_of term.now)) to.entry) }
        ensures goes_on { OnOk result (GoesOn self.old self.new
            (uses.written_uses (origins_in scope.now) self.old.arrays (term_of term.now)
            (destination_from (self.old.arrays + local_count (term_of term.now)) to.entry)
            direct)
            (local_count (term_of term.now) + width_of to.entry)) }
        ensures phases { OnOk result
            (self.new.phases ≡ self.old.phases + uses.phases_in (term_of term.now)) }
    {
        match term {
            Term::Reshape(_, a) => self.written(alloc, scope, a, to, false),
            Term::LetArray(value, body) => {
                let value = self.argument(alloc, scope, value)?;
                let inner = Scope::Bound(&value, &*scope);
                self.written(alloc, &inner, body, to, direct)
            }
            Term::Map(map) => {
                let argument = self.argument(alloc, scope, &map.array)?;
                self.add_phase(alloc, scope, &argument, map, to, direct)
            }
            Term::Literal(_)
            | Term::Bound(_)
            | Term::Source(_)
            | Term::Apply(_, _, _)
            | Term::ApplyNumber(_, _, _)
            | Term::ApplyLanes { .. }
            | Term::DivideLanes(_, _, _)
            | Term::Select(_, _, _)
            | Term::Pair(_, _)
            | Term::Zip(_, _)
            | Term::First(_)
            | Term::Second(_)
            | Term::LetElement(_, _, _)
            | Term::Fold(_)
            | Term::Store(_, _)
            | Term::Copy(_, _, _) => Ok(Origin::Elsewhere),
        }
    }

    // What is met in the body of a map over work-groups.
    fn through_body(alloc: Global, body: &Term) -> Result<Self, AllocError>
        requires { IsOfPhases true (term_of body.now) }
        ensures phases { IfOk result
            (λ walk. walk.phases ≡ uses.phases_in (term_of body.now)) }
        ensures touches { IfOk result
            (λ walk. walk.touches.items ≡ uses.numbered 0 (uses.body_uses (term_of body.now))) }
    {
        let mut walk = Walk::new(alloc);
        walk.written(alloc, &Scope::Empty, body, Destination::Outputs, false)?;
        Ok(walk)
    }

    /// What is met in a map over work-groups, seen through layouts and lets of inputs.
    #[tactic(auto, using(crate::proofs::Bodies::of_groups))]
    pub fn through(alloc: Global, root: &Term) -> Result<Self, AllocError>
        requires { StandsOverGroups (term_of root.now) }
        ensures phases { IfOk result
            (λ walk. walk.phases ≡ uses.phase_count (term_of root.now)) }
        ensures touches { IfOk result
            (λ walk. walk.touches.items ≡ uses.group_touches (term_of root.now)) }
    {
        match root {
            Term::Reshape(_, term) | Term::LetArray(_, term) => Walk::through(alloc, term),
            Term::Map(map) => Walk::through_body(alloc, &map.body),
            Term::Literal(_)
            | Term::Bound(_)
            | Term::Source(_)
            | Term::Apply(_, _, _)
            | Term::ApplyNumber(_, _, _)
            | Term::ApplyLanes { .. }
            | Term::DivideLanes(_, _, _)
            | Term::Select(_, _, _)
            | Term::Pair(_, _)
            | Term::Zip(_, _)
            | Term::First(_)
            | Term::Second(_)
            | Term::LetElement(_, _, _)
            | Term::Fold(_)
            | Term::Store(_, _)
            | Term::Copy(_, _, _) => Ok(Walk::new(alloc)),
        }
    }

    // What is met in a map over the groups of a row, seen through layouts. No use is aligned.
    fn through_row(alloc: Global, row: &Term) -> Result<Self, AllocError>
        requires { StandsAlongGroups (term_of row.now) }
        ensures phases { IfOk result (λ walk. walk.phases ≡ phases_along (term_of row.now)) }
        ensures touches { IfOk result
            (λ walk. walk.touches.items ≡ uses.numbered 0 (grids.row_uses (term_of row.now))) }
    {
        match row {
            Term::Reshape(_, term) => Walk::through_row(alloc, term),
            Term::Map(map) => {
                let Walk {
                    phases,
                    touches,
                    arrays,
                } = Walk::through_body(alloc, &map.body)?;
                Ok(Walk {
                    phases,
                    touches: unaligned(alloc, &touches)?,
                    arrays,
                })
            }
            Term::Literal(_)
            | Term::Bound(_)
            | Term::Source(_)
            | Term::Apply(_, _, _)
            | Term::ApplyNumber(_, _, _)
            | Term::ApplyLanes { .. }
            | Term::DivideLanes(_, _, _)
            | Term::Select(_, _, _)
            | Term::Pair(_, _)
            | Term::Zip(_, _)
            | Term::First(_)
            | Term::Second(_)
            | Term::LetArray(_, _)
            | Term::LetElement(_, _, _)
            | Term::Fold(_)
            | Term::Store(_, _)
            | Term::Copy(_, _, _) => Ok(Walk::new(alloc)),
        }
    }

    /// What is met in a map over rows of work-groups, seen through layouts and lets of inputs. No
    /// use is aligned.
    pub fn through_grid(alloc: Global, root: &Term) -> Result<Self, AllocError>
        requires { StandsOverGrid (term_of root.now) }
        ensures phases { IfOk result
            (λ walk. walk.phases ≡ grid_phase_count (term_of root.now)) }
        ensures touches { IfOk result
            (λ walk. walk.touches.items ≡ grids.grid_touches (term_of root.now)) }
    {
        match root {
            Term::Reshape(_, term) | Term::LetArray(_, term) => Walk::through_grid(alloc, term),
            Term::Map(map) => Walk::through_row(alloc, &map.body),
            Term::Literal(_)
            | Term::Bound(_)
            | Term::Source(_)
            | Term::Apply(_, _, _)
            | Term::ApplyNumber(_, _, _)
            | Term::ApplyLanes { .. }
            | Term::DivideLanes(_, _, _)
            | Term::Select(_, _, _)
            | Term::Pair(_, _)
            | Term::Zip(_, _)
            | Term::First(_)
            | Term::Second(_)
            | Term::LetElement(_, _, _)
            | Term::Fold(_)
            | Term::Store(_, _)
            | Term::Copy(_, _, _) => Ok(Walk::new(alloc)),
        }
    }
}

// The uses, of which none is told as aligned.
fn unaligned(alloc: Global, touches: &[Touch]) -> Result<Vec<Touch>, AllocError>
    ensures { IfOk result (λ all. all.items ≡ map unaligned touches.now) }
{
    let mut all = Vec::new(alloc);
    for touch in touches {
        all.push(Touch {
            aligned: false,
            ..*touch
        })?;
    }
    Ok(all)
}
