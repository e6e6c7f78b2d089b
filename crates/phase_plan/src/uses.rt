//! The uses of local arrays by one phase.

ghost use Rattle.std.specs.Prelude.{◌≡◌, ◌++◌, ◌≤◌, ◌-◌, OnOk};
ghost use Rattle.group_form.specs.Origins.{at_way, bent};
ghost use Rattle.group_form.specs.Uses as spec;
ghost use Rattle.phase_plan.specs.Origins.{origin_in, origins_in};

use crate::component::Component;
use crate::origin::Origin;
use crate::scope::Scope;
use crate::way::Way;
use barrier_placement::Touch;
use std::alloc::{AllocError, Global};

// Adds reads of all that lies there.
#[tactic(auto, using(crate::proofs::Touching::touched))]
fn add_reads(origin: &Origin, phase: u32, touches: &mut Vec<Touch>) -> Result<(), AllocError>
    ensures { OnOk result (touches.new.items
        ≡ touches.old.items ++ spec.touches_in phase (spec.reads_of (origin_in origin.now))) }
{
    match origin {
        Origin::Elsewhere => Ok(()),
        Origin::Within(array, plainly) => {
            touches.push(Touch {
                phase,
                buffer: *array,
                writes: false,
                aligned: *plainly,
                local: true,
            })?;
            Ok(())
        }
        Origin::BySide(first, second) => {
            add_reads(first, phase, touches)?;
            add_reads(second, phase, touches)
        }
    }
}

// Adds reads of the component to which these choices lead.
#[tactic(auto, using(crate::proofs::Touching::touched, crate::proofs::Touching::nowhere, crate::proofs::Touching::not_within))]
fn add_component_reads(
    origin: &Origin,
    choices: &[bool],
    phase: u32,
    touches: &mut Vec<Touch>,
) -> Result<(), AllocError>
    ensures { OnOk result (touches.new.items ≡ touches.old.items
        ++ spec.touches_in phase (spec.reads_of (at_way (origin_in origin.now) choices.now))) }
{
    match choices {
        [] => add_reads(origin, phase, touches),
        [second, rest @ ..] => match origin {
            Origin::BySide(_, part) if *second => {
                add_component_reads(part, rest, phase, touches)
            }
            Origin::BySide(part, _) => add_component_reads(part, rest, phase, touches),
            Origin::Elsewhere | Origin::Within(_, _) => Ok(()),
        },
    }
}

/// Adds reads of an argument's components.
#[tactic(auto, using(crate::proofs::Touching::touched))]
pub fn add_element_reads(
    origin: &Origin,
    ways: &[Way],
    phase: u32,
    touches: &mut Vec<Touch>,
) -> Result<(), AllocError>
    ensures { OnOk result (touches.new.items ≡ touches.old.items
        ++ spec.touches_in phase (spec.element_reads (origin_in origin.now) ways.now)) }
{
    for way in ways {
        add_component_reads(origin, way.choices(), phase, touches)?;
    }
    Ok(())
}

// Adds reads of a variable's component, which aren't aligned.
fn add_variable_read(
    alloc: Global,
    scope: &Scope,
    component: &Component,
    phase: u32,
    touches: &mut Vec<Touch>,
) -> Result<(), AllocError>
    ensures { OnOk result (touches.new.items ≡ touches.old.items ++ spec.touches_in phase
        (spec.reads_of
        (at_way (bent (origins_in scope.now component.now.var)) component.now.way))) }
{
    match scope.origin(component.variable()) {
        None => Ok(()),
        Some(origin) => {
            add_component_reads(&origin.bent(alloc)?, component.choices(), phase, touches)
        }
    }
}

/// Adds reads of variables' components, none of which is aligned.
#[tactic(auto, using(crate::proofs::Touching::touched))]
pub fn add_variable_reads(
    alloc: Global,
    scope: &Scope,
    components: &[Component],
    phase: u32,
    touches: &mut Vec<Touch>,
) -> Result<(), AllocError>
    ensures { OnOk result (touches.new.items ≡ touches.old.items
        ++ spec.touches_in phase (spec.variable_reads (origins_in scope.now) components.now)) }
{
    for component in components {
        add_variable_read(alloc, scope, component, phase, touches)?;
    }
    Ok(())
}

/// Adds writes of the arrays from one up to another, which is not among them, the last first.
pub fn add_writes(
    first: u32,
    end: u32,
    direct: bool,
    phase: u32,
    touches: &mut Vec<Touch>,
) -> Result<(), AllocError>
    requires { first ≤ end }
    ensures { OnOk result (touches.new.items
        ≡ touches.old.items
        ++ spec.touches_in phase (spec.writes_from first direct (end - first))) }
{
    let mut array = end;
    while array > first {
        array -= 1;
        touches.push(Touch {
            phase,
            buffer: array,
            writes: true,
            aligned: direct,
            local: true,
        })?;
    }
    Ok(())
}
