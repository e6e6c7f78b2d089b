//! Components of variables.

ghost use Rattle.std.specs.Prelude.{◌≡◌, ◌++◌, OnOk};
ghost use Rattle.group_form.specs.Named as spec;

use crate::way::Way;
use std::alloc::{AllocError, Global};
use std::marker::Model;

/// A component of a variable, counted from the nearest binder, which is 0; whatever lies
/// under the last choice is meant.
#[derive(Drop)]
pub struct Component {
    variable: u32,
    way: Way,
}

impl Model for Component {
    ghost use Rattle.group_form.specs.Named as spec;

    ghost Value = { spec.Component };

    ghost view = { λ c. record { var = c.variable; way = c.way } };
}

impl Component {
    /// The variable.
    pub fn variable(&self) -> u32
        ensures { result ≡ self.now.var }
    {
        self.variable
    }

    /// The choices that lead to the component.
    pub fn choices(&self) -> &[bool]
        ensures { result.now ≡ self.now.way }
    {
        self.way.choices()
    }
}

/// Adds the components of a variable to which the ways lead.
pub fn add_components(
    alloc: Global,
    variable: u32,
    ways: &[Way],
    all: &mut Vec<Component>,
) -> Result<(), AllocError>
    ensures { OnOk result
        (all.new.items ≡ all.old.items ++ spec.components_of variable ways.now) }
{
    for way in ways {
        let way = way.copy(alloc)?;
        all.push(Component { variable, way })?;
    }
    Ok(())
}

/// Adds the ways to the components of the nearest binder.
pub fn add_nearest(
    alloc: Global,
    components: &[Component],
    all: &mut Vec<Way>,
) -> Result<(), AllocError>
    ensures { OnOk result (all.new.items ≡ all.old.items ++ spec.ways 0 components.now) }
{
    for component in components {
        if component.variable == 0 {
            all.push(component.way.copy(alloc)?)?;
        }
    }
    Ok(())
}

/// Adds the components of the other variables, as they are counted outside the nearest binder.
pub fn add_outside(
    alloc: Global,
    components: &[Component],
    all: &mut Vec<Component>,
) -> Result<(), AllocError>
    ensures { OnOk result (all.new.items ≡ all.old.items ++ spec.outside components.now) }
{
    for component in components {
        if component.variable > 0 {
            all.push(Component {
                variable: component.variable - 1,
                way: component.way.copy(alloc)?,
            })?;
        }
    }
    Ok(())
}
