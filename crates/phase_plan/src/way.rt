//! Ways to components.

ghost use Rattle.std.specs.Prelude.{◌≡◌, ◌++◌, [], ◌∷◌, map, option_to_list, IfOk, OnOk};
ghost use Rattle.group_form.specs.Named as spec;

use std::alloc::{AllocError, Global};
use std::marker::Model;

/// The pair choices that lead to a component, the outermost first; `true` chooses the second.
/// Contracts see the list of them.
#[derive(Drop)]
pub struct Way {
    choices: Vec<bool>,
}

impl Model for Way {
    ghost use Rattle.std.specs.Prelude.{Bool, List};

    ghost Value = { List Bool };

    ghost view = { λ w. w.choices.items };
}

impl Way {
    /// The way to the whole.
    pub fn to_whole(alloc: Global) -> Self
        ensures { result ≡ [] }
    {
        Way {
            choices: Vec::new(alloc),
        }
    }

    /// The choices in order.
    pub fn choices(&self) -> &[bool]
        ensures { result.now ≡ self.now }
    {
        self.choices.as_slice()
    }

    /// An equal way in memory of its own.
    pub fn copy(&self, alloc: Global) -> Result<Self, AllocError>
        ensures { IfOk result (λ w. w ≡ self.now) }
    {
        Ok(Way {
            choices: self.choices.as_slice().to_vec(alloc)?,
        })
    }

    // The way that goes on so after a choice.
    fn after(&self, alloc: Global, second: bool) -> Result<Self, AllocError>
        ensures { IfOk result (λ w. w ≡ second ∷ self.now) }
    {
        let mut choices = [second].to_vec(alloc)?;
        choices.extend_from_slice(self.choices.as_slice())?;
        Ok(Way { choices })
    }

    // How the way goes on at a part of a pair, if it leads there.
    fn beyond(&self, alloc: Global, second: bool) -> Result<Option<Self>, AllocError>
        ensures { IfOk result (λ w. option_to_list w ≡ spec.onward second (self.now ∷ [])) }
    {
        match self.choices.as_slice() {
            [] => Ok(Some(Way::to_whole(alloc))),
            [choice, rest @ ..] => {
                if *choice == second {
                    Ok(Some(Way {
                        choices: rest.to_vec(alloc)?,
                    }))
                } else {
                    Ok(None)
                }
            }
        }
    }
}

/// The way to the whole alone.
pub fn whole(alloc: Global) -> Result<Vec<Way>, AllocError>
    ensures { IfOk result (λ ways. ways.items ≡ spec.whole) }
{
    let mut ways = Vec::new(alloc);
    ways.push(Way::to_whole(alloc))?;
    Ok(ways)
}

/// Adds the ways that go on so after a choice.
pub fn add_after(
    alloc: Global,
    second: bool,
    ways: &[Way],
    all: &mut Vec<Way>,
) -> Result<(), AllocError>
    ensures { OnOk result (all.new.items ≡ all.old.items ++ map (λ w. second ∷ w) ways.now) }
{
    for way in ways {
        all.push(way.after(alloc, second)?)?;
    }
    Ok(())
}

/// The ways that go on so after a choice.
pub fn after(alloc: Global, second: bool, ways: &[Way]) -> Result<Vec<Way>, AllocError>
    ensures { IfOk result (λ all. all.items ≡ map (λ w. second ∷ w) ways.now) }
{
    let mut all = Vec::new(alloc);
    add_after(alloc, second, ways, &mut all)?;
    Ok(all)
}

/// How ways go on at a part of a pair.
pub fn onward(alloc: Global, second: bool, ways: &[Way]) -> Result<Vec<Way>, AllocError>
    ensures { IfOk result (λ all. all.items ≡ spec.onward second ways.now) }
{
    let mut all = Vec::new(alloc);
    for way in ways {
        if let Some(rest) = way.beyond(alloc, second)? {
            all.push(rest)?;
        }
    }
    Ok(all)
}
