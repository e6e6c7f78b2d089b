//! Scripts, and why a text is none.

ghost use Rattle.std.specs.Prelude.{◌≡◌};
ghost use Rattle.lift_tree.specs.FixedSizes.{size_fixed};
ghost use Rattle.strategy_script.specs.declared.script.ScriptNo.TheVariants.{Memory};

use crate::rule::Rule;
use lift_tree::local_size::LocalSize;
use lift_tree::place::Place;
use std::alloc::{AllocError, AllocFailed};
use std::marker::Model;
use thiserror::Error;

/// A step: the rule that rewrites the term at a place.
#[derive(Drop)]
pub struct Step {
    pub place: Place,
    pub rule: Rule,
}

/// A script. Contracts see the local size that it fixes, and the list of its steps.
#[derive(Drop)]
pub struct Script {
    local: Option<LocalSize>,
    steps: Vec<Step>,
}

impl Model for Script {
    ghost use Rattle.lift_tree.specs.FixedSizes.{size_fixed};
    ghost use Rattle.strategy_script.specs.Scripts.{PlainScript};

    ghost Value = { PlainScript };

    ghost view = { λ s. record { local = size_fixed s.local; steps = s.steps.items } };
}

impl Script {
    /// The script of these steps, with this local size where it fixes one.
    pub fn new(local: Option<LocalSize>, steps: Vec<Step>) -> Self
        ensures size { result.local ≡ size_fixed local }
        ensures steps { result.steps ≡ steps.items }
    {
        Script { local, steps }
    }

    /// The local size of all launches, where the script fixes it.
    pub fn local(&self) -> Option<LocalSize>
        ensures { size_fixed result ≡ self.now.local }
    {
        self.local
    }

    /// The steps in order.
    pub fn steps(&self) -> &[Step]
        ensures { result.now ≡ self.now.steps }
    {
        self.steps.as_slice()
    }
}

/// A limit on scripts.
#[derive(Clone, Copy, Debug, PartialEq, Eq)]
pub enum ScriptLimit {
    /// At most 256 steps.
    Steps,
}

/// Why a text gives no script.
#[derive(Clone, Copy, Debug, PartialEq, Eq, Error)]
pub enum ScriptNo {
    /// This line, counted from 1, is the first that is no step, nor none, nor fixes the local size
    /// where a line may.
    #[error("line {line} is no line of a script")]
    Syntax { line: u64 },
    /// The text is a script, and passes this limit with this count.
    #[error("limit {which:?}: {count}")]
    Limit { which: ScriptLimit, count: u64 },
    /// Want of memory.
    #[error("out of memory")]
    Memory,
}

impl From<AllocError> for ScriptNo {
    ghost from_gives = { λ _ no. no ≡ Memory };

    fn from(_error: AllocError) -> ScriptNo {
        ScriptNo::Memory
    }
}

impl<T: Drop> From<AllocFailed<T>> for ScriptNo {
    ghost from_gives = { λ _ no. no ≡ Memory };

    fn from(_error: AllocFailed<T>) -> ScriptNo {
        ScriptNo::Memory
    }
}
