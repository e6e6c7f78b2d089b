//! Why a script's step isn't made.

ghost use Rattle.std.specs.Prelude.{◌≡◌};
ghost use Rattle.strategy_script.specs.declared.faults.Fault.TheVariants as fault;
ghost use Rattle.strategy_script.specs.declared.faults.StepNo.TheVariants as no;
ghost use Rattle.strategy_script.specs.Steps.{refusal_of};

use pattern_types::TypeLimit;
use rewriting::Condition;
use std::alloc::{AllocError, AllocFailed};

/// Why a rule isn't applied at a step's place.
#[derive(Clone, Copy, PartialEq, Eq)]
pub enum Why {
    /// The term has no such place.
    NoPlace,
    /// The node isn't of the rule's shape.
    Shape,
    /// The node is of the rule's shape, and this is the first condition that is false.
    Side(Condition),
}

/// A limit on the term after a step.
#[derive(Clone, Copy, PartialEq, Eq)]
pub enum StepLimit {
    /// At most 4096 nodes.
    Nodes,
    /// A height of at most 256.
    Depth,
    /// A limit on types.
    Types(TypeLimit),
}

/// Why a script isn't run to its end.
#[derive(Clone, Copy, PartialEq, Eq)]
pub enum StepNo {
    /// The rule of this step, counted from 1, isn't applied.
    Inapplicable {
        step: u64,
        why: Why,
    },
    /// The term after this step passes this limit with this count. Nodes and height are counted up
    /// to 2^64 - 1.
    Limit {
        which: StepLimit,
        step: u64,
        count: u128,
    },
    /// Want of memory.
    Memory,
}

/// Why a step isn't made.
#[derive(Clone, Copy)]
pub enum Fault {
    /// The rule isn't applied.
    Stops(Why),
    /// The term after the step passes this limit with this count.
    Passes(StepLimit, u128),
    /// Want of memory.
    Memory,
}

impl Fault {
    /// The refusal of the step of this number.
    pub fn at(self, step: u64) -> StepNo
        ensures { result ≡ refusal_of step self }
    {
        match self {
            Fault::Stops(why) => StepNo::Inapplicable { step, why },
            Fault::Passes(which, count) => StepNo::Limit { which, step, count },
            Fault::Memory => StepNo::Memory,
        }
    }
}

impl From<AllocError> for Fault {
    ghost from_gives = { λ _ f. f ≡ fault.Memory };

    fn from(_error: AllocError) -> Fault {
        Fault::Memory
    }
}

impl From<AllocError> for StepNo {
    ghost from_gives = { λ _ refusal. refusal ≡ no.Memory };

    fn from(_error: AllocError) -> StepNo {
        StepNo::Memory
    }
}

impl<T: Drop> From<AllocFailed<T>> for StepNo {
    ghost from_gives = { λ _ refusal. refusal ≡ no.Memory };

    fn from(_error: AllocFailed<T>) -> StepNo {
        StepNo::Memory
    }
}
