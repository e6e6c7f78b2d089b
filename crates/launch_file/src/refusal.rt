//! Why bytes are no launch file of a program.

ghost use Rattle.std.specs.Prelude.{◌≡◌};

use json::Invalid;
use std::alloc::{AllocError, AllocFailed};
use thiserror::Error;

/// What a launch file may lack.
#[derive(Clone, Copy, Debug)]
pub enum Key {
    Global,
    Local,
    Sizes,
    Inputs,
    Schedule,
    /// The declared size of this number.
    SizeAt(usize),
    /// The input of this number.
    InputAt(usize),
    /// The list with an object for each kernel.
    Launches,
    /// The work-items in all of the kernel of this number.
    GlobalOf(usize),
    /// The work-items in a group of the kernel of this number.
    LocalOf(usize),
}

/// Why bytes are no launch file of a program, or that memory ran out. Sizes and inputs go by their
/// numbers in the order of declaration, from 0.
#[derive(Clone, Copy, Debug, Error)]
pub enum LaunchNo {
    /// The bytes are no JSON, or no object.
    #[error("no JSON object")]
    NotJson,
    /// The key isn't there, or its value isn't of its kind.
    #[error("missing {0:?}")]
    Missing(Key),
    /// The number given for a declared size is out of its range, or no multiple of its divisor.
    #[error("size {size} is {given}")]
    Size {
        size: usize,
        given: u64,
    },
    /// A size is 0 along a dimension, a group has more than 256 work-items, there are more than
    /// 65,536 in all, the local size doesn't divide the global size along a dimension, or it isn't
    /// the one that the script fixes.
    #[error("global {global:?}, local {local:?}")]
    Local {
        global: (u64, u64),
        local: (u64, u64),
    },
    /// The program is for one work-item alone.
    #[error("global {global:?} for one item")]
    NotTask {
        global: (u64, u64),
    },
    /// The program is for one row of work-items.
    #[error("rows {rows} for one row")]
    NotFlat {
        rows: u64,
    },
    /// The value at an input's name isn't of the input's type.
    #[error("input {input} has another shape")]
    Shape {
        input: usize,
    },
    #[error("out of memory")]
    Memory,
}

impl From<AllocError> for LaunchNo {
    ghost use Rattle.launch_file.specs.declared.refusal.LaunchNo.TheVariants.{Memory};

    ghost from_gives = { λ _ e. e ≡ Memory };

    fn from(_: AllocError) -> Self {
        LaunchNo::Memory
    }
}

impl<T: Drop> From<AllocFailed<T>> for LaunchNo {
    ghost use Rattle.launch_file.specs.declared.refusal.LaunchNo.TheVariants.{Memory};

    ghost from_gives = { λ _ e. e ≡ Memory };

    fn from(_: AllocFailed<T>) -> Self {
        LaunchNo::Memory
    }
}

impl From<Invalid> for LaunchNo {
    ghost use Rattle.launch_file.specs.declared.refusal.LaunchNo.TheVariants.{NotJson};

    ghost from_gives = { λ _ e. e ≡ NotJson };

    fn from(_: Invalid) -> Self {
        LaunchNo::NotJson
    }
}
