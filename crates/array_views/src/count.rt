//! Counts of private variables.

ghost use Rattle.std.specs.Prelude.{◌≡◌, IfOk};
ghost use Rattle.lift_tree.specs.Types.{ty_of};
ghost use Rattle.lift_ir.specs.Lowering.{element_ty};
ghost use Rattle.printed_form.specs.Counts as spec;
ghost use Rattle.array_views.specs.Counts.{count_of};

use lift_tree::ty::Ty;
use std::alloc::AllocError;

/// How many private variables, of a word and of four words.
#[derive(Clone, Copy)]
pub struct Count {
    pub words: u32,
    pub fours: u32,
}

impl Count {
    /// No variable.
    pub fn none() -> Self
        ensures { count_of result ≡ spec.no_variables }
    {
        Count { words: 0, fours: 0 }
    }

    /// One of a word.
    pub fn one_word() -> Self
        ensures { count_of result ≡ spec.one_word }
    {
        Count { words: 1, fours: 0 }
    }

    /// One of four words.
    pub fn one_four() -> Self
        ensures { count_of result ≡ spec.one_four }
    {
        Count { words: 0, fours: 1 }
    }

    /// So many, and so many more. A count that would pass 2^32 - 1 is answered as want of memory:
    /// what it counts takes more.
    pub fn more(self, other: Count) -> Result<Self, AllocError>
        ensures { IfOk result (λ n. count_of n ≡ spec.more (count_of self) (count_of other)) }
    {
        match (
            self.words.checked_add(other.words),
            self.fours.checked_add(other.fours),
        ) {
            (Some(words), Some(fours)) => Ok(Count { words, fours }),
            _ => Err(AllocError),
        }
    }
}

/// How many hold an element of this type, an array in it for a number.
pub fn held_count(ty: &Ty) -> Result<Count, AllocError>
    ensures { IfOk result (λ n. count_of n ≡ spec.held_count (element_ty (ty_of ty.now))) }
{
    match ty {
        Ty::Number | Ty::Array(_, _) => Ok(Count::one_word()),
        Ty::Vector => Ok(Count::one_four()),
        Ty::Pair(a, b) => held_count(a)?.more(held_count(b)?),
    }
}
