//! Operators by which a list may be reduced in any grouping.

ghost use Rattle.std.specs.Prelude.{◌≡◌};
ghost use Rattle.scalar_ops.specs.Operators;
ghost use Rattle.scalar_ops.specs.Regroup.{IsRegroup};
ghost use Rattle.scalar_ops.specs.Laws;
ghost use Rattle.scalar_ops.specs.declared.op.Reducer.{Reducer};
ghost use Rattle.scalar_ops.specs.declared.op.Reducer.TheVariants as reducer;

/// An operator with its laws: on the numbers below 2^32 it is associative and
/// commutative, and has a neutral element.
pub trait Regroup {
    /// Which of the seven operators it is.
    ghost operator: { Reducer };

    /// What two words give.
    fn join(a: u32, b: u32) -> u32
        ensures { result ≡ Operators.combine operator a b };

    /// The word that changes nothing.
    fn neutral() -> u32
        ensures { result ≡ Operators.neutral operator };

    ghost laws: { IsRegroup (Operators.combine operator) (Operators.neutral operator) };
}

/// The sum modulo 2^32.
pub struct Add;

impl Regroup for Add {
    ghost operator = { reducer.Add };

    ghost laws = { Laws.regroups reducer.Add };

    fn join(a: u32, b: u32) -> u32 {
        a.wrapping_add(b)
    }

    fn neutral() -> u32 {
        0
    }
}

/// The product modulo 2^32.
pub struct Mul;

impl Regroup for Mul {
    ghost operator = { reducer.Mul };

    ghost laws = { Laws.regroups reducer.Mul };

    fn join(a: u32, b: u32) -> u32 {
        a.wrapping_mul(b)
    }

    fn neutral() -> u32 {
        1
    }
}

/// The lesser word.
pub struct Min;

impl Regroup for Min {
    ghost operator = { reducer.Min };

    ghost laws = { Laws.regroups reducer.Min };

    fn join(a: u32, b: u32) -> u32 {
        a.min(b)
    }

    fn neutral() -> u32 {
        u32::MAX
    }
}

/// The greater word.
pub struct Max;

impl Regroup for Max {
    ghost operator = { reducer.Max };

    ghost laws = { Laws.regroups reducer.Max };

    fn join(a: u32, b: u32) -> u32 {
        a.max(b)
    }

    fn neutral() -> u32 {
        u32::MIN
    }
}

/// The bits that both words have.
pub struct And;

impl Regroup for And {
    ghost operator = { reducer.And };

    ghost laws = { Laws.regroups reducer.And };

    fn join(a: u32, b: u32) -> u32 {
        a & b
    }

    fn neutral() -> u32 {
        u32::MAX
    }
}

/// The bits that one word or both have.
pub struct Or;

impl Regroup for Or {
    ghost operator = { reducer.Or };

    ghost laws = { Laws.regroups reducer.Or };

    fn join(a: u32, b: u32) -> u32 {
        a | b
    }

    fn neutral() -> u32 {
        0
    }
}

/// The bits that just one of the words has.
pub struct Xor;

impl Regroup for Xor {
    ghost operator = { reducer.Xor };

    ghost laws = { Laws.regroups reducer.Xor };

    fn join(a: u32, b: u32) -> u32 {
        a ^ b
    }

    fn neutral() -> u32 {
        0
    }
}

/// The laws hold of every operator that may be regrouped.
pub fn regroups<R: Regroup>()
    ensures { IsRegroup (Operators.combine R.operator) (Operators.neutral R.operator) }
{}

/// Each type's operator is the one of its name.
pub fn operators_are_named()
    ensures add { ⟦<Add as Regroup>⟧.operator ≡ reducer.Add }
    ensures mul { ⟦<Mul as Regroup>⟧.operator ≡ reducer.Mul }
    ensures min { ⟦<Min as Regroup>⟧.operator ≡ reducer.Min }
    ensures max { ⟦<Max as Regroup>⟧.operator ≡ reducer.Max }
    ensures and { ⟦<And as Regroup>⟧.operator ≡ reducer.And }
    ensures or { ⟦<Or as Regroup>⟧.operator ≡ reducer.Or }
    ensures xor { ⟦<Xor as Regroup>⟧.operator ≡ reducer.Xor }
{}
