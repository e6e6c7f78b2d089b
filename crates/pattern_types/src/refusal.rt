//! Why a program is refused.

ghost use Rattle.std.specs.Prelude.{◌≡◌};
ghost use Rattle.pattern_types.specs.Refusals.{rule_name};

use lift_tree::place::Place;

/// A rule of the typing table, by the pattern that demands it.
#[derive(Clone, Copy, PartialEq, Eq)]
pub enum Rule {
    /// The operands of an operator and of `select` are numbers.
    Operator,
    /// The parts of a `pair` have element types: numbers, and pairs of element types.
    Pair,
    /// The operand of `first` and `second` is a pair.
    Project,
    /// A `map` goes over an array.
    Map,
    /// A `reduce` goes over an array of numbers, from a number.
    Reduce,
    /// A `fold` goes over an array; its start has an element type, and its body the start's type.
    Fold,
    /// The operands of a `zip` are arrays of the same length.
    Zip,
    /// The length of the pieces of a `split` divides the array's.
    Split,
    /// The operand of a `join` is an array of arrays.
    Join,
    /// The operand of a `transpose` is an array of arrays.
    Transpose,
    /// The operand of a `reverse` is an array.
    Reverse,
    /// The step of a `stride` divides the array's length.
    Stride,
    /// The windows of a `slide` fit the array, and its steps divide what is left.
    Slide,
    /// The operand of a `pad` is an array.
    Pad,
    /// The whole is an array, whose pairs hold numbers only.
    Output,
    /// Each array that is formed has a length shown to be at least 1.
    Length,
}

impl Rule {
    /// The rule's name in messages.
    pub fn name(self) -> &'static [u8]
        ensures { result.now ≡ rule_name self }
    {
        match self {
            Rule::Operator => b"operator".as_slice(),
            Rule::Pair => b"pair".as_slice(),
            Rule::Project => b"project".as_slice(),
            Rule::Map => b"map".as_slice(),
            Rule::Reduce => b"reduce".as_slice(),
            Rule::Fold => b"fold".as_slice(),
            Rule::Zip => b"zip".as_slice(),
            Rule::Split => b"split".as_slice(),
            Rule::Join => b"join".as_slice(),
            Rule::Transpose => b"transpose".as_slice(),
            Rule::Reverse => b"reverse".as_slice(),
            Rule::Stride => b"stride".as_slice(),
            Rule::Slide => b"slide".as_slice(),
            Rule::Pad => b"pad".as_slice(),
            Rule::Output => b"output".as_slice(),
            Rule::Length => b"length".as_slice(),
        }
    }
}

/// A limit on types.
#[derive(Clone, Copy, PartialEq, Eq)]
pub enum TypeLimit {
    /// At most 4 arrays around a scalar.
    Arrays,
    /// At most 4 scalars in a type's pairs.
    Components,
    /// At most 32 monomials in a length.
    Terms,
    /// A length's degree is at most 4.
    Degree,
    /// The coefficients of a length are from -4,294,967,296 to 4,294,967,296.
    Coefficient,
    /// At most 2,147,483,647 scalars in a component.
    Scalars,
}

/// Where a program is refused.
#[derive(Drop)]
pub enum Spot {
    /// The input of this number in the order of declaration, from 0.
    Input(u64),
    /// The node at this place of the term.
    Node(Place),
}

/// Why a program has no type, or none within the limits.
#[derive(Drop)]
pub enum TypeRefusal {
    /// The first spot breaks this rule.
    IllTyped {
        spot: Spot,
        rule: Rule,
    },
    /// The first spot passes this limit with this count. Arrays and components are counted up to
    /// 2^64 - 1.
    Limit {
        which: TypeLimit,
        spot: Spot,
        count: u128,
    },
    /// Want of memory.
    Memory,
}
