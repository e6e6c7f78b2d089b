//! The types of nodes, and the lengths of arrays.

ghost use Rattle.std.specs.Prelude.{◌≡◌, option_map};
ghost use Rattle.lift_tree.specs.Types.{ty_of};
ghost use Rattle.lift_tree.specs.Annotations.{annotation_of, type_in};
ghost use Rattle.rules_algebra.specs.Layouts.{row_length as row_length_of, same_lengths, child as child_of};
ghost use Rattle.rules_algebra.specs.Shapes.{HasPolynomial};

use lift_tree::ty::Ty;
use lift_tree::typed::NodeTypes;
use size_arith::Poly;

// The types of the only child, or the node's where it hasn't one child.
pub fn child(types: &NodeTypes) -> &NodeTypes
    ensures { annotation_of result.now ≡ child_of (annotation_of types.now) }
{
    match types {
        NodeTypes::One(_, child) => child,
        _ => types,
    }
}

// The length of the rows of an array of arrays.
fn row_length(ty: &Ty) -> Option<&Poly>
    ensures { option_map (λ n. n.now) result ≡ row_length_of (ty_of ty.now) }
{
    match ty {
        Ty::Array(row, _) => match &**row {
            Ty::Array(_, length) => Some(length),
            _ => None,
        },
        _ => None,
    }
}

// Whether both are arrays of arrays, with rows of one length.
pub fn have_same_rows(a: &Ty, b: &Ty) -> bool
    ensures { result ≡ same_lengths (row_length_of (ty_of a.now)) (row_length_of (ty_of b.now)) }
{
    match row_length(a) {
        Some(m) => match row_length(b) {
            Some(n) => m.same(n),
            None => false,
        },
        None => false,
    }
}

// Where the type is an array's, its length is a polynomial. That is known once the length is read.
pub fn has_polynomial(ty: &Ty)
    ensures { HasPolynomial (ty_of ty.now) }
{
    if let Ty::Array(_, length) = ty {
        let _length = length.as_slice();
    }
}

// Where the only child's only child is an array, its length is a polynomial. That is known once the
// length is read.
pub fn has_polynomial_below(types: &NodeTypes)
    ensures { HasPolynomial (type_in (child_of (child_of (annotation_of types.now)))) }
{
    if let Ty::Array(_, length) = child(child(types)).own_type() {
        let _length = length.as_slice();
    }
}
