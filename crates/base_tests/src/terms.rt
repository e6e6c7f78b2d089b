//! Terms: their places, their variables renumbered, their counts and their copies.

ghost use Rattle.std.specs.Prelude.{◌≤◌, unsigned_abs};

use lift_tree::input_type::InputType;
use lift_tree::layout::Layout;
use lift_tree::length::{Factor, Length, Part, Product, Sign};
use lift_tree::place::{Place, at, replaced};
use lift_tree::program::{Identifier, Input, Program, Size};
use lift_tree::renumber::{dropped, is_renumberable, raised, substituted};
use lift_tree::term::{BinaryForm, FoldKind, MapKind, Operator, Term, UnaryForm};
use lift_tree::ty::Ty;
use lift_tree::typed::NodeTypes;
use scalar_ops::Reducer;
use size_arith::{Monomial, Name, Poly};
use std::alloc::{AllocError, Global};
use std::process::Abort;
use std::test::Fail;

fn add(alloc: Global, a: Term, b: Term) -> Result<Term, AllocError> {
    let sum = BinaryForm::Operator(Operator::Regrouping(Reducer::Add));
    Term::binary(alloc, sum, a, b)
}

fn map(alloc: Global, array: Term, body: Term) -> Result<Term, AllocError> {
    Term::map(alloc, MapKind::Plain, array, body)
}

fn fold(alloc: Global, array: Term, start: Term, body: Term) -> Result<Term, AllocError> {
    Term::fold(alloc, FoldKind::Plain, array, start, body)
}

fn place(alloc: Global, numbers: &[u32]) -> Result<Place, AllocError> {
    Ok(Place::new(numbers.to_vec(alloc)?))
}

// fold(\a x. add(a, x), 7, xs)
fn sum(alloc: Global) -> Result<Term, AllocError> {
    let body = add(alloc, Term::Variable(1), Term::Variable(0))?;
    fold(alloc, Term::Input(0), Term::Number(7), body)
}

fn shows(alloc: Global, term: &Term, want: &str) -> Result<bool, Fail> {
    Ok(format!(in alloc; "{term:?}")?.as_str() == want)
}

fn are_same(alloc: Global, first: &Term, second: &Term) -> Result<bool, Fail> {
    let text = format!(in alloc; "{first:?}")?;
    shows(alloc, second, text.as_str())
}

// slide(3, 1, reduce(min, select(0, let 3 in map(\x. x, ys), sum), 9))
fn nested(alloc: Global) -> Result<Term, AllocError> {
    let mapped = map(alloc, Term::Input(1), Term::Variable(0))?;
    let bound = Term::bind(alloc, Term::Number(3), mapped)?;
    let chosen = Term::select(alloc, Term::Number(0), bound, sum(alloc)?)?;
    let least = BinaryForm::Reduce(Reducer::Min);
    let reduced = Term::binary(alloc, least, chosen, Term::Number(9))?;
    Term::unary(alloc, UnaryForm::Slide(3, 1), reduced)
}

const LEAVES: [(&[u32], &str); 9] = [
    (&[0, 1], "Number(9)"),
    (&[0, 0, 0], "Number(0)"),
    (&[0, 0, 1, 0], "Number(3)"),
    (&[0, 0, 1, 1, 0], "Input(1)"),
    (&[0, 0, 1, 1, 1], "Variable(0)"),
    (&[0, 0, 2, 0], "Input(0)"),
    (&[0, 0, 2, 1], "Number(7)"),
    (&[0, 0, 2, 2, 0], "Variable(1)"),
    (&[0, 0, 2, 2, 1], "Variable(0)"),
];

const NO_PLACES: [&[u32]; 8] = [
    &[1],
    &[0, 2],
    &[0, 0, 3],
    &[0, 0, 1, 2],
    &[0, 0, 1, 1, 2],
    &[0, 0, 2, 3],
    &[0, 1, 0],
    &[4294967295],
];

fn is_there(alloc: Global, term: &Term, numbers: &[u32], want: &str) -> Result<bool, Fail> {
    match at(term, &place(alloc, numbers)?) {
        Some(node) => shows(alloc, node, want),
        None => Ok(false),
    }
}

fn is_no_place(alloc: Global, term: &Term, numbers: &[u32]) -> Result<bool, AllocError> {
    Ok(at(term, &place(alloc, numbers)?).is_none())
}

fn are_there(alloc: Global, term: &Term) -> Result<bool, Fail> {
    for (numbers, want) in LEAVES {
        if !is_there(alloc, term, numbers, want)? {
            return Ok(false);
        }
    }
    Ok(true)
}

fn are_no_places(alloc: Global, term: &Term) -> Result<bool, AllocError> {
    for numbers in NO_PLACES {
        if !is_no_place(alloc, term, numbers)? {
            return Ok(false);
        }
    }
    Ok(true)
}

fn is_at_the_root(alloc: Global, term: &Term) -> Result<bool, Fail> {
    match at(term, &place(alloc, &[])?) {
        Some(node) => are_same(alloc, node, term),
        None => Ok(false),
    }
}

#[test]
fn places_count_children_in_order(rt: HostRuntime) -> Result<(), Fail> {
    let term = nested(rt.alloc())?;
    assert!(rt; are_there(rt.alloc(), &term)?);
    assert!(rt; are_no_places(rt.alloc(), &term)?);
    assert!(rt; is_at_the_root(rt.alloc(), &term)?);
    Ok(())
}

#[test]
fn children_are_counted_from_0(rt: HostRuntime) -> Result<(), Fail> {
    let sum = sum(rt.alloc())?;
    assert!(rt; matches!(sum.child(0), Some(Term::Input(0))));
    assert!(rt; matches!(sum.child(1), Some(Term::Number(7))));
    assert!(rt; matches!(sum.child(2), Some(Term::Binary(_, _, _))));
    assert!(rt; sum.child(3).is_none());
    assert!(rt; Term::Number(7).child(0).is_none());
    Ok(())
}

// What the sum is with `Variable(5)` at a place.
const REPLACED: [(&[u32], &str); 4] = [
    (&[], "Variable(5)"),
    (
        &[0],
        "Fold(Plain, Variable(5), Number(7), Binary(Operator(Regrouping(Add)), Variable(1), Variable(0)))",
    ),
    (
        &[1],
        "Fold(Plain, Input(0), Variable(5), Binary(Operator(Regrouping(Add)), Variable(1), Variable(0)))",
    ),
    (
        &[2, 1],
        "Fold(Plain, Input(0), Number(7), Binary(Operator(Regrouping(Add)), Variable(1), Variable(5)))",
    ),
];

const NOT_REPLACED: [&[u32]; 3] = [&[3], &[2, 2], &[0, 0]];

fn is_replaced(alloc: Global, numbers: &[u32], want: &str) -> Result<bool, Fail> {
    match replaced(sum(alloc)?, &place(alloc, numbers)?, Term::Variable(5)) {
        Ok(term) => shows(alloc, &term, want),
        Err(_) => Ok(false),
    }
}

fn are_kept(alloc: Global, term: &Term, new: &Term) -> Result<bool, Fail> {
    Ok(are_same(alloc, term, &sum(alloc)?)? && matches!(new, Term::Variable(5)))
}

// Both terms come back.
fn is_kept(alloc: Global, numbers: &[u32]) -> Result<bool, Fail> {
    match replaced(sum(alloc)?, &place(alloc, numbers)?, Term::Variable(5)) {
        Ok(_) => Ok(false),
        Err((term, new)) => are_kept(alloc, &term, &new),
    }
}

#[test]
fn replaces_the_node_at_a_place(rt: HostRuntime) -> Result<(), Fail> {
    for (numbers, want) in REPLACED {
        assert!(rt; is_replaced(rt.alloc(), numbers, want)?);
    }
    for numbers in NOT_REPLACED {
        assert!(rt; is_kept(rt.alloc(), numbers)?);
    }
    Ok(())
}

// map(\x. add(x, add(y, z)), v), where y and z are the nearest binders around and v is y
fn open(alloc: Global) -> Result<Term, AllocError> {
    let inner = add(alloc, Term::Variable(1), Term::Variable(2))?;
    let body = add(alloc, Term::Variable(0), inner)?;
    map(alloc, Term::Variable(0), body)
}

const RAISED: [(u32, &str); 3] = [
    (
        0,
        "Map(Plain, Variable(1), Binary(Operator(Regrouping(Add)), Variable(0), Binary(Operator(Regrouping(Add)), Variable(2), Variable(3))))",
    ),
    (
        1,
        "Map(Plain, Variable(0), Binary(Operator(Regrouping(Add)), Variable(0), Binary(Operator(Regrouping(Add)), Variable(1), Variable(3))))",
    ),
    (
        2,
        "Map(Plain, Variable(0), Binary(Operator(Regrouping(Add)), Variable(0), Binary(Operator(Regrouping(Add)), Variable(1), Variable(2))))",
    ),
];

fn is_raised(
    rt: &impl Abort,
    alloc: Global,
    term: &Term,
    from: u32,
    want: &str,
) -> Result<bool, Fail> {
    assert!(rt; is_renumberable(term));
    assert!(rt; from < 10);
    shows(alloc, &raised(alloc, term, from)?, want)
}

#[test]
fn raises_at_a_binder(rt: HostRuntime) -> Result<(), Fail> {
    let term = open(rt.alloc())?;
    for (from, want) in RAISED {
        assert!(rt; is_raised(&rt, rt.alloc(), &term, from, want)?);
    }
    Ok(())
}

// What the fold below is without the binder; nothing where it names it.
const DROPPED: [(u32, &str); 5] = [
    (0, ""),
    (1, ""),
    (
        2,
        "Fold(Plain, Variable(2), Variable(0), Binary(Operator(Regrouping(Add)), Variable(1), Variable(3)))",
    ),
    (3, ""),
    (
        4,
        "Fold(Plain, Variable(3), Variable(0), Binary(Operator(Regrouping(Add)), Variable(1), Variable(3)))",
    ),
];

fn is_dropped(
    rt: &impl Abort,
    alloc: Global,
    term: &Term,
    from: u32,
    want: &str,
) -> Result<bool, Fail> {
    assert!(rt; is_renumberable(term));
    assert!(rt; from < 10);
    match dropped(alloc, term, from)? {
        Some(term) => shows(alloc, &term, want),
        None => Ok(want.is_empty()),
    }
}

#[test]
fn drops_a_binder_that_is_not_named(rt: HostRuntime) -> Result<(), Fail> {
    let alloc = rt.alloc();
    let body = add(alloc, Term::Variable(1), Term::Variable(3))?;
    let term = fold(alloc, Term::Variable(3), Term::Variable(0), body)?;
    for (from, want) in DROPPED {
        assert!(rt; is_dropped(&rt, alloc, &term, from, want)?);
    }
    Ok(())
}

const SUBSTITUTED: &str =
    "Map(Plain, Unary(First, Variable(4)), Binary(Operator(Regrouping(Add)), Variable(0), Binary(Operator(Regrouping(Add)), Unary(First, Variable(5)), Variable(1))))";

fn is_substituted(rt: &impl Abort, alloc: Global, body: &Term, value: &Term) -> Result<bool, Fail> {
    assert!(rt; is_renumberable(body));
    assert!(rt; is_renumberable(value));
    shows(alloc, &substituted(alloc, body, value)?, SUBSTITUTED)
}

#[test]
fn substitutes_for_the_nearest_binder(rt: HostRuntime) -> Result<(), Fail> {
    let body = open(rt.alloc())?;
    let value = Term::unary(rt.alloc(), UnaryForm::First, Term::Variable(4))?;
    assert!(rt; is_substituted(&rt, rt.alloc(), &body, &value)?);
    Ok(())
}

#[test]
fn small_numbers_may_be_renumbered(rt: HostRuntime) -> Result<(), Fail> {
    let alloc = rt.alloc();
    let least = Term::unary(
        alloc,
        UnaryForm::Layout(Layout::Join),
        Term::Variable(2147483647),
    )?;
    assert!(rt; is_renumberable(&least));
    let large = Term::unary(
        alloc,
        UnaryForm::Layout(Layout::Join),
        Term::Variable(2147483648),
    )?;
    assert!(rt; !is_renumberable(&large));
    Ok(())
}

fn measures(term: &Term, nodes: u64, height: u64) -> bool {
    term.node_count() == nodes && term.depth() == height
}

#[test]
fn counts_nodes_and_height(rt: HostRuntime) -> Result<(), Fail> {
    let alloc = rt.alloc();
    assert!(rt; measures(&Term::Input(0), 1, 1));
    let padded = Term::unary(alloc, UnaryForm::Pad(1, 1), Term::Input(0))?;
    assert!(rt; measures(&padded, 2, 2));
    let one_more = add(alloc, Term::Variable(0), Term::Number(1))?;
    let increments = map(alloc, padded, one_more)?;
    assert!(rt; measures(&increments, 6, 3));
    let sum = sum(alloc)?;
    assert!(rt; measures(&sum, 6, 3));
    let chosen = Term::select(alloc, sum, Term::Number(1), increments)?;
    assert!(rt; measures(&chosen, 14, 4));
    Ok(())
}

fn product(alloc: Global, factors: &[Factor]) -> Result<Product, AllocError> {
    Ok(Product::new(factors.to_vec(alloc)?))
}

// 2*N - 1
fn length(alloc: Global) -> Result<Length, AllocError> {
    let first = product(alloc, &[Factor::Number(2), Factor::Size(0)])?;
    let second = product(alloc, &[Factor::Number(1)])?;
    let mut parts = Vec::new(alloc);
    parts.push(Part {
        sign: Sign::Plus,
        product: first,
    })?;
    parts.push(Part {
        sign: Sign::Minus,
        product: second,
    })?;
    Ok(Length::new(parts))
}

// [([u32; 2*N - 1], u32)]
fn input(alloc: Global) -> Result<Input, AllocError> {
    let row = InputType::Array(Box::new(alloc, InputType::Number)?, length(alloc)?);
    let row = Box::new(alloc, row)?;
    Ok(Input {
        name: Identifier::new(b"xs".as_slice().to_vec(alloc)?),
        ty: InputType::Pair(row, Box::new(alloc, InputType::Number)?),
    })
}

fn size(alloc: Global) -> Result<Size, AllocError> {
    Ok(Size {
        name: Identifier::new(b"N".as_slice().to_vec(alloc)?),
        multiple: 2,
        from: 2,
        to: 4096,
    })
}

// A term with each kind of node.
fn varied(alloc: Global) -> Result<Term, AllocError> {
    let pieces = product(alloc, &[Factor::Size(0), Factor::Number(3)])?;
    let form = UnaryForm::Layout(Layout::Split(pieces));
    let split = Term::unary(alloc, form, Term::Input(0))?;
    let zipped = Term::binary(alloc, BinaryForm::Zip, split, sum(alloc)?)?;
    let lowered = Term::unary(alloc, UnaryForm::ToLocal, zipped)?;
    let chosen = Term::select(alloc, Term::Number(0), open(alloc)?, Term::Variable(0))?;
    Term::bind(alloc, lowered, chosen)
}

fn program(alloc: Global) -> Result<Program, AllocError> {
    let mut sizes = Vec::new(alloc);
    sizes.push(size(alloc)?)?;
    let mut inputs = Vec::new(alloc);
    inputs.push(input(alloc)?)?;
    let body = varied(alloc)?;
    Ok(Program {
        sizes,
        inputs,
        body,
    })
}

fn is_same_size(size: &Size, other: &Size) -> bool {
    size.name.bytes() == other.name.bytes()
        && size.multiple == other.multiple
        && size.from == other.from
        && size.to == other.to
}

fn is_same_input(alloc: Global, input: &Input, other: &Input) -> Result<bool, Fail> {
    let text = format!(in alloc; "{:?}", input.ty)?;
    let other_text = format!(in alloc; "{:?}", other.ty)?;
    Ok(input.name.bytes() == other.name.bytes() && text.as_str() == other_text.as_str())
}

fn are_same_sizes(sizes: &[Size], others: &[Size]) -> bool {
    match (sizes, others) {
        ([size], [other]) => is_same_size(size, other),
        _ => false,
    }
}

fn are_same_inputs(alloc: Global, inputs: &[Input], others: &[Input]) -> Result<bool, Fail> {
    match (inputs, others) {
        ([input], [other]) => is_same_input(alloc, input, other),
        _ => Ok(false),
    }
}

fn is_same_program(alloc: Global, program: &Program, other: &Program) -> Result<bool, Fail> {
    Ok(
        are_same_sizes(&program.sizes, &other.sizes)
            && are_same_inputs(alloc, &program.inputs, &other.inputs)?
            && are_same(alloc, &program.body, &other.body)?,
    )
}

#[test]
fn copies_a_program(rt: HostRuntime) -> Result<(), Fail> {
    let program = program(rt.alloc())?;
    let copy = program.copy(rt.alloc())?;
    assert!(rt; is_same_program(rt.alloc(), &program, &copy)?);
    Ok(())
}

fn is_copied(alloc: Global, form: &UnaryForm) -> Result<bool, Fail> {
    let copy = format!(in alloc; "{:?}", form.copy(alloc)?)?;
    let text = format!(in alloc; "{form:?}")?;
    Ok(copy.as_str() == text.as_str())
}

#[test]
fn copies_each_form(rt: HostRuntime) -> Result<(), Fail> {
    for form in [
        UnaryForm::Div(3),
        UnaryForm::Rem(4),
        UnaryForm::First,
        UnaryForm::Second,
        UnaryForm::Layout(Layout::Join),
        UnaryForm::Layout(Layout::Transpose),
        UnaryForm::Layout(Layout::Reverse),
        UnaryForm::Slide(3, 1),
        UnaryForm::Pad(0, 2),
        UnaryForm::ToLocal,
        UnaryForm::ToPrivate,
        UnaryForm::Then,
    ] {
        assert!(rt; is_copied(rt.alloc(), &form)?);
    }
    Ok(())
}

fn constant(alloc: Global, number: i128) -> Result<Poly, AllocError>
    requires { unsigned_abs number ≤ 100 }
{
    Poly::from_monomial(alloc, Monomial::number(number))
}

fn coefficients(alloc: Global, ty: &Ty) -> Result<Vec<i128>, AllocError> {
    let mut found = Vec::new(alloc);
    if let Ty::Pair(a, b) = ty {
        if let (Ty::Array(_, first), Ty::Array(_, second)) = (&**a, &**b) {
            for monomial in first.as_slice() {
                found.push(monomial.coefficient)?;
            }
            for monomial in second.as_slice() {
                found.push(monomial.coefficient)?;
            }
        }
    }
    Ok(found)
}

#[test]
fn copies_a_type(rt: HostRuntime) -> Result<(), Fail> {
    let alloc = rt.alloc();
    let first = Ty::Array(Box::new(alloc, Ty::Number)?, constant(alloc, 3)?);
    let second = Ty::Array(Box::new(alloc, Ty::Number)?, constant(alloc, 5)?);
    let ty = Ty::Pair(Box::new(alloc, first)?, Box::new(alloc, second)?);
    let copy = ty.copy(alloc)?;
    assert_eq!(rt; coefficients(alloc, &copy)?.as_slice(), [3, 5].as_slice());
    Ok(())
}

#[test]
fn arrays_alone_are_arrays(rt: HostRuntime) -> Result<(), Fail> {
    let alloc = rt.alloc();
    let array = Ty::Array(Box::new(alloc, Ty::Number)?, constant(alloc, 3)?);
    assert!(rt; array.is_array());
    let pair = Ty::Pair(Box::new(alloc, array)?, Box::new(alloc, Ty::Number)?);
    assert!(rt; !pair.is_array());
    assert!(rt; !Ty::Number.is_array());
    Ok(())
}

#[test]
fn the_own_type_is_the_nodes(rt: HostRuntime) -> Result<(), Fail> {
    let alloc = rt.alloc();
    let array = Ty::Array(Box::new(alloc, Ty::Number)?, constant(alloc, 3)?);
    let below = NodeTypes::Leaf(Ty::Number);
    let types = NodeTypes::One(array, Box::new(alloc, below)?);
    assert!(rt; types.own_type().is_array());
    Ok(())
}

#[test]
fn names_are_the_ranges_of_the_sizes(rt: HostRuntime) -> Result<(), Fail> {
    let alloc = rt.alloc();
    let name = Identifier::new(b"N".as_slice().to_vec(alloc)?);
    let mut sizes = Vec::new(alloc);
    sizes.push(Size {
        name,
        multiple: 2,
        from: 2,
        to: 4096,
    })?;
    let program = Program {
        sizes,
        inputs: Vec::new(alloc),
        body: Term::Number(0),
    };
    let names = program.names(alloc)?;
    let range = Name {
        multiple: 2,
        from: 2,
        to: 4096,
    };
    assert!(rt; names.as_slice() == [range].as_slice());
    Ok(())
}

#[test]
fn places_come_back_as_they_went_in(rt: HostRuntime) -> Result<(), Fail> {
    let there = place(rt.alloc(), &[2, 0])?;
    assert!(rt; there.numbers() == [2, 0].as_slice());
    assert!(rt; there.into_numbers().as_slice() == [2, 0].as_slice());
    Ok(())
}

const FACTORS: [Factor; 2] = [Factor::Size(1), Factor::Number(4)];

#[test]
fn products_come_back_as_they_went_in(rt: HostRuntime) -> Result<(), Fail> {
    let factors = product(rt.alloc(), FACTORS.as_slice())?;
    assert!(rt; factors.factors() == FACTORS.as_slice());
    assert!(rt; factors.into_factors().as_slice() == FACTORS.as_slice());
    Ok(())
}

#[test]
fn lengths_and_names_come_back_as_they_went_in(rt: HostRuntime) -> Result<(), Fail> {
    let alloc = rt.alloc();
    let length = length(alloc)?;
    assert_eq!(rt; length.parts().len(), 2);
    assert_eq!(rt; length.into_parts().len(), 2);
    let name = Identifier::new(b"ys".as_slice().to_vec(alloc)?);
    assert_eq!(rt; name.bytes(), b"ys".as_slice());
    Ok(())
}
