//! Lowering.

ghost use Rattle.std.specs.Prelude.{◌≡◌, [], IfOk};
ghost use Rattle.lift_tree.specs.Annotations.{annotation_of};
ghost use Rattle.lift_tree.specs.Meaning.{scalar_op};
ghost use Rattle.lift_tree.specs.Tree.{tree_of};
ghost use Rattle.lift_tree.specs.Types as types;
ghost use Rattle.lift_tree.specs.Types.{ty_of};
ghost use Rattle.lift_tree.specs.declared.layout.Layout.TheVariants as layout;
ghost use Rattle.lift_tree.specs.declared.term.UnaryForm.TheVariants as unary;
ghost use Rattle.lift_ir.specs.AtLaunch as at;
ghost use Rattle.lift_ir.specs.Terms as terms;
ghost use Rattle.lift_tree.specs.declared.term.Operator.TheVariants as operator;
ghost use Rattle.lift_ir.specs.Lowering as spec;
ghost use Rattle.lowering.specs.Annotated.{lowered_at, tree_at, type_at};
ghost use Rattle.lowering.specs.Places.{place_of};
ghost use Rattle.lowering.specs.Terms.{kind_of, load_set_of, term_of};

use crate::loads::loads;
use crate::place::{Place, is_element};
use crate::strides::{by_product, product};
use crate::term::{Fold, Kind, Layout, LoadSet, Map, Space, Term};
use lift_tree::layout as forms;
use lift_tree::length::Product;
use lift_tree::term::{BinaryForm, MapKind, Operator, Term as Source, UnaryForm};
use lift_tree::ty::Ty;
use lift_tree::typed::NodeTypes;
use scalar_ops::op::{Op, Reducer};
use size_arith::{Names, Poly};
use std::alloc::{AllocError, Global};

fn op_of(reducer: Reducer) -> Op
    ensures { result ≡ scalar_op (operator.Regrouping reducer) }
{
    match reducer {
        Reducer::Add => Op::Add,
        Reducer::Mul => Op::Mul,
        Reducer::Min => Op::Min,
        Reducer::Max => Op::Max,
        Reducer::And => Op::And,
        Reducer::Or => Op::Or,
        Reducer::Xor => Op::Xor,
    }
}

fn operation(operator: Operator) -> Op
    ensures { result ≡ scalar_op operator }
{
    match operator {
        Operator::Regrouping(reducer) => op_of(reducer),
        Operator::Sub => Op::Sub,
        Operator::Shl => Op::Shl,
        Operator::Shr => Op::Shr,
        Operator::Lt => Op::Lt,
        Operator::Eq => Op::Eq,
    }
}

fn kind(kind: MapKind) -> Kind
    ensures { kind_of result ≡ spec.kind_of kind }
{
    match kind {
        MapKind::Over(level, dimension) => Kind::Over(level, dimension),
        MapKind::Plain | MapKind::Sequential => Kind::Sequential,
    }
}

// The type of an array's elements; of what is no array, its own.
fn elements(ty: &Ty) -> &Ty
    ensures { ty_of result.now ≡ spec.element_of (ty_of ty.now) }
{
    match ty {
        Ty::Array(element, _) => element,
        Ty::Number | Ty::Vector | Ty::Pair(_, _) => ty,
    }
}

// The length of an array; of what is no array, 0.
fn length(alloc: Global, ty: &Ty) -> Result<Poly, AllocError>
    ensures { IfOk result (λ n. n ≡ at.outer_of (ty_of ty.now)) }
{
    match ty {
        Ty::Array(_, length) => length.copy(alloc),
        Ty::Number | Ty::Vector | Ty::Pair(_, _) => Ok(Poly::zero(alloc)),
    }
}

fn reshaped(
    alloc: Global,
    form: &UnaryForm,
    ty: &Ty,
    operand_ty: &Ty,
    operand: Box<Term>,
) -> Result<Term, AllocError>
    ensures { IfOk result (λ t. term_of t ≡ terms.Reshape
        (at.layout_of form.now (ty_of ty.now) (ty_of operand_ty.now)) (term_of operand.value)) }
{
    let layout = Layout {
        form: form.copy(alloc)?,
        ty: ty.copy(alloc)?,
        operand: operand_ty.copy(alloc)?,
    };
    Ok(Term::Reshape(layout, operand))
}

fn array_of(alloc: Global, element: Ty, length: &Poly) -> Result<Ty, AllocError>
    ensures { IfOk result (λ t. ty_of t ≡ types.ArrayOf (ty_of element) length.now) }
{
    let length = length.copy(alloc)?;
    Ok(Ty::Array(Box::new(alloc, element)?, length))
}

// An array of arrays, of these lengths.
fn rows_of(alloc: Global, element: &Ty, row: &Poly, length: &Poly) -> Result<Ty, AllocError>
    ensures { IfOk result (λ t. ty_of t
        ≡ types.ArrayOf (types.ArrayOf (ty_of element.now) row.now) length.now) }
{
    let row = array_of(alloc, element.copy(alloc)?, row)?;
    array_of(alloc, row, length)
}

// A layout of an operand.
fn laid(
    alloc: Global,
    layout: forms::Layout,
    ty: &Ty,
    operand_ty: &Ty,
    operand: Term,
) -> Result<Term, AllocError>
    ensures { IfOk result (λ t. term_of t ≡ terms.Reshape
        (at.layout_of (unary.Layout layout) (ty_of ty.now) (ty_of operand_ty.now))
        (term_of operand)) }
{
    let form = UnaryForm::Layout(layout);
    reshaped(alloc, &form, ty, operand_ty, Box::new(alloc, operand)?)
}

// So many rows of that width each, of an array of this type: split, transposed, and one after
// another.
fn interleaved(
    alloc: Global,
    split: forms::Layout,
    operand_ty: &Ty,
    rows: &Ty,
    columns: &Ty,
    operand: Term,
) -> Result<Term, AllocError>
    ensures { IfOk result (λ t. term_of t ≡ terms.Reshape
        (at.layout_of (unary.Layout layout.Join) (ty_of operand_ty.now) (ty_of columns.now))
        (terms.Reshape
        (at.layout_of (unary.Layout layout.Transpose) (ty_of columns.now) (ty_of rows.now))
        (terms.Reshape (at.layout_of (unary.Layout split) (ty_of rows.now) (ty_of operand_ty.now))
        (term_of operand)))) }
{
    let split = laid(alloc, split, rows, operand_ty, operand)?;
    let transposed = laid(alloc, forms::Layout::Transpose, columns, rows, split)?;
    laid(alloc, forms::Layout::Join, operand_ty, columns, transposed)
}

// A stride of an array of this type: the rows of as many elements,
// transposed and one after another.
fn strided(
    alloc: Global,
    names: &Names,
    step: &Product,
    operand_ty: &Ty,
    operand: Box<Term>,
) -> Result<Term, AllocError>
    ensures { IfOk result (λ t. term_of t ≡ spec.lower_stride names.now step.now
        (ty_of operand_ty.now) (term_of operand.value)) }
{
    let width = product(alloc, names.as_slice(), step.factors())?;
    let count = by_product(alloc, &width, operand_ty)?;
    let rows = rows_of(alloc, elements(operand_ty), &width, &count)?;
    let columns = rows_of(alloc, elements(operand_ty), &count, &width)?;
    let split = forms::Layout::Split(step.copy(alloc)?);
    interleaved(
        alloc,
        split,
        operand_ty,
        &rows,
        &columns,
        Box::into_inner(operand),
    )
}

// An element term of this type where it stands: where it is written it is stored.
fn placed(alloc: Global, place: Place, ty: &Ty, term: Term) -> Result<Term, AllocError>
    ensures { IfOk result
        (λ t. term_of t ≡ spec.placed (place_of place) (ty_of ty.now) (term_of term)) }
{
    match place {
        Place::Written => {
            let term = Box::new(alloc, term)?;
            Ok(Term::Store(ty.copy(alloc)?, term))
        }
        Place::Argument | Place::Element => Ok(term),
    }
}

// The same where the type may be an array's.
fn placed_element(alloc: Global, place: Place, ty: &Ty, term: Term) -> Result<Term, AllocError>
    ensures { IfOk result
        (λ t. term_of t ≡ spec.placed_element (place_of place) (ty_of ty.now) (term_of term)) }
{
    if is_element(ty) {
        placed(alloc, place, ty, term)
    } else {
        Ok(term)
    }
}

// Whether it is a vector's type.
fn is_vector(ty: &Ty) -> bool
    ensures { result ≡ spec.is_vector (ty_of ty.now) }
{
    match ty {
        Ty::Vector => true,
        Ty::Number | Ty::Pair(_, _) | Ty::Array(_, _) => false,
    }
}

// A quotient or remainder of this type by a number.
fn divided(ty: &Ty, operator: Op, n: u32, operand: Box<Term>) -> Term
    ensures { term_of result
        ≡ spec.divided (spec.is_vector (ty_of ty.now)) operator n (term_of operand.value) }
{
    if is_vector(ty) {
        Term::DivideLanes(operator, n, operand)
    } else {
        Term::ApplyNumber(operator, n, operand)
    }
}

// A form of this type over an operand of that type.
fn formed(
    alloc: Global,
    names: &Names,
    place: Place,
    form: &UnaryForm,
    ty: &Ty,
    operand_ty: &Ty,
    operand: Box<Term>,
) -> Result<Term, AllocError>
    ensures { IfOk result (λ t. term_of t ≡ spec.lower_unary names.now (place_of place) form.now
        (ty_of ty.now) (ty_of operand_ty.now) (term_of operand.value)) }
{
    match form {
        UnaryForm::Div(n) => placed(alloc, place, ty, divided(ty, Op::Div, *n, operand)),
        UnaryForm::Rem(n) => placed(alloc, place, ty, divided(ty, Op::Rem, *n, operand)),
        UnaryForm::First => placed(alloc, place, ty, Term::First(operand)),
        UnaryForm::Second => placed(alloc, place, ty, Term::Second(operand)),
        UnaryForm::ToPrivate => Ok(Term::Copy(Space::Private, ty.copy(alloc)?, operand)),
        UnaryForm::ToLocal => Ok(Term::Copy(Space::Local, ty.copy(alloc)?, operand)),
        UnaryForm::Layout(forms::Layout::Stride(step)) => {
            strided(alloc, names, step, operand_ty, operand)
        }
        // no legal nest has a cut between kernels, and so nothing is asked of it
        UnaryForm::Then => Ok(Term::Literal(0)),
        UnaryForm::Layout(_) | UnaryForm::Slide(_, _) | UnaryForm::Pad(_, _) => {
            reshaped(alloc, form, ty, operand_ty, operand)
        }
    }
}

// An operand, and its type.
#[derive(Drop)]
struct Operand<'t> {
    term: Box<Term>,
    ty: &'t Ty,
}

// An operator of this type on two operands.
fn applied(ty: &Ty, operator: Op, left: Operand, right: Operand) -> Term
    ensures { term_of result
        ≡ spec.applied (spec.is_vector (ty_of ty.now)) (spec.is_vector (ty_of left.entry.ty.now))
        (spec.is_vector (ty_of right.entry.ty.now)) operator (term_of left.entry.term.value)
        (term_of right.entry.term.value) }
{
    if is_vector(ty) {
        Term::ApplyLanes {
            operator,
            left_vector: is_vector(left.ty),
            right_vector: is_vector(right.ty),
            left: left.term,
            right: right.term,
        }
    } else {
        Term::Apply(operator, left.term, right.term)
    }
}

// A form of two operands.
fn joined(
    alloc: Global,
    place: Place,
    form: BinaryForm,
    ty: &Ty,
    left: Operand,
    right: Operand,
) -> Result<Term, AllocError>
    ensures { IfOk result (λ t. term_of t ≡ spec.lower_binary (place_of place) form
        (ty_of ty.now) (ty_of left.entry.ty.now) (ty_of right.entry.ty.now) (term_of left.entry.term.value)
        (term_of right.entry.term.value)) }
{
    match form {
        BinaryForm::Operator(operator) => {
            let term = applied(ty, operation(operator), left, right);
            placed(alloc, place, ty, term)
        }
        BinaryForm::Pair => placed(alloc, place, ty, Term::Pair(left.term, right.term)),
        BinaryForm::Zip => Ok(Term::Zip(left.term, right.term)),
        BinaryForm::Reduce(_) => Ok(Term::Literal(0)),
    }
}

// A let of a value of this type.
fn bound(alloc: Global, ty: &Ty, value: Box<Term>, body: Box<Term>) -> Result<Term, AllocError>
    ensures { IfOk result (λ t. term_of t
        ≡ spec.lower_let (ty_of ty.now) (term_of value.value) (term_of body.value)) }
{
    if is_element(ty) {
        Ok(Term::LetElement(ty.copy(alloc)?, value, body))
    } else {
        Ok(Term::LetArray(value, body))
    }
}

// How often the body of a map or fold is run, and which scalars of an element each turn loads.
#[derive(Drop)]
struct Turns {
    length: Poly,
    loads: LoadSet,
}

// The turns over an array of this type, of a body that stands in the source so.
fn turns_over(alloc: Global, ty: &Ty, body: &Source) -> Result<Turns, AllocError>
    ensures length { IfOk result (λ t. t.length ≡ at.outer_of (ty_of ty.now)) }
    ensures loads { IfOk result (λ t. load_set_of t.loads
        ≡ spec.named 0 (spec.element_of (ty_of ty.now)) [] (tree_of body.now)) }
{
    let length = length(alloc, ty)?;
    let loads = loads(alloc, elements(ty), body)?;
    Ok(Turns { length, loads })
}

fn mapped(
    alloc: Global,
    kind: Kind,
    turns: Turns,
    array: Term,
    body: Term,
) -> Result<Term, AllocError>
    ensures { IfOk result (λ t. term_of t ≡ terms.Map (kind_of kind) turns.length
        (load_set_of turns.loads) (term_of array) (term_of body)) }
{
    let map = Map {
        kind,
        length: turns.length,
        loads: turns.loads,
        array,
        body,
    };
    Ok(Term::Map(Box::new(alloc, map)?))
}

fn folded(
    alloc: Global,
    turns: Turns,
    accumulator: &Ty,
    array: Term,
    start: Term,
    body: Term,
) -> Result<Term, AllocError>
    ensures { IfOk result (λ t. term_of t ≡ terms.Fold turns.length (load_set_of turns.loads)
        (spec.element_ty (ty_of accumulator.now)) (term_of array) (term_of start) (term_of body)) }
{
    let accumulator = accumulator.copy(alloc)?;
    let fold = Fold {
        length: turns.length,
        loads: turns.loads,
        accumulator,
        array,
        start,
        body,
    };
    Ok(Term::Fold(Box::new(alloc, fold)?))
}

// A term, and the types of its nodes.
#[derive(Clone, Copy)]
struct Annotated<'t> {
    term: &'t Source,
    types: &'t NodeTypes,
}

#[cycle(lowering)]
fn boxed(
    alloc: Global,
    names: &Names,
    place: Place,
    node: Annotated,
) -> Result<Box<Term>, AllocError>
    ensures { IfOk result
        (λ t. term_of t.value ≡ lowered_at names.now (place_of place) node.entry) }
{
    Ok(Box::new(alloc, lower_at(alloc, names, place, node)?)?)
}

// A choice by a condition, not placed.
#[cycle(lowering)]
fn lower_select(
    alloc: Global,
    names: &Names,
    condition: Annotated,
    yes: Annotated,
    no: Annotated,
) -> Result<Term, AllocError>
    ensures { IfOk result (λ t. term_of t
        ≡ terms.Select (lowered_at names.now spec.Element condition.entry)
        (lowered_at names.now spec.Element yes.entry)
        (lowered_at names.now spec.Element no.entry)) }
{
    let condition = boxed(alloc, names, Place::Element, condition)?;
    let yes = boxed(alloc, names, Place::Element, yes)?;
    let no = boxed(alloc, names, Place::Element, no)?;
    Ok(Term::Select(condition, yes, no))
}

// A let of this type, not placed.
#[cycle(lowering)]
fn lower_let(
    alloc: Global,
    names: &Names,
    place: Place,
    ty: &Ty,
    value: Annotated,
    body: Annotated,
) -> Result<Term, AllocError>
    ensures { IfOk result (λ t. term_of t ≡ spec.lower_let (type_at value.entry)
        (lowered_at names.now (spec.value_place (annotation_of value.entry.types.now)) value.entry)
        (lowered_at names.now (spec.body_place (place_of place) (ty_of ty.now)) body.entry)) }
{
    let value_ty = value.types.own_type();
    let value = boxed(alloc, names, Place::of_value(value_ty), value)?;
    let body = boxed(alloc, names, place.of_body(ty), body)?;
    bound(alloc, value_ty, value, body)
}

// A map, wherever it stands.
#[cycle(lowering)]
fn lower_map(
    alloc: Global,
    names: &Names,
    map_kind: MapKind,
    array: Annotated,
    body: Annotated,
) -> Result<Term, AllocError>
    ensures { IfOk result (λ t. term_of t
        ≡ terms.Map (spec.kind_of map_kind) (at.outer_of (type_at array.entry))
        (spec.named 0 (spec.element_of (type_at array.entry)) [] (tree_at body.entry))
        (lowered_at names.now spec.Argument array.entry)
        (lowered_at names.now spec.Written body.entry)) }
{
    let turns = turns_over(alloc, array.types.own_type(), body.term)?;
    let array = lower_at(alloc, names, Place::Argument, array)?;
    let body = lower_at(alloc, names, Place::Written, body)?;
    mapped(alloc, kind(map_kind), turns, array, body)
}

// A fold, wherever it stands.
#[cycle(lowering)]
fn lower_fold(
    alloc: Global,
    names: &Names,
    array: Annotated,
    start: Annotated,
    body: Annotated,
) -> Result<Term, AllocError>
    ensures { IfOk result (λ t. term_of t ≡ terms.Fold (at.outer_of (type_at array.entry))
        (spec.named 0 (spec.element_of (type_at array.entry)) [] (tree_at body.entry))
        (spec.element_ty (type_at start.entry))
        (lowered_at names.now spec.Argument array.entry)
        (lowered_at names.now spec.Element start.entry)
        (lowered_at names.now spec.Element body.entry)) }
{
    let turns = turns_over(alloc, array.types.own_type(), body.term)?;
    let accumulator = start.types.own_type();
    let array = lower_at(alloc, names, Place::Argument, array)?;
    let start = lower_at(alloc, names, Place::Element, start)?;
    let body = lower_at(alloc, names, Place::Element, body)?;
    folded(alloc, turns, accumulator, array, start, body)
}

// The term that a term of these types is lowered to where it stands.
#[cycle(lowering)]
fn lower_at(alloc: Global, names: &Names, place: Place, node: Annotated) -> Result<Term, AllocError>
    ensures { IfOk result
        (λ t. term_of t ≡ lowered_at names.now (place_of place) node.entry) }
{
    match (node.term, node.types) {
        (Source::Variable(v), types) => placed(alloc, place, types.own_type(), Term::Bound(*v)),
        (Source::Number(n), types) => placed(alloc, place, types.own_type(), Term::Literal(*n)),
        (Source::Input(number), _) => Ok(Term::Source(*number)),
        (Source::Unary(form, a), NodeTypes::One(ty, n)) => {
            let operand = Annotated { term: a, types: n };
            let operand = boxed(alloc, names, place.of_operand(form), operand)?;
            formed(alloc, names, place, form, ty, n.own_type(), operand)
        }
        (Source::Binary(form, a, b), NodeTypes::Two(ty, n, m)) => {
            let below = Place::of_operands(*form);
            let left = boxed(alloc, names, below, Annotated { term: a, types: n })?;
            let right = boxed(alloc, names, below, Annotated { term: b, types: m })?;
            let left = Operand {
                term: left,
                ty: n.own_type(),
            };
            let right = Operand {
                term: right,
                ty: m.own_type(),
            };
            joined(alloc, place, *form, ty, left, right)
        }
        (Source::Select(a, b, c), NodeTypes::Three(ty, n, m, k)) => {
            let condition = Annotated { term: a, types: n };
            let yes = Annotated { term: b, types: m };
            let no = Annotated { term: c, types: k };
            let choice = lower_select(alloc, names, condition, yes, no)?;
            placed(alloc, place, ty, choice)
        }
        (Source::Let(a, b), NodeTypes::Two(ty, n, m)) => {
            let value = Annotated { term: a, types: n };
            let body = Annotated { term: b, types: m };
            let whole = lower_let(alloc, names, place, ty, value, body)?;
            placed_element(alloc, place, ty, whole)
        }
        (Source::Map(map_kind, a, b), NodeTypes::Two(_, n, m)) => {
            let array = Annotated { term: a, types: n };
            let body = Annotated { term: b, types: m };
            lower_map(alloc, names, *map_kind, array, body)
        }
        (Source::Fold(_, a, b, c), NodeTypes::Three(_, n, m, k)) => {
            let array = Annotated { term: a, types: n };
            let start = Annotated { term: b, types: m };
            let body = Annotated { term: c, types: k };
            lower_fold(alloc, names, array, start, body)
        }
        _ => Ok(Term::Literal(0)),
    }
}

/// The term that a term of these types is lowered to, where the declared sizes have these ranges;
/// the whole of it is written.
pub fn lower(
    alloc: Global,
    names: &Names,
    term: &Source,
    types: &NodeTypes,
) -> Result<Term, AllocError>
    ensures { IfOk result (λ t. term_of t
        ≡ spec.lower names.now spec.Written (tree_of term.now) (annotation_of types.now)) }
{
    lower_at(alloc, names, Place::Written, Annotated { term, types })
}
