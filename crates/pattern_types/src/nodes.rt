//! The types of a term's nodes, children before their parent.

ghost use Rattle.std.specs.Prelude.{◌≡◌, ◌≢◌, ◌<◌, IfErr, IfOk, OnOk, Err, Ok, ◌∷◌, length, map};
ghost use Rattle.lift_tree.specs.Types.{ty_of};
ghost use Rattle.lift_tree.specs.Tree as tree;
ghost use Rattle.lift_tree.specs.Tree.{tree_of};
ghost use Rattle.lift_tree.specs.declared.term.FoldKind.TheVariants as fold_kind;
ghost use Rattle.lift_tree.specs.declared.term.MapKind.TheVariants as map_kind;
ghost use Rattle.lift_tree.specs.Annotations.{annotation_of, type_in, Leaf, Two};
ghost use Rattle.pattern_types.specs.declared.fault.Fault.TheVariants.{Memory};
ghost use Rattle.lift_tree.specs.Belonging.{Belongs, FormIsNamed};
ghost use Rattle.pattern_types.specs.Judged.{judged, here, under, element_in, map_end, fold_start, fold_end, unary_node, binary_node, select_node, map_node, fold_node};
ghost use Rattle.pattern_types.specs.declared.refusal.Rule.TheVariants as rule;
ghost use Rattle.pattern_types.specs.Numbers.{NumbersFit};
ghost use Rattle.pattern_types.specs.Scopes.{nth_type, declared_as};

use crate::arrays::{element_of, formed, is_same_element};
use crate::fault::{Fault, NodeFault, demanded};
use crate::lengths::constant;
use crate::refusal::Rule;
use crate::rows::{binary, select, unary};
use lift_tree::term::{BinaryForm, Term, UnaryForm};
use lift_tree::ty::Ty;
use lift_tree::typed::NodeTypes;
use size_arith::Names;
use std::alloc::{AllocError, Global};
use std::collections::VecDeque;

// The type of this number, of a leaf.
fn leaf(alloc: Global, types: &VecDeque<Ty>, number: u32) -> Result<NodeTypes, NodeFault>
    requires { number < length (map ty_of types.now.items) }
    ensures ok { IfOk result (λ n. annotation_of n
        ≡ Leaf (nth_type (map ty_of types.now.items) number)) }
    ensures refused { IfErr result (λ e. e.fault ≡ Memory) }
{
    match nth(alloc, types, number) {
        Ok(ty) => Ok(NodeTypes::Leaf(ty)),
        Err(_) => Err(Fault::Memory.of_root(alloc)),
    }
}

fn nth(alloc: Global, types: &VecDeque<Ty>, number: u32) -> Result<Ty, AllocError>
    requires { number < length (map ty_of types.now.items) }
    ensures { IfOk result (λ t. ty_of t ≡ nth_type (map ty_of types.now.items) number) }
{
    match types.get(number as usize) {
        Some(ty) => ty.copy(alloc),
        None => unreachable!(),
    }
}

fn boxed(alloc: Global, types: NodeTypes) -> Result<Box<NodeTypes>, NodeFault>
    ensures ok { IfOk result (λ b. b.value ≡ types) }
    ensures refused { IfErr result (λ e. e.fault ≡ Memory) }
{
    match Box::new(alloc, types) {
        Ok(types) => Ok(types),
        Err(_) => Err(Fault::Memory.of_root(alloc)),
    }
}

// A binder of this type, put in front.
fn bind(alloc: Global, scope: &mut VecDeque<Ty>, ty: &Ty) -> Result<(), NodeFault>
    ensures ok { OnOk result (map ty_of scope.new.items
        ≡ ty_of ty.now ∷ map ty_of scope.old.items) }
    ensures refused { IfErr result (λ e. e.fault ≡ Memory) }
{
    match push_copy(alloc, scope, ty) {
        Ok(()) => Ok(()),
        Err(_) => Err(Fault::Memory.of_root(alloc)),
    }
}

fn push_copy(alloc: Global, scope: &mut VecDeque<Ty>, ty: &Ty) -> Result<(), AllocError>
    ensures { OnOk result (map ty_of scope.new.items ≡ ty_of ty.now ∷ map ty_of scope.old.items) }
{
    scope.push_front(ty.copy(alloc)?)?;
    Ok(())
}

// The array of the body's type, as long as the array that the map goes over.
fn map_end(alloc: Global, names: &Names, array: &Ty, body: &Ty) -> Result<Ty, Fault>
    ensures ok { IfOk result (λ t. map_end names.now (ty_of array.now) (ty_of body.now)
        ≡ Ok (ty_of t)) }
    ensures refused { IfErr result (λ f. f ≢ Memory
        → map_end names.now (ty_of array.now) (ty_of body.now) ≡ Err f) }
{
    match array {
        Ty::Array(_, length) => formed(alloc, names, body.copy(alloc)?, length.copy(alloc)?),
        Ty::Number | Ty::Vector | Ty::Pair(_, _) => Err(Fault::Breaks(Rule::Map)),
    }
}

// The element type of a map's array.
fn map_start(alloc: Global, array: &Ty) -> Result<&Ty, NodeFault>
    ensures ok { IfOk result (λ t. here (element_in rule.Map (ty_of array.now))
        ≡ Ok (ty_of t.now)) }
    ensures refused { IfErr result (λ e. here (element_in rule.Map (ty_of array.now)) ≡ Err e) }
{
    match element_of(array, Rule::Map) {
        Ok(element) => Ok(element),
        Err(fault) => Err(fault.of_root(alloc)),
    }
}

// The element type of a fold's array, where its start has an element type.
fn fold_element<'t>(array: &'t Ty, start: &Ty) -> Result<&'t Ty, Fault>
    ensures ok { IfOk result (λ t. fold_start (ty_of array.now) (ty_of start.now)
        ≡ Ok (ty_of t.now)) }
    ensures refused { IfErr result (λ f. fold_start (ty_of array.now) (ty_of start.now) ≡ Err f) }
{
    let element = element_of(array, Rule::Fold)?;
    demanded(start.is_element(), Rule::Fold)?;
    Ok(element)
}

fn fold_start<'t>(alloc: Global, array: &'t Ty, start: &Ty) -> Result<&'t Ty, NodeFault>
    ensures ok { IfOk result (λ t. here (fold_start (ty_of array.now) (ty_of start.now))
        ≡ Ok (ty_of t.now)) }
    ensures refused { IfErr result (λ e. here (fold_start (ty_of array.now) (ty_of start.now))
        ≡ Err e) }
{
    match fold_element(array, start) {
        Ok(element) => Ok(element),
        Err(fault) => Err(fault.of_root(alloc)),
    }
}

// A fold's type, where its body has the start's.
fn fold_end(alloc: Global, names: &Names, start: &Ty, body: &Ty) -> Result<Ty, Fault>
    ensures ok { IfOk result (λ t. fold_end names.now (ty_of start.now) (ty_of body.now)
        ≡ Ok (ty_of t)) }
    ensures refused { IfErr result (λ f. f ≢ Memory
        → fold_end names.now (ty_of start.now) (ty_of body.now) ≡ Err f) }
{
    demanded(is_same_element(start, body), Rule::Fold)?;
    formed(alloc, names, start.copy(alloc)?, constant(alloc, 1)?)
}

// A node, from its children.
fn unary_node(
    alloc: Global,
    names: &Names,
    form: &UnaryForm,
    a: Box<NodeTypes>,
) -> Result<NodeTypes, NodeFault>
    requires { FormIsNamed (length names.now) form.now }
    ensures ok { IfOk result (λ n. unary_node names.now form.now (annotation_of a.value)
        ≡ Ok (annotation_of n)) }
    ensures refused { IfErr result (λ e. e.fault ≢ Memory
        → unary_node names.now form.now (annotation_of a.value) ≡ Err e) }
{
    match unary(alloc, names, form, a.own_type()) {
        Ok(ty) => Ok(NodeTypes::One(ty, a)),
        Err(fault) => Err(fault.of_root(alloc)),
    }
}

fn binary_node(
    alloc: Global,
    names: &Names,
    form: BinaryForm,
    a: Box<NodeTypes>,
    b: Box<NodeTypes>,
) -> Result<NodeTypes, NodeFault>
    ensures ok { IfOk result (λ n. binary_node names.now form (annotation_of a.value)
        (annotation_of b.value) ≡ Ok (annotation_of n)) }
    ensures refused { IfErr result (λ e. e.fault ≢ Memory
        → binary_node names.now form (annotation_of a.value)
        (annotation_of b.value) ≡ Err e) }
{
    match binary(alloc, names, form, a.own_type(), b.own_type()) {
        Ok(ty) => Ok(NodeTypes::Two(ty, a, b)),
        Err(fault) => Err(fault.of_root(alloc)),
    }
}

fn select_node(
    alloc: Global,
    a: Box<NodeTypes>,
    b: Box<NodeTypes>,
    c: Box<NodeTypes>,
) -> Result<NodeTypes, NodeFault>
    ensures ok { IfOk result (λ n. select_node (annotation_of a.value) (annotation_of b.value)
        (annotation_of c.value) ≡ Ok (annotation_of n)) }
    ensures refused { IfErr result (λ e. select_node (annotation_of a.value) (annotation_of b.value)
        (annotation_of c.value) ≡ Err e) }
{
    match select(a.own_type(), b.own_type(), c.own_type()) {
        Ok(ty) => Ok(NodeTypes::Three(ty, a, b, c)),
        Err(fault) => Err(fault.of_root(alloc)),
    }
}

fn let_node(alloc: Global, a: Box<NodeTypes>, b: Box<NodeTypes>) -> Result<NodeTypes, NodeFault>
    ensures ok { IfOk result (λ n. annotation_of n
        ≡ Two (type_in (annotation_of b.value)) (annotation_of a.value)
        (annotation_of b.value)) }
    ensures refused { IfErr result (λ e. e.fault ≡ Memory) }
{
    match b.own_type().copy(alloc) {
        Ok(ty) => Ok(NodeTypes::Two(ty, a, b)),
        Err(_) => Err(Fault::Memory.of_root(alloc)),
    }
}

fn map_node(
    alloc: Global,
    names: &Names,
    a: Box<NodeTypes>,
    b: Box<NodeTypes>,
) -> Result<NodeTypes, NodeFault>
    ensures ok { IfOk result (λ n. map_node names.now (annotation_of a.value)
        (annotation_of b.value) ≡ Ok (annotation_of n)) }
    ensures refused { IfErr result (λ e. e.fault ≢ Memory
        → map_node names.now (annotation_of a.value) (annotation_of b.value)
        ≡ Err e) }
{
    match map_end(alloc, names, a.own_type(), b.own_type()) {
        Ok(ty) => Ok(NodeTypes::Two(ty, a, b)),
        Err(fault) => Err(fault.of_root(alloc)),
    }
}

fn fold_node(
    alloc: Global,
    names: &Names,
    a: Box<NodeTypes>,
    b: Box<NodeTypes>,
    c: Box<NodeTypes>,
) -> Result<NodeTypes, NodeFault>
    ensures ok { IfOk result (λ n. fold_node names.now (annotation_of a.value)
        (annotation_of b.value) (annotation_of c.value) ≡ Ok (annotation_of n)) }
    ensures refused { IfErr result (λ e. e.fault ≢ Memory
        → fold_node names.now (annotation_of a.value) (annotation_of b.value)
        (annotation_of c.value) ≡ Err e) }
{
    match fold_end(alloc, names, b.own_type(), c.own_type()) {
        Ok(ty) => Ok(NodeTypes::Three(ty, a, b, c)),
        Err(fault) => Err(fault.of_root(alloc)),
    }
}

/// The types of a term's nodes, where its binders have these types.
#[cycle(judging)]
pub fn judge(
    alloc: Global,
    names: &Names,
    inputs: &VecDeque<Ty>,
    scope: &mut VecDeque<Ty>,
    term: &Term,
) -> Result<NodeTypes, NodeFault>
    requires { Belongs (length names.now) (length (map ty_of inputs.now.items))
        (length (map ty_of scope.old.items)) (tree_of term.now) }
    ensures ok { IfOk result (λ n. judged (declared_as names.now inputs.now.items)
        (map ty_of scope.old.items) (tree_of term.now) ≡ Ok (annotation_of n)) }
    ensures numbers { IfOk result (λ _. NumbersFit (tree_of term.now)) }
    ensures kept { IfOk result (λ _. map ty_of scope.new.items ≡ map ty_of scope.old.items) }
    ensures refused { IfErr result (λ e. e.fault ≢ Memory
        → judged (declared_as names.now inputs.now.items)
        (map ty_of scope.old.items) (tree_of term.now) ≡ Err e) }
{
    match term {
        Term::Variable(n) => leaf(alloc, scope, *n),
        Term::Number(n) => {
            let _number = *n;
            Ok(NodeTypes::Leaf(Ty::Number))
        }
        Term::Input(n) => leaf(alloc, inputs, *n),
        Term::Unary(form, a) => {
            let a = judge_child(alloc, names, inputs, scope, 0, a)?;
            unary_node(alloc, names, form, a)
        }
        Term::Binary(form, a, b) => judge_binary(alloc, names, inputs, scope, *form, a, b),
        Term::Select(a, b, c) => judge_select(alloc, names, inputs, scope, a, b, c),
        Term::Let(value, body) => judge_let(alloc, names, inputs, scope, value, body),
        Term::Map(_, array, body) => judge_map(alloc, names, inputs, scope, array, body),
        Term::Fold(_, array, start, body) => {
            judge_fold(alloc, names, inputs, scope, array, start, body)
        }
    }
}

// The types of the child of this number.
#[cycle(judging)]
fn judge_child(
    alloc: Global,
    names: &Names,
    inputs: &VecDeque<Ty>,
    scope: &mut VecDeque<Ty>,
    number: u32,
    term: &Term,
) -> Result<Box<NodeTypes>, NodeFault>
    requires { Belongs (length names.now) (length (map ty_of inputs.now.items))
        (length (map ty_of scope.old.items)) (tree_of term.now) }
    ensures ok { IfOk result (λ n. under number (judged (declared_as names.now inputs.now.items)
        (map ty_of scope.old.items) (tree_of term.now)) ≡ Ok (annotation_of n.value)) }
    ensures numbers { IfOk result (λ _. NumbersFit (tree_of term.now)) }
    ensures kept { IfOk result (λ _. map ty_of scope.new.items ≡ map ty_of scope.old.items) }
    ensures refused { IfErr result (λ e. e.fault ≢ Memory
        → under number (judged (declared_as names.now inputs.now.items)
        (map ty_of scope.old.items) (tree_of term.now)) ≡ Err e) }
{
    match judge(alloc, names, inputs, scope, term) {
        Ok(types) => boxed(alloc, types),
        Err(fault) => Err(fault.under(alloc, number)),
    }
}

// The same under one more binder, of this type.
#[cycle(judging)]
fn judge_under(
    alloc: Global,
    names: &Names,
    inputs: &VecDeque<Ty>,
    scope: &mut VecDeque<Ty>,
    ty: &Ty,
    number: u32,
    term: &Term,
) -> Result<Box<NodeTypes>, NodeFault>
    requires { Belongs (length names.now) (length (map ty_of inputs.now.items))
        (length (ty_of ty.now ∷ map ty_of scope.old.items)) (tree_of term.now) }
    ensures ok { IfOk result (λ n. under number (judged (declared_as names.now inputs.now.items)
        (ty_of ty.now ∷ map ty_of scope.old.items) (tree_of term.now))
        ≡ Ok (annotation_of n.value)) }
    ensures numbers { IfOk result (λ _. NumbersFit (tree_of term.now)) }
    ensures kept { IfOk result (λ _. map ty_of scope.new.items ≡ map ty_of scope.old.items) }
    ensures refused { IfErr result (λ e. e.fault ≢ Memory
        → under number (judged (declared_as names.now inputs.now.items)
        (ty_of ty.now ∷ map ty_of scope.old.items) (tree_of term.now)) ≡ Err e) }
{
    bind(alloc, scope, ty)?;
    let types = judge_child(alloc, names, inputs, scope, number, term)?;
    scope.pop_front();
    Ok(types)
}

// The same under two more binders, of these types, the second the nearer.
#[cycle(judging)]
fn judge_under_two(
    alloc: Global,
    names: &Names,
    inputs: &VecDeque<Ty>,
    scope: &mut VecDeque<Ty>,
    outer: &Ty,
    ty: &Ty,
    number: u32,
    term: &Term,
) -> Result<Box<NodeTypes>, NodeFault>
    requires { Belongs (length names.now) (length (map ty_of inputs.now.items))
        (length (ty_of ty.now ∷ ty_of outer.now ∷ map ty_of scope.old.items)) (tree_of term.now) }
    ensures ok { IfOk result (λ n. under number (judged (declared_as names.now inputs.now.items)
        (ty_of ty.now ∷ ty_of outer.now ∷ map ty_of scope.old.items) (tree_of term.now))
        ≡ Ok (annotation_of n.value)) }
    ensures numbers { IfOk result (λ _. NumbersFit (tree_of term.now)) }
    ensures kept { IfOk result (λ _. map ty_of scope.new.items ≡ map ty_of scope.old.items) }
    ensures refused { IfErr result (λ e. e.fault ≢ Memory
        → under number (judged (declared_as names.now inputs.now.items)
        (ty_of ty.now ∷ ty_of outer.now ∷ map ty_of scope.old.items) (tree_of term.now))
        ≡ Err e) }
{
    bind(alloc, scope, outer)?;
    let types = judge_under(alloc, names, inputs, scope, ty, number, term)?;
    scope.pop_front();
    Ok(types)
}

// The types of a node and of its two children.
#[cycle(judging)]
fn judge_binary(
    alloc: Global,
    names: &Names,
    inputs: &VecDeque<Ty>,
    scope: &mut VecDeque<Ty>,
    form: BinaryForm,
    a: &Term,
    b: &Term,
) -> Result<NodeTypes, NodeFault>
    requires { Belongs (length names.now) (length (map ty_of inputs.now.items))
        (length (map ty_of scope.old.items)) (tree.Binary form (tree_of a.now) (tree_of b.now)) }
    ensures ok { IfOk result (λ n. judged (declared_as names.now inputs.now.items)
        (map ty_of scope.old.items) (tree.Binary form (tree_of a.now) (tree_of b.now))
        ≡ Ok (annotation_of n)) }
    ensures numbers { IfOk result (λ _. NumbersFit
        (tree.Binary form (tree_of a.now) (tree_of b.now))) }
    ensures kept { IfOk result (λ _. map ty_of scope.new.items ≡ map ty_of scope.old.items) }
    ensures refused { IfErr result (λ e. e.fault ≢ Memory
        → judged (declared_as names.now inputs.now.items)
        (map ty_of scope.old.items) (tree.Binary form (tree_of a.now) (tree_of b.now)) ≡ Err e) }
{
    let a = judge_child(alloc, names, inputs, scope, 0, a)?;
    let b = judge_child(alloc, names, inputs, scope, 1, b)?;
    binary_node(alloc, names, form, a, b)
}

// The types of a choice.
#[cycle(judging)]
fn judge_select(
    alloc: Global,
    names: &Names,
    inputs: &VecDeque<Ty>,
    scope: &mut VecDeque<Ty>,
    a: &Term,
    b: &Term,
    c: &Term,
) -> Result<NodeTypes, NodeFault>
    requires { Belongs (length names.now) (length (map ty_of inputs.now.items))
        (length (map ty_of scope.old.items))
        (tree.Select (tree_of a.now) (tree_of b.now) (tree_of c.now)) }
    ensures ok { IfOk result (λ n. judged (declared_as names.now inputs.now.items)
        (map ty_of scope.old.items)
        (tree.Select (tree_of a.now) (tree_of b.now) (tree_of c.now))
        ≡ Ok (annotation_of n)) }
    ensures numbers { IfOk result (λ _. NumbersFit
        (tree.Select (tree_of a.now) (tree_of b.now) (tree_of c.now))) }
    ensures kept { IfOk result (λ _. map ty_of scope.new.items ≡ map ty_of scope.old.items) }
    ensures refused { IfErr result (λ e. e.fault ≢ Memory
        → judged (declared_as names.now inputs.now.items)
        (map ty_of scope.old.items)
        (tree.Select (tree_of a.now) (tree_of b.now) (tree_of c.now)) ≡ Err e) }
{
    let a = judge_child(alloc, names, inputs, scope, 0, a)?;
    let b = judge_child(alloc, names, inputs, scope, 1, b)?;
    let c = judge_child(alloc, names, inputs, scope, 2, c)?;
    select_node(alloc, a, b, c)
}

// The types of a binding.
#[cycle(judging)]
fn judge_let(
    alloc: Global,
    names: &Names,
    inputs: &VecDeque<Ty>,
    scope: &mut VecDeque<Ty>,
    value: &Term,
    body: &Term,
) -> Result<NodeTypes, NodeFault>
    requires { Belongs (length names.now) (length (map ty_of inputs.now.items))
        (length (map ty_of scope.old.items)) (tree.Let (tree_of value.now) (tree_of body.now)) }
    ensures ok { IfOk result (λ n. judged (declared_as names.now inputs.now.items)
        (map ty_of scope.old.items) (tree.Let (tree_of value.now) (tree_of body.now))
        ≡ Ok (annotation_of n)) }
    ensures numbers { IfOk result (λ _. NumbersFit
        (tree.Let (tree_of value.now) (tree_of body.now))) }
    ensures kept { IfOk result (λ _. map ty_of scope.new.items ≡ map ty_of scope.old.items) }
    ensures refused { IfErr result (λ e. e.fault ≢ Memory
        → judged (declared_as names.now inputs.now.items)
        (map ty_of scope.old.items) (tree.Let (tree_of value.now) (tree_of body.now)) ≡ Err e) }
{
    let value = judge_child(alloc, names, inputs, scope, 0, value)?;
    let body = judge_under(alloc, names, inputs, scope, value.own_type(), 1, body)?;
    let_node(alloc, value, body)
}

// The types of a map: all kinds have the same.
#[cycle(judging)]
fn judge_map(
    alloc: Global,
    names: &Names,
    inputs: &VecDeque<Ty>,
    scope: &mut VecDeque<Ty>,
    array: &Term,
    body: &Term,
) -> Result<NodeTypes, NodeFault>
    requires { Belongs (length names.now) (length (map ty_of inputs.now.items))
        (length (map ty_of scope.old.items))
        (tree.Map map_kind.Plain (tree_of array.now) (tree_of body.now)) }
    ensures ok { IfOk result (λ n. judged (declared_as names.now inputs.now.items)
        (map ty_of scope.old.items)
        (tree.Map map_kind.Plain (tree_of array.now) (tree_of body.now))
        ≡ Ok (annotation_of n)) }
    ensures numbers { IfOk result (λ _. NumbersFit
        (tree.Map map_kind.Plain (tree_of array.now) (tree_of body.now))) }
    ensures kept { IfOk result (λ _. map ty_of scope.new.items ≡ map ty_of scope.old.items) }
    ensures refused { IfErr result (λ e. e.fault ≢ Memory
        → judged (declared_as names.now inputs.now.items)
        (map ty_of scope.old.items)
        (tree.Map map_kind.Plain (tree_of array.now) (tree_of body.now)) ≡ Err e) }
{
    let array = judge_child(alloc, names, inputs, scope, 0, array)?;
    let element = map_start(alloc, array.own_type())?;
    let body = judge_under(alloc, names, inputs, scope, element, 1, body)?;
    map_node(alloc, names, array, body)
}

// The types of a fold: both kinds have the same.
#[cycle(judging)]
fn judge_fold(
    alloc: Global,
    names: &Names,
    inputs: &VecDeque<Ty>,
    scope: &mut VecDeque<Ty>,
    array: &Term,
    start: &Term,
    body: &Term,
) -> Result<NodeTypes, NodeFault>
    requires { Belongs (length names.now) (length (map ty_of inputs.now.items))
        (length (map ty_of scope.old.items))
        (tree.Fold fold_kind.Plain (tree_of array.now) (tree_of start.now) (tree_of body.now)) }
    ensures ok { IfOk result (λ n. judged (declared_as names.now inputs.now.items)
        (map ty_of scope.old.items)
        (tree.Fold fold_kind.Plain (tree_of array.now) (tree_of start.now) (tree_of body.now))
        ≡ Ok (annotation_of n)) }
    ensures numbers { IfOk result (λ _. NumbersFit
        (tree.Fold fold_kind.Plain (tree_of array.now) (tree_of start.now) (tree_of body.now))) }
    ensures kept { IfOk result (λ _. map ty_of scope.new.items ≡ map ty_of scope.old.items) }
    ensures refused { IfErr result (λ e. e.fault ≢ Memory
        → judged (declared_as names.now inputs.now.items)
        (map ty_of scope.old.items)
        (tree.Fold fold_kind.Plain (tree_of array.now) (tree_of start.now) (tree_of body.now))
        ≡ Err e) }
{
    let array = judge_child(alloc, names, inputs, scope, 0, array)?;
    let start = judge_child(alloc, names, inputs, scope, 1, start)?;
    let element = fold_start(alloc, array.own_type(), start.own_type())?;
    let body = judge_under_two(
        alloc,
        names,
        inputs,
        scope,
        start.own_type(),
        element,
        2,
        body,
    )?;
    fold_node(alloc, names, array, start, body)
}
