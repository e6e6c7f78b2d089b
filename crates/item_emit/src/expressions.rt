//! The expressions of element terms.

ghost use Rattle.std.specs.Prelude.{◌≡◌, [], false, IfOk, option_map};
ghost use Rattle.lift_ir.specs.Lowering.{element_ty};
ghost use Rattle.lift_ir.specs.Terms as terms;
ghost use Rattle.lift_tree.specs.Types.{ty_of};
ghost use Rattle.kernel_tree.specs.Formula as formula;
ghost use Rattle.kernel_tree.specs.Tree.{formula_of, lanes_of};
ghost use Rattle.printed_form.specs.Expressions as spec;
ghost use Rattle.printed_form.specs.Printer as printer;
ghost use Rattle.printed_form.specs.Views.{held_sign};
ghost use Rattle.array_views.specs.Counts.{count_of};
ghost use Rattle.lowering.specs.Terms.{term_of};
ghost use Rattle.item_emit.specs.Scopes.{scope_of};
ghost use Rattle.item_emit.specs.Parts.{expr_of, parts_of};

use crate::counts::let_variables;
use crate::scope::Scope;
use array_views::{Access, Count, IndexStack, PairStack, View, held_count};
use kernel_tree::tree::{Comparison, Expr, Lanes};
use lift_tree::ty::Ty;
use lowering::term::Term;
use scalar_ops::op::Op;
use std::alloc::{AllocError, Global};

/// The expression of a component: of a word, or of four words.
#[derive(Drop)]
pub enum Value {
    Word(Expr),
    Fours(Lanes),
}

fn operation(alloc: Global, op: Op, a: Expr, b: Expr) -> Result<Expr, AllocError>
    ensures { IfOk result
        (λ e. formula_of e ≡ spec.operation op (formula_of a) (formula_of b)) }
{
    match op {
        Op::Lt => Expr::choose(
            alloc,
            Comparison::Less,
            a,
            b,
            Expr::Number(1),
            Expr::Number(0),
        ),
        Op::Eq => Expr::choose(
            alloc,
            Comparison::Equal,
            a,
            b,
            Expr::Number(1),
            Expr::Number(0),
        ),
        Op::Add
        | Op::Mul
        | Op::Min
        | Op::Max
        | Op::And
        | Op::Or
        | Op::Xor
        | Op::Sub
        | Op::Shl
        | Op::Shr
        | Op::Div
        | Op::Rem => Expr::binary(alloc, op, a, b),
    }
}

fn of_both(
    alloc: Global,
    op: Op,
    a: Option<Value>,
    b: Option<Value>,
) -> Result<Option<Value>, AllocError>
    ensures { IfOk result (λ e. option_map expr_of e
        ≡ spec.of_both (spec.operation op) (option_map expr_of a) (option_map expr_of b)) }
{
    match (a, b) {
        (Some(Value::Word(a)), Some(Value::Word(b))) => {
            Ok(Some(Value::Word(operation(alloc, op, a, b)?)))
        }
        _ => Ok(None),
    }
}

fn with_number(
    alloc: Global,
    op: Op,
    a: Option<Value>,
    number: u32,
) -> Result<Option<Value>, AllocError>
    ensures { IfOk result (λ e. option_map expr_of e
        ≡ spec.of_one (λ x. formula.Binary op x (formula.Number number))
        (option_map expr_of a)) }
{
    match a {
        Some(Value::Word(a)) => {
            let value = Expr::binary(alloc, op, a, Expr::Number(number))?;
            Ok(Some(Value::Word(value)))
        }
        Some(Value::Fours(_)) | None => Ok(None),
    }
}

// The second where the first isn't 0, else the third.
fn selection(
    alloc: Global,
    condition: Option<Value>,
    yes: Option<Value>,
    no: Option<Value>,
) -> Result<Option<Value>, AllocError>
    ensures { IfOk result (λ e. option_map expr_of e ≡ spec.of_three spec.selection
        (option_map expr_of condition) (option_map expr_of yes) (option_map expr_of no)) }
{
    match (condition, yes, no) {
        (Some(Value::Word(condition)), Some(Value::Word(yes)), Some(Value::Word(no))) => {
            let zero = Expr::Number(0);
            let value = Expr::choose(alloc, Comparison::Equal, condition, zero, no, yes)?;
            Ok(Some(Value::Word(value)))
        }
        _ => Ok(None),
    }
}

// An operand of four words: a vector, or a word for all lanes.
fn in_fours(vector: bool, value: Option<Value>) -> Option<Lanes>
    ensures { option_map lanes_of result ≡ spec.in_fours vector (option_map expr_of value) }
{
    match value {
        Some(Value::Word(word)) => {
            if vector {
                None
            } else {
                Some(Lanes::Spread(word))
            }
        }
        Some(Value::Fours(lanes)) => { if vector { Some(lanes) } else { None } }
        None => None,
    }
}

// Of two operands of four, lane by lane.
fn of_lanes(
    alloc: Global,
    op: Op,
    a: Option<Lanes>,
    b: Option<Lanes>,
) -> Result<Option<Value>, AllocError>
    ensures { IfOk result (λ e. option_map expr_of e
        ≡ spec.of_lanes (formula.Each op) (option_map lanes_of a) (option_map lanes_of b)) }
{
    match (a, b) {
        (Some(a), Some(b)) => Ok(Some(Value::Fours(Lanes::each(alloc, op, a, b)?))),
        _ => Ok(None),
    }
}

// The variable that holds a component of a bound element.
fn variable(
    alloc: Global,
    scope: &Scope,
    binder: u32,
    choices: PairStack,
) -> Result<Option<Value>, AllocError>
    ensures { IfOk result (λ e. option_map expr_of e
        ≡ held_sign (scope_of scope.now binder choices [])) }
{
    let view = scope.view(alloc, binder)?;
    match view.access(alloc, choices, IndexStack::new(alloc))? {
        Access::Variable(number) => Ok(Some(Value::Word(Expr::Variable(number)))),
        Access::Vector(number) => Ok(Some(Value::Fours(Lanes::Vector(number)))),
        Access::Nothing | Access::InCell(_) => Ok(None),
    }
}

// The component of an operator's value: the one number.
#[cycle(expressions)]
fn applied(
    alloc: Global,
    op: Op,
    a: &Term,
    b: &Term,
    scope: &Scope,
    first: Count,
) -> Result<Option<Value>, AllocError>
    ensures { IfOk result (λ e. option_map expr_of e ≡ printer.sign_exprs (scope_of scope.now)
        (count_of first) (terms.Apply op (term_of a.now) (term_of b.now)) []) }
{
    let second = first.more(let_variables(a)?)?;
    let a = component(alloc, a, scope, first, PairStack::new(alloc))?;
    let b = component(alloc, b, scope, second, PairStack::new(alloc))?;
    of_both(alloc, op, a, b)
}

// The component of a quotient or remainder by a number: the one number.
#[cycle(expressions)]
fn divided(
    alloc: Global,
    op: Op,
    number: u32,
    a: &Term,
    scope: &Scope,
    first: Count,
) -> Result<Option<Value>, AllocError>
    ensures { IfOk result (λ e. option_map expr_of e ≡ printer.sign_exprs (scope_of scope.now)
        (count_of first) (terms.ApplyNumber op number (term_of a.now)) []) }
{
    let a = component(alloc, a, scope, first, PairStack::new(alloc))?;
    with_number(alloc, op, a, number)
}

// The component of an operator's value lane by lane: the one vector.
#[cycle(expressions)]
fn laned(
    alloc: Global,
    op: Op,
    vectors: (bool, bool),
    a: &Term,
    b: &Term,
    scope: &Scope,
    first: Count,
) -> Result<Option<Value>, AllocError>
    ensures { IfOk result (λ e. option_map expr_of e ≡ printer.sign_exprs (scope_of scope.now)
        (count_of first) (terms.ApplyLanes op vectors.0 vectors.1 (term_of a.now) (term_of b.now))
        []) }
{
    let second = first.more(let_variables(a)?)?;
    let a = component(alloc, a, scope, first, PairStack::new(alloc))?;
    let b = component(alloc, b, scope, second, PairStack::new(alloc))?;
    let (left, right) = vectors;
    of_lanes(alloc, op, in_fours(left, a), in_fours(right, b))
}

// The component of a quotient or remainder of each lane by a number: the one vector.
#[cycle(expressions)]
fn divided_lanes(
    alloc: Global,
    op: Op,
    number: u32,
    a: &Term,
    scope: &Scope,
    first: Count,
) -> Result<Option<Value>, AllocError>
    ensures { IfOk result (λ e. option_map expr_of e ≡ printer.sign_exprs (scope_of scope.now)
        (count_of first) (terms.DivideLanes op number (term_of a.now)) []) }
{
    let a = component(alloc, a, scope, first, PairStack::new(alloc))?;
    let divisor = Lanes::Spread(Expr::Number(number));
    of_lanes(alloc, op, in_fours(true, a), Some(divisor))
}

#[cycle(expressions)]
fn selected(
    alloc: Global,
    condition: &Term,
    yes: &Term,
    no: &Term,
    scope: &Scope,
    first: Count,
) -> Result<Option<Value>, AllocError>
    ensures { IfOk result (λ e. option_map expr_of e ≡ printer.sign_exprs (scope_of scope.now)
        (count_of first) (terms.Select (term_of condition.now) (term_of yes.now) (term_of no.now))
        []) }
{
    let second = first.more(let_variables(condition)?)?;
    let third = second.more(let_variables(yes)?)?;
    let condition = component(alloc, condition, scope, first, PairStack::new(alloc))?;
    let yes = component(alloc, yes, scope, second, PairStack::new(alloc))?;
    let no = component(alloc, no, scope, third, PairStack::new(alloc))?;
    selection(alloc, condition, yes, no)
}

// A component of a pair, or of a zip, which has the same.
#[cycle(expressions)]
fn side(
    alloc: Global,
    a: &Term,
    b: &Term,
    scope: &Scope,
    first: Count,
    mut choices: PairStack,
) -> Result<Option<Value>, AllocError>
    ensures { IfOk result (λ e. option_map expr_of e ≡ printer.sign_exprs (scope_of scope.now)
        (count_of first) (terms.Both false (term_of a.now) (term_of b.now)) choices) }
{
    match choices.pop() {
        None => Ok(None),
        Some(false) => component(alloc, a, scope, first, choices),
        Some(true) => component(alloc, b, scope, first.more(let_variables(a)?)?, choices),
    }
}

#[cycle(expressions)]
fn bound(
    alloc: Global,
    ty: &Ty,
    value: &Term,
    body: &Term,
    scope: &Scope,
    first: Count,
    choices: PairStack,
) -> Result<Option<Value>, AllocError>
    ensures { IfOk result (λ e. option_map expr_of e ≡ printer.sign_exprs (scope_of scope.now)
        (count_of first) (terms.LetElement (element_ty (ty_of ty.now)) (term_of value.now)
        (term_of body.now)) choices) }
{
    let variable = first.more(let_variables(value)?)?;
    let next = variable.more(held_count(ty)?)?;
    let held = View::held(alloc, ty, variable)?;
    component(alloc, body, &Scope::Bound(&held, scope), next, choices)
}

// A component of one part of a pair.
#[cycle(expressions)]
fn projected(
    alloc: Global,
    a: &Term,
    scope: &Scope,
    first: Count,
    second: bool,
    mut choices: PairStack,
) -> Result<Option<Value>, AllocError>
    ensures { IfOk result (λ e. option_map expr_of e ≡ printer.sign_exprs (scope_of scope.now)
        (count_of first) (terms.Project second (term_of a.now)) choices) }
{
    choices.push(second)?;
    component(alloc, a, scope, first, choices)
}

/// The expression of a component of an element term before whose variables there are so many.
#[cycle(expressions)]
pub fn component(
    alloc: Global,
    term: &Term,
    scope: &Scope,
    first: Count,
    choices: PairStack,
) -> Result<Option<Value>, AllocError>
    ensures { IfOk result (λ e. option_map expr_of e
        ≡ printer.sign_exprs (scope_of scope.now) (count_of first) (term_of term.now) choices) }
{
    match term {
        Term::Literal(number) => Ok(Some(Value::Word(Expr::Number(*number)))),
        Term::Bound(binder) => variable(alloc, scope, *binder, choices),
        Term::Apply(op, a, b) => applied(alloc, *op, a, b, scope, first),
        Term::ApplyNumber(op, number, a) => divided(alloc, *op, *number, a, scope, first),
        Term::ApplyLanes {
            operator,
            left_vector,
            right_vector,
            left,
            right,
        } => {
            let vectors = (*left_vector, *right_vector);
            laned(alloc, *operator, vectors, left, right, scope, first)
        }
        Term::DivideLanes(op, number, a) => divided_lanes(alloc, *op, *number, a, scope, first),
        Term::Select(condition, yes, no) => selected(alloc, condition, yes, no, scope, first),
        Term::Pair(a, b) | Term::Zip(a, b) => side(alloc, a, b, scope, first, choices),
        Term::First(a) => projected(alloc, a, scope, first, false, choices),
        Term::Second(a) => projected(alloc, a, scope, first, true, choices),
        Term::LetElement(ty, value, body) => bound(alloc, ty, value, body, scope, first, choices),
        Term::Source(_)
        | Term::Reshape(_, _)
        | Term::LetArray(_, _)
        | Term::Map(_)
        | Term::Fold(_)
        | Term::Store(_, _)
        | Term::Copy(_, _, _) => Ok(None),
    }
}

/// A part of an element term.
#[derive(Clone, Copy)]
pub enum Part<'p> {
    /// All of a term, before whose variables there are so many.
    Whole(&'p Scope<'p>, Count, &'p Term),
    /// The first part of that part.
    First(&'p Part<'p>),
    /// The second part of that part.
    Second(&'p Part<'p>),
}

impl<'p> Part<'p> {
    // The expression of a component of the part.
    fn component(&self, alloc: Global, mut choices: PairStack) -> Result<Option<Value>, AllocError>
        ensures { IfOk result
            (λ e. option_map expr_of e ≡ parts_of self.now choices) }
    {
        match self {
            Part::Whole(scope, first, term) => component(alloc, term, scope, *first, choices),
            Part::First(whole) => {
                choices.push(false)?;
                whole.component(alloc, choices)
            }
            Part::Second(whole) => {
                choices.push(true)?;
                whole.component(alloc, choices)
            }
        }
    }

    /// The expression of a part that is a number.
    pub fn number(&self, alloc: Global) -> Result<Expr, AllocError>
        ensures { IfOk result
            (λ e. formula_of e ≡ printer.or_number (parts_of self.now [])) }
    {
        match self.component(alloc, PairStack::new(alloc))? {
            Some(Value::Word(expression)) => Ok(expression),
            Some(Value::Fours(_)) | None => Ok(Expr::Number(0)),
        }
    }

    /// The expression of a part that is a vector.
    pub fn lanes(&self, alloc: Global) -> Result<Lanes, AllocError>
        ensures { IfOk result
            (λ e. lanes_of e ≡ printer.or_lanes (parts_of self.now [])) }
    {
        match self.component(alloc, PairStack::new(alloc))? {
            Some(Value::Fours(lanes)) => Ok(lanes),
            Some(Value::Word(_)) | None => Ok(Lanes::Spread(Expr::Number(0))),
        }
    }
}
