//! Places in a term.

ghost use Rattle.std.specs.Prelude.{◌≡◌, ◌∷◌, Some, None, IfOk, IfErr, OnOk, option_map};
ghost use Rattle.lift_tree.specs.Tree as tree;
ghost use Rattle.lift_tree.specs.Tree.{tree_of};
ghost use Rattle.lift_tree.specs.Places.{node_at, with_at};

use crate::term::Term;
use std::marker::Model;

/// A place: the numbers of the children on the way from the root, each counted from 0. Contracts
/// see the list of these numbers.
#[derive(Debug, Drop)]
pub struct Place {
    numbers: Vec<u32>,
}

impl Model for Place {
    ghost use Rattle.std.specs.Prelude.{List, ℕ};

    ghost Value = { List ℕ };

    ghost view = { λ p. p.numbers.items };
}

impl Place {
    /// The place that these child numbers lead to.
    pub fn new(numbers: Vec<u32>) -> Self
        ensures { result ≡ numbers.items }
    {
        Place { numbers }
    }

    /// The child numbers in order.
    pub fn numbers(&self) -> &[u32]
        ensures { result.now ≡ self.now }
    {
        self.numbers.as_slice()
    }

    /// The child numbers, moved out.
    pub fn into_numbers(self) -> Vec<u32>
        ensures { result.items ≡ self }
    {
        self.numbers
    }
}

/// The node at a place. None exactly where there is no such place.
pub fn at<'t>(term: &'t Term, place: &Place) -> Option<&'t Term>
    ensures { option_map (λ t. tree_of t.now) result ≡ node_at (tree_of term.now) place.now }
{
    below(term, place.numbers())
}

fn below<'t>(term: &'t Term, numbers: &[u32]) -> Option<&'t Term>
    ensures { option_map (λ t. tree_of t.now) result ≡ node_at (tree_of term.now) numbers.now }
{
    let Some((first, rest)) = numbers.split_first() else {
        return Some(term);
    };
    below(term.child(*first)?, rest)
}

/// The term with another node at a place. Both terms come back unchanged
/// exactly where there is no such place.
pub fn replaced(mut term: Term, place: &Place, new: Term) -> Result<Term, (Term, Term)>
    ensures ok { IfOk result (λ t. with_at (tree_of term) place.now (tree_of new)
        ≡ Some (tree_of t)) }
    ensures none { IfErr result (λ both. node_at (tree_of term) place.now ≡ None) }
    ensures kept { IfErr result (λ both. (both.0 ≡ term) × (both.1 ≡ new)) }
{
    match put_at(&mut term, place.numbers(), new) {
        Ok(()) => Ok(term),
        Err(new) => Err((term, new)),
    }
}

// Puts the new node at the place, and gives it back where there is no such place.
#[cycle(putting)]
fn put_at(term: &mut Term, numbers: &[u32], new: Term) -> Result<(), Term>
    ensures ok { OnOk result (with_at (tree_of term.old) numbers.now (tree_of new)
        ≡ Some (tree_of term.new)) }
    ensures none { IfErr result (λ t. node_at (tree_of term.old) numbers.now ≡ None) }
    ensures kept { IfErr result (λ t. (t ≡ new) × (term.new ≡ term.old)) }
{
    match numbers.split_first() {
        None => {
            *term = new;
            Ok(())
        }
        Some((first, rest)) => put_in_child(term, *first, rest, new),
    }
}

// The same in the child of this number.
#[tactic(auto, using(crate::proofs::Replaced::other_forms))]
#[cycle(putting)]
fn put_in_child(term: &mut Term, number: u32, rest: &[u32], new: Term) -> Result<(), Term>
    ensures ok { OnOk result (with_at (tree_of term.old) (number ∷ rest.now) (tree_of new)
        ≡ Some (tree_of term.new)) }
    ensures none { IfErr result (λ t. node_at (tree_of term.old) (number ∷ rest.now) ≡ None) }
    ensures kept { IfErr result (λ t. (t ≡ new) × (term.new ≡ term.old)) }
{
    match term {
        Term::Variable(_) | Term::Number(_) | Term::Input(_) => Err(new),
        Term::Unary(_, a) => match number {
            0 => put_at(a, rest, new),
            _ => Err(new),
        },
        Term::Binary(_, a, b) => put_in_two(a, b, number, rest, new),
        Term::Select(a, b, c) => put_in_three(a, b, c, number, rest, new),
        Term::Let(a, b) => put_in_two(a, b, number, rest, new),
        Term::Map(_, a, b) => put_in_two(a, b, number, rest, new),
        Term::Fold(_, a, b, c) => put_in_three(a, b, c, number, rest, new),
    }
}

// The same in the child of this number of two children, here those of a binding.
#[cycle(putting)]
fn put_in_two(a: &mut Term, b: &mut Term, number: u32, rest: &[u32], new: Term) -> Result<(), Term>
    ensures ok { OnOk result (with_at (tree.Let (tree_of a.old) (tree_of b.old))
        (number ∷ rest.now) (tree_of new) ≡ Some (tree.Let (tree_of a.new) (tree_of b.new))) }
    ensures none { IfErr result (λ t. node_at (tree.Let (tree_of a.old) (tree_of b.old))
        (number ∷ rest.now) ≡ None) }
    ensures kept { IfErr result (λ t. (t ≡ new) × (a.new ≡ a.old) × (b.new ≡ b.old)) }
{
    match number {
        0 => put_at(a, rest, new),
        1 => put_at(b, rest, new),
        _ => Err(new),
    }
}

// The same in the child of this number of three children, here those of a selection.
#[cycle(putting)]
fn put_in_three(
    a: &mut Term,
    b: &mut Term,
    c: &mut Term,
    number: u32,
    rest: &[u32],
    new: Term,
) -> Result<(), Term>
    ensures ok { OnOk result (with_at (tree.Select (tree_of a.old) (tree_of b.old) (tree_of c.old))
        (number ∷ rest.now) (tree_of new)
        ≡ Some (tree.Select (tree_of a.new) (tree_of b.new) (tree_of c.new))) }
    ensures none { IfErr result (λ t. node_at (tree.Select (tree_of a.old) (tree_of b.old)
        (tree_of c.old)) (number ∷ rest.now) ≡ None) }
    ensures kept { IfErr result (λ t. (t ≡ new) × (a.new ≡ a.old) × (b.new ≡ b.old)
        × (c.new ≡ c.old)) }
{
    match number {
        0 => put_at(a, rest, new),
        1 => put_at(b, rest, new),
        2 => put_at(c, rest, new),
        _ => Err(new),
    }
}
