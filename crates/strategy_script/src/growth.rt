//! How many nodes a term has once a let's value stands in its body, without making it.

ghost use Rattle.std.specs.Prelude.{◌≡◌, ◌+◌, ◌*◌, ◌<◌, ◌^◌, IfSome};
ghost use Rattle.lift_tree.specs.Tree.{height, tree_of};
ghost use Rattle.pattern_types.specs.Judged.{counted};
ghost use Rattle.strategy_script.specs.Inlined.{PutsInto, nodes_filled};

use crate::rule::Rule;
use crate::script::Step;
use lift_tree::place::at;
use lift_tree::term::Term;
use rules_algebra::Rule as Algebra;

/// The let's value and body, where the step puts the one into the other.
pub fn inlined_let<'t>(term: &'t Term, step: &Step) -> Option<(&'t Term, &'t Term)>
    ensures { IfSome result (λ parts. PutsInto step.now (tree_of term.now)
        (tree_of parts.0.now) (tree_of parts.1.now)) }
{
    match at(term, &step.place)? {
        Term::Let(value, body) => match step.rule {
            Rule::Algebra(Algebra::LetInline) => Some((value, body)),
            _ => None,
        },
        _ => None,
    }
}

/// The term's nodes, where each mention of the binder `from` counts so many. The count stands still
/// at 2^64 - 1.
pub fn nodes_filled(term: &Term, many: u64, from: u64) -> u64
    requires { from + 2 * height (tree_of term.now) < 2 ^ 34 }
    ensures { result ≡ counted (nodes_filled from many (tree_of term.now)) }
{
    match term {
        Term::Variable(n) => match *n as u64 == from {
            true => many,
            false => 1,
        },
        Term::Number(_) | Term::Input(_) => 1,
        Term::Unary(_, a) => nodes_filled(a, many, from).saturating_add(1),
        Term::Binary(_, a, b) => nodes_filled(a, many, from)
            .saturating_add(nodes_filled(b, many, from))
            .saturating_add(1),
        Term::Let(a, b) | Term::Map(_, a, b) => nodes_filled(a, many, from)
            .saturating_add(nodes_filled(b, many, from + 1))
            .saturating_add(1),
        Term::Select(a, b, c) => nodes_filled(a, many, from)
            .saturating_add(nodes_filled(b, many, from))
            .saturating_add(nodes_filled(c, many, from))
            .saturating_add(1),
        Term::Fold(_, a, b, c) => nodes_filled(a, many, from)
            .saturating_add(nodes_filled(b, many, from))
            .saturating_add(nodes_filled(c, many, from + 2))
            .saturating_add(1),
    }
}
