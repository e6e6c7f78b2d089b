//! The rules applied, each by its crate.

ghost use Rattle.std.specs.Prelude.{IfOk};
ghost use Rattle.lift_tree.specs.Renumbering.{IsRenumberable};
ghost use Rattle.lift_tree.specs.Tree.{tree_of};
ghost use Rattle.rewriting.specs.Answers.{IsAnswer};
ghost use Rattle.rewriting.specs.Around.{context_of};
ghost use Rattle.rewriting.specs.Keeps.{KeepsIn};
ghost use Rattle.strategy_script.specs.RuleAnswers.{answer};

use crate::rule::Rule;
use lift_tree::term::Term;
use lift_tree::typed::Context;
use rewriting::Refused;
use std::alloc::Global;

/// The term that the rule makes of the term, in the context of the term's place. It has the term's
/// type, and its value at all sizes, inputs and values of binders.
///
/// `Shape` comes exactly where the term isn't of the rule's shape, and `Side` exactly where it is,
/// with the first condition that is false; both hand the term back unchanged.
pub fn apply(alloc: Global, rule: Rule, term: Term, context: &Context) -> Result<Term, Refused>
    requires { IsRenumberable (tree_of term) }
    ensures answer { IsAnswer (answer rule (context_of context.now) (tree_of term)) term result }
    ensures keeps { IfOk result (λ u. KeepsIn (context_of context.now) (tree_of term) (tree_of u)) }
{
    match rule {
        Rule::Algebra(rule) => rules_algebra::apply(alloc, &rule, term, context),
        Rule::Split(rule) => rules_split::apply(alloc, &rule, term, context),
        Rule::Lower(rule) => rules_lower::apply(alloc, &rule, term, context),
    }
}
