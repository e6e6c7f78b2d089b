//! The numbers of a term's forms that code holds.

ghost use Rattle.lift_tree.specs.Tree.{tree_of};
ghost use Rattle.lowered_tree.specs.Words.{FormHasWords, FormsHaveWords};

use lift_tree::term::{Term, UnaryForm};

fn form_has_words(form: &UnaryForm)
    ensures { FormHasWords form.now }
{
    match form {
        UnaryForm::Div(divisor) | UnaryForm::Rem(divisor) => {
            let _divisor = *divisor;
        }
        UnaryForm::Slide(_, step) => {
            let _step = *step;
        }
        UnaryForm::Pad(left, _) => {
            let _left = *left;
        }
        _ => {}
    }
}

/// The divisors, the steps of slides and the numbers before pads are below 2^32. The call does
/// nothing but read the term.
pub fn forms_have_words(term: &Term)
    ensures { FormsHaveWords (tree_of term.now) }
{
    match term {
        Term::Variable(_) | Term::Number(_) | Term::Input(_) => {}
        Term::Unary(form, a) => {
            form_has_words(form);
            forms_have_words(a);
        }
        Term::Binary(_, a, b) | Term::Let(a, b) | Term::Map(_, a, b) => {
            forms_have_words(a);
            forms_have_words(b);
        }
        Term::Select(a, b, c) | Term::Fold(_, a, b, c) => {
            forms_have_words(a);
            forms_have_words(b);
            forms_have_words(c);
        }
    }
}
