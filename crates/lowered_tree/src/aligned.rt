//! Arrays that lie whole in one array of memory: what vectors of four can be read from.

ghost use Rattle.std.specs.Prelude.{◌≡◌, false, get_or, reverse};
ghost use Rattle.lift_tree.specs.Tree.{tree_of};
ghost use Rattle.lowered_tree.specs.Aligned.{is_aligned};

use lift_tree::layout::Layout;
use lift_tree::term::{Term, UnaryForm};

// Whether the binder of this number, 0 the nearest, is bound to an aligned array, or to an element
// of one. The nearest stands last.
#[tactic(auto, using(crate::proofs::Bound::bound))]
fn is_bound_aligned(binders: &[bool], number: u32) -> bool
    ensures { result ≡ get_or (reverse binders.now) number false }
{
    match binders.iter().rev().nth(number as usize) {
        Some(is_aligned) => *is_aligned,
        None => false,
    }
}

/// Whether it is an aligned array: an input, a copy to local memory, split or join of an aligned
/// array, or a variable that is bound to one, or to an element of one. What the binders are bound
/// to is told of each, the nearest last.
pub fn is_aligned(binders: &[bool], term: &Term) -> bool
    ensures { result ≡ is_aligned (reverse binders.now) (tree_of term.now) }
{
    match term {
        Term::Input(_) | Term::Unary(UnaryForm::ToLocal, _) => true,
        Term::Variable(number) => is_bound_aligned(binders, *number),
        Term::Unary(UnaryForm::Layout(Layout::Split(_) | Layout::Join), a) => {
            is_aligned(binders, a)
        }
        _ => false,
    }
}
