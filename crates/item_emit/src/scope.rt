//! What stands for the binders in scope.

ghost use Rattle.std.specs.Prelude.{◌≡◌, IfOk};
ghost use Rattle.array_views.specs.Views.{view_in};
ghost use Rattle.item_emit.specs.Scopes.{scope_of};

use array_views::View;
use std::alloc::{AllocError, Global};

/// What stands for each binder, the nearest first.
#[derive(Clone, Copy)]
pub enum Scope<'s> {
    Empty,
    Bound(&'s View, &'s Scope<'s>),
}

impl<'s> Scope<'s> {
    /// What stands for a binder; nothing where there is none.
    #[tactic(auto, using(crate::proofs::Scopes::past))]
    pub fn view(&self, alloc: Global, binder: u32) -> Result<View, AllocError>
        ensures { IfOk result (λ v. view_in v ≡ scope_of self.now binder) }
    {
        match self {
            Scope::Empty => View::nothing(alloc),
            Scope::Bound(view, outer) => {
                if binder == 0 {
                    view.share()
                } else {
                    outer.view(alloc, binder - 1)
                }
            }
        }
    }
}
