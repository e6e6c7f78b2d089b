//! Views, and how they are made.

ghost use Rattle.std.specs.Prelude.{◌≡◌, ◌+◌, ◌≤◌, ◌^◌, [], ◌∷◌, IfOk, map};
ghost use Rattle.lift_tree.specs.Types.{ty_of};
ghost use Rattle.lift_ir.specs.AtLaunch.{layout_of, shape_of, ty_at};
ghost use Rattle.lift_ir.specs.Lowering.{element_ty};
ghost use Rattle.lift_ir.specs.Scalars.{by_side};
ghost use Rattle.lift_ir.specs.Types.{width, IsShort};
ghost use Rattle.printed_form.specs.Views as printed;
ghost use Rattle.index_expr.specs.Expression.{Literal, expression_of};
ghost use Rattle.array_views.specs.Accesses.{access_at, access_of, cell_alone, sign_of, target_of};
ghost use Rattle.array_views.specs.Arrays.{array_with, spelled_shape};
ghost use Rattle.array_views.specs.Counts.{count_of};
ghost use Rattle.length_spelling.specs.Formulas.{index_formula, length_formula, spelled_length};
ghost use Rattle.array_views.specs.Stacks.{indices_in};
ghost use Rattle.array_views.specs.Layouts.{spelled_layout};
ghost use Rattle.array_views.specs.Views.{Nothing, Placed, plain_of, Both, Component, At, Reading, Writing, loads_of, plain_in, view_in};

use crate::access::{Access, Cell};
use crate::array::ArrayKind;
use crate::count::{Count, held_count};
use crate::extent::Extent;
use crate::layout::Layout;
use crate::load_set::LoadSet;
use crate::node::Node;
use crate::placed;
use crate::stack::{IndexStack, PairStack};
use index_expr::Index;
use lift_tree::term::UnaryForm;
use lift_tree::ty::Ty;
use size_arith::Names;
use std::alloc::{AllocError, Global};
use std::rc::Rc;

/// What stands for each scalar of a value, or where each scalar of it goes.
///
/// What a view is made of is shared and never copied: to make one takes room for one node and
/// its index or lengths (for a value in arrays, its type's lengths; for variables, a node
/// each), and `share` takes none.
#[derive(Drop)]
pub struct View {
    node: Rc<Node>,
}

impl View {
    // A view of one node.
    fn new(alloc: Global, node: Node) -> Result<Self, AllocError>
        ensures { IfOk result (λ v. plain_in v ≡ plain_of node) }
    {
        Ok(View {
            node: Rc::new(alloc, node)?,
        })
    }

    /// The same view.
    pub fn share(&self) -> Result<Self, AllocError>
        ensures { IfOk result (λ v. plain_in v ≡ plain_in self.now) }
    {
        Ok(View {
            node: self.node.clone()?,
        })
    }

    /// No scalar has anything that stands for it.
    pub fn nothing(alloc: Global) -> Result<Self, AllocError>
        ensures { IfOk result (λ v. plain_in v ≡ Nothing) }
    {
        View::new(alloc, Node::Nothing)
    }

    /// A value in buffers of this kind, one a component, the first of which has this number. Its
    /// lengths are spelled over the sizes.
    #[tactic(auto, using(crate::proofs::Shapes::width_spelled))]
    pub fn placed(
        alloc: Global,
        names: &Names,
        kind: ArrayKind,
        first: u32,
        ty: &Ty,
    ) -> Result<Self, AllocError>
        requires { first + width (shape_of (ty_of ty.now)) ≤ 2 ^ 32 }
        ensures plain { IfOk result (λ v. plain_in v ≡ Placed kind first
            (spelled_shape (spelled_length names.now) (shape_of (ty_of ty.now)))) }
        ensures view { IfOk result (λ v. view_in v ≡ printed.placed_view (length_formula names.now)
            (array_with kind) first (shape_of (ty_of ty.now))) }
    {
        let extent = Extent::spelled(alloc, names, ty)?;
        View::new(
            alloc,
            Node::Placed(placed::Placed {
                kind,
                first,
                extent,
            }),
        )
    }

    /// The same of a type whose lengths are numbers, as that of a copy to local or private memory.
    #[tactic(auto, using(crate::proofs::Shapes::width_spelled))]
    pub fn laid(alloc: Global, kind: ArrayKind, first: u32, ty: &Ty) -> Result<Self, AllocError>
        requires numbered { first + width (ty_at [] (ty_of ty.now)) ≤ 2 ^ 32 }
        requires short { IsShort (ty_at [] (ty_of ty.now)) }
        ensures plain { IfOk result (λ v. plain_in v ≡ Placed kind first
            (spelled_shape Literal (ty_at [] (ty_of ty.now)))) }
        ensures view { IfOk result (λ v. view_in v ≡ printed.laid_view
            (array_with kind) first (ty_at [] (ty_of ty.now))) }
    {
        let extent = Extent::literal(alloc, ty)?;
        View::new(
            alloc,
            Node::Placed(placed::Placed {
                kind,
                first,
                extent,
            }),
        )
    }

    /// An element in private variables, one a component, before which there are so many.
    pub fn held(alloc: Global, ty: &Ty, first: Count) -> Result<Self, AllocError>
        ensures { IfOk result (λ v. view_in v
            ≡ printed.held_view (element_ty (ty_of ty.now)) (count_of first)) }
    {
        match ty {
            Ty::Number | Ty::Array(_, _) => View::new(alloc, Node::Variable(first.words)),
            Ty::Vector => View::new(alloc, Node::Vector(first.fours)),
            Ty::Pair(a, b) => {
                let left = View::held(alloc, a, first)?;
                let right = View::held(alloc, b, first.more(held_count(a)?)?)?;
                View::both(alloc, left, right)
            }
        }
    }

    /// An element, once these of its scalars are loaded into private variables, before which there
    /// are so many.
    pub fn loaded(&self, alloc: Global, loads: &LoadSet, first: Count) -> Result<Self, AllocError>
        ensures { IfOk result (λ v. view_in v
            ≡ printed.loaded_view (loads_of loads.now) (view_in self.now) (count_of first)) }
    {
        match loads {
            LoadSet::Skip => self.share(),
            LoadSet::Take => View::new(alloc, Node::Variable(first.words)),
            LoadSet::TakeFour => View::new(alloc, Node::Vector(first.fours)),
            LoadSet::Each(left, right) => {
                let a = self.component(alloc, false)?.loaded(alloc, left, first)?;
                let b = self.component(alloc, true)?;
                let b = b.loaded(alloc, right, first.more(left.count()?)?)?;
                View::both(alloc, a, b)
            }
        }
    }

    /// A pair, or the pairs of two arrays' elements.
    pub fn both(alloc: Global, left: View, right: View) -> Result<Self, AllocError>
        ensures plain { IfOk result (λ v. plain_in v ≡ Both (plain_in left) (plain_in right)) }
        ensures view { IfOk result (λ v. view_in v
            ≡ by_side (λ is. printed.Blank) (view_in left) (view_in right)) }
    {
        View::new(alloc, Node::Both(left.node, right.node))
    }

    /// A side of a pair, or of an array's pairs; `true` is the second.
    pub fn component(&self, alloc: Global, second: bool) -> Result<Self, AllocError>
        ensures plain { IfOk result (λ v. plain_in v ≡ Component second (plain_in self.now)) }
        ensures view { IfOk result (λ v. view_in v
            ≡ (λ cs is. view_in self.now (second ∷ cs) is)) }
    {
        View::new(alloc, Node::Component(second, self.node.clone()?))
    }

    /// The element of an array at an index.
    pub fn at(&self, alloc: Global, index: Index) -> Result<Self, AllocError>
        ensures plain { IfOk result (λ v. plain_in v
            ≡ At (expression_of index) (plain_in self.now)) }
        ensures view { IfOk result (λ v. view_in v
            ≡ printed.view_at (index_formula (expression_of index)) (view_in self.now)) }
    {
        View::new(alloc, Node::At(index, self.node.clone()?))
    }

    /// A layout of this type over the operand, an array of that type, which
    /// this view stands for: to be read.
    ///
    /// Any form that is no layout of its own is taken for transpose, a stride
    /// too, which is lowered to three.
    pub fn reading(
        &self,
        alloc: Global,
        names: &Names,
        form: &UnaryForm,
        ty: &Ty,
        operand: &Ty,
    ) -> Result<Self, AllocError>
        ensures plain { IfOk result (λ v. plain_in v
            ≡ Reading (spelled_layout (spelled_length names.now)
            (layout_of form.now (ty_of ty.now) (ty_of operand.now))) (plain_in self.now)) }
        ensures view { IfOk result (λ v. view_in v
            ≡ printed.reshaped_view (length_formula names.now)
            (layout_of form.now (ty_of ty.now) (ty_of operand.now)) (view_in self.now)) }
    {
        let layout = Layout::of_form(alloc, names, form, ty, operand)?;
        View::new(alloc, Node::Reading(layout, self.node.clone()?))
    }

    /// Where the operand of a layout goes, where what the layout makes goes to this view: join,
    /// split, transpose and reverse write by their inverses.
    pub fn writing(
        &self,
        alloc: Global,
        names: &Names,
        form: &UnaryForm,
        ty: &Ty,
        operand: &Ty,
    ) -> Result<Self, AllocError>
        ensures plain { IfOk result (λ v. plain_in v
            ≡ Writing (spelled_layout (spelled_length names.now)
            (layout_of form.now (ty_of ty.now) (ty_of operand.now))) (plain_in self.now)) }
        ensures view { IfOk result (λ v. view_in v
            ≡ printed.rewritten_view (length_formula names.now)
            (layout_of form.now (ty_of ty.now) (ty_of operand.now)) (view_in self.now)) }
    {
        let layout = Layout::of_form(alloc, names, form, ty, operand)?;
        View::new(alloc, Node::Writing(layout, self.node.clone()?))
    }

    /// What stands for the scalar at these pair choices and indices.
    ///
    /// Where a layout would put an index of more than 262,144 nodes in two
    /// places, the answer is want of memory.
    #[tactic(auto, using(crate::proofs::Signs::sign_is))]
    pub fn access(
        &self,
        alloc: Global,
        mut choices: PairStack,
        mut indices: IndexStack,
    ) -> Result<Access, AllocError>
        ensures access { IfOk result (λ a. access_of a
            ≡ access_at (plain_in self.now) choices (indices_in indices)) }
        ensures sign { IfOk result (λ a. sign_of (access_of a)
            ≡ view_in self.now choices (map index_formula (indices_in indices))) }
    {
        self.node.access(alloc, &mut choices, &mut indices)
    }

    /// The cell that the scalar at these pair choices and indices goes to;
    /// none where no cell stands there.
    pub fn target(
        &self,
        alloc: Global,
        choices: PairStack,
        indices: IndexStack,
    ) -> Result<Option<Cell>, AllocError>
        ensures { IfOk result (λ c. target_of c
            ≡ cell_alone (access_at (plain_in self.now) choices (indices_in indices))) }
    {
        Ok(self.access(alloc, choices, indices)?.into_cell())
    }
}
