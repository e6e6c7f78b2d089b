//! A node of a term with what is around it, and its children.

ghost use Rattle.std.specs.Prelude.{◌≡◌, ◌∷◌, ◌<◌, Bool, List};
ghost use Rattle.lift_tree.specs.Types.{ty_of};
ghost use Rattle.lift_tree.specs.Annotations.{annotation_of, type_in};
ghost use Rattle.lift_tree.specs.Tree.{nodes, tree_of};
ghost use Rattle.lowered_tree.specs.Nest.{sites};
ghost use Rattle.lowered_tree.specs.Around.{around_of};
ghost use Rattle.lowered_tree.specs.Nodes.{own_site, sites_of, sites_among, under_last_of, nodes_of, nodes_among};

use crate::around::Around;
use lift_tree::term::Term;
use lift_tree::ty::Ty;
use lift_tree::typed::NodeTypes;

/// A node: what is around it, the term there, and the types of its own and of all nodes below it.
#[derive(Clone, Copy)]
pub struct Node<'t> {
    pub around: Around,
    pub term: &'t Term,
    pub types: &'t NodeTypes,
}

/// A node's children, in their order.
#[derive(Clone, Copy)]
pub enum Children<'t> {
    Leaf,
    One(Node<'t>),
    Two(Node<'t>, Node<'t>),
    Three(Node<'t>, Node<'t>, Node<'t>),
}

impl<'t> Node<'t> {
    /// The node's type.
    pub fn ty(self) -> &'t Ty
        ensures { ty_of result.now ≡ type_in (annotation_of self.entry.types.now) }
    {
        self.types.own_type()
    }

    /// The children, each with what is around it. A term whose types are another's has none.
    pub fn children(self) -> Children<'t>
        ensures sites { (g : List Bool) → sites_of g self.entry
            ≡ own_site g self.entry ∷ sites_among g (under_last_of g self.entry) result }
        ensures fewer { nodes_among result < nodes_of self.entry }
    {
        let around = self.around;
        match (self.term, self.types) {
            (Term::Unary(form, a), NodeTypes::One(ty, n)) => {
                Children::One(node_at(around.under_form(form, ty), a, n))
            }
            (Term::Binary(_, a, b), NodeTypes::Two(ty, n, m)) => {
                let around = around.operand(ty);
                Children::Two(node_at(around, a, n), node_at(around, b, m))
            }
            (Term::Select(a, b, c), NodeTypes::Three(ty, n, m, k)) => {
                let around = around.operand(ty);
                Children::Three(
                    node_at(around, a, n),
                    node_at(around, b, m),
                    node_at(around, c, k),
                )
            }
            (Term::Let(value, body), NodeTypes::Two(ty, n, m)) => {
                let of_element = n.own_type().is_element();
                let value = node_at(around.argument(of_element, ty), value, n);
                Children::Two(value, node_at(around.let_body(of_element, ty), body, m))
            }
            (Term::Map(kind, array, body), NodeTypes::Two(ty, n, m)) => {
                let array = node_at(around.argument(false, ty), array, n);
                Children::Two(array, node_at(around.map_body(*kind, body, ty), body, m))
            }
            (Term::Fold(_, array, start, body), NodeTypes::Three(ty, n, m, k)) => {
                let array = node_at(around.argument(false, ty), array, n);
                let start = node_at(around.operand(ty), start, m);
                Children::Three(array, start, node_at(around.fold_body(ty), body, k))
            }
            _ => Children::Leaf,
        }
    }
}

// The node of this term.
fn node_at<'t>(around: Around, term: &'t Term, types: &'t NodeTypes) -> Node<'t>
    ensures sites { (g : List Bool) → sites_of g result
        ≡ sites (around_of around g) (tree_of term.now) (annotation_of types.now) }
    ensures nodes { nodes_of result ≡ nodes (tree_of term.now) }
{
    Node {
        around,
        term,
        types,
    }
}
