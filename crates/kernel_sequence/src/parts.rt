//! Terms with the types of their nodes.

ghost use Rattle.std.specs.Prelude.{◌≡◌, IfOk};
ghost use Rattle.lift_tree.specs.Tree.{Input, Unary, Binary, Select, Let, Map, Fold, tree_of};
ghost use Rattle.lift_tree.specs.Types.{ty_of};
ghost use Rattle.lift_tree.specs.Annotations.{Leaf, One, Two, Three, annotation_of};
ghost use Rattle.kernel_sequence.specs.Cut as cut;
ghost use Rattle.kernel_sequence.specs.Parts.{part_of};

use lift_tree::term::{BinaryForm, FoldKind, MapKind, Term, UnaryForm};
use lift_tree::ty::Ty;
use lift_tree::typed::NodeTypes;
use lowered_tree::copies::copied_types;
use std::alloc::{AllocError, Global};

/// A term with the types of its nodes.
#[derive(Drop)]
pub struct Part {
    pub term: Term,
    pub types: NodeTypes,
}

fn boxed(alloc: Global, types: NodeTypes) -> Result<Box<NodeTypes>, AllocError>
    ensures { IfOk result (λ t. t.value ≡ types) }
{
    Ok(Box::new(alloc, types)?)
}

impl Part {
    /// A part in memory of its own.
    pub fn copied(alloc: Global, term: &Term, types: &NodeTypes) -> Result<Part, AllocError>
        ensures { IfOk result
            (λ p. part_of p ≡ cut.part (tree_of term.now) (annotation_of types.now)) }
    {
        Ok(Part {
            term: term.copy(alloc)?,
            types: copied_types(alloc, types)?,
        })
    }

    /// The input of this number and type.
    pub fn input(alloc: Global, number: u32, ty: &Ty) -> Result<Part, AllocError>
        ensures { IfOk result (λ p. part_of p ≡ cut.part (Input number) (Leaf (ty_of ty.now))) }
    {
        Ok(Part {
            term: Term::Input(number),
            types: NodeTypes::Leaf(ty.copy(alloc)?),
        })
    }

    /// The form of this type over a part.
    pub fn unary(alloc: Global, form: &UnaryForm, ty: &Ty, a: Part) -> Result<Part, AllocError>
        ensures { IfOk result (λ p. part_of p ≡ cut.part (Unary form.now (part_of a).tree)
            (One (ty_of ty.now) (part_of a).types)) }
    {
        let types = Part::one(alloc, ty, a.types)?;
        let form = form.copy(alloc)?;
        let term = Term::unary(alloc, form, a.term)?;
        Ok(Part { term, types })
    }

    // The types of a part under a node of this type.
    fn one(alloc: Global, ty: &Ty, a: NodeTypes) -> Result<NodeTypes, AllocError>
        ensures { IfOk result
            (λ t. annotation_of t ≡ One (ty_of ty.now) (annotation_of a)) }
    {
        let a = boxed(alloc, a)?;
        Ok(NodeTypes::One(ty.copy(alloc)?, a))
    }

    // The types of two.
    fn two(alloc: Global, ty: &Ty, a: NodeTypes, b: NodeTypes) -> Result<NodeTypes, AllocError>
        ensures { IfOk result (λ t. annotation_of t
            ≡ Two (ty_of ty.now) (annotation_of a) (annotation_of b)) }
    {
        let a = boxed(alloc, a)?;
        let b = boxed(alloc, b)?;
        Ok(NodeTypes::Two(ty.copy(alloc)?, a, b))
    }

    // The types of three.
    fn three(
        alloc: Global,
        ty: &Ty,
        a: NodeTypes,
        b: NodeTypes,
        c: NodeTypes,
    ) -> Result<NodeTypes, AllocError>
        ensures { IfOk result (λ t. annotation_of t
            ≡ Three (ty_of ty.now) (annotation_of a) (annotation_of b) (annotation_of c)) }
    {
        let a = boxed(alloc, a)?;
        let b = boxed(alloc, b)?;
        let c = boxed(alloc, c)?;
        Ok(NodeTypes::Three(ty.copy(alloc)?, a, b, c))
    }

    /// The form of this type over two parts.
    pub fn binary(
        alloc: Global,
        form: BinaryForm,
        ty: &Ty,
        a: Part,
        b: Part,
    ) -> Result<Part, AllocError>
        ensures { IfOk result
            (λ p. part_of p ≡ cut.part (Binary form (part_of a).tree (part_of b).tree)
            (Two (ty_of ty.now) (part_of a).types (part_of b).types)) }
    {
        let types = Part::two(alloc, ty, a.types, b.types)?;
        let term = Term::binary(alloc, form, a.term, b.term)?;
        Ok(Part { term, types })
    }

    /// A choice of this type among two parts by a third, which is the first.
    pub fn select(alloc: Global, ty: &Ty, a: Part, b: Part, c: Part) -> Result<Part, AllocError>
        ensures { IfOk result
            (λ p. part_of p ≡ cut.part (Select (part_of a).tree (part_of b).tree (part_of c).tree)
            (Three (ty_of ty.now) (part_of a).types (part_of b).types (part_of c).types)) }
    {
        let types = Part::three(alloc, ty, a.types, b.types, c.types)?;
        let term = Term::select(alloc, a.term, b.term, c.term)?;
        Ok(Part { term, types })
    }

    /// A let of this type.
    pub fn bind(alloc: Global, ty: &Ty, value: Part, body: Part) -> Result<Part, AllocError>
        ensures { IfOk result
            (λ p. part_of p ≡ cut.part (Let (part_of value).tree (part_of body).tree)
            (Two (ty_of ty.now) (part_of value).types (part_of body).types)) }
    {
        let types = Part::two(alloc, ty, value.types, body.types)?;
        let term = Term::bind(alloc, value.term, body.term)?;
        Ok(Part { term, types })
    }

    /// A map of this type.
    pub fn map(
        alloc: Global,
        kind: MapKind,
        ty: &Ty,
        array: Part,
        body: Part,
    ) -> Result<Part, AllocError>
        ensures { IfOk result
            (λ p. part_of p ≡ cut.part (Map kind (part_of array).tree (part_of body).tree)
            (Two (ty_of ty.now) (part_of array).types (part_of body).types)) }
    {
        let types = Part::two(alloc, ty, array.types, body.types)?;
        let term = Term::map(alloc, kind, array.term, body.term)?;
        Ok(Part { term, types })
    }

    /// A fold of this type.
    pub fn fold(
        alloc: Global,
        kind: FoldKind,
        ty: &Ty,
        array: Part,
        start: Part,
        body: Part,
    ) -> Result<Part, AllocError>
        ensures { IfOk result (λ p. part_of p
            ≡ cut.part (Fold kind (part_of array).tree (part_of start).tree (part_of body).tree)
            (Three (ty_of ty.now) (part_of array).types (part_of start).types (part_of body).types)) }
    {
        let types = Part::three(alloc, ty, array.types, start.types, body.types)?;
        let term = Term::fold(alloc, kind, array.term, start.term, body.term)?;
        Ok(Part { term, types })
    }
}
