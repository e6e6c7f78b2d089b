//! Lowered terms of typed ones.

ghost use Rattle.std.specs.Prelude.{◌≡◌, IfOk, map};
ghost use Rattle.lift_tree.specs.Annotations.{annotation_of};
ghost use Rattle.lift_tree.specs.Programs.{program_of};
ghost use Rattle.lift_tree.specs.Tree.{tree_of};
ghost use Rattle.lift_tree.specs.Types.{ty_of};
ghost use Rattle.lift_tree.specs.Typing.{declared_by};
ghost use Rattle.lowered_tree.specs.Whole.{IsTypedWithin};
ghost use Rattle.lowered_tree.specs.Words.{FormsHaveWords};

use crate::copies::copied_types;
use crate::lowered::Lowered;
use crate::words::forms_have_words;
use lift_tree::typed::Typed;
use pattern_types::input_types;
use std::alloc::{AllocError, Global};

/// The typed term, with what it may name. It keeps the term, and so its value, and its types.
///
/// The term is typed within the limits and copies nothing but arrays,
/// as each term of a script does.
pub fn lowered(alloc: Global, typed: &Typed) -> Result<Lowered, AllocError>
    requires { IsTypedWithin (program_of typed.now.program)
        (tree_of typed.now.term) (annotation_of typed.now.types) }
    ensures names { IfOk result
        (λ l. l.names ≡ (declared_by (program_of typed.now.program)).names) }
    ensures inputs { IfOk result
        (λ l. map ty_of l.inputs.items ≡ (declared_by (program_of typed.now.program)).inputs) }
    ensures term { IfOk result (λ l. tree_of l.term ≡ tree_of typed.now.term) }
    ensures types { IfOk result (λ l. annotation_of l.types ≡ annotation_of typed.now.types) }
    ensures words { IfOk result (λ _. FormsHaveWords (tree_of typed.now.term)) }
{
    forms_have_words(&typed.term);
    Ok(Lowered {
        names: typed.program.names(alloc)?,
        inputs: input_types(alloc, &typed.program)?,
        term: typed.term.copy(alloc)?,
        types: copied_types(alloc, &typed.types)?,
    })
}
