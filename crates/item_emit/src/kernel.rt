//! What a kernel declares, and its statements where one work-item runs a term, or all of them.

ghost use Rattle.std.specs.Prelude.{◌≡◌, IfOk, length, map};
ghost use Rattle.kernel_tree.specs.Code.{End};
ghost use Rattle.kernel_tree.specs.Tree.{code_then};
ghost use Rattle.lift_tree.specs.Annotations.{annotation_of, type_in};
ghost use Rattle.lift_tree.specs.Types.{ty_of};
ghost use Rattle.lift_ir.specs.AtLaunch.{shape_of};
ghost use Rattle.lift_ir.specs.Types as types;
ghost use Rattle.printed_form.specs.Counts as spec;
ghost use Rattle.printed_form.specs.Printer as printer;
ghost use Rattle.printed_form.specs.Programs as programs;
ghost use Rattle.lowering.specs.Terms.{term_of};
ghost use Rattle.item_emit.specs.Copies.{HasShortCopies};
ghost use Rattle.item_emit.specs.Inputs.{spell_in};

use crate::arguments::{Declared, buffer_count, output};
use crate::block::Block;
use crate::counts::{variable_count, width};
use crate::scope::Scope;
use crate::statements::{Site, put_written};
use array_views::Count;
use kernel_tree::tree::Stmt;
use lift_tree::ty::Ty;
use lowered_tree::lowered::Lowered;
use lowering::term::Term;
use std::alloc::{AllocError, Global};

/// The statements of a term of this type, which is written to the output by one work-item, or is a
/// map over the launch.
pub fn statements(
    alloc: Global,
    declared: &Declared,
    term: &Term,
    ty: &Ty,
) -> Result<Vec<Stmt>, AllocError>
    requires { HasShortCopies (term_of term.now) }
    ensures { IfOk result (λ ss. code_then ss.items End
        ≡ printer.kernel_code (spell_in declared.now)
        (programs.first_buffer (map ty_of declared.now.inputs.now))
        (programs.input_shape (map ty_of declared.now.inputs.now))
        (term_of term.now) (shape_of (ty_of ty.now))) }
{
    let target = output(alloc, declared.names, ty)?;
    let site = Site {
        depth: 0,
        scope: &Scope::Empty,
        array: 0,
        variable: Count::none(),
    };
    let mut block = Block::new(alloc);
    put_written(alloc, declared, &site, term, &target, &mut block)?;
    Ok(block.into_statements())
}

/// How many parameters of each kind a kernel has, and how many private variables, of a word and of
/// four words.
#[derive(Clone, Copy)]
pub struct Counts {
    pub inputs: u32,
    pub outputs: u32,
    pub sizes: u32,
    pub variables: u32,
    pub vectors: u32,
}

/// The counts of the kernel of this term of a program.
pub fn counted(lowered: &Lowered, term: &Term) -> Result<Counts, AllocError>
    ensures inputs { IfOk result
        (λ c. c.inputs ≡ programs.buffer_count (map ty_of lowered.now.inputs.items)) }
    ensures outputs { IfOk result
        (λ c. c.outputs ≡ types.width (shape_of (type_in (annotation_of lowered.now.types)))) }
    ensures sizes { IfOk result (λ c. c.sizes ≡ length lowered.now.names) }
    ensures variables { IfOk result
        (λ c. c.variables ≡ (spec.variable_count (term_of term.now)).words) }
    ensures vectors { IfOk result
        (λ c. c.vectors ≡ (spec.variable_count (term_of term.now)).fours) }
{
    let Count { words, fours } = variable_count(term)?;
    Ok(Counts {
        inputs: buffer_count(&lowered.inputs)?,
        outputs: width(lowered.types.own_type())?,
        sizes: lowered.names.as_slice().len() as u32,
        variables: words,
        vectors: fours,
    })
}
