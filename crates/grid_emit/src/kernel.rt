//! The statements of a map over rows of work-groups, with the barriers between its phases.

ghost use Rattle.std.specs.Prelude.{◌≡◌, IfOk, map};
ghost use Rattle.group_form.specs.GridPrinter as printer;
ghost use Rattle.kernel_tree.specs.Code.{End};
ghost use Rattle.kernel_tree.specs.Tree.{code_then};
ghost use Rattle.lift_tree.specs.Types.{ty_of};
ghost use Rattle.lift_ir.specs.AtLaunch.{shape_of};
ghost use Rattle.printed_form.specs.Programs as programs;
ghost use Rattle.lowering.specs.Terms.{term_of};
ghost use Rattle.item_emit.specs.Copies.{HasShortCopies};
ghost use Rattle.group_emit.specs.Settings.{fence_in, spell_of};
ghost use Rattle.grid_emit.specs.Settings.{grid_forms_in};

use crate::groups::grid;
use group_emit::setting::Setting;
use item_emit::arguments::output;
use item_emit::scope::Scope;
use kernel_tree::tree::Stmt;
use lift_tree::ty::Ty;
use lowering::term::Term;
use std::alloc::{AllocError, Global};

/// The statements of a term of this type, a map over rows of work-groups around one over the groups
/// of a row, which is written to the output.
pub fn statements(
    alloc: Global,
    setting: &Setting,
    term: &Term,
    ty: &Ty,
) -> Result<Vec<Stmt>, AllocError>
    requires { HasShortCopies (term_of term.now) }
    ensures { IfOk result (λ ss. code_then ss.items End ≡ printer.grid_kernel_code
        (spell_of setting.now) (grid_forms_in setting.now)
        (programs.first_buffer (map ty_of setting.now.declared.inputs.now))
        (programs.input_shape (map ty_of setting.now.declared.inputs.now))
        (fence_in setting.now) (term_of term.now) (shape_of (ty_of ty.now))) }
{
    let target = output(alloc, setting.declared.names, ty)?;
    let block = grid(alloc, setting, &Scope::Empty, term, &target)?;
    Ok(block.into_statements())
}
