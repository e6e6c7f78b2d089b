//! The pass over a kernel's statements.

ghost use Rattle.std.specs.Prelude.{◌≡◌, IfOk};
ghost use Rattle.kernel_tree.specs.Code.{Code, End};
ghost use Rattle.kernel_tree.specs.Kernels.{kernel_of};
ghost use Rattle.kernel_tree.specs.Tree.{before, code_then};
ghost use Rattle.tidy_indices.specs.Places.{plain_place};
ghost use Rattle.tidy_indices.specs.Tidy.{tidy_formula};
ghost use Rattle.tidy_kernels.specs.Pass.{tidied_kernel};
ghost use Rattle.tidy_kernels.specs.Places.{tidied_in};

use kernel_tree::tree::{Kernel, Stmt};
use size_arith::Names;
use std::alloc::{AllocError, Global};
use tidy_indices::Place;
use tidy_indices::laws::tidy_formulas_are_no_larger;

// The statements of a block, tidy. Bounds are so outside of all loops and ifs.
#[cycle(tidying)]
fn tidied_block(
    alloc: Global,
    outermost: &Place,
    here: &Place,
    block: Vec<Stmt>,
) -> Result<Vec<Stmt>, AllocError>
    ensures { IfOk result (λ statements. code_then statements.items End
        ≡ tidied_in (plain_place outermost.now) (plain_place here.now)
        (code_then block.items End)) }
{
    let mut tidied = Vec::with_capacity(alloc, block.len())?;
    for statement in block {
        tidied.push(tidied_statement(alloc, outermost, here, statement)?)?;
    }
    Ok(tidied)
}

// A statement, tidy.
#[cycle(tidying)]
fn tidied_statement(
    alloc: Global,
    outermost: &Place,
    here: &Place,
    statement: Stmt,
) -> Result<Stmt, AllocError>
    ensures { IfOk result (λ tidy. (after : Code)
        → before tidy (tidied_in (plain_place outermost.now) (plain_place here.now) after)
        ≡ tidied_in (plain_place outermost.now) (plain_place here.now) (before statement after)) }
{
    match statement {
        Stmt::Load(variable, array, index) => {
            Ok(Stmt::Load(variable, array, here.tidied(alloc, &index)?))
        }
        Stmt::Store(array, index, value) => {
            Ok(Stmt::Store(array, here.tidied(alloc, &index)?, value))
        }
        Stmt::LoadFour(vector, array, offset) => {
            Ok(Stmt::LoadFour(vector, array, here.tidied(alloc, &offset)?))
        }
        Stmt::StoreFour(array, offset, value) => {
            Ok(Stmt::StoreFour(array, here.tidied(alloc, &offset)?, value))
        }
        Stmt::Loop(start, bound, stride, body) => {
            let inside = here.inside(alloc, &bound)?;
            let body = tidied_block(alloc, outermost, &inside, body)?;
            Ok(Stmt::Loop(start, outermost.tidied(alloc, &bound)?, stride, body))
        }
        Stmt::If(start, bound, body) => {
            let guarded = here.guarded(alloc, start, &bound)?;
            let body = tidied_block(alloc, outermost, &guarded, body)?;
            Ok(Stmt::If(start, outermost.tidied(alloc, &bound)?, body))
        }
        Stmt::Assign(variable, value) => Ok(Stmt::Assign(variable, value)),
        Stmt::AssignFour(vector, value) => Ok(Stmt::AssignFour(vector, value)),
        Stmt::Barrier {
            on_local,
            on_global,
        } => Ok(Stmt::Barrier {
            on_local,
            on_global,
        }),
    }
}

/// The kernel with tidy indices and bounds: each index of a load or a store, and each offset of
/// four, is simplified in the loops and ifs around it, and each bound of a loop or an `if` outside
/// of all. An item's id in its group is known to be below the size that the kernel asks for, and
/// each id that an `if` around asks of below the bound of that.
pub fn tidied(alloc: Global, kernel: Kernel, names: &Names) -> Result<Kernel, AllocError>
    ensures { IfOk result (λ k. kernel_of k
        ≡ tidied_kernel (tidy_formula names.now kernel.local) (kernel_of kernel)) }
{
    tidy_formulas_are_no_larger();
    let outermost = Place::outside(alloc, names, kernel.local)?;
    let body = tidied_block(alloc, &outermost, &outermost, kernel.body)?;
    Ok(Kernel {
        inputs: kernel.inputs,
        outputs: kernel.outputs,
        sizes: kernel.sizes,
        locals: kernel.locals,
        privates: kernel.privates,
        variables: kernel.variables,
        vectors: kernel.vectors,
        local: kernel.local,
        body,
    })
}
