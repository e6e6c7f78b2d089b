//! What memory begins with.
ghost use Rattle.std.specs.Prelude.{◌≡◌, ◌++◌, List, IfOk, OnOk, map};
ghost use Rattle.size_arith.specs.declared.names.Name.{Name};
ghost use Rattle.lift_tree.specs.Launches.{buffers_of};
ghost use Rattle.lift_tree.specs.Programs.{input_of, program_of};
ghost use Rattle.lift_tree.specs.Types.{ty_of};
ghost use Rattle.lift_tree.specs.Typing.{declared_by};
ghost use Rattle.lift_tree.specs.Values.{value_of};
ghost use Rattle.lift_tree.specs.WorkedOut.{worked_out};
ghost use Rattle.value_lists.specs.Lists.{IsSmall};
ghost use Rattle.launch_file.specs.LaunchFile.{given_by};
ghost use Rattle.lift_tree.specs.FixedSizes.{asked};
ghost use Rattle.program_runs.specs.Runs.{IsAdmissibleFor, begun, world_given};
ghost use Rattle.program_runs.specs.Sequences.{begun_from};

use compilation::Compiled;
use kernel_tree::launches::Cells;
use launch_file::file::LaunchFile;
use lift_tree::program::{Input, Program};
use lift_tree::ty::Ty;
use lift_tree::value::Val;
use size_arith::Sizes;
use std::alloc::{AllocError, Global};
use value_lists::laws::ways_are_components;
use value_lists::{add_lists, blank_lists};

// Adds the lists of the inputs' values.
#[tactic(auto, using(crate::proofs::Buffers::holding))]
fn add_inputs(
    alloc: Global,
    inputs: &[Input],
    values: &[Val],
    lists: &mut Vec<Vec<u32>>,
) -> Result<(), AllocError>
    ensures { OnOk result ((names : List Name) → map (λ l. l.items) lists.new.items
        ≡ map (λ l. l.items) lists.old.items
        ++ buffers_of (map (λ i. worked_out names i.ty) (map input_of inputs.now))
        (map value_of values.now)) }
{
    ways_are_components();
    match (inputs, values) {
        ([input, inputs @ ..], [value, values @ ..]) => {
            add_lists(alloc, &input.ty, value, lists)?;
            add_inputs(alloc, inputs, values, lists)
        }
        _ => Ok(()),
    }
}

/// The lists of the inputs' values, as their buffers hold them.
pub fn input_lists(
    alloc: Global,
    program: &Program,
    values: &[Val],
) -> Result<Vec<Vec<u32>>, AllocError>
    ensures { IfOk result (λ lists. map (λ l. l.items) lists.items
        ≡ buffers_of (declared_by (program_of program.now)).inputs (map value_of values.now)) }
{
    let mut lists = Vec::new(alloc);
    add_inputs(alloc, &program.inputs, values, &mut lists)?;
    Ok(lists)
}

/// The inputs of a launch file in their buffers, the outputs' as long as their type says, and 0 in
/// all other memory.
pub fn begun(alloc: Global, compiled: &Compiled, file: &LaunchFile) -> Result<Cells, AllocError>
    requires { IsAdmissibleFor (program_of compiled.now.program)
        (asked compiled.now.asks) (given_by file.now) }
    ensures { IfOk result (λ cells. cells ≡ begun (program_of compiled.now.program)
        (ty_of compiled.now.output) (world_given (given_by file.now))) }
{
    let ins = input_lists(alloc, &compiled.program, &file.inputs)?;
    let outs = blank_lists(alloc, &compiled.output, &file.sizes)?;
    Ok(Cells { ins, outs, rest: 0 })
}

// Equal lists in memory of their own.
fn copied_lists(alloc: Global, lists: &[Vec<u32>]) -> Result<Vec<Vec<u32>>, AllocError>
    ensures { IfOk result (λ copy. map (λ l. l.items) copy.items ≡ map (λ l. l.items) lists.now) }
{
    let mut copy = Vec::new(alloc);
    for list in lists {
        copy.push(list.as_slice().to_vec(alloc)?)?;
    }
    Ok(copy)
}

/// These inputs in their buffers, the outputs' as long as this type says, and 0 in all other
/// memory.
pub fn begun_from(
    alloc: Global,
    inputs: &[Vec<u32>],
    output: &Ty,
    sizes: &Sizes,
) -> Result<Cells, AllocError>
    requires { IsSmall sizes.now 1 (ty_of output.now) }
    ensures { IfOk result (λ cells. cells
        ≡ begun_from (map (λ l. l.items) inputs.now) sizes.now (ty_of output.now)) }
{
    let ins = copied_lists(alloc, inputs)?;
    let outs = blank_lists(alloc, output, sizes)?;
    Ok(Cells { ins, outs, rest: 0 })
}
