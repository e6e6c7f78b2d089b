//! What the kernel of a program costs at a launch.
ghost use Rattle.std.specs.Prelude.{IfErr, IfOk};
ghost use Rattle.fault_lines.specs.Shown.{failure_of};
ghost use Rattle.launch_lengths.specs.Bases.{bases_of};
ghost use Rattle.lowered_tree.specs.Kinds.{asks_of};
ghost use Rattle.lowered_tree.specs.Named.{declared_of};
ghost use Rattle.lift_tree.specs.Annotations.{annotation_of};
ghost use Rattle.lift_tree.specs.Tree.{tree_of};
ghost use Rattle.printed_form.specs.Programs.{IsLaunchOf};
ghost use Rattle.program_source.specs.Ends.{FailsFor, IsFailedFor, OnSource};
ghost use Rattle.compilation.specs.Legal.{lowered_state};
ghost use Rattle.compilation.specs.Placed.{HaveArrays};
ghost use Rattle.program_runs.specs.Costs.{AreCostLines, TellTraffic};
ghost use Rattle.program_runs.specs.Started.{CostOf};

use crate::laws::one_end;
use compilation::{Placed, place_text};
use cost_lines::cost::plan_cost;
use fault_lines::Failure;
use kernel_tree::launches::Launch;
use launch_file::file::{Ask, read_launch};
use launch_lengths::laws::bases_come_back;
use nest_premises::laws::rows_are_on_top;
use phase_plan::planning::plan;
use plan_traffic::laws::plans_place_needed_barriers;
use program_source::laws::typed_programs_are_proper;
use std::alloc::{AllocError, Global};

// The lines of a term's cost at a launch that is admissible for it.
fn cost_at(
    alloc: Global,
    placed: &Placed,
    launch: &Launch,
    items: bool,
) -> Result<Vec<u8>, AllocError>
    requires arrays { HaveArrays placed.now }
    requires launch { IsLaunchOf (declared_of placed.now.spaced.mapped.lowered)
        (asks_of placed.now.spaced.mapped.local (tree_of placed.now.spaced.mapped.lowered.term))
        (bases_of placed.now.spaced.mapped.lowered.names launch.now.sizes)
        (tree_of placed.now.spaced.mapped.lowered.term)
        (annotation_of placed.now.spaced.mapped.lowered.types) launch.now }
    ensures { IfOk result (λ lines. TellTraffic
        (declared_of placed.now.spaced.mapped.lowered) placed.now.spaced.mapped.local
        (lowered_state placed.now.spaced.mapped.lowered)
        (bases_of placed.now.spaced.mapped.lowered.names launch.now.sizes) launch.now
        items lines.items) }
{
    plans_place_needed_barriers();
    let plan = plan(alloc, &placed.spaced, &placed.buffers)?;
    plan_cost(alloc, &plan, launch, items)
}

/// The lines of the cost of a program's kernel along a script, at the launch that a launch file
/// gives: how many elements each work-item loads and stores, where `items` asks for it, and all
/// together, of global and of local memory, and how often groups are released. No kernel is made
/// and no run. It fails just where a stage stops, for the first in their order: those of
/// [`compilation::compile_text`], then the launch file's, of which no inputs and no schedule are
/// read. Want of memory may come at any point.
pub fn cost_text(
    alloc: Global,
    program: &[u8],
    script: &[u8],
    launch: &[u8],
    items: bool,
) -> Result<Vec<u8>, Failure>
    ensures found { IfOk result
        (λ lines. AreCostLines program.now script.now launch.now items lines.items) }
    ensures refused { IfErr result (λ failure. FailsFor
        (OnSource program.now (λ p. CostOf p script.now launch.now)) (failure_of failure)) }
    ensures exact { IsFailedFor (OnSource program.now (λ p. CostOf p script.now launch.now))
        result }
{
    bases_come_back();
    one_end();
    rows_are_on_top();
    typed_programs_are_proper();
    let found = place_text(alloc, program, script)?;
    match read_launch(alloc, launch, &found.program, Ask::Cost(found.asks)) {
        Ok(file) => Ok(cost_at(alloc, &found.placed, &file.launch, items)?),
        Err(no) => Err(Failure::for_launch(found.program, no)),
    }
}
