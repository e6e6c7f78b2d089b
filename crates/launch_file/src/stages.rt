//! Launch files of several kernels in order.

ghost use Rattle.std.specs.Prelude.{◌≡◌, ◌≢◌, Err, IfErr, IfOk, Ok, length, map, option_map};
ghost use Rattle.serde_json.specs.View.{view};
ghost use Rattle.lift_tree.specs.Programs.{program_of};
ghost use Rattle.lift_tree.specs.Limits.{HasProperInputs};
ghost use Rattle.launch_file.specs.LaunchFile.{ask_of};
ghost use Rattle.launch_file.specs.Stages.{
  IsStagesFile,
  RefusesStages,
  all_objects,
  launches_at,
  stage_judged,
  stage_keys_judged,
  stages_judged,
  stages_judged_from,
};
ghost use Rattle.launch_file.specs.StagesShown.{count_of, given_in_order, keys_of, values_in};
ghost use Rattle.launch_file.specs.declared.refusal.LaunchNo.TheVariants.{Memory};

use crate::file::{Ask, asks_in, work_items};
use crate::keys::schedule_at;
use crate::lookup::{discard, object_at, pair_at};
use crate::reading::value_of;
use crate::refusal::{Key, LaunchNo};
use crate::sizes::{bases_of, sizes_in};
use crate::values::inputs_in;
use kernel_tree::launches::Schedule;
use lift_tree::program::Program;
use lift_tree::value::Val;
use serde_json::Value;
use size_arith::Sizes;
use std::alloc::Global;

/// The work-items of a kernel along each dimension, in all and in a group.
#[derive(Clone, Copy)]
pub struct Count {
    pub global: (u32, u32),
    pub local: (u32, u32),
}

/// What all kernels of a program in order share.
#[derive(Drop)]
pub struct Shared {
    /// Each declared size.
    pub sizes: Vec<u32>,
    /// The declared sizes once more, by their base names.
    pub bases: Sizes,
    /// One value for each input of the program.
    pub inputs: Vec<Val>,
    /// In which order a run takes its events. Each kernel's run begins it anew.
    pub schedule: Schedule,
}

/// What a launch file gives to the kernels of a program in order.
#[derive(Drop)]
pub struct StagesFile {
    /// Once what all of them share.
    pub shared: Shared,
    /// Each kernel's work-items, in the order of the kernels.
    pub counts: Vec<Count>,
}

// What stands at the keys: the kernels' own objects, and what all kernels share.
#[derive(Drop)]
struct StageKeys<'v> {
    launches: &'v [Value],
    sizes: &'v Value,
    inputs: &'v Value,
    schedule: Schedule,
}

fn all_objects(values: &[Value]) -> bool
    ensures { result ≡ all_objects (values_in values.now) }
{
    match values {
        [] => true,
        [first, rest @ ..] => first.is_object() && all_objects(rest),
    }
}

// The kernels' own objects, where there are so many and no other.
#[tactic(auto, using(crate::proofs::InOrder::are_members))]
fn launches_at(value: &Value, count: usize) -> Option<&[Value]>
    ensures { option_map (λ vs. values_in vs.now) result
        ≡ launches_at count (view value.entry.now) }
{
    let launches = value.get("launches")?.as_array()?.as_slice();
    if launches.len() == count && all_objects(launches) {
        Some(launches)
    } else {
        None
    }
}

// What stands at the keys, or the first of them that is missing.
fn find_stage_keys<'v>(
    alloc: Global,
    count: usize,
    value: &'v Value,
) -> Result<StageKeys<'v>, LaunchNo>
    ensures ok { IfOk result
        (λ k. stage_keys_judged count (view value.entry.now) ≡ Ok (keys_of k)) }
    ensures refused { IfErr result (λ e. e ≢ Memory
        → stage_keys_judged count (view value.entry.now) ≡ Err e) }
{
    let launches = launches_at(value, count).ok_or(LaunchNo::Missing(Key::Launches))?;
    let sizes = object_at(value, "sizes").ok_or(LaunchNo::Missing(Key::Sizes))?;
    let inputs = object_at(value, "inputs").ok_or(LaunchNo::Missing(Key::Inputs))?;
    let schedule = schedule_at(alloc, value)?;
    Ok(StageKeys {
        launches,
        sizes,
        inputs,
        schedule,
    })
}

// The work-items of the kernel of this number, from its object.
fn stage_in(number: usize, ask: Ask, value: &Value) -> Result<Count, LaunchNo>
    ensures ok { IfOk result (λ c. stage_judged number (ask_of ask) (view value.now) ≡ Ok (count_of c)) }
    ensures refused { IfErr result (λ e. stage_judged number (ask_of ask) (view value.now) ≡ Err e) }
{
    let global = pair_at(value, "global").ok_or(LaunchNo::Missing(Key::GlobalOf(number)))?;
    let local = pair_at(value, "local").ok_or(LaunchNo::Missing(Key::LocalOf(number)))?;
    let (global, local) = work_items(asks_in(ask), global, local)?;
    Ok(Count { global, local })
}

// The work-items of each kernel, in turn.
fn stages_in(alloc: Global, asks: &[Ask], values: &[Value]) -> Result<Vec<Count>, LaunchNo>
    requires as_many { length asks.now ≡ length values.now }
    ensures ok { let judged = stages_judged_from 0 (map ask_of asks.now) (values_in values.now) in
        IfOk result (λ cs. judged ≡ Ok (map count_of cs.items)) }
    ensures refused { let judged = stages_judged_from 0 (map ask_of asks.now) (values_in values.now) in
        IfErr result (λ e. e ≢ Memory → judged ≡ Err e) }
{
    let mut counts = Vec::new(alloc);
    for (number, ask) in asks.iter().enumerate() {
        counts.push(stage_in(number, *ask, &values[number])?)?;
    }
    Ok(counts)
}

// What the value gives.
#[tactic(auto, using(crate::proofs::Whole::ranges_are))]
fn stages_of(
    alloc: Global,
    value: &Value,
    program: &Program,
    asks: &[Ask],
) -> Result<StagesFile, LaunchNo>
    requires { HasProperInputs (program_of program.now) }
    ensures ok { let judged = stages_judged (program_of program.now) (map ask_of asks.now) (view value.now) in
        IfOk result (λ f. judged ≡ Ok (given_in_order f)) }
    ensures refused { let judged = stages_judged (program_of program.now) (map ask_of asks.now) (view value.now) in
        IfErr result (λ e. e ≢ Memory → judged ≡ Err e) }
{
    if !value.is_object() {
        return Err(LaunchNo::NotJson);
    }
    let StageKeys {
        launches,
        sizes,
        inputs,
        schedule,
    } = find_stage_keys(alloc, asks.len(), value)?;
    let given = sizes_in(alloc, &program.sizes, sizes)?;
    let counts = stages_in(alloc, asks, launches)?;
    let inputs = inputs_in(alloc, &given, &program.inputs, inputs)?;
    let bases = bases_of(alloc, &program.sizes, &given)?;
    let shared = Shared {
        sizes: given,
        bases,
        inputs,
        schedule,
    };
    Ok(StagesFile { shared, counts })
}

/// The launch file that the bytes are for the kernels of a program in order: for each an admissible
/// launch, and for all of them once the sizes, the inputs, of their types, and the schedule, which
/// each begins anew.
///
/// The checks are those of `read_launch`, in its order, but for these.
/// `Missing(launches)` stands in place of `global` and `local`: the list isn't there, or
/// hasn't just one object for each kernel.
/// In place of the checks of the work-items come those of each kernel in turn: `Missing` for its
/// `global` and its `local`, then [`work_items`]. `global` and `local` beside `launches` are passed
/// over. Want of memory may come at any point.
///
/// The inputs are those that typing takes, as for `read_launch`.
pub fn read_stages(
    alloc: Global,
    bytes: &[u8],
    program: &Program,
    asks: &[Ask],
) -> Result<StagesFile, LaunchNo>
    requires { HasProperInputs (program_of program.now) }
    ensures ok { IfOk result (λ f.
        IsStagesFile (program_of program.now) (map ask_of asks.now) bytes.now (given_in_order f)) }
    ensures refused { IfErr result (λ e. e ≢ Memory
        → RefusesStages (program_of program.now) (map ask_of asks.now) bytes.now e) }
{
    let value = value_of(alloc, program, bytes)?;
    let file = stages_of(alloc, &value, program, asks);
    discard(value);
    file
}
