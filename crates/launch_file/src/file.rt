//! Launch files.

ghost use Rattle.std.specs.Prelude.{◌≡◌, ◌≢◌, Err, IfErr, IfOk, Ok, map};
ghost use Rattle.lift_tree.specs.Values.{value_of};
ghost use Rattle.launch_file.specs.Inputs.{InputsFit};
ghost use Rattle.serde_json.specs.View.{view};
ghost use Rattle.lift_tree.specs.Programs.{program_of};
ghost use Rattle.lift_tree.specs.Limits.{HasProperInputs};
ghost use Rattle.lift_tree.specs.FixedSizes.{asked, size_fixed};
ghost use Rattle.launch_file.specs.Judged.{
  Refuses,
  and_then,
  inputs_judged,
  is_asked_size,
  is_grouped,
  is_size,
  items_judged,
  judged,
};
ghost use Rattle.launch_file.specs.LaunchFile.{IsLaunchFile, ask_of, asked_inputs, asks_in, given_by};
ghost use Rattle.launch_file.specs.declared.refusal.LaunchNo.TheVariants.{Memory};

use crate::keys::{Keyed, find_keys};
use crate::lookup::discard;
use crate::reading::value_of;
use crate::refusal::LaunchNo;
use crate::sizes::{bases_of, sizes_in};
use crate::values::inputs_in;
use kernel_tree::launches::{Launch, Schedule};
use lift_tree::asks::Asks;
use lift_tree::local_size::LocalSize;
use lift_tree::program::Program;
use lift_tree::value::Val;
use serde_json::Value;
use size_arith::Sizes;
use std::alloc::Global;

/// What a launch file is read for.
#[derive(Clone, Copy)]
pub enum Ask {
    /// To run a kernel that asks for this of its launches.
    Run(Asks),
    /// To evaluate the program: how many work-items there are, and in which order they run, is
    /// passed over.
    Eval,
    /// To tell what a run of a kernel costs that asks for this of its launches: the inputs and the
    /// schedule are passed over.
    Cost(Asks),
}

/// A launch of a program with its inputs.
#[derive(Drop)]
pub struct LaunchFile {
    /// The work-items in all and in a group, along each dimension, and each declared size. For an
    /// evaluation there is one work-item.
    pub launch: Launch,
    /// The declared sizes once more, by their base names.
    pub sizes: Sizes,
    /// One value for each input. For a cost there is none.
    pub inputs: Vec<Val>,
    /// In which order a run takes its events. For an evaluation and a cost it is the empty list.
    pub schedule: Schedule,
}

/// How many work-items there are along each dimension, in all or in a group, as a file gives them.
pub type Pair = (u64, u64);

/// What is asked of the launch; of an evaluation's nothing.
pub fn asks_in(ask: Ask) -> Asks
    ensures { asked result ≡ asks_in (ask_of ask) }
{
    match ask {
        Ask::Run(asks) | Ask::Cost(asks) => asks,
        Ask::Eval => Asks {
            alone: false,
            flat: false,
            local: None,
        },
    }
}

// Whether there is a work-item along each dimension, and no more than this in all.
fn is_size(most: u32, size: Pair) -> bool
    ensures { result ≡ is_size most size }
{
    1 <= size.0 && 1 <= size.1 && size.0.saturating_mul(size.1) <= u64::from(most)
}

// Whether the work-items make up whole groups, and both are few enough.
fn is_grouped(global: Pair, local: Pair) -> bool
    ensures { result ≡ is_grouped global local }
{
    is_size(256, local)
        && is_size(65_536, global)
        && global.0 % local.0 == 0
        && global.1 % local.1 == 0
}

// Whether this is the local size that is asked for, where one is.
fn is_asked_size(fixed: Option<LocalSize>, local: Pair) -> bool
    ensures { result ≡ is_asked_size (size_fixed fixed) local }
{
    match fixed {
        Some(size) => {
            let (across, down) = size.pair();
            local.0 == u64::from(across) && local.1 == u64::from(down)
        }
        None => true,
    }
}

/// The work-items in all and in a group along each dimension, or the first check that they fail.
pub fn work_items(
    asks: Asks,
    global: Pair,
    local: Pair,
) -> Result<((u32, u32), (u32, u32)), LaunchNo>
    ensures { result ≡ and_then (items_judged (asked asks) global local) (λ _. Ok (global, local)) }
{
    if !is_grouped(global, local) || !is_asked_size(asks.local, local) {
        return Err(LaunchNo::Local { global, local });
    }
    if asks.alone && global.0 * global.1 != 1 {
        return Err(LaunchNo::NotTask { global });
    }
    if asks.flat && global.1 != 1 {
        return Err(LaunchNo::NotFlat { rows: global.1 });
    }
    Ok((
        (global.0 as u32, global.1 as u32),
        (local.0 as u32, local.1 as u32),
    ))
}

// The inputs that are read; for a cost none.
fn asked_inputs(
    alloc: Global,
    ask: Ask,
    sizes: &[u32],
    program: &Program,
    value: &Value,
) -> Result<Vec<Val>, LaunchNo>
    requires { InputsFit sizes.now (program_of program.now).inputs }
    ensures ok { let judged = inputs_judged sizes.now 0
        (asked_inputs (ask_of ask) (program_of program.now).inputs) (view value.now) in
        IfOk result (λ vs. judged ≡ Ok (map value_of vs.items)) }
    ensures refused { let judged = inputs_judged sizes.now 0
        (asked_inputs (ask_of ask) (program_of program.now).inputs) (view value.now) in
        IfErr result (λ e. e ≢ Memory → judged ≡ Err e) }
{
    match ask {
        Ask::Run(_) | Ask::Eval => inputs_in(alloc, sizes, &program.inputs, value),
        Ask::Cost(_) => Ok(Vec::new(alloc)),
    }
}

#[tactic(auto, using(crate::proofs::Whole::ranges_are))]
// What the value gives.
fn launch_in(
    alloc: Global,
    value: &Value,
    program: &Program,
    ask: Ask,
) -> Result<LaunchFile, LaunchNo>
    requires { HasProperInputs (program_of program.now) }
    ensures ok { let judged = judged (program_of program.now) (ask_of ask) (view value.now) in
        IfOk result (λ f. judged ≡ Ok (given_by f)) }
    ensures refused { let judged = judged (program_of program.now) (ask_of ask) (view value.now) in
        IfErr result (λ e. e ≢ Memory → judged ≡ Err e) }
{
    if !value.is_object() {
        return Err(LaunchNo::NotJson);
    }
    let Keyed {
        global,
        local,
        sizes,
        inputs,
        schedule,
    } = find_keys(alloc, ask, value)?;
    let given = sizes_in(alloc, &program.sizes, sizes)?;
    let (global, local) = work_items(asks_in(ask), global, local)?;
    let inputs = asked_inputs(alloc, ask, &given, program, inputs)?;
    let sizes = bases_of(alloc, &program.sizes, &given)?;
    let launch = Launch {
        global,
        local,
        sizes: given,
    };
    Ok(LaunchFile {
        launch,
        sizes,
        inputs,
        schedule,
    })
}

/// The launch file that the bytes are for a program: an admissible launch, and inputs of their
/// types.
///
/// The checks come in this order. `NotJson`: the bytes are no JSON (as `serde_json` reads it) or
/// no object. `Missing`, for `global`, `local`, `sizes`, `inputs` and `schedule` in turn: the key
/// isn't there (`schedule` alone needn't be), or its value isn't of its kind. For each declared
/// size in turn `Missing`, where it isn't there or is no whole number, and at once `Size`.
/// `Local`: along a dimension there are no work-items, or there are too many in all, or they make up
/// no whole groups, or a group isn't of the size that is asked for. `NotTask`. `NotFlat`. For each
/// input in turn `Missing`, where its key isn't there, and at once `Shape`. `global` and `local` are
/// each a number, which is taken with 1, or a list of two. For an evaluation `global`, `local` and `schedule` are passed over,
/// for a cost `inputs` and `schedule`. Of two values at one key the last counts. Want of memory may
/// come at any point.
///
/// The inputs are those that typing takes: their lengths are shown at least 1, and they have at
/// most 2147483647 scalars in each component.
pub fn read_launch(
    alloc: Global,
    bytes: &[u8],
    program: &Program,
    ask: Ask,
) -> Result<LaunchFile, LaunchNo>
    requires { HasProperInputs (program_of program.now) }
    ensures ok { IfOk result (λ f.
        IsLaunchFile (program_of program.now) (ask_of ask) bytes.now (given_by f)) }
    ensures refused { IfErr result (λ e. e ≢ Memory
        → Refuses (program_of program.now) (ask_of ask) bytes.now e) }
{
    let value = value_of(alloc, program, bytes)?;
    let launch = launch_in(alloc, &value, program, ask);
    discard(value);
    launch
}
