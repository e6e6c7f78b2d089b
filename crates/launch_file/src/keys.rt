//! What stands at the keys of a launch file.

ghost use Rattle.std.specs.Prelude.{◌≡◌, ◌≢◌, Err, IfErr, IfOk, Ok, option_map};
ghost use Rattle.serde_json.specs.View.{view};
ghost use Rattle.kernel_tree.specs.Schedule.{schedule_of};
ghost use Rattle.launch_file.specs.Judged as checks;
ghost use Rattle.std.specs.Prelude.{codes};
ghost use Rattle.serde_json.specs.Find.{get};
ghost use Rattle.launch_file.specs.Judged.{count_judged, holder_judged, keys_judged, schedule_judged};
ghost use Rattle.launch_file.specs.LaunchFile.{ask_of};
ghost use Rattle.launch_file.specs.Shown.{keyed_of};
ghost use Rattle.launch_file.specs.declared.refusal.LaunchNo.TheVariants.{Memory};

use crate::file::{Ask, Pair};
use crate::lookup::{object_at, pair_at, word, words};
use crate::refusal::{Key, LaunchNo};
use kernel_tree::launches::Schedule;
use serde_json::Value;
use std::alloc::{AllocError, Global};

/// What stands at the keys.
#[derive(Drop)]
pub struct Keyed<'v> {
    pub global: Pair,
    pub local: Pair,
    pub sizes: &'v Value,
    pub inputs: &'v Value,
    pub schedule: Schedule,
}

// How many work-items there are along each dimension, in all or in a group.
fn count(ask: Ask, value: &Value, key: &str, missing: LaunchNo) -> Result<Pair, LaunchNo>
    ensures { result ≡ count_judged (ask_of ask) key.now missing (view value.now) }
{
    match ask {
        Ask::Run(_) | Ask::Cost(_) => pair_at(value, key).ok_or(missing),
        Ask::Eval => Ok((1, 1)),
    }
}

// The schedule that a value is.
fn schedule_in(alloc: Global, value: &Value) -> Result<Option<Schedule>, AllocError>
    ensures { IfOk result (λ s. option_map schedule_of s ≡ checks.schedule_in (view value.now)) }
{
    match value.as_array() {
        Some(values) => Ok(words(alloc, values)?.map(Schedule::Numbers)),
        None => Ok(value.get("seed").and_then(word).map(Schedule::Seed)),
    }
}

/// The schedule at its key; one that isn't there is the empty list.
pub fn schedule_at(alloc: Global, value: &Value) -> Result<Schedule, LaunchNo>
    ensures ok { let judged = checks.schedule_at (get (codes "schedule") (view value.now)) in
        IfOk result (λ s. judged ≡ Ok (schedule_of s)) }
    ensures refused { let judged = checks.schedule_at (get (codes "schedule") (view value.now)) in
        IfErr result (λ e. e ≢ Memory → judged ≡ Err e) }
{
    match value.get("schedule") {
        Some(found) => schedule_in(alloc, found)?.ok_or(LaunchNo::Missing(Key::Schedule)),
        None => Ok(Schedule::Numbers(Vec::new(alloc))),
    }
}

fn schedule(alloc: Global, ask: Ask, value: &Value) -> Result<Schedule, LaunchNo>
    ensures ok { IfOk result (λ s. schedule_judged (ask_of ask) (view value.now) ≡ Ok (schedule_of s)) }
    ensures refused { IfErr result (λ e. e ≢ Memory
        → schedule_judged (ask_of ask) (view value.now) ≡ Err e) }
{
    match ask {
        Ask::Run(_) => schedule_at(alloc, value),
        Ask::Eval | Ask::Cost(_) => Ok(Schedule::Numbers(Vec::new(alloc))),
    }
}

// The object of the inputs; for a cost, which reads none, the value itself.
fn holder<'v>(ask: Ask, value: &'v Value) -> Result<&'v Value, LaunchNo>
    ensures ok { IfOk result (λ v. holder_judged (ask_of ask) (view value.entry.now) ≡ Ok (view v.now)) }
    ensures refused { IfErr result (λ e. holder_judged (ask_of ask) (view value.entry.now) ≡ Err e) }
{
    match ask {
        Ask::Run(_) | Ask::Eval => {
            object_at(value, "inputs").ok_or(LaunchNo::Missing(Key::Inputs))
        }
        Ask::Cost(_) => Ok(value),
    }
}

/// What stands at the keys, or the first of them that is missing.
pub fn find_keys<'v>(alloc: Global, ask: Ask, value: &'v Value) -> Result<Keyed<'v>, LaunchNo>
    ensures ok { IfOk result (λ k. keys_judged (ask_of ask) (view value.entry.now) ≡ Ok (keyed_of k)) }
    ensures refused { IfErr result (λ e. e ≢ Memory
        → keys_judged (ask_of ask) (view value.entry.now) ≡ Err e) }
{
    let global = count(ask, value, "global", LaunchNo::Missing(Key::Global))?;
    let local = count(ask, value, "local", LaunchNo::Missing(Key::Local))?;
    let sizes = object_at(value, "sizes").ok_or(LaunchNo::Missing(Key::Sizes))?;
    let inputs = holder(ask, value)?;
    let schedule = schedule(alloc, ask, value)?;
    Ok(Keyed {
        global,
        local,
        sizes,
        inputs,
        schedule,
    })
}
