//! The program `lift` once more, on which nothing stands: its stored run ends with a refusal.
#![tactic(auto)]

use lift_tool::command;
use std::process::ExitCode;

fn main(rt: HostRuntime) -> ExitCode {
    let out = rt.stdout();
    let err = rt.stderr();
    command(rt, out, err)
}
