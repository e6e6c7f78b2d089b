//! The program `lift`: the compiler's command on the system's files and streams.
#![tactic(auto)]

use lift_tool::command;
use std::process::ExitCode;

fn main(rt: HostRuntime) -> ExitCode {
    let out = rt.stdout();
    let err = rt.stderr();
    command(rt, out, err)
}
