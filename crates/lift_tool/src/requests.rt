//! What a request writes.
ghost use Rattle.std.specs.Prelude.{◌≡◌, IfErr, IfOk, map, string_bytes};
ghost use Rattle.lift_io.specs.Causes.{Rose};
ghost use Rattle.command_line.specs.Requests.{line_of};
ghost use Rattle.fault_lines.specs.Shown.{failure_of};
ghost use Rattle.lift_tool.specs.Files.{AsksAll, AsksFirst};
ghost use Rattle.lift_tool.specs.Outcome.{FailsFor, IsAnswer};
ghost use Rattle.lift_tool.specs.Request as named;
ghost use Rattle.lift_tool.specs.Request.{command_of, file_of, files_of};

use crate::files::{File, read_texts};
use command_line::Request;
use fault_lines::Failure;
use lift_io::Files;
use program_runs::{Command, command_text};
use std::alloc::{AllocError, Global};

// A program and a script.
fn sources(alloc: Global, program: String, script: String) -> Result<Vec<File>, AllocError>
    ensures { IfOk result (λ files. map file_of files.items
        ≡ named.sources (string_bytes program) (string_bytes script)) }
{
    Ok(Vec::from_array(alloc, [File::Source(program), File::Source(script)])?)
}

// A program, a script and a launch file.
fn launched(
    alloc: Global,
    program: String,
    script: String,
    launch: String,
) -> Result<Vec<File>, AllocError>
    ensures { IfOk result (λ files. map file_of files.items
        ≡ named.launched (string_bytes program) (string_bytes script) (string_bytes launch)) }
{
    let files = [
        File::Source(program),
        File::Source(script),
        File::Launch(launch),
    ];
    Ok(Vec::from_array(alloc, files)?)
}

// The command of a request, and its files, in order.
fn parted(alloc: Global, request: Request) -> Result<(Command, Vec<File>), AllocError>
    ensures command { IfOk result (λ parts. parts.0 ≡ command_of (line_of request)) }
    ensures files { IfOk result
        (λ parts. map file_of parts.1.items ≡ files_of (line_of request)) }
{
    match request {
        Request::Compile { program, script } => {
            Ok((Command::Compile, sources(alloc, program, script)?))
        }
        Request::Run {
            program,
            script,
            launch,
            trace,
        } => Ok((
            Command::Run { trace },
            launched(alloc, program, script, launch)?,
        )),
        Request::Cost {
            program,
            script,
            launch,
            items,
        } => Ok((
            Command::Cost { items },
            launched(alloc, program, script, launch)?,
        )),
        Request::Eval { program, launch } => {
            let files = [File::Source(program), File::Launch(launch)];
            Ok((Command::Eval, Vec::from_array(alloc, files)?))
        }
        Request::Steps { program, script } => {
            Ok((Command::Steps, sources(alloc, program, script)?))
        }
        Request::Stages { program, script } => {
            Ok((Command::Stages, sources(alloc, program, script)?))
        }
        Request::RunStages {
            program,
            script,
            launch,
        } => Ok((
            Command::RunStages,
            launched(alloc, program, script, launch)?,
        )),
        Request::Demo { seed } => Ok((Command::Demo { seed }, Vec::new(alloc))),
    }
}

/// What a request writes.
pub fn answer_of<F: Files>(
    alloc: Global,
    files: &mut F,
    request: Request,
) -> Result<Vec<u8>, Failure>
    ensures ok { IfOk result
        (λ text. IsAnswer (F.told files.old) (line_of request) text.items) }
    ensures refused { IfErr result (λ no. FailsFor (F.told files.old)
        (λ n. Rose (F.faults files.old n) (F.faults files.new n)) (line_of request)
        (failure_of no)) }
    ensures asks { AsksFirst (F.asked files.old) (F.asked files.new)
        (files_of (line_of request)) }
    ensures asks_all { IfOk result (λ _. AsksAll (F.asked files.old) (F.asked files.new)
        (files_of (line_of request))) }
{
    let (command, wanted) = parted(alloc, request)?;
    let texts = read_texts(alloc, files, wanted)?;
    command_text(alloc, command, texts.as_slice())
}
