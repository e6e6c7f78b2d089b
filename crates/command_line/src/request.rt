//! What a command line asks for.

ghost use Rattle.std.specs.Prelude.{◌≡◌, ◌≢◌, ◌↔◌, IfOk, Some, option_map, string_bytes};
ghost use Rattle.clap.specs.Words.{found_of, kind_of, rows_of, subcommand_rows_of};
ghost use Rattle.clap.specs.declared.error.kind.ErrorKind.TheVariants as kind;
ghost use Rattle.command_line.specs.App as app;
ghost use Rattle.command_line.specs.declared.request.WordsNo.TheVariants.{Memory, Refused};
ghost use Rattle.command_line.specs.Requests as line;
ghost use Rattle.command_line.specs.Requests.{is_set, line_at, line_entered, line_of, seed_of, value_of};

use clap::ArgMatches;
use clap::error::ErrorKind;
use itoa::Buffer;
use std::alloc::{AllocError, Global};

/// A command, with the names of its files, or its seed.
#[derive(Drop)]
pub enum Request {
    /// `lift compile PROGRAM SCRIPT`: write the kernel of the program under the script.
    Compile {
        program: String,
        script: String,
    },
    /// `lift run PROGRAM SCRIPT LAUNCH [--trace]`: run that kernel on the bundled device, as the
    /// launch file says, and write its events where they are to be traced.
    Run {
        program: String,
        script: String,
        launch: String,
        trace: bool,
    },
    /// `lift cost PROGRAM SCRIPT LAUNCH [--items]`: write what that kernel loads and stores and how
    /// often its groups are released, item by item where that is asked for.
    Cost {
        program: String,
        script: String,
        launch: String,
        items: bool,
    },
    /// `lift eval PROGRAM LAUNCH`: write the program's source value at the launch file's sizes and
    /// inputs.
    Eval {
        program: String,
        launch: String,
    },
    /// `lift steps PROGRAM SCRIPT`: write what each step of the script makes of the program.
    Steps {
        program: String,
        script: String,
    },
    /// `lift stages PROGRAM SCRIPT`: write the kernels that the program is cut into under the
    /// script, which are run in order.
    Stages {
        program: String,
        script: String,
    },
    /// `lift run-stages PROGRAM SCRIPT LAUNCH`: run those kernels, each as the launch file says.
    RunStages {
        program: String,
        script: String,
        launch: String,
    },
    /// `lift demo SEED`: write what the run of a stencil by tiles makes of data that a generator
    /// gives, begun at this seed.
    Demo {
        seed: u32,
    },
}

/// Why words are no request.
#[derive(Clone, Copy)]
pub enum WordsNo {
    /// They are none of the commands' forms, or the seed of a demo is no decimal.
    Refused,
    /// Memory ran out.
    Memory,
}

impl From<AllocError> for WordsNo {
    ghost from_gives = { λ _ no. no ≡ Memory };

    fn from(_error: AllocError) -> WordsNo {
        WordsNo::Memory
    }
}

impl From<clap::Error> for WordsNo {
    ghost from_gives = { λ error no. (no ≡ Refused) ↔ (kind_of error ≢ kind.OutOfMemory) };

    fn from(error: clap::Error) -> WordsNo {
        match error.kind() {
            ErrorKind::OutOfMemory => WordsNo::Memory,
            _ => WordsNo::Refused,
        }
    }
}

// The value of the argument, which clap has wherever the argument is required.
fn value<'w>(matches: &ArgMatches<'w>, id: &str) -> &'w str
    ensures { result.now ≡ value_of id.now (rows_of (found_of matches.now)) }
{
    match matches.get_str(id) {
        Some(text) => text,
        None => "",
    }
}

// Whether the flag is set.
fn is_set(matches: &ArgMatches<'_>, id: &str) -> bool
    ensures { result ≡ is_set id.now (rows_of (found_of matches.now)) }
{
    matches.get_one::<bool>(id).unwrap_or(false)
}

fn file_name(alloc: Global, matches: &ArgMatches<'_>, id: &str) -> Result<String, AllocError>
    ensures { IfOk result (λ name. string_bytes name
        ≡ value_of id.now (rows_of (found_of matches.now))) }
{
    String::from_str(alloc, value(matches, id))
}

// The names of a program and a script.
fn sources(alloc: Global, matches: &ArgMatches<'_>) -> Result<(String, String), AllocError>
    ensures program { IfOk result (λ names. string_bytes names.0
        ≡ value_of app.program (rows_of (found_of matches.now))) }
    ensures script { IfOk result (λ names. string_bytes names.1
        ≡ value_of app.script (rows_of (found_of matches.now))) }
{
    let program = file_name(alloc, matches, "program")?;
    let script = file_name(alloc, matches, "script")?;
    Ok((program, script))
}

// The seed that the word is the decimal of.
fn seed_of(word: &str) -> Option<u32>
    ensures { result ≡ seed_of word.now }
{
    let seed: u32 = match word.parse() {
        Ok(seed) => seed,
        Err(_) => return None,
    };
    let mut digits = Buffer::new();
    if digits.format(seed) == word {
        Some(seed)
    } else {
        None
    }
}

// The kernel of a program under a script.
fn compile_request(alloc: Global, matches: &ArgMatches<'_>) -> Result<Option<Request>, AllocError>
    ensures { let rows = rows_of (found_of matches.now) in
        IfOk result (λ request. option_map line_of request
        ≡ Some (line.compile (value_of app.program rows) (value_of app.script rows))) }
{
    let (program, script) = sources(alloc, matches)?;
    Ok(Some(Request::Compile { program, script }))
}

// The run of a kernel, with its events where the flag is set.
fn run_request(alloc: Global, matches: &ArgMatches<'_>) -> Result<Option<Request>, AllocError>
    ensures { let rows = rows_of (found_of matches.now) in
        IfOk result (λ request. option_map line_of request
        ≡ Some (line.run (value_of app.program rows) (value_of app.script rows)
        (value_of app.launch rows) (is_set app.trace rows))) }
{
    let (program, script) = sources(alloc, matches)?;
    let launch = file_name(alloc, matches, "launch")?;
    Ok(Some(Request::Run {
        program,
        script,
        launch,
        trace: is_set(matches, "trace"),
    }))
}

// The cost of a kernel, item by item where the flag is set.
fn cost_request(alloc: Global, matches: &ArgMatches<'_>) -> Result<Option<Request>, AllocError>
    ensures { let rows = rows_of (found_of matches.now) in
        IfOk result (λ request. option_map line_of request
        ≡ Some (line.cost (value_of app.program rows) (value_of app.script rows)
        (value_of app.launch rows) (is_set app.items rows))) }
{
    let (program, script) = sources(alloc, matches)?;
    let launch = file_name(alloc, matches, "launch")?;
    Ok(Some(Request::Cost {
        program,
        script,
        launch,
        items: is_set(matches, "items"),
    }))
}

// The value of a program.
fn eval_request(alloc: Global, matches: &ArgMatches<'_>) -> Result<Option<Request>, AllocError>
    ensures { let rows = rows_of (found_of matches.now) in
        IfOk result (λ request. option_map line_of request
        ≡ Some (line.eval (value_of app.program rows) (value_of app.launch rows))) }
{
    let program = file_name(alloc, matches, "program")?;
    let launch = file_name(alloc, matches, "launch")?;
    Ok(Some(Request::Eval { program, launch }))
}

// The steps of a script.
fn steps_request(alloc: Global, matches: &ArgMatches<'_>) -> Result<Option<Request>, AllocError>
    ensures { let rows = rows_of (found_of matches.now) in
        IfOk result (λ request. option_map line_of request
        ≡ Some (line.steps (value_of app.program rows) (value_of app.script rows))) }
{
    let (program, script) = sources(alloc, matches)?;
    Ok(Some(Request::Steps { program, script }))
}

// Kernels in order.
fn stages_request(alloc: Global, matches: &ArgMatches<'_>) -> Result<Option<Request>, AllocError>
    ensures { let rows = rows_of (found_of matches.now) in
        IfOk result (λ request. option_map line_of request
        ≡ Some (line.stages (value_of app.program rows) (value_of app.script rows))) }
{
    let (program, script) = sources(alloc, matches)?;
    Ok(Some(Request::Stages { program, script }))
}

// The run of kernels in order.
fn run_stages_request(
    alloc: Global,
    matches: &ArgMatches<'_>,
) -> Result<Option<Request>, AllocError>
    ensures { let rows = rows_of (found_of matches.now) in
        IfOk result (λ request. option_map line_of request
        ≡ Some (line.run_stages (value_of app.program rows) (value_of app.script rows)
        (value_of app.launch rows))) }
{
    let (program, script) = sources(alloc, matches)?;
    let launch = file_name(alloc, matches, "launch")?;
    Ok(Some(Request::RunStages {
        program,
        script,
        launch,
    }))
}

// A demo, where its seed is a decimal.
fn demo_request(matches: &ArgMatches<'_>) -> Option<Request>
    ensures { option_map line_of result
        ≡ option_map line.demo (seed_of (value_of app.seed (rows_of (found_of matches.now)))) }
{
    match seed_of(value(matches, "seed")) {
        Some(seed) => Some(Request::Demo { seed }),
        None => None,
    }
}

// The subcommand of this name asks for a request, if it is one of the command's, and its seed is a
// decimal.
fn named_request(
    alloc: Global,
    name: &str,
    matches: &ArgMatches<'_>,
) -> Result<Option<Request>, AllocError>
    ensures { IfOk result (λ request. option_map line_of request
        ≡ line_at name.now (rows_of (found_of matches.now))) }
{
    match name {
        "compile" => compile_request(alloc, matches),
        "run" => run_request(alloc, matches),
        "cost" => cost_request(alloc, matches),
        "eval" => eval_request(alloc, matches),
        "steps" => steps_request(alloc, matches),
        "stages" => stages_request(alloc, matches),
        "run-stages" => run_stages_request(alloc, matches),
        "demo" => Ok(demo_request(matches)),
        _ => Ok(None),
    }
}

/// What the matches ask for, where the seed of a demo is a decimal. Clap enters a subcommand in all
/// that it takes.
pub fn entered_request(
    alloc: Global,
    matches: &ArgMatches<'_>,
) -> Result<Option<Request>, AllocError>
    ensures { IfOk result (λ request. option_map line_of request
        ≡ line_entered (subcommand_rows_of matches.now)) }
{
    match matches.subcommand() {
        Some((name, inner)) => named_request(alloc, name, inner),
        None => Ok(None),
    }
}
