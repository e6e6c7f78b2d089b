//! The command as clap is told of it.

ghost use Rattle.std.specs.Prelude.{◌≡◌, IfOk, false, map};
ghost use Rattle.clap.specs.Words.{app_of, with_rule, with_subcommand};
ghost use Rattle.clap.specs.declared.Command.TheViews.{out-Command};
ghost use Rattle.command_line.specs.App as spec;

use clap::{Arg, ArgAction, Command};
use std::alloc::{AllocError, Global};

// The command with one more required word.
fn with_word<'a>(
    alloc: Global,
    command: Command<'a>,
    id: &'a str,
) -> Result<Command<'a>, AllocError>
    requires { (out-Command command).has_globals ≡ false }
    ensures app { IfOk result (λ c. app_of c
        ≡ with_rule (app_of command.entry) (spec.word_rule id.entry.now)) }
    ensures local { IfOk result (λ c. (out-Command c).has_globals ≡ false) }
{
    command.arg(Arg::new(alloc, id).required(true).action(ArgAction::Set))
}

// A command with one word for each id.
fn words_command<'a>(
    alloc: Global,
    name: &'a str,
    ids: &[&'a str],
) -> Result<Command<'a>, AllocError>
    ensures app { IfOk result (λ c. app_of c
        ≡ spec.words_command name.now (map (λ id. id.now) ids.now)) }
    ensures local { IfOk result (λ c. (out-Command c).has_globals ≡ false) }
{
    let mut command = Command::new(alloc, name);
    for id in ids {
        command = with_word(alloc, command, id)?;
    }
    Ok(command)
}

// The run of three files, which is told with its events where the flag is set.
fn run_command<'a>(alloc: Global) -> Result<Command<'a>, AllocError>
    ensures app { IfOk result (λ c. app_of c ≡ spec.run_command) }
    ensures local { IfOk result (λ c. (out-Command c).has_globals ≡ false) }
{
    let command = words_command(alloc, "run", ["program", "script", "launch"].as_slice())?;
    command.arg(
        Arg::new(alloc, "trace")
            .long("trace")
            .action(ArgAction::SetTrue),
    )
}

// The cost of three files, which is told item by item where the flag is set.
fn cost_command<'a>(alloc: Global) -> Result<Command<'a>, AllocError>
    ensures app { IfOk result (λ c. app_of c ≡ spec.cost_command) }
    ensures local { IfOk result (λ c. (out-Command c).has_globals ≡ false) }
{
    let command = words_command(alloc, "cost", ["program", "script", "launch"].as_slice())?;
    command.arg(
        Arg::new(alloc, "items")
            .long("items")
            .action(ArgAction::SetTrue),
    )
}

// The command with one more subcommand.
fn with_subcommand<'a>(command: Command<'a>, inner: Command<'a>) -> Result<Command<'a>, AllocError>
    requires outer { (out-Command command).has_globals ≡ false }
    requires inner { (out-Command inner).has_globals ≡ false }
    ensures app { IfOk result (λ c. app_of c
        ≡ with_subcommand (app_of command.entry) (app_of inner.entry).top) }
    ensures local { IfOk result (λ c. (out-Command c).has_globals ≡ false) }
{
    command.subcommand(inner)
}

// The command without its subcommands.
fn bare_command<'a>(alloc: Global) -> Command<'a>
    ensures app { app_of result ≡ spec.bare_command }
    ensures local { (out-Command result).has_globals ≡ false }
{
    Command::new(alloc, "lift")
        .no_binary_name(true)
        .disable_help_flag(true)
        .disable_help_subcommand(true)
        .disable_version_flag(true)
        .subcommand_required(true)
}

// The command with one more subcommand, of this name and with a word for each id.
fn with_words<'a>(
    alloc: Global,
    command: Command<'a>,
    name: &'a str,
    ids: &[&'a str],
) -> Result<Command<'a>, AllocError>
    requires { (out-Command command).has_globals ≡ false }
    ensures app { IfOk result (λ c. app_of c ≡ with_subcommand (app_of command.entry)
        (spec.words_command name.now (map (λ id. id.now) ids.now)).top) }
    ensures local { IfOk result (λ c. (out-Command c).has_globals ≡ false) }
{
    with_subcommand(command, words_command(alloc, name, ids)?)
}

// The command with the subcommand of a run.
fn with_run<'a>(alloc: Global, command: Command<'a>) -> Result<Command<'a>, AllocError>
    requires { (out-Command command).has_globals ≡ false }
    ensures app { IfOk result (λ c. app_of c
        ≡ with_subcommand (app_of command.entry) spec.run_command.top) }
    ensures local { IfOk result (λ c. (out-Command c).has_globals ≡ false) }
{
    with_subcommand(command, run_command(alloc)?)
}

// The command with the subcommand of a cost.
fn with_cost<'a>(alloc: Global, command: Command<'a>) -> Result<Command<'a>, AllocError>
    requires { (out-Command command).has_globals ≡ false }
    ensures app { IfOk result (λ c. app_of c
        ≡ with_subcommand (app_of command.entry) spec.cost_command.top) }
    ensures local { IfOk result (λ c. (out-Command c).has_globals ≡ false) }
{
    with_subcommand(command, cost_command(alloc)?)
}

// The command with its first subcommands: those for one kernel, and that for a program's value.
fn kernel_commands<'a>(alloc: Global) -> Result<Command<'a>, AllocError>
    ensures app { IfOk result (λ c. app_of c ≡ spec.kernel_commands) }
    ensures local { IfOk result (λ c. (out-Command c).has_globals ≡ false) }
{
    let sources = ["program", "script"].as_slice();
    let command = with_words(alloc, bare_command(alloc), "compile", sources)?;
    let command = with_run(alloc, command)?;
    let command = with_cost(alloc, command)?;
    with_words(alloc, command, "eval", ["program", "launch"].as_slice())
}

/// The command of `lift`: one level of subcommands, each with its words, and the flags of a run
/// and of a cost.
pub fn lift_command<'a>(alloc: Global) -> Result<Command<'a>, AllocError>
    ensures { IfOk result (λ c. app_of c ≡ spec.lift_command) }
{
    let sources = ["program", "script"].as_slice();
    let command = with_words(alloc, kernel_commands(alloc)?, "steps", sources)?;
    let command = with_words(alloc, command, "stages", sources)?;
    let files = ["program", "script", "launch"].as_slice();
    let command = with_words(alloc, command, "run-stages", files)?;
    with_words(alloc, command, "demo", ["seed"].as_slice())
}
