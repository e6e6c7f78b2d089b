//! The command line of `lift`, read by clap. Its commands are those of [`Request`].
//!
//! There is no help and no version.
#![tactic(auto)]

mod command;
mod request;

ghost use Rattle.std.specs.Prelude.{◌≡◌, [], IfOk, Some, map, string_bytes, true};
ghost use Rattle.clap.specs.Words.{
  app_of,
  fault_of,
  is_simple_and_free,
  subcommand_of,
  subcommand_rows_of,
};
ghost use Rattle.command_line.specs.App.{lift_command};
ghost use Rattle.command_line.specs.Requests.{
  Asks,
  CommandLine,
  IsRefused,
  IsTaken,
  is_plain,
  line_in,
  line_of,
  words_of,
};

use clap::{ArgMatches, Command};
pub use request::{Request, WordsNo};
use std::alloc::Global;

// A command's matches of the words.
fn matched_by<'w>(command: Command<'w>, words: &'w [String]) -> Result<ArgMatches<'w>, WordsNo>
    requires simple { is_simple_and_free (app_of command) ≡ true }
    ensures taken { IfOk result
        (λ _. fault_of (app_of command.entry) (map string_bytes words.now) ≡ []) }
    ensures rows { IfOk result (λ matches. subcommand_rows_of matches
        ≡ subcommand_of (app_of command.entry) (map string_bytes words.now)) }
    ensures refused { result ≡ Err WordsNo.Refused
        → fault_of (app_of command.entry) (map string_bytes words.now) ≡ [] → ⊥ }
{
    Ok(command.try_get_matches_from(words)?)
}

// Clap's matches of the words.
fn matched<'w>(alloc: Global, words: &'w [String]) -> Result<ArgMatches<'w>, WordsNo>
    ensures taken { IfOk result (λ _. IsTaken (map string_bytes words.now)) }
    ensures rows { IfOk result (λ matches. subcommand_rows_of matches
        ≡ subcommand_of lift_command (map string_bytes words.now)) }
    ensures refused { result ≡ Err WordsNo.Refused → IsTaken (map string_bytes words.now) → ⊥ }
{
    matched_by(command::lift_command(alloc)?, words)
}

// The request that the matches name.
fn matched_request(alloc: Global, words: &[String]) -> Result<Request, WordsNo>
    ensures taken { IfOk result (λ _. IsTaken (map string_bytes words.now)) }
    ensures asked { IfOk result (λ request. line_in (map string_bytes words.now)
        ≡ Some (line_of request)) }
    ensures refused { result ≡ Err WordsNo.Refused → IsRefused (map string_bytes words.now) }
{
    let matches = matched(alloc, words)?;
    match request::entered_request(alloc, &matches)? {
        Some(request) => Ok(request),
        None => Err(WordsNo::Refused),
    }
}

/// Reads the words after the program's name, as clap does for a simple command.
///
/// `WordsNo::Refused` where clap refuses them, or where the seed of a demo isn't the decimal of a
/// number of 32 bits, and `WordsNo::Memory` where memory ran out.
pub fn read_words(alloc: Global, words: &[String]) -> Result<Request, WordsNo>
    // Where clap takes the words, they ask for what its matches say.
    ensures asked { IfOk result (λ request. Asks (map string_bytes words.now) (line_of request)) }

    // They are refused only where clap refuses them, or a demo's seed is no decimal.
    ensures refused { result ≡ Err WordsNo.Refused → IsRefused (map string_bytes words.now) }

    // Clap takes words of just the form, whose file names do not begin with a hyphen and whose seed
    // is a number of 32 bits, and they ask for just what they say.
    ensures plain { (line : CommandLine) → is_plain line ≡ true
        → map string_bytes words.now ≡ words_of line
        → Asks (map string_bytes words.now) line }
{
    matched_request(alloc, words)
}
