//! The compiler's command: what its words ask for, from the bytes of the files to those of the
//! output.
#![tactic(auto)]

ghost use Rattle.std.specs.Prelude.{
  ◌≡◌,
  ◌≢◌,
  ◌⊎◌,
  ℕ,
  List,
  [],
  true,
  IfErr,
  IfOk,
  map,
  string_bytes,
};
ghost use Rattle.std.specs.Io.KnownBytes.{Appends};
ghost use Rattle.lift_io.specs.Causes.{Rose};
ghost use Rattle.command_line.specs.Requests as requests;
ghost use Rattle.command_line.specs.Requests.{Asks, IsRefused, is_plain, words_of};
ghost use Rattle.fault_lines.specs.Failure as failures;
ghost use Rattle.fault_lines.specs.Failure.{line_of, status_of};
ghost use Rattle.fault_lines.specs.Lines.{TakesLine, TakesPrefix};
ghost use Rattle.fault_lines.specs.Shown.{failure_of};
ghost use Rattle.lift_tool.specs.Files.{AllTold, AreTexts, AsksAll, AsksFirst, NoneRose};
ghost use Rattle.lift_tool.specs.Outcome.{
  IsAccepted,
  Answers,
  AreLinesOfWritten,
  Cause,
  StopsFor,
  OnTexts,
  WordsCause,
};
ghost use Rattle.lift_tool.specs.Request.{files_of};

mod files;
mod host;
mod requests;

use command_line::read_words;
pub use compilation::{Compiled, CompiledSequence, compile_sequence, compile_text};
use fault_lines::Failure;
pub use fault_lines::Refusal;
pub use files::{LAUNCH_LIMIT, SOURCE_LIMIT};
pub use host::command;
use lift_io::{Files, Sink, write_whole};
pub use program_runs::run_launch;
use program_runs::{one_end, sequences_run_alike, texts_have_costs, texts_run_alike};
pub use program_source::{source_terms, steps_text};
use requests::answer_of;
use std::alloc::Global;

// The text that the words ask for.
fn answer<F: Files>(alloc: Global, words: &[String], files: &mut F) -> Result<Vec<u8>, Failure>
    ensures ok { IfOk result (λ text. OnTexts (F.told files.old) (map string_bytes words.now)
        (λ request texts. Answers request texts text.items)) }
    ensures refused { IfErr result (λ no. WordsCause (F.told files.old)
        (λ n. Rose (F.faults files.old n) (F.faults files.new n)) (map string_bytes words.now)
        (failure_of no)) }
    ensures plain { (request : requests.CommandLine) → is_plain request ≡ true
        → map string_bytes words.now ≡ words_of request
        → Asks (map string_bytes words.now) request }
    ensures asks { (request : requests.CommandLine) → Asks (map string_bytes words.now) request
        → AsksFirst (F.asked files.old) (F.asked files.new) (files_of request) }
    ensures asks_all { IfOk result (λ _. (request : requests.CommandLine)
        → Asks (map string_bytes words.now) request
        → AsksAll (F.asked files.old) (F.asked files.new) (files_of request)) }
    ensures asks_none { IsRefused (map string_bytes words.now)
        → AsksAll (F.asked files.old) (F.asked files.new) [] }
{
    let request = read_words(alloc, words)?;
    answer_of(alloc, files, request)
}

// Ends the call without a result.
fn fail<E: Sink>(err: &mut E, failure: Failure) -> u8
    ensures status { result ≡ status_of (failure_of failure) }
    ensures line { TakesLine (E.taken err.old) (E.taken err.new)
        (Rose (E.faults err.old) (E.faults err.new)) (line_of (failure_of failure)) }
{
    failure.report(err);
    failure.status()
}

/// Does what the words of the command line ask for (`Request` of command_line says what each
/// command writes), and answers the status that the program ends with.
///
/// Each file is read, and then its length is judged; all are, before the first is looked at.
/// Want of memory (status 13) may come at any point.
pub fn lift_tool<F: Files, O: Sink, E: Sink>(
    alloc: Global,
    words: &[String],
    files: &mut F,
    out: &mut O,
    err: &mut E,
) -> u8
    // At 0 the output took just the text of the kernel or of the kernels in order, the lines of the
    // terms, of the run or of the cost, the result line of the runs in order or of the source
    // value, or the line of the demo, and nothing went to `err`.
    ensures done { result ≡ 0
        → OnTexts (F.told files.old) (map string_bytes words.now) (λ request texts.
        (text : List ℕ) × Answers request texts text
        × Appends (O.taken out.old) (O.taken out.new) text)
        × (err.new ≡ err.old) }

    // The lines of a run are those of the text that `compile` writes for the same files, and the
    // line of runs in order is that of the text that `stages` writes for them. The lines of a cost
    // tell the loads, stores and releases of each run of the text that can't go on.
    ensures alike { result ≡ 0
        → OnTexts (F.told files.old) (map string_bytes words.now) (λ request texts.
        (lines : List ℕ) × AreLinesOfWritten request texts lines
        × Appends (O.taken out.old) (O.taken out.new) lines) }

    // Every other status comes for its cause, and `err` took its line.
    ensures refused { result ≢ 0 → (failure : failures.Failure)
        × (result ≡ status_of failure)
        × Cause (F.told files.old) (λ n. Rose (F.faults files.old n) (F.faults files.new n))
        (Rose (O.faults out.old) (O.faults out.new)) (map string_bytes words.now) failure
        × TakesLine (E.taken err.old) (E.taken err.new)
        (Rose (E.faults err.old) (E.faults err.new)) (line_of failure) }
    ensures write { result ≡ 4
        → OnTexts (F.told files.old) (map string_bytes words.now) (λ request texts.
        (text : List ℕ) × Answers request texts text
        × TakesPrefix (O.taken out.old) (O.taken out.new) text) }
    ensures untouched { result ≢ 0 → result ≢ 4 → out.new ≡ out.old }

    // The files that the words name are asked for in order, each once and with its limit, and no
    // others: at 0 all of them, else the first ones; none where the words are refused.
    ensures asks { (request : requests.CommandLine) → Asks (map string_bytes words.now) request
        → AsksFirst (F.asked files.old) (F.asked files.new) (files_of request) }
    ensures asks_all { (request : requests.CommandLine) → Asks (map string_bytes words.now) request
        → result ≡ 0 → AsksAll (F.asked files.old) (F.asked files.new) (files_of request) }
    ensures asks_none { IsRefused (map string_bytes words.now)
        → AsksAll (F.asked files.old) (F.asked files.new) [] }

    // Words that clap refuses, or whose seed is no decimal, are told so.
    ensures words { IsRefused (map string_bytes words.now) → (result ≡ 2) ⊎ (result ≡ 13) }

    // Words of just the form, whose file names don't begin with a hyphen and whose seed is a number
    // of 32 bits, ask for what they say, and aren't refused.
    ensures plain { (request : requests.CommandLine) → is_plain request ≡ true
        → map string_bytes words.now ≡ words_of request
        → Asks (map string_bytes words.now) request × (result ≢ 2) }

    // Told files that are well formed have a result, where no read or write fails and memory lasts.
    ensures complete { (request : requests.CommandLine) (texts : List (List ℕ))
        → Asks (map string_bytes words.now) request
        → AllTold (F.told files.old) (files_of request)
        → AreTexts (F.told files.old) (files_of request) texts → IsAccepted request texts
        → NoneRose (λ n. Rose (F.faults files.old n) (F.faults files.new n)) (files_of request)
        → ¬ Rose (O.faults out.old) (O.faults out.new)
        → (result ≡ 0) ⊎ (result ≡ 13) }

    // Where told files stop for a cause, and no read fails, the status and the line are that
    // cause's and no other's.
    ensures exact { (request : requests.CommandLine) (failure : failures.Failure)
        → Asks (map string_bytes words.now) request
        → AllTold (F.told files.old) (files_of request)
        → NoneRose (λ n. Rose (F.faults files.old n) (F.faults files.new n)) (files_of request)
        → StopsFor (F.told files.old) (λ n. Rose (F.faults files.old n) (F.faults files.new n))
        request failure
        → (result ≡ 13) ⊎ ((result ≡ status_of failure)
        × TakesLine (E.taken err.old) (E.taken err.new)
        (Rose (E.faults err.old) (E.faults err.new)) (line_of failure)) }

    // No stage refuses a demo.
    ensures demo { (seed : ℕ) → Asks (map string_bytes words.now) (requests.demo seed)
        → (result ≡ 0) ⊎ ((result ≡ 4) ⊎ (result ≡ 13)) }
{
    one_end();
    sequences_run_alike();
    texts_have_costs();
    texts_run_alike();
    match answer(alloc, words, files) {
        Ok(text) => match write_whole(out, text.as_slice()) {
            Ok(()) => 0,
            Err(_) => fail(err, Failure::Write),
        },
        Err(failure) => fail(err, failure),
    }
}
