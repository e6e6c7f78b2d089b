//! The words of a command line, and what they ask for.

use command_line::{Request, WordsNo, read_words};
use std::alloc::{AllocError, Global};

fn strings(alloc: Global, words: &[&str]) -> Result<Vec<String>, AllocError> {
    let mut all = Vec::new(alloc);
    for word in words {
        all.push(String::from_str(alloc, word)?)?;
    }
    Ok(all)
}

// Memory is ample.
fn read(alloc: Global, words: &[&str]) -> Result<Request, WordsNo> {
    let words = strings(alloc, words)?;
    read_words(alloc, words.as_slice())
}

fn is_refused(rt: &HostRuntime, words: &[&str]) -> bool {
    matches!(read(rt.alloc(), words), Err(WordsNo::Refused))
}

fn is_pair(first: &String, second: &String, files: &[&str]) -> bool {
    match files {
        [a, b] => first.as_str() == *a && second.as_str() == *b,
        _ => false,
    }
}

fn are_three(first: &String, second: &String, third: &String, files: &[&str]) -> bool {
    match files {
        [a, rest @ ..] => first.as_str() == *a && is_pair(second, third, rest),
        _ => false,
    }
}

// The request is the command of this name, with these files.
fn is_request(request: &Request, name: &str, files: &[&str]) -> bool {
    match request {
        Request::Compile { program, script } => {
            name == "compile" && is_pair(program, script, files)
        }
        Request::Steps { program, script } => name == "steps" && is_pair(program, script, files),
        Request::Stages { program, script } => name == "stages" && is_pair(program, script, files),
        Request::Eval { program, launch } => name == "eval" && is_pair(program, launch, files),
        Request::Run {
            program,
            script,
            launch,
            trace: _,
        } => name == "run" && are_three(program, script, launch, files),
        Request::Cost {
            program,
            script,
            launch,
            items: _,
        } => name == "cost" && are_three(program, script, launch, files),
        Request::RunStages {
            program,
            script,
            launch,
        } => name == "run-stages" && are_three(program, script, launch, files),
        Request::Demo { .. } => false,
    }
}

fn is_traced(request: &Request) -> bool {
    match request {
        Request::Run { trace, .. } => *trace,
        _ => false,
    }
}

fn is_by_items(request: &Request) -> bool {
    match request {
        Request::Cost { items, .. } => *items,
        _ => false,
    }
}

fn asks(rt: &HostRuntime, words: &[&str], name: &str, files: &[&str]) -> bool {
    match read(rt.alloc(), words) {
        Ok(request) => is_request(&request, name, files),
        Err(_) => false,
    }
}

// The words ask for a run of these files, with its events or without.
fn runs(rt: &HostRuntime, words: &[&str], files: &[&str], traced: bool) -> bool {
    match read(rt.alloc(), words) {
        Ok(request) => is_request(&request, "run", files) && is_traced(&request) == traced,
        Err(_) => false,
    }
}

// The words ask for the cost of a run of these files, item by item or of all together.
fn costs(rt: &HostRuntime, words: &[&str], files: &[&str], by_items: bool) -> bool {
    match read(rt.alloc(), words) {
        Ok(request) => is_request(&request, "cost", files) && is_by_items(&request) == by_items,
        Err(_) => false,
    }
}

#[test]
fn reads_each_command(rt: HostRuntime) {
    let two = ["dot.lift", "tiles.script"].as_slice();
    let three = ["dot.lift", "tiles.script", "one.json"].as_slice();
    assert!(rt;
        asks(
            &rt,
            ["compile", "dot.lift", "tiles.script"].as_slice(),
            "compile",
            two
        )
    );
    assert!(rt;
        asks(
            &rt,
            ["steps", "dot.lift", "tiles.script"].as_slice(),
            "steps",
            two
        )
    );
    assert!(rt;
        asks(
            &rt,
            ["eval", "dot.lift", "tiles.script"].as_slice(),
            "eval",
            two
        )
    );
    assert!(rt;
        asks(
            &rt,
            ["run", "dot.lift", "tiles.script", "one.json"].as_slice(),
            "run",
            three
        )
    );
}

#[test]
fn reads_the_commands_of_kernels_in_order(rt: HostRuntime) {
    let two = ["dot.lift", "tiles.script"].as_slice();
    let three = ["dot.lift", "tiles.script", "one.json"].as_slice();
    assert!(rt;
        asks(
            &rt,
            ["stages", "dot.lift", "tiles.script"].as_slice(),
            "stages",
            two
        )
    );
    assert!(rt;
        asks(
            &rt,
            ["run-stages", "dot.lift", "tiles.script", "one.json"].as_slice(),
            "run-stages",
            three
        )
    );
    assert!(rt; is_refused(&rt, ["stages", "p"].as_slice()));
    assert!(rt; is_refused(&rt, ["stages", "p", "s", "l"].as_slice()));
    assert!(rt; is_refused(&rt, ["run-stages", "p", "s"].as_slice()));
    assert!(rt; is_refused(&rt, ["run-stages", "p", "s", "l", "x"].as_slice()));
    assert!(rt; is_refused(&rt, ["run_stages", "p", "s", "l"].as_slice()));

    // Neither has a flag.
    assert!(rt; is_refused(&rt, ["stages", "p", "s", "--trace"].as_slice()));
    assert!(rt; is_refused(&rt, ["run-stages", "p", "s", "l", "--trace"].as_slice()));
}

#[test]
fn reads_the_words_of_a_cost(rt: HostRuntime) {
    let files = ["dot.lift", "tiles.script", "one.json"].as_slice();
    let words = ["cost", "dot.lift", "tiles.script", "one.json"].as_slice();
    let with_items = ["cost", "dot.lift", "tiles.script", "one.json", "--items"].as_slice();
    let items_first = ["cost", "--items", "dot.lift", "tiles.script", "one.json"].as_slice();
    assert!(rt; costs(&rt, words, files, false));
    assert!(rt; costs(&rt, with_items, files, true));
    assert!(rt; costs(&rt, items_first, files, true));

    // It wants all three files, once the flag that it has, and none of a run.
    assert!(rt; is_refused(&rt, ["cost", "p", "s"].as_slice()));
    assert!(rt; is_refused(&rt, ["cost", "p", "s", "l", "x"].as_slice()));
    assert!(rt;
        is_refused(
            &rt,
            ["cost", "p", "s", "l", "--items", "--items"].as_slice()
        )
    );
    assert!(rt; is_refused(&rt, ["cost", "p", "s", "l", "--trace"].as_slice()));
    assert!(rt; is_refused(&rt, ["run", "p", "s", "l", "--items"].as_slice()));
}

#[test]
fn takes_any_plain_file_name(rt: HostRuntime) {
    // An empty name, one with spaces, one that is a command, one beyond ASCII.
    assert!(rt;
        asks(
            &rt,
            ["compile", "", "a b"].as_slice(),
            "compile",
            ["", "a b"].as_slice()
        )
    );
    assert!(rt;
        asks(
            &rt,
            ["eval", "run", "größe"].as_slice(),
            "eval",
            ["run", "größe"].as_slice()
        )
    );
}

#[test]
fn takes_a_hyphen_as_clap_does(rt: HostRuntime) {
    // A lone hyphen is a value, and after `--` every word is.
    assert!(rt;
        asks(
            &rt,
            ["steps", "-", "s"].as_slice(),
            "steps",
            ["-", "s"].as_slice()
        )
    );
    assert!(rt;
        asks(
            &rt,
            ["compile", "--", "-p", "--script"].as_slice(),
            "compile",
            ["-p", "--script"].as_slice()
        )
    );
}

#[test]
fn refuses_too_few_words(rt: HostRuntime) {
    assert!(rt; is_refused(&rt, [].as_slice()));
    assert!(rt; is_refused(&rt, ["compile"].as_slice()));
    assert!(rt; is_refused(&rt, ["compile", "p"].as_slice()));
    assert!(rt; is_refused(&rt, ["run", "p", "s"].as_slice()));
    assert!(rt; is_refused(&rt, ["eval", "p"].as_slice()));
    assert!(rt; is_refused(&rt, ["steps", "p"].as_slice()));
}

#[test]
fn refuses_too_many_words(rt: HostRuntime) {
    assert!(rt; is_refused(&rt, ["compile", "p", "s", "l"].as_slice()));
    assert!(rt; is_refused(&rt, ["run", "p", "s", "l", "x"].as_slice()));
    assert!(rt; is_refused(&rt, ["eval", "p", "l", "x"].as_slice()));
    assert!(rt; is_refused(&rt, ["steps", "p", "s", ""].as_slice()));
}

#[test]
fn refuses_other_commands(rt: HostRuntime) {
    assert!(rt; is_refused(&rt, [""].as_slice()));
    assert!(rt; is_refused(&rt, ["lift", "compile", "p", "s"].as_slice()));
    assert!(rt; is_refused(&rt, ["comp", "p", "s"].as_slice()));
    assert!(rt; is_refused(&rt, ["Compile", "p", "s"].as_slice()));
    assert!(rt; is_refused(&rt, ["program", "compile", "s"].as_slice()));
}

#[test]
fn refuses_flags(rt: HostRuntime) {
    assert!(rt; is_refused(&rt, ["compile", "-p", "s"].as_slice()));
    assert!(rt; is_refused(&rt, ["compile", "p", "--script=s"].as_slice()));
    assert!(rt; is_refused(&rt, ["--compile", "p", "s"].as_slice()));
    assert!(rt; is_refused(&rt, ["compile", "p", "s", "--trace"].as_slice()));
    assert!(rt; is_refused(&rt, ["--trace", "run", "p", "s", "l"].as_slice()));
    assert!(rt; is_refused(&rt, ["run", "p", "s", "l", "--traced"].as_slice()));
    assert!(rt; is_refused(&rt, ["run", "p", "s", "l", "-t"].as_slice()));
}

#[test]
fn traces_where_the_flag_is_set(rt: HostRuntime) {
    let files = ["p", "s", "l"].as_slice();
    assert!(rt; runs(&rt, ["run", "p", "s", "l"].as_slice(), files, false));
    assert!(rt;
        runs(
            &rt,
            ["run", "p", "s", "l", "--trace"].as_slice(),
            files,
            true
        )
    );

    // The flag may stand anywhere behind the command's name, once and without a value.
    assert!(rt;
        runs(
            &rt,
            ["run", "--trace", "p", "s", "l"].as_slice(),
            files,
            true
        )
    );
    assert!(rt; is_refused(&rt, ["run", "p", "s", "l", "--trace", "--trace"].as_slice()));
    assert!(rt; is_refused(&rt, ["run", "p", "s", "l", "--trace=true"].as_slice()));
    assert!(rt; is_refused(&rt, ["run", "p", "s", "--trace"].as_slice()));
}

#[test]
fn a_file_may_have_the_name_of_the_flag(rt: HostRuntime) {
    let words = ["run", "p", "s", "--", "--trace"].as_slice();
    let files = ["p", "s", "--trace"].as_slice();
    assert!(rt; runs(&rt, words, files, false));
}

#[test]
fn has_no_help_and_no_version(rt: HostRuntime) {
    assert!(rt; is_refused(&rt, ["--help"].as_slice()));
    assert!(rt; is_refused(&rt, ["-h"].as_slice()));
    assert!(rt; is_refused(&rt, ["help"].as_slice()));
    assert!(rt; is_refused(&rt, ["help", "compile"].as_slice()));
    assert!(rt; is_refused(&rt, ["--version"].as_slice()));
    assert!(rt; is_refused(&rt, ["-V"].as_slice()));
    assert!(rt; is_refused(&rt, ["compile", "--help"].as_slice()));
    assert!(rt; is_refused(&rt, ["compile", "p", "s", "--version"].as_slice()));
}

// The words ask for the demo of this seed.
fn is_demo(rt: &HostRuntime, word: &str, want: u32) -> bool {
    match read(rt.alloc(), ["demo", word].as_slice()) {
        Ok(Request::Demo { seed }) => seed == want,
        _ => false,
    }
}

fn is_no_seed(rt: &HostRuntime, word: &str) -> bool {
    is_refused(rt, ["demo", word].as_slice())
}

// Numbers of 32 bits.
const SEEDS: [(&str, u32); 4] = [("0", 0), ("7", 7), ("10", 10), ("4294967295", 4294967295)];

#[test]
fn a_seed_is_a_number_of_32_bits(rt: HostRuntime) {
    for (word, seed) in SEEDS {
        assert!(rt; is_demo(&rt, word, seed), "{word}");
    }
}

// No number, one with a leading zero or a sign, one of more than 32 bits, two words in one.
const NO_SEEDS: [&str; 9] = [
    "",
    "07",
    "00",
    "+7",
    "-7",
    "4294967296",
    "18446744073709551623",
    "7 ",
    "seven",
];

#[test]
fn no_other_word_is_a_seed(rt: HostRuntime) {
    for word in NO_SEEDS {
        assert!(rt; is_no_seed(&rt, word), "{word}");
    }
    assert!(rt; is_refused(&rt, ["demo"].as_slice()));
    assert!(rt; is_refused(&rt, ["demo", "7", "8"].as_slice()));
}
