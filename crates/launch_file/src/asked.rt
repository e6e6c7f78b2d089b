//! The keys that a launch file is asked for.

ghost use Rattle.std.specs.Prelude.{◌≡◌, map};
ghost use Rattle.lift_tree.specs.Programs.{input_of, program_of};
ghost use Rattle.launch_file.specs.Asked.{is_asked, is_key, names_input, names_size};

use lift_tree::program::{Input, Program, Size};

// Whether it is one of a launch file's own keys.
fn is_key(key: &str) -> bool
    ensures { result ≡ is_key key.now }
{
    key == "global"
        || key == "local"
        || key == "sizes"
        || key == "inputs"
        || key == "schedule"
        || key == "seed"
        || key == "launches"
}

// Whether it is the name of one of the sizes.
fn names_size(sizes: &[Size], key: &str) -> bool
    ensures { result ≡ names_size sizes.now key.now }
{
    match sizes {
        [] => false,
        [size, rest @ ..] => size.name.bytes() == key.as_bytes() || names_size(rest, key),
    }
}

// Whether it is the name of one of the inputs.
fn names_input(inputs: &[Input], key: &str) -> bool
    ensures { result ≡ names_input (map input_of inputs.now) key.now }
{
    match inputs {
        [] => false,
        [input, rest @ ..] => input.name.bytes() == key.as_bytes() || names_input(rest, key),
    }
}

/// Whether launch files of the program are asked for the key.
pub fn is_asked(program: &Program, key: &str) -> bool
    ensures { result ≡ is_asked (program_of program.now) key.now }
{
    is_key(key) || names_size(&program.sizes, key) || names_input(&program.inputs, key)
}
