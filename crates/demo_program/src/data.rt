//! The demo's launch, and its data.
ghost use Rattle.std.specs.Prelude.{◌≡◌, ◌*◌, ◌+◌, ◌%◌, ◌^◌, ◌∷◌, [], IfOk, map};
ghost use Rattle.launch_file.specs.LaunchFile.{given_by};
ghost use Rattle.lift_tree.specs.Values.{value_of};
ghost use Rattle.demo_program.specs.Data.{demo_given, words_from};

use kernel_tree::launches::{Launch, Schedule};
use launch_file::file::LaunchFile;
use launch_file::laws::lists_are_arrays;
use lift_tree::value::Val;
use size_arith::{Name, Sizes};
use std::alloc::{AllocError, Global};

/// How many numbers the data are.
pub const COUNT: u32 = 4096;

// The generator's next state.
fn next(state: u32) -> u32
    ensures { result ≡ (1664525 * state + 1013904223) % 2 ^ 32 }
{
    ((1664525 * u64::from(state) + 1013904223) % (1 << 32)) as u32
}

// So many states of the generator in turn, from the one after this on.
fn data(alloc: Global, seed: u32, count: u32) -> Result<Vec<Val>, AllocError>
    ensures { IfOk result (λ vs. map value_of vs.items ≡ words_from seed 0 count) }
{
    let mut state = seed;
    let mut values = Vec::new(alloc);
    for _done in 0..count {
        state = next(state);
        values.push(Val::Number(state))?;
    }
    Ok(values)
}

// The size of the demo, by its base name.
fn sizes(alloc: Global) -> Result<Sizes, AllocError>
    ensures { IfOk result (λ s. s ≡ 64 ∷ []) }
{
    let mut sizes = Sizes::new(alloc);
    let name = Name {
        multiple: 64,
        from: 64,
        to: 65_536,
    };
    sizes.push(name, COUNT)?;
    Ok(sizes)
}

/// The demo's launch: 256 work-items in groups of 32, over as many numbers as a generator, begun at
/// the seed, gives in turn, under the schedule of that seed.
pub fn demo_launch(alloc: Global, seed: u32) -> Result<LaunchFile, AllocError>
    ensures { IfOk result (λ f. given_by f ≡ demo_given seed) }
{
    lists_are_arrays();
    let mut words = Vec::new(alloc);
    words.push(COUNT)?;
    let sizes = sizes(alloc)?;
    let mut inputs = Vec::new(alloc);
    inputs.push(Val::List(data(alloc, seed, COUNT)?))?;
    Ok(LaunchFile {
        launch: Launch {
            global: (256, 1),
            local: (32, 1),
            sizes: words,
        },
        sizes,
        inputs,
        schedule: Schedule::Seed(seed),
    })
}
