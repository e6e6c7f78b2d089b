//! The declared sizes that a launch file gives.

ghost use Rattle.std.specs.Prelude.{◌≡◌, ◌≢◌, ◌++◌, Err, IfErr, IfOk, Ok, OnOk, map};
ghost use Rattle.serde_json.specs.View.{view};
ghost use Rattle.size_arith.specs.Ranges.{AreNames, IsName};
ghost use Rattle.lift_tree.specs.WorkedOut.{range_of};
ghost use Rattle.launch_file.specs.Judged.{AllInRange, AreInRange, bases_of};
ghost use Rattle.launch_file.specs.Judged.{size_judged, sizes_judged};
ghost use Rattle.launch_file.specs.declared.refusal.LaunchNo.TheVariants.{Memory};

use crate::lookup::named;
use crate::refusal::{Key, LaunchNo};
use lift_tree::program::Size;
use serde_json::Value;
use size_arith::{Name, Sizes};
use std::alloc::{AllocError, Global};

// The size of this number.
fn size_in(index: usize, size: &Size, value: &Value) -> Result<u32, LaunchNo>
    requires { IsName (range_of size.now) }
    ensures { result ≡ size_judged index size.now (view value.now) }
{
    let Some(given) = named(value, &size.name).and_then(Value::as_u64) else {
        return Err(LaunchNo::Missing(Key::SizeAt(index)));
    };
    let from = u64::from(size.from);
    let to = u64::from(size.to);
    if from <= given && given <= to && given % u64::from(size.multiple) == 0 {
        Ok(given as u32)
    } else {
        Err(LaunchNo::Size { size: index, given })
    }
}

#[tactic(auto, using(crate::proofs::Ranges::name_at))]
/// The declared sizes in turn, as the object gives them.
pub fn sizes_in(alloc: Global, sizes: &[Size], value: &Value) -> Result<Vec<u32>, LaunchNo>
    requires { AreNames (map range_of sizes.now) }
    ensures ok { IfOk result (λ ns. sizes_judged 0 sizes.now (view value.now) ≡ Ok ns.items) }
    ensures refused { IfErr result (λ e. e ≢ Memory
        → sizes_judged 0 sizes.now (view value.now) ≡ Err e) }
{
    let mut given = Vec::new(alloc);
    for (index, size) in sizes.iter().enumerate() {
        given.push(size_in(index, size, value)?)?;
    }
    Ok(given)
}

#[tactic(auto, using(crate::proofs::Ranges::no_bases))]
fn add_bases(bases: &mut Sizes, sizes: &[Size], given: &[u32]) -> Result<(), AllocError>
    requires named { AreNames (map range_of sizes.now) }
    requires given { AreInRange sizes.now given.now }
    ensures { OnOk result (bases.new ≡ bases.old ++ bases_of sizes.now given.now) }
{
    let [size, sizes @ ..] = sizes else {
        return Ok(());
    };
    let [first, given @ ..] = given else {
        return Ok(());
    };
    let name = Name {
        multiple: size.multiple,
        from: size.from,
        to: size.to,
    };
    bases.push(name, *first)?;
    add_bases(bases, sizes, given)
}

/// The sizes by their base names.
pub fn bases_of(alloc: Global, sizes: &[Size], given: &[u32]) -> Result<Sizes, AllocError>
    requires named { AreNames (map range_of sizes.now) }
    requires given { AllInRange sizes.now given.now }
    ensures { IfOk result (λ bases. bases ≡ bases_of sizes.now given.now) }
{
    let mut bases = Sizes::new(alloc);
    add_bases(&mut bases, sizes, given)?;
    Ok(bases)
}
