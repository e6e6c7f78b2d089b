//! The owner of a cell.

ghost use Rattle.std.specs.Prelude.{◌≡◌, ◌+◌, ◌*◌, ◌/◌, ◌%◌, ◌<◌, ℕ, List, Option};
ghost use Rattle.kernel_tree.specs.Launch.{IsDivided, IsWhole};
ghost use Rattle.lift_tree.specs.Annotations.{annotation_of};
ghost use Rattle.lift_tree.specs.Tree.{tree_of};
ghost use Rattle.lift_tree.specs.Typing.{Declared};
ghost use Rattle.lift_ir.specs.AtLaunch.{length_at};
ghost use Rattle.lowered_tree.specs.Kinds.{asks_of};
ghost use Rattle.launch_lengths.specs.Bases.{bases_of};
ghost use Rattle.output_owner.specs.Outputs.{IsLegalFor, cell_count};
ghost use Rattle.output_owner.specs.Owners as owners;
ghost use Rattle.output_owner.specs.Owners.{position, written};
ghost use Rattle.output_owner.specs.Written.{IsScalarOf};
ghost use Rattle.printed_form.specs.Programs.{IsLaunchOf, cell_owner};
ghost use Rattle.size_arith.specs.Ranges.{AreNames};

use crate::walk::on_top;
use kernel_tree::launches::Launch;
use launch_lengths::laws::bases_come_back;
use lift_tree::term::{Dimension, Level, MapKind, Term};
use lift_tree::typed::NodeTypes;
use lowered_tree::lowered::Lowered;
use nest_premises::laws::{legal_nests_are_unbroken, legal_terms_can_be_lowered};
use size_arith::Name;

// Of sizes along a row and from row to row, that along this dimension.
fn along(dimension: Dimension, sizes: (u32, u32)) -> u32
    ensures { result ≡ owners.along dimension sizes }
{
    match dimension {
        Dimension::X => sizes.0,
        Dimension::Y => sizes.1,
    }
}

// In which column of its group the item is that writes a scalar, or in which row.
fn local_along(
    dimension: Dimension,
    term: &Term,
    types: &NodeTypes,
    number: u64,
    launch: &Launch,
    names: &[Name],
) -> u32
    requires names { AreNames names.now }
    requires whole { IsWhole launch.now }
    ensures item { IsScalarOf names.now launch.now.sizes (tree_of term.now)
        (annotation_of types.now) number
        → result ≡ owners.local_along dimension
        (length_at (bases_of names.now launch.now.sizes)) launch.now
        (written names.now (tree_of term.now) (annotation_of types.now))
        (position (bases_of names.now launch.now.sizes) (annotation_of types.now) number) }
    ensures below { result < owners.along dimension launch.now.local }
{
    match on_top(term, types, number, names, &launch.sizes) {
        Some(top) => match top.kind {
            MapKind::Over(level, own) => match (own, dimension) {
                (Dimension::X, Dimension::X) | (Dimension::Y, Dimension::Y) => match level {
                    Level::Items => (top.turn % along(dimension, launch.local) as u64) as u32,
                    Level::Launch | Level::Groups => 0,
                },
                (Dimension::Y, Dimension::X) => match level {
                    Level::Items => {
                        local_along(dimension, top.body, top.types, top.number, launch, names)
                    }
                    Level::Launch | Level::Groups => 0,
                },
                (Dimension::X, Dimension::Y) => match level {
                    Level::Groups => {
                        local_along(dimension, top.body, top.types, top.number, launch, names)
                    }
                    Level::Launch | Level::Items => 0,
                },
            },
            MapKind::Plain | MapKind::Sequential => 0,
        },
        None => 0,
    }
}

// The column of the launch, or the row, of one of a group's.
fn in_group(global: u32, local: u32, turn: u64, own: u32) -> u32
    requires divided { IsDivided global local }
    requires some { 0 < global }
    requires below { own < local }
    ensures { result ≡ (turn % (global / local)) * local + own }
{
    let groups = global / local;
    let group = (turn % groups as u64) as u32;
    group * local + own
}

// In which column of the launch the item is that writes a scalar, or in which row.
fn owner_along(
    dimension: Dimension,
    term: &Term,
    types: &NodeTypes,
    number: u64,
    launch: &Launch,
    names: &[Name],
) -> u32
    requires names { AreNames names.now }
    requires whole { IsWhole launch.now }
    requires some { (0 < launch.now.global.0) × (0 < launch.now.global.1) }
    ensures { IsScalarOf names.now launch.now.sizes (tree_of term.now)
        (annotation_of types.now) number
        → result ≡ owners.owner_along dimension
        (length_at (bases_of names.now launch.now.sizes)) launch.now
        (written names.now (tree_of term.now) (annotation_of types.now))
        (position (bases_of names.now launch.now.sizes) (annotation_of types.now) number) }
{
    match on_top(term, types, number, names, &launch.sizes) {
        Some(top) => match top.kind {
            MapKind::Over(level, own) => match (own, dimension) {
                (Dimension::X, Dimension::X) | (Dimension::Y, Dimension::Y) => match level {
                    Level::Launch => (top.turn % along(dimension, launch.global) as u64) as u32,
                    Level::Groups => {
                        let own = local_along(
                            dimension, top.body, top.types, top.number, launch, names,
                        );
                        let global = along(dimension, launch.global);
                        in_group(global, along(dimension, launch.local), top.turn, own)
                    }
                    Level::Items => 0,
                },
                (Dimension::Y, Dimension::X) => match level {
                    Level::Launch | Level::Groups => {
                        owner_along(dimension, top.body, top.types, top.number, launch, names)
                    }
                    Level::Items => 0,
                },
                (Dimension::X, Dimension::Y) => 0,
            },
            MapKind::Plain | MapKind::Sequential => 0,
        },
        None => 0,
    }
}

/// The work-item that writes the cell of this number, in row-major order, in each of the output's
/// buffers: the one that a kernel for the term owes it by.
///
/// Under `mapGlb` at turn i it is in column i mod G, where a row of the launch has G items; under
/// `mapWrg` at turn i and `mapLcl` at turn j in column j mod L of one of the groups in column
/// i mod (G / L), where a row of a group has L. Likewise its row is told by `mapGlb1`, and by
/// `mapWrg1` and `mapLcl1`. Columns and rows that no map tells are the first. The term is a legal
/// one, the launch is admissible for it, whatever local size is fixed, and the cell is in the
/// output. It takes no memory.
pub fn owner(lowered: &Lowered, launch: &Launch, cell: u64) -> u32
    requires whole { IsWhole launch.now }
    requires some { (0 < launch.now.global.0) × (0 < launch.now.global.1) }
    ensures { (d : Declared) (local : Option (ℕ × ℕ)) (bases : List ℕ) → IsLegalFor d lowered.now
        → IsLaunchOf d (asks_of local (tree_of lowered.now.term)) bases
        (tree_of lowered.now.term) (annotation_of lowered.now.types) launch.now
        → (array : ℕ) → cell < cell_count bases lowered.now
        → result ≡ cell_owner d.names bases launch.now (tree_of lowered.now.term)
        (annotation_of lowered.now.types) array cell }
{
    bases_come_back();
    legal_terms_can_be_lowered();
    legal_nests_are_unbroken();
    let names = lowered.names.as_slice();
    let term = &lowered.term;
    let types = &lowered.types;
    let column = owner_along(Dimension::X, term, types, cell, launch, names);
    let row = owner_along(Dimension::Y, term, types, cell, launch, names);
    column.wrapping_add(row.wrapping_mul(launch.global.0))
}
