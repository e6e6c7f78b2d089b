//! What a kernel's whole code is printed with, and the barriers among it.

ghost use Rattle.std.specs.Prelude.{◌≡◌, OnOk};
ghost use Rattle.barrier_placement.specs.Fencing.{fence};
ghost use Rattle.group_form.specs.Printer as printer;
ghost use Rattle.item_emit.specs.Blocks.{code_in};
ghost use Rattle.group_emit.specs.Settings.{fence_in, fencing_in, forms_along};
ghost use Rattle.group_form.specs.ChosenForms.{form_of, forms_by};

use barrier_placement::Barrier;
use group_form::chosen::{MapForm, is_over_one, local_form};
use item_emit::arguments::Declared;
use item_emit::block::Block;
use kernel_tree::tree::{Dimension, Stmt};
use size_arith::Poly;
use std::alloc::AllocError;

/// What a program's terms name, the barriers of a work-group's body with so many phases,
/// and the size that groups have.
#[derive(Clone, Copy)]
pub struct Setting<'p> {
    pub declared: Declared<'p>,
    pub barriers: &'p [Barrier],
    pub phases: u32,
    /// The local size, where the script fixes it.
    pub local: Option<(u32, u32)>,
}

// The barrier just before a phase, or the one that closes a body of so many.
fn barrier_before(barriers: &[Barrier], phases: u32, phase: u32) -> Option<Barrier>
    ensures { fencing_in result ≡ fence phases barriers.now phase }
{
    match barriers {
        [] => None,
        [barrier, rest @ ..] => {
            if barrier.before.unwrap_or(phases) == phase {
                Some(*barrier)
            } else {
                barrier_before(rest, phases, phase)
            }
        }
    }
}

impl<'p> Setting<'p> {
    // The size that groups have along a dimension.
    fn size_along(&self, dimension: Dimension) -> Option<u32>
        ensures { forms_by self.now.declared.names.now result ≡ forms_along dimension self.now }
    {
        match self.local {
            Some((across, down)) => match dimension {
                Dimension::X => Some(across),
                Dimension::Y => Some(down),
            },
            None => None,
        }
    }

    /// The form of a local map of this length along a dimension.
    pub fn local_form(&self, dimension: Dimension, length: &Poly) -> MapForm
        ensures { form_of result ≡ (forms_along dimension self.now).local length.now }
    {
        local_form(self.declared.names, self.size_along(dimension), length)
    }

    /// Whether a map over so many work-groups along a dimension is an `if`.
    pub fn is_over_one(&self, dimension: Dimension, length: &Poly) -> bool
        ensures { result ≡ (forms_along dimension self.now).once length.now }
    {
        is_over_one(self.declared.names, self.size_along(dimension), length)
    }

    /// Puts the barrier, if any, that stands just before a phase or, where there is none of that
    /// number, that closes the body.
    pub fn put_barrier(&self, phase: u32, block: &mut Block) -> Result<(), AllocError>
        ensures { OnOk result (code_in block.new
            ≡ printer.fenced (fence_in self.now phase) (code_in block.old)) }
    {
        match barrier_before(self.barriers, self.phases, phase) {
            None => Ok(()),
            Some(barrier) => block.put(Stmt::Barrier {
                on_local: barrier.local,
                on_global: barrier.global,
            }),
        }
    }
}
