//! A law of what is printed, carried by a function that does nothing.

ghost use Rattle.std.specs.Prelude.{Bool, List, ℕ};
ghost use Rattle.item_emit.specs.Copies.{HasShortCopies};
ghost use Rattle.lift_ir.specs.Loads.{LoadsSuffice};
ghost use Rattle.lift_ir.specs.Lowering.{Lowered};

/// A term whose loads suffice, as those of a lowered term do, has copies that are short.
#[tactic(auto, using(crate::proofs::Copies::short_copies))]
pub fn copies_are_short()
    ensures { (h : ℕ → List Bool → Bool) (t : Lowered) → LoadsSuffice h t → HasShortCopies t }
{}
