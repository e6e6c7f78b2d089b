//! Laws of the rules.

ghost use Rattle.rules_lower.specs.Laws.{LoweringKeeps};

/// What a rule makes of a term keeps the term's type and value, and copies nothing but arrays where
/// the term does.
#[tactic(auto, using(crate::proofs::Kept::lowering_keeps))]
pub fn lowering_keeps()
    ensures { LoweringKeeps }
{}
