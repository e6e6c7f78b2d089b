//! Laws of legal terms, each carried by a function that does nothing.

ghost use Rattle.kernel_premises.specs.Soundness.{LeastSizesAreAdmissible, LoweredTermsHaveSoundParts};

/// A legal term that can be lowered has sound parts.
pub fn lowered_terms_have_sound_parts()
    ensures { LoweredTermsHaveSoundParts }
{}

/// Sizes may all be at their least.
pub fn least_sizes_are_admissible()
    ensures { LeastSizesAreAdmissible }
{}
