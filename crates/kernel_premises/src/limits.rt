//! Laws of the limits on terms, each carried by a function that does nothing.

ghost use Rattle.kernel_premises.specs.Within.{TermsCanBeWritten, TermsNestWithin};

/// A term that one work-item runs, or that is a map over the launch or over work-groups, can be
/// written.
pub fn terms_can_be_written()
    ensures { TermsCanBeWritten }
{}

/// A typed term of at most so many layouts, of height at most 512, is lowered to one that nests no
/// deeper.
pub fn terms_nest_within()
    ensures { TermsNestWithin }
{}
