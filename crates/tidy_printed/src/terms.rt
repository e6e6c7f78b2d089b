//! The laws, each carried by a function that does nothing.

ghost use Rattle.size_arith.specs.declared.poly.Monomial.{Monomial};
ghost use Rattle.std.specs.Prelude.{List};
ghost use Rattle.tidy_printed.specs.Terms.{TidiedCodesArePrinted, TidiedGridCodesArePrinted, TidiedGroupCodesArePrinted, TidiedKernelsArePrinted, TidiedLoadsArePrinted, TidiedMapsArePrinted};

/// Code that is printed for the loads of an element, in these loops and ifs at these turns, is
/// printed for them when it is tidied, where indices and bounds keep their values.
pub fn tidied_loads_are_printed()
    ensures { TidiedLoadsArePrinted }
{}

/// And so is what is printed for a map of whatever kind: a loop, an `if` or its turn alone.
pub fn tidied_maps_are_printed()
    ensures { TidiedMapsArePrinted (List Monomial) }
{}

/// Code that is printed for a term, by one work-item or over the launch, is printed for it when it
/// is tidied, where indices and bounds keep their values.
pub fn tidied_codes_are_printed()
    ensures { TidiedCodesArePrinted (List Monomial) }
{}

/// Code that is printed for a map over work-groups is printed for it when it is tidied, with the
/// same barriers, where indices and bounds keep their values.
pub fn tidied_group_codes_are_printed()
    ensures { TidiedGroupCodesArePrinted (List Monomial) }
{
    tidied_loads_are_printed();
    tidied_maps_are_printed();
}

/// And so is code that is printed for a map over work-groups in two dimensions.
pub fn tidied_grid_codes_are_printed()
    ensures { TidiedGridCodesArePrinted (List Monomial) }
{}

/// A kernel that is printed for a program's typed term at a launch, by whichever printer, is
/// printed for it when it is tidied, where indices and bounds keep their values at the launch.
pub fn tidied_kernels_are_printed()
    ensures { TidiedKernelsArePrinted }
{
    tidied_codes_are_printed();
    tidied_group_codes_are_printed();
    tidied_grid_codes_are_printed();
}
