//! Laws of the intermediate representation, each carried by a function that does nothing.

ghost use Rattle.lift_ir.specs.Promises.{LayoutsLeadPositions, LayoutsAreByPosition, TermsHaveTheSourceValue, ValuesAreByPosition, LoweredTermsServe, OwnersAreOfTheLaunch};

/// Layouts are functions on positions: each leads the result's to the operand's, and join, split,
/// transpose and reverse back again.
pub fn layouts_lead_positions()
    ensures { LayoutsLeadPositions }
{}

/// Layouts of nested lists are layouts on positions.
pub fn layouts_are_by_position()
    ensures { LayoutsAreByPosition }
{}

/// The value by position of a typed term is the source value on nested lists.
pub fn terms_have_the_source_value()
    ensures { TermsHaveTheSourceValue }
{}

/// A value of a type has its scalars by position, and its lists, one for each
/// component, hold them in row-major order.
pub fn values_are_by_position()
    ensures { ValuesAreByPosition }
{}

/// What a typed term is lowered to has the source's value, has its type at each admissible launch,
/// and loads all that its element terms name.
pub fn lowered_terms_serve()
    ensures { LoweredTermsServe }
{}

/// The owner of each scalar is a work-item of the launch.
pub fn owners_are_of_the_launch()
    ensures { OwnersAreOfTheLaunch }
{}
