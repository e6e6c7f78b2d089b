//! Laws of simplified expressions, each carried by a function that does nothing.

ghost use Rattle.index_simplify.specs.Promises.{CellsComeApart, NothingIsAdded};
ghost use Rattle.index_simplify.specs.Promises.{ExpressionsAreSimplified, FoundLawsApply};
ghost use Rattle.index_simplify.specs.Promises.{SameExpressionsHaveOneValue};
ghost use Rattle.index_simplify.specs.Promises.{SameOperationsAreEqual};
ghost use Rattle.index_simplify.specs.Promises.{TabledExpressionsAreSimplified};

/// What an expression is simplified to has its value at every point of the ranges, ranged wherever
/// it is; it has no more nodes, and none of a shape that something simpler has the value of.
pub fn expressions_are_simplified()
    ensures { ExpressionsAreSimplified }
{}

/// So is what the table of laws alone makes of an expression, without what is known of cells.
pub fn tabled_expressions_are_simplified()
    ensures { TabledExpressionsAreSimplified }
{}

/// The first law that is found for an operation on two expressions is of it.
pub fn found_laws_apply()
    ensures { FoundLawsApply }
{}

/// The test for the same operation passes for one operation alone.
pub fn same_operations_are_equal()
    ensures { SameOperationsAreEqual }
{}

/// Expressions that are the same but for the ranges that their variables carry have one value.
pub fn same_expressions_have_one_value()
    ensures { SameExpressionsHaveOneValue }
{}

/// Of the cell of two variables, the second within a row of at least 2 by its own range, the
/// quotient by the row's length is the first and the remainder the second. A variable that is 0 is
/// nothing to a sum.
pub fn cells_come_apart()
    ensures apart { CellsComeApart }
    ensures nothing { NothingIsAdded }
{}
