//! Laws of views, each carried by a function that does nothing.

ghost use Rattle.array_views.specs.NodeCounts.{IndicesHaveNoMoreNodes};
ghost use Rattle.array_views.specs.Promises.{ViewsNameCells, CellsAreWithin, GoalsDiffer, GoalsAreFull};

use index_simplify::laws::same_expressions_have_one_value;

/// At indices that have a position's values, a view names what stands for the scalar there: the
/// variable, or the cell, by an index with the value of the row-major formula, in which no
/// operation wraps and nothing is divided by 0.
pub fn views_name_cells()
    ensures { ViewsNameCells }
{
    same_expressions_have_one_value();
}

/// The cell of each position lies within its array.
pub fn cells_are_within()
    ensures { CellsAreWithin }
{}

/// Where a value goes, different scalars have different cells, and all
/// scalars together have every cell.
pub fn goals_are_one_to_one()
    ensures different { GoalsDiffer }
    ensures full { GoalsAreFull }
{}

/// An index has no more nodes than the formulas put into one another have.
pub fn indices_have_no_more_nodes()
    ensures { IndicesHaveNoMoreNodes }
{}
