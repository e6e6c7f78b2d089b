//! Worked indices and bounds, carried by a function that does nothing.

ghost use Rattle.worked_kernels.specs.Indices.{BoundsAreTidied, BoundsDoNotStay, IfsTellOfIds, IndicesDoNotGrow, JoinsAreCounted, JoinsAreTidied, JoinsDoNotStay};

/// Worked indices: a cell of rows is read at the loop's variable, where the formulas put into one
/// another have nine nodes, and a loop over twice the half of a size is bound by that size; neither
/// may stay as it was, nor may an index grow. In an `if` that
/// lets in two of four items, the row of a cell in rows of two is the loop's turn.
pub fn worked_indices()
    ensures joins { JoinsAreCounted × JoinsAreTidied × JoinsDoNotStay }
    ensures bounds { BoundsAreTidied × BoundsDoNotStay }
    ensures others { IndicesDoNotGrow }
    ensures ids { IfsTellOfIds }
{}
