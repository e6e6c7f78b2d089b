//! The rules of the nest.

/// A rule that a printed term keeps. What breaks it is told with each: for all but `N12` a node.
#[derive(Clone, Copy, PartialEq, Eq)]
pub enum NestRule {
    /// A plain map, reduce or fold.
    N1,
    /// A map over a group's items with no map over groups around it, or with a further
    /// body of a map or fold between.
    N2,
    /// A map over all items or over groups, inside a parallel map's body.
    N3,
    /// In a group's body and outside its items': a sequential map or fold, an element that is
    /// stored, or a let of an element.
    N4,
    /// A local copy outside a group's body, or in an item's, or of anything
    /// but a map over a group's items.
    N5,
    /// A local copy whose type has a length that names a size.
    N6,
    /// In an argument, a map or fold that isn't copied, or a let of an element; in an element term,
    /// a let of anything but an element.
    N7,
    /// A private copy outside a work-item's body, or whose type has a length that names a size.
    N8,
    /// A parallel map in the body of a sequential map or of a let of an element.
    N9,
    /// In writing position, and no element: zip, slide, pad, first, second or asVector.
    N10,
    /// In writing position, and no element: a variable, an input or a copy.
    N11,
    /// A local size above 1 that is fixed for a term without a parallel map, or one of more than
    /// one row for a term without a map along dimension 1: of the whole, at the root.
    N12,
    /// A cut between two kernels, in the term of one kernel.
    N13,
    /// In a term with a map along dimension 1: such a map that begins no pair, or a parallel map
    /// along dimension 0 that is no pair's inner one.
    N14,
    /// An asVector of an array that isn't aligned; an asScalar outside writing positions, under a
    /// private copy, or with a layout other than join and split above
    /// it; a copy that holds vectors.
    N15,
}

impl NestRule {
    /// What is judged at all nodes before any other rule.
    pub const EARLIEST: [NestRule; 1] = [NestRule::N13];

    /// All other rules that a node breaks, the lowest first.
    pub const LATER: [NestRule; 13] = [
        NestRule::N1,
        NestRule::N2,
        NestRule::N3,
        NestRule::N4,
        NestRule::N5,
        NestRule::N6,
        NestRule::N7,
        NestRule::N8,
        NestRule::N9,
        NestRule::N10,
        NestRule::N11,
        NestRule::N14,
        NestRule::N15,
    ];
}
