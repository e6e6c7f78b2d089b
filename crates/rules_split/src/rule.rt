//! The rules.

/// A rule, with its number where it has one. In each, n is the length of the array xs.
#[derive(Clone, Copy, PartialEq, Eq)]
pub enum Rule {
    /// `map(\x. f, xs)` becomes `join(map(\r. map(\x. f, r), split(k,
    /// xs)))`: k is positive and divides n.
    SplitMap(u32),
    /// `reduce(op, s, xs)` becomes `reduce(op, s, join(map(\r. reduce(op, e, r), split(k, xs))))`,
    /// where e is neutral: k is positive and divides n.
    SplitReduce(u32),
    /// The same with `transpose(split(k, xs))`: each k-th element, and so on.
    StrideReduce(u32),
    /// `reduce(op, s, xs)` becomes `fold(\a x. op(a, x), s, xs)`.
    ReduceFold,
    /// `slide(s, t, xs)` becomes `join(map(\w. slide(s, t, w), slide(u, v, xs)))`, where u is v + s
    /// - t: v is positive, t divides v, n - u is shown at least 0, and v divides it.
    TileSlide(u32),
}
