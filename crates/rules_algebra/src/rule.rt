//! The rules by name.

ghost use Rattle.std.specs.Prelude.{IfOk};
ghost use Rattle.lift_tree.specs.Tree.{tree_of};
ghost use Rattle.lift_tree.specs.Renumbering.{IsRenumberable};
ghost use Rattle.rewriting.specs.Around.{context_of};
ghost use Rattle.rewriting.specs.Answers.{IsAnswer};
ghost use Rattle.rewriting.specs.Keeps.{KeepsIn};
ghost use Rattle.rules_algebra.specs.Rows.{answer as answer_of};

use crate::fusing::{fuse_fold, fuse_map};
use crate::inlining::{copy, let_inline};
use crate::layouts::{
    join_split, map_join, map_split, map_transpose, split_join, transpose_transpose,
};
use crate::padding::{map_pad, pad_map};
use crate::strides::{map_reverse, map_stride, reverse_reverse, stride_layout, stride_stride};
use lift_tree::term::Term;
use lift_tree::typed::Context;
use rewriting::Refused;
use std::alloc::Global;

/// A rule of this crate. `xs`, `f`, `g`, `s`, `v` and `b` stand for any terms; maps and folds are
/// plain ones.
#[derive(Clone, Copy, PartialEq, Eq)]
pub enum Rule {
    /// `map(\y. f, map(\x. g, xs))` becomes `map(\x. let y = g in f, xs)`.
    FuseMap,
    /// `fold(\a y. f, s, map(\x. g, xs))` becomes `fold(\a x. let y = g in f, s, xs)`.
    FuseFold,
    /// `join(split(m, xs))` becomes `xs`.
    JoinSplit,
    /// `split(m, join(xs))` becomes `xs`, where the rows of `xs` have the length m.
    SplitJoin,
    /// `transpose(transpose(xs))` becomes `xs`.
    TransposeTranspose,
    /// `map(\x. f, join(xs))` becomes `join(map(\r. map(\x. f, r), xs))`.
    MapJoin,
    /// `map(\r. map(\x. f, r), split(m, xs))` becomes `split(m, map(\x. f, xs))`, where `f` doesn't
    /// name r.
    MapSplit,
    /// `map(\r. map(\x. f, r), transpose(xs))` becomes `transpose(map(\r. map(\x. f, r), xs))`,
    /// where `f` doesn't name r.
    MapTranspose,
    /// `reverse(reverse(xs))` becomes `xs`.
    ReverseReverse,
    /// `map(\x. f, reverse(xs))` becomes `reverse(map(\x. f, xs))`.
    MapReverse,
    /// `map(\x. f, stride(m, xs))` becomes `stride(m, map(\x. f, xs))`.
    MapStride,
    /// `stride(k, stride(m, xs))` becomes `xs`, where k times m is the length of `xs`.
    StrideStride,
    /// `stride(m, xs)` becomes `join(transpose(split(m, xs)))`, where the length of `xs` by m is
    /// shown at least 1.
    StrideLayout,
    /// `pad(l, r, map(\x. f, xs))` becomes `map(\x. f, pad(l, r, xs))`.
    PadMap,
    /// `map(\x. f, pad(l, r, xs))` becomes `pad(l, r, map(\x. f, xs))`.
    MapPad,
    /// `let x = v in b` becomes `b` with `v` for x.
    LetInline,
    /// `xs` becomes `map(\x. x, xs)`, where `xs` is an array.
    Copy,
}

/// The term rewritten by the rule, or why it isn't: it isn't of the rule's shape, or the rule's
/// condition is false. In whatever program the context is that of the term's place, the new term
/// has the old one's type and value.
pub fn apply(alloc: Global, rule: &Rule, term: Term, context: &Context) -> Result<Term, Refused>
    requires { IsRenumberable (tree_of term) }
    ensures answer { IsAnswer
        (answer_of rule.now (context_of context.now) (tree_of term)) term result }
    ensures keeps { IfOk result (λ t. KeepsIn (context_of context.now) (tree_of term) (tree_of t)) }
{
    match rule {
        Rule::FuseMap => fuse_map(alloc, term),
        Rule::FuseFold => fuse_fold(alloc, term),
        Rule::JoinSplit => join_split(term, context),
        Rule::SplitJoin => split_join(term, context),
        Rule::TransposeTranspose => transpose_transpose(term),
        Rule::MapJoin => map_join(alloc, term),
        Rule::MapSplit => map_split(alloc, term),
        Rule::MapTranspose => map_transpose(alloc, term),
        Rule::ReverseReverse => reverse_reverse(term),
        Rule::MapReverse => map_reverse(alloc, term),
        Rule::MapStride => map_stride(alloc, term),
        Rule::StrideStride => stride_stride(term, context),
        Rule::StrideLayout => stride_layout(alloc, term, context),
        Rule::PadMap => pad_map(alloc, term),
        Rule::MapPad => map_pad(alloc, term),
        Rule::LetInline => let_inline(alloc, term),
        Rule::Copy => copy(alloc, term, context),
    }
}
