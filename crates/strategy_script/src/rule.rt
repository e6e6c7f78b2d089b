//! The rules by their names.

ghost use Rattle.std.specs.Prelude.{◌≡◌};
ghost use Rattle.strategy_script.specs.RuleNames.{algebra_name, lower_name, numbered_named, plain_named, rule_name, split_name};

use lift_tree::term::{Dimension, Level};
use rules_algebra::Rule as Algebra;
use rules_lower::Rule as Lower;
use rules_split::Rule as Split;

/// A rule, with its number where it has one.
#[derive(Clone, Copy, PartialEq, Eq)]
pub enum Rule {
    /// One that rests on the patterns' algebra alone.
    Algebra(Algebra),
    /// One that cuts an array into pieces, or makes a reduction a fold.
    Split(Split),
    /// One that says how a term is run.
    Lower(Lower),
}

const PLAIN: [Rule; 33] = [
    Rule::Algebra(Algebra::FuseMap),
    Rule::Algebra(Algebra::FuseFold),
    Rule::Algebra(Algebra::JoinSplit),
    Rule::Algebra(Algebra::SplitJoin),
    Rule::Algebra(Algebra::TransposeTranspose),
    Rule::Algebra(Algebra::MapJoin),
    Rule::Algebra(Algebra::MapSplit),
    Rule::Algebra(Algebra::MapTranspose),
    Rule::Algebra(Algebra::ReverseReverse),
    Rule::Algebra(Algebra::MapReverse),
    Rule::Algebra(Algebra::MapStride),
    Rule::Algebra(Algebra::StrideStride),
    Rule::Algebra(Algebra::StrideLayout),
    Rule::Algebra(Algebra::PadMap),
    Rule::Algebra(Algebra::MapPad),
    Rule::Algebra(Algebra::LetInline),
    Rule::Algebra(Algebra::Copy),
    Rule::Split(Split::ReduceFold),
    Rule::Lower(Lower::ToParallel(Level::Launch, Dimension::X)),
    Rule::Lower(Lower::ToParallel(Level::Groups, Dimension::X)),
    Rule::Lower(Lower::ToParallel(Level::Items, Dimension::X)),
    Rule::Lower(Lower::ToParallel(Level::Launch, Dimension::Y)),
    Rule::Lower(Lower::ToParallel(Level::Groups, Dimension::Y)),
    Rule::Lower(Lower::ToParallel(Level::Items, Dimension::Y)),
    Rule::Lower(Lower::ToSequential),
    Rule::Lower(Lower::FoldSequential),
    Rule::Lower(Lower::Local),
    Rule::Lower(Lower::Private),
    Rule::Lower(Lower::LocalCopy),
    Rule::Lower(Lower::PrivateCopy),
    Rule::Lower(Lower::Then),
    Rule::Lower(Lower::Vector),
    Rule::Lower(Lower::VectorScalar),
];

fn algebra_name(rule: Algebra) -> &'static [u8]
    ensures { result.now ≡ algebra_name rule }
{
    match rule {
        Algebra::FuseMap => b"fuse-map",
        Algebra::FuseFold => b"fuse-fold",
        Algebra::JoinSplit => b"join-split",
        Algebra::SplitJoin => b"split-join",
        Algebra::TransposeTranspose => b"transpose-transpose",
        Algebra::MapJoin => b"map-join",
        Algebra::MapSplit => b"map-split",
        Algebra::MapTranspose => b"map-transpose",
        Algebra::ReverseReverse => b"reverse-reverse",
        Algebra::MapReverse => b"map-reverse",
        Algebra::MapStride => b"map-stride",
        Algebra::StrideStride => b"stride-stride",
        Algebra::StrideLayout => b"stride-layout",
        Algebra::PadMap => b"pad-map",
        Algebra::MapPad => b"map-pad",
        Algebra::LetInline => b"let-inline",
        Algebra::Copy => b"copy",
    }
}

fn split_name(rule: Split) -> &'static [u8]
    ensures { result.now ≡ split_name rule }
{
    match rule {
        Split::SplitMap(_) => b"split-map",
        Split::SplitReduce(_) => b"split-reduce",
        Split::StrideReduce(_) => b"stride-reduce",
        Split::TileSlide(_) => b"tile-slide",
        Split::ReduceFold => b"reduce-fold",
    }
}

fn lower_name(rule: Lower) -> &'static [u8]
    ensures { result.now ≡ lower_name rule }
{
    match rule {
        Lower::ToParallel(Level::Launch, Dimension::X) => b"to-glb",
        Lower::ToParallel(Level::Groups, Dimension::X) => b"to-wrg",
        Lower::ToParallel(Level::Items, Dimension::X) => b"to-lcl",
        Lower::ToParallel(Level::Launch, Dimension::Y) => b"to-glb1",
        Lower::ToParallel(Level::Groups, Dimension::Y) => b"to-wrg1",
        Lower::ToParallel(Level::Items, Dimension::Y) => b"to-lcl1",
        Lower::ToSequential => b"to-seq",
        Lower::FoldSequential => b"fold-seq",
        Lower::Local => b"local",
        Lower::Private => b"private",
        Lower::LocalCopy => b"local-copy",
        Lower::PrivateCopy => b"private-copy",
        Lower::Then => b"then",
        Lower::Vector => b"vector",
        Lower::VectorScalar => b"vector-scalar",
    }
}

impl Rule {
    /// The rule's name in a script.
    pub fn name(self) -> &'static [u8]
        ensures { result.now ≡ rule_name self }
    {
        match self {
            Rule::Algebra(rule) => algebra_name(rule),
            Rule::Split(rule) => split_name(rule),
            Rule::Lower(rule) => lower_name(rule),
        }
    }

    /// The rule of this name that has no number.
    #[tactic(auto, unfolding(crate::specs::RuleNames::plain_named))]
    pub fn plain(name: &[u8]) -> Option<Rule>
        ensures { result ≡ plain_named name.now }
    {
        PLAIN.iter().copied().find(|rule| *rule.name() == *name)
    }

    /// The rule of this name that has a number, with this one.
    #[tactic(auto, unfolding(crate::specs::RuleNames::numbered_named))]
    pub fn numbered(name: &[u8], number: u32) -> Option<Rule>
        ensures { result ≡ numbered_named name.now number }
    {
        let rules = [
            Rule::Split(Split::SplitMap(number)),
            Rule::Split(Split::SplitReduce(number)),
            Rule::Split(Split::StrideReduce(number)),
            Rule::Split(Split::TileSlide(number)),
        ];
        rules.iter().copied().find(|rule| *rule.name() == *name)
    }
}
