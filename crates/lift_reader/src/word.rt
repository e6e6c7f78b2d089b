//! The reserved words.

ghost use Rattle.std.specs.Prelude.{◌≡◌};
ghost use Rattle.lift_reader.specs.Words.{spelling, word_of};

/// A reserved word, which is no name.
#[derive(Clone, Copy, PartialEq, Eq)]
pub enum Word {
    Size,
    Multiple,
    From,
    To,
    Input,
    Output,
    U32,
    Add,
    Mul,
    Min,
    Max,
    And,
    Or,
    Xor,
    Sub,
    Shl,
    Shr,
    Lt,
    Eq,
    Div,
    Rem,
    Select,
    Pair,
    First,
    Second,
    Let,
    In,
    Map,
    Reduce,
    Fold,
    Zip,
    Join,
    Transpose,
    Split,
    Reverse,
    Stride,
    Slide,
    Pad,
    MapGlb,
    MapWrg,
    MapLcl,
    MapSeq,
    FoldSeq,
    ToLocal,
    ToPrivate,
}

const WORDS: [Word; 45] = [
    Word::Size,
    Word::Multiple,
    Word::From,
    Word::To,
    Word::Input,
    Word::Output,
    Word::U32,
    Word::Add,
    Word::Mul,
    Word::Min,
    Word::Max,
    Word::And,
    Word::Or,
    Word::Xor,
    Word::Sub,
    Word::Shl,
    Word::Shr,
    Word::Lt,
    Word::Eq,
    Word::Div,
    Word::Rem,
    Word::Select,
    Word::Pair,
    Word::First,
    Word::Second,
    Word::Let,
    Word::In,
    Word::Map,
    Word::Reduce,
    Word::Fold,
    Word::Zip,
    Word::Join,
    Word::Transpose,
    Word::Split,
    Word::Reverse,
    Word::Stride,
    Word::Slide,
    Word::Pad,
    Word::MapGlb,
    Word::MapWrg,
    Word::MapLcl,
    Word::MapSeq,
    Word::FoldSeq,
    Word::ToLocal,
    Word::ToPrivate,
];

impl Word {
    /// The bytes by which a text writes the word.
    pub fn spelling(self) -> &'static [u8]
        ensures { result.now ≡ spelling self }
    {
        match self {
            Word::Size => b"size",
            Word::Multiple => b"multiple",
            Word::From => b"from",
            Word::To => b"to",
            Word::Input => b"input",
            Word::Output => b"output",
            Word::U32 => b"u32",
            Word::Add => b"add",
            Word::Mul => b"mul",
            Word::Min => b"min",
            Word::Max => b"max",
            Word::And => b"and",
            Word::Or => b"or",
            Word::Xor => b"xor",
            Word::Sub => b"sub",
            Word::Shl => b"shl",
            Word::Shr => b"shr",
            Word::Lt => b"lt",
            Word::Eq => b"eq",
            Word::Div => b"div",
            Word::Rem => b"rem",
            Word::Select => b"select",
            Word::Pair => b"pair",
            Word::First => b"first",
            Word::Second => b"second",
            Word::Let => b"let",
            Word::In => b"in",
            Word::Map => b"map",
            Word::Reduce => b"reduce",
            Word::Fold => b"fold",
            Word::Zip => b"zip",
            Word::Join => b"join",
            Word::Transpose => b"transpose",
            Word::Split => b"split",
            Word::Reverse => b"reverse",
            Word::Stride => b"stride",
            Word::Slide => b"slide",
            Word::Pad => b"pad",
            Word::MapGlb => b"mapGlb",
            Word::MapWrg => b"mapWrg",
            Word::MapLcl => b"mapLcl",
            Word::MapSeq => b"mapSeq",
            Word::FoldSeq => b"foldSeq",
            Word::ToLocal => b"toLocal",
            Word::ToPrivate => b"toPrivate",
        }
    }

    /// The word that a text writes by these bytes.
    #[tactic(auto, unfolding(crate::specs::Words::word_of))]
    pub fn from_bytes(bytes: &[u8]) -> Option<Word>
        ensures { result ≡ word_of bytes.now }
    {
        WORDS
            .iter()
            .copied()
            .find(|word| *word.spelling() == *bytes)
    }
}
