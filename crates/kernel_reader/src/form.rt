//! The forms and the marks of kernel text, and its pieces.

ghost use Rattle.std.specs.Prelude.{◌<◌, ◌≤◌};

use kernel_tree::tree::{Array, Comparison, Dimension, IdForm, Start, Stride};
use readings::Owed;
use scalar_ops::op::Op;
use std::collections::VecDeque;

/// How deep loops and `if`s nest at most, and expressions.
pub const DEEPEST: u32 = 1024;

/// How many items a work-group has at most.
pub const LARGEST_GROUP: u32 = 256;

/// Where a statement stands: how many loops are around it, and how many loops and `if`s.
#[derive(Clone, Copy)]
pub struct Place {
    pub loops: u32,
    pub nest: u32,
    pub ghost within: { loops ≤ nest },
}

/// Where a loop or an `if` stands, inside of few enough of them for one more.
#[derive(Clone, Copy)]
pub struct Block {
    pub loops: u32,
    pub nest: u32,
    pub ghost within: { loops ≤ nest },
    pub ghost allowed: { nest < 1024 },
}

/// Where an expression of four words stands that begins with a parenthesis: how many loops are
/// around it, and how deep it stands, which is not too deep.
#[derive(Clone, Copy)]
pub struct Opening {
    pub loops: u32,
    pub depth: u32,
    pub ghost allowed: { depth ≤ 1024 },
}

/// A form of kernel text, which gives way to the alternative that begins with the next piece.
#[derive(Clone, Copy)]
pub enum Form {
    /// The size of the groups, where there is one, and `void`.
    Launching,
    /// The size's first number, and what follows.
    GroupWidth,
    /// The size's second number behind this first one, and what follows.
    GroupHeight(u32),
    /// An input, or the first output.
    Parameter,
    /// What follows `__global` and a space there.
    Pointer,
    NewInput,
    NewOutput,
    AfterOutput,
    OutputOrSize,
    NewSize,
    AfterSize,
    /// A declaration or the first statement, behind its indent.
    Locals,
    NewLocal,
    /// The length of a new local array, and what follows.
    LocalLength,
    /// The same, where no local array may be declared any more.
    Privates,
    /// A new private array or variable.
    Declared,
    PrivateLength,
    /// The same, where variables alone may be declared.
    Variables,
    NewVariable,
    /// The same, where variables of four words alone may be declared.
    Vectors,
    NewVector,
    /// A statement behind its indent, and what follows it in its block.
    Statement(Place),
    /// What follows a statement in its block.
    Next(Place),
    /// What a variable is assigned, and what follows.
    Source(Place, u32),
    /// What a variable of four words is assigned, and what follows.
    SourceOfFour(Place, u32),
    /// The array of which four cells are loaded into a variable, and what follows.
    LoadedFour(Place, u32),
    /// The array to which four words are stored, and what follows.
    StoredFour(Place),
    /// A barrier's flags, and what follows.
    Fence(Place),
    /// What follows a barrier's flag of local memory.
    AfterLocal(Place),
    /// What an `if` (`true`) compares, or what a loop's variable begins with, and what follows.
    Beginning(bool, Block),
    /// The same behind `(uint)`.
    BeginningId(bool, Block),
    /// The same behind the id's name and its parenthesis.
    BeginningAlong(bool, Block, IdForm),
    /// What is added to a loop's variable, and what follows.
    Step(Block, Start),
    /// The same behind `(uint)`.
    StepId(Block, Start),
    /// The same behind the count's name and its parenthesis.
    StepAlong(Block, Start, IdForm),
    /// The variable of the loop within so many loops.
    Turn(u32),
    /// The spaces of so many levels.
    Indent(u32),
    /// An expression: whether it is a loop's or an `if`'s bound, the loops around, and how deep it
    /// stands.
    Value(bool, u32, u32),
    /// What follows the parenthesis with which an expression begins.
    Opened(bool, u32, u32),
    /// An expression of four words: the loops around, and how deep it stands.
    InLanes(u32, u32),
    /// What follows the parenthesis with which it begins.
    LanesOpened(Opening),
    /// What follows its left part.
    LanesRest(u32, u32),
    /// The same behind `<`.
    LanesAfterLess(u32, u32),
    IdName,
    /// The dimension of an id.
    IdAlong(IdForm),
    /// What follows the left part of an expression in parentheses.
    Rest(bool, u32, u32),
    /// The same behind `<`.
    AfterLess(bool, u32, u32),
}

/// What is noted between pieces.
#[derive(Clone, Copy)]
pub enum Mark {
    /// So many inputs are declared now.
    DeclareInput(u32),
    /// So many outputs are declared now.
    DeclareOutput(u32),
    /// So many sizes are declared now.
    DeclareSize(u32),
    /// So many variables are declared now.
    DeclareVariable(u32),
    /// So many variables of four words are declared now.
    DeclareVector(u32),
    /// One more local array is declared, of this length.
    DeclareLocal(u32),
    /// One more private array is declared, of this length.
    DeclarePrivate(u32),
    /// The size of the groups.
    FixLocal(u32, u32),
    Number(u32),
    Variable(u32),
    LoopVariable(u32),
    Size(u32),
    Id(Dimension, IdForm),
    Both(Op),
    Either(Comparison),
    /// A variable of four words.
    Vector(u32),
    /// Four of the last word.
    SpreadOut,
    /// An operator on the last two expressions of four words.
    EachOf(Op),
    /// The end of a block.
    Stop,
    Assign(u32),
    Load(u32, Array),
    Store(Array),
    AssignFour(u32),
    LoadFour(u32, Array),
    StoreFour(Array),
    Loop(Start, Stride),
    If(Start),
    /// A barrier, and whether it has the flags of local and of global memory.
    Sync(bool, bool),
}

/// What is owed: pieces, forms and marks.
pub type Debt<'a> = Owed<&'a [u8], Form, Mark>;

pub type Debts<'a> = VecDeque<Debt<'a>>;

// The pieces with which alternatives begin.

pub const GLOBAL: &[u8] = b"__global";

pub const LOCAL: &[u8] = b"__local";

pub const CONST: &[u8] = b"const";

pub const UINT: &[u8] = b"uint";

pub const UINT4: &[u8] = b"uint4";

pub const VOID: &[u8] = b"void";

pub const ATTRIBUTE: &[u8] = b"__attribute__";

pub const IF: &[u8] = b"if";

pub const LOAD_FOUR: &[u8] = b"vload4";

pub const STORE_FOUR: &[u8] = b"vstore4";

pub const FOR: &[u8] = b"for";

pub const BARRIER: &[u8] = b"barrier";

pub const LOCAL_FENCE: &[u8] = b"CLK_LOCAL_MEM_FENCE";

pub const GLOBAL_FENCE: &[u8] = b"CLK_GLOBAL_MEM_FENCE";

pub const OPEN: &[u8] = b"(";

pub const CLOSE: &[u8] = b")";

pub const COMMA: &[u8] = b",";

pub const BLANK: &[u8] = b" ";

pub const LESS: &[u8] = b"<";

pub const GREATER: &[u8] = b">";

pub const EQUALS: &[u8] = b"=";

pub const ZERO: &[u8] = b"0u";

pub const ONE: &[u8] = b"1u";

pub const CLOSE_BLOCK: &[u8] = b"}";

// The pieces as they are owed.

pub const SPACE: Debt<'static> = Owed::Token(b" ");

pub const LINE: Debt<'static> = Owed::Token(b"\n");

pub const SEMICOLON: Debt<'static> = Owed::Token(b";");

pub const STAR: Debt<'static> = Owed::Token(b"*");

pub const PLUS: Debt<'static> = Owed::Token(b"+");

pub const BAR: Debt<'static> = Owed::Token(b"|");

pub const QUESTION: Debt<'static> = Owed::Token(b"?");

pub const COLON: Debt<'static> = Owed::Token(b":");

pub const GROUP_SIZE: Debt<'static> = Owed::Token(b"reqd_work_group_size");

pub const ONE_LAYER: Debt<'static> = Owed::Token(b"1");

pub const OPEN_INDEX: Debt<'static> = Owed::Token(b"[");

pub const CLOSE_INDEX: Debt<'static> = Owed::Token(b"]");

pub const OPEN_BLOCK: Debt<'static> = Owed::Token(b"{");

pub const OPENS: Debt<'static> = Owed::Token(b"(");

pub const CLOSES: Debt<'static> = Owed::Token(b")");
