//! What a piece is.

ghost use Rattle.std.specs.Prelude.{◌≡◌, option_map};
ghost use Rattle.kernel_tree.specs.Tree.{id_of};
ghost use Rattle.kernel_spelling.specs.Kinds.{number_in, named_in, literal_in, kind_of, id_in, sign_in, call_in, dimension_in};

use itoa::Buffer;
use kernel_tree::tree::{Array, Dimension, IdForm};
use scalar_ops::op::Op;

/// What a piece is: a name of a kind with its number, a literal, a decimal, or any other.
#[derive(Clone, Copy)]
pub enum Kind {
    Array(Array),
    Size(u32),
    Variable(u32),
    Vector(u32),
    LoopVariable(u32),
    Literal(u32),
    Decimal(u32),
    Other,
}

const GLOBAL_ID: &[u8] = b"get_global_id";

const GROUP_ID: &[u8] = b"get_group_id";

const LOCAL_ID: &[u8] = b"get_local_id";

const GLOBAL_SIZE: &[u8] = b"get_global_size";

const GROUP_COUNT: &[u8] = b"get_num_groups";

const LOCAL_SIZE: &[u8] = b"get_local_size";

/// The number whose decimal this is: digits without a leading zero, below 2^32.
fn number(digits: &[u8]) -> Option<u32>
    ensures { result ≡ number_in digits.now }
{
    let Ok(text) = str::from_utf8(digits) else {
        return None;
    };
    let Ok(number) = text.parse::<u32>() else {
        return None;
    };
    let mut buffer = Buffer::new();
    if buffer.format(number).as_bytes() == digits {
        Some(number)
    } else {
        None
    }
}

/// The number behind a letter.
fn named(letter: u8, piece: &[u8]) -> Option<u32>
    ensures { result ≡ named_in letter piece.now }
{
    match piece.strip_prefix(&[letter]) {
        Some(digits) => number(digits),
        None => None,
    }
}

/// The number before `u`.
fn literal(piece: &[u8]) -> Option<u32>
    ensures { result ≡ literal_in piece.now }
{
    match piece.strip_suffix(b"u") {
        Some(digits) => number(digits),
        None => None,
    }
}

impl Kind {
    pub fn of(piece: &[u8]) -> Kind
        ensures { result ≡ kind_of piece.now }
    {
        if let Some(k) = named(b'v', piece) {
            return Kind::Variable(k);
        }
        if let Some(k) = named(b'w', piece) {
            return Kind::Vector(k);
        }
        if let Some(k) = named(b'i', piece) {
            return Kind::LoopVariable(k);
        }
        if let Some(k) = named(b's', piece) {
            return Kind::Size(k);
        }
        if let Some(k) = named(b'a', piece) {
            return Kind::Array(Array::Input(k));
        }
        if let Some(k) = named(b'o', piece) {
            return Kind::Array(Array::Output(k));
        }
        if let Some(k) = named(b'l', piece) {
            return Kind::Array(Array::Local(k));
        }
        if let Some(k) = named(b'p', piece) {
            return Kind::Array(Array::Private(k));
        }
        if let Some(number) = literal(piece) {
            return Kind::Literal(number);
        }
        if let Some(number) = number(piece) {
            return Kind::Decimal(number);
        }
        Kind::Other
    }
}

/// The id that a piece names.
pub fn named_id(piece: &[u8]) -> Option<IdForm>
    ensures { option_map id_of result ≡ id_in piece.now }
{
    if piece == GLOBAL_ID {
        Some(IdForm::GlobalId)
    } else if piece == GROUP_ID {
        Some(IdForm::GroupId)
    } else if piece == LOCAL_ID {
        Some(IdForm::LocalId)
    } else if piece == GLOBAL_SIZE {
        Some(IdForm::GlobalSize)
    } else if piece == GROUP_COUNT {
        Some(IdForm::GroupCount)
    } else if piece == LOCAL_SIZE {
        Some(IdForm::LocalSize)
    } else {
        None
    }
}

/// The operator whose sign is one piece.
pub fn signed(piece: &[u8]) -> Option<Op>
    ensures { result ≡ sign_in piece.now }
{
    match piece {
        b"+" => Some(Op::Add),
        b"-" => Some(Op::Sub),
        b"*" => Some(Op::Mul),
        b"/" => Some(Op::Div),
        b"%" => Some(Op::Rem),
        b"&" => Some(Op::And),
        b"|" => Some(Op::Or),
        b"^" => Some(Op::Xor),
        _ => None,
    }
}

/// The operator that is called by its name.
pub fn called(piece: &[u8]) -> Option<Op>
    ensures { result ≡ call_in piece.now }
{
    match piece {
        b"min" => Some(Op::Min),
        b"max" => Some(Op::Max),
        _ => None,
    }
}

/// The dimension that a piece names.
pub fn named_dimension(piece: &[u8]) -> Option<Dimension>
    ensures { result ≡ dimension_in piece.now }
{
    match piece {
        b"0" => Some(Dimension::X),
        b"1" => Some(Dimension::Y),
        _ => None,
    }
}
