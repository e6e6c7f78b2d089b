//! The alternatives of forms: each gives way to the one that begins with the token that was read.

ghost use Rattle.std.specs.Prelude.{Some};
ghost use Rattle.readings.specs.Given.{Gave};
ghost use Rattle.lift_reader.specs.Forms.{items};

mod declarations;
mod terms;
mod types;

use crate::grammar::{Action, Debt, Debts};
use crate::token::Kind;
pub use declarations::{give_input, give_inputs, give_number, give_range, give_sizes};
use readings::{Owed, owe};
use std::alloc::AllocError;
pub use terms::{give_compound, give_fold, give_let, give_map, give_operator, give_product_rest};
pub use types::{give_array, give_element, give_length_rest, give_type};

const OPEN: Debt<'static> = Owed::Token(Kind::Symbol(b'('));

const CLOSE: Debt<'static> = Owed::Token(Kind::Symbol(b')'));

const COMMA: Debt<'static> = Owed::Token(Kind::Symbol(b','));

const SEMICOLON: Debt<'static> = Owed::Token(Kind::Symbol(b';'));

const COLON: Debt<'static> = Owed::Token(Kind::Symbol(b':'));

const EQUALS: Debt<'static> = Owed::Token(Kind::Symbol(b'='));

const DOT: Debt<'static> = Owed::Token(Kind::Symbol(b'.'));

const BACKSLASH: Debt<'static> = Owed::Token(Kind::Symbol(b'\\'));

const UNBIND: Debt<'static> = Owed::Mark(Action::Unbind);

/// Puts an alternative before all that is owed.
#[tactic(auto, using(crate::proofs::Given::given))]
pub fn give<'a>(owed: &mut Debts<'a>, alternative: &[Debt<'a>]) -> Result<bool, AllocError>
    ensures { Gave items result owed.old.items owed.new.items (Some (items alternative.now)) }
{
    owe(owed, alternative)?;
    Ok(true)
}
