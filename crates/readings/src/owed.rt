//! What a reading still owes.

ghost use Rattle.std.specs.Prelude.{◌≡◌, ◌++◌, OnOk, IfOk, true};

use std::alloc::AllocError;
use std::collections::VecDeque;

/// One thing that a reading owes.
#[derive(Clone, Copy)]
pub enum Owed<T, F, M> {
    /// A token that has to come next.
    Token(T),
    /// A form, which gives way to the alternative that begins with the next token.
    Form(F),
    /// A mark, which takes no token and changes the notes.
    Mark(M),
}

/// Puts an alternative before all that is owed.
pub fn owe<O: Copy>(owed: &mut VecDeque<O>, alternative: &[O]) -> Result<(), AllocError>
    ensures { OnOk result (owed.new.items ≡ alternative.now ++ owed.old.items) }
{
    let mut left = alternative.len();
    while left > 0 {
        left -= 1;
        owed.push_front(alternative[left])?;
    }
    Ok(())
}

/// Puts a form's alternative before all that is owed, and answers that there is one.
pub fn give<O: Copy>(owed: &mut VecDeque<O>, alternative: &[O]) -> Result<bool, AllocError>
    ensures found { IfOk result (λ found. found ≡ true) }
    ensures given { OnOk result (owed.new.items ≡ alternative.now ++ owed.old.items) }
{
    owe(owed, alternative)?;
    Ok(true)
}
