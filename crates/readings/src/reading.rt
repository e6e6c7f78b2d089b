//! A reading: the notes, and what is still owed.

ghost use Rattle.std.specs.Prelude.{◌≡◌, IfOk, IfErr, map, []};
ghost use Rattle.readings.specs.Readings.{Grammar, Reads};
ghost use Rattle.readings.specs.Running.{Table, Decides, next, last};
ghost use Rattle.readings.specs.Views.{items_of};
ghost use Rattle.readings.specs.Given.{Gave, Noticed};
ghost use Rattle.readings.specs.Exactly.{Answers, Refuses};
ghost use Rattle.readings.specs.Told.{Tells};

use crate::error::ReadError;
use crate::owed::{Owed, owe};
use std::alloc::{AllocError, Global};
use std::collections::VecDeque;

/// What a reading has noted, and the grammar that it reads by.
///
/// The grammar itself is a ghost: `grammar` says which alternatives each form has, and what each
/// mark makes of the notes, over plain values (`PlainToken` and the others) to which `token_of` and
/// the others take the code's. The code is tied to it by `table`, which finds the alternative of a
/// form that begins with a token: `is_same`, `give` and `mark` compute the table, and the law
/// `decides` says that the table is the grammar's, so that no form has two alternatives that begin
/// with one token.
pub trait Notes: Drop {
    type Token: Copy;

    type Form: Copy;

    type Mark: Copy;

    ghost PlainToken: { Type 0 };

    ghost PlainForm: { Type 0 };

    ghost PlainMark: { Type 0 };

    ghost PlainNotes: { Type 0 };

    ghost token_of: { Self.Token → PlainToken };

    ghost form_of: { Self.Form → PlainForm };

    ghost mark_of: { Self.Mark → PlainMark };

    ghost notes_of: { Self → PlainNotes };

    ghost grammar: { Grammar PlainToken PlainForm PlainMark PlainNotes };

    ghost table: { Table PlainToken PlainForm PlainMark PlainNotes };

    /// Whether two tokens are the same.
    fn is_same(a: Self::Token, b: Self::Token) -> bool
        ensures { result ≡ table.same (token_of a) (token_of b) };

    /// Puts before all that is owed the form's alternative that begins with the token, without that
    /// token. `false` where it has none.
    fn give(
        &self,
        form: Self::Form,
        token: Self::Token,
        owed: &mut VecDeque<Owed<Self::Token, Self::Form, Self::Mark>>,
    ) -> Result<bool, AllocError>
        ensures { Gave (items_of token_of form_of mark_of) result owed.old.items owed.new.items
            (table.row (notes_of self.now) (form_of form) (token_of token)) };

    /// Makes of the notes what the mark makes of them. `false` where it makes nothing of them.
    fn mark(&mut self, alloc: Global, mark: Self::Mark) -> Result<bool, AllocError>
        ensures { let wanted = table.marked (mark_of mark) (notes_of self.old) in
            Noticed result wanted (notes_of self.new) };

    ghost decides: { Decides grammar table };
}

/// Takes a token, or answers `false`.
fn take<N: Notes>(
    alloc: Global,
    notes: &mut N,
    owed: &mut VecDeque<Owed<N::Token, N::Form, N::Mark>>,
    token: N::Token,
) -> Result<bool, AllocError>
    ensures { let items = items_of N.token_of N.form_of N.mark_of in
        Noticed result
        (next N.table (items owed.old.items) (N.notes_of notes.old) (N.token_of token))
        (items owed.new.items, N.notes_of notes.new) }
{
    while let Some(item) = owed.pop_front() {
        match item {
            Owed::Token(t) => return Ok(N::is_same(t, token)),
            Owed::Form(f) => return notes.give(f, token, owed),
            Owed::Mark(m) => {
                if !notes.mark(alloc, m)? {
                    return Ok(false);
                }
            }
        }
    }
    Ok(false)
}

/// Whether nothing more is owed, once its marks are made.
fn end<N: Notes>(
    alloc: Global,
    notes: &mut N,
    owed: &mut VecDeque<Owed<N::Token, N::Form, N::Mark>>,
) -> Result<bool, AllocError>
    ensures { let items = items_of N.token_of N.form_of N.mark_of in
        Noticed result
        (last N.table (items owed.old.items) (N.notes_of notes.old))
        (N.notes_of notes.new) }
{
    while let Some(item) = owed.pop_front() {
        match item {
            Owed::Token(_) => return Ok(false),
            Owed::Form(_) => return Ok(false),
            Owed::Mark(m) => {
                if !notes.mark(alloc, m)? {
                    return Ok(false);
                }
            }
        }
    }
    Ok(true)
}

/// Takes all the tokens, after which nothing more is owed.
fn take_all<N: Notes>(
    alloc: Global,
    notes: &mut N,
    owed: &mut VecDeque<Owed<N::Token, N::Form, N::Mark>>,
    tokens: &[N::Token],
) -> Result<(), ReadError>
    ensures { let items = items_of N.token_of N.form_of N.mark_of in
        Tells (λ _. N.notes_of notes.new) N.table (items owed.old.items) (N.notes_of notes.old)
        (map N.token_of tokens.now) result }
{
    for i in 0..tokens.len() {
        if !take(alloc, notes, owed, tokens[i])? {
            return Err(ReadError::Refused { taken: i });
        }
    }
    if !end(alloc, notes, owed)? {
        return Err(ReadError::Refused {
            taken: tokens.len(),
        });
    }
    Ok(())
}

#[tactic(auto, using(crate::proofs::Ran::told_error))]
fn run<N: Notes>(
    alloc: Global,
    start: &[Owed<N::Token, N::Form, N::Mark>],
    notes: N,
    tokens: &[N::Token],
) -> Result<N, ReadError>
    ensures { let owed = items_of N.token_of N.form_of N.mark_of start.now in
        Tells N.notes_of N.table owed (N.notes_of notes) (map N.token_of tokens.now) result }
{
    let mut notes = notes;
    let mut owed = VecDeque::new(alloc);
    owe(&mut owed, start)?;
    match take_all(alloc, &mut notes, &mut owed, tokens) {
        Ok(()) => Ok(notes),
        Err(error) => Err(error),
    }
}

/// Reads all the tokens, where `start` is owed and `notes` are noted at first: the notes once
/// nothing more is owed.
pub fn read<N: Notes>(
    alloc: Global,
    start: &[Owed<N::Token, N::Form, N::Mark>],
    notes: N,
    tokens: &[N::Token],
) -> Result<N, ReadError>
    // What is answered is noted by a reading of these tokens.
    ensures found { let owed = items_of N.token_of N.form_of N.mark_of start.now in
        let text = map N.token_of tokens.now in
        IfOk result (λ n. Reads N.grammar owed (N.notes_of notes) text [] (N.notes_of n)) }
    // What a reading of these tokens notes is answered, unless memory runs out.
    ensures only { let owed = items_of N.token_of N.form_of N.mark_of start.now in
        let text = map N.token_of tokens.now in
        (n : N.PlainNotes) →
        Reads N.grammar owed (N.notes_of notes) text [] n → Answers N.notes_of n result }
    // A refusal names the first token at which the text doesn't go on.
    ensures refused { let owed = items_of N.token_of N.form_of N.mark_of start.now in
        IfErr result (Refuses N.grammar owed (N.notes_of notes) (map N.token_of tokens.now)) }
{
    run(alloc, start, notes, tokens)
}
