//! A reader of nested parentheses, through the trait of readings.

ghost use Rattle.std.specs.Prelude.{ℕ};
ghost use Rattle.kernel_tests.specs.Nests.{nests, table, decided};

use readings::{Notes, Owed, ReadError, give, read};
use std::alloc::{AllocError, Global};
use std::collections::VecDeque;
use std::test::Fail;

#[derive(Drop)]
struct Depth(u8);

impl Notes for Depth {
    type Token = u8;

    type Form = ();

    type Mark = ();

    ghost PlainToken = { ℕ };

    ghost PlainForm = { Unit {0} };

    ghost PlainMark = { Unit {0} };

    ghost PlainNotes = { ℕ };

    ghost token_of = { λ t. t };

    ghost form_of = { λ f. tt };

    ghost mark_of = { λ m. tt };

    ghost notes_of = { λ d. d.0 };

    ghost grammar = { nests };

    ghost table = { table };

    fn is_same(a: u8, b: u8) -> bool {
        a == b
    }

    fn give(
        &self,
        _form: (),
        token: u8,
        owed: &mut VecDeque<Owed<u8, (), ()>>,
    ) -> Result<bool, AllocError> {
        if token == b'x' {
            return Ok(true);
        }
        if token != b'(' {
            return Ok(false);
        }
        give(owed, &[Owed::Form(()), Owed::Token(b')'), Owed::Mark(())])
    }

    fn mark(&mut self, _alloc: Global, _mark: ()) -> Result<bool, AllocError> {
        if self.0 == 255 {
            return Err(AllocError);
        }
        self.0 += 1;
        Ok(true)
    }

    ghost decides = { decided };
}

fn is_read(alloc: Global, text: &[u8], depth: u8) -> Result<bool, AllocError> {
    match read(alloc, &[Owed::Form(())], Depth(0), text) {
        Ok(notes) => Ok(notes.0 == depth),
        Err(ReadError::Memory) => Err(AllocError),
        Err(ReadError::Refused { taken: _ }) => Ok(false),
    }
}

/// Whether the text is refused behind so many of its tokens.
fn is_refused(alloc: Global, text: &[u8], behind: usize) -> Result<bool, AllocError> {
    match read(alloc, &[Owed::Form(())], Depth(0), text) {
        Ok(_) => Ok(false),
        Err(ReadError::Memory) => Err(AllocError),
        Err(ReadError::Refused { taken }) => Ok(taken == behind),
    }
}

#[test]
fn nests(rt: HostRuntime) -> Result<(), Fail> {
    assert!(rt; is_read(rt.alloc(), b"x", 0)?);
    assert!(rt; is_read(rt.alloc(), b"((x))", 2)?);
    Ok(())
}

#[test]
fn refusals(rt: HostRuntime) -> Result<(), Fail> {
    assert!(rt; is_refused(rt.alloc(), b"", 0)?);
    assert!(rt; is_refused(rt.alloc(), b"((x)", 4)?);
    assert!(rt; is_refused(rt.alloc(), b"((y))", 2)?);
    assert!(rt; is_refused(rt.alloc(), b"(x))", 3)?);
    Ok(())
}
