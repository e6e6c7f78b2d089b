//! Files in memory, for tests.
ghost use Rattle.std.specs.Prelude.{
  ◌≡◌,
  ◌≤◌,
  ◌<◌,
  ◌+◌,
  ◌++◌,
  ◌∷◌,
  ◌↔◌,
  ℕ,
  List,
  [],
  Some,
  IfOk,
  IfSome,
  length,
  map,
  option_map,
  string_bytes,
};
ghost use Rattle.lift_io.specs.Asked.{Asks};
ghost use Rattle.lift_io.specs.Causes.{Rose, one_more};
ghost use Rattle.lift_io.specs.MemoryFiles.{
  NextFails,
  asked_of,
  faults_after,
  reads_asked,
  text_under_name,
};

use crate::files::{Files, LONGEST, ReadNo};
use std::alloc::{AllocError, Global};

/// A text and its name.
#[derive(Drop)]
pub struct NamedText {
    pub name: String,
    pub text: Vec<u8>,
}

/// A read that was asked for: a name, and the most bytes that its text may have.
#[derive(Drop)]
pub struct AskedText {
    pub name: String,
    pub limit: usize,
}

/// Files in memory. The reads whose numbers are listed fail (the first read is number 1), and so
/// does each read of a name that isn't there. One count of faults serves all names. The reads asked
/// for are kept while there is memory for them.
#[derive(Drop)]
pub struct MemoryFiles {
    texts: Vec<NamedText>,
    failing: Vec<u64>,
    asked: Option<Vec<AskedText>>,
    calls: u64,
    faults: u64,
}

impl MemoryFiles {
    /// Of two texts with one name the first counts.
    pub fn new(texts: Vec<NamedText>, failing: Vec<u64>) -> MemoryFiles
        ensures holds { result
            ≡ record {
              texts = texts;
              failing = failing;
              asked = result.asked;
              calls = 0;
              faults = 0;
            } }
        ensures asked { reads_asked result ≡ Some [] }
    {
        let asked = Vec::new(*texts.allocator());
        MemoryFiles {
            texts,
            failing,
            asked: Some(asked),
            calls: 0,
            faults: 0,
        }
    }

    /// The reads asked for so far, in order. None where memory for one ran out.
    pub fn asked(&self) -> Option<&[AskedText]>
        ensures { option_map (λ reads. map asked_of reads.now) result ≡ reads_asked self.now }
    {
        Some(self.asked.as_ref()?.as_slice())
    }

    // Counts a fault.
    fn fault(&mut self) -> ReadNo
        ensures counts { self.new ≡ record self.old { faults = one_more self.old.faults } }
        ensures no { result ≡ ReadNo.Failed }
    {
        self.faults = self.faults.saturating_add(1);
        ReadNo::Failed
    }

    // Counts a call, and keeps what it asks for.
    fn note(&mut self, alloc: Global, name: &str, limit: usize)
        ensures only { self.new
            ≡ record self.old { calls = one_more self.old.calls; asked = self.new.asked } }
        ensures asks { Asks (reads_asked self.old) (reads_asked self.new)
            ((name.now, limit) ∷ []) }
    {
        self.calls = self.calls.saturating_add(1);
        if let Some(reads) = self.asked.take() {
            self.asked = with_read(alloc, reads, name, limit).ok();
        }
    }
}

// The reads, and one of this name with this limit behind them.
fn with_read(
    alloc: Global,
    mut reads: Vec<AskedText>,
    name: &str,
    limit: usize,
) -> Result<Vec<AskedText>, AllocError>
    ensures { IfOk result (λ all. map asked_of all.items
        ≡ map asked_of reads.items ++ ((name.now, limit) ∷ [])) }
{
    let name = String::from_str(alloc, name)?;
    reads.push(AskedText { name, limit })?;
    Ok(reads)
}

fn text_under<'f>(texts: &'f [NamedText], name: &str) -> Option<&'f [u8]>
    ensures { option_map (λ t. t.now) result ≡ text_under_name texts.now name.now }
{
    let found = texts.iter().find(|text| text.name.as_str() == name)?;
    Some(found.text.as_slice())
}

impl Files for MemoryFiles {
    ghost told = { λ s n. text_under_name s.texts.items n };

    ghost faults = { λ s n. s.faults };

    ghost asked = { reads_asked };

    fn read_all(&mut self, alloc: Global, name: &str, limit: usize) -> Result<Vec<u8>, ReadNo>
        requires { limit ≤ LONGEST }

        ensures text { IfOk result (λ bytes. IfSome (text_under_name self.old.texts.items name.now)
            (λ text. bytes.items ≡ text)) }
        ensures within { IfOk result (λ bytes. length bytes.items ≤ limit) }
        ensures too_long { (n : ℕ) → result ≡ Err (ReadNo.TooLong n) → (n ≡ limit + 1)
            × IfSome (text_under_name self.old.texts.items name.now) (λ text. limit < length text) }
        ensures failed { result ≡ Err ReadNo.Failed → Rose self.old.faults self.new.faults }
        ensures later { (n : List ℕ) → self.old.faults ≤ self.new.faults }
        ensures same { (n : List ℕ)
            → text_under_name self.new.texts.items n ≡ text_under_name self.old.texts.items n }
        ensures asks { Asks (reads_asked self.old) (reads_asked self.new)
            ((name.now, limit) ∷ []) }

        // Beyond what all files promise: just the calls that were asked to fail do, just they are
        // faults, and nothing else changes.
        ensures fails { (result ≡ Err ReadNo.Failed) ↔ NextFails self.old name.now }
        ensures changes { self.new ≡ record self.old {
          calls = one_more self.old.calls;
          faults = faults_after self.old.faults result;
          asked = self.new.asked;
        } }
    {
        self.note(alloc, name, limit);
        if self.failing.contains(&self.calls) {
            return Err(self.fault());
        }
        let Some(text) = text_under(&self.texts, name) else {
            return Err(self.fault());
        };
        if text.len() > limit {
            return Err(ReadNo::TooLong(limit as u64 + 1));
        }
        Ok(Vec::from_slice(alloc, text)?)
    }
}
