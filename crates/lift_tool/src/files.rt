//! The files of a request.
ghost use Rattle.std.specs.Prelude.{
  ◌≡◌,
  ◌≤◌,
  ◌∷◌,
  [],
  ℕ,
  List,
  IfErr,
  IfOk,
  map,
  string_bytes,
};
ghost use Rattle.lift_io.specs.Asked.{Asks};
ghost use Rattle.lift_io.specs.Causes.{Rose};
ghost use Rattle.fault_lines.specs.Shown.{failure_of};
ghost use Rattle.lift_tool.specs.Files.{AreTexts, AreUnreadFor, AsksAll, AsksFirst, HasText};
ghost use Rattle.lift_tool.specs.Request.{file_of};

use fault_lines::Failure;
use lift_io::{Files, ReadNo};
use std::alloc::Global;

/// The most bytes that a program or a script may have.
pub const SOURCE_LIMIT: usize = 65_536;

/// The most bytes that a launch file may have.
pub const LAUNCH_LIMIT: usize = 16_777_216;

/// A file that a request names.
#[derive(Drop)]
pub enum File {
    /// A program or a script.
    Source(String),
    /// A launch file.
    Launch(String),
}

// The text of a file, which has at most so many bytes.
fn read_text<F: Files>(
    alloc: Global,
    files: &mut F,
    name: String,
    limit: usize,
) -> Result<Vec<u8>, Failure>
    requires { limit ≤ 16777216 }
    ensures text { IfOk result
        (λ text. HasText (F.told files.old) (string_bytes name, limit) text.items) }
    ensures cause { IfErr result (λ no. AreUnreadFor (F.told files.old)
        (λ n. Rose (F.faults files.old n) (F.faults files.new n))
        ((string_bytes name, limit) ∷ []) (failure_of no)) }
    ensures later { (n : List ℕ) → F.faults files.old n ≤ F.faults files.new n }
    ensures same { (n : List ℕ) → F.told files.new n ≡ F.told files.old n }
    ensures asks { Asks (F.asked files.old) (F.asked files.new)
        ((string_bytes name, limit) ∷ []) }
{
    match files.read_all(alloc, name.as_str(), limit) {
        Ok(text) => Ok(text),
        Err(ReadNo::Failed) => Err(Failure::Read(name)),
        Err(ReadNo::TooLong(count)) => Err(Failure::TooLong { count }),
        Err(ReadNo::Memory) => Err(Failure::Memory),
    }
}

// The text of a file, which has at most as many bytes as its kind may have.
fn read_file<F: Files>(alloc: Global, files: &mut F, file: File) -> Result<Vec<u8>, Failure>
    ensures text { IfOk result (λ text. HasText (F.told files.old) (file_of file) text.items) }
    ensures cause { IfErr result (λ no. AreUnreadFor (F.told files.old)
        (λ n. Rose (F.faults files.old n) (F.faults files.new n))
        (file_of file ∷ []) (failure_of no)) }
    ensures later { (n : List ℕ) → F.faults files.old n ≤ F.faults files.new n }
    ensures same { (n : List ℕ) → F.told files.new n ≡ F.told files.old n }
    ensures asks { Asks (F.asked files.old) (F.asked files.new) (file_of file ∷ []) }
{
    match file {
        File::Source(name) => read_text(alloc, files, name, SOURCE_LIMIT),
        File::Launch(name) => read_text(alloc, files, name, LAUNCH_LIMIT),
    }
}

/// The texts of these files, in order: each is read, and then its length is judged.
pub fn read_texts<F: Files>(
    alloc: Global,
    files: &mut F,
    wanted: Vec<File>,
) -> Result<Vec<Vec<u8>>, Failure>
    ensures texts { IfOk result (λ texts. AreTexts (F.told files.old)
        (map file_of wanted.items) (map (λ text. text.items) texts.items)) }
    ensures cause { IfErr result (λ no. AreUnreadFor (F.told files.old)
        (λ n. Rose (F.faults files.old n) (F.faults files.new n))
        (map file_of wanted.items) (failure_of no)) }
    ensures asks { AsksFirst (F.asked files.old) (F.asked files.new)
        (map file_of wanted.items) }
    ensures asks_all { IfOk result (λ _. AsksAll (F.asked files.old) (F.asked files.new)
        (map file_of wanted.items)) }
{
    let mut texts = Vec::new(alloc);
    for file in wanted {
        let text = read_file(alloc, files, file)?;
        texts.push(text)?;
    }
    Ok(texts)
}
