//! Calls of the command on files and sinks in memory.
use lift_io::{MemoryFiles, MemorySink, NamedText};
use lift_tool::lift_tool;
use std::alloc::{AllocError, Global};

pub const PROGRAM: &str =
    "size N from 1 to 1000;\ninput xs: [u32; N];\noutput map(\\x. add(x, 1), xs)";

pub const SCRIPT: &str = "at . to-seq";

pub const LAUNCH: &str =
    "{\"global\":1,\"local\":1,\"sizes\":{\"N\":3},\"inputs\":{\"xs\":[1,2,4294967295]}}";

pub const RESULT: &str = "{\"value\":[2,3,0],\"events\":10,\"releases\":0}\n";

pub const KERNEL: &str =
    "__kernel void lift(__global const uint *a0, __global uint *o0, const uint s0)\n{\n  uint v0;\n  for (uint i0 = 0u; i0 < s0; i0 += 1u) {\n    v0 = a0[i0];\n    o0[i0] = (v0 + 1u);\n  }\n}\n";

pub const RUN: [&str; 4] = ["run", "p.lift", "s.lift", "l.json"];

pub const COMPILE: [&str; 3] = ["compile", "p.lift", "s.lift"];

pub const STEPS: [&str; 3] = ["steps", "p.lift", "s.lift"];

pub const EVAL: [&str; 3] = ["eval", "p.lift", "l.json"];

/// The files of a call, and the numbers of the reads and writes that fail.
#[derive(Clone, Copy)]
pub struct Call<'a> {
    pub program: &'a str,
    pub script: &'a str,
    pub launch: &'a str,
    pub failing_reads: &'a [u64],
    pub failing_out: &'a [u64],
    pub failing_err: &'a [u64],
}

pub const FIRST: Call<'static> = Call {
    program: PROGRAM,
    script: SCRIPT,
    launch: LAUNCH,
    failing_reads: &[],
    failing_out: &[],
    failing_err: &[],
};

fn named(alloc: Global, name: &str, text: &str) -> Result<NamedText, AllocError> {
    Ok(NamedText {
        name: String::from_str(alloc, name)?,
        text: Vec::from_slice(alloc, text.as_bytes())?,
    })
}

fn strings(alloc: Global, words: &[&str]) -> Result<Vec<String>, AllocError> {
    let mut strings = Vec::new(alloc);
    for word in words {
        strings.push(String::from_str(alloc, *word)?)?;
    }
    Ok(strings)
}

impl Call<'_> {
    fn files(&self, alloc: Global) -> Result<MemoryFiles, AllocError> {
        let mut texts = Vec::new(alloc);
        texts.push(named(alloc, "p.lift", self.program)?)?;
        texts.push(named(alloc, "s.lift", self.script)?)?;
        texts.push(named(alloc, "l.json", self.launch)?)?;
        Ok(MemoryFiles::new(texts, Vec::from_slice(alloc, self.failing_reads)?))
    }

    /// Whether the words on these files end with status 0, some bytes and no line.
    pub fn is_accepted(&self, alloc: Global, words: &[&str]) -> Result<bool, AllocError> {
        let words = strings(alloc, words)?;
        let mut files = self.files(alloc)?;
        let mut output = MemorySink::new(alloc, 1_048_576, 4_096, Vec::new(alloc))?;
        let mut error = MemorySink::new(alloc, 1_024, 8, Vec::new(alloc))?;
        let ended = lift_tool(alloc, words.as_slice(), &mut files, &mut output, &mut error);
        Ok(ended == 0 && !output.bytes().is_empty() && error.bytes().is_empty())
    }

    /// Whether the words on these files end with this status and leave these texts.
    pub fn ends(
        &self,
        alloc: Global,
        words: &[&str],
        status: u8,
        out: &str,
        err: &str,
    ) -> Result<bool, AllocError> {
        self.leaves(alloc, words, status, out.as_bytes(), err.as_bytes())
    }

    /// Whether the words on these files end with this status and leave these bytes.
    pub fn leaves(
        &self,
        alloc: Global,
        words: &[&str],
        status: u8,
        out: &[u8],
        err: &[u8],
    ) -> Result<bool, AllocError> {
        let words = strings(alloc, words)?;
        let mut files = self.files(alloc)?;
        let failing_out = Vec::from_slice(alloc, self.failing_out)?;
        let mut output = MemorySink::new(alloc, 65_536, 16, failing_out)?;
        let failing_err = Vec::from_slice(alloc, self.failing_err)?;
        let mut error = MemorySink::new(alloc, 1_024, 8, failing_err)?;
        let ended = lift_tool(alloc, words.as_slice(), &mut files, &mut output, &mut error);
        Ok(ended == status && output.bytes() == out && error.bytes() == err)
    }
}

/// Whether the words end so on each program, with its line.
pub fn programs_end(
    alloc: Global,
    words: &[&str],
    status: u8,
    rows: &[(&str, &str)],
) -> Result<bool, AllocError> {
    for &(program, line) in rows {
        if !(Call { program, ..FIRST }).ends(alloc, words, status, "", line)? {
            return Ok(false);
        }
    }
    Ok(true)
}

/// Whether the words end so on each script, with its line.
pub fn scripts_end(
    alloc: Global,
    words: &[&str],
    status: u8,
    rows: &[(&str, &str)],
) -> Result<bool, AllocError> {
    for &(script, line) in rows {
        if !(Call { script, ..FIRST }).ends(alloc, words, status, "", line)? {
            return Ok(false);
        }
    }
    Ok(true)
}

/// Whether the words end so on each launch file, with its line.
pub fn launches_end(
    alloc: Global,
    words: &[&str],
    status: u8,
    rows: &[(&str, &str)],
) -> Result<bool, AllocError> {
    for &(launch, line) in rows {
        if !(Call { launch, ..FIRST }).ends(alloc, words, status, "", line)? {
            return Ok(false);
        }
    }
    Ok(true)
}

/// Whether each program has this value at this launch file.
pub fn have_values(
    alloc: Global,
    rows: &[(&'static str, &'static str, &str)],
) -> Result<bool, AllocError> {
    for &(program, launch, line) in rows {
        let call = Call {
            program,
            launch,
            ..FIRST
        };
        if !call.ends(alloc, &EVAL, 0, line, "")? {
            return Ok(false);
        }
    }
    Ok(true)
}

/// A text so many times, and then another.
pub fn repeated(alloc: Global, text: &str, times: usize, rest: &str) -> Result<String, AllocError> {
    let mut all = String::new(alloc);
    for _ in 0..times {
        all.push_str(text)?;
    }
    all.push_str(rest)?;
    Ok(all)
}
