//! The command on the system's files and streams: the trusted edge. No clause says that the words
//! and the bytes are those of the system.

use crate::lift_tool;
use lift_io::{HostFiles, HostSink, write_whole};
use std::io::Write;
use std::process::ExitCode;
use std::{env, io, rt};

// The words after the program's name.
fn words_of<R: rt::Env + AllocGlobal>(rt: &R) -> io::Result<Vec<String>> {
    Ok(env::args(rt)?.skip(1).collect::<Vec<String>>(rt.alloc())?)
}

/// Does what the program's words ask for, on the system's files and these two streams: the output
/// and that of refusals. It ends with the status of [`lift_tool`].
pub fn command<R: rt::Env + AllocGlobal + rt::Files + Drop, O: Write + Drop, E: Write + Drop>(
    rt: R,
    out: O,
    err: E,
) -> ExitCode {
    let mut out = HostSink::new(out);
    let mut err = HostSink::new(err);
    let words = match words_of(&rt) {
        Ok(words) => words,
        Err(error) if error.kind() == io::ErrorKind::OutOfMemory => {
            let _ = write_whole(&mut err, b"lift: memory\n");
            return ExitCode::from(13);
        }
        // A word that isn't UTF-8 is in no command, and no words at all are none.
        Err(_) => Vec::new(rt.alloc()),
    };
    let alloc = rt.alloc();
    let mut files = HostFiles::new(rt);
    ExitCode::from(lift_tool(alloc, words.as_slice(), &mut files, &mut out, &mut err))
}
