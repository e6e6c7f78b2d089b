//! Files and sinks, of the host and in memory.

use lift_io::{
    AskedText, Files, HostFiles, HostSink, MemoryFiles, MemorySink, NamedText, NeverFails, ReadNo,
    Sink, WriteFailed, write_whole,
};
use std::alloc::{AllocError, Global};
use std::fs;
use std::io::Cursor;
use std::test::Fail;

fn failed(read: Result<Vec<u8>, ReadNo>) -> bool {
    matches!(read, Err(ReadNo::Failed))
}

fn too_long(read: Result<Vec<u8>, ReadNo>, count: u64) -> bool {
    match read {
        Err(ReadNo::TooLong(counted)) => counted == count,
        _ => false,
    }
}

fn gives(read: Result<Vec<u8>, ReadNo>, want: &[u8]) -> bool {
    match read {
        Ok(text) => text.as_slice() == want,
        Err(_) => false,
    }
}

#[test]
fn reads_a_real_file(rt: HostRuntime) -> Result<(), Fail> {
    fs::write(&rt, "p.lift", "output xs")?;
    let mut files = HostFiles::new(rt.clone()?);
    assert!(rt; gives(files.read_all(rt.alloc(), "p.lift", 9), b"output xs"));
    assert!(rt; too_long(files.read_all(rt.alloc(), "p.lift", 8), 9));
    assert!(rt; failed(files.read_all(rt.alloc(), "absent.lift", 9)));
    Ok(())
}

// A read of the host takes a byte more than its limit, and no more: this file has no end.
#[test]
fn a_file_without_end_is_too_long(rt: HostRuntime) -> Result<(), Fail> {
    let mut files = HostFiles::new(rt.clone()?);
    assert!(rt; too_long(files.read_all(rt.alloc(), "/dev/zero", 65_536), 65_537));
    Ok(())
}

#[test]
fn writes_to_real_streams(rt: HostRuntime) -> Result<(), Fail> {
    assert!(rt; write_whole(&mut HostSink::new(rt.stdout()), b"seen\n").is_ok());
    assert!(rt; write_whole(&mut HostSink::new(rt.stderr()), b"seen\n").is_ok());
    let mut file = HostSink::new(fs::create(&rt, "out.txt")?);
    assert!(rt; write_whole(&mut file, b"{\"value\":[2]}\n").is_ok());
    let mut files = HostFiles::new(rt.clone()?);
    assert!(rt;
        gives(
            files.read_all(rt.alloc(), "out.txt", 14),
            b"{\"value\":[2]}\n"
        )
    );
    Ok(())
}

// A stream with room for five bytes takes the first five, and then none.
#[test]
fn a_full_stream_takes_a_prefix(rt: HostRuntime) -> Result<(), Fail> {
    let mut sink = HostSink::new(Cursor::new([0u8; 5]));
    assert!(rt; takes(sink.write(b"__kernel"), 5));
    assert!(rt; sink.write(b"nel").is_err());
    let mut sink = HostSink::new(Cursor::new([0u8; 5]));
    assert!(rt; write_whole(&mut sink, b"__ker").is_ok());
    assert!(rt; write_whole(&mut sink, b"nel").is_err());
    Ok(())
}

// One text, and a second call that fails.
fn one_text(alloc: Global) -> Result<MemoryFiles, AllocError> {
    let program = NamedText {
        name: String::from_str(alloc, "p.lift")?,
        text: b"output xs".to_vec(alloc)?,
    };
    let texts = Vec::from_array(alloc, [program])?;
    Ok(MemoryFiles::new(texts, [2u64].to_vec(alloc)?))
}

fn were_asked(files: &MemoryFiles, reads: &[(&str, usize)]) -> bool {
    match files.asked() {
        Some(asked) => are_same(asked, reads),
        None => false,
    }
}

fn are_same(asked: &[AskedText], reads: &[(&str, usize)]) -> bool {
    asked.len() == reads.len()
        && asked.iter().zip(reads).all(|(asked, read)| asked.name.as_str() == read.0
            && asked.limit == read.1)
}

#[test]
fn a_listed_read_fails(rt: HostRuntime) -> Result<(), Fail> {
    let mut files = one_text(rt.alloc())?;
    assert!(rt; were_asked(&files, [].as_slice()));
    assert!(rt; gives(files.read_all(rt.alloc(), "p.lift", 9), b"output xs"));
    assert!(rt; failed(files.read_all(rt.alloc(), "p.lift", 9)));
    assert!(rt; too_long(files.read_all(rt.alloc(), "p.lift", 8), 9));
    assert!(rt; failed(files.read_all(rt.alloc(), "absent.lift", 9)));
    let asked = [
        ("p.lift", 9),
        ("p.lift", 9),
        ("p.lift", 8),
        ("absent.lift", 9),
    ];
    assert!(rt; were_asked(&files, asked.as_slice()));
    Ok(())
}

fn takes(write: Result<usize, WriteFailed>, want: usize) -> bool {
    match write {
        Ok(count) => count == want,
        Err(_) => false,
    }
}

#[test]
fn a_failed_write_leaves_a_prefix(rt: HostRuntime) -> Result<(), Fail> {
    let failing = [2u64].to_vec(rt.alloc())?;
    let mut sink = MemorySink::new(rt.alloc(), 64, 16, failing)?;
    assert!(rt; write_whole(&mut sink, b"__kernel void lift(__global").is_err());
    assert!(rt; sink.bytes() == b"__kernel void li".as_slice());
    Ok(())
}

#[test]
fn an_empty_piece_takes_nothing(rt: HostRuntime) -> Result<(), Fail> {
    let failing = [1u64, 3].to_vec(rt.alloc())?;
    let mut sink = MemorySink::new(rt.alloc(), 2, 16, failing)?;
    assert!(rt; takes(sink.write(b""), 0));
    assert!(rt; takes(sink.write(b"abc"), 2));
    assert!(rt; takes(sink.write(b""), 0));
    assert!(rt; sink.write(b"c").is_err());
    assert!(rt; takes(HostSink::new(rt.stdout()).write(b""), 0));
    assert!(rt; takes(NeverFails.write(b"__kernel"), 8));
    assert!(rt; write_whole(&mut NeverFails, b"__kernel").is_ok());
    Ok(())
}
