//! Each object in memory, and the streams of the system, once on its happy path, and each fault of it.

use anyhow::Result;
use sb_outside::{
    FileFault, Files, MemFiles, MemSink, MemSource, Sink, Source, StdSink, StdSource,
};
use std::alloc::{AllocError, Global};
use std::io;

// Prints what so many takes give.
fn put_takes<S: Source>(rt: &HostRuntime, source: &mut S, count: u8) -> Result<()> {
    for _ in 0..count {
        println!(rt; "{:?}", source.take())?;
    }
    Ok(())
}

// Prints what each put gives.
fn put_puts<S: Sink>(rt: &HostRuntime, sink: &mut S, texts: &[&str]) -> Result<()> {
    for text in texts {
        println!(rt; "{:?}", sink.put(text.as_bytes()))?;
    }
    Ok(())
}

/// Prints what the bytes 7 and 8 give in six takes, of which the second and the fifth fail.
pub fn put_source(rt: &HostRuntime) -> Result<()> {
    let mut source = MemSource::new(rt.alloc(), &[7, 8], &[1, 4])?;
    put_takes(rt, &mut source, 6)
}

/// Prints what four puts of two bytes give where there is room for six, and the second fails and keeps one of them; and
/// the bytes that are there then.
pub fn put_sink(rt: &HostRuntime) -> Result<()> {
    let mut sink = MemSink::new(rt.alloc(), 6, &[(1, 1)])?;
    put_puts(rt, &mut sink, &["ab", "cd", "ef", "gh"])?;
    println!(rt; "{:?}", str::from_utf8(sink.bytes()))?;
    Ok(())
}

fn two_files(alloc: Global) -> Result<MemFiles, AllocError> {
    let mut pairs = Vec::new(alloc);
    pairs.push((
        String::from_str(alloc, "a.c")?,
        Vec::from_slice(alloc, b"one")?,
    ))?;
    pairs.push((String::from_str(alloc, "b.c")?, Vec::new(alloc)))?;
    MemFiles::new(alloc, &pairs, 4, &[2], &[(1, 2)])
}

/// Prints what a read gave.
pub fn put_read(rt: &HostRuntime, read: Result<Vec<u8>, FileFault>) -> Result<()> {
    match read {
        Ok(bytes) => println!(rt; "{:?}", str::from_utf8(bytes.as_slice()))?,
        Err(fault) => println!(rt; "{fault:?}")?,
    }
    Ok(())
}

const WRITES: [(&str, &str); 4] = [
    ("b.c", "four"),
    ("a.c", "new"),
    ("b.c", "more!"),
    ("c.c", ""),
];

const READS: [(&str, u64); 5] = [("a.c", 2), ("b.c", 3), ("a.c", 9), ("c.c", 9), ("b.c", 4)];

/// Prints what writes and reads give of two files, `a.c` with `one` and `b.c` with nothing, that have room for four
/// bytes; the second write fails and keeps two bytes, and the third read fails.
pub fn put_files(rt: &HostRuntime) -> Result<()> {
    let mut files = two_files(rt.alloc())?;
    for (name, text) in WRITES.iter() {
        println!(rt; "{:?}", files.write(name, text.as_bytes()))?;
    }
    for (name, max) in READS.iter() {
        put_read(rt, files.read(rt.alloc(), name, *max))?;
    }
    Ok(())
}

// Takes a few bytes, one at a time, and then nothing.
#[derive(Drop)]
struct Narrow {
    room: u8,
}

impl io::Write for Narrow {
    fn write(&mut self, buf: &[u8]) -> io::Result<usize> {
        if self.room == 0 || buf.is_empty() {
            return Ok(0);
        }
        self.room -= 1;
        Ok(1)
    }

    fn flush(&mut self) -> io::Result<()> {
        Ok(())
    }
}

/// Prints what a stream of two bytes gives in three takes, and what three puts give to one that takes three bytes, one
/// at a time.
pub fn put_streams(rt: &HostRuntime) -> Result<()> {
    let mut source = StdSource::new(b"xy".as_slice());
    put_takes(rt, &mut source, 3)?;
    let mut sink = StdSink::new(Narrow { room: 3 });
    put_puts(rt, &mut sink, &["abc", "", "d"])
}
