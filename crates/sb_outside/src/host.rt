//! The outside of the process: its standard streams and the files of the system. What the system
//! gives or takes is not told; the adapters hand on what a reader or a writer that tells it does.
ghost use Rattle.std.specs.Prelude.{◌≡◌, ◌+◌, ◌≤◌, ◌^◌, ◌<◌, None, Some, IfSome, IfOk, OnOk, OnErr, true, false};
ghost use Rattle.std.specs.Io.KnownBytes.{Appends};
ghost use Rattle.sb_outside.specs.Content.{ReadsAtMost, ReadsUntold, Takes, GainsPart, gained};
ghost use Rattle.sb_outside.specs.Faults.{CountsFaults};
ghost use Rattle.sb_outside.specs.Rest.{Told, untold};

use crate::files::{FileFault, Files};
use crate::sink::Sink;
use crate::source::{Failed, Source};
use std::alloc::Global;
use std::io::{Read, Write};
use std::{fs, rt};

// How many bytes are read from a file at a time.
const CHUNK: usize = 4096;

/// A source over a reader. Its count of faults rises with each error that the reader gives. Once the reader gave
/// nothing, the source has ended, and does not ask the reader again.
#[derive(Drop)]
pub struct StdSource<R: Read> {
    reader: R,
    ended: bool,
    faults: u64,
}

impl<R: Read> StdSource<R> {
    /// A source that has met no end and no fault.
    pub fn new(reader: R) -> Self
        ensures reader { result.reader ≡ reader }
        ensures ended { result.ended ≡ false }
        ensures faults { result.faults ≡ 0 }
    {
        StdSource {
            reader,
            ended: false,
            faults: 0,
        }
    }
}

impl<R: Read> Source for StdSource<R> {
    ghost rest = { λ s. untold s.ended };

    ghost faults = { λ s. s.faults };

    /// Where the reader tells what is left, the byte is its next, and the end its end.
    fn take(&mut self) -> Result<Option<u8>, Failed>
        ensures content { Takes (untold self.old.ended) (untold self.new.ended) result }
        ensures cause { CountsFaults self.old.faults self.new.faults result }
        ensures told { self.old.ended ≡ false → IfSome (R.remaining self.old.reader)
            (λ bytes. IfSome (R.remaining self.new.reader) (λ left. Takes (Told bytes) (Told left) result)) }
        ensures unasked { self.old.ended ≡ true → self.new ≡ self.old }
    {
        if self.ended {
            return Ok(None);
        }
        let mut byte = [0; 1];
        match self.reader.read(&mut byte) {
            Ok(0) => {
                self.ended = true;
                Ok(None)
            }
            Ok(_) => Ok(Some(byte[0])),
            Err(_) => {
                self.faults = self.faults.saturating_add(1);
                Err(Failed)
            }
        }
    }
}

/// A sink over a writer. Its count of faults rises with each error that the writer gives, and where
/// it takes nothing of a piece that is not empty.
#[derive(Drop)]
pub struct StdSink<W: Write> {
    writer: W,
    faults: u64,
}

impl<W: Write> StdSink<W> {
    /// A sink that has met no fault.
    pub fn new(writer: W) -> Self
        ensures writer { result.writer ≡ writer }
        ensures faults { result.faults ≡ 0 }
    {
        StdSink { writer, faults: 0 }
    }
}

impl<W: Write> Sink for StdSink<W> {
    ghost taken = { λ _. None };

    ghost faults = { λ s. s.faults };

    /// Where the writer tells its content, that has gained all the bytes.
    fn put(&mut self, bytes: &[u8]) -> Result<(), Failed>
        ensures ok { OnOk result (None ≡ gained None bytes.now) }
        ensures err { OnErr result (GainsPart None None bytes.now) }
        ensures cause { CountsFaults self.old.faults self.new.faults result }
        ensures told { OnOk result (Appends (W.contents self.old.writer) (W.contents self.new.writer) bytes.now) }
    {
        if self.writer.write_all(bytes).is_ok() {
            return Ok(());
        }
        self.faults = self.faults.saturating_add(1);
        Err(Failed)
    }
}

/// The files of the system. A name is a path of it. The counts of faults rise with each error that
/// the system gives.
#[derive(Drop)]
pub struct HostFiles<'a, R: rt::Files> {
    runtime: &'a R,
    reads: u64,
    writes: u64,
    read_faults: u64,
    write_faults: u64,
}

impl<'a, R: rt::Files> HostFiles<'a, R> {
    /// The files of a system, of which none was read or written and none failed.
    pub fn new(runtime: &'a R) -> Self
        ensures reads { result.reads ≡ 0 }
        ensures writes { result.writes ≡ 0 }
        ensures read_faults { result.read_faults ≡ 0 }
        ensures write_faults { result.write_faults ≡ 0 }
    {
        HostFiles {
            runtime,
            reads: 0,
            writes: 0,
            read_faults: 0,
            write_faults: 0,
        }
    }
}

impl<'a, R: rt::Files> Files for HostFiles<'a, R> {
    ghost held = { λ _. None };

    ghost reads = { λ f. f.reads };

    ghost writes = { λ f. f.writes };

    ghost read_faults = { λ f. f.read_faults };

    ghost write_faults = { λ f. f.write_faults };

    /// Of the file as `read_at_most` does.
    fn read(&mut self, alloc: Global, name: &str, max: u64) -> Result<Vec<u8>, FileFault> {
        self.reads = self.reads.saturating_add(1);
        let result = match fs::open(self.runtime, name) {
            Ok(mut file) => read_at_most(alloc, &mut file, max),
            Err(_) => Err(FileFault::Failed),
        };
        if let Err(FileFault::Failed) = &result {
            self.read_faults = self.read_faults.saturating_add(1);
        }
        result
    }

    fn write(&mut self, name: &str, bytes: &[u8]) -> Result<(), Failed> {
        self.writes = self.writes.saturating_add(1);
        let written = match fs::create(self.runtime, name) {
            Ok(mut file) => file.write_all(bytes).is_ok(),
            Err(_) => false,
        };
        if written {
            return Ok(());
        }
        self.write_faults = self.write_faults.saturating_add(1);
        Err(Failed)
    }
}

/// All that a reader gives, where it is at most `max` bytes; `TooLong` comes just where there are more, and `Failed`
/// where the reader failed. Never is more than one byte above `max` read.
pub fn read_at_most<R: Read>(alloc: Global, reader: &mut R, max: u64) -> Result<Vec<u8>, FileFault>
    ensures length { ReadsUntold max result }
    ensures told { IfSome (R.remaining reader.old) (λ all. IfSome (R.remaining reader.new)
        (λ left. ReadsAtMost all left max result)) }
{
    let mut bytes = Vec::new(alloc);
    let mut chunk = [0; CHUNK];
    loop {
        let room = max - bytes.len() as u64;
        let wanted = wanted_of(room);
        let count = match reader.read(&mut chunk[..wanted]) {
            Ok(0) => return Ok(bytes),
            Ok(count) => count,
            Err(_) => return Err(FileFault::Failed),
        };
        if count as u64 > room {
            return Err(FileFault::TooLong(max + 1));
        }
        if bytes.extend_from_slice(&chunk[..count]).is_err() {
            return Err(FileFault::Memory);
        }
    }
}

// How many bytes are read where there is room for so many: one more, to see whether the file ends.
fn wanted_of(room: u64) -> usize
    ensures within { result ≤ 4096 }
    ensures few { result ≤ room + 1 }
    ensures some { 0 < result }
{
    if room < CHUNK as u64 {
        room as usize + 1
    } else {
        CHUNK
    }
}
