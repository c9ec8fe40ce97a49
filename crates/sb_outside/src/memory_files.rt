//! Files in memory.
ghost use Rattle.std.specs.Prelude.{◌≡◌, ◌<◌, ◌≤◌, length, take, All, option_map, is_some, Some, IfSome, IfOk, IsErrOf};
ghost use Rattle.std.specs.Prelude.{map, bytes_eq};
ghost use Rattle.std.specs.List.{position_from};
ghost use Rattle.sb_outside.specs.HeldFile.{HeldFile, held_in, written_in, file_of};
ghost use Rattle.sb_outside.specs.Content.{ReadsFile};

use crate::files::{FileFault, Files};
use crate::memory_sink::{kept_by, kept_of};
use crate::source::Failed;
use std::alloc::{AllocError, Global};
use std::marker::Model;

// A file: its name, and its bytes at the front of a buffer.
#[derive(Drop)]
struct MemFile {
    name: String,
    buffer: Vec<u8>,
    len: usize,
}

impl Model for MemFile {
    ghost use Rattle.std.specs.Prelude.{◌≤◌, length, take, string_bytes};
    ghost use Rattle.sb_outside.specs.HeldFile.{HeldFile};

    ghost Value = { HeldFile };

    ghost view = { λ f. record
        { name = string_bytes f.name; bytes = take f.len f.buffer.items; room = length f.buffer.items } };

    ghost invariant = { λ f. f.len ≤ length f.buffer.items };
}

impl MemFile {
    ghost use Rattle.std.specs.Prelude.{◌≡◌, ◌≤◌, ◌^◌, ◌<◌, length, max, string_bytes, bytes_eq, IfOk};
    ghost use Rattle.sb_outside.specs.HeldFile.{HeldFile};

    // A file with room for its bytes and for `room`.
    fn new(alloc: Global, name: &String, bytes: &[u8], room: u64) -> Result<Self, AllocError>
        ensures { IfOk result
            (λ f. f ≡ record { name = string_bytes name.now; bytes = bytes.now; room = max room (length bytes.now) }) }
    {
        let name = name.clone()?;
        let size = room.max(bytes.len() as u64) as usize;
        let mut buffer = vec![in alloc; 0; size]?;
        fill_front(&mut buffer, bytes);
        Ok(MemFile {
            name,
            buffer,
            len: bytes.len(),
        })
    }

    fn is_named(&self, name: &str) -> bool
        ensures { result ≡ bytes_eq self.now.name name.now }
    {
        self.name.as_str() == name
    }

    fn bytes(&self) -> &[u8]
        ensures { result.now ≡ self.now.bytes }
    {
        &self.buffer[..self.len]
    }

    // Makes it hold these bytes.
    fn put(&mut self, bytes: &[u8])
        requires { length bytes.now ≤ self.old.room }
        ensures { self.new ≡ record self.old { bytes = bytes.now } }
    {
        fill_front(&mut self.buffer, bytes);
        self.len = bytes.len();
    }
}

/// Files in memory, of which the first of a name counts. The reads and the writes with the given
/// numbers fail. A write of more than `room` bytes fails, and so does one to a name that is not there.
#[derive(Drop)]
pub struct MemFiles {
    files: Vec<MemFile>,
    room: u64,
    read_fails: Vec<u64>,
    write_fails: Vec<(u64, u64)>,
    reads: u64,
    writes: u64,
    read_faults: u64,
    write_faults: u64,
    ghost roomy: { All (λ (f : HeldFile). room ≤ f.room) files.items },
}

impl MemFiles {
    ghost use Rattle.std.specs.Prelude.{◌≡◌, map, IfOk};
    ghost use Rattle.sb_outside.specs.HeldFile.{HeldFile, file_of};
    ghost use Rattle.sb_outside.specs.MemoryFiles.{files_of, write_room, failing_reads, failing_writes, next_read};
    ghost use Rattle.sb_outside.specs.MemoryFiles.{next_write, read_faults, write_faults};

    /// Files with these names and bytes, each with room for `room` bytes. The reads with the numbers
    /// `read_fails` and the writes with those of `write_fails`, counted apart from 0, fail; with each
    /// write stands how many bytes it keeps. All memory for writing is taken here.
    pub fn new(
        alloc: Global,
        pairs: &[(String, Vec<u8>)],
        room: u64,
        read_fails: &[u64],
        write_fails: &[(u64, u64)],
    ) -> Result<Self, AllocError>
        ensures files { IfOk result (λ m. files_of m ≡ map (file_of room) pairs.now) }
        ensures room { IfOk result (λ m. write_room m ≡ room) }
        ensures read_fails { IfOk result (λ m. failing_reads m ≡ read_fails.now) }
        ensures write_fails { IfOk result (λ m. failing_writes m ≡ write_fails.now) }
        ensures reads { IfOk result (λ m. next_read m ≡ 0) }
        ensures writes { IfOk result (λ m. next_write m ≡ 0) }
        ensures read_faults { IfOk result (λ m. read_faults m ≡ 0) }
        ensures write_faults { IfOk result (λ m. write_faults m ≡ 0) }
    {
        let files = files_of(alloc, pairs, room)?;
        let read_fails = Vec::from_slice(alloc, read_fails)?;
        let write_fails = Vec::from_slice(alloc, write_fails)?;
        Ok(MemFiles {
            files,
            room,
            read_fails,
            write_fails,
            reads: 0,
            writes: 0,
            read_faults: 0,
            write_faults: 0,
        })
    }
}

impl Files for MemFiles {
    ghost use Rattle.std.specs.Prelude.{◌≡◌, ◌↔◌, ◌⊎◌, ◌≤◌, length, take, None, Some, IsOk, IsSome};
    ghost use Rattle.std.specs.Prelude.{IsErrOf, Contains};
    ghost use Rattle.sb_outside.specs.HeldFile.{HeldFile, held_in, written_in};
    ghost use Rattle.sb_outside.specs.Content.{Reads, Writes};
    ghost use Rattle.sb_outside.specs.Faults.{CountsFaults, CountsReadFaults, next_count};
    ghost use Rattle.sb_outside.specs.Failures.{kept_by, kept_count};
    ghost use Rattle.sb_outside.specs.MemoryFiles.{files_of, write_room, failing_reads, failing_writes, next_read};
    ghost use Rattle.sb_outside.specs.MemoryFiles.{next_write, read_faults, write_faults};

    ghost held = { λ m. Some (held_in (files_of m)) };

    ghost reads = { λ m. next_read m };

    ghost writes = { λ m. next_write m };

    ghost read_faults = { λ m. read_faults m };

    ghost write_faults = { λ m. write_faults m };

    fn read(&mut self, alloc: Global, name: &str, max: u64) -> Result<Vec<u8>, FileFault>
        ensures files { Some (held_in (files_of self.new)) ≡ Some (held_in (files_of self.old)) }
        ensures content { Reads (Some (held_in (files_of self.old))) name.now max result }
        ensures asked { next_read self.new ≡ next_count (next_read self.old) }
        ensures cause { CountsReadFaults (read_faults self.old) (read_faults self.new) result }
        ensures unwritten { next_write self.new ≡ next_write self.old }
        ensures others { write_faults self.new ≡ write_faults self.old }

        // Just the listed reads fail, and those of a name that is not there.
        ensures fails { IsErrOf result FileFault.Failed ↔
            (Contains (failing_reads self.old) (next_read self.old) ⊎ (held_in (files_of self.old) name.now ≡ None)) }
        ensures kept { self.new ≡ record self.old { reads = next_read self.new; read_faults = read_faults self.new } }
    {
        let call = self.reads;
        self.reads = call.saturating_add(1);
        if self.read_fails.contains(&call) {
            self.read_faults = self.read_faults.saturating_add(1);
            return Err(FileFault::Failed);
        }
        match find(&self.files, name) {
            Some(bytes) => copy_of(alloc, bytes, max),
            None => {
                self.read_faults = self.read_faults.saturating_add(1);
                Err(FileFault::Failed)
            }
        }
    }

    #[tactic(auto, using(crate::proofs::Held::roomy_for, crate::proofs::Held::roomy_written))]
    fn write(&mut self, name: &str, bytes: &[u8]) -> Result<(), Failed>
        ensures content { Writes (Some (held_in (files_of self.old)))
            (Some (held_in (files_of self.new))) name.now bytes.now result }
        ensures counted { next_write self.new ≡ next_count (next_write self.old) }
        ensures cause { CountsFaults (write_faults self.old) (write_faults self.new) result }
        ensures unread { next_read self.new ≡ next_read self.old }
        ensures others { read_faults self.new ≡ read_faults self.old }

        // Just the listed writes fail, and those of too many bytes or to a name that is not there.
        ensures works { IsOk result ↔ ((kept_by (failing_writes self.old) (next_write self.old) ≡ None)
            × (length bytes.now ≤ write_room self.old) × IsSome (held_in (files_of self.old) name.now)) }
        // The file holds all the bytes for which there is room, and after a listed write at most as many as are listed.
        ensures kept { files_of self.new ≡ written_in (files_of self.old) name.now
            (take (kept_count (kept_by (failing_writes self.old) (next_write self.old)) (length bytes.now)
            (write_room self.old)) bytes.now) }
        ensures room { write_room self.new ≡ write_room self.old }
        ensures listed { failing_writes self.new ≡ failing_writes self.old }
        ensures listed_reads { failing_reads self.new ≡ failing_reads self.old }
    {
        let listed = kept_by(&self.write_fails, self.writes);
        self.writes = self.writes.saturating_add(1);
        let room = self.room as usize;
        let kept = kept_of(listed, bytes.len()).min(room);
        let there = put_into(&mut self.files, name, &bytes[..kept]);
        if there && listed.is_none() && bytes.len() <= room {
            return Ok(());
        }
        self.write_faults = self.write_faults.saturating_add(1);
        Err(Failed)
    }
}

#[tactic(auto, using(crate::proofs::Held::roomy_made))]
fn files_of(
    alloc: Global,
    pairs: &[(String, Vec<u8>)],
    room: u64,
) -> Result<Vec<MemFile>, AllocError>
    ensures files { IfOk result (λ files. files.items ≡ map (file_of room) pairs.now) }
    ensures roomy { IfOk result (λ files. All (λ f. room ≤ f.room) files.items) }
{
    let mut files = Vec::new(alloc);
    for pair in pairs {
        files.push(MemFile::new(alloc, &pair.0, &pair.1, room)?)?;
    }
    Ok(files)
}

// Puts bytes into the first file of a name, if there is one, and tells whether there is.
fn put_into(files: &mut Vec<MemFile>, name: &str, bytes: &[u8]) -> bool
    requires { All (λ f. length bytes.now ≤ f.room) files.old.items }
    ensures files { files.new.items ≡ written_in files.old.items name.now bytes.now }
    ensures there { result ≡ is_some (held_in files.old.items name.now) }
{
    match place(files, name) {
        Some(at) => {
            let file = &mut files[at];
            file.put(bytes);
            true
        }
        None => false,
    }
}

// The place of the first file of a name.
fn place(files: &[MemFile], name: &str) -> Option<usize>
    ensures place { result ≡ position_from (λ f. bytes_eq f.name name.now) 0 files.now }
    ensures within { IfSome result (λ i. i < length files.now) }
{
    files.iter().position(|file| file.is_named(name))
}

// A copy of a file's bytes, where there are at most `max`.
fn copy_of(alloc: Global, bytes: &[u8], max: u64) -> Result<Vec<u8>, FileFault>
    ensures content { ReadsFile (Some bytes.now) max result }
    ensures no_fault { IsErrOf result FileFault.Failed → ⊥ }
{
    let len = bytes.len() as u64;
    if len > max {
        return Err(FileFault::TooLong(len));
    }
    match bytes.to_vec(alloc) {
        Ok(copy) => Ok(copy),
        Err(_) => Err(FileFault::Memory),
    }
}

// Puts bytes at the front of a buffer.
fn fill_front(buffer: &mut [u8], bytes: &[u8])
    requires { length bytes.now ≤ length buffer.old }
    ensures front { take (length bytes.now) buffer.new ≡ bytes.now }
    ensures size { length buffer.new ≡ length buffer.old }
{
    buffer[..bytes.len()].copy_from_slice(bytes);
}

// The bytes of the first file of a name.
fn find<'a>(files: &'a [MemFile], name: &str) -> Option<&'a [u8]>
    ensures { option_map (λ b. b.now) result ≡ held_in files.now name.now }
{
    for file in files {
        if file.is_named(name) {
            return Some(file.bytes());
        }
    }
    None
}
