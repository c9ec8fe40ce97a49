//! An image that was read: its segments, and the tests of them all together.

use crate::fault::{ImageFault, ReadError};
use crate::header::{
    FILE_HEADER_SIZE, FileHeader, PROGRAM_HEADER_SIZE, ProgramHeader, count_loads,
};
use crate::new_image::NewImage;
use crate::writing::write_image;
use std::alloc::{AllocError, Global};
use std::marker::Model;

/// The most segments to load that an image may have.
pub const MAX_SEGMENTS: usize = 8;

/// The most bytes of memory that the segments of an image may take together: 512 MiB.
pub const MAX_MEMORY: u128 = 536_870_912;

/// A segment of memory that an image fills. Its bytes are borrowed from the file.
#[derive(Drop)]
pub struct Segment<'a> {
    address: u64,
    bytes: &'a [u8],
    size: u64,
    readable: bool,
    writable: bool,
    executable: bool,
}

impl<'a> Model for Segment<'a> {
    ghost use Rattle.elf_image.specs.Content.{SegmentContent};

    ghost Value = { SegmentContent };

    ghost view = { λ s. record {
      address = s.address;
      bytes = s.bytes.now;
      size = s.size;
      readable = s.readable;
      writable = s.writable;
      executable = s.executable;
    } };
}

impl Segment<'_> {
    ghost use Rattle.std.specs.Prelude.{◌≡◌, ◌+◌};
    ghost use Rattle.std.specs.List.{list_any};
    ghost use Rattle.elf_image.specs.Tests.{meets, holds};

    /// The first address of the segment (ELF-64, `p_vaddr`).
    pub fn address(&self) -> u64
        ensures { result ≡ self.now.address }
    {
        self.address
    }

    /// The bytes that the file has of the segment, from its first address on. Those after them are zero.
    pub fn bytes(&self) -> &[u8]
        ensures { result.now ≡ self.now.bytes }
    {
        self.bytes
    }

    /// How many bytes the segment has in memory (`p_memsz`).
    pub fn size(&self) -> u64
        ensures { result ≡ self.now.size }
    {
        self.size
    }

    /// Whether loads may read the segment (`p_flags`, `PF_R`).
    pub fn is_readable(&self) -> bool
        ensures { result ≡ self.now.readable }
    {
        self.readable
    }

    /// Whether stores may write the segment (`PF_W`).
    pub fn is_writable(&self) -> bool
        ensures { result ≡ self.now.writable }
    {
        self.writable
    }

    /// Whether instructions may be fetched from the segment (`PF_X`).
    pub fn is_executable(&self) -> bool
        ensures { result ≡ self.now.executable }
    {
        self.executable
    }

    // Whether the address is one of the segment's.
    fn holds(&self, address: u64) -> bool
        ensures { result ≡ holds address self.now }
    {
        self.address <= address && address - self.address < self.size
    }

    // Whether the two share an address.
    fn meets(&self, other: &Segment) -> bool
        ensures { result ≡ meets self.now other.now }
    {
        let start = self.address.max(other.address);
        let end = self.end().min(other.end());
        u128::from(start) < end
    }

    // Whether the segment shares an address with one of the others.
    fn meets_any(&self, others: &[Segment]) -> bool
        ensures { result ≡ list_any (meets self.now) others.now }
    {
        others.iter().any(|other| self.meets(other))
    }

    // The address after the last.
    fn end(&self) -> u128
        ensures { result ≡ self.now.address + self.now.size }
    {
        u128::from(self.address) + u128::from(self.size)
    }
}

/// An executable file of the ELF-64 Object File Format for RISC-V, as far as a run needs it.
#[derive(Drop)]
pub struct Image<'a> {
    entry: u64,
    segments: Vec<Segment<'a>>,
}

impl<'a> Model for Image<'a> {
    ghost use Rattle.elf_image.specs.Content.{Content};

    ghost Value = { Content };

    ghost view = { λ i. record { entry = i.entry; segments = i.segments.items } };
}

impl<'a> Image<'a> {
    ghost use Rattle.std.specs.Prelude.{◌≡◌, IfOk, None, length};
    ghost use Rattle.elf_image.specs.Layout.{content_of};
    ghost use Rattle.elf_image.specs.Tests.{image_fault, IsAnswer};
    ghost use Rattle.elf_image.specs.Writing.{SegmentsFit, content, image_bytes, image_size};

    /// The address of the first instruction (ELF-64, `e_entry`).
    pub fn entry(&self) -> u64
        ensures { result ≡ self.now.entry }
    {
        self.entry
    }

    /// The segments, in the order of their program headers. There are 1 to 8.
    pub fn segments(&self) -> &[Segment<'a>]
        ensures { result.now ≡ self.now.segments }
    {
        &self.segments
    }

    /// The image that the bytes of a file spell. Otherwise the first test that they fail, in this order: the file
    /// header is there; its magic number; its class, encoding and version; its machine; its type and version; at
    /// most 64 program headers; of 56 bytes each; which lie in the file; 1 to 8 segments to load; each of them fits
    /// its memory and the addresses, and lies in the file; together they take at most 512 MiB; no two share an
    /// address; the entry is the place of an instruction in an executable segment. Headers of other types, sections,
    /// physical addresses and alignments are passed over. `Memory` comes only where the tests before those of the
    /// segments pass.
    #[tactic(auto, unfolding(crate::specs::Tests::headers_fault, crate::specs::Tests::image_fault, crate::specs::Layout::content_of, crate::specs::Layout::loads_of))]
    pub fn read(alloc: Global, bytes: &'a [u8]) -> Result<Image<'a>, ReadError>
        ensures { IsAnswer (λ i. i) bytes.now result }
    {
        if bytes.len() < FILE_HEADER_SIZE {
            return Err(ReadError::Fault(ImageFault::Truncated));
        }
        let header = FileHeader::at(bytes);
        if let Some(fault) = header.fault(bytes.len() as u64) {
            return Err(ReadError::Fault(fault));
        }
        let table = &bytes[header.program_header_offset as usize..];
        let headers = usize::from(header.program_header_count);
        let count = count_loads(table, headers);
        if count == 0 || count > MAX_SEGMENTS {
            return Err(ReadError::Fault(ImageFault::Count(count as u64)));
        }
        let segments = collect(alloc, bytes, table, headers)?;
        if let Some(fault) = content_fault(header.entry, &segments) {
            return Err(ReadError::Fault(fault));
        }
        Ok(Image {
            entry: header.entry,
            segments,
        })
    }

    /// The bytes of a file that is read as this image: the file header, four program headers, and the
    /// bytes of the segments, each at a multiple of 4096. It has to pass the tests of an image.
    pub fn write(alloc: Global, image: &NewImage) -> Result<Vec<u8>, AllocError>
        requires { SegmentsFit image.now }
        ensures bytes { IfOk result (λ file. file.items ≡ image_bytes image.now) }
        ensures is_image { IfOk result (λ file. image_fault file.items ≡ None) }
        ensures content { IfOk result (λ file. content_of file.items ≡ content image.now) }
        ensures size { IfOk result (λ file. length file.items ≡ image_size image.now) }
    {
        write_image(alloc, image)
    }
}

ghost use Rattle.std.specs.Prelude.{◌≡◌, ◌≤◌, ◌*◌, length, []};
ghost use Rattle.elf_image.specs.Layout.{program_header, with_load, loads};
ghost use Rattle.elf_image.specs.Tests.{IsCollected, IsAdded, memory_size, overlaps, may_run_at, content_fault};

// The segments that the first `count` headers of the table name, or the first fault of them.
#[tactic(auto, using(crate::proofs::Loads::loads_next))]
fn collect<'a>(
    alloc: Global,
    bytes: &'a [u8],
    table: &[u8],
    count: usize,
) -> Result<Vec<Segment<'a>>, ReadError>
    requires { 56 * count ≤ length table.now }
    ensures { IsCollected (λ v. v.items) bytes.now (loads count table.now) result }
{
    let mut segments = Vec::new(alloc);
    let mut rest = table;
    for _i in 0..count {
        let (header, after) = rest.split_at(PROGRAM_HEADER_SIZE);
        add_segment(&mut segments, bytes, ProgramHeader::at(header))?;
        rest = after;
    }
    Ok(segments)
}

// Adds the segment that a header names, if it is one to load.
fn add_segment<'a>(
    segments: &mut Vec<Segment<'a>>,
    bytes: &'a [u8],
    header: ProgramHeader,
) -> Result<(), ReadError>
    ensures { IsAdded segments.old.items segments.new.items bytes.now (with_load header []) result }
{
    if !header.is_load() {
        return Ok(());
    }
    if let Some(fault) = header.fault(bytes.len() as u64) {
        return Err(ReadError::Fault(fault));
    }
    let start = header.offset as usize;
    segments.push(Segment {
        address: header.virtual_address,
        bytes: &bytes[start..start + header.file_size as usize],
        size: header.memory_size,
        readable: header.is_readable(),
        writable: header.is_writable(),
        executable: header.is_executable(),
    })?;
    Ok(())
}

// The first of the tests of all segments together that fails.
fn content_fault(entry: u64, segments: &[Segment]) -> Option<ImageFault>
    requires { length segments.now ≤ MAX_SEGMENTS }
    ensures { result ≡ content_fault (record { entry = entry; segments = segments.now }) }
{
    let size = memory_size(segments);
    if size > MAX_MEMORY {
        return Some(ImageFault::TooLarge(size));
    }
    if overlaps(segments) {
        return Some(ImageFault::Overlap);
    }
    if entry % 4 != 0 || !may_run_at(entry, segments) {
        return Some(ImageFault::Range);
    }
    None
}

// The memory of all segments together.
fn memory_size(segments: &[Segment]) -> u128
    requires { length segments.now ≤ MAX_SEGMENTS }
    ensures { result ≡ memory_size segments.now }
{
    let mut size = 0;
    for segment in segments {
        size += u128::from(segment.size);
    }
    size
}

// Whether two segments share an address.
fn overlaps(segments: &[Segment]) -> bool
    ensures { result ≡ overlaps segments.now }
{
    match segments {
        [] => false,
        [first, rest @ ..] => first.meets_any(rest) || overlaps(rest),
    }
}

// Whether the address is in an executable segment.
fn may_run_at(address: u64, segments: &[Segment]) -> bool
    ensures { result ≡ may_run_at address segments.now }
{
    segments.iter().any(|segment| segment.is_executable() && segment.holds(address))
}
