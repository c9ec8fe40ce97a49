//! The headers of a file, and the tests that need nothing else. Fields have the names of the ELF-64 Object File
//! Format in whole words.

ghost use Rattle.std.specs.Prelude.{◌≡◌, ◌≤◌, ◌+◌, ◌*◌, length, drop, IfNone};
ghost use Rattle.elf_image.specs.Layout.{field, file_header, program_header, is_load, is_readable, is_writable};
ghost use Rattle.elf_image.specs.Layout.{is_executable, loads};
ghost use Rattle.elf_image.specs.Tests.{header_fault, load_fault};

use crate::fault::ImageFault;
use byteorder::{ByteOrder, LittleEndian};

/// The bytes of a file header (ELF-64, `e_ehsize`).
pub const FILE_HEADER_SIZE: usize = 64;

/// The bytes of a program header (ELF-64, `e_phentsize`).
pub const PROGRAM_HEADER_SIZE: usize = 56;

/// The most program headers that a file may have.
pub const MAX_PROGRAM_HEADERS: u64 = 64;

/// `7f 45 4c 46` as a little endian number.
const MAGIC: u32 = 0x464c_457f;

/// `ELFCLASS64`.
const CLASS_64: u8 = 2;

/// `ELFDATA2LSB`.
const LITTLE_ENDIAN: u8 = 1;

/// `EV_CURRENT`.
const CURRENT_VERSION: u8 = 1;

/// `ET_EXEC`.
const EXECUTABLE: u16 = 2;

/// `EM_RISCV`.
const RISC_V: u16 = 243;

/// `PT_LOAD`.
pub const LOAD: u32 = 1;

/// The fields of a file header that are read (ELF-64, "File header").
#[derive(Clone, Copy, Debug)]
pub struct FileHeader {
    /// `e_ident[EI_MAG0]` to `e_ident[EI_MAG3]`, as a little endian number.
    pub magic: u32,
    /// `e_ident[EI_CLASS]`.
    pub class: u8,
    /// `e_ident[EI_DATA]`.
    pub data_encoding: u8,
    /// `e_ident[EI_VERSION]`.
    pub identification_version: u8,
    /// `e_type`.
    pub object_type: u16,
    /// `e_machine`.
    pub machine: u16,
    /// `e_version`.
    pub version: u32,
    /// `e_entry`, an address.
    pub entry: u64,
    /// `e_phoff`, in bytes from the start of the file.
    pub program_header_offset: u64,
    /// `e_phentsize`, in bytes.
    pub program_header_size: u16,
    /// `e_phnum`.
    pub program_header_count: u16,
}

impl FileHeader {
    /// The file header at the start of the bytes of a file.
    #[tactic(auto, unfolding(crate::specs::Layout::file_header))]
    pub fn at(bytes: &[u8]) -> FileHeader
        requires { 64 ≤ length bytes.now }
        ensures { result ≡ file_header bytes.now }
    {
        FileHeader {
            magic: u32_at(bytes, 0),
            class: bytes[4],
            data_encoding: bytes[5],
            identification_version: bytes[6],
            object_type: u16_at(bytes, 16),
            machine: u16_at(bytes, 18),
            version: u32_at(bytes, 20),
            entry: u64_at(bytes, 24),
            program_header_offset: u64_at(bytes, 32),
            program_header_size: u16_at(bytes, 54),
            program_header_count: u16_at(bytes, 56),
        }
    }

    /// The first of the tests of the header that fails, in a file of so many bytes.
    #[tactic(auto, unfolding(crate::specs::Tests::header_fault))]
    pub fn fault(self, file_size: u64) -> Option<ImageFault>
        ensures value { result ≡ header_fault file_size self }
        ensures few { IfNone result (self.program_header_count ≤ 64) }
        ensures in_file { IfNone result (self.program_header_offset + 56 * self.program_header_count ≤ file_size) }
    {
        if self.magic != MAGIC {
            return Some(ImageFault::Magic);
        }
        if self.class != CLASS_64
            || self.data_encoding != LITTLE_ENDIAN
            || self.identification_version != CURRENT_VERSION
        {
            return Some(ImageFault::Class);
        }
        if self.machine != RISC_V {
            return Some(ImageFault::Machine);
        }
        if self.object_type != EXECUTABLE || self.version != u32::from(CURRENT_VERSION) {
            return Some(ImageFault::FileType);
        }
        let count = u64::from(self.program_header_count);
        if count > MAX_PROGRAM_HEADERS {
            return Some(ImageFault::Count(count));
        }
        if count > 0 && usize::from(self.program_header_size) != PROGRAM_HEADER_SIZE {
            return Some(ImageFault::Range);
        }
        let offset = self.program_header_offset;
        if offset > file_size || PROGRAM_HEADER_SIZE as u64 * count > file_size - offset {
            return Some(ImageFault::Truncated);
        }
        None
    }
}

/// The fields of a program header that are read (ELF-64, "Program header table").
#[derive(Clone, Copy, Debug)]
pub struct ProgramHeader {
    /// `p_type`.
    pub segment_type: u32,
    /// `p_flags`: execute is 1, write 2, read 4.
    pub flags: u32,
    /// `p_offset`, in bytes from the start of the file.
    pub offset: u64,
    /// `p_vaddr`.
    pub virtual_address: u64,
    /// `p_filesz`, in bytes.
    pub file_size: u64,
    /// `p_memsz`, in bytes.
    pub memory_size: u64,
}

impl ProgramHeader {
    /// The program header at the start of these bytes.
    #[tactic(auto, unfolding(crate::specs::Layout::program_header))]
    pub fn at(bytes: &[u8]) -> ProgramHeader
        requires { 56 ≤ length bytes.now }
        ensures { result ≡ program_header bytes.now }
    {
        ProgramHeader {
            segment_type: u32_at(bytes, 0),
            flags: u32_at(bytes, 4),
            offset: u64_at(bytes, 8),
            virtual_address: u64_at(bytes, 16),
            file_size: u64_at(bytes, 32),
            memory_size: u64_at(bytes, 40),
        }
    }

    /// Whether the segment is loaded.
    pub fn is_load(self) -> bool
        ensures { result ≡ is_load self }
    {
        self.segment_type == LOAD
    }

    /// Whether the segment may be read.
    pub fn is_readable(self) -> bool
        ensures { result ≡ is_readable self }
    {
        self.flags / 4 % 2 == 1
    }

    /// Whether the segment may be written.
    pub fn is_writable(self) -> bool
        ensures { result ≡ is_writable self }
    {
        self.flags / 2 % 2 == 1
    }

    /// Whether instructions may be fetched from the segment.
    pub fn is_executable(self) -> bool
        ensures { result ≡ is_executable self }
    {
        self.flags % 2 == 1
    }

    /// The first of the tests of a segment to load that fails, in a file of so many bytes.
    pub fn fault(self, file_size: u64) -> Option<ImageFault>
        ensures value { result ≡ load_fault file_size self }
        ensures in_file { IfNone result (self.offset + self.file_size ≤ file_size) }
    {
        let size = self.memory_size;
        if self.file_size > size || (size > 0 && self.virtual_address > u64::MAX - size + 1) {
            return Some(ImageFault::Range);
        }
        if self.offset > file_size || self.file_size > file_size - self.offset {
            return Some(ImageFault::Truncated);
        }
        None
    }
}

/// How many of the first `count` headers of a table are of segments to load.
#[tactic(auto, using(crate::proofs::Loads::loads_next))]
pub fn count_loads(table: &[u8], count: usize) -> usize
    requires { 56 * count ≤ length table.now }
    ensures value { result ≡ length (loads count table.now) }
    ensures few { result ≤ count }
{
    let mut found = 0;
    let mut rest = table;
    for _i in 0..count {
        let (header, after) = rest.split_at(PROGRAM_HEADER_SIZE);
        if ProgramHeader::at(header).is_load() {
            found += 1;
        }
        rest = after;
    }
    found
}

fn u16_at(bytes: &[u8], offset: usize) -> u16
    requires { offset + 2 ≤ length bytes.now }
    ensures { result ≡ field bytes.now offset 2 }
{
    LittleEndian::read_u16(&bytes[offset..])
}

fn u32_at(bytes: &[u8], offset: usize) -> u32
    requires { offset + 4 ≤ length bytes.now }
    ensures { result ≡ field bytes.now offset 4 }
{
    LittleEndian::read_u32(&bytes[offset..])
}

fn u64_at(bytes: &[u8], offset: usize) -> u64
    requires { offset + 8 ≤ length bytes.now }
    ensures { result ≡ field bytes.now offset 8 }
{
    LittleEndian::read_u64(&bytes[offset..])
}
