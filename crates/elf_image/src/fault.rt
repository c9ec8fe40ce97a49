//! Why bytes are no image.

ghost use Rattle.std.specs.Prelude.{◌≡◌};
ghost use Rattle.elf_image.specs.Tests.{fault_number};
ghost use Rattle.elf_image.specs.declared.fault.ReadError.TheVariants.{Memory};

use std::alloc::{AllocError, AllocFailed};

/// The first of the tests of an image that bytes fail, in the order in which `Image::read` makes them.
#[derive(Clone, Copy, Debug, PartialEq, Eq)]
pub enum ImageFault {
    /// The file ends before its file header does, before its program header table does (ELF-64, `e_phoff` and
    /// `e_phnum`), or before the bytes of a segment do (`p_offset` and `p_filesz`).
    Truncated,
    /// The first four bytes are not `7f 45 4c 46` (`EI_MAG0` to `EI_MAG3`).
    Magic,
    /// The file is not of 64-bit objects (`EI_CLASS` 2), little endian (`EI_DATA` 1), of version 1 (`EI_VERSION`).
    Class,
    /// The file is not for RISC-V (`e_machine` 243).
    Machine,
    /// The file is not an executable (`e_type` 2) of version 1 (`e_version`).
    FileType,
    /// There are this many program headers (`e_phnum`), which is more than 64; or this many segments to load, which is
    /// 0 or more than 8.
    Count(u64),
    /// Two segments share an address.
    Overlap,
    /// The segments together take this many bytes of memory, which is more than 536870912.
    TooLarge(u128),
    /// A program header is not of 56 bytes (`e_phentsize`); a segment has more bytes in the file than in memory, or
    /// goes past the address 2^64 - 1; or the entry (`e_entry`) is no multiple of 4 or in no executable segment.
    Range,
}

impl ImageFault {
    /// The number by which the fault is reported, 1 to 9.
    pub fn number(self) -> u8
        ensures { result ≡ fault_number self }
    {
        match self {
            ImageFault::Truncated => 1,
            ImageFault::Magic => 2,
            ImageFault::Class => 3,
            ImageFault::Machine => 4,
            ImageFault::FileType => 5,
            ImageFault::Count(_) => 6,
            ImageFault::Overlap => 7,
            ImageFault::TooLarge(_) => 8,
            ImageFault::Range => 9,
        }
    }
}

/// Why an image could not be read.
#[derive(Debug, Drop)]
pub enum ReadError {
    /// The bytes are no image.
    Fault(ImageFault),
    /// There was no memory for the list of segments.
    Memory,
}

impl From<AllocError> for ReadError {
    ghost from_gives = { λ _ e. e ≡ Memory };

    fn from(_error: AllocError) -> ReadError {
        ReadError::Memory
    }
}

impl<T: Drop> From<AllocFailed<T>> for ReadError {
    ghost from_gives = { λ _ e. e ≡ Memory };

    fn from(_error: AllocFailed<T>) -> ReadError {
        ReadError::Memory
    }
}
