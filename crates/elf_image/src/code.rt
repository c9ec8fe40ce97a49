//! Where the code of an image stands in its file.

ghost use Rattle.std.specs.Prelude.{◌≡◌, ◌≤◌, ◌*◌, ◌&&◌, ◌∷◌, ◌++◌, [], None, length, if◌then◌else◌};
ghost use Rattle.std.specs.Prelude.{IfOk, OnOk};
ghost use Rattle.elf_image.specs.Layout.{is_load, is_executable, loads, ranges_of, code_ranges};
ghost use Rattle.elf_image.specs.Tests.{image_fault};

use crate::header::{FileHeader, PROGRAM_HEADER_SIZE, ProgramHeader};
use std::alloc::{AllocError, Global};

/// Where the bytes of the executable segments stand in the file of an image, in the order of their program headers:
/// the first place of each (ELF-64, `p_offset`) and how many they are (`p_filesz`). Memory is all that can be wanting.
#[tactic(auto, unfolding(crate::specs::Layout::code_ranges, crate::specs::Layout::loads_of))]
pub fn code_ranges(alloc: Global, bytes: &[u8]) -> Result<Vec<(u64, u64)>, AllocError>
    requires { image_fault bytes.now ≡ None }
    ensures { IfOk result (λ ranges. ranges.items ≡ code_ranges bytes.now) }
{
    let header = FileHeader::at(bytes);
    let table = &bytes[header.program_header_offset as usize..];
    ranges_in(alloc, table, header.program_header_count as usize)
}

// Those that the first `count` headers of a table name.
fn ranges_in(alloc: Global, table: &[u8], count: usize) -> Result<Vec<(u64, u64)>, AllocError>
    requires { 56 * count ≤ length table.now }
    ensures { IfOk result (λ ranges. ranges.items ≡ ranges_of (loads count table.now)) }
{
    let mut ranges = Vec::new(alloc);
    let mut rest = table;
    for _i in 0..count {
        let (header, after) = rest.split_at(PROGRAM_HEADER_SIZE);
        add_range(&mut ranges, ProgramHeader::at(header))?;
        rest = after;
    }
    Ok(ranges)
}

// Adds the range of a header, if it is of an executable segment to load.
fn add_range(ranges: &mut Vec<(u64, u64)>, header: ProgramHeader) -> Result<(), AllocError>
    ensures { OnOk result (ranges.new.items ≡ ranges.old.items
        ++ (if is_load header && is_executable header then (header.offset, header.file_size) ∷ [] else [])) }
{
    if header.is_load() && header.is_executable() {
        ranges.push((header.offset, header.file_size))?;
    }
    Ok(())
}
