//! The bytes of an image, appended in the order in which they stand in the file.

ghost use Rattle.std.specs.Prelude.{◌≡◌, ◌≤◌, ◌+◌, ◌^◌, ◌++◌, length, None, IfOk, OnOk};
ghost use Rattle.elf_image.specs.Layout.{content_of};
ghost use Rattle.elf_image.specs.Tests.{image_fault};
ghost use Rattle.elf_image.specs.Writing.{zeros, page_end, header_bytes, u32_bytes, u64_bytes, load_bytes, padded};
ghost use Rattle.elf_image.specs.Writing.{image_bytes, image_size, content, SegmentsFit};

use crate::header::LOAD;
use crate::new_image::{NewImage, NewSegment};
use std::alloc::{AllocError, Global};

// The bytes of an image, which are read as that image.
pub fn write_image(alloc: Global, image: &NewImage) -> Result<Vec<u8>, AllocError>
    requires { SegmentsFit image.now }
    ensures bytes { IfOk result (λ file. file.items ≡ image_bytes image.now) }
    ensures is_image { IfOk result (λ file. image_fault file.items ≡ None) }
    ensures content { IfOk result (λ file. content_of file.items ≡ content image.now) }
    ensures size { IfOk result (λ file. length file.items ≡ image_size image.now) }
{
    write_bytes(alloc, image)
}

#[tactic(auto, unfolding(crate::specs::Writing::image_bytes))]
fn write_bytes(alloc: Global, image: &NewImage) -> Result<Vec<u8>, AllocError>
    requires { SegmentsFit image.now }
    ensures { IfOk result (λ file. file.items ≡ image_bytes image.now) }
{
    let NewImage {
        entry,
        jump_table,
        code,
        objects,
        runtime,
    } = image;
    let mut file = Vec::new(alloc);
    put_file_header(&mut file, *entry)?;
    let code_offset = PAGE_SIZE + whole_pages(jump_table.bytes.len() as u64);
    let objects_offset = code_offset + whole_pages(code.bytes.len() as u64);
    let runtime_offset = objects_offset + whole_pages(objects.bytes.len() as u64);
    put_program_header(&mut file, EXECUTE, PAGE_SIZE, jump_table)?;
    put_program_header(&mut file, EXECUTE, code_offset, code)?;
    put_program_header(&mut file, READ_WRITE, objects_offset, objects)?;
    put_program_header(&mut file, READ_WRITE, runtime_offset, runtime)?;
    put_zeros(&mut file, REST_OF_FIRST_PAGE)?;
    put_padded(&mut file, &jump_table.bytes)?;
    put_padded(&mut file, &code.bytes)?;
    put_padded(&mut file, &objects.bytes)?;
    file.extend_from_slice(&runtime.bytes)?;
    Ok(file)
}

/// The bytes of each segment begin at a multiple of this offset (ELF-64, `p_align`).
const PAGE_SIZE: u64 = 4096;

/// `PF_X`.
const EXECUTE: u32 = 1;

/// `PF_R` and `PF_W`.
const READ_WRITE: u32 = 6;

/// What the file header, of 64 bytes, and four program headers, of 56 each, leave of the first page.
const REST_OF_FIRST_PAGE: usize = 3808;

// The first multiple of a page that is at least the count.
fn whole_pages(count: u64) -> u64
    requires { count ≤ 2 ^ 32 }
    ensures value { result ≡ page_end count }
    ensures at_least { count ≤ result }
    ensures small { result ≤ count + 4095 }
{
    (count + 4095) / PAGE_SIZE * PAGE_SIZE
}

#[tactic(auto, unfolding(crate::specs::Writing::header_bytes))]
fn put_file_header(file: &mut Vec<u8>, entry: u64) -> Result<(), AllocError>
    ensures { OnOk result (file.new.items ≡ file.old.items ++ header_bytes entry) }
{
    file.extend_from_slice(&[
        0x7f, 0x45, 0x4c, 0x46, 2, 1, 1, 0, 0, 0, 0, 0, 0, 0, 0, 0, 2, 0, 243, 0, 1, 0, 0, 0,
    ])?;
    file.extend_from_slice(&entry.to_le_bytes())?;
    file.extend_from_slice(&[64, 0, 0, 0, 0, 0, 0, 0, 0, 0, 0, 0, 0, 0, 0, 0])?;
    file.extend_from_slice(&[0, 0, 0, 0, 64, 0, 56, 0, 4, 0, 0, 0, 0, 0, 0, 0])
}

#[tactic(auto, unfolding(crate::specs::Writing::load_bytes))]
fn put_program_header(
    file: &mut Vec<u8>,
    flags: u32,
    offset: u64,
    part: &NewSegment,
) -> Result<(), AllocError>
    ensures { OnOk result (file.new.items ≡ file.old.items ++ load_bytes flags offset part.now) }
{
    put_u32(file, LOAD)?;
    put_u32(file, flags)?;
    put_u64(file, offset)?;
    put_u64(file, part.address)?;
    put_u64(file, part.address)?;
    put_u64(file, part.bytes.len() as u64)?;
    put_u64(file, part.size)?;
    put_u64(file, PAGE_SIZE)
}

#[tactic(auto, unfolding(crate::specs::Writing::u32_bytes))]
fn put_u32(file: &mut Vec<u8>, value: u32) -> Result<(), AllocError>
    ensures { OnOk result (file.new.items ≡ file.old.items ++ u32_bytes value) }
{
    file.extend_from_slice(&value.to_le_bytes())
}

#[tactic(auto, unfolding(crate::specs::Writing::u64_bytes))]
fn put_u64(file: &mut Vec<u8>, value: u64) -> Result<(), AllocError>
    ensures { OnOk result (file.new.items ≡ file.old.items ++ u64_bytes value) }
{
    file.extend_from_slice(&value.to_le_bytes())
}

#[tactic(auto, unfolding(crate::specs::Writing::zeros))]
fn put_zeros(file: &mut Vec<u8>, count: usize) -> Result<(), AllocError>
    ensures { OnOk result (file.new.items ≡ file.old.items ++ zeros count) }
{
    for _i in 0..count {
        file.push(0)?;
    }
    Ok(())
}

// Appends the bytes, and zeros up to a whole page.
#[tactic(auto, unfolding(crate::specs::Writing::padded))]
fn put_padded(file: &mut Vec<u8>, bytes: &[u8]) -> Result<(), AllocError>
    requires { length bytes.now ≤ 2 ^ 32 }
    ensures { OnOk result (file.new.items ≡ file.old.items ++ padded bytes.now) }
{
    file.extend_from_slice(bytes)?;
    let end = whole_pages(bytes.len() as u64) as usize;
    put_zeros(file, end - bytes.len())
}
