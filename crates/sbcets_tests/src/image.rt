//! Images by hand.
ghost use Rattle.std.specs.Prelude.{◌≡◌, ◌≤◌, length, IfOk};
ghost use Rattle.elf_image.specs.Writing.{SegmentsFit};

use anyhow::Result;
use elf_image::{Image, NewImage, NewSegment};
use std::alloc::{AllocError, Global};

/// The image whose run begins with these instructions, each a word of eight hexadecimal digits. The first eight count.
pub fn image_of(alloc: Global, words: &str) -> Result<Vec<u8>> {
    let mut code = Vec::new(alloc);
    for word in words.split_whitespace() {
        code.extend_from_slice(&u32::from_str_radix(word, 16)?.to_le_bytes())?;
    }
    code.truncate(32);
    Ok(Image::write(alloc, &parts(alloc, code)?)?)
}

// Segments with this jump table, where the run begins. It has 32 bytes; those behind the given ones are zero. The
// objects have a page.
fn parts(alloc: Global, jump_table: Vec<u8>) -> Result<NewImage, AllocError>
    requires { length jump_table.items ≤ 32 }
    ensures { IfOk result SegmentsFit }
{
    Ok(NewImage {
        entry: 0x1_0000,
        jump_table: part(0x1_0000, jump_table, 32),
        code: part(0x10_0000, Vec::new(alloc), 4),
        objects: part(0x1000_0000, Vec::new(alloc), 0x1000),
        runtime: part(0x4000_0000, Vec::new(alloc), 16),
    })
}

fn part(address: u64, bytes: Vec<u8>, size: u64) -> NewSegment
    ensures { result ≡ record { address = address; bytes = bytes.items; size = size } }
{
    NewSegment {
        address,
        bytes,
        size,
    }
}
