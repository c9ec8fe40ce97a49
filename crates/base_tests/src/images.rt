//! A file that is written and read back.

ghost use Rattle.std.specs.Prelude.{IfOk};
ghost use Rattle.elf_image.specs.Writing.{SegmentsFit};

use anyhow::{Result, bail};
use elf_image::{Image, NewImage, NewSegment, Segment};
use std::alloc::{AllocError, Global};

fn sample(alloc: Global) -> Result<NewImage, AllocError>
    ensures { IfOk result SegmentsFit }
{
    Ok(NewImage {
        entry: 0x10010,
        jump_table: NewSegment {
            address: 0x10000,
            bytes: vec![in alloc; 0x6f, 0, 0, 0]?,
            size: 0x20,
        },
        code: NewSegment {
            address: 0x100000,
            bytes: vec![in alloc; 0x73, 0, 0, 0]?,
            size: 4,
        },
        objects: NewSegment {
            address: 0x1000_0000,
            bytes: vec![in alloc; 1, 2, 3]?,
            size: 0x2000,
        },
        runtime: NewSegment {
            address: 0x4000_0000,
            bytes: Vec::new(alloc),
            size: 0x1000,
        },
    })
}

fn put_segment(rt: &HostRuntime, segment: &Segment) -> Result<()> {
    let read = if segment.is_readable() { "r" } else { "-" };
    let write = if segment.is_writable() { "w" } else { "-" };
    let run = if segment.is_executable() { "x" } else { "-" };
    let (address, size, bytes) = (segment.address(), segment.size(), segment.bytes());
    println!(rt; "{address:x} {size:x} {read}{write}{run} {bytes:?}")?;
    Ok(())
}

/// Prints the length of the file, the entry and the segments.
pub fn put(rt: &HostRuntime) -> Result<()> {
    let file = Image::write(rt.alloc(), &sample(rt.alloc())?)?;
    let Ok(image) = Image::read(rt.alloc(), &file) else {
        bail!("no image");
    };
    println!(rt; "{} bytes, entry {:x}", file.len(), image.entry())?;
    for segment in image.segments() {
        put_segment(rt, segment)?;
    }
    Ok(())
}
