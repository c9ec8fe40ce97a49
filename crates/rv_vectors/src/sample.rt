//! The image in which operations and tests run, and a run of it.

ghost use Rattle.std.specs.Prelude.{◌≤◌, length, IfOk};
ghost use Rattle.elf_image.specs.Writing.{SegmentsFit};

use anyhow::{Result, bail};
use elf_image::{Image, NewImage, NewSegment};
use rv_sim::{Machine, Stop};
use sb_outside::{MemSink, MemSource};
use std::alloc::{AllocError, Global};

/// Rows at 0x10000, of 32 bytes, and code at 0x100000, of one ECALL, which may be executed alone; objects at
/// 0x10000000, of 0x2000 bytes, and runtime at 0x40000000, of 0x1000 bytes, which may be read and written. The run
/// begins at the jump table. In the file the program headers stand at 64, 120, 176 and 232.
pub fn parts(alloc: Global, jump_table: Vec<u8>, objects: Vec<u8>) -> Result<NewImage, AllocError>
    requires jump_table { length jump_table.items ≤ 32 }
    requires objects { length objects.items ≤ 32 }
    ensures { IfOk result SegmentsFit }
{
    Ok(NewImage {
        entry: 0x10000,
        jump_table: NewSegment {
            address: 0x10000,
            bytes: jump_table,
            size: 32,
        },
        code: NewSegment {
            address: 0x10_0000,
            bytes: vec![in alloc; 0x73, 0, 0, 0]?,
            size: 4,
        },
        objects: NewSegment {
            address: 0x1000_0000,
            bytes: objects,
            size: 0x2000,
        },
        runtime: NewSegment {
            address: 0x4000_0000,
            bytes: vec![in alloc; 9]?,
            size: 0x1000,
        },
    })
}

/// The machine that the image of these parts begins.
pub fn machine_of(alloc: Global, parts: &NewImage) -> Result<Machine>
    requires { SegmentsFit parts.now }
{
    let file = Image::write(alloc, parts)?;
    loaded(alloc, &file)
}

fn loaded(alloc: Global, file: &[u8]) -> Result<Machine> {
    match Image::read(alloc, file) {
        Ok(image) => started(alloc, &image),
        Err(error) => bail!("no image: {error:?}"),
    }
}

fn started(alloc: Global, image: &Image) -> Result<Machine> {
    Ok(Machine::load(alloc, image)?)
}

/// Runs a machine with no input for at most so many instructions.
pub fn run(alloc: Global, machine: &mut Machine, limit: u64) -> Result<Stop, AllocError> {
    let mut input = MemSource::new(alloc, &[], &[])?;
    let mut output = MemSink::new(alloc, 100, &[])?;
    let mut errors = MemSink::new(alloc, 100, &[])?;
    Ok(machine.run(&mut input, &mut output, &mut errors, limit))
}
