//! A program that copies a byte from the input to both outputs, and exits with it.

ghost use Rattle.std.specs.Prelude.{◌≡◌, length, IfOk};
ghost use Rattle.elf_image.specs.Writing.{SegmentsFit};

use crate::number::number;
use crate::sample::machine_of;
use anyhow::{Context, Result, ensure};
use elf_image::{NewImage, NewSegment};
use rv_sim::Machine;
use sb_outside::{MemSink, MemSource};
use std::alloc::{AllocError, Global};

const CODE: [u8; 52] = [
    0xb7, 0x05, 0x00, 0x10, // lui a1, 0x10000
    0x13, 0x05, 0x00, 0x00, // addi a0, x0, 0
    0x13, 0x06, 0x10, 0x00, // addi a2, x0, 1
    0x93, 0x08, 0xf0, 0x03, // addi a7, x0, 63
    0x73, 0x00, 0x00, 0x00, // ecall
    0x13, 0x05, 0x10, 0x00, // addi a0, x0, 1
    0x93, 0x08, 0x00, 0x04, // addi a7, x0, 64
    0x73, 0x00, 0x00, 0x00, // ecall
    0x13, 0x05, 0x20, 0x00, // addi a0, x0, 2
    0x73, 0x00, 0x00, 0x00, // ecall
    0x03, 0xc5, 0x05, 0x00, // lbu a0, 0(a1)
    0x93, 0x08, 0xd0, 0x05, // addi a7, x0, 93
    0x73, 0x00, 0x00, 0x00, // ecall
];

fn code(alloc: Global) -> Result<Vec<u8>, AllocError>
    ensures { IfOk result (λ bytes. length bytes.items ≡ 52) }
{
    Vec::from_slice(alloc, &CODE)
}

fn program(alloc: Global) -> Result<NewImage, AllocError>
    ensures { IfOk result SegmentsFit }
{
    Ok(NewImage {
        entry: 0x10_0000,
        jump_table: NewSegment {
            address: 0x1_0000,
            bytes: Vec::new(alloc),
            size: 4,
        },
        code: NewSegment {
            address: 0x10_0000,
            bytes: code(alloc)?,
            size: 52,
        },
        objects: NewSegment {
            address: 0x1000_0000,
            bytes: Vec::new(alloc),
            size: 16,
        },
        runtime: NewSegment {
            address: 0x4000_0000,
            bytes: Vec::new(alloc),
            size: 16,
        },
    })
}

// What is outside of the machine.
#[derive(Drop)]
struct Outside {
    input: MemSource,
    output: MemSink,
    errors: MemSink,
}

impl Outside {
    // An input of these bytes, two digits a byte, and the call that fails.
    fn new(alloc: Global, digits: &str, failing: &str) -> Result<Outside> {
        let input = source(alloc, digits, failing)?;
        let output = sink(alloc, failing)?;
        let errors = sink(alloc, "none")?;
        Ok(Outside {
            input,
            output,
            errors,
        })
    }

    // Runs the machine for at most so many instructions, and prints how that ends and what stands in both outputs.
    fn put_run(&mut self, rt: &HostRuntime, machine: &mut Machine, limit: u64) -> Result<()> {
        let stop = machine.run(&mut self.input, &mut self.output, &mut self.errors, limit);
        let (output, errors) = (self.output.bytes(), self.errors.bytes());
        println!(rt; "{stop:?} {output:?} {errors:?}")?;
        Ok(())
    }

    fn put_runs(&mut self, rt: &HostRuntime, mut machine: Machine, limits: [u64; 2]) -> Result<()> {
        for limit in limits {
            self.put_run(rt, &mut machine, limit)?;
        }
        Ok(())
    }
}

// A source of these bytes, whose first take fails where `take` does.
fn source(alloc: Global, digits: &str, failing: &str) -> Result<MemSource> {
    let bytes = hex::decode(alloc, digits)?;
    let takes: &[u64] = if failing == "take" { &[0] } else { &[] };
    Ok(MemSource::new(alloc, &bytes, takes)?)
}

// A sink with room for 16 bytes, whose first put fails where `put` does.
fn sink(alloc: Global, failing: &str) -> Result<MemSink, AllocError> {
    let puts: &[(u64, u64)] = if failing == "put" { &[(0, 0)] } else { &[] };
    MemSink::new(alloc, 16, puts)
}

fn outside_of(alloc: Global, input: Option<&str>, failing: Option<&str>) -> Result<Outside> {
    let input = input.context("an input")?;
    let failing = failing.context("a call")?;
    ensure!(matches!(failing, "take" | "put" | "none"), "no call");
    Outside::new(alloc, input, failing)
}

fn machine(alloc: Global) -> Result<Machine> {
    machine_of(alloc, &program(alloc)?)
}

/// `copy BYTES CALL LIMITS`: runs the program on this input, two digits a byte, where this call fails, `take` or `put`,
/// the first of its kind, or `none`, for at most so many instructions and then once more, and prints for each run how
/// it ends and what was written.
pub fn put(rt: &HostRuntime, row: &str) -> Result<()> {
    let mut words = row.split(' ').skip(1);
    let (input, failing) = (words.next(), words.next());
    let limits = [number(words.next())?, number(words.next())?];
    let mut outside = outside_of(rt.alloc(), input, failing)?;
    match machine(rt.alloc()) {
        Ok(machine) => outside.put_runs(rt, machine, limits),
        Err(error) => Err(error),
    }
}
