//! How a run was left, what it gave and what it showed, as text.

use crate::code::{RESULT, SCRATCH};
use crate::machine::{Left, Machine, REGISTERS};
use crate::memory::Memory;
use crate::objects::{Metadata, Objects, whole_words};
use crate::routine::Given;
use std::alloc::AllocError;

/// Writes how a run was left: the status and the report of one that is over.
pub fn write_left(text: &mut String, left: Left, report: &[u8]) -> Result<(), AllocError> {
    match left {
        Left::Past => text.push_str("ok"),
        Left::Lost | Left::Returned(_) => text.push_str("lost"),
        Left::Over(status) => {
            write!(text, "{status}")?;
            match str::from_utf8(report) {
                Ok(report) => write!(text, " {}", report.trim_end()),
                Err(_) => text.push_str(" ?"),
            }
        }
    }
}

/// The metadata that was given.
pub fn metadata_given(values: &[u64; REGISTERS]) -> Metadata {
    Metadata {
        base: values[31],
        bound: values[32],
        key: values[33],
        lock: values[34],
    }
}

/// Writes what was given: a word, a pointer, the addresses and the key of a block, contents in an area, or a part of
/// some by its offset, its area and how far behind that the entries are. Areas are by where they are behind `areas`.
pub fn write_given(
    text: &mut String,
    objects: &Objects,
    given: Given,
    machine: &Machine,
    areas: u64,
) -> Result<(), AllocError> {
    let word = machine.value(RESULT.value);
    match given {
        Given::Nothing => Ok(()),
        Given::Word => write!(text, " {word:x}"),
        Given::Pointer | Given::Birth => {
            write!(text, " {word:x}/")?;
            objects.write(text, &machine.memory, &metadata_given(&machine.values))
        }
        Given::Block => {
            let Metadata {
                base: end,
                key,
                lock,
                ..
            } = metadata_given(&machine.values);
            write!(text, " {word:x}..{end:x}/")?;
            let metadata = Metadata {
                base: word,
                bound: end,
                key,
                lock,
            };
            objects.write(text, &machine.memory, &metadata)
        }
        Given::Contents(bytes) => {
            let (at, size) = (machine.value(0), machine.value(bytes));
            write_contents(text, objects, &machine.memory, at, size)
        }
        Given::Part => {
            let Metadata {
                base,
                bound,
                lock,
                ..
            } = metadata_given(&machine.values);
            let (offset, area) = (word.wrapping_sub(base), base.wrapping_sub(areas));
            let entries = bound.wrapping_sub(base);
            write!(text, " part{offset:x}/{area:x}/{entries:x}/{lock:x}")
        }
    }
}

// Writes contents: their bytes, and the entry of each whole word.
fn write_contents(
    text: &mut String,
    objects: &Objects,
    memory: &Memory,
    at: u64,
    size: u64,
) -> Result<(), AllocError> {
    text.push_str(" ")?;
    for offset in 0..size {
        let byte = memory.load(at.wrapping_add(offset), 1).unwrap_or(0);
        write!(text, "{byte:02x}")?;
    }
    let entries = at.wrapping_add(whole_words(size));
    for word in 0..size / 8 {
        let place = entries.wrapping_add(word.wrapping_mul(32));
        let metadata = Metadata {
            base: memory.word(place),
            bound: memory.word(place.wrapping_add(8)),
            key: memory.word(place.wrapping_add(16)),
            lock: memory.word(place.wrapping_add(24)),
        };
        text.push_str(" ")?;
        objects.write(text, memory, &metadata)?;
    }
    Ok(())
}

fn is_given(given: Given, register: u32) -> bool {
    match given {
        Given::Nothing | Given::Contents(_) => false,
        Given::Word => register == RESULT.value,
        Given::Pointer | Given::Birth | Given::Part => {
            RESULT.value <= register && register <= RESULT.tag.lock
        }
        Given::Block => {
            RESULT.value <= register && register <= RESULT.tag.lock && register != RESULT.tag.bound
        }
    }
}

/// Writes the registers that are not a routine's to write and changed.
pub fn write_registers(
    text: &mut String,
    given: Given,
    before: &[u64; REGISTERS],
    after: &[u64; REGISTERS],
) -> Result<(), AllocError> {
    for register in 0..SCRATCH {
        let place = register as usize;
        if before.get(place) != after.get(place) && !is_given(given, register) {
            write!(text, " register{register}")?;
        }
    }
    Ok(())
}

/// Writes bytes in hexadecimal digits.
pub fn write_hexadecimal(text: &mut String, bytes: &[u8]) -> Result<(), AllocError> {
    for byte in bytes {
        write!(text, "{byte:02x}")?;
    }
    Ok(())
}

/// Writes the output, and the accesses of object space where they are a program's.
pub fn write_shown(
    text: &mut String,
    is_of_program: bool,
    machine: &Machine,
) -> Result<(), AllocError> {
    if !machine.output.is_empty() {
        text.push_str(" puts ")?;
        write_hexadecimal(text, &machine.output)?;
    }
    if is_of_program {
        for access in machine.accesses.iter() {
            let kind = if access.is_write { "writes" } else { "reads" };
            write!(text, " {kind} {:x}+{}", access.address, access.size)?;
        }
    }
    Ok(())
}

/// Writes whether the steps are as few as promised.
pub fn write_steps(text: &mut String, steps: u64, limit: u64) -> Result<(), AllocError> {
    if steps <= limit {
        text.push_str(" within")
    } else {
        write!(text, " {} steps over", steps.wrapping_sub(limit))
    }
}
