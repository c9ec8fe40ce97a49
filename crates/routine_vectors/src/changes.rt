//! What changed in memory, as text.

use crate::machine::{Left, Machine};
use crate::memory::{Memory, OBJECTS, SPACES};
use crate::objects::{Metadata, NONE, Objects};
use crate::shown::metadata_given;
use addr_map::{AddrMap, Region};
use flat_code::FlatInstruction;
use std::alloc::AllocError;

/// Writes the bytes of object space that changed, each run of them behind its address.
pub fn write_bytes(text: &mut String, before: &[u8], after: &[u8]) -> Result<(), AllocError> {
    let mut next = usize::MAX;
    for (offset, (old, new)) in before.iter().zip(after.iter()).enumerate() {
        if old != new {
            if offset != next {
                write!(text, " {:x}:", OBJECTS.wrapping_add(offset as u64))?;
            }
            write!(text, "{new:02x}")?;
            next = offset.wrapping_add(1);
        }
    }
    Ok(())
}

// The entry of a word, as the code of a form reads it.
fn entry_at(
    machine: &mut Machine,
    read: &[FlatInstruction],
    address: u64,
) -> Result<Option<Metadata>, AllocError> {
    machine.set(0, address);
    let left = machine.run(read)?;
    Ok(if left == Left::Past {
        Some(metadata_given(&machine.values))
    } else {
        None
    })
}

// Writes the entry of a word where it is not as it was.
fn write_entry(
    text: &mut String,
    objects: &Objects,
    address: u64,
    before: Option<Metadata>,
    after: Option<Metadata>,
    memory: &Memory,
) -> Result<(), AllocError> {
    let Some(metadata) = after else {
        return write!(text, " @{address:x}=lost");
    };
    if before == Some(metadata) {
        return Ok(());
    }
    write!(text, " @{address:x}=")?;
    objects.write(text, memory, &metadata)
}

/// Writes the tags of words of live objects that changed.
pub fn write_tags(
    text: &mut String,
    objects: &Objects,
    before: &mut Machine,
    after: &mut Machine,
    read: &[FlatInstruction],
) -> Result<(), AllocError> {
    for object in objects.items.iter() {
        let words = if object.is_live(&after.memory) {
            object.size / 8
        } else {
            0
        };
        for word in 0..words {
            let address = object.first.wrapping_add(word.wrapping_mul(8));
            let old = entry_at(before, read, address)?;
            let new = entry_at(after, read, address)?;
            write_entry(text, objects, address, old, new, &after.memory)?;
        }
    }
    Ok(())
}

/// Writes the tags of a range of words that are not none.
pub fn write_born(
    text: &mut String,
    objects: &Objects,
    after: &mut Machine,
    read: &[FlatInstruction],
    born: (u64, u64),
) -> Result<(), AllocError> {
    let (first, end) = born;
    for word in 0..end.saturating_sub(first) / 8 {
        let address = first.wrapping_add(word.wrapping_mul(8));
        let new = entry_at(after, read, address)?;
        write_entry(text, objects, address, Some(NONE), new, &after.memory)?;
    }
    Ok(())
}

/// Writes which objects were born or died.
pub fn write_lives(
    text: &mut String,
    objects: &Objects,
    before: &Memory,
    after: &Memory,
) -> Result<(), AllocError> {
    for (number, object) in objects.items.iter().enumerate() {
        let (was_live, is_live) = (object.is_live(before), object.is_live(after));
        if was_live && !is_live {
            write!(text, " {number:x} dies")?;
        }
        if is_live && !was_live {
            write!(text, " {number:x} lives")?;
        }
    }
    Ok(())
}

/// Writes what changed in the spaces of the runtime: how many keys were made, the live blocks, how many lock words are
/// held, and whether a byte behind them and outside of an area is another one.
pub fn write_spaces(
    text: &mut String,
    map: &AddrMap,
    before: &Memory,
    after: &Memory,
    area: Option<(u64, u64)>,
) -> Result<(), AllocError> {
    let (counter, _) = map.region(Region::FreeLocks);
    if before.word(counter) != after.word(counter) {
        write!(text, " keys {:x}", after.word(counter))?;
    }
    write_blocks(text, map, before, after)?;
    write_locks(text, map, before, after)?;
    let (behind, _) = map.region(Region::StructureValues);
    if !are_same_behind(behind, before, after, area) {
        text.push_str(" behind")?;
    }
    Ok(())
}

// Whether the bytes from an address on are the same outside of an area.
fn are_same_behind(start: u64, before: &Memory, after: &Memory, area: Option<(u64, u64)>) -> bool {
    let (first, end) = area.unwrap_or((start, start));
    let start = start.saturating_sub(SPACES) as usize;
    let first = first.saturating_sub(SPACES) as usize;
    let end = end.saturating_sub(SPACES) as usize;
    before.spaces.get(start..first) == after.spaces.get(start..first)
        && before.spaces.get(end..) == after.spaces.get(end..)
}

// Writes how many lock words hold a key where that is another number.
fn write_locks(
    text: &mut String,
    map: &AddrMap,
    before: &Memory,
    after: &Memory,
) -> Result<(), AllocError> {
    let (first, last) = map.region(Region::Locks);
    let start = first.saturating_sub(SPACES) as usize;
    let end = last.saturating_sub(SPACES) as usize;
    if before.spaces.get(start..end) == after.spaces.get(start..end) {
        return Ok(());
    }
    let (old, new) = (locks_held(map, before), locks_held(map, after));
    if old != new {
        write!(text, " locks {new:x}")?;
    }
    Ok(())
}

// How many lock words hold a key.
fn locks_held(map: &AddrMap, memory: &Memory) -> u64 {
    let (first, last) = map.region(Region::Locks);
    let mut count = 0u64;
    for word in 0..last.saturating_sub(first) / 8 {
        if memory.word(first.wrapping_add(word.wrapping_mul(8))) != 0 {
            count = count.wrapping_add(1);
        }
    }
    count
}

// Whether the table of live blocks has the same rows.
fn are_same_blocks(start: u64, before: &Memory, after: &Memory) -> bool {
    let count = before.word(start);
    if after.word(start) != count {
        return false;
    }
    for row in 0..count {
        let place = start.wrapping_add(8).wrapping_add(row.wrapping_mul(32));
        for word in 0..3u64 {
            let address = place.wrapping_add(word.wrapping_mul(8));
            if before.word(address) != after.word(address) {
                return false;
            }
        }
    }
    true
}

// Writes the live blocks where they are other ones: address, size and key of each.
fn write_blocks(
    text: &mut String,
    map: &AddrMap,
    before: &Memory,
    after: &Memory,
) -> Result<(), AllocError> {
    let (start, _) = map.region(Region::Blocks);
    if are_same_blocks(start, before, after) {
        return Ok(());
    }
    text.push_str(" blocks")?;
    for row in 0..after.word(start) {
        let place = start.wrapping_add(8).wrapping_add(row.wrapping_mul(32));
        write!(
            text,
            ",{:x}+{:x}#{:x}",
            after.word(place),
            after.word(place.wrapping_add(8)),
            after.word(place.wrapping_add(16))
        )?;
    }
    Ok(())
}
