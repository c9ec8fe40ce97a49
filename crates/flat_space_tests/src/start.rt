//! The bytes with which a shadow space begins.

use crate::entries::{READ, put_read};
use crate::interpreter::{Machine, default_map};
use addr_map::{AddrMap, Region};
use anyhow::{Result, bail};
use shadow_space::{ShadowForm, StartEntry};
use std::alloc::{AllocError, Global};

// Two words of static objects with pointers, on pages of their own.
const ENTRIES: [StartEntry; 2] = [
    StartEntry {
        at: 0x1000_0010,
        base: 0x1000_0020,
        bound: 0x1000_0030,
        key: 1,
        lock: 0x5000_0000,
    },
    StartEntry {
        at: 0x1000_1ff8,
        base: 0x1000_1000,
        bound: 0x1000_2000,
        key: 1,
        lock: 0x5000_0000,
    },
];

// Both words, and those beside them.
const WORDS: [u64; 5] = [
    0x1000_0008,
    0x1000_0010,
    0x1000_0018,
    0x1000_1ff0,
    0x1000_1ff8,
];

// A machine whose shadow space begins with these bytes.
fn machine_with(alloc: Global, map: &AddrMap, bytes: &[u8]) -> Result<Machine, AllocError> {
    let mut machine = Machine::new(alloc);
    let (shadow, _) = map.region(Region::Shadow);
    let mut word = 0u64;
    for (offset, byte) in bytes.iter().enumerate() {
        word = (word >> 8) | ((*byte as u64) << 56);
        if offset % 8 == 7 && word != 0 {
            machine.store(shadow.wrapping_add(offset as u64 - 7), word)?;
        }
    }
    Ok(machine)
}

fn start_of<S: ShadowForm>(alloc: Global, map: &AddrMap) -> Result<Vec<u8>> {
    addr_map::laws::sizes_are_in_range(map);
    if map.global_bytes() != 8192 {
        bail!("other static objects");
    }
    Ok(S::start(alloc, map, &ENTRIES)?)
}

/// Prints the entries with which a form begins.
pub fn put<S: ShadowForm>(rt: &HostRuntime) -> Result<()> {
    let map = default_map()?;
    addr_map::laws::sizes_are_in_range(&map);
    let bytes = start_of::<S>(rt.alloc(), &map)?;
    let read = S::read_entry(rt.alloc(), &map, 0, READ, 16)?;
    let mut machine = machine_with(rt.alloc(), &map, bytes.as_slice())?;
    put_read(rt, &mut machine, read.as_slice(), &WORDS)
}
