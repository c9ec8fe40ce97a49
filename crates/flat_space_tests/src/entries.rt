//! Entries that are written, read and cleared.

use crate::interpreter::{Machine, default_map};
use anyhow::Result;
use flat_code::{Entry, FlatInstruction};
use shadow_space::ShadowForm;

// Two words of one page, and words of other pages; the last is the last of its page.
const WORDS: [u64; 5] = [
    0x1000_0000,
    0x1000_0008,
    0x1000_1000,
    0x1010_2340,
    0x1010_2ff8,
];

const WRITTEN: Entry = Entry {
    base: 1,
    bound: 2,
    key: 3,
    lock: 4,
};

/// Where an entry is read.
pub const READ: Entry = Entry {
    base: 5,
    bound: 6,
    key: 7,
    lock: 8,
};

/// Prints the entry of each of these words: base, bound, key and lock.
pub fn put_read(
    rt: &HostRuntime,
    machine: &mut Machine,
    read: &[FlatInstruction],
    words: &[u64],
) -> Result<()> {
    for word in words {
        machine.set(0, *word);
        machine.pass(read)?;
        let entry = [
            machine.value(5),
            machine.value(6),
            machine.value(7),
            machine.value(8),
        ];
        println!(rt; "{entry:?}")?;
    }
    Ok(())
}

// Writes the entry of each word: the word and the numbers behind it.
fn write_all(machine: &mut Machine, write: &[FlatInstruction]) -> Result<()> {
    for word in WORDS.iter() {
        machine.set(0, *word);
        for part in 0..4u32 {
            machine.set(part + 1, word.wrapping_add(part as u64));
        }
        machine.pass(write)?;
    }
    Ok(())
}

/// Prints the entries of all words of a form before any was written, once they were written, and once those of 4096
/// bytes from 0x10000008 on were cleared.
pub fn put<S: ShadowForm>(rt: &HostRuntime) -> Result<()> {
    let map = default_map()?;
    addr_map::laws::sizes_are_in_range(&map);
    let write = S::write_entry(rt.alloc(), &map, 0, WRITTEN, 16)?;
    let read = S::read_entry(rt.alloc(), &map, 0, READ, 16)?;
    let clear = S::clear(rt.alloc(), &map, 0, 1, 16)?;
    let mut machine = Machine::new(rt.alloc());
    put_read(rt, &mut machine, read.as_slice(), &WORDS)?;
    write_all(&mut machine, write.as_slice())?;
    put_read(rt, &mut machine, read.as_slice(), &WORDS)?;
    machine.set(0, 0x1000_0008);
    machine.set(1, 0x1000);
    machine.pass(clear.as_slice())?;
    put_read(rt, &mut machine, read.as_slice(), &WORDS)
}
