//! The judgement of an access.

use crate::interpreter::{Machine, default_map};
use addr_map::Region;
use anyhow::{Context, Result};
use flat_code::{Entry, Held};
use sb_base::Line;

const POINTER: Held = Held {
    value: 0,
    tag: Entry {
        base: 1,
        bound: 2,
        key: 3,
        lock: 4,
    },
};

fn number(word: Option<&str>) -> Result<u64> {
    Ok(word.context("a number")?.parse()?)
}

/// `ADDRESS SIZE WORD`: prints how the judgement ends of an access of so many bytes at this address to an object from
/// 1024 to 1040 with key 5, whose lock word holds this word.
pub fn put(rt: &HostRuntime, given: &str) -> Result<()> {
    let mut words = given.split(' ');
    let address = number(words.next())?;
    let size = number(words.next())?;
    let word = number(words.next())?;
    let code = flat_actions::judge(rt.alloc(), POINTER, 5, Line::first(), 10)?;
    let (lock, _) = default_map()?.region(Region::Locks);
    let mut machine = Machine::new(rt.alloc());
    machine.store(lock, word)?;
    for (register, value) in [address, 1024, 1040, 5, lock, size].iter().enumerate() {
        machine.set(register as u32, *value);
    }
    let left = machine.run(code.as_slice())?;
    println!(rt; "{left:?}")?;
    Ok(())
}
