//! Keys and lock words.

use crate::interpreter::{Machine, default_map};
use addr_map::Region;
use anyhow::Result;
use flat_code::FlatInstruction;

// The routines on lock words: the key that is made next, a fresh key and lock word, and one that is released.
#[derive(Clone, Copy)]
struct Routines<'a> {
    next: &'a [FlatInstruction],
    fresh: &'a [FlatInstruction],
    release: &'a [FlatInstruction],
}

// Whether an object that is born and dies gets this key, which was told before, and a lock word that holds the key
// while it lives and 0 behind that, and is neither the global one nor that which is held.
fn is_sound_birth(
    machine: &mut Machine,
    routines: &Routines,
    key: u64,
    global: u64,
    held: u64,
) -> Result<bool> {
    machine.pass(routines.next)?;
    let told = machine.value(0);
    machine.pass(routines.fresh)?;
    let lock = machine.value(1);
    let is_fresh = told == key && machine.value(0) == key && lock != held && lock != global;
    let is_locked = machine.load(lock) == key;
    machine.pass(routines.release)?;
    Ok(is_fresh && is_locked && machine.load(lock) == 0 && machine.load(held) == 2)
}

// How many objects are born and die soundly, up to so many.
fn sound_births(
    machine: &mut Machine,
    routines: &Routines,
    count: u64,
    global: u64,
    held: u64,
) -> Result<u64> {
    for birth in 0..count {
        if !is_sound_birth(machine, routines, birth.wrapping_add(3), global, held)? {
            return Ok(birth);
        }
    }
    Ok(count)
}

/// `COUNT`: prints the key of the first object, which keeps its lock word, and whether that is another than the global
/// one and holds the key; and then how many others are born and die with the next keys, and soundly.
pub fn put(rt: &HostRuntime, count: &str) -> Result<()> {
    let map = default_map()?;
    addr_map::laws::sizes_are_in_range(&map);
    let next = lock_space::next(rt.alloc(), &map, 0, 10)?;
    let fresh = lock_space::fresh(rt.alloc(), &map, 0, 1, 10)?;
    let first = lock_space::fresh(rt.alloc(), &map, 2, 3, 10)?;
    let release = lock_space::release(rt.alloc(), &map, 1, 10)?;
    let mut machine = Machine::new(rt.alloc());
    let (global, _) = map.region(Region::Locks);
    machine.store(global, 1)?;
    machine.pass(first.as_slice())?;
    let (key, held) = (machine.value(2), machine.value(3));
    let holds = held != global && machine.load(held) == key;
    let routines = Routines {
        next: next.as_slice(),
        fresh: fresh.as_slice(),
        release: release.as_slice(),
    };
    let births = sound_births(&mut machine, &routines, count.parse()?, global, held)?;
    println!(rt; "{key} {holds} {births}")?;
    Ok(())
}
