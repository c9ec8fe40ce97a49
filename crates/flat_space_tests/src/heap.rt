//! The heap's table.

use crate::interpreter::{Machine, default_map};
use addr_map::Region;
use anyhow::Result;
use flat_code::FlatInstruction;

// Prints how many bytes behind the first of the heap a block of this size is placed with this key, and the size that is
// found of it; each is none where there is no place.
fn put_placed(
    rt: &HostRuntime,
    machine: &mut Machine,
    place: &[FlatInstruction],
    find: &[FlatInstruction],
    heap: u64,
) -> Result<()> {
    machine.pass(place)?;
    let offset = machine.value(2).checked_sub(heap);
    machine.pass(find)?;
    let size = match machine.value(4) {
        0 => None,
        _ => Some(machine.value(3)),
    };
    println!(rt; "{offset:?} {size:?}")?;
    Ok(())
}

// The numbers of `SIZE:KEY`, or the offset of `-OFFSET`.
fn numbers(action: &str) -> Result<(u64, Option<u64>)> {
    match action.split_once(":") {
        Some((size, key)) => Ok((size.parse()?, Some(key.parse()?))),
        None => {
            let (_, offset) = action.split_once("-").unwrap_or(("", action));
            Ok((offset.parse()?, None))
        }
    }
}

/// `ACTIONS`: prints what comes of each, with a space between each two: `SIZE:KEY` places a block, and `-OFFSET`
/// removes the one that stands so many bytes behind the first of the heap.
pub fn put(rt: &HostRuntime, actions: &str) -> Result<()> {
    let map = default_map()?;
    addr_map::laws::sizes_are_in_range(&map);
    let place = heap_space::place(rt.alloc(), &map, 0, 1, 2, 10)?;
    let find = heap_space::find(rt.alloc(), &map, 2, 1, 3, 4, 10)?;
    let release = heap_space::release(rt.alloc(), &map, 2, 10)?;
    let (heap, _) = map.region(Region::Heap);
    let mut machine = Machine::new(rt.alloc());
    for action in actions.split(' ') {
        match numbers(action)? {
            (size, Some(key)) => {
                machine.set(0, size);
                machine.set(1, key);
                put_placed(rt, &mut machine, place.as_slice(), find.as_slice(), heap)?;
            }
            (offset, None) => {
                machine.set(2, heap.wrapping_add(offset));
                machine.pass(release.as_slice())?;
                println!(rt; "removed")?;
            }
        }
    }
    Ok(())
}
