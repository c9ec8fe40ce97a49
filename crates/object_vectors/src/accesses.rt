//! Objects, and the judgement of accesses.

use crate::row::{found, number};
use anyhow::Result;
use obj_memory::{Bounds, Object, Storage, Tag, Value, Verdict, judge, named};
use std::alloc::{AllocError, Global};

const BOUNDS: Bounds = Bounds {
    base: 0x1000,
    bound: 0x1010,
};

const POINTER: Value = Value {
    word: 0x1000,
    tag: Tag::OfObject(0, BOUNDS),
};

// An object of 16 bytes at 0x1000.
fn only_object(alloc: Global) -> Result<Object, AllocError> {
    Object::new(alloc, Storage::Automatic, 0x1000, 16)
}

// A pointer into the object, to its member of 4 bytes at offset 8, or to one byte behind the first of that.
fn pointer(word: Option<&str>) -> Result<Value> {
    let member = POINTER.narrowed(8, 4);
    let table = [
        ("whole", POINTER),
        ("member", member),
        ("moved", member.moved(1)),
    ];
    found(&table, word)
}

fn put(rt: &HostRuntime, verdict: Verdict) -> Result<()> {
    let (name, object, offset) = match verdict {
        Verdict::Inside(place) => ("inside", place.object, place.offset),
        Verdict::Outside => ("outside", 0, 0),
        Verdict::Dead => ("dead", 0, 0),
    };
    println!(rt; "{name} {object} {offset}")?;
    Ok(())
}

/// `SIZE POINTER LIFE`: prints the verdict on an access of so many bytes, where the object is live or `dead`, the
/// number of the object and the offset.
pub fn put_judged(rt: &HostRuntime, given: &str) -> Result<()> {
    let mut words = given.split(' ');
    let size = number(words.next())?;
    let pointer = pointer(words.next())?;
    let is_dead = words.next() == Some("dead");
    let mut objects = [only_object(rt.alloc())?];
    if is_dead {
        objects[0].kill();
    }
    put(rt, judge(size, pointer, &objects))
}

/// `POINTER`: prints the verdict on the object that a pointer names.
pub fn put_named(rt: &HostRuntime, given: &str) -> Result<()> {
    let pointer = pointer(Some(given))?;
    put(rt, named(pointer, &[only_object(rt.alloc())?]))
}

/// `ADDRESS SIZE`: prints of a new automatic object whether it is so and is live, its address and its size, and how
/// many bytes and tags it has.
pub fn put_object(rt: &HostRuntime, given: &str) -> Result<()> {
    let mut words = given.split(' ');
    let address = number(words.next())?;
    let size = number(words.next())?;
    let object = Object::new(rt.alloc(), Storage::Automatic, address, size)?;
    let is_new = object.is_live() && object.storage() == Storage::Automatic;
    let counts = [object.bytes().len(), object.tags().len()];
    println!(rt;
        "{is_new} {:x} {:x} {counts:?}",
        object.address(),
        object.size()
    )?;
    Ok(())
}
