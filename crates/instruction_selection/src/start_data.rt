//! The data with which an image begins: the bytes of the static objects, and the entries of the pointers that they
//! hold.

ghost use Rattle.std.specs.Prelude.{◌≡◌, ℕ, ◌+◌, ◌*◌, ◌<◌, ◌≤◌, ◌^◌, ◌++◌, ◌∷◌, [], OnOk, IfOk, length, replicate};
ghost use Rattle.addr_map.specs.Places.{objects_begin};
ghost use Rattle.metadata_relation.specs.StartData.{bytes_of_statics, entries_of_statics, entries_of_tags};
ghost use Rattle.metadata_relation.specs.StartData.{entry_of_tag, statics_end};
ghost use Rattle.instruction_selection.specs.StartData.{HasWords, HaveWords, NameFunctions, type_in};

use crate::list::put;
use addr_map::function_address;
use obj_memory::Tag;
use shadow_space::StartEntry;
use static_data::pointers::rounded;
use std::alloc::{AllocError, Global};
use tac_ir::StaticData;

// The first address of object space.
const OBJECTS: u64 = 0x1000_0000;

// Puts so many zeros behind a list.
fn put_zeros(bytes: &mut Vec<u8>, count: u64) -> Result<(), AllocError>
    ensures { OnOk result (bytes.new.items ≡ bytes.old.items ++ replicate count 0) }
{
    for _ in 0..count {
        bytes.push(0)?;
    }
    Ok(())
}

/// The bytes of static objects, each at a multiple of 16, with zeros between them. It fails only for want of memory.
pub fn static_bytes(alloc: Global, statics: &[StaticData]) -> Result<Vec<u8>, AllocError>
    requires { statics_end statics.now 0 ≤ 0x400000 }
    ensures { IfOk result (λ bytes. bytes.items ≡ bytes_of_statics statics.now 0) }
{
    let mut bytes = Vec::new(alloc);
    let mut offset = 0;
    for i in 0..statics.len() {
        let start = rounded(offset);
        put_zeros(&mut bytes, start - offset)?;
        bytes.extend_from_slice(statics[i].bytes.as_slice())?;
        offset = start + statics[i].size;
    }
    Ok(bytes)
}

// What the key of a pointer to a function tells of its type.
#[tactic(auto, unfolding(crate::specs::StartData::type_in))]
fn type_of(types: &[u64], function: usize) -> u64
    ensures { result ≡ type_in types.now function }
{
    match types.get(function) {
        Some(type_number) => *type_number,
        None => 0,
    }
}

// Puts the entry of a word with a tag behind a list, if it has one.
fn put_tag(
    list: &mut Vec<StartEntry>,
    at: u64,
    tag: Tag,
    types: &[u64],
    lock: u64,
) -> Result<(), AllocError>
    requires function { NameFunctions (tag ∷ []) }
    requires types { (f : ℕ) → type_in types.now f < 2 ^ 63 }
    ensures { OnOk result (list.new.items ≡ list.old.items ++ entry_of_tag (type_in types.now) lock at tag) }
{
    match tag {
        Tag::Untagged => Ok(()),
        Tag::OfFunction(function) => {
            let address = function_address(function);
            let entry = StartEntry {
                at,
                base: address,
                bound: address,
                key: 0x8000_0000_0000_0000 + type_of(types, function),
                lock: 0,
            };
            put(list, entry)
        }
        Tag::OfObject(_, bounds) => {
            let entry = StartEntry {
                at,
                base: bounds.base,
                bound: bounds.bound,
                key: 1,
                lock,
            };
            put(list, entry)
        }
    }
}

// Puts the entries of words with these tags, from an address on, behind a list.
fn put_tags(
    list: &mut Vec<StartEntry>,
    first: u64,
    tags: &[Tag],
    types: &[u64],
    lock: u64,
) -> Result<(), AllocError>
    requires low { first + 8 * length tags.now ≤ 2 ^ 62 }
    requires functions { NameFunctions tags.now }
    requires types { (f : ℕ) → type_in types.now f < 2 ^ 63 }
    ensures { OnOk result
        (list.new.items ≡ list.old.items ++ entries_of_tags (type_in types.now) lock first tags.now) }
{
    for i in 0..tags.len() {
        put_tag(list, first + 8 * (i as u64), tags[i], types, lock)?;
    }
    Ok(())
}

// Puts the entries of the pointers that a static object holds behind a list: it begins so many bytes behind the first
// address of object space.
fn put_static(
    list: &mut Vec<StartEntry>,
    start: u64,
    object: &StaticData,
    types: &[u64],
    lock: u64,
) -> Result<(), AllocError>
    requires low { start + object.now.size ≤ 0x400000 }
    requires words { HasWords object.now }
    requires types { (f : ℕ) → type_in types.now f < 2 ^ 63 }
    ensures { OnOk result (list.new.items
        ≡ list.old.items ++ entries_of_tags (type_in types.now) lock (objects_begin + start) object.now.tags) }
{
    put_tags(list, OBJECTS + start, object.tags.as_slice(), types, lock)
}

/// The entries of the pointers that static objects hold, whose tags name functions of these types; the lock word of all
/// static objects stands at an address. It fails only for want of memory.
pub fn static_entries(
    alloc: Global,
    statics: &[StaticData],
    types: &[u64],
    lock: u64,
) -> Result<Vec<StartEntry>, AllocError>
    requires small { statics_end statics.now 0 ≤ 0x400000 }
    requires words { HaveWords statics.now }
    requires types { (f : ℕ) → type_in types.now f < 2 ^ 63 }
    ensures { IfOk result
        (λ list. list.items ≡ entries_of_statics (type_in types.now) lock objects_begin statics.now 0) }
{
    let mut list = Vec::new(alloc);
    let mut offset = 0;
    for i in 0..statics.len() {
        let start = rounded(offset);
        put_static(&mut list, start, &statics[i], types, lock)?;
        offset = start + statics[i].size;
    }
    Ok(list)
}
