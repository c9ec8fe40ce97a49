//! The bytes with which the two levels begin.

ghost use Rattle.std.specs.Prelude.{◌≡◌, ◌+◌, ◌*◌, ◌≤◌, ◌^◌, IfOk, length, replicate};
ghost use Rattle.addr_map.specs.Places.{AreMapped, objects_begin};
ghost use Rattle.shadow_space.specs.declared.start.StartEntry.{StartEntry};
ghost use Rattle.shadow_space.specs.Start.{AreStartEntries, StartsShadow};
ghost use Rattle.shadow_space.specs.TwoLevel.Tables.{pages, page_of, entry_offset, two_level_entry, AreTablesGood};
ghost use Rattle.shadow_space.specs.TwoLevel.Start.{start_size, counted_bytes, empty_tables, table_put};

use crate::start::{OBJECTS, SHADOW, StartEntry, put_entry, put_word};
use crate::two_levels::two_level::{first_table, global_pages};
use addr_map::AddrMap;
use std::alloc::{AllocError, Global};

// The bytes of a table.
const TABLE: u64 = 16384;

fn zeros(alloc: Global, size: u64) -> Result<Vec<u8>, AllocError>
    ensures { IfOk result (λ r. r.items ≡ replicate size 0) }
{
    vec![in alloc; 0; size as usize]
}

// The cell of the reserve, and zeros for the first level and the tables of the pages of static objects.
fn counted(alloc: Global, map: &AddrMap) -> Result<Vec<u8>, AllocError>
    ensures value { IfOk result (λ r. r.items ≡ counted_bytes map.now) }
    ensures size { IfOk result (λ r. length r.items ≡ start_size map.now) }
{
    let tables = global_pages(map);
    let size = first_table(map) - SHADOW + TABLE * tables;
    let mut bytes = zeros(alloc, size)?;
    put_word(&mut bytes, 0, TABLE * tables);
    Ok(bytes)
}

// The first level with these tables, all zero.
fn empty(alloc: Global, map: &AddrMap) -> Result<Vec<u8>, AllocError>
    ensures value { IfOk result (λ r. r.items ≡ empty_tables map.now) }
    ensures size { IfOk result (λ r. length r.items ≡ start_size map.now) }
{
    let mut bytes = counted(alloc, map)?;
    let first = first_table(map);
    let tables = global_pages(map);
    for page in 0..tables {
        put_word(&mut bytes, (8 + 8 * page) as usize, first + TABLE * page);
    }
    Ok(bytes)
}

// Puts an entry into the table of its page.
fn put(bytes: &mut Vec<u8>, map: &AddrMap, entry: &StartEntry)
    requires object { objects_begin ≤ entry.now.at }
    requires inside { 8 + 8 * pages map.now + 16384 * page_of entry.now.at + entry_offset entry.now.at + 32
        ≤ length bytes.old.items }
    ensures value { bytes.new.items ≡ table_put map.now bytes.old.items entry.now }
    ensures size { length bytes.new.items ≡ length bytes.old.items }
{
    let offset = entry.at - OBJECTS;
    let place = first_table(map) - SHADOW + TABLE * (offset / 4096) + 4 * (offset % 4096);
    put_entry(bytes, place as usize, entry);
}

/// The bytes with which the region of the shadow space begins: each page of static objects has a table, and each of
/// these words its entry. The only refusal is that memory fails.
pub fn start_bytes(
    alloc: Global,
    map: &AddrMap,
    entries: &[StartEntry],
) -> Result<Vec<u8>, AllocError>
    requires map { AreMapped map.now }
    requires entries { AreStartEntries map.now entries.now }
    ensures does { IfOk result (λ r. StartsShadow map.now two_level_entry (AreTablesGood map.now) entries.now r.items) }
    ensures short { IfOk result (λ r. length r.items ≤ 2 ^ 25) }
{
    let mut bytes = empty(alloc, map)?;
    for entry in entries {
        put(&mut bytes, map, entry);
    }
    Ok(bytes)
}
