//! The direct form.

ghost use Rattle.std.specs.Prelude.{◌≡◌, ◌+◌, ◌≤◌, ◌^◌, IfOk, length};
ghost use Rattle.addr_map.specs.Places.{AreMapped};
ghost use Rattle.shadow_space.specs.Direct.{direct_entry, direct_read, direct_write, direct_clear};
ghost use Rattle.shadow_space.specs.Start.{AreStartEntries, StartsShadow};

use crate::entry_words::{load_entry, same_register, store_entry};
use crate::form::ShadowForm;
use crate::start::{OBJECTS, StartEntry, put_entry};
use addr_map::AddrMap;
use flat_code::{Entry, FlatInstruction, RightOperand};
use rv_isa::{BranchOp, RegOp};
use std::alloc::{AllocError, Global};

/// The form in which the entry of each word has a place of its own, at four times the word's address.
pub struct Direct;

impl ShadowForm for Direct {
    ghost entry = { direct_entry };

    ghost IsGood = { λ _ _. Unit {0} };

    ghost entry_read = { λ map. direct_read };

    ghost entry_write = { λ map. direct_write };

    fn read_entry(
        alloc: Global,
        map: &AddrMap,
        at: u32,
        into: Entry,
        scratch: u32,
    ) -> Result<Vec<FlatInstruction>, AllocError> {
        read_code(alloc, at, into, scratch)
    }

    fn write_entry(
        alloc: Global,
        map: &AddrMap,
        at: u32,
        from: Entry,
        scratch: u32,
    ) -> Result<Vec<FlatInstruction>, AllocError> {
        write_code(alloc, at, from, scratch)
    }

    fn clear(
        alloc: Global,
        map: &AddrMap,
        first: u32,
        bytes: u32,
        scratch: u32,
    ) -> Result<Vec<FlatInstruction>, AllocError> {
        clear_code(alloc, first, bytes, scratch)
    }

    fn entries_are_local() {}

    fn entries_are_read_and_written() {}

    fn start(alloc: Global, map: &AddrMap, entries: &[StartEntry]) -> Result<Vec<u8>, AllocError> {
        start_bytes(alloc, map, entries)
    }
}

// The entry of the first word stands first.
fn start_bytes(alloc: Global, map: &AddrMap, entries: &[StartEntry]) -> Result<Vec<u8>, AllocError>
    requires map { AreMapped map.now }
    requires entries { AreStartEntries map.now entries.now }
    ensures does { IfOk result (λ r. StartsShadow map.now direct_entry (λ _. Unit {0}) entries.now r.items) }
    ensures short { IfOk result (λ r. length r.items ≤ 2 ^ 25) }
{
    let size = 4 * (map.global_bytes().div_ceil(4096) * 4096);
    let mut bytes = vec![in alloc; 0; size as usize]?;
    for entry in entries {
        put_entry(&mut bytes, (4 * (entry.at - OBJECTS)) as usize, entry);
    }
    Ok(bytes)
}

// Four times an address is its bits shifted by two.
fn read_code(
    alloc: Global,
    at: u32,
    into: Entry,
    scratch: u32,
) -> Result<Vec<FlatInstruction>, AllocError>
    ensures { IfOk result (λ r. r.items ≡ direct_read at into scratch) }
{
    let place = [FlatInstruction::Operate {
        op: RegOp::Sll,
        into: scratch,
        left: at,
        right: RightOperand::Number(2),
    }];
    let mut code = Vec::from_slice(alloc, &place)?;
    let words = load_entry(alloc, scratch, into)?;
    code.extend_from_slice(&words)?;
    Ok(code)
}

fn write_code(
    alloc: Global,
    at: u32,
    from: Entry,
    scratch: u32,
) -> Result<Vec<FlatInstruction>, AllocError>
    ensures { IfOk result (λ r. r.items ≡ direct_write at from scratch) }
{
    let place = [FlatInstruction::Operate {
        op: RegOp::Sll,
        into: scratch,
        left: at,
        right: RightOperand::Number(2),
    }];
    let mut code = Vec::from_slice(alloc, &place)?;
    let words = store_entry(alloc, scratch, from)?;
    code.extend_from_slice(&words)?;
    Ok(code)
}

fn clear_code(
    alloc: Global,
    first: u32,
    bytes: u32,
    scratch: u32,
) -> Result<Vec<FlatInstruction>, AllocError>
    requires { scratch ≤ 2 ^ 31 }
    ensures { IfOk result (λ r. r.items ≡ direct_clear first bytes scratch (scratch + 1) (scratch + 2)) }
{
    let cursor = scratch;
    let end = scratch + 1;
    let zero = scratch + 2;
    let begin = [
        FlatInstruction::Operate {
            op: RegOp::Sll,
            into: cursor,
            left: first,
            right: RightOperand::Number(2),
        },
        FlatInstruction::Operate {
            op: RegOp::Sll,
            into: end,
            left: bytes,
            right: RightOperand::Number(2),
        },
        FlatInstruction::Operate {
            op: RegOp::Add,
            into: end,
            left: end,
            right: RightOperand::Register(cursor),
        },
        FlatInstruction::Constant {
            into: zero,
            value: 0,
        },
        // each turn clears one entry
        FlatInstruction::Branch {
            op: BranchOp::Bgeu,
            left: cursor,
            right: RightOperand::Register(end),
            past: 6,
        },
    ];
    let mut code = Vec::from_slice(alloc, &begin)?;
    let clear = store_entry(alloc, cursor, same_register(zero))?;
    code.extend_from_slice(&clear)?;
    let turn = [
        FlatInstruction::Operate {
            op: RegOp::Add,
            into: cursor,
            left: cursor,
            right: RightOperand::Number(32),
        },
        FlatInstruction::JumpBack { back: 6 },
    ];
    code.extend_from_slice(&turn)?;
    Ok(code)
}
