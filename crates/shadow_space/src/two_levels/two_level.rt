//! The form in two levels.

ghost use Rattle.std.specs.Prelude.{◌≡◌, ◌+◌, ◌≤◌, ◌^◌, IfOk};
ghost use Rattle.addr_map.specs.Places.{AreMapped};
ghost use Rattle.shadow_space.specs.TwoLevel.Tables.{two_level_entry, AreTablesGood, first_table};
ghost use Rattle.shadow_space.specs.TwoLevel.Code.{look_up as look_up_code, two_level_read, two_level_write};
ghost use Rattle.shadow_space.specs.TwoLevel.Code.{two_level_clear, two_level_read_behind, two_level_write_behind};
ghost use Rattle.shadow_space.specs.TwoLevel.Start.{global_pages as pages_of_globals};

use crate::entry_words::{load_entry, same_register, store_entry};
use crate::form::ShadowForm;
use crate::start::{OBJECTS, SHADOW, StartEntry};
use crate::two_levels::start::start_bytes;
use addr_map::AddrMap;
use flat_code::{Entry, FlatInstruction, RightOperand};
use rv_isa::{BranchOp, LoadOp, RegOp, StoreOp};
use std::alloc::{AllocError, Global};

// The address of the first level, behind the cell of the reserve.
const FIRST_LEVEL: u64 = 0x4000_0008;

// Where the cell of an address stands, less 8 for each page below it.
const PAGE_CELLS: u64 = FIRST_LEVEL - OBJECTS / 512;

/// The form with a word for each page of 4096 bytes of object space, and tables of 512 entries from a reserve that has
/// one for each page.
pub struct TwoLevel;

impl ShadowForm for TwoLevel {
    ghost entry = { two_level_entry };

    ghost IsGood = { AreTablesGood };

    ghost entry_read = { two_level_read_behind };

    ghost entry_write = { two_level_write_behind };

    fn read_entry(
        alloc: Global,
        map: &AddrMap,
        at: u32,
        into: Entry,
        scratch: u32,
    ) -> Result<Vec<FlatInstruction>, AllocError> {
        read_code(alloc, at, into, scratch)
    }

    fn write_entry(
        alloc: Global,
        map: &AddrMap,
        at: u32,
        from: Entry,
        scratch: u32,
    ) -> Result<Vec<FlatInstruction>, AllocError> {
        write_code(alloc, map, at, from, scratch)
    }

    fn clear(
        alloc: Global,
        map: &AddrMap,
        first: u32,
        bytes: u32,
        scratch: u32,
    ) -> Result<Vec<FlatInstruction>, AllocError> {
        clear_code(alloc, first, bytes, scratch)
    }

    fn entries_are_local() {}

    fn entries_are_read_and_written() {}

    fn start(alloc: Global, map: &AddrMap, entries: &[StartEntry]) -> Result<Vec<u8>, AllocError> {
        start_bytes(alloc, map, entries)
    }
}

// The pages of static objects.
pub(crate) fn global_pages(map: &AddrMap) -> u64
    ensures value { result ≡ pages_of_globals map.now }
    ensures few { result ≤ 1024 }
{
    map.global_bytes().div_ceil(4096)
}

// The address of the first table: behind the cell and a word for each page.
pub(crate) fn first_table(map: &AddrMap) -> u64
    ensures { result ≡ first_table map.now }
{
    let budgets = map.budgets();
    let objects = global_pages(map) * 4096 + budgets.stack() + budgets.heap();
    FIRST_LEVEL + 8 * (objects / 4096)
}

// The page of the address in a register is looked up: its table, the cell with it, and the offset of the entry there.
fn look_up(
    alloc: Global,
    at: u32,
    table: u32,
    cell: u32,
    offset: u32,
) -> Result<Vec<FlatInstruction>, AllocError>
    ensures { IfOk result (λ r. r.items ≡ look_up_code at table cell offset) }
{
    let code = [
        FlatInstruction::Operate {
            op: RegOp::Srl,
            into: cell,
            left: at,
            right: RightOperand::Number(12),
        },
        FlatInstruction::Operate {
            op: RegOp::Sll,
            into: offset,
            left: at,
            right: RightOperand::Number(52),
        },
        FlatInstruction::Operate {
            op: RegOp::Srl,
            into: offset,
            left: offset,
            right: RightOperand::Number(50),
        },
        FlatInstruction::Operate {
            op: RegOp::Sll,
            into: cell,
            left: cell,
            right: RightOperand::Number(3),
        },
        FlatInstruction::Operate {
            op: RegOp::Add,
            into: cell,
            left: cell,
            right: RightOperand::Number(PAGE_CELLS),
        },
        FlatInstruction::Load {
            op: LoadOp::Ld,
            into: table,
            at: cell,
            offset: 0,
        },
    ];
    Vec::from_slice(alloc, &code)
}

fn read_code(
    alloc: Global,
    at: u32,
    into: Entry,
    scratch: u32,
) -> Result<Vec<FlatInstruction>, AllocError>
    requires { scratch ≤ 2 ^ 31 }
    ensures { IfOk result (λ r. r.items ≡ two_level_read at into scratch (scratch + 1) (scratch + 2)) }
{
    let table = scratch;
    let cell = scratch + 1;
    let offset = scratch + 2;
    let mut code = look_up(alloc, at, table, cell, offset)?;
    let entry = [
        FlatInstruction::Constant {
            into: into.base,
            value: 0,
        },
        FlatInstruction::Constant {
            into: into.bound,
            value: 0,
        },
        FlatInstruction::Constant {
            into: into.key,
            value: 0,
        },
        FlatInstruction::Constant {
            into: into.lock,
            value: 0,
        },
        FlatInstruction::Branch {
            op: BranchOp::Beq,
            left: table,
            right: RightOperand::Number(0),
            past: 5,
        },
        FlatInstruction::Operate {
            op: RegOp::Add,
            into: table,
            left: table,
            right: RightOperand::Register(offset),
        },
    ];
    code.extend_from_slice(&entry)?;
    let words = load_entry(alloc, table, into)?;
    code.extend_from_slice(&words)?;
    Ok(code)
}

fn write_code(
    alloc: Global,
    map: &AddrMap,
    at: u32,
    from: Entry,
    scratch: u32,
) -> Result<Vec<FlatInstruction>, AllocError>
    requires { scratch ≤ 2 ^ 31 }
    ensures { IfOk result (λ r. r.items
        ≡ two_level_write map.now at from scratch (scratch + 1) (scratch + 2) (scratch + 3) (scratch + 4)) }
{
    let tables = first_table(map);
    let table = scratch;
    let cell = scratch + 1;
    let offset = scratch + 2;
    let taken = scratch + 3;
    let next = scratch + 4;
    let mut code = look_up(alloc, at, table, cell, offset)?;
    let entry = [
        FlatInstruction::Branch {
            op: BranchOp::Bne,
            left: table,
            right: RightOperand::Number(0),
            past: 10,
        },
        // an entry that is none takes no table
        FlatInstruction::Branch {
            op: BranchOp::Bne,
            left: from.base,
            right: RightOperand::Number(0),
            past: 3,
        },
        FlatInstruction::Branch {
            op: BranchOp::Bne,
            left: from.bound,
            right: RightOperand::Number(0),
            past: 2,
        },
        FlatInstruction::Branch {
            op: BranchOp::Bne,
            left: from.key,
            right: RightOperand::Number(0),
            past: 1,
        },
        FlatInstruction::Branch {
            op: BranchOp::Beq,
            left: from.lock,
            right: RightOperand::Number(0),
            past: 11,
        },
        // the next table of the reserve
        FlatInstruction::Constant {
            into: taken,
            value: SHADOW,
        },
        FlatInstruction::Load {
            op: LoadOp::Ld,
            into: table,
            at: taken,
            offset: 0,
        },
        FlatInstruction::Operate {
            op: RegOp::Add,
            into: next,
            left: table,
            right: RightOperand::Number(16384),
        },
        FlatInstruction::Store {
            op: StoreOp::Sd,
            at: taken,
            offset: 0,
            from: next,
        },
        FlatInstruction::Operate {
            op: RegOp::Add,
            into: table,
            left: table,
            right: RightOperand::Number(tables),
        },
        FlatInstruction::Store {
            op: StoreOp::Sd,
            at: cell,
            offset: 0,
            from: table,
        },
        FlatInstruction::Operate {
            op: RegOp::Add,
            into: table,
            left: table,
            right: RightOperand::Register(offset),
        },
    ];
    code.extend_from_slice(&entry)?;
    let words = store_entry(alloc, table, from)?;
    code.extend_from_slice(&words)?;
    Ok(code)
}

fn clear_code(
    alloc: Global,
    first: u32,
    bytes: u32,
    scratch: u32,
) -> Result<Vec<FlatInstruction>, AllocError>
    requires { scratch ≤ 2 ^ 31 }
    ensures { IfOk result (λ r. r.items
        ≡ two_level_clear first bytes scratch (scratch + 1) (scratch + 2) (scratch + 3) (scratch + 4) (scratch + 5)) }
{
    let cursor = scratch;
    let end = scratch + 1;
    let zero = scratch + 2;
    let table = scratch + 3;
    let cell = scratch + 4;
    let offset = scratch + 5;
    let begin = [
        FlatInstruction::Move {
            into: cursor,
            from: first,
        },
        FlatInstruction::Operate {
            op: RegOp::Add,
            into: end,
            left: first,
            right: RightOperand::Register(bytes),
        },
        FlatInstruction::Constant {
            into: zero,
            value: 0,
        },
        // each turn clears one entry
        FlatInstruction::Branch {
            op: BranchOp::Bgeu,
            left: cursor,
            right: RightOperand::Register(end),
            past: 14,
        },
    ];
    let mut code = Vec::from_slice(alloc, &begin)?;
    let found = look_up(alloc, cursor, table, cell, offset)?;
    code.extend_from_slice(&found)?;
    let entry = [
        FlatInstruction::Branch {
            op: BranchOp::Beq,
            left: table,
            right: RightOperand::Number(0),
            past: 5,
        },
        FlatInstruction::Operate {
            op: RegOp::Add,
            into: table,
            left: table,
            right: RightOperand::Register(offset),
        },
    ];
    code.extend_from_slice(&entry)?;
    let clear = store_entry(alloc, table, same_register(zero))?;
    code.extend_from_slice(&clear)?;
    let turn = [
        FlatInstruction::Operate {
            op: RegOp::Add,
            into: cursor,
            left: cursor,
            right: RightOperand::Number(8),
        },
        FlatInstruction::JumpBack { back: 14 },
    ];
    code.extend_from_slice(&turn)?;
    Ok(code)
}
