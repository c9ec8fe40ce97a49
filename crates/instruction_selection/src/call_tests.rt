//! The tests that stand before a call: of the charge, of the object stack and of the keys.

ghost use Rattle.std.specs.Prelude.{◌≡◌, ◌+◌, ◌<◌, ◌≤◌, ◌^◌, ◌++◌, ◌∷◌, [], length, OnOk, IfOk};
ghost use Rattle.sb_base.specs.declared.ending.Ending.TheVariants.{BadCall, Stack};
ghost use Rattle.addr_map.specs.declared.region.Region.TheVariants.{Stack as StackRegion};
ghost use Rattle.addr_map.specs.Places.{region_end};
ghost use Rattle.rv_isa.specs.declared.instruction.BranchOp.TheVariants.{Bltu};
ghost use Rattle.flat_code.specs.declared.instruction.FlatInstruction.TheVariants.{Branch as Choice, End};
ghost use Rattle.flat_code.specs.declared.instruction.FlatInstruction.TheVariants.{Operate as Operation};
ghost use Rattle.lib_wrappers.specs.AllocatingRoutines.Allocating.{keys_code, key_test};
ghost use Rattle.lib_wrappers.specs.AllocatingRoutines.Entering.{block_bytes, round_code};
ghost use Rattle.metadata_plan.specs.Blocks.{call_tests};
ghost use Rattle.metadata_relation.specs.Blocks.{callee_tests, object_tests, room_tests, space_test, units_tests};
ghost use Rattle.metadata_relation.specs.Blocks.{unknown_object_tests};
ghost use Rattle.instruction_selection.specs.Calls.{units_end, unless_none};

use crate::blocks::{block_bytes, has_objects, put_read_top};
use crate::entries::held_from;
use crate::list::{append, put};
use addr_map::laws::{regions_stand_in_order, sizes_are_in_range};
use addr_map::{AddrMap, Region};
use c_tree::Variable;
use flat_code::{FlatInstruction, RightOperand};
use lib_wrappers::allocating::{key_test, keys_list};
use rv_isa::{BranchOp, RegOp};
use sb_base::{Ending, Line};
use std::alloc::{AllocError, Global};

/// Puts what begins a call of a function that is charged so many bytes behind a list: its turn, and the test of the
/// charge, at a line. It fails only for want of memory.
pub fn put_call_tests(
    code: &mut Vec<FlatInstruction>,
    map: &AddrMap,
    room: u64,
    line: Line,
    scratch: u32,
) -> Result<(), AllocError>
    ensures { OnOk result (code.new.items ≡ code.old.items ++ call_tests map.now room line scratch) }
{
    let most = (map.budgets().calls() + 1).saturating_sub(room);
    put(code, FlatInstruction::Turn)?;
    put(code, FlatInstruction::Charged { into: scratch })?;
    put(
        code,
        FlatInstruction::Branch {
            op: BranchOp::Bltu,
            left: scratch,
            right: RightOperand::Number(most),
            past: 1,
        },
    )?;
    put(code, FlatInstruction::End(Ending::Stack(line)))
}

// Puts an operator on two registers or a register and a number behind a list.
fn put_operator(
    code: &mut Vec<FlatInstruction>,
    op: RegOp,
    into: u32,
    left: u32,
    right: RightOperand,
) -> Result<(), AllocError>
    ensures { OnOk result (code.new.items ≡ code.old.items ++ Operation op into left right ∷ []) }
{
    put(
        code,
        FlatInstruction::Operate {
            op,
            into,
            left,
            right,
        },
    )
}

// Puts what rounds an address up to a multiple of 16 behind a list.
fn put_rounded(code: &mut Vec<FlatInstruction>, address: u32) -> Result<(), AllocError>
    ensures { OnOk result (code.new.items ≡ code.old.items ++ round_code address address) }
{
    put_operator(code, RegOp::Add, address, address, RightOperand::Number(15))?;
    put_operator(code, RegOp::Srl, address, address, RightOperand::Number(4))?;
    put_operator(code, RegOp::Sll, address, address, RightOperand::Number(4))
}

// Puts the end of the run behind a list where a number in one register is not below that in another.
fn put_below_or_end(
    code: &mut Vec<FlatInstruction>,
    left: u32,
    right: RightOperand,
    line: Line,
) -> Result<(), AllocError>
    ensures { OnOk result (code.new.items ≡ code.old.items ++ Choice Bltu left right 1 ∷ End (Stack line) ∷ []) }
{
    put(
        code,
        FlatInstruction::Branch {
            op: BranchOp::Bltu,
            left,
            right,
            past: 1,
        },
    )?;
    put(code, FlatInstruction::End(Ending::Stack(line)))
}

// Puts the test that a key is left behind a list.
fn put_key_test(
    code: &mut Vec<FlatInstruction>,
    alloc: Global,
    map: &AddrMap,
    line: Line,
    scratch: u32,
) -> Result<(), AllocError>
    requires { scratch < 2 ^ 31 }
    ensures { OnOk result (code.new.items ≡ code.old.items
        ++ (keys_code map.now scratch (scratch + 1) ++ key_test scratch line)) }
{
    let keys = keys_list(alloc, map, scratch, scratch + 1)?;
    append(code, &keys)?;
    let test = key_test(alloc, scratch, line)?;
    append(code, &test)
}

// One past the last address of the object stack: there the heap begins.
#[tactic(auto, using(crate::proofs::Regions::stack_ends))]
fn stack_end(map: &AddrMap) -> u64
    ensures value { result ≡ region_end map.now StackRegion }
    ensures low { result < 0x60000000 }
{
    // Regions end below 0x60000000, by these laws.
    sizes_are_in_range(map);
    regions_stand_in_order();
    let (end, _) = map.region(Region::Heap);
    end
}

// Puts the test that objects of so many bytes fit on the object stack behind a list.
fn put_space_test(
    code: &mut Vec<FlatInstruction>,
    map: &AddrMap,
    bytes: u64,
    line: Line,
    scratch: u32,
) -> Result<(), AllocError>
    requires { scratch < 2 ^ 31 }
    ensures { OnOk result (code.new.items ≡ code.old.items ++ space_test map.now bytes line scratch) }
{
    put_read_top(code, map, scratch)?;
    put_rounded(code, scratch)?;
    put(
        code,
        FlatInstruction::Constant {
            into: scratch + 1,
            value: (stack_end(map) + 1).saturating_sub(bytes),
        },
    )?;
    put_below_or_end(code, scratch, RightOperand::Register(scratch + 1), line)
}

/// Puts the tests of a call whose callee's body declares objects behind a list: they fit on the object stack, and a key
/// is left. It fails only for want of memory.
#[tactic(auto, using(crate::proofs::Lists::nothing_behind))]
pub fn put_object_tests(
    code: &mut Vec<FlatInstruction>,
    alloc: Global,
    map: &AddrMap,
    variables: &[Variable],
    line: Line,
    scratch: u32,
) -> Result<(), AllocError>
    requires small { block_bytes variables.now ≤ 2 ^ 62 }
    requires room { scratch < 2 ^ 31 }
    ensures { OnOk result (code.new.items ≡ code.old.items ++ object_tests map.now variables.now line scratch) }
{
    if !has_objects(variables) {
        return Ok(());
    }
    put_space_test(code, map, block_bytes(variables), line, scratch)?;
    put_key_test(code, alloc, map, line, scratch)
}

// Puts the end of the run behind a list where a call through a pointer names no function of the type.
fn put_branch_or_bad_call(
    code: &mut Vec<FlatInstruction>,
    op: BranchOp,
    left: u32,
    right: RightOperand,
    line: Line,
) -> Result<(), AllocError>
    ensures { OnOk result (code.new.items ≡ code.old.items ++ Choice op left right 1 ∷ End (BadCall line) ∷ []) }
{
    put(
        code,
        FlatInstruction::Branch {
            op,
            left,
            right,
            past: 1,
        },
    )?;
    put(code, FlatInstruction::End(Ending::BadCall(line)))
}

/// Puts the tests that a pointer is one to a function of a type behind a list. It fails only for want of memory.
pub fn put_callee_tests(
    code: &mut Vec<FlatInstruction>,
    kind: u64,
    line: Line,
    pointer: u32,
    scratch: u32,
) -> Result<(), AllocError>
    requires { pointer ≤ 2 ^ 31 }
    ensures { OnOk result (code.new.items ≡ code.old.items ++ callee_tests kind line pointer scratch) }
{
    let held = held_from(pointer);
    let key = held.tag.key;
    put_operator(code, RegOp::Srl, scratch, key, RightOperand::Number(63))?;
    let none = RightOperand::Number(0);
    put_branch_or_bad_call(code, BranchOp::Bne, scratch, none, line)?;
    let mask = RightOperand::Number((1 << 12) - 1);
    put_operator(code, RegOp::And, scratch, key, mask)?;
    let one = RightOperand::Number(kind);
    put_branch_or_bad_call(code, BranchOp::Beq, scratch, one, line)?;
    let base = RightOperand::Register(held.tag.base);
    put_branch_or_bad_call(code, BranchOp::Beq, pointer, base, line)
}

/// Puts the turn of a call through a pointer and the test of its charge behind a list, with the room of the callee from
/// the key of the pointer. It fails only for want of memory.
pub fn put_room_tests(
    code: &mut Vec<FlatInstruction>,
    map: &AddrMap,
    key: u32,
    line: Line,
    scratch: u32,
) -> Result<(), AllocError>
    requires { scratch < 2 ^ 31 }
    ensures { OnOk result (code.new.items ≡ code.old.items ++ room_tests map.now key line scratch) }
{
    let room = scratch + 1;
    put(code, FlatInstruction::Turn)?;
    put(code, FlatInstruction::Charged { into: scratch })?;
    put_operator(code, RegOp::Srl, room, key, RightOperand::Number(31))?;
    let mask = RightOperand::Number((1 << 25) - 1);
    put_operator(code, RegOp::And, room, room, mask)?;
    let right = RightOperand::Register(room);
    put_operator(code, RegOp::Add, scratch, scratch, right)?;
    let most = RightOperand::Number(map.budgets().calls() + 1);
    put_below_or_end(code, scratch, most, line)
}

// Puts where objects of so many units of 16 bytes end on the object stack behind a list.
fn put_units_end(
    code: &mut Vec<FlatInstruction>,
    map: &AddrMap,
    scratch: u32,
) -> Result<(), AllocError>
    requires { scratch < 2 ^ 31 }
    ensures { OnOk result (code.new.items ≡ code.old.items ++ units_end map.now scratch) }
{
    let units = scratch + 1;
    put_operator(code, RegOp::Sll, units, units, RightOperand::Number(4))?;
    put_read_top(code, map, scratch)?;
    put_rounded(code, scratch)?;
    let right = RightOperand::Register(units);
    put_operator(code, RegOp::Add, scratch, scratch, right)
}

// The tests of objects of so many units of 16 bytes, a number in the register behind the first.
fn units_tests(
    alloc: Global,
    map: &AddrMap,
    line: Line,
    scratch: u32,
) -> Result<Vec<FlatInstruction>, AllocError>
    requires { scratch < 2 ^ 31 }
    ensures { IfOk result (λ list. list.items ≡ units_tests map.now line scratch) }
{
    let units = scratch + 1;
    let mut code = Vec::new(alloc);
    put_units_end(&mut code, map, scratch)?;
    put(
        &mut code,
        FlatInstruction::Constant {
            into: units,
            value: stack_end(map) + 1,
        },
    )?;
    put_below_or_end(&mut code, scratch, RightOperand::Register(units), line)?;
    put_key_test(&mut code, alloc, map, line, scratch)?;
    Ok(code)
}

// Puts tests behind a list that are passed over where a number out of a key, which goes to a register, is 0.
fn put_unless_none(
    code: &mut Vec<FlatInstruction>,
    key: u32,
    register: u32,
    tests: &[FlatInstruction],
) -> Result<(), AllocError>
    requires { length tests.now < 2 ^ 32 }
    ensures { OnOk result (code.new.items ≡ code.old.items ++ unless_none key register tests.now) }
{
    put_operator(code, RegOp::Srl, register, key, RightOperand::Number(12))?;
    let mask = RightOperand::Number((1 << 19) - 1);
    put_operator(code, RegOp::And, register, register, mask)?;
    put(
        code,
        FlatInstruction::Branch {
            op: BranchOp::Beq,
            left: register,
            right: RightOperand::Number(0),
            past: tests.len() as u32,
        },
    )?;
    append(code, tests)
}

/// Puts the tests of the objects of a callee that a pointer names behind a list, with their units from the key of the
/// pointer; where it has none nothing is tested. It fails only for want of memory.
pub fn put_unknown_object_tests(
    code: &mut Vec<FlatInstruction>,
    alloc: Global,
    map: &AddrMap,
    key: u32,
    line: Line,
    scratch: u32,
) -> Result<(), AllocError>
    requires { scratch < 2 ^ 31 }
    ensures { OnOk result (code.new.items ≡ code.old.items ++ unknown_object_tests map.now key line scratch) }
{
    let tests = units_tests(alloc, map, line, scratch)?;
    put_unless_none(code, key, scratch + 1, tests.as_slice())?;
    Ok(())
}
