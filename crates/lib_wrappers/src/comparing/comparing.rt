//! `strcmp` and `memcmp`.

ghost use Rattle.std.specs.Prelude.{◌≡◌, ◌+◌, ◌≤◌, ◌^◌, IfOk, [], ◌∷◌};
ghost use Rattle.addr_map.specs.Places.{AreMapped};
ghost use Rattle.flat_code.specs.Routines.Shape.{HasShape};
ghost use Rattle.flat_code.specs.Routines.Registers.{AreNoneOf, AreBelow};
ghost use Rattle.flat_code.specs.Routines.Metadata.{held_registers};
ghost use Rattle.lib_wrappers.specs.ComparingRoutines.Comparing.{IsStrcmp, IsMemcmp, strcmp_code, memcmp_code};
ghost use Rattle.lib_wrappers.specs.ComparingRoutines.Comparing.{string_loop};
ghost use Rattle.lib_wrappers.specs.ComparingRoutines.Comparing.{range_loop, order_code, pair_code};
ghost use Rattle.flat_actions.specs.Actions.{runtime_basis};

use addr_map::AddrMap;
use flat_actions::judge_instructions;
use flat_code::{FlatInstruction, Held, RightOperand};
use rv_isa::{BranchOp, LoadOp, RegOp};
use sb_base::{Ending, Line};
use shadow_space::ShadowForm;
use std::alloc::{AllocError, Global};

/// `strcmp`: gives in `into` how the strings in `left` and `right` compare, -1, 0 or 1. The run ends with a violation
/// at `line` just where a byte that is looked at is refused. It may write the registers from `scratch` on. The only
/// refusal is that memory fails.
pub fn strcmp<S: ShadowForm>(
    alloc: Global,
    map: &AddrMap,
    left: Held,
    right: Held,
    into: u32,
    line: Line,
    scratch: u32,
) -> Result<Vec<FlatInstruction>, AllocError>
    requires map { AreMapped map.now }
    requires left_apart { AreNoneOf (held_registers left) (into ∷ []) }
    requires right_apart { AreNoneOf (held_registers right) (into ∷ []) }
    requires left { AreBelow scratch (held_registers left) }
    requires right { AreBelow scratch (held_registers right) }
    requires results { AreBelow scratch (into ∷ []) }
    requires room { scratch ≤ 2 ^ 31 }
    ensures does { IfOk result (λ r. IsStrcmp (runtime_basis map.now S.entry (S.IsGood map.now)) left right into line
        scratch r.items) }
    ensures shape { IfOk result (λ r. HasShape r.items 64 (scratch + 4)) }
{
    strcmp_instructions(alloc, left, right, into, line, scratch)
}

/// The registers of a comparison of ranges.
#[derive(Clone, Copy)]
pub struct RangeRegisters {
    /// The pointer to the first range.
    pub left: Held,
    /// The pointer to the second.
    pub right: Held,
    /// How many bytes each has.
    pub size: u32,
    /// What gets the result.
    pub into: u32,
}

/// `memcmp`: gives in `into` how the bytes in two ranges compare, -1, 0 or 1, as many as `size` holds. The run ends
/// with a violation at `line` just where a range is refused, which are judged whole before they are compared. It may
/// write the registers from `scratch` on. The only refusal is that memory fails.
pub fn memcmp<S: ShadowForm>(
    alloc: Global,
    map: &AddrMap,
    ranges: RangeRegisters,
    line: Line,
    scratch: u32,
) -> Result<Vec<FlatInstruction>, AllocError>
    requires map { AreMapped map.now }
    requires left_apart { AreNoneOf (held_registers ranges.left) (ranges.into ∷ []) }
    requires right_apart { AreNoneOf (ranges.size ∷ held_registers ranges.right) (ranges.into ∷ []) }
    requires left { AreBelow scratch (held_registers ranges.left) }
    requires right { AreBelow scratch (ranges.size ∷ held_registers ranges.right) }
    requires results { AreBelow scratch (ranges.into ∷ []) }
    requires room { scratch ≤ 2 ^ 31 }
    ensures does { IfOk result (λ r. IsMemcmp (runtime_basis map.now S.entry (S.IsGood map.now)) ranges.left ranges.right
        ranges.size ranges.into line scratch r.items) }
    ensures shape { IfOk result (λ r. HasShape r.items 64 (scratch + 5)) }
{
    memcmp_instructions(alloc, ranges, line, scratch)
}

// The registers with the addresses of two bytes, and those that get the bytes.
#[derive(Clone, Copy)]
struct BytePair {
    cursor: u32,
    other: u32,
    x: u32,
    y: u32,
}

fn strcmp_instructions(
    alloc: Global,
    left: Held,
    right: Held,
    into: u32,
    line: Line,
    scratch: u32,
) -> Result<Vec<FlatInstruction>, AllocError>
    requires { scratch ≤ 2 ^ 31 }
    ensures { IfOk result (λ r. r.items
        ≡ strcmp_code left right into line scratch (scratch + 1) (scratch + 2) (scratch + 3)) }
{
    let pair = BytePair {
        cursor: scratch,
        other: scratch + 1,
        x: scratch + 2,
        y: scratch + 3,
    };
    let one = [FlatInstruction::Constant {
        into: pair.x,
        value: 1,
    }];
    let judge = judge_instructions(alloc, left, pair.x, line, pair.y)?;
    let judge_other = judge_instructions(alloc, right, pair.x, line, pair.y)?;
    let start = [
        FlatInstruction::Move {
            into: pair.cursor,
            from: left.value,
        },
        FlatInstruction::Move {
            into: pair.other,
            from: right.value,
        },
    ];
    let turns = string_turns(alloc, pair, left.tag.bound, right.tag.bound, line)?;
    let order = order_instructions(alloc, pair, into)?;
    let mut code = Vec::from_slice(alloc, &one)?;
    code.extend_from_slice(&judge)?;
    code.extend_from_slice(&judge_other)?;
    code.extend_from_slice(&start)?;
    code.extend_from_slice(&turns)?;
    code.extend_from_slice(&order)?;
    Ok(code)
}

fn string_turns(
    alloc: Global,
    pair: BytePair,
    bound: u32,
    other_bound: u32,
    line: Line,
) -> Result<Vec<FlatInstruction>, AllocError>
    ensures { IfOk result
        (λ r. r.items ≡ string_loop pair.cursor pair.other bound other_bound line pair.x pair.y) }
{
    let turn = [
        FlatInstruction::Branch {
            op: BranchOp::Bne,
            left: pair.x,
            right: RightOperand::Register(pair.y),
            past: 8,
        },
        FlatInstruction::Branch {
            op: BranchOp::Beq,
            left: pair.x,
            right: RightOperand::Number(0),
            past: 7,
        },
        FlatInstruction::Operate {
            op: RegOp::Add,
            into: pair.cursor,
            left: pair.cursor,
            right: RightOperand::Number(1),
        },
        // both objects live, and so each byte before its bound may be looked at
        FlatInstruction::Branch {
            op: BranchOp::Bne,
            left: pair.cursor,
            right: RightOperand::Register(bound),
            past: 1,
        },
        FlatInstruction::End(Ending::Spatial(line)),
        FlatInstruction::Operate {
            op: RegOp::Add,
            into: pair.other,
            left: pair.other,
            right: RightOperand::Number(1),
        },
        FlatInstruction::Branch {
            op: BranchOp::Bne,
            left: pair.other,
            right: RightOperand::Register(other_bound),
            past: 1,
        },
        FlatInstruction::End(Ending::Spatial(line)),
        FlatInstruction::JumpBack { back: 10 },
    ];
    let mut code = pair_instructions(alloc, pair)?;
    code.extend_from_slice(&turn)?;
    Ok(code)
}

fn memcmp_instructions(
    alloc: Global,
    ranges: RangeRegisters,
    line: Line,
    scratch: u32,
) -> Result<Vec<FlatInstruction>, AllocError>
    requires { scratch ≤ 2 ^ 31 }
    ensures { IfOk result (λ r. r.items
        ≡ memcmp_code ranges.left ranges.right ranges.size ranges.into line scratch (scratch + 1) (scratch + 2)
        (scratch + 3) (scratch + 4)) }
{
    let pair = BytePair {
        cursor: scratch,
        other: scratch + 1,
        x: scratch + 2,
        y: scratch + 3,
    };
    let end = scratch + 4;
    let empty = [
        FlatInstruction::Constant {
            into: ranges.into,
            value: 0,
        },
        FlatInstruction::Branch {
            op: BranchOp::Beq,
            left: ranges.size,
            right: RightOperand::Number(0),
            past: 33,
        },
    ];
    let judge = judge_instructions(alloc, ranges.left, ranges.size, line, pair.cursor)?;
    let judge_other = judge_instructions(alloc, ranges.right, ranges.size, line, pair.cursor)?;
    let start = [
        FlatInstruction::Move {
            into: pair.cursor,
            from: ranges.left.value,
        },
        FlatInstruction::Move {
            into: pair.other,
            from: ranges.right.value,
        },
        FlatInstruction::Operate {
            op: RegOp::Add,
            into: end,
            left: ranges.left.value,
            right: RightOperand::Register(ranges.size),
        },
    ];
    let turns = range_turns(alloc, pair, end)?;
    let order = order_instructions(alloc, pair, ranges.into)?;
    let mut code = Vec::from_slice(alloc, &empty)?;
    code.extend_from_slice(&judge)?;
    code.extend_from_slice(&judge_other)?;
    code.extend_from_slice(&start)?;
    code.extend_from_slice(&turns)?;
    code.extend_from_slice(&order)?;
    Ok(code)
}

fn range_turns(alloc: Global, pair: BytePair, end: u32) -> Result<Vec<FlatInstruction>, AllocError>
    ensures { IfOk result (λ r. r.items ≡ range_loop pair.cursor pair.other end pair.x pair.y) }
{
    let turn = [
        FlatInstruction::Branch {
            op: BranchOp::Bne,
            left: pair.x,
            right: RightOperand::Register(pair.y),
            past: 4,
        },
        FlatInstruction::Operate {
            op: RegOp::Add,
            into: pair.cursor,
            left: pair.cursor,
            right: RightOperand::Number(1),
        },
        FlatInstruction::Operate {
            op: RegOp::Add,
            into: pair.other,
            left: pair.other,
            right: RightOperand::Number(1),
        },
        FlatInstruction::Branch {
            op: BranchOp::Beq,
            left: pair.cursor,
            right: RightOperand::Register(end),
            past: 4,
        },
        FlatInstruction::JumpBack { back: 6 },
    ];
    let mut code = pair_instructions(alloc, pair)?;
    code.extend_from_slice(&turn)?;
    Ok(code)
}

fn pair_instructions(alloc: Global, pair: BytePair) -> Result<Vec<FlatInstruction>, AllocError>
    ensures { IfOk result (λ r. r.items ≡ pair_code pair.cursor pair.other pair.x pair.y) }
{
    let code = [
        FlatInstruction::Load {
            op: LoadOp::Lbu,
            into: pair.x,
            at: pair.cursor,
            offset: 0,
        },
        FlatInstruction::Load {
            op: LoadOp::Lbu,
            into: pair.y,
            at: pair.other,
            offset: 0,
        },
    ];
    Vec::from_slice(alloc, &code)
}

// -1, 0 or 1 without a branch; the cursors are needed no more.
fn order_instructions(
    alloc: Global,
    pair: BytePair,
    into: u32,
) -> Result<Vec<FlatInstruction>, AllocError>
    ensures { IfOk result (λ r. r.items ≡ order_code pair.x pair.y pair.cursor pair.other into) }
{
    let code = [
        FlatInstruction::Operate {
            op: RegOp::Sltu,
            into: pair.cursor,
            left: pair.x,
            right: RightOperand::Register(pair.y),
        },
        FlatInstruction::Operate {
            op: RegOp::Sltu,
            into: pair.other,
            left: pair.y,
            right: RightOperand::Register(pair.x),
        },
        FlatInstruction::Operate {
            op: RegOp::Sub,
            into,
            left: pair.other,
            right: RightOperand::Register(pair.cursor),
        },
    ];
    Vec::from_slice(alloc, &code)
}
