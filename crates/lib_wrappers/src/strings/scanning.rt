//! Strings scanned.

ghost use Rattle.std.specs.Prelude.{◌≡◌, ℕ, ◌+◌, ◌≤◌, ◌^◌, IfOk, [], ◌∷◌, ◌<◌};
ghost use Rattle.addr_map.specs.Places.{AreMapped};
ghost use Rattle.source_meaning.specs.State.{done};
ghost use Rattle.source_meaning.specs.Strings.{scan as scan_of, scan_within};
ghost use Rattle.flat_code.specs.Routines.Shape.{HasShape};
ghost use Rattle.flat_code.specs.Routines.Registers.{AreNoneOf, AreBelow};
ghost use Rattle.flat_code.specs.Routines.Metadata.{held_registers};
ghost use Rattle.flat_actions.specs.Scanning.{IsScanRoutine};
ghost use Rattle.lib_wrappers.specs.StringRoutines.Scanning.{IsFirstJudged, scan_turns, scan_at_most_turns};
ghost use Rattle.flat_actions.specs.Actions.{runtime_basis};

use addr_map::AddrMap;
use flat_actions::{joined, judge};
use flat_code::{FlatInstruction, Held, RightOperand};
use rv_isa::{BranchOp, LoadOp, RegOp};
use sb_base::{Ending, Line};
use shadow_space::ShadowForm;
use std::alloc::{AllocError, Global};

/// Scans the string at the pointer in `string` in a function of the runtime, as the source does: it ends the run where
/// a byte is refused, and else `cursor` has the address of the 0 byte. It may write the registers from `scratch` on.
/// The only refusal is that memory fails.
pub fn scan<S: ShadowForm>(
    alloc: Global,
    map: &AddrMap,
    string: Held,
    cursor: u32,
    line: Line,
    scratch: u32,
) -> Result<Vec<FlatInstruction>, AllocError>
    requires map { AreMapped map.now }
    requires apart { AreNoneOf (held_registers string) (cursor ∷ []) }
    requires below { AreBelow scratch (cursor ∷ held_registers string) }
    requires room { scratch + 8 ≤ 2 ^ 31 }
    ensures does { IfOk result (λ r. IsScanRoutine (runtime_basis map.now S.entry (S.IsGood map.now)) (λ v. scan_of v line)
        string (λ f. Unit {0}) cursor scratch r.items) }
    ensures shape { IfOk result (λ r. HasShape r.items 20 (scratch + 2)) }
{
    scan_instructions(alloc, string, cursor, line, scratch)
}

/// Scans at most as many bytes of the string as `limit` holds, at least one: then `cursor` has the address of the 0
/// byte, or the one behind so many bytes. In all else it is as `scan`.
pub fn scan_at_most<S: ShadowForm>(
    alloc: Global,
    map: &AddrMap,
    string: Held,
    cursor: u32,
    line: Line,
    limit: u32,
    scratch: u32,
) -> Result<Vec<FlatInstruction>, AllocError>
    requires map { AreMapped map.now }
    requires apart { AreNoneOf (limit ∷ held_registers string) (cursor ∷ []) }
    requires below { AreBelow scratch (cursor ∷ limit ∷ held_registers string) }
    requires room { scratch + 8 ≤ 2 ^ 31 }
    ensures does { IfOk result (λ r. (n : ℕ) → 1 ≤ n
        → IsScanRoutine (runtime_basis map.now S.entry (S.IsGood map.now)) (λ v. scan_within n (done []) v line) string
        (λ f. f.values limit ≡ n) cursor scratch r.items) }
    ensures shape { IfOk result (λ r. HasShape r.items 20 (scratch + 2)) }
{
    scan_at_most_instructions(alloc, string, cursor, line, limit, scratch)
}

// The instructions of `scan`.
fn scan_instructions(
    alloc: Global,
    string: Held,
    cursor: u32,
    line: Line,
    scratch: u32,
) -> Result<Vec<FlatInstruction>, AllocError>
    requires below { AreBelow scratch (held_registers string) }
    requires room { scratch + 8 ≤ 2 ^ 31 }
    ensures does { IfOk result (λ r. IsFirstJudged string line scratch (scan_turns string cursor line scratch) r.items) }
    ensures shape { IfOk result (λ r. (m : ℕ) → cursor < m → scratch + 2 ≤ m → HasShape r.items 18 m) }
{
    let turns = [
        FlatInstruction::Move {
            into: cursor,
            from: string.value,
        },
        FlatInstruction::Load {
            op: LoadOp::Lbu,
            into: scratch,
            at: cursor,
            offset: 0,
        },
        FlatInstruction::Branch {
            op: BranchOp::Beq,
            left: scratch,
            right: RightOperand::Number(0),
            past: 4,
        },
        FlatInstruction::Operate {
            op: RegOp::Add,
            into: cursor,
            left: cursor,
            right: RightOperand::Number(1),
        },
        FlatInstruction::Branch {
            op: BranchOp::Bne,
            left: cursor,
            right: RightOperand::Register(string.tag.bound),
            past: 1,
        },
        FlatInstruction::End(Ending::Spatial(line)),
        FlatInstruction::JumpBack { back: 5 },
    ];
    first_judged(alloc, string, line, scratch, &turns)
}

fn scan_at_most_instructions(
    alloc: Global,
    string: Held,
    cursor: u32,
    line: Line,
    limit: u32,
    scratch: u32,
) -> Result<Vec<FlatInstruction>, AllocError>
    requires below { AreBelow scratch (held_registers string) }
    requires room { scratch + 8 ≤ 2 ^ 31 }
    ensures does { IfOk result (λ r. IsFirstJudged string line scratch (scan_at_most_turns string cursor line limit scratch)
        r.items) }
    ensures shape { IfOk result (λ r. (m : ℕ) → cursor < m → limit < m → scratch + 2 ≤ m
        → HasShape r.items 20 m) }
{
    let end = scratch + 1;
    let turns = [
        FlatInstruction::Move {
            into: cursor,
            from: string.value,
        },
        FlatInstruction::Operate {
            op: RegOp::Add,
            into: end,
            left: string.value,
            right: RightOperand::Register(limit),
        },
        FlatInstruction::Load {
            op: LoadOp::Lbu,
            into: scratch,
            at: cursor,
            offset: 0,
        },
        FlatInstruction::Branch {
            op: BranchOp::Beq,
            left: scratch,
            right: RightOperand::Number(0),
            past: 5,
        },
        FlatInstruction::Operate {
            op: RegOp::Add,
            into: cursor,
            left: cursor,
            right: RightOperand::Number(1),
        },
        // the limit comes before the bound: what stands behind it is not looked at
        FlatInstruction::Branch {
            op: BranchOp::Beq,
            left: cursor,
            right: RightOperand::Register(end),
            past: 3,
        },
        FlatInstruction::Branch {
            op: BranchOp::Bne,
            left: cursor,
            right: RightOperand::Register(string.tag.bound),
            past: 1,
        },
        FlatInstruction::End(Ending::Spatial(line)),
        FlatInstruction::JumpBack { back: 6 },
    ];
    first_judged(alloc, string, line, scratch, &turns)
}

// The first byte of a string is judged, and then its turns begin.
fn first_judged(
    alloc: Global,
    string: Held,
    line: Line,
    scratch: u32,
    turns: &[FlatInstruction],
) -> Result<Vec<FlatInstruction>, AllocError>
    requires below { AreBelow scratch (held_registers string) }
    requires room { scratch + 8 ≤ 2 ^ 31 }
    ensures does { IfOk result (λ r. IsFirstJudged string line scratch turns.now r.items) }
    ensures shape { IfOk result (λ r. (k m : ℕ) → scratch + 2 ≤ m → HasShape turns.now k m
        → HasShape r.items (11 + k) m) }
{
    let size = [FlatInstruction::Constant {
        into: scratch,
        value: 1,
    }];
    let judging = judge(alloc, string, scratch, line, scratch + 1)?;
    let rest = joined(alloc, &judging, turns)?;
    joined(alloc, &size, &rest)
}
