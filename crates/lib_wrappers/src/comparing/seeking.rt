//! `strchr`.

ghost use Rattle.std.specs.Prelude.{◌≡◌, ◌+◌, ◌≤◌, ◌^◌, IfOk, ◌∷◌};
ghost use Rattle.addr_map.specs.Places.{AreMapped};
ghost use Rattle.flat_code.specs.Routines.Shape.{HasShape};
ghost use Rattle.flat_code.specs.Routines.Registers.{AreNoneOf, AreDistinct, AreBelow};
ghost use Rattle.flat_code.specs.Routines.Metadata.{held_registers};
ghost use Rattle.lib_wrappers.specs.ComparingRoutines.Seeking.{IsStrchr, strchr_code, seek_start, seek_loop, null_code};
ghost use Rattle.lib_wrappers.specs.ComparingRoutines.Seeking.{same_entry_code};
ghost use Rattle.flat_actions.specs.Actions.{runtime_basis};

use addr_map::AddrMap;
use flat_actions::judge_instructions;
use flat_code::{Entry, FlatInstruction, Held, RightOperand};
use rv_isa::{BranchOp, LoadOp, RegOp};
use sb_base::{Ending, Line};
use shadow_space::ShadowForm;
use std::alloc::{AllocError, Global};

/// `strchr`: gives in `into` the pointer to the first byte of the string in `string` that is the low one of `byte`, or
/// null with no metadata where there is none before the string ends. The run ends with a violation at `line` just where
/// a byte that is looked at is refused. It may write the registers from `scratch` on. The only refusal is that memory
/// fails.
pub fn strchr<S: ShadowForm>(
    alloc: Global,
    map: &AddrMap,
    string: Held,
    byte: u32,
    into: Held,
    line: Line,
    scratch: u32,
) -> Result<Vec<FlatInstruction>, AllocError>
    requires map { AreMapped map.now }
    requires apart { AreNoneOf (byte ∷ held_registers string) (held_registers into) }
    requires distinct { AreDistinct (held_registers into) }
    requires below { AreBelow scratch (byte ∷ held_registers string) }
    requires results { AreBelow scratch (held_registers into) }
    requires room { scratch ≤ 2 ^ 31 }
    ensures does { IfOk result (λ r. IsStrchr (runtime_basis map.now S.entry (S.IsGood map.now)) string byte into line
        scratch r.items) }
    ensures shape { IfOk result (λ r. HasShape r.items 48 (scratch + 2)) }
{
    strchr_instructions(alloc, string, byte, into, line, scratch)
}

fn strchr_instructions(
    alloc: Global,
    string: Held,
    byte: u32,
    into: Held,
    line: Line,
    scratch: u32,
) -> Result<Vec<FlatInstruction>, AllocError>
    requires { scratch ≤ 2 ^ 31 }
    ensures { IfOk result (λ r. r.items ≡ strchr_code string byte into line scratch (scratch + 1)) }
{
    let sought = scratch + 1;
    let one = [FlatInstruction::Constant {
        into: scratch,
        value: 1,
    }];
    let judge = judge_instructions(alloc, string, scratch, line, sought)?;
    let start = start_instructions(alloc, string, into, byte, sought)?;
    let turns = loop_instructions(alloc, into.value, string.tag.bound, line, scratch, sought)?;
    let null = null_instructions(alloc, into)?;
    let same = entry_instructions(alloc, string.tag, into.tag)?;
    let mut code = Vec::from_slice(alloc, &one)?;
    code.extend_from_slice(&judge)?;
    code.extend_from_slice(&start)?;
    code.extend_from_slice(&turns)?;
    code.extend_from_slice(&null)?;
    code.extend_from_slice(&same)?;
    Ok(code)
}

// The byte that is sought is the low one: both shifts take the others away.
fn start_instructions(
    alloc: Global,
    string: Held,
    into: Held,
    byte: u32,
    sought: u32,
) -> Result<Vec<FlatInstruction>, AllocError>
    ensures { IfOk result (λ r. r.items ≡ seek_start string into byte sought) }
{
    let code = [
        FlatInstruction::Operate {
            op: RegOp::Sll,
            into: sought,
            left: byte,
            right: RightOperand::Number(56),
        },
        FlatInstruction::Operate {
            op: RegOp::Srl,
            into: sought,
            left: sought,
            right: RightOperand::Number(56),
        },
        FlatInstruction::Move {
            into: into.value,
            from: string.value,
        },
    ];
    Vec::from_slice(alloc, &code)
}

fn loop_instructions(
    alloc: Global,
    cursor: u32,
    bound: u32,
    line: Line,
    byte: u32,
    sought: u32,
) -> Result<Vec<FlatInstruction>, AllocError>
    ensures { IfOk result (λ r. r.items ≡ seek_loop cursor bound line byte sought) }
{
    let code = [
        FlatInstruction::Load {
            op: LoadOp::Lbu,
            into: byte,
            at: cursor,
            offset: 0,
        },
        FlatInstruction::Branch {
            op: BranchOp::Beq,
            left: byte,
            right: RightOperand::Register(sought),
            past: 11,
        },
        FlatInstruction::Branch {
            op: BranchOp::Beq,
            left: byte,
            right: RightOperand::Number(0),
            past: 4,
        },
        FlatInstruction::Operate {
            op: RegOp::Add,
            into: cursor,
            left: cursor,
            right: RightOperand::Number(1),
        },
        // the object lives, and so each byte before the bound may be looked at
        FlatInstruction::Branch {
            op: BranchOp::Bne,
            left: cursor,
            right: RightOperand::Register(bound),
            past: 1,
        },
        FlatInstruction::End(Ending::Spatial(line)),
        FlatInstruction::JumpBack { back: 6 },
    ];
    Vec::from_slice(alloc, &code)
}

fn null_instructions(alloc: Global, into: Held) -> Result<Vec<FlatInstruction>, AllocError>
    ensures { IfOk result (λ r. r.items ≡ null_code into) }
{
    let code = [
        FlatInstruction::Constant {
            into: into.value,
            value: 0,
        },
        FlatInstruction::Constant {
            into: into.tag.base,
            value: 0,
        },
        FlatInstruction::Constant {
            into: into.tag.bound,
            value: 0,
        },
        FlatInstruction::Constant {
            into: into.tag.key,
            value: 0,
        },
        FlatInstruction::Constant {
            into: into.tag.lock,
            value: 0,
        },
        FlatInstruction::JumpForward { past: 4 },
    ];
    Vec::from_slice(alloc, &code)
}

fn entry_instructions(
    alloc: Global,
    from: Entry,
    into: Entry,
) -> Result<Vec<FlatInstruction>, AllocError>
    ensures { IfOk result (λ r. r.items ≡ same_entry_code from into) }
{
    let code = [
        FlatInstruction::Move {
            into: into.base,
            from: from.base,
        },
        FlatInstruction::Move {
            into: into.bound,
            from: from.bound,
        },
        FlatInstruction::Move {
            into: into.key,
            from: from.key,
        },
        FlatInstruction::Move {
            into: into.lock,
            from: from.lock,
        },
    ];
    Vec::from_slice(alloc, &code)
}
