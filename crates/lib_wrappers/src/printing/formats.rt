//! `printf`.

ghost use Rattle.std.specs.Prelude.{◌≡◌, ℕ, ◌+◌, ◌*◌, ◌≤◌, ◌<◌, ◌^◌, ◌++◌, IfOk, OnOk, List};
ghost use Rattle.std.specs.Prelude.{[], ◌∷◌, Some, length};
ghost use Rattle.addr_map.specs.Places.{AreMapped};
ghost use Rattle.c_tree.specs.Format.{pieces};
ghost use Rattle.source_meaning.specs.Printing.{print_formatted};
ghost use Rattle.flat_actions.specs.Actions.{IsAction, Word, runtime_basis};
ghost use Rattle.lib_wrappers.specs.PrintingRoutines.Formats.{byte_code, count_string};
ghost use Rattle.lib_wrappers.specs.PrintingRoutines.Printed.{pieces_of, holders_of, argument_count, ArePrintable};
ghost use Rattle.lib_wrappers.specs.PrintingRoutines.Printed.{ScanThese};
ghost use Rattle.lib_wrappers.specs.PrintingRoutines.Printed.{PutThese, ScansNext, PutsNext, index_after};

use crate::printing::numbers::number;
use crate::strings::{put_bytes, scan};
use addr_map::AddrMap;
use c_tree::Directive;
use flat_actions::joined;
use flat_code::{FlatInstruction, Held, RightOperand};
use rv_isa::{RegOp, RegOp32};
use sb_base::Line;
use shadow_space::ShadowForm;
use std::alloc::{AllocError, Global};

/// A piece of a format, with the registers that hold the argument of its directive.
#[derive(Clone, Copy)]
pub enum Printed {
    /// A byte that is put as it stands.
    Byte(u8),
    /// The argument of a directive other than `%s`.
    Number(Directive, u32),
    /// The string of a `%s`.
    String(Held),
}

// The number of the argument behind a piece, of which this is the number of the next argument.
fn index_after(piece: &Printed, index: u32) -> u32
    requires { index < 2 ^ 31 }
    ensures { result ≡ index_after piece.now index }
{
    match piece {
        Printed::Byte(_) => index,
        Printed::Number(..) | Printed::String(_) => index + 1,
    }
}

// The registers of a call of `printf`: the one that counts bytes, behind which the ends of strings come, and the first
// of those that the parts may use.
#[derive(Clone, Copy)]
struct PrintRegisters {
    count: u32,
    own: u32,
}

// Puts the scan of a piece that is a string, whose end comes to the register `count + 1 + index`.
fn put_scan<S: ShadowForm>(
    code: &mut Vec<FlatInstruction>,
    alloc: Global,
    map: &AddrMap,
    piece: &Printed,
    index: u32,
    line: Line,
    registers: PrintRegisters,
) -> Result<(), AllocError>
    requires map { AreMapped map.now }
    requires printable { ArePrintable registers.count (piece.now ∷ []) }
    requires cursor { registers.count + 1 + index + argument_count (piece.now ∷ []) ≤ registers.own }
    requires room { registers.own ≤ 2 ^ 30 }
    ensures { OnOk result (ScansNext (runtime_basis map.now S.entry (S.IsGood map.now)) line registers.count
        registers.own piece.now index code.old.items code.new.items) }
{
    if let Printed::String(string) = piece {
        let scanned = scan::<S>(
            alloc,
            map,
            *string,
            registers.count + 1 + index,
            line,
            registers.own,
        )?;
        code.extend_from_slice(&scanned)?;
    }
    Ok(())
}

// The scans of all strings.
fn scans<S: ShadowForm>(
    alloc: Global,
    map: &AddrMap,
    printed: &[Printed],
    line: Line,
    scratch: u32,
    own: u32,
) -> Result<Vec<FlatInstruction>, AllocError>
    requires map { AreMapped map.now }
    requires printable { ArePrintable scratch printed.now }
    requires cursors { scratch + 1 + argument_count printed.now ≤ own }
    requires room { own ≤ 2 ^ 30 }
    ensures { IfOk result (λ r. ScanThese (runtime_basis map.now S.entry (S.IsGood map.now)) line scratch own
        printed.now 0 r.items) }
{
    let mut code = Vec::new(alloc);
    let mut index = 0;
    for piece in printed {
        let registers = PrintRegisters {
            count: scratch,
            own,
        };
        put_scan::<S>(&mut code, alloc, map, piece, index, line, registers)?;
        index = index_after(piece, index);
    }
    Ok(code)
}

// The instructions that put a byte out.
fn byte_instructions(
    alloc: Global,
    byte: u8,
    count: u32,
    own: u32,
) -> Result<Vec<FlatInstruction>, AllocError>
    ensures { IfOk result (λ r. r.items ≡ byte_code byte count own) }
{
    let code = [
        FlatInstruction::Constant {
            into: own,
            value: byte as u64,
        },
        FlatInstruction::Put { from: own },
        FlatInstruction::Operate {
            op: RegOp::Add,
            into: count,
            left: count,
            right: RightOperand::Number(1),
        },
    ];
    Vec::from_slice(alloc, &code)
}

// The instructions that count the bytes of a string.
fn count_instructions(
    alloc: Global,
    string: Held,
    cursor: u32,
    count: u32,
    own: u32,
) -> Result<Vec<FlatInstruction>, AllocError>
    ensures { IfOk result (λ r. r.items ≡ count_string string cursor count own) }
{
    let code = [
        FlatInstruction::Operate {
            op: RegOp::Sub,
            into: own,
            left: cursor,
            right: RightOperand::Register(string.value),
        },
        FlatInstruction::Operate {
            op: RegOp::Add,
            into: count,
            left: count,
            right: RightOperand::Register(own),
        },
    ];
    Vec::from_slice(alloc, &code)
}

// Puts the instructions that put a byte out.
fn put_byte(
    code: &mut Vec<FlatInstruction>,
    alloc: Global,
    byte: u8,
    count: u32,
    own: u32,
) -> Result<(), AllocError>
    ensures { OnOk result (code.new.items ≡ code.old.items ++ byte_code byte count own) }
{
    let part = byte_instructions(alloc, byte, count, own)?;
    code.extend_from_slice(&part)?;
    Ok(())
}

// Puts a piece out, whose end, where it is a string, is in the register `scratch + 1 + index`.
fn put_piece(
    code: &mut Vec<FlatInstruction>,
    alloc: Global,
    map: &AddrMap,
    piece: &Printed,
    index: u32,
    scratch: u32,
    own: u32,
) -> Result<(), AllocError>
    requires printable { ArePrintable scratch (piece.now ∷ []) }
    requires cursor { scratch + 1 + index + argument_count (piece.now ∷ []) ≤ own }
    requires room { own ≤ 2 ^ 29 }
    ensures { OnOk result (PutsNext map.now scratch own piece.now index code.old.items code.new.items) }
{
    match piece {
        Printed::Byte(byte) => put_byte(code, alloc, *byte, scratch, own)?,
        Printed::Number(directive, value) => {
            let part = number(alloc, map, *directive, *value, scratch, own)?;
            code.extend_from_slice(&part)?;
        }
        Printed::String(string) => {
            let cursor = scratch + 1 + index;
            let put = put_bytes(alloc, map, string.value, cursor, own)?;
            let count = count_instructions(alloc, *string, cursor, scratch, own)?;
            let part = joined(alloc, &put, &count)?;
            code.extend_from_slice(&part)?;
        }
    }
    Ok(())
}

// All pieces put out.
fn puts(
    alloc: Global,
    map: &AddrMap,
    printed: &[Printed],
    scratch: u32,
    own: u32,
) -> Result<Vec<FlatInstruction>, AllocError>
    requires printable { ArePrintable scratch printed.now }
    requires cursors { scratch + 1 + argument_count printed.now ≤ own }
    requires room { own ≤ 2 ^ 29 }
    ensures { IfOk result (λ r. PutThese map.now scratch own printed.now 0 r.items) }
{
    let mut code = Vec::new(alloc);
    let mut index = 0;
    for piece in printed {
        put_piece(&mut code, alloc, map, piece, index, scratch, own)?;
        index = index_after(piece, index);
    }
    Ok(code)
}

/// `printf` of a format with these pieces, at a line, in a function of the runtime: `into` gets the number of bytes put
/// out, converted to int. It may write the registers from `scratch` on. The only refusal is that memory fails.
pub fn printf<S: ShadowForm>(
    alloc: Global,
    map: &AddrMap,
    printed: &[Printed],
    into: u32,
    line: Line,
    scratch: u32,
) -> Result<Vec<FlatInstruction>, AllocError>
    requires map { AreMapped map.now }
    requires printable { ArePrintable scratch printed.now }
    requires result { into < scratch }
    requires room { scratch + 1 + length printed.now ≤ 2 ^ 29 }
    ensures { IfOk result (λ r. (format : List ℕ) → pieces format ≡ Some (pieces_of printed.now)
        → IsAction (runtime_basis map.now S.entry (S.IsGood map.now)) (λ vs. print_formatted format vs line)
        (holders_of printed.now) (Word into) scratch (4 + 32 * length printed.now) 16 r.items) }
{
    let own = scratch + 1 + printed.len() as u32;
    let scanning = scans::<S>(alloc, map, printed, line, scratch, own)?;
    let putting = puts(alloc, map, printed, scratch, own)?;
    let start = [FlatInstruction::Constant {
        into: scratch,
        value: 0,
    }];
    let end = [FlatInstruction::Operate32 {
        op: RegOp32::Addw,
        into,
        left: scratch,
        right: RightOperand::Number(0),
    }];
    let tail = joined(alloc, &putting, &end)?;
    let rest = joined(alloc, &start, &tail)?;
    joined(alloc, &scanning, &rest)
}
