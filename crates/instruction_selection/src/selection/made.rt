//! Zeros, and the contents of structures that are taken as arguments and results (C99 6.5.2.2, 6.8.6.4, 6.9.1).

ghost use Rattle.std.specs.Prelude.{◌≡◌, ◌+◌, ◌<◌, ◌≤◌, ◌^◌, ◌++◌, ◌∷◌, [], true, OnOk};
ghost use Rattle.shadow_space.specs.Form.{EntryCode};
ghost use Rattle.flat_code.specs.declared.instruction.FlatInstruction.TheVariants.{End};
ghost use Rattle.sb_base.specs.declared.ending.Ending.TheVariants.{Abort};
ghost use Rattle.metadata_plan.specs.Registers.{most_temporaries};
ghost use Rattle.metadata_relation.specs.InlineLists.{inline_lists};
ghost use Rattle.metadata_relation.specs.Registers.{temporary_register};
ghost use Rattle.instruction_selection.specs.Contexts.{IsPrepared};
ghost use Rattle.metadata_expansion.specs.Areas.{bytes_of_structure};
ghost use Rattle.instruction_selection.specs.Registers.{IsAmong};
ghost use Rattle.instruction_selection.specs.Selected.{is_made, selected, take_code, zero_of_code};

use crate::contents::{AreaValue, put_take, put_zero_structure};
use crate::context::FunctionContext;
use crate::entries::put_untagged;
use crate::list::put;
use c_tree::Kind;
use flat_code::FlatInstruction;
use sb_base::{Ending, Line};
use std::alloc::AllocError;
use tac_ir::Instruction;

// Puts a 0 of a kind in a temporary behind a list.
fn put_zero(
    code: &mut Vec<FlatInstruction>,
    context: &FunctionContext,
    kind: Kind,
    with_entry: bool,
    temporary: usize,
) -> Result<(), AllocError>
    requires prepared { IsPrepared context.now }
    requires there { temporary < most_temporaries context.now.function.now.code }
    requires size { bytes_of_structure kind ≤ 2 ^ 62 }
    ensures { OnOk result ((read write : EntryCode) → code.new.items ≡ code.old.items
        ++ zero_of_code (inline_lists read write context.now.map.now) context.now.map.now context.now.program.now
        context.now.function.now kind with_entry temporary (temporary_register context.now.function.now temporary)) }
{
    let into = context.temporary(temporary);
    let free = context.free();
    match kind {
        Kind::Structure(size) => {
            let value = AreaValue {
                temporary,
                size,
                with_entry,
            };
            put_zero_structure(code, context, value, into, free)
        }
        Kind::Void | Kind::Scalar(_) | Kind::Array(_) => {
            put(code, FlatInstruction::Constant { into, value: 0 })?;
            put_untagged(code, with_entry, into)
        }
    }
}

// Puts the contents of a structure taken to a temporary behind a list.
fn put_taken(
    code: &mut Vec<FlatInstruction>,
    context: &FunctionContext,
    kind: Kind,
    with_entry: bool,
    temporary: usize,
    from: usize,
) -> Result<(), AllocError>
    requires prepared { IsPrepared context.now }
    requires there { temporary < most_temporaries context.now.function.now.code }
    requires from { from < most_temporaries context.now.function.now.code }
    requires size { bytes_of_structure kind ≤ 2 ^ 62 }
    ensures { OnOk result ((read write : EntryCode) → code.new.items ≡ code.old.items
        ++ take_code (inline_lists read write context.now.map.now) context.now.map.now context.now.program.now
        context.now.function.now kind with_entry temporary (temporary_register context.now.function.now temporary)
        (temporary_register context.now.function.now from)) }
{
    let into = context.temporary(temporary);
    let from = context.temporary(from);
    let free = context.free();
    match kind {
        Kind::Structure(size) => {
            let value = AreaValue {
                temporary,
                size,
                with_entry,
            };
            put_take(code, context, value, into, from, free)
        }
        Kind::Void | Kind::Scalar(_) | Kind::Array(_) => {
            put(code, FlatInstruction::End(Ending::Abort(Line::first())))
        }
    }
}

/// Puts the code of a zero, or of a structure that is taken, behind a list. It fails only for want of memory.
pub fn put_made(
    code: &mut Vec<FlatInstruction>,
    context: &FunctionContext,
    instruction: &Instruction,
    with_entry: bool,
) -> Result<(), AllocError>
    requires prepared { IsPrepared context.now }
    requires among { IsAmong context.now.program.now context.now.function.now instruction.now }
    ensures { OnOk result ((read write : EntryCode) → is_made instruction.now ≡ true → code.new.items ≡ code.old.items
        ++ selected read write context.now with_entry instruction.now) }
{
    match instruction {
        Instruction::ZeroOf { kind, to, .. } => put_zero(code, context, *kind, with_entry, *to),
        Instruction::Take { kind, to, from, .. } => {
            put_taken(code, context, *kind, with_entry, *to, *from)
        }
        _ => Ok(()),
    }
}
