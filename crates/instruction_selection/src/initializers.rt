//! Parts of initializers (C99 6.7.8).

ghost use Rattle.std.specs.Prelude.{◌≡◌, ◌+◌, ◌<◌, ◌≤◌, ◌++◌, ◌∷◌, [], OnOk};
ghost use Rattle.sb_base.specs.declared.ending.Ending.TheVariants.{Abort};
ghost use Rattle.flat_code.specs.declared.instruction.FlatInstruction.TheVariants.{End};
ghost use Rattle.metadata_relation.specs.InlineLists.{inline_lists};
ghost use Rattle.tac_ir.specs.Meaning.{text_in};
ghost use Rattle.metadata_relation.specs.Blocks.{part_address, held_scalar, store_bytes, runtime_number};
ghost use Rattle.metadata_relation.specs.Structures.{put_code};
ghost use Rattle.metadata_plan.specs.OperatorLists.Operators.{operators};
ghost use Rattle.metadata_relation.specs.Registers.{first_free};
ghost use Rattle.lib_wrappers.specs.AccessRoutines.Accessing.{store_code};
ghost use Rattle.instruction_selection.specs.Contexts.{HasRegisters, IsPrepared};
ghost use Rattle.instruction_selection.specs.Selected.{part_code};

use crate::accesses::{held_scalar, put_store};
use crate::context::FunctionContext;
use crate::list::put;
use crate::pointers::put_member_address;
use crate::structures::put_moved;
use c_tree::Kind;
use flat_code::{FlatInstruction, RightOperand};
use obj_memory::Scalar;
use rv_isa::{RegOp, StoreOp};
use sb_base::{Ending, Line};
use shadow_space::ShadowForm;
use std::alloc::AllocError;
use tac_ir::Tac;

// Puts a scalar stored in the object of a variable, so many bytes from its beginning, behind a list.
#[tactic(auto, using(crate::proofs::Operands::scalar_below))]
fn put_scalar_part<S: ShadowForm>(
    code: &mut Vec<FlatInstruction>,
    context: &FunctionContext,
    scalar: Scalar,
    variable: usize,
    offset: u64,
    from: u32,
) -> Result<(), AllocError>
    requires registers { HasRegisters context.now }
    requires from { from + 5 ≤ context.now.registers.now.free }
    ensures { OnOk result (code.new.items ≡ code.old.items
        ++ (part_address operators context.now.function.now variable offset (first_free context.now.function.now)
        ++ store_code S.entry_write context.now.map.now (first_free context.now.function.now) (held_scalar scalar from)
        (first_free context.now.function.now + 1))) }
{
    let free = context.free();
    let home = context.home(variable);
    put_member_address(code, offset, free, home, free)?;
    let held = held_scalar(scalar, from);
    put_store::<S>(code, context, free, held, free + 1)
}

// Puts a structure moved into the object of a variable, so many bytes from its beginning, behind a list.
fn put_structure_part(
    code: &mut Vec<FlatInstruction>,
    context: &FunctionContext,
    size: u64,
    has_area: bool,
    variable: usize,
    offset: u64,
    from: u32,
) -> Result<(), AllocError>
    requires prepared { IsPrepared context.now }
    requires from { from + 5 ≤ context.now.registers.now.free }
    ensures { OnOk result (code.new.items ≡ code.old.items
        ++ (part_address operators context.now.function.now variable offset (first_free context.now.function.now)
        ++ put_code operators (runtime_number context.now.program.now) has_area from size
        (first_free context.now.function.now))) }
{
    let free = context.free();
    let home = context.home(variable);
    put_member_address(code, offset, free, home, free)?;
    put_moved(code, context, has_area, from, size, free)
}

/// Puts a value of a kind stored in the object of a variable, so many bytes from its beginning, behind a list, where it
/// is a scalar or a structure, whose temporary may have an area; else the run ends. It fails only for want of memory.
pub fn put_part<S: ShadowForm>(
    code: &mut Vec<FlatInstruction>,
    context: &FunctionContext,
    kind: Kind,
    has_area: bool,
    variable: usize,
    offset: u64,
    from: u32,
) -> Result<(), AllocError>
    requires prepared { IsPrepared context.now }
    requires from { from + 5 ≤ context.now.registers.now.free }
    ensures { OnOk result (code.new.items ≡ code.old.items
        ++ part_code (inline_lists S.entry_read S.entry_write context.now.map.now) context.now.program.now
        context.now.function.now kind has_area variable offset from) }
{
    match kind {
        Kind::Scalar(scalar) => {
            put_scalar_part::<S>(code, context, scalar, variable, offset, from)
        }
        Kind::Structure(size) => {
            put_structure_part(code, context, size, has_area, variable, offset, from)
        }
        Kind::Void | Kind::Array(_) => {
            put(code, FlatInstruction::End(Ending::Abort(Line::first())))
        }
    }
}

// Puts what stores bytes one by one from an address in a register on behind a list.
fn put_bytes(
    code: &mut Vec<FlatInstruction>,
    bytes: &[u8],
    address: u32,
    register: u32,
) -> Result<(), AllocError>
    ensures { OnOk result (code.new.items ≡ code.old.items ++ store_bytes bytes.now address register) }
{
    for byte in bytes {
        put(
            code,
            FlatInstruction::Constant {
                into: register,
                value: *byte as u64,
            },
        )?;
        put(
            code,
            FlatInstruction::Store {
                op: StoreOp::Sb,
                at: address,
                offset: 0,
                from: register,
            },
        )?;
        put(
            code,
            FlatInstruction::Operate {
                op: RegOp::Add,
                into: address,
                left: address,
                right: RightOperand::Number(1),
            },
        )?;
    }
    Ok(())
}

/// The bytes of a text, by its number.
pub fn text_of(program: &Tac, number: usize) -> &[u8]
    ensures { result.now ≡ text_in program.now number }
{
    match program.texts.as_slice().get(number) {
        Some(text) => text.as_slice(),
        None => &[],
    }
}

/// Puts what stores the bytes of a text in the object of a variable, so many bytes from its beginning, behind a list.
/// It fails only for want of memory.
pub fn put_text(
    code: &mut Vec<FlatInstruction>,
    context: &FunctionContext,
    text: usize,
    variable: usize,
    offset: u64,
) -> Result<(), AllocError>
    requires { HasRegisters context.now }
    ensures { OnOk result (code.new.items ≡ code.old.items
        ++ (part_address operators context.now.function.now variable offset (first_free context.now.function.now)
        ++ store_bytes (text_in context.now.program.now text) (first_free context.now.function.now)
        (first_free context.now.function.now + 1))) }
{
    let free = context.free();
    let home = context.home(variable);
    put_member_address(code, offset, free, home, free)?;
    put_bytes(code, text_of(context.program, text), free, free + 1)
}
