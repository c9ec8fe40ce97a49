//! New values of scalars that are updated (C99 6.5.16.2, 6.5.3.1, 6.5.2.4), and updates of plain variables.

ghost use Rattle.std.specs.Prelude.{◌≡◌, ◌+◌, ◌<◌, ◌≤◌, ◌^◌, ◌++◌, ◌∷◌, [], OnOk};
ghost use Rattle.flat_code.specs.declared.instruction.FlatInstruction.TheVariants.{Move};
ghost use Rattle.shadow_space.specs.Form.{EntryCode};
ghost use Rattle.addr_map.specs.Places.{MapSizes};
ghost use Rattle.tac_ir.specs.Temporaries.{right_count};
ghost use Rattle.metadata_plan.specs.Registers.{most_temporaries};
ghost use Rattle.metadata_plan.specs.OperatorLists.Operators.{operators};
ghost use Rattle.c_tree.specs.declared.expression.Update.TheVariants.{Arithmetic};
ghost use Rattle.metadata_relation.specs.InlineLists.{inline_lists};
ghost use Rattle.metadata_relation.specs.Blocks.{given_register, new_address, new_integer, right_code, right_register};
ghost use Rattle.metadata_relation.specs.Blocks.{update_plain_code};
ghost use Rattle.instruction_selection.specs.Contexts.{HasRegisters};

use crate::context::FunctionContext;
use crate::entries::{held_from, put_entry_if, put_untagged};
use crate::list::put;
use c_tree::{Fixity, Update};
use flat_code::FlatInstruction;
use flat_operators::binary::{Registers, put_binary};
use flat_operators::conversion::put_conversion;
use flat_operators::pointers::{put_back, put_forward};
use obj_memory::{BinaryOperator, IntType, Scalar};
use sb_base::Line;
use std::alloc::AllocError;
use tac_ir::RightOperand;

// Puts the 1 of `++` and `--` into a register.
fn put_right(
    code: &mut Vec<FlatInstruction>,
    right: RightOperand,
    register: u32,
) -> Result<(), AllocError>
    ensures { OnOk result (code.new.items ≡ code.old.items ++ right_code right register) }
{
    match right {
        RightOperand::Temporary(_) => Ok(()),
        RightOperand::One => put(
            code,
            FlatInstruction::Constant {
                into: register,
                value: 1,
            },
        ),
    }
}

// The register of a right operand, which is the given one for a 1.
fn right_register(context: &FunctionContext, right: RightOperand, register: u32) -> u32
    requires registers { HasRegisters context.now }
    requires there { right_count right ≤ most_temporaries context.now.function.now.code }
    ensures { result ≡ right_register context.now.function.now right register }
{
    match right {
        RightOperand::Temporary(number) => context.temporary(number),
        RightOperand::One => register,
    }
}

// Which of the registers of the old value and the new one is given.
pub(crate) fn given_register(fixity: Fixity, old: u32, new: u32) -> u32
    ensures value { result ≡ given_register fixity old new }
{
    match fixity {
        Fixity::Prefix => new,
        Fixity::Postfix => old,
    }
}

/// How the new value of a scalar is made of the old one.
#[derive(Clone, Copy)]
pub struct Change {
    /// How.
    pub update: Update,
    /// The right operand.
    pub right: RightOperand,
    /// The line of the operator, which a report names.
    pub line: Line,
    /// The register that gets the new value.
    pub new: u32,
    /// The register of the old value.
    pub old: u32,
    /// The first register that is free.
    pub scratch: u32,
}

// An operator on integers of a type.
#[derive(Clone, Copy)]
struct Operation {
    operator: BinaryOperator,
    operands: IntType,
}

// Puts the new value of an integer by an operator on integers behind a list.
fn put_arithmetic(
    code: &mut Vec<FlatInstruction>,
    context: &FunctionContext,
    operation: Operation,
    int_type: IntType,
    change: Change,
) -> Result<(), AllocError>
    requires registers { HasRegisters context.now }
    requires right { right_count change.right ≤ most_temporaries context.now.function.now.code }
    requires room { change.scratch ≤ 2 ^ 31 }
    ensures { OnOk result (code.new.items ≡ code.old.items
        ++ new_integer operators context.now.function.now (Arithmetic operation.operator operation.operands) int_type
        change.line change.new change.old change.right change.scratch) }
{
    let Operation { operator, operands } = operation;
    let Change { new, scratch, .. } = change;
    put_conversion(code, operands, new, change.old)?;
    put_right(code, change.right, scratch)?;
    let registers = Registers {
        into: new,
        left: new,
        right: right_register(context, change.right, scratch),
        scratch: scratch + 1,
    };
    put_binary(code, operator, operands, change.line, registers)?;
    put_conversion(code, int_type, new, new)
}

/// Puts the new value of an integer behind a list, as its type has it: one by an operator on integers. It fails only
/// for want of memory.
pub fn put_integer(
    code: &mut Vec<FlatInstruction>,
    context: &FunctionContext,
    int_type: IntType,
    change: Change,
) -> Result<(), AllocError>
    requires registers { HasRegisters context.now }
    requires right { right_count change.right ≤ most_temporaries context.now.function.now.code }
    requires room { change.scratch ≤ 2 ^ 31 }
    ensures { OnOk result (code.new.items ≡ code.old.items
        ++ new_integer operators context.now.function.now change.update int_type
        change.line change.new change.old change.right change.scratch) }
{
    match change.update {
        Update::Arithmetic(operator, operands) => {
            let operation = Operation { operator, operands };
            put_arithmetic(code, context, operation, int_type, change)
        }
        Update::Forward(_) | Update::Back(_) => Ok(()),
    }
}

/// Puts the new address of a pointer behind a list: one that moves by elements. It fails only for want of memory.
pub fn put_address(
    code: &mut Vec<FlatInstruction>,
    context: &FunctionContext,
    change: Change,
) -> Result<(), AllocError>
    requires registers { HasRegisters context.now }
    requires right { right_count change.right ≤ most_temporaries context.now.function.now.code }
    requires room { change.scratch ≤ 2 ^ 31 }
    ensures { OnOk result ((read write : EntryCode) (map : MapSizes) → code.new.items ≡ code.old.items
        ++ new_address (inline_lists read write map) context.now.function.now change.update
        change.new change.old change.right change.scratch) }
{
    let registers = Registers {
        into: change.new,
        left: change.old,
        right: right_register(context, change.right, change.scratch),
        scratch: change.scratch + 1,
    };
    match change.update {
        Update::Forward(size) => {
            put_right(code, change.right, change.scratch)?;
            put_forward(code, size, registers)
        }
        Update::Back(size) => {
            put_right(code, change.right, change.scratch)?;
            put_back(code, size, registers)
        }
        Update::Arithmetic(_, _) => Ok(()),
    }
}

/// An update of a plain variable.
#[derive(Clone, Copy)]
pub struct PlainUpdate {
    /// How the new value is made.
    pub update: Update,
    /// Whether its value is the new or the old one.
    pub fixity: Fixity,
    /// The line of the operator, which a report names.
    pub line: Line,
    /// The register that gets its value.
    pub into: u32,
    /// The register of the variable.
    pub variable: u32,
    /// The right operand.
    pub right: RightOperand,
}

impl PlainUpdate {
    // The change of the variable's value, made in the first free register.
    fn change(&self, scratch: u32) -> Change
        requires { scratch ≤ 2 ^ 31 }
        ensures { result ≡ record {
          update = self.now.update;
          right = self.now.right;
          line = self.now.line;
          new = scratch;
          old = self.now.variable;
          scratch = scratch + 1;
        } }
    {
        Change {
            update: self.update,
            right: self.right,
            line: self.line,
            new: scratch,
            old: self.variable,
            scratch: scratch + 1,
        }
    }
}

// Puts what gives the value of an update, and what sets the variable, behind a list.
fn put_both(
    code: &mut Vec<FlatInstruction>,
    plain: &PlainUpdate,
    new: u32,
) -> Result<(), AllocError>
    ensures { OnOk result (code.new.items ≡ code.old.items
        ++ Move plain.now.into (given_register plain.now.fixity plain.now.variable new)
        ∷ Move plain.now.variable new ∷ []) }
{
    let from = given_register(plain.fixity, plain.variable, new);
    put(
        code,
        FlatInstruction::Move {
            into: plain.into,
            from,
        },
    )?;
    put(
        code,
        FlatInstruction::Move {
            into: plain.variable,
            from: new,
        },
    )
}

/// Puts an update of a plain variable behind a list. It fails only for want of memory.
pub fn put_plain_update(
    code: &mut Vec<FlatInstruction>,
    context: &FunctionContext,
    scalar: Scalar,
    plain: &PlainUpdate,
    with_entry: bool,
    scratch: u32,
) -> Result<(), AllocError>
    requires registers { HasRegisters context.now }
    requires right { right_count plain.now.right ≤ most_temporaries context.now.function.now.code }
    requires into { plain.now.into ≤ 2 ^ 31 }
    requires variable { plain.now.variable ≤ 2 ^ 31 }
    requires room { scratch < 2 ^ 31 }
    ensures { OnOk result ((read write : EntryCode) (map : MapSizes) → code.new.items ≡ code.old.items
        ++ update_plain_code (inline_lists read write map) context.now.function.now plain.now.update scalar plain.now.fixity
        plain.now.line with_entry plain.now.into plain.now.variable plain.now.right scratch) }
{
    match scalar {
        Scalar::Integer(int_type) => {
            put_integer(code, context, int_type, plain.change(scratch))?;
            put_both(code, plain, scratch)?;
            put_untagged(code, with_entry, plain.into)
        }
        Scalar::Pointer => {
            put_address(code, context, plain.change(scratch))?;
            put_both(code, plain, scratch)?;
            let from = held_from(plain.variable).tag;
            put_entry_if(code, with_entry, held_from(plain.into).tag, from)
        }
    }
}
