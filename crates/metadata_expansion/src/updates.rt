//! Updates of plain variables (C99 6.5.16.2, 6.5.3.1, 6.5.2.4).

ghost use Rattle.std.specs.Prelude.{◌≡◌, ◌+◌, ◌<◌, ◌≤◌, ◌^◌, ◌++◌, OnOk};
ghost use Rattle.obj_memory.specs.declared.value.Scalar.TheVariants.{Integer};
ghost use Rattle.c_tree.specs.declared.expression.Update.TheVariants.{Arithmetic};
ghost use Rattle.tac_ir.specs.Temporaries.{right_count};
ghost use Rattle.metadata_plan.specs.Registers.{most_temporaries};
ghost use Rattle.metadata_plan.specs.Blocks.{kept_by, right_code, right_register, update_code};
ghost use Rattle.metadata_expansion.specs.Contexts.{HasRegisters};
ghost use Rattle.metadata_plan.specs.OperatorLists.Operators.{operators};

use crate::context::FunctionContext;
use crate::list::put;
use c_tree::{Fixity, Update};
use flat_code::FlatInstruction;
use flat_operators::binary;
use flat_operators::binary::put_binary;
use flat_operators::conversion::put_conversion;
use obj_memory::{BinaryOperator, IntType, Scalar};
use sb_base::Line;
use std::alloc::AllocError;
use tac_ir::RightOperand;

// Puts the 1 of `++` and `--` into a register.
fn put_right(
    code: &mut Vec<FlatInstruction>,
    right: RightOperand,
    register: u32,
) -> Result<(), AllocError>
    ensures { OnOk result (code.new.items ≡ code.old.items ++ right_code right register) }
{
    match right {
        RightOperand::Temporary(_) => Ok(()),
        RightOperand::One => put(
            code,
            FlatInstruction::Constant {
                into: register,
                value: 1,
            },
        ),
    }
}

// The register of a right operand, which is the given one for a 1.
fn right_register(context: &FunctionContext, right: RightOperand, register: u32) -> u32
    requires registers { HasRegisters context.now }
    requires there { right_count right ≤ most_temporaries context.now.function.now.code }
    ensures { result ≡ right_register context.now.function.now right register }
{
    match right {
        RightOperand::Temporary(number) => context.temporary(number),
        RightOperand::One => register,
    }
}

// Puts what keeps a new value in the variable, and the old or the new one in the result.
fn put_kept(
    code: &mut Vec<FlatInstruction>,
    fixity: Fixity,
    int_type: IntType,
    variable: u32,
    into: u32,
    new: u32,
    scratch: u32,
) -> Result<(), AllocError>
    ensures { OnOk result (code.new.items ≡ code.old.items
        ++ kept_by operators fixity int_type variable into new scratch) }
{
    let moved = FlatInstruction::Move {
        into,
        from: variable,
    };
    match fixity {
        Fixity::Prefix => {
            put_conversion(code, int_type, variable, new)?;
            put(code, moved)
        }
        Fixity::Postfix => {
            put(code, moved)?;
            put_conversion(code, int_type, variable, new)
        }
    }
}

// An operator on integers of a type.
#[derive(Clone, Copy)]
struct Operation {
    operator: BinaryOperator,
    operands: IntType,
}

/// An update of a plain variable, all but its operator and the variable's type.
#[derive(Clone, Copy)]
pub struct PlainUpdate {
    /// Whether its value is the new or the old one.
    pub fixity: Fixity,
    /// The line of the operator, which a report names.
    pub line: Line,
    /// The temporary that gets its value.
    pub to: usize,
    /// The variable, by number.
    pub variable: usize,
    /// The right operand.
    pub right: RightOperand,
}

// Puts an update of a plain variable of an integer type by an operator on integers.
fn put_arithmetic(
    code: &mut Vec<FlatInstruction>,
    context: &FunctionContext,
    operation: Operation,
    int_type: IntType,
    plain: PlainUpdate,
) -> Result<(), AllocError>
    requires registers { HasRegisters context.now }
    requires into { plain.to < most_temporaries context.now.function.now.code }
    requires right { right_count plain.right ≤ most_temporaries context.now.function.now.code }
    ensures { OnOk result (code.new.items ≡ code.old.items
        ++ update_code operators context.now.function.now (Arithmetic operation.operator operation.operands)
        (Integer int_type) plain.fixity plain.line plain.to plain.variable plain.right) }
{
    let Operation { operator, operands } = operation;
    let scratch = context.registers.free;
    let from = context.variable(plain.variable);
    let into = context.temporary(plain.to);
    put_conversion(code, operands, scratch, from)?;
    put_right(code, plain.right, scratch + 1)?;
    let registers = binary::Registers {
        into: scratch,
        left: scratch,
        right: right_register(context, plain.right, scratch + 1),
        scratch: scratch + 2,
    };
    put_binary(code, operator, operands, plain.line, registers)?;
    put_kept(
        code,
        plain.fixity,
        int_type,
        from,
        into,
        scratch,
        scratch + 2,
    )
}

/// Puts an update of a plain variable behind a list: one by an operator on integers, of a variable of an integer type.
pub fn put_update(
    code: &mut Vec<FlatInstruction>,
    context: &FunctionContext,
    update: Update,
    scalar: Scalar,
    plain: PlainUpdate,
) -> Result<(), AllocError>
    requires registers { HasRegisters context.now }
    requires into { plain.to < most_temporaries context.now.function.now.code }
    requires right { right_count plain.right ≤ most_temporaries context.now.function.now.code }
    ensures { OnOk result (code.new.items ≡ code.old.items
        ++ update_code operators context.now.function.now update scalar
        plain.fixity plain.line plain.to plain.variable plain.right) }
{
    match (update, scalar) {
        (Update::Arithmetic(operator, operands), Scalar::Integer(int_type)) => {
            let operation = Operation { operator, operands };
            put_arithmetic(code, context, operation, int_type, plain)
        }
        (Update::Forward(_) | Update::Back(_), _) | (_, Scalar::Pointer) => Ok(()),
    }
}
