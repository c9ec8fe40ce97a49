//! Where functions begin and return (C99 6.2.4 paragraph 5, 6.8.6.4, 6.9.1).

ghost use Rattle.std.specs.Prelude.{◌≡◌, ◌+◌, ◌<◌, ◌≤◌, ◌^◌, ◌++◌, ◌∷◌, [], Bool, OnOk, length, true, Some, slice_get};
ghost use Rattle.std.specs.Prelude.{if◌then◌else◌};
ghost use Rattle.flat_code.specs.declared.instruction.FlatInstruction.TheVariants.{Return};
ghost use Rattle.metadata_plan.specs.Registers.{most_temporaries};
ghost use Rattle.metadata_plan.specs.OperatorLists.Operators.{operators};
ghost use Rattle.metadata_relation.specs.InlineLists.{inline_lists};
ghost use Rattle.metadata_relation.specs.Registers.{first_free, parameters_end, temporary_register};
ghost use Rattle.metadata_relation.specs.Registers.{total, variable_words};
ghost use Rattle.metadata_relation.specs.Blocks.{enter_body, leave_code, objects_of_body, prologue, store_parameter};
ghost use Rattle.metadata_relation.specs.Blocks.{store_parameters, zero_variables, zeros};
ghost use Rattle.source_meaning.specs.Blocks.{has_objects};
ghost use Rattle.instruction_selection.specs.Contexts.{HasRegisters, IsPrepared};
ghost use Rattle.instruction_selection.specs.Selected.{expansion_of};

use crate::accesses::{held_scalar, put_store};
use crate::blocks::{has_objects, put_enter, put_leave};
use crate::calls::body_objects;
use crate::context::FunctionContext;
use crate::list::put;
use crate::structures::put_store_structure;
use c_tree::{Kind, Variable};
use flat_code::FlatInstruction;
use sb_base::{Ending, Line};
use shadow_space::ShadowForm;
use std::alloc::AllocError;

// Puts what makes so many registers 0 behind a list.
fn put_zeros(code: &mut Vec<FlatInstruction>, register: u32, count: u32) -> Result<(), AllocError>
    requires { register + count < 2 ^ 32 }
    ensures { OnOk result (code.new.items ≡ code.old.items ++ zeros register count) }
{
    for i in 0..count {
        let into = register + i;
        put(code, FlatInstruction::Constant { into, value: 0 })?;
    }
    Ok(())
}

// Puts what makes the registers of plain variables behind the parameters 0 behind a list.
fn put_zero_variables(
    code: &mut Vec<FlatInstruction>,
    context: &FunctionContext,
) -> Result<(), AllocError>
    requires { HasRegisters context.now }
    ensures { OnOk result (code.new.items ≡ code.old.items ++ zero_variables context.now.function.now) }
{
    let first = context.parameters_end() + 1;
    put_zeros(code, first, context.registers.first_home - first)
}

// Puts what gives the object of a parameter its argument, of a kind, behind a list.
#[tactic(auto, using(crate::proofs::Operands::scalar_below))]
fn put_store_parameter<S: ShadowForm>(
    code: &mut Vec<FlatInstruction>,
    context: &FunctionContext,
    number: usize,
    parameter: Variable,
) -> Result<(), AllocError>
    requires prepared { IsPrepared context.now }
    requires there { slice_get context.now.function.now.parameters number ≡ Some parameter }
    requires object { parameter.is_object ≡ true }
    ensures { OnOk result (code.new.items ≡ code.old.items
        ++ store_parameter (inline_lists S.entry_read S.entry_write context.now.map.now) context.now.program.now
        context.now.function.now parameter.kind number) }
{
    match parameter.kind {
        Kind::Scalar(scalar) => {
            let home = context.parameter_home(number, parameter);
            let held = held_scalar(scalar, context.argument(number, parameter));
            put_store::<S>(code, context, home, held, context.free())
        }
        Kind::Structure(size) => {
            let home = context.parameter_home(number, parameter);
            let from = context.argument(number, parameter);
            put_store_structure(code, context, size, home, from, context.free())
        }
        Kind::Void | Kind::Array(_) => {
            put(code, FlatInstruction::End(Ending::Abort(Line::first())))
        }
    }
}

// One of some variables, by its number.
fn variable_at(variables: &[Variable], number: usize) -> Variable
    requires { number < length variables.now }
    ensures { slice_get variables.now number ≡ Some result }
{
    variables[number]
}

// Puts what gives a parameter its argument behind a list, where it is an object.
#[tactic(auto, using(crate::proofs::Lists::nothing_behind))]
fn put_if_object<S: ShadowForm>(
    code: &mut Vec<FlatInstruction>,
    context: &FunctionContext,
    number: usize,
    parameter: Variable,
) -> Result<(), AllocError>
    requires prepared { IsPrepared context.now }
    requires there { slice_get context.now.function.now.parameters number ≡ Some parameter }
    ensures { OnOk result (code.new.items ≡ code.old.items ++ (if parameter.is_object
        then store_parameter (inline_lists S.entry_read S.entry_write context.now.map.now) context.now.program.now
        context.now.function.now parameter.kind number else [])) }
{
    if parameter.is_object {
        put_store_parameter::<S>(code, context, number, parameter)
    } else {
        Ok(())
    }
}

// Puts what gives the parameters that are objects their arguments behind a list.
fn put_store_parameters<S: ShadowForm>(
    code: &mut Vec<FlatInstruction>,
    context: &FunctionContext,
) -> Result<(), AllocError>
    requires { IsPrepared context.now }
    ensures { OnOk result (code.new.items ≡ code.old.items
        ++ store_parameters (inline_lists S.entry_read S.entry_write context.now.map.now) context.now.program.now
        context.now.function.now 0 context.now.function.now.parameters) }
{
    let parameters = context.function.parameters.as_slice();
    for i in 0..parameters.len() {
        put_if_object::<S>(code, context, i, variable_at(parameters, i))?;
    }
    Ok(())
}

/// Puts what a function begins with behind a list: plain variables become 0, the objects of its body are made, and
/// parameters that are objects get their arguments. It fails only for want of memory.
pub fn put_prologue<S: ShadowForm>(
    code: &mut Vec<FlatInstruction>,
    context: &FunctionContext,
) -> Result<(), AllocError>
    requires { IsPrepared context.now }
    ensures { OnOk result ((with_entry : Bool) → code.new.items ≡ code.old.items
        ++ prologue (expansion_of S.entry_read S.entry_write context.now with_entry) context.now.function.now) }
{
    put_zero_variables(code, context)?;
    let objects = body_objects(context.alloc, context.function)?;
    if !has_objects(&objects) {
        return Ok(());
    }
    put_enter(code, context, &objects, context.function.line)?;
    put_store_parameters::<S>(code, context)
}

/// Puts a return behind a list, of the value in a register: the objects of the body die before. It fails only for want
/// of memory.
pub fn put_return<S: ShadowForm>(
    code: &mut Vec<FlatInstruction>,
    context: &FunctionContext,
    from: u32,
) -> Result<(), AllocError>
    requires { IsPrepared context.now }
    ensures { OnOk result (code.new.items ≡ code.old.items
        ++ ((if has_objects (objects_of_body context.now.function.now)
        then leave_code (inline_lists S.entry_read S.entry_write context.now.map.now) context.now.map.now
        context.now.function.now (objects_of_body context.now.function.now) else []) ++ Return from ∷ [])) }
{
    let objects = body_objects(context.alloc, context.function)?;
    if has_objects(&objects) {
        put_leave::<S>(code, context, &objects)?;
    }
    put(code, FlatInstruction::Return { from })
}
