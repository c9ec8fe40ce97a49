//! What functions of integers begin with, and their blocks as they are laid.

ghost use Rattle.std.specs.Prelude.{◌≡◌, ◌+◌, ◌<◌, ◌^◌, ◌++◌, if◌then◌else◌, [], OnOk};
ghost use Rattle.metadata_plan.specs.Registers.{words_of, words_in};
ghost use Rattle.metadata_plan.specs.Blocks.{prologue, zero_variables, zeros};
ghost use Rattle.metadata_expansion.specs.Contexts.{CanPutIn, begin_in, block_in};

use crate::blocks::put_block;
use crate::context::FunctionContext;
use crate::laying::BlockSource;
use crate::list::put;
use crate::registers::{words_in, words_of};
use c_tree::Variable;
use flat_code::FlatInstruction;
use std::alloc::AllocError;
use tac_ir::{CodeFunction, Instruction};

// Puts what makes so many registers 0 behind a list.
fn put_zeros(code: &mut Vec<FlatInstruction>, register: u32, count: u32) -> Result<(), AllocError>
    requires { register + count < 2 ^ 32 }
    ensures { OnOk result (code.new.items ≡ code.old.items ++ zeros register count) }
{
    for i in 0..count {
        let into = register + i;
        put(code, FlatInstruction::Constant { into, value: 0 })?;
    }
    Ok(())
}

// Puts what makes the registers of a variable 0, which is no object, behind a list.
#[tactic(auto, using(crate::proofs::Lists::nothing_behind))]
fn put_zero(
    code: &mut Vec<FlatInstruction>,
    register: u32,
    variable: &Variable,
) -> Result<(), AllocError>
    requires { register + words_of variable.now.kind < 2 ^ 32 }
    ensures { OnOk result (code.new.items ≡ code.old.items
        ++ (if variable.now.is_object then [] else zeros register (words_of variable.now.kind))) }
{
    if variable.is_object {
        return Ok(());
    }
    put_zeros(code, register, words_of(variable.kind))
}

// Puts what makes the registers of variables 0 behind a list.
fn put_zero_variables(
    code: &mut Vec<FlatInstruction>,
    first: u32,
    variables: &[Variable],
) -> Result<(), AllocError>
    requires { first + words_in variables.now < 2 ^ 32 }
    ensures { OnOk result (code.new.items ≡ code.old.items ++ zero_variables first variables.now) }
{
    let mut register = first;
    for variable in variables {
        put_zero(code, register, variable)?;
        register += words_of(variable.kind);
    }
    Ok(())
}

// Puts what a function begins with behind a list.
fn put_prologue(code: &mut Vec<FlatInstruction>, function: &CodeFunction) -> Result<(), AllocError>
    requires { words_in function.now.parameters + words_in function.now.variables < 2 ^ 32 }
    ensures { OnOk result (code.new.items ≡ code.old.items ++ prologue function.now) }
{
    let first = words_in(function.parameters.as_slice());
    put_zero_variables(code, first, function.variables.as_slice())
}

impl<'a> BlockSource for FunctionContext<'a> {
    ghost block_for = { λ x i. block_in x i };

    ghost beginning = { λ x. begin_in x };

    ghost CanPut = { λ x i. CanPutIn x i };

    ghost CanBegin = { λ x. words_in x.function.now.parameters + words_in x.function.now.variables < 2 ^ 32 };

    fn put_block(
        &self,
        code: &mut Vec<FlatInstruction>,
        instruction: &Instruction,
    ) -> Result<(), AllocError> {
        put_block(code, self, instruction)
    }

    fn put_beginning(&self, code: &mut Vec<FlatInstruction>) -> Result<(), AllocError> {
        put_prologue(code, self.function)
    }
}
