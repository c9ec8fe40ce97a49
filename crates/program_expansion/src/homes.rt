//! The homes of virtual registers.

ghost use Rattle.std.specs.Prelude.{◌≡◌, ◌+◌, ◌<◌, ◌^◌, ◌++◌, IfOk, OnOk};
ghost use Rattle.metadata_relation.specs.Homes.{homes, words_from};
ghost use Rattle.instruction_selection.specs.Registers.{AreRegisters};

use crate::list::put;
use instruction_selection::Registers;
use std::alloc::{AllocError, Global};
use tac_ir::CodeFunction;

// Puts consecutive words behind a list, for so many registers.
fn put_words(list: &mut Vec<u32>, word: u32, count: u32) -> Result<(), AllocError>
    requires { word + count < 2 ^ 32 }
    ensures { OnOk result (list.new.items ≡ list.old.items ++ words_from word count) }
{
    for i in 0..count {
        put(list, word + i)?;
    }
    Ok(())
}

/// The homes of a function's virtual registers: those that a block has for itself stand first, and behind them the
/// arguments of calls. It fails only for want of memory.
pub fn homes(
    alloc: Global,
    function: &CodeFunction,
    registers: &Registers,
) -> Result<Vec<u32>, AllocError>
    requires { AreRegisters registers.now function.now }
    ensures { IfOk result (λ list. list.items ≡ homes function.now) }
{
    let _function = function;
    let moved = registers.free - registers.first_moved;
    let mut list = Vec::new(alloc);
    put_words(&mut list, 16 + moved, registers.first_moved)?;
    put_words(&mut list, 16, moved)?;
    put_words(&mut list, 0, 16)?;
    Ok(list)
}
