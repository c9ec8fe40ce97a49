//! Blocks of any instructions, to be laid one behind the other.

ghost use Rattle.std.specs.Prelude.{◌≡◌, ◌++◌, List, length, OnOk, IfOk};
ghost use Rattle.tac_ir.specs.declared.instruction.Instruction.{Instruction};
ghost use Rattle.flat_code.specs.declared.instruction.FlatInstruction.{FlatInstruction};

use flat_code::FlatInstruction;
use std::alloc::{AllocError, Global};
use tac_ir::Instruction;

/// What puts the blocks of the instructions of a function, and what the function begins with. The only refusal is that
/// memory fails.
pub trait BlockSource {
    /// The block of an instruction.
    ghost block_for: { Self → Instruction → List FlatInstruction };

    /// What the function begins with.
    ghost beginning: { Self → List FlatInstruction };

    /// What is asked of an instruction whose block is put.
    ghost CanPut: { Self → Instruction → Type 0 };

    /// What is asked where the beginning is put.
    ghost CanBegin: { Self → Type 0 };

    /// Puts the block of an instruction behind a list.
    fn put_block(
        &self,
        code: &mut Vec<FlatInstruction>,
        instruction: &Instruction,
    ) -> Result<(), AllocError>
        requires { CanPut self.now instruction.now }
        ensures { OnOk result (code.new.items ≡ code.old.items ++ block_for self.now instruction.now) };

    /// Puts what the function begins with behind a list.
    fn put_beginning(&self, code: &mut Vec<FlatInstruction>) -> Result<(), AllocError>
        requires { CanBegin self.now }
        ensures { OnOk result (code.new.items ≡ code.old.items ++ beginning self.now) };
}

/// How many instructions the block of an instruction has.
pub(crate) fn block_size<B: BlockSource>(
    alloc: Global,
    blocks: &B,
    instruction: &Instruction,
) -> Result<usize, AllocError>
    requires { B.CanPut blocks.now instruction.now }
    ensures { IfOk result (λ n. n ≡ length (B.block_for blocks.now instruction.now)) }
{
    let mut code = Vec::new(alloc);
    blocks.put_block(&mut code, instruction)?;
    Ok(code.len())
}

/// How many instructions a function begins with.
pub(crate) fn beginning_size<B: BlockSource>(alloc: Global, blocks: &B) -> Result<usize, AllocError>
    requires { B.CanBegin blocks.now }
    ensures { IfOk result (λ n. n ≡ length (B.beginning blocks.now)) }
{
    let mut code = Vec::new(alloc);
    blocks.put_beginning(&mut code)?;
    Ok(code.len())
}
