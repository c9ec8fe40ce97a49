//! The blocks of a function of any program.

ghost use Rattle.std.specs.Prelude.{◌≡◌};
ghost use Rattle.metadata_expansion.specs.ClosedSets.{in_table};
ghost use Rattle.instruction_selection.specs.Contexts.{IsPrepared};
ghost use Rattle.instruction_selection.specs.Selected.{entry_behind};
ghost use Rattle.program_expansion.specs.Expansions.{CanPutIn, begin_in, block_in};

use flat_code::FlatInstruction;
use instruction_selection::bodies::put_prologue;
use instruction_selection::{FunctionContext, put_instruction};
use metadata_expansion::TemporaryTable;
use metadata_expansion::laying::BlockSource;
use shadow_space::ShadowForm;
use std::alloc::AllocError;
use std::marker::PhantomData;
use tac_ir::Instruction;

/// The blocks of a function, by which temporaries have entries at its nodes.
#[derive(Clone, Copy)]
pub struct FunctionBlocks<'a, S> {
    /// What they are made from.
    pub context: FunctionContext<'a>,
    /// The temporaries that have entries.
    pub entries: &'a TemporaryTable,
    /// The form of the shadow space.
    pub form: PhantomData<S>,
}

// Whether the temporary that an instruction gives has an entry behind it.
fn entry_behind(entries: &TemporaryTable, instruction: &Instruction) -> bool
    ensures { result ≡ entry_behind (in_table entries.now) instruction.now }
{
    match instruction {
        Instruction::Constant { to, next, .. }
        | Instruction::FunctionPointer { to, next, .. }
        | Instruction::GetPlain { to, next, .. }
        | Instruction::UpdatePlain { to, next, .. }
        | Instruction::HomePointer { to, next, .. }
        | Instruction::StaticPointer { to, next, .. }
        | Instruction::ZeroOf { to, next, .. }
        | Instruction::Convert { to, next, .. }
        | Instruction::Unary { to, next, .. }
        | Instruction::Binary { to, next, .. }
        | Instruction::Offset { to, next, .. }
        | Instruction::Difference { to, next, .. }
        | Instruction::Narrow { to, next, .. }
        | Instruction::Member { to, next, .. }
        | Instruction::Take { to, next, .. }
        | Instruction::Read { to, next, .. }
        | Instruction::Write { to, next, .. }
        | Instruction::Update { to, next, .. } => entries.has(*next, *to),
        Instruction::Library { first, next, .. }
        | Instruction::Print { first, next, .. }
        | Instruction::Call { first, next, .. }
        | Instruction::CallThrough { first, next, .. } => entries.has(*next, *first),
        Instruction::Reserved
        | Instruction::Skip { .. }
        | Instruction::SetPlain { .. }
        | Instruction::Judge { .. }
        | Instruction::Zero { .. }
        | Instruction::StorePart { .. }
        | Instruction::StoreText { .. }
        | Instruction::Branch { .. }
        | Instruction::Case { .. }
        | Instruction::Turn { .. }
        | Instruction::EnterBlock { .. }
        | Instruction::LeaveBlock { .. }
        | Instruction::Return { .. } => false,
    }
}

impl<'a, S: ShadowForm> BlockSource for FunctionBlocks<'a, S> {
    ghost block_for = { λ x i. block_in S.entry_read S.entry_write x.context (in_table x.entries.now) i };

    ghost beginning = { λ x. begin_in S.entry_read S.entry_write x.context (in_table x.entries.now) };

    ghost CanPut = { λ x i. CanPutIn x.context i };

    ghost CanBegin = { λ x. IsPrepared x.context };

    fn put_block(
        &self,
        code: &mut Vec<FlatInstruction>,
        instruction: &Instruction,
    ) -> Result<(), AllocError> {
        let with_entry = entry_behind(self.entries, instruction);
        put_instruction::<S>(code, &self.context, instruction, with_entry)?;
        Ok(())
    }

    fn put_beginning(&self, code: &mut Vec<FlatInstruction>) -> Result<(), AllocError> {
        put_prologue::<S>(code, &self.context)?;
        Ok(())
    }
}
