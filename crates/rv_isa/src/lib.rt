//! The instructions of RV64IM, after the RISC-V unprivileged ISA manual: the type `Instr`, and the word of each
//! instruction. `encode` and `decode` are proved against one table, `word_of` in specs/Table.antt.
#![tactic(auto)]

pub mod decoding;
pub mod encoding;
pub mod instruction;
pub mod laws;
pub mod operand;

pub use crate::decoding::decode;
pub use crate::encoding::encode;
pub use crate::instruction::{
    BranchOp, ImmOp, Instr, LoadOp, RegOp, RegOp32, ShiftOp, ShiftOp32, StoreOp,
};
pub use crate::operand::{BranchOffset, Imm12, Imm20, JumpOffset, Reg, ShiftAmount, ShiftAmount32};
