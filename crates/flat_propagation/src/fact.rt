//! What is known of the value of a virtual register before an instruction.

use flat_code::RightOperand;
use rv_isa::BranchOp;

/// What is known of a value.
#[derive(Clone, Copy)]
pub enum Fact {
    /// Nothing.
    Unknown,
    /// It is the value of the register with this number.
    Same(u32),
    /// It is this number.
    Word(u64),
    /// It is the difference of two values, modulo 2^64.
    Difference {
        left: u32,
        right: RightOperand,
    },
    /// It is 1 where a branch by this condition is taken, else 0.
    Condition {
        op: BranchOp,
        left: u32,
        right: RightOperand,
    },
}
