//! What is assembled.

use rv_isa::{BranchOp, Instr, Reg};
use std::marker::Model;

/// The number of a label. The assembler takes memory for all numbers up to the greatest.
#[derive(Clone, Copy)]
pub struct Label {
    number: u32,
}

impl Model for Label {
    ghost use Rattle.std.specs.Prelude.{ℕ, ◌<◌, ◌^◌};

    ghost Value = { ℕ };

    ghost view = { λ label. label.number };

    ghost invariant = { λ label. label.number < 2 ^ 32 };

    ghost inverse = { λ n. record { number = n } };
}

impl Label {
    ghost use Rattle.std.specs.Prelude.{◌≡◌, ◌<◌, ◌^◌};

    /// The label with this number.
    pub fn new(number: u32) -> Self
        ensures { result ≡ number }
    {
        Label { number }
    }

    /// The number of this label.
    pub fn number(self) -> u32
        ensures value { result ≡ self }
        ensures small { result < 2 ^ 32 }
    {
        self.number
    }
}

/// One item of a labelled list.
#[derive(Clone, Copy)]
pub enum Item {
    /// The place of the next instruction has this label.
    Label(Label),
    /// This instruction.
    Instr(Instr),
    /// A jump to a label (RISC-V unprivileged ISA manual, "Unconditional Jumps").
    Jump {
        /// The label.
        to: Label,
    },
    /// A jump to a label that leaves the address of what follows it in ra, the return address register of the psABI.
    Call {
        /// The label.
        to: Label,
    },
    /// A branch to a label where a condition on two registers holds (RISC-V unprivileged ISA manual, "Conditional
    /// Branches").
    Branch {
        /// The condition.
        op: BranchOp,
        /// Its first register.
        rs1: Reg,
        /// Its second register.
        rs2: Reg,
        /// The label.
        to: Label,
    },
}
