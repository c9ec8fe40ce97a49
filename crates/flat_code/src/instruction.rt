//! The instructions of flat code. A virtual register goes by its number and holds a word of 64 bits; those of a
//! function are its own at each of its calls. Arguments and results are consecutive virtual registers: a pointer is
//! five of them, its value, base, bound, key and lock.

use rv_isa::{BranchOp, LoadOp, RegOp, RegOp32, StoreOp};
use sb_base::Ending;

/// The right operand of an operator or of a condition.
#[derive(Clone, Copy)]
pub enum RightOperand {
    /// The value of the virtual register with this number.
    Register(u32),
    /// This number.
    Number(u64),
}

/// An instruction.
#[derive(Clone, Copy)]
pub enum FlatInstruction {
    /// `into` gets a number.
    Constant {
        into: u32,
        value: u64,
    },
    /// `into` gets the value of `from`.
    Move {
        into: u32,
        from: u32,
    },
    /// `into` gets what an operator of 64 bits gives (RISC-V unprivileged ISA manual, OP).
    Operate {
        op: RegOp,
        into: u32,
        left: u32,
        right: RightOperand,
    },
    /// `into` gets what an operator of the low 32 bits gives, sign-extended (OP-32).
    Operate32 {
        op: RegOp32,
        into: u32,
        left: u32,
        right: RightOperand,
    },
    /// `into` gets the bytes at the address in `at` plus `offset`, extended as the operator says (LOAD).
    Load {
        op: LoadOp,
        into: u32,
        at: u32,
        /// Below 2048.
        offset: u32,
    },
    /// The low bytes of `from` are put at the address in `at` plus `offset` (STORE).
    Store {
        op: StoreOp,
        at: u32,
        /// Below 2048.
        offset: u32,
        from: u32,
    },
    /// Where the condition holds, so many further instructions are passed over (BRANCH).
    Branch {
        op: BranchOp,
        left: u32,
        right: RightOperand,
        past: u32,
    },
    /// So many further instructions are passed over.
    JumpForward {
        past: u32,
    },
    /// The run goes on so many instructions before this one.
    JumpBack {
        back: u32,
    },
    /// A turn begins: of a loop, or of a call of a function of the program.
    Turn,
    /// The function with this number is called; its arguments stand from `first` on, its results go to the
    /// registers from `into` on.
    Call {
        function: u32,
        first: u32,
        into: u32,
    },
    /// The function whose address is in `at` is called with `count` arguments, and gives `results` results.
    CallAddress {
        at: u32,
        first: u32,
        count: u32,
        into: u32,
        results: u32,
    },
    /// The function returns the values from `from` on, as many as it gives.
    Return {
        from: u32,
    },
    /// `into` gets a byte of the input, or -1 where there is none.
    Get {
        into: u32,
    },
    /// The low byte of `from` goes to the output.
    Put {
        from: u32,
    },
    /// The run ends with the low byte of `status`.
    Exit {
        status: u32,
    },
    /// The run ends so, with the report of it.
    End(Ending),
    /// `into` gets the bytes of the budget `calls` that the calls of functions of the program take now.
    Charged {
        into: u32,
    },
}
