//! Functions and programs of flat code.

use crate::instruction::FlatInstruction;
use tree_containers::Items;

/// A function.
#[derive(Drop)]
pub struct FlatFunction {
    /// How many arguments it takes: they are its first virtual registers.
    pub parameters: u32,
    /// How many results it gives.
    pub results: u32,
    /// The bytes that a call of it is charged: of a function of the program also more than the budget `calls`, and then
    /// no call of it has room. Its activation record has twice as many, one of the runtime just as many.
    pub room: u64,
    /// Whether it is one of the runtime: its accesses are no accesses of the program, and its activation record takes
    /// nothing of the budget `calls`.
    pub is_runtime: bool,
    /// The home of each virtual register: the number of the word of the activation record that is its own.
    pub homes: Items<u32>,
    /// Its instructions.
    pub body: Items<FlatInstruction>,
}

/// A program. The functions of its text come first, with their numbers, and those of the runtime behind them.
#[derive(Drop)]
pub struct FlatProgram {
    /// Its functions by number.
    pub functions: Items<FlatFunction>,
    /// The number of the function with which a run begins. It takes no arguments.
    pub entry: u32,
}
