//! What the code of a function is made from.

ghost use Rattle.std.specs.Prelude.{◌≡◌, ◌<◌};
ghost use Rattle.metadata_plan.specs.Registers.{variable_register, temporary_register, most_temporaries};
ghost use Rattle.metadata_expansion.specs.Contexts.{HasRegisters};

use crate::registers::Registers;
use addr_map::AddrMap;
use tac_ir::{CodeFunction, Tac};

/// What the code of a function is made from.
#[derive(Clone, Copy)]
pub struct FunctionContext<'a> {
    /// The places of the regions.
    pub map: &'a AddrMap,
    /// The program.
    pub program: &'a Tac,
    /// The function.
    pub function: &'a CodeFunction,
    /// The numbers of its virtual registers.
    pub registers: &'a Registers,
}

impl<'a> FunctionContext<'a> {
    /// The first register of a variable; a number that is no variable's has the first behind all.
    pub fn variable(&self, number: usize) -> u32
        requires { HasRegisters self.now }
        ensures { result ≡ variable_register self.now.function.now number }
    {
        self.registers.variable(self.function, number)
    }

    /// The first register of a temporary.
    pub fn temporary(&self, number: usize) -> u32
        requires registers { HasRegisters self.now }
        requires there { number < most_temporaries self.now.function.now.code }
        ensures { result ≡ temporary_register self.now.function.now number }
    {
        self.registers.temporary(self.function, number)
    }
}
