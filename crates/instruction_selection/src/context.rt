//! What the flat code of the instructions of a function is made from.

ghost use Rattle.std.specs.Prelude.{◌≡◌, ◌+◌, ◌-◌, ◌*◌, ◌<◌, ◌≤◌, ◌^◌, true, get_or, length, Some, slice_get};
ghost use Rattle.metadata_plan.specs.Entries.{has_area, may_read_part};
ghost use Rattle.metadata_plan.specs.Registers.{most_temporaries};
ghost use Rattle.metadata_relation.specs.Registers.{variable_register, home_register, temporary_register};
ghost use Rattle.metadata_relation.specs.Registers.{moved_register};
ghost use Rattle.metadata_relation.specs.Registers.{first_free};
ghost use Rattle.metadata_relation.specs.Registers.{parameters_end, total};
ghost use Rattle.metadata_relation.specs.Registers.{variable_words};
ghost use Rattle.tac_ir.specs.Structures.{structures_below};
ghost use Rattle.instruction_selection.specs.Contexts.{HasRegisters, IsPrepared, type_at};

use crate::registers::{Registers, argument_words};
use crate::statics::StaticPlace;
use addr_map::AddrMap;
use c_tree::Variable;
use std::alloc::Global;
use tac_ir::{CodeFunction, Mode, Tac};

/// What the flat code of the instructions of a function is made from.
#[derive(Clone, Copy)]
pub struct FunctionContext<'a> {
    /// The allocator of the lists.
    pub alloc: Global,
    /// The places of the regions.
    pub map: &'a AddrMap,
    /// The program.
    pub program: &'a Tac,
    /// The function.
    pub function: &'a CodeFunction,
    /// The numbers of its virtual registers.
    pub registers: &'a Registers,
    /// Where the static objects stand, by their numbers.
    pub statics: &'a [StaticPlace],
    /// What the keys of pointers to the functions tell of their types, by their numbers.
    pub types: &'a [u64],
    /// The bytes of the structures of the temporaries before each one, and before all.
    pub areas: &'a [u64],
}

impl<'a> FunctionContext<'a> {
    /// The first register of a plain variable.
    pub fn variable(&self, number: usize) -> u32
        requires { HasRegisters self.now }
        ensures value { result ≡ variable_register self.now.function.now number }
        ensures room { result ≤ self.now.registers.now.free }
    {
        self.registers.variable(self.function, number)
    }

    /// The first register of the home of a variable.
    pub fn home(&self, number: usize) -> u32
        requires { HasRegisters self.now }
        ensures value { result ≡ home_register self.now.function.now number }
        ensures room { result ≤ self.now.registers.now.free }
    {
        self.registers.home(self.function, number)
    }

    /// How many registers the arguments take.
    pub fn parameters_end(&self) -> u32
        requires { HasRegisters self.now }
        ensures value { result ≡ parameters_end self.now.function.now }
        ensures room { result + 1 + total variable_words self.now.function.now.variables
            ≡ self.now.registers.now.first_home }
    {
        argument_words(self.function.parameters.as_slice())
    }

    /// The first register of the argument of a parameter that is an object: its home stands behind it.
    pub fn argument(&self, number: usize, parameter: Variable) -> u32
        requires registers { HasRegisters self.now }
        requires there { slice_get self.now.function.now.parameters number ≡ Some parameter }
        requires object { parameter.is_object ≡ true }
        ensures value { result ≡ variable_register self.now.function.now number }
        ensures room { result + 5 ≤ self.now.registers.now.free }
    {
        self.registers.variable(self.function, number)
    }

    /// The first register of the home of a parameter that is an object.
    pub fn parameter_home(&self, number: usize, parameter: Variable) -> u32
        requires registers { HasRegisters self.now }
        requires there { slice_get self.now.function.now.parameters number ≡ Some parameter }
        requires object { parameter.is_object ≡ true }
        ensures value { result ≡ home_register self.now.function.now number }
        ensures room { result + 5 ≤ self.now.registers.now.free }
    {
        self.registers.home(self.function, number)
    }

    /// The first register of a temporary.
    pub fn temporary(&self, number: usize) -> u32
        requires registers { HasRegisters self.now }
        requires there { number < most_temporaries self.now.function.now.code }
        ensures value { result ≡ temporary_register self.now.function.now number }
        ensures room { result + 5 ≤ self.now.registers.now.free }
    {
        self.registers.temporary(self.function, number)
    }

    /// The first register of the arguments of a call whose first stands in a temporary.
    pub fn moved(&self, first: usize) -> u32
        requires registers { HasRegisters self.now }
        requires there { first ≤ most_temporaries self.now.function.now.code }
        ensures value { result ≡ moved_register self.now.function.now (5 * first) }
        ensures room { result + 5 * (most_temporaries self.now.function.now.code - first)
            ≤ self.now.registers.now.free }
    {
        self.registers.moved(self.function, 5 * first)
    }

    // What the table of areas has for a temporary.
    fn area_sum(&self, temporary: usize) -> u64
        ensures { result ≡ get_or self.now.areas.now temporary 0 }
    {
        match self.areas.get(temporary) {
            Some(bytes) => *bytes,
            None => 0,
        }
    }

    /// The bytes of the structures of the temporaries before one.
    #[tactic(auto, using(crate::proofs::StructureAreas::table_tells, crate::proofs::StructureAreas::table_fits))]
    pub fn structures_below(&self, temporary: usize) -> u64
        requires prepared { IsPrepared self.now }
        requires there { temporary ≤ most_temporaries self.now.function.now.code }
        ensures value { result ≡ structures_below self.now.program.now self.now.function.now.code temporary }
        ensures room { 5 * result ≤ self.now.function.now.room }
    {
        self.area_sum(temporary)
    }

    /// Whether a temporary has an area for structures.
    #[tactic(auto, using(crate::proofs::StructureAreas::more_below))]
    pub fn has_area(&self, temporary: usize) -> bool
        requires prepared { IsPrepared self.now }
        requires there { temporary < most_temporaries self.now.function.now.code }
        ensures { result ≡ has_area self.now.program.now self.now.function.now temporary }
    {
        self.structures_below(temporary) < self.structures_below(temporary + 1)
    }

    /// Whether a scalar that is read of a temporary may be a member of contents.
    pub fn may_read_part(&self, mode: Mode, temporary: usize) -> bool
        requires prepared { IsPrepared self.now }
        requires there { temporary < most_temporaries self.now.function.now.code }
        ensures { result ≡ may_read_part self.now.program.now self.now.function.now mode temporary }
    {
        match mode {
            Mode::Named => self.has_area(temporary),
            Mode::Unchecked | Mode::Judged => false,
        }
    }

    /// The first register that is free.
    pub fn free(&self) -> u32
        requires { HasRegisters self.now }
        ensures value { result ≡ first_free self.now.function.now }
        ensures same { result ≡ self.now.registers.now.free }
        ensures room { result + 16 ≤ 2 ^ 31 }
    {
        self.registers.free
    }

    /// What the key of a pointer to a function tells of its type.
    pub fn type_of(&self, function: usize) -> u64
        ensures { result ≡ type_at self.now function }
    {
        match self.types.get(function) {
            Some(type_number) => *type_number,
            None => 0,
        }
    }
}
