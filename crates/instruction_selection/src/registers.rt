//! The numbers of the virtual registers of a function.

ghost use Rattle.std.specs.Prelude.{◌≡◌, ◌+◌, ◌*◌, ◌<◌, ◌≤◌, ◌^◌, ◌++◌, OnOk, IfOk};
ghost use Rattle.metadata_plan.specs.Registers.{words_of, most_temporaries};
ghost use Rattle.metadata_relation.specs.Registers.{parameter_words, variable_words, home_words, passed_as, total};
ghost use Rattle.metadata_relation.specs.Registers.{variable_register, home_register, temporary_register};
ghost use Rattle.metadata_relation.specs.Registers.{moved_register};
ghost use Rattle.runtime_functions.specs.Library.{register_count};
ghost use Rattle.instruction_selection.specs.Words.{words_by, registers_from};
ghost use Rattle.instruction_selection.specs.Registers.{AreRegisters, HasFewRegisters};

use crate::temporaries::most_temporaries;
use c_tree::{Kind, Variable};
use obj_memory::Scalar;
use std::alloc::{AllocError, Global};
use tac_ir::CodeFunction;
use tree_containers::Items;

/// Which registers of a variable are counted.
#[derive(Clone, Copy)]
pub enum Words {
    /// Those in which the argument of a parameter comes.
    OfParameter,
    /// Those of another plain variable.
    OfVariable,
    /// Those of the home of an object.
    OfHome,
}

// How many words a value of a kind is handed over in.
fn passed_words(kind: Kind) -> u32
    ensures value { result ≡ register_count (passed_as kind) }
    ensures few { result ≤ 5 }
{
    match kind {
        Kind::Void | Kind::Scalar(Scalar::Integer(_)) | Kind::Array(_) => 1,
        Kind::Scalar(Scalar::Pointer) | Kind::Structure(_) => 5,
    }
}

// How many words of a value of a kind a plain variable has.
fn plain_words(kind: Kind) -> u32
    ensures value { result ≡ words_of kind }
    ensures few { result ≤ 5 }
{
    match kind {
        Kind::Scalar(Scalar::Integer(_)) => 1,
        Kind::Scalar(Scalar::Pointer) => 5,
        Kind::Void | Kind::Structure(_) | Kind::Array(_) => 0,
    }
}

impl Words {
    /// How many of them a variable has.
    pub fn count(self, variable: &Variable) -> u32
        ensures value { result ≡ words_by self variable.now }
        ensures few { result ≤ 5 }
    {
        match self {
            Words::OfParameter => passed_words(variable.kind),
            Words::OfVariable => {
                if variable.is_object {
                    0
                } else {
                    plain_words(variable.kind)
                }
            }
            Words::OfHome => { if variable.is_object { 5 } else { 0 } }
        }
    }
}

// Puts the first register of each variable behind a list, where those from a number on are theirs, and gives the first
// behind all.
fn put_registers(
    list: &mut Vec<u32>,
    words: Words,
    first: u32,
    variables: &[Variable],
) -> Result<u32, AllocError>
    requires { first + total (words_by words) variables.now < 2 ^ 32 }
    ensures list { OnOk result (list.new.items ≡ list.old.items ++ registers_from (words_by words) first variables.now) }
    ensures next { IfOk result (λ register. register ≡ first + total (words_by words) variables.now) }
{
    let mut register = first;
    for variable in variables {
        list.push(register)?;
        register += words.count(variable);
    }
    Ok(register)
}

/// The numbers of the virtual registers of a function.
#[derive(Drop)]
pub struct Registers {
    /// The first register of each variable.
    pub variables: Items<u32>,
    /// The first register of the home of each variable.
    pub homes: Items<u32>,
    /// The first register behind those of the variables, with which homes begin.
    pub first_home: u32,
    /// The first register behind those of the homes, with which temporaries begin.
    pub first_temporary: u32,
    /// The first register of arguments of calls.
    pub first_moved: u32,
    /// The first register behind all of these.
    pub free: u32,
}

impl Registers {
    /// The numbers of a function's registers. It fails only for want of memory.
    pub fn new(alloc: Global, function: &CodeFunction) -> Result<Registers, AllocError>
        requires { HasFewRegisters function.now }
        ensures { IfOk result (λ registers. AreRegisters registers function.now) }
    {
        let parameters = function.parameters.as_slice();
        let others = function.variables.as_slice();
        let mut variables = Vec::new(alloc);
        let parameters_end = put_registers(&mut variables, Words::OfParameter, 0, parameters)?;
        let first_home = put_registers(
            &mut variables,
            Words::OfVariable,
            parameters_end + 1,
            others,
        )?;
        let mut homes = Vec::new(alloc);
        let behind = put_registers(&mut homes, Words::OfHome, first_home, parameters)?;
        let first_temporary = put_registers(&mut homes, Words::OfHome, behind, others)?;
        let words = 5 * most_temporaries(function.code.as_slice()) as u32;
        Ok(Registers {
            variables: Items::from_vec(variables),
            homes: Items::from_vec(homes),
            first_home,
            first_temporary,
            first_moved: first_temporary + words,
            free: first_temporary + words + words,
        })
    }

    /// The first register of a variable; a number that is no variable's has the first behind all.
    pub fn variable(&self, function: &CodeFunction, number: usize) -> u32
        requires { AreRegisters self.now function.now }
        ensures { result ≡ variable_register function.now number }
    {
        match self.variables.as_slice().get(number) {
            Some(register) => *register,
            None => self.first_home,
        }
    }

    /// The first register of the home of a variable; a number that is no variable's has the first behind all.
    pub fn home(&self, function: &CodeFunction, number: usize) -> u32
        requires { AreRegisters self.now function.now }
        ensures { result ≡ home_register function.now number }
    {
        match self.homes.as_slice().get(number) {
            Some(register) => *register,
            None => self.first_temporary,
        }
    }

    /// The first register of a temporary.
    pub fn temporary(&self, function: &CodeFunction, number: usize) -> u32
        requires registers { AreRegisters self.now function.now }
        requires there { number < most_temporaries function.now.code }
        ensures value { result ≡ temporary_register function.now number }
        ensures room { result + 5 ≤ self.now.free }
    {
        self.first_temporary + 5 * number as u32
    }

    /// The register of a word of the arguments of a call.
    pub fn moved(&self, function: &CodeFunction, word: usize) -> u32
        requires registers { AreRegisters self.now function.now }
        requires there { word ≤ 5 * most_temporaries function.now.code }
        ensures { result ≡ moved_register function.now word }
    {
        self.first_moved + word as u32
    }
}

/// How many registers the arguments of parameters take.
pub fn argument_words(parameters: &[Variable]) -> u32
    requires { total parameter_words parameters.now < 2 ^ 31 }
    ensures { result ≡ total parameter_words parameters.now }
{
    let mut count = 0;
    for variable in parameters {
        count += Words::OfParameter.count(variable);
    }
    count
}
