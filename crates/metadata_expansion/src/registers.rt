//! The numbers of the virtual registers of a function.

ghost use Rattle.std.specs.Prelude.{◌≡◌, ℕ, ◌+◌, ◌*◌, ◌<◌, ◌≤◌, ◌^◌};
ghost use Rattle.std.specs.Prelude.{◌++◌, max, length, OnOk, IfOk};
ghost use Rattle.tac_ir.specs.Temporaries.{temporaries, right_count, call_count};
ghost use Rattle.metadata_plan.specs.Registers.{words_of, words_in, variable_register, temporary_register, first_free};
ghost use Rattle.metadata_plan.specs.Registers.{all_variables, most_temporaries};
ghost use Rattle.metadata_expansion.specs.Numbers.{register_count};
ghost use Rattle.metadata_expansion.specs.Tables.{registers_from};
ghost use Rattle.metadata_expansion.specs.Numbering.{AreRegisters};

use c_tree::{Kind, Variable};
use obj_memory::Scalar;
use std::alloc::{AllocError, Global};
use tac_ir::{CodeFunction, Instruction, RightOperand};
use tree_containers::Items;

/// How many words of a value of a kind stand in registers: 1 of an integer, 5 of a pointer.
pub fn words_of(kind: Kind) -> u32
    ensures value { result ≡ words_of kind }
    ensures few { result ≤ 5 }
{
    match kind {
        Kind::Scalar(Scalar::Integer(_)) => 1,
        Kind::Scalar(Scalar::Pointer) => 5,
        Kind::Void | Kind::Structure(_) | Kind::Array(_) => 0,
    }
}

/// How many registers variables have together.
pub fn words_in(variables: &[Variable]) -> u32
    requires { words_in variables.now < 2 ^ 32 }
    ensures { result ≡ words_in variables.now }
{
    let mut sum: u32 = 0;
    for variable in variables {
        sum += words_of(variable.kind);
    }
    sum
}

// Puts the first register of each variable behind a list, where those from a number on are theirs.
fn put_registers(
    entries: &mut Vec<u32>,
    first: u32,
    variables: &[Variable],
) -> Result<u32, AllocError>
    requires { first + words_in variables.now < 2 ^ 32 }
    ensures list { OnOk result (entries.new.items ≡ entries.old.items ++ registers_from first variables.now) }
    ensures next { IfOk result (λ register. register ≡ first + words_in variables.now) }
{
    let mut register = first;
    for variable in variables {
        entries.push(register)?;
        register += words_of(variable.kind);
    }
    Ok(register)
}

// The greater of two numbers.
pub(crate) fn greater(left: u128, right: u128) -> u128
    ensures { result ≡ max left right }
{
    if left < right { right } else { left }
}

// How many temporaries there are up to one.
fn up_to(number: usize) -> u128
    ensures { result ≡ number + 1 }
{
    number as u128 + 1
}

// How many temporaries a right operand needs.
fn right_count(right: RightOperand) -> u128
    ensures { result ≡ right_count right }
{
    match right {
        RightOperand::Temporary(number) => up_to(number),
        RightOperand::One => 0,
    }
}

// How many temporaries an instruction needs.
fn temporaries(instruction: &Instruction) -> u128
    ensures { result ≡ temporaries instruction.now }
{
    match instruction {
        Instruction::Reserved
        | Instruction::Skip { .. }
        | Instruction::Zero { .. }
        | Instruction::StoreText { .. }
        | Instruction::Turn { .. }
        | Instruction::EnterBlock { .. }
        | Instruction::LeaveBlock { .. } => 0,
        Instruction::Constant { to, .. }
        | Instruction::FunctionPointer { to, .. }
        | Instruction::GetPlain { to, .. }
        | Instruction::HomePointer { to, .. }
        | Instruction::StaticPointer { to, .. }
        | Instruction::ZeroOf { to, .. } => up_to(*to),
        Instruction::SetPlain { from, .. }
        | Instruction::StorePart { from, .. }
        | Instruction::Branch { from, .. }
        | Instruction::Case { from, .. }
        | Instruction::Return { from } => up_to(*from),
        Instruction::Judge { pointer, .. } => up_to(*pointer),
        Instruction::UpdatePlain { to, right, .. } => greater(up_to(*to), right_count(*right)),
        Instruction::Convert { to, from, .. }
        | Instruction::Unary { to, from, .. }
        | Instruction::Narrow { to, from, .. }
        | Instruction::Member { to, from, .. }
        | Instruction::Take { to, from, .. }
        | Instruction::Read { to, from, .. } => greater(up_to(*to), up_to(*from)),
        Instruction::Binary {
            to,
            left,
            right,
            ..
        }
        | Instruction::Offset {
            to,
            left,
            right,
            ..
        }
        | Instruction::Difference {
            to,
            left,
            right,
            ..
        } => greater(up_to(*to), greater(up_to(*left), up_to(*right))),
        Instruction::Write {
            to,
            pointer,
            value,
            ..
        } => greater(up_to(*to), greater(up_to(*pointer), up_to(*value))),
        Instruction::Update {
            to,
            pointer,
            right,
            ..
        } => greater(up_to(*to), greater(up_to(*pointer), right_count(*right))),
        Instruction::Library { first, count, .. }
        | Instruction::Print { first, count, .. }
        | Instruction::Call { first, count, .. } => {
            greater(up_to(*first), *first as u128 + *count as u128)
        }
        Instruction::CallThrough { first, count, .. } => up_to(*first) + *count as u128,
    }
}

/// How many temporaries instructions need.
pub fn most_temporaries(instructions: &[Instruction]) -> u128
    ensures { result ≡ most_temporaries instructions.now }
{
    let mut most = 0;
    for instruction in instructions {
        most = greater(most, temporaries(instruction));
    }
    most
}

/// The numbers of the virtual registers of a function.
#[derive(Drop)]
pub struct Registers {
    /// The first register of each variable.
    pub variables: Items<u32>,
    /// How many registers all variables have.
    pub words: u32,
    /// How many temporaries there are.
    pub temporaries: u32,
    /// The first register behind those of the temporaries.
    pub free: u32,
}

impl Registers {
    /// The numbers of a function's registers. It fails only for want of memory.
    pub fn new(alloc: Global, function: &CodeFunction) -> Result<Registers, AllocError>
        requires { register_count function.now < 2 ^ 32 }
        ensures { IfOk result (λ registers. AreRegisters registers function.now) }
    {
        let mut variables = Vec::new(alloc);
        let behind = put_registers(&mut variables, 0, function.parameters.as_slice())?;
        let words = put_registers(&mut variables, behind, function.variables.as_slice())?;
        let temporaries = most_temporaries(function.code.as_slice()) as u32;
        Ok(Registers {
            variables: Items::from_vec(variables),
            words,
            temporaries,
            free: words + 5 * temporaries,
        })
    }

    /// The first register of a variable; a number that is no variable's has the first behind all.
    pub fn variable(&self, function: &CodeFunction, number: usize) -> u32
        requires { AreRegisters self.now function.now }
        ensures { result ≡ variable_register function.now number }
    {
        match self.variables.as_slice().get(number) {
            Some(register) => *register,
            None => self.words,
        }
    }

    /// The first register of a temporary.
    pub fn temporary(&self, function: &CodeFunction, number: usize) -> u32
        requires registers { AreRegisters self.now function.now }
        requires there { number < most_temporaries function.now.code }
        ensures { result ≡ temporary_register function.now number }
    {
        self.words + 5 * number as u32
    }
}
