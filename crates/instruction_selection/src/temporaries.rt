//! How many temporaries a function has.

ghost use Rattle.std.specs.Prelude.{◌≡◌, ◌+◌, max};
ghost use Rattle.tac_ir.specs.Temporaries.{temporaries, right_count};
ghost use Rattle.metadata_plan.specs.Registers.{most_temporaries};

use tac_ir::{Instruction, RightOperand};

// The greater of two numbers.
fn greater(left: u128, right: u128) -> u128
    ensures { result ≡ max left right }
{
    if left < right { right } else { left }
}

// How many temporaries there are up to one.
fn up_to(number: usize) -> u128
    ensures { result ≡ number + 1 }
{
    number as u128 + 1
}

// How many temporaries a right operand needs.
fn right_count(right: RightOperand) -> u128
    ensures { result ≡ right_count right }
{
    match right {
        RightOperand::Temporary(number) => up_to(number),
        RightOperand::One => 0,
    }
}

// How many temporaries an instruction needs.
fn temporaries(instruction: &Instruction) -> u128
    ensures { result ≡ temporaries instruction.now }
{
    match instruction {
        Instruction::Reserved
        | Instruction::Skip { .. }
        | Instruction::Zero { .. }
        | Instruction::StoreText { .. }
        | Instruction::Turn { .. }
        | Instruction::EnterBlock { .. }
        | Instruction::LeaveBlock { .. } => 0,
        Instruction::Constant { to, .. }
        | Instruction::FunctionPointer { to, .. }
        | Instruction::GetPlain { to, .. }
        | Instruction::HomePointer { to, .. }
        | Instruction::StaticPointer { to, .. }
        | Instruction::ZeroOf { to, .. } => up_to(*to),
        Instruction::SetPlain { from, .. }
        | Instruction::StorePart { from, .. }
        | Instruction::Branch { from, .. }
        | Instruction::Case { from, .. }
        | Instruction::Return { from } => up_to(*from),
        Instruction::Judge { pointer, .. } => up_to(*pointer),
        Instruction::UpdatePlain { to, right, .. } => greater(up_to(*to), right_count(*right)),
        Instruction::Convert { to, from, .. }
        | Instruction::Unary { to, from, .. }
        | Instruction::Narrow { to, from, .. }
        | Instruction::Member { to, from, .. }
        | Instruction::Take { to, from, .. }
        | Instruction::Read { to, from, .. } => greater(up_to(*to), up_to(*from)),
        Instruction::Binary {
            to,
            left,
            right,
            ..
        }
        | Instruction::Offset {
            to,
            left,
            right,
            ..
        }
        | Instruction::Difference {
            to,
            left,
            right,
            ..
        } => greater(up_to(*to), greater(up_to(*left), up_to(*right))),
        Instruction::Write {
            to,
            pointer,
            value,
            ..
        } => greater(up_to(*to), greater(up_to(*pointer), up_to(*value))),
        Instruction::Update {
            to,
            pointer,
            right,
            ..
        } => greater(up_to(*to), greater(up_to(*pointer), right_count(*right))),
        Instruction::Library { first, count, .. }
        | Instruction::Print { first, count, .. }
        | Instruction::Call { first, count, .. } => {
            greater(up_to(*first), *first as u128 + *count as u128)
        }
        Instruction::CallThrough { first, count, .. } => up_to(*first) + *count as u128,
    }
}

// How many temporaries instructions need.
pub(crate) fn most_temporaries(instructions: &[Instruction]) -> u128
    ensures { result ≡ most_temporaries instructions.now }
{
    let mut most = 0;
    for instruction in instructions {
        most = greater(most, temporaries(instruction));
    }
    most
}
