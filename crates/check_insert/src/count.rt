//! How many checks there are.

ghost use Rattle.std.specs.Prelude.{◌≡◌, ◌-◌, ◌^◌, min};
ghost use Rattle.check_insert.specs.Counting.{is_check, sum_over, sum_of_functions, checks};

use tac_ir::{CodeFunction, Instruction, Tac};

fn is_check(instruction: &Instruction) -> u64
    ensures { result ≡ is_check instruction.now }
{
    match instruction {
        Instruction::Judge { .. } => 1,
        _ => 0,
    }
}

fn checks_in(code: &[Instruction]) -> u64
    ensures { result ≡ min (2 ^ 64 - 1) (sum_over is_check code.now) }
{
    let mut sum: u64 = 0;
    for instruction in code {
        sum = sum.saturating_add(is_check(instruction));
    }
    sum
}

fn checks_of(functions: &[CodeFunction]) -> u64
    ensures { result ≡ min (2 ^ 64 - 1) (sum_of_functions is_check functions.now) }
{
    let mut sum: u64 = 0;
    for function in functions {
        sum = sum.saturating_add(checks_in(function.code.as_slice()));
    }
    sum
}

/// The number of checks of a program, spatial and temporal each, whether a run reaches them or not; of more than
/// 2^64 - 1 so many.
pub fn checks(t: &Tac) -> u64
    ensures { result ≡ min (2 ^ 64 - 1) (checks t.now) }
{
    checks_of(t.functions.as_slice())
}
