//! Whether the numbers of a function fit.

ghost use Rattle.std.specs.Prelude.{◌≡◌, ◌+◌, ◌*◌, ◌<◌, ◌≤◌, ◌^◌, ◌↔◌, IsTrue, MatchOption};
ghost use Rattle.metadata_plan.specs.Registers.{most_temporaries};
ghost use Rattle.metadata_relation.specs.Registers.{total};
ghost use Rattle.c_tree.specs.Valid.{at_number};
ghost use Rattle.instruction_selection.specs.Registers.{HasFewRegisters};
ghost use Rattle.instruction_selection.specs.Words.{words_by};
ghost use Rattle.program_expansion.specs.Limits.{HaveFewBytes, HaveObjectsOf, padded_size};

use c_tree::Variable;
use instruction_selection::registers::Words;
use metadata_expansion::registers::most_temporaries;
use static_data::pointers::size_of;
use tac_ir::CodeFunction;

// How many registers variables take.
fn word_count(words: Words, variables: &[Variable]) -> u128
    ensures value { result ≡ total (words_by words) variables.now }
    ensures few { result ≤ 5 * 2 ^ 64 }
{
    let mut sum = 0;
    for variable in variables {
        sum += u128::from(words.count(variable));
    }
    sum
}

// How many virtual registers a function has whose temporaries are few, with those that a block has for itself.
fn register_total(function: &CodeFunction, temporaries: u128) -> u128
    requires count { temporaries ≡ most_temporaries function.now.code }
    requires few { temporaries < 2 ^ 31 }
    ensures { result ≤ 2 ^ 31 ↔ HasFewRegisters function.now }
{
    let parameters = function.parameters.as_slice();
    let variables = function.variables.as_slice();
    let words = word_count(Words::OfParameter, parameters)
        + 1
        + word_count(Words::OfVariable, variables);
    let homes = word_count(Words::OfHome, parameters) + word_count(Words::OfHome, variables);
    words + homes + 10 * temporaries + 16
}

/// Whether the virtual registers of a function have numbers below 2^31.
pub fn has_few_registers(function: &CodeFunction) -> bool
    ensures { IsTrue result ↔ HasFewRegisters function.now }
{
    let temporaries = most_temporaries(function.code.as_slice());
    if temporaries >= 1 << 31 {
        return false;
    }
    register_total(function, temporaries) <= 1 << 31
}

// The bytes of variables, where they have a number of 62 bits.
fn few_bytes(variables: &[Variable]) -> Option<u64>
    ensures { MatchOption result (2 ^ 62 < total padded_size variables.now)
        (λ n. (n ≡ total padded_size variables.now) × (n ≤ 2 ^ 62)) }
{
    let mut sum: u64 = 0;
    for variable in variables {
        let size = size_of(variable.kind);
        if size > (1 << 62) - sum || size + 15 > (1 << 62) - sum {
            return None;
        }
        sum += size + 15;
    }
    Some(sum)
}

/// Whether the bytes of variables have a number of 62 bits.
pub fn have_few_bytes(parameters: &[Variable], others: &[Variable]) -> bool
    ensures { IsTrue result ↔ HaveFewBytes parameters.now others.now }
{
    match (few_bytes(parameters), few_bytes(others)) {
        (Some(first), Some(second)) => first + second <= 1 << 62,
        (None, _) | (_, None) => false,
    }
}

// Whether one of some variables, by its number, is an object.
fn is_object_at(variables: &[Variable], number: usize) -> bool
    ensures { result ≡ (at_number variables.now number).is_object }
{
    match variables.get(number) {
        Some(variable) => variable.is_object,
        None => false,
    }
}

/// Whether each object of a list is one of some variables, by its number.
pub fn have_objects_of(all: &[Variable], declared: &[Variable]) -> bool
    ensures { IsTrue result ↔ HaveObjectsOf all.now declared.now }
{
    for i in 0..declared.len() {
        let declares = is_object_at(declared, i);
        if declares && !is_object_at(all, i) {
            return false;
        }
    }
    true
}
