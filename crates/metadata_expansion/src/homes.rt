//! The homes of virtual registers.

ghost use Rattle.std.specs.Prelude.{◌≡◌, ◌+◌, ◌<◌, ◌≤◌, ◌^◌, ◌++◌, max, OnOk, IfOk};
ghost use Rattle.metadata_expansion.specs.Homes.{argument_count, free_count, homes, most_arguments};
ghost use Rattle.metadata_expansion.specs.Homes.{temporary_homes, words_from};
ghost use Rattle.metadata_expansion.specs.Numbering.{AreRegisters};

use crate::registers::Registers;
use std::alloc::{AllocError, Global};
use tac_ir::{CodeFunction, Instruction};

// Puts consecutive words behind a list, for so many registers.
fn put_words(list: &mut Vec<u32>, word: u32, count: u32) -> Result<(), AllocError>
    requires { word + count < 2 ^ 32 }
    ensures { OnOk result (list.new.items ≡ list.old.items ++ words_from word count) }
{
    for i in 0..count {
        list.push(word + i)?;
    }
    Ok(())
}

// Puts the homes of the five registers of each of so many temporaries behind a list.
fn put_temporary_homes(list: &mut Vec<u32>, word: u32, count: u32) -> Result<(), AllocError>
    requires { word + count < 2 ^ 32 }
    ensures { OnOk result (list.new.items ≡ list.old.items ++ temporary_homes word count) }
{
    for i in 0..count {
        list.extend_from_slice(&[word + i, 0, 0, 0, 0])?;
    }
    Ok(())
}

// How many arguments a call of a function of the program has.
fn argument_count(instruction: &Instruction) -> usize
    ensures { result ≡ argument_count instruction.now }
{
    match instruction {
        Instruction::Call { count, .. } => *count,
        _ => 0,
    }
}

// How many registers behind those of the temporaries are used.
pub(crate) fn free_count(function: &CodeFunction) -> usize
    ensures { result ≡ free_count function.now }
{
    let mut most = 4;
    for instruction in function.code.as_slice() {
        most = greater(most, argument_count(instruction));
    }
    most
}

// The greater of two numbers.
pub(crate) fn greater(left: usize, right: usize) -> usize
    ensures { result ≡ max left right }
{
    if left < right { right } else { left }
}

/// The homes of a function's virtual registers.
pub fn homes(
    alloc: Global,
    function: &CodeFunction,
    registers: &Registers,
) -> Result<Vec<u32>, AllocError>
    requires { AreRegisters registers.now function.now }
    ensures { IfOk result (λ list. list.items ≡ homes function.now) }
{
    let free = free_count(function) as u32;
    let mut list = Vec::new(alloc);
    put_words(&mut list, free, registers.words)?;
    put_temporary_homes(&mut list, free + registers.words, registers.temporaries)?;
    put_words(&mut list, 0, free)?;
    Ok(list)
}
