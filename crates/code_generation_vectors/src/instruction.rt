//! Instructions by their names and numbers.

use crate::operators::{CONDITIONS, LOADS, OPERATORS, OPERATORS_32, STORES, find};
use anyhow::{Context, Result};
use flat_code::{FlatInstruction, RightOperand};
use sb_base::{Ending, Line};

/// The numbers behind a name, 0 where there are fewer.
#[derive(Clone, Copy)]
pub struct Numbers {
    pub first: u64,
    pub second: u64,
    pub third: u64,
    pub fourth: u64,
    pub fifth: u64,
}

// The number that a word spells; 0 where there is no word.
fn number(word: Option<&str>) -> Result<u64> {
    match word {
        Some(digits) => Ok(digits.parse().context("a number")?),
        None => Ok(0),
    }
}

impl Numbers {
    /// The numbers of a line behind its name.
    pub fn read(line: &str) -> Result<Numbers> {
        let mut words = line.split(' ').skip(1);
        Ok(Numbers {
            first: number(words.next())?,
            second: number(words.next())?,
            third: number(words.next())?,
            fourth: number(words.next())?,
            fifth: number(words.next())?,
        })
    }
}

/// The low 32 bits of a number.
pub fn low(number: u64) -> u32 {
    (number % 0x1_0000_0000) as u32
}

/// A right operand: the register with a number, or the number.
pub fn right(is_register: bool, number: u64) -> RightOperand {
    if is_register {
        RightOperand::Register(low(number))
    } else {
        RightOperand::Number(number)
    }
}

// An operator of 64 bits.
fn operate(name: &str, n: Numbers) -> Option<FlatInstruction> {
    let (op, is_register) = find(&OPERATORS, name)?;
    Some(FlatInstruction::Operate {
        op,
        into: low(n.first),
        left: low(n.second),
        right: right(is_register, n.third),
    })
}

// An operator of 32 bits.
fn operate32(name: &str, n: Numbers) -> Option<FlatInstruction> {
    let (op, is_register) = find(&OPERATORS_32, name)?;
    Some(FlatInstruction::Operate32 {
        op,
        into: low(n.first),
        left: low(n.second),
        right: right(is_register, n.third),
    })
}

// A branch.
fn branch(name: &str, n: Numbers) -> Option<FlatInstruction> {
    let (op, is_register) = find(&CONDITIONS, name)?;
    Some(FlatInstruction::Branch {
        op,
        left: low(n.first),
        right: right(is_register, n.second),
        past: low(n.third),
    })
}

// A load.
fn load(name: &str, n: Numbers) -> Option<FlatInstruction> {
    let (op, _) = find(&LOADS, name)?;
    Some(FlatInstruction::Load {
        op,
        into: low(n.first),
        at: low(n.second),
        offset: low(n.third),
    })
}

// A store.
fn store(name: &str, n: Numbers) -> Option<FlatInstruction> {
    let (op, _) = find(&STORES, name)?;
    Some(FlatInstruction::Store {
        op,
        at: low(n.first),
        offset: low(n.second),
        from: low(n.third),
    })
}

// The line with a number, the first for 0.
fn line(number: u64) -> Line {
    let number = low(number);
    if number == 0 {
        return Line::first();
    }
    Line::new(number)
}

// The ending with a status of its own, or at a line.
fn ending(status: u64, n: Numbers) -> Ending {
    let at = line(n.second);
    match status {
        120 => Ending::Spatial(at),
        121 => Ending::Temporal(at),
        122 => Ending::BadCall(at),
        123 => Ending::BadFree(at),
        124 => Ending::Divide(at),
        125 => Ending::Stack(at),
        126 => Ending::Keys(at),
        134 => Ending::Abort(at),
        _ => Ending::Exit((status % 1000) as i32),
    }
}

// A call by number.
fn call(n: Numbers) -> FlatInstruction {
    FlatInstruction::Call {
        function: low(n.first),
        first: low(n.second),
        into: low(n.third),
    }
}

// A call through an address.
fn call_address(n: Numbers) -> FlatInstruction {
    FlatInstruction::CallAddress {
        at: low(n.first),
        first: low(n.second),
        count: low(n.third),
        into: low(n.fourth),
        results: low(n.fifth),
    }
}

// An instruction that has no operator and stays in its function.
fn plain(name: &str, n: Numbers) -> Option<FlatInstruction> {
    Some(match name {
        "constant" => FlatInstruction::Constant {
            into: low(n.first),
            value: n.second,
        },
        "move" => FlatInstruction::Move {
            into: low(n.first),
            from: low(n.second),
        },
        "forward" => FlatInstruction::JumpForward { past: low(n.first) },
        "back" => FlatInstruction::JumpBack { back: low(n.first) },
        "turn" => FlatInstruction::Turn,
        "charged" => FlatInstruction::Charged { into: low(n.first) },
        _ => return None,
    })
}

// An instruction that leaves its function or meets the outside.
fn outward(name: &str, n: Numbers) -> Option<FlatInstruction> {
    Some(match name {
        "call" => call(n),
        "address" => call_address(n),
        "return" => FlatInstruction::Return { from: low(n.first) },
        "get" => FlatInstruction::Get { into: low(n.first) },
        "put" => FlatInstruction::Put { from: low(n.first) },
        "exit" => FlatInstruction::Exit {
            status: low(n.first),
        },
        "end" => FlatInstruction::End(ending(n.first, n)),
        _ => return None,
    })
}

// An instruction with an operator.
fn with_operator(name: &str, n: Numbers) -> Option<FlatInstruction> {
    if let Some(instruction) = operate(name, n) {
        return Some(instruction);
    }
    if let Some(instruction) = operate32(name, n) {
        return Some(instruction);
    }
    if let Some(instruction) = branch(name, n) {
        return Some(instruction);
    }
    if let Some(instruction) = load(name, n) {
        return Some(instruction);
    }
    store(name, n)
}

/// The instruction with a name and numbers.
pub fn instruction(name: &str, n: Numbers) -> Option<FlatInstruction> {
    if let Some(instruction) = plain(name, n) {
        return Some(instruction);
    }
    if let Some(instruction) = outward(name, n) {
        return Some(instruction);
    }
    with_operator(name, n)
}
