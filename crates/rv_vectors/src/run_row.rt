//! How runs end.

ghost use Rattle.std.specs.Prelude.{◌≤◌, length, IfOk};

use crate::number::word;
use crate::sample::{machine_of, parts, run};
use anyhow::Result;
use rv_sim::Machine;
use std::alloc::Global;

/// `run WORDS`: prints how a run of at most 100 instructions ends, of rows that begin with these words.
pub fn put(rt: &HostRuntime, row: &str) -> Result<()> {
    match machine(rt.alloc(), row) {
        Ok(mut machine) => put_end(rt, &mut machine),
        Err(error) => Err(error),
    }
}

fn machine(alloc: Global, row: &str) -> Result<Machine> {
    let code = code_of(alloc, row)?;
    machine_of(alloc, &parts(alloc, code, Vec::new(alloc))?)
}

fn put_end(rt: &HostRuntime, machine: &mut Machine) -> Result<()> {
    let stop = run(rt.alloc(), machine, 100)?;
    println!(rt; "{stop:?}")?;
    Ok(())
}

// The bytes of the words, at most the first 32.
fn code_of(alloc: Global, row: &str) -> Result<Vec<u8>>
    ensures { IfOk result (λ code. length code.items ≤ 32) }
{
    let mut code = Vec::new(alloc);
    match push_words(&mut code, row) {
        Ok(()) => {
            code.truncate(32);
            Ok(code)
        }
        Err(error) => Err(error),
    }
}

fn push_words(code: &mut Vec<u8>, row: &str) -> Result<()> {
    for digits in row.split(' ').skip(1) {
        push_word(code, word(Some(digits))?)?;
    }
    Ok(())
}

fn push_word(code: &mut Vec<u8>, word: u32) -> Result<()> {
    code.extend_from_slice(&word.to_le_bytes())?;
    Ok(())
}
