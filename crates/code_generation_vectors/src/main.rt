//! Runs programs of flat code as images. Standard input has programs, with a line `%%` between each two. The first line
//! of one has its name, its budget `calls`, the number of its entry, and the bytes of its input in hexadecimal digits.
//! Each function begins with a line `function PARAMETERS RESULTS NAMES program` or `.. runtime`, and has its
//! instructions behind it, one a line, or a family of instructions with a count (`families`).
//!
//! Each program is generated under the plan that keeps all values in their homes and under the one that gives out
//! registers, and both images run on the simulator. One line tells what they do: the status, the output in hexadecimal
//! digits and the report; two lines where they differ. `stdin` and `stdout` are made by `flat.py` beside them. A word
//! says how far programs go instead of that: `test`, `plan`, `generate` or `print` (`phases`).
#![tactic(auto)]

mod families;
mod function;
mod instruction;
mod list;
mod operators;
mod phases;
mod plans;
mod runs;

use crate::function::read_functions;
use crate::phases::{Phase, put_phase};
use crate::plans::{is_plannable, is_readable};
use crate::runs::Given;
use anyhow::{Context, Result};
use flat_code::FlatProgram;
use std::{env, io};
use tree_containers::Items;

fn main(rt: HostRuntime) -> Result<()> {
    let phase = match env::args(&rt)?.nth(1) {
        Some(name) => Phase::named(name.as_str())?,
        None => Phase::Run,
    };
    let input = io::read_to_string(rt.alloc(), rt.reader())?;
    for text in input.as_str().split("%%\n") {
        put_program(&rt, phase, text)?;
    }
    Ok(())
}

// Does with the program of a text what the phase says.
fn put_program(rt: &HostRuntime, phase: Phase, text: &str) -> Result<()> {
    let mut parts = text.split("function ");
    let head = parts.next().context("a name")?;
    let given = Given::read(rt.alloc(), head.trim_end())?;
    let functions = read_functions(rt.alloc(), text)?;
    let program = FlatProgram {
        functions: Items::from_vec(functions),
        entry: given.entry,
    };
    print!(rt; "{} ", given.name.as_str())?;
    if is_readable(&program) {
        if is_plannable(rt.alloc(), &program)? {
            return put_phase(rt, phase, &given, &program);
        }
    }
    println!(rt; "cannot be planned")?;
    Ok(())
}
