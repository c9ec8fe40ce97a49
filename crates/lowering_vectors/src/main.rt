//! Lowers programs to three-address code, puts in the checks, and runs the code before and after that over objects.
//! Standard input has rows, with a line `%%` between each two. The first line of one has its name, the bytes of the
//! heap and of the stack, the budget `calls`, the numbers of blocks, of keys and of turns, the work of the meaning or
//! `-`, the word `accesses` or `-`, the word `tables` or `-`, and the bytes of the input in hexadecimal digits. The
//! text of a program stands behind it.
//!
//! Of each row the first line tells how many checks `insert` puts in, all, spatial and temporal ones. Where tables are
//! asked for a line for each function tells the keys of its accesses and its counted loops. A line for the run before
//! and one for the run after tell the status and the report, in parentheses what a wrong access was found by, and the
//! output; where the work of the meaning is given, the turns, and whether the run's work is within 8 times that; and
//! the accesses where they are asked for. The last line of all has the kinds of instructions that no run came to:
//! `Reserved`, which stands nowhere in code that is done, and `Skip`, which stands where a check was dropped.
//!
//! `stdin` and `stdout` are made by `rows.py` beside them, from the texts of `rows/` and from what
//! `source_meaning_rows` proves of their meaning. A word says how far the program of a text goes instead: `type`,
//! `lower` or `insert`; then the number of nodes is told.
#![tactic(auto)]

mod lowered;
mod row;
mod shown;
mod tables;

ghost use Rattle.std.specs.Prelude.{◌≡◌, true, None};
ghost use Rattle.c_const.specs.Initializers.{first_not_constant};
ghost use Rattle.c_tree.specs.ValidProgram.{is_valid_program};
ghost use Rattle.c_tree.specs.View.{program_of};

use crate::lowered::{lowered, typed};
use crate::row::Row;
use crate::shown::{count_checks, put_run};
use crate::tables::put_tables;
use anyhow::{Result, bail};
use c_tree::Program;
use check_insert::{checks, insert};
use std::{env, io};
use tac_interpreter::{KIND_NAMES, run};
use tac_ir::{Tac, Test};

fn main(rt: HostRuntime) -> Result<()> {
    let phase = env::args(&rt)?.nth(1);
    let input = io::read_to_string(rt.alloc(), rt.reader())?;
    match phase {
        Some(word) => put_phase(&rt, word.as_str(), input.as_bytes()),
        None => put_rows(&rt, input.as_str()),
    }
}

fn put_rows(rt: &HostRuntime, rows: &str) -> Result<()> {
    let mut done = [false; KIND_NAMES.len()];
    for text in rows.split("%%\n") {
        let row = Row::parse(rt.alloc(), text)?;
        put_row(rt, &row, &mut done)?;
    }
    print!(rt; "never done:")?;
    for (name, is_done) in KIND_NAMES.iter().zip(done.iter()) {
        if !*is_done {
            print!(rt; " {name}")?;
        }
    }
    println!(rt; "")?;
    Ok(())
}

fn put_row(rt: &HostRuntime, row: &Row, done: &mut [bool]) -> Result<()> {
    match typed(rt.alloc(), row.text.as_bytes()) {
        Ok(program) => put_program(rt, row, &program, done),
        Err(error) => {
            println!(rt; "{}: {error}", row.name)?;
            Ok(())
        }
    }
}

fn put_program(rt: &HostRuntime, row: &Row, program: &Program, done: &mut [bool]) -> Result<()>
    requires valid { is_valid_program (program_of program.now) ≡ true }
    requires constant { first_not_constant (program_of program.now) ≡ None }
{
    let alloc = rt.alloc();
    let code = lowered(alloc, program)?;
    let checked = insert(alloc, lowered(alloc, program)?)?;
    let spatial = count_checks(&checked, Test::Spatial);
    let temporal = count_checks(&checked, Test::Temporal);
    println!(rt;
        "{}: {} checks, {spatial} and {temporal}",
        row.name,
        checks(&checked)
    )?;
    if row.has_tables {
        put_tables(rt, &code)?;
    }
    put_code(rt, "before", row, &code, done)?;
    put_code(rt, "after", row, &checked, done)
}

fn put_code(rt: &HostRuntime, when: &str, row: &Row, code: &Tac, done: &mut [bool]) -> Result<()> {
    let input = Vec::from_slice(rt.alloc(), &row.input)?;
    let ran = run(rt.alloc(), &row.budgets, code, input, done)?;
    put_run(rt, when, row, &ran)
}

fn nodes_of(code: &Tac) -> usize {
    let mut nodes = 0usize;
    for function in code.functions.as_slice() {
        nodes = nodes.saturating_add(function.code.as_slice().len());
    }
    nodes
}

// Goes so far with the program of a text.
fn put_phase(rt: &HostRuntime, phase: &str, text: &[u8]) -> Result<()> {
    let alloc = rt.alloc();
    let program = typed(alloc, text)?;
    if phase == "type" {
        println!(rt; "typed")?;
        return Ok(());
    }
    let code = lowered(alloc, &program)?;
    match phase {
        "lower" => println!(rt; "{} nodes", nodes_of(&code))?,
        "insert" => println!(rt; "{} nodes", nodes_of(&insert(alloc, code)?))?,
        _ => bail!("no phase"),
    }
    Ok(())
}
