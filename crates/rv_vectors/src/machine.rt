//! The machine's operations, the ends of its runs and the tests of an image. Each row is a line, whose numbers are in
//! hexadecimal digits, and for each the program prints one line, but for `cuts`:
//! - the name of an operation, the word of `NAME a2,a0,a1` or `NAME a2,a0,IMMEDIATE`, and the values of a0 and a1: the
//!   value of a2 that the operation gives. It is run in an image that loads the operands and does the operation.
//! - `run WORDS`: how a run ends whose rows begin with these words (`run_row.rt`).
//! - `copy INPUT FAILS LIMITS`: how a program that copies a byte ends, and what it has written (`copy_row.rt`).
//! - `image CHANGES`: whether a file with these changes is an image, or its fault (`image_row.rt`).
//! - `cuts`: the same of the file cut to each length, each length at which the answer is another one.

use crate::case::Case;
use crate::{copy_row, image_row, run_row};
use anyhow::Result;

/// Prints what comes of each row.
pub fn put_all(rt: &HostRuntime, rows: &str) -> Result<()> {
    for row in rows.lines() {
        put_row(rt, row)?;
    }
    Ok(())
}

fn put_row(rt: &HostRuntime, row: &str) -> Result<()> {
    match row.split(' ').next() {
        Some("run") => run_row::put(rt, row),
        Some("copy") => copy_row::put(rt, row),
        Some("image") => image_row::put(rt, row),
        Some("cuts") => image_row::put_cuts(rt),
        _ => put_case(rt, row),
    }
}

fn put_case(rt: &HostRuntime, row: &str) -> Result<()> {
    let result = Case::parse(row)?.run(rt.alloc())?;
    println!(rt; "{result:016x}")?;
    Ok(())
}
