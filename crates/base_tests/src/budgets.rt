//! Budgets and endings.

use crate::row::number;
use anyhow::{Context, Result, bail};
use sb_base::{Budgets, Ending, Line};

/// `HEAP STACK CALLS BLOCKS KEYS`: prints the budgets of these sizes, or the fault.
pub fn put_new(rt: &HostRuntime, sizes: &str) -> Result<()> {
    let mut words = sizes.split(' ');
    let heap = number(words.next())?;
    let stack = number(words.next())?;
    let calls = number(words.next())?;
    let blocks = number(words.next())?;
    match Budgets::new(heap, stack, calls, blocks, number(words.next())?) {
        Ok(budgets) => put_sizes(rt, budgets),
        Err(fault) => {
            println!(rt; "{fault:?}")?;
            Ok(())
        }
    }
}

/// Prints the sizes of the default budgets.
pub fn put_default(rt: &HostRuntime) -> Result<()> {
    put_sizes(rt, Budgets::default())
}

fn put_sizes(rt: &HostRuntime, of: Budgets) -> Result<()> {
    let sizes = [of.heap(), of.stack(), of.calls(), of.blocks(), of.keys()];
    println!(rt; "{sizes:?}")?;
    Ok(())
}

/// `CODE`: prints the code and the report of an exit.
pub fn put_exit(rt: &HostRuntime, code: &str) -> Result<()> {
    put(rt, Ending::Exit(code.parse()?))
}

/// `NUMBER LINE`: prints the code and the report of a violation on this line, by its number among those of `violation`.
pub fn put_ending(rt: &HostRuntime, given: &str) -> Result<()> {
    let mut words = given.split(' ');
    let which = number(words.next())?;
    let line: u32 = words.next().context("a line")?.parse()?;
    if line == 0 {
        bail!("lines count from 1");
    }
    put(rt, violation(which, Line::new(line))?)
}

fn violation(which: u64, line: Line) -> Result<Ending> {
    Ok(match which {
        0 => Ending::Spatial(line),
        1 => Ending::Temporal(line),
        2 => Ending::BadCall(line),
        3 => Ending::BadFree(line),
        4 => Ending::Divide(line),
        5 => Ending::Stack(line),
        6 => Ending::Keys(line),
        7 => Ending::Abort(line),
        _ => bail!("no violation"),
    })
}

fn put(rt: &HostRuntime, ending: Ending) -> Result<()> {
    let mut text = [b'.'; 64];
    let count = ending.report_into(&mut text);
    let text = str::from_utf8(&text)?;
    println!(rt; "{} {count} {text}", ending.code())?;
    Ok(())
}
