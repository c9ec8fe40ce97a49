//! What is told of a row.

use crate::row::Row;
use anyhow::Result;
use tac_interpreter::{Access, Cause, Finder, Outcome, Stop};
use tac_ir::{CodeFunction, Instruction, Tac, Test};

/// How many times the work of its meaning the code of a program may do.
const WORK: u64 = 8;

// The status of a run that a cause ended, and what is reported.
fn report_of(cause: Cause) -> (u8, &'static str) {
    match cause {
        Cause::Spatial => (120, "spatial violation"),
        Cause::Temporal => (121, "temporal violation"),
        Cause::BadCall => (122, "bad call"),
        Cause::BadFree => (123, "bad free"),
        Cause::Divide => (124, "division by zero"),
        Cause::Stack => (125, "stack exhausted"),
        Cause::Keys => (126, "keys exhausted"),
        Cause::Abort => (134, "abort"),
    }
}

// The word for what found a wrong access.
fn name_of(finder: Finder) -> &'static str {
    match finder {
        Finder::Access => "access",
        Finder::Check => "check",
        Finder::Routine => "routine",
        Finder::Other => "other",
    }
}

// Prints the end of a run at a line, and gives the bytes of its report with its newline.
fn put_end(rt: &HostRuntime, cause: Cause, line: u32, finder: Finder) -> Result<u64> {
    let (status, what) = report_of(cause);
    let report = format!(in rt.alloc(); "sbcets: {what} at line {line}")?;
    print!(rt; "{status} {report}")?;
    if cause == Cause::Spatial || cause == Cause::Temporal {
        print!(rt; " ({})", name_of(finder))?;
    }
    Ok((report.len() as u64).saturating_add(1))
}

// Prints how a run stopped, and gives the bytes of its report.
fn put_stop(rt: &HostRuntime, stop: Stop, finder: Finder) -> Result<u64> {
    match stop {
        Stop::Exited(status) => print!(rt; "{}", status.rem_euclid(256))?,
        Stop::Ended(cause, line) => return put_end(rt, cause, line, finder),
        Stop::Stuck => print!(rt; "stuck")?,
        Stop::Paused => print!(rt; "running")?,
        Stop::Memory => print!(rt; "memory")?,
    }
    Ok(0)
}

// Prints bytes in quotation marks; one that is no printable character of ASCII is an escape.
fn put_output(rt: &HostRuntime, bytes: &[u8]) -> Result<()> {
    print!(rt; " \"")?;
    for byte in bytes {
        match *byte {
            b' '..=b'~' => print!(rt; "{}", char::from(*byte))?,
            other => print!(rt; "\\x{other:02x}")?,
        }
    }
    print!(rt; "\"")?;
    Ok(())
}

fn put_accesses(rt: &HostRuntime, accesses: &[Access]) -> Result<()> {
    print!(rt; " {} accesses", accesses.len())?;
    for access in accesses {
        let kind = if access.is_write { 'w' } else { 'r' };
        print!(rt; " {kind}{:x}+{}", access.address, access.size)?;
    }
    Ok(())
}

/// Prints a line on a run: how it stopped, what it put out, and of a row that asks for it its turns, whether its work
/// is within what is promised, and its accesses.
pub fn put_run(rt: &HostRuntime, when: &str, row: &Row, ran: &Outcome) -> Result<()> {
    print!(rt; "  {when}: ")?;
    let report = put_stop(rt, ran.stop, ran.finder)?;
    put_output(rt, &ran.output)?;
    if let Some(work) = row.work {
        let is_within = ran.work.saturating_add(report) <= work.saturating_mul(WORK);
        let word = if is_within { "within" } else { "over" };
        print!(rt; " {} turns, {word}", ran.turns)?;
    }
    if row.has_accesses {
        put_accesses(rt, &ran.accesses)?;
    }
    println!(rt; "")?;
    Ok(())
}

fn is_check(instruction: &Instruction, of: Test) -> bool {
    match instruction {
        Instruction::Judge { test, .. } => *test == of,
        _ => false,
    }
}

fn count_in(function: &CodeFunction, of: Test) -> usize {
    let code = function.code.as_slice().iter();
    code.filter(|instruction| is_check(instruction, of)).count()
}

/// How many checks of a kind a program has.
pub fn count_checks(code: &Tac, of: Test) -> usize {
    let mut count = 0usize;
    for function in code.functions.as_slice() {
        count = count.saturating_add(count_in(function, of));
    }
    count
}
