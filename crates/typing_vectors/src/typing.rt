//! What the typing of a source comes to.

use crate::statics::put_statics;
use anyhow::{Result, bail};
use c_faults::Fault;
use c_lexer::{Tokens, lex};
use c_parser::{parse, release};
use c_pre::expand;
use c_syntax::Unit;
use c_tree::Program;
use c_typer::{UnitRefusal, type_unit};
use c_unit_typing::limits::Limited;
use sb_base::Line;

/// What is asked of a source.
#[derive(Clone, Copy, PartialEq, Eq)]
pub enum Question {
    /// Which rule it violates, if any.
    Rule,
    /// What its static objects hold before a run, too.
    Statics,
}

// The word of a limit, as the tool's line has it.
fn name_of(which: Limited) -> &'static str {
    match which {
        Limited::Functions => "functions",
        Limited::Parameters => "parameters",
        Limited::Members => "members",
        Limited::Globals => "globals",
    }
}

fn put_typed(rt: &HostRuntime, question: Question, program: &Program) -> Result<()> {
    if question == Question::Statics {
        put_statics(rt, program)?;
    }
    println!(rt; "typed")?;
    Ok(())
}

fn put_fault(rt: &HostRuntime, fault: Fault) -> Result<()> {
    println!(rt; "rule {} line {}", fault.rule.number(), fault.line.number())?;
    Ok(())
}

fn put_inconstant(rt: &HostRuntime, line: Line) -> Result<()> {
    println!(rt; "not constant line {}", line.number())?;
    Ok(())
}

fn put_limit(rt: &HostRuntime, which: Limited, count: u128) -> Result<()> {
    println!(rt; "{} {count}", name_of(which))?;
    Ok(())
}

fn put_refusal(rt: &HostRuntime, refusal: UnitRefusal) -> Result<()> {
    match refusal {
        UnitRefusal::Fault(fault) => put_fault(rt, fault),
        UnitRefusal::NotConstant(line) => put_inconstant(rt, line),
        UnitRefusal::TooLarge(which, count) => put_limit(rt, which, count),
        UnitRefusal::RoomTooLarge(number) => bail!("function {number} has no room"),
        UnitRefusal::Memory => bail!("out of memory"),
    }
}

fn put_unit(rt: &HostRuntime, question: Question, end: Line, unit: &Unit) -> Result<()> {
    match type_unit(rt.alloc(), end, unit) {
        Ok(program) => put_typed(rt, question, &program),
        Err(refusal) => put_refusal(rt, refusal),
    }
}

fn put_tokens(rt: &HostRuntime, question: Question, tokens: &Tokens) -> Result<()> {
    match parse(rt.alloc(), tokens) {
        Ok(unit) => {
            let ended = put_unit(rt, question, tokens.end(), &unit);
            release(unit);
            ended
        }
        Err(_) => bail!("a text has no tree"),
    }
}

/// Prints what is asked of a text: a line for each static object, if these are asked for and it is typed, and a line
/// that it is typed, or why not. An error: a line is not printed, there is no memory, or the text has no tree, or too
/// many bytes.
pub fn put_verdict(rt: &HostRuntime, question: Question, text: &[u8]) -> Result<()> {
    if text.len() > 1_048_576 {
        bail!("a text is too long");
    }
    match lex(rt.alloc(), text) {
        Ok(tokens) => match expand(rt.alloc(), tokens) {
            Ok(expanded) => put_tokens(rt, question, &expanded),
            Err(_) => bail!("a text has directives that are wrong"),
        },
        Err(_) => bail!("a text has no tokens"),
    }
}
