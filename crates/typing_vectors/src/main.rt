// Types sources, and tells what their static objects hold. Standard input has two parts, with a line `%%%` between
// them, and in each a line `%%` between each two sources.
//
// For each source of the first is printed the first rule that it violates and its line, or what it has too much of and
// how much, or that it is typed. For one of the second come before this its static objects, in the order of their
// names, with the bytes that they hold before a run.
//
// `stdin` and `stdout` are made by `vectors.py` beside them, of the tables of `typing_rows.py`, which were worked out
// by hand; what gcc 12.2.0 says of them stands there. What static objects hold is what gcc's object files hold
// (`static_rows.py`).
#![tactic(auto)]

mod statics;
mod typing;

use crate::typing::{Question, put_verdict};
use anyhow::{Context, Result};
use std::io;

fn main(rt: HostRuntime) -> Result<()> {
    let input = io::read_to_string(rt.alloc(), rt.reader())?;
    let (sources, statics) = input.as_str().split_once("%%%\n").context("two parts")?;
    put_verdicts(&rt, Question::Rule, sources)?;
    put_verdicts(&rt, Question::Statics, statics)
}

fn put_verdicts(rt: &HostRuntime, question: Question, texts: &str) -> Result<()> {
    for text in texts.split("%%\n") {
        put_verdict(rt, question, text.as_bytes())?;
    }
    Ok(())
}
