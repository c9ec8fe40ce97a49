// Compares the parser with other ones. Standard input has rows, with a line `%%` between each two. A row that begins
// with no `%` is a text, for which the program prints `accepted` or `refused`, or `nested` where only its levels are
// too many. The first line of another row says what is asked of what stands behind it:
// - `%fault`, a text: the place of the token and the line of its fault, or the word that is in no part of the subset;
// - `%times N`, five lines: the verdict on the text of the first, N times the second, the third, N times the fourth,
//   and the fifth;
// - `%item`, statements, where T is a typedef name: what the first of them is (`item.rt`);
// - `%tree`: the words of a tree that is made by hand, and whether it is well formed (`made_tree.rt`).
//
// `stdin` and `stdout` are made by gcc 12.2.0 and clang 14.0.6 (Debian 12), which agree, as `vectors.py` beside them
// says. Behind these rows come 196 texts of which the grammar of the subset has another verdict than they, or the same
// for another reason, each with its reason in `vectors.py`: what the subset leaves out, and what is no matter of the
// grammar, as types. Last come the other rows, whose answers stand in `written.py` by hand.
#![tactic(auto)]

mod item;
mod made_tree;
mod verdict;

use crate::verdict::{Verdict, verdict_of};
use anyhow::{Context, Result, bail};
use std::alloc::{AllocError, Global};
use std::io;

fn main(rt: HostRuntime) -> Result<()> {
    let input = io::read_to_string(rt.alloc(), rt.reader())?;
    for row in input.as_str().split("%%\n") {
        if row.starts_with("%") {
            put_row(&rt, row)?;
        } else {
            put_name(&rt, row)?;
        }
    }
    Ok(())
}

fn put_row(rt: &HostRuntime, row: &str) -> Result<()> {
    let (asked, text) = row.split_once("\n").context("a line")?;
    match asked {
        "%fault" => put_fault(rt, text),
        "%item" => item::put(rt, text),
        "%tree" => made_tree::put(rt),
        _ => put_repeated(rt, asked, text),
    }
}

fn put_name(rt: &HostRuntime, text: &str) -> Result<()> {
    let verdict = verdict_of(rt.alloc(), text.as_bytes())?;
    println!(rt; "{}", verdict.name())?;
    Ok(())
}

fn put_fault(rt: &HostRuntime, text: &str) -> Result<()> {
    match verdict_of(rt.alloc(), text.as_bytes())? {
        Verdict::Refused { at, line } => println!(rt; "token {at} line {}", line.number())?,
        Verdict::Unsupported { word, line } => {
            let spelling = str::from_utf8(word.told_as())?;
            println!(rt; "{spelling} line {}", line.number())?;
        }
        Verdict::Accepted | Verdict::Nested { .. } => println!(rt; "no fault")?,
    }
    Ok(())
}

fn put_repeated(rt: &HostRuntime, asked: &str, parts: &str) -> Result<()> {
    let times: u32 = match asked.split(' ').skip(1).next() {
        Some(digits) => digits.parse()?,
        None => bail!("no row"),
    };
    let text = repeated(rt.alloc(), parts, times)?;
    put_name(rt, text.as_str())
}

// The text of the lines, the second and the fourth of which stand there so many times.
fn repeated(alloc: Global, parts: &str, times: u32) -> Result<String, AllocError> {
    let mut text = String::new(alloc);
    for (place, part) in parts.lines().enumerate() {
        let count = if place % 2 == 1 { times } else { 1 };
        push_times(&mut text, part, count)?;
    }
    Ok(text)
}

fn push_times(text: &mut String, part: &str, times: u32) -> Result<(), AllocError> {
    for _ in 0..times {
        text.push_str(part)?;
    }
    Ok(())
}
