//! Tests of the crates at the bottom: budgets and endings, words of a command, regions of memory, images, what is
//! outside. Each line of standard input is a row, whose first word says what is asked, and for which the program prints
//! what came:
//! - `budgets HEAP STACK CALLS BLOCKS KEYS`, `default`: the budgets, or the fault;
//! - `exit CODE`, `ending NUMBER LINE`: the code of an ending, and its report before the dots that stood there;
//! - `words WORDS`, `owned WORDS`, `nothing`: the command of the words;
//! - `work SEED COUNT`: how many bytes the source has that this command compiles, and the source;
//! - `map BYTES`, `region BYTES NUMBER`, `function NUMBER`: the map of so many bytes of static objects, the first and
//!   the last address of a region, the address of a function;
//! - `image`: an image that is written and read back;
//! - `source`, `sink`, `files`, `streams`, `host`: what objects of the outside give in turn (`outside.rt`, `host.rt`).
//!
//! `stdin` and `stdout` are made by `vectors.py` beside them, where each answer stands by hand.
#![tactic(auto)]

mod budgets;
mod commands;
mod host;
mod images;
mod outside;
mod regions;
mod row;

use crate::row::Asked;
use anyhow::Result;
use std::io::{BufRead, BufReader};

fn main(rt: HostRuntime) -> Result<()> {
    for line in BufReader::new(rt.alloc(), rt.reader())?.lines(rt.alloc()) {
        let line = line?;
        put_row(&rt, line.as_str())?;
    }
    Ok(())
}

fn put_row(rt: &HostRuntime, row: &str) -> Result<()> {
    let (word, given) = row.split_once(" ").unwrap_or((row, ""));
    match row::kind_of(word)? {
        Asked::Budgets => budgets::put_new(rt, given),
        Asked::Default => budgets::put_default(rt),
        Asked::Exit => budgets::put_exit(rt, given),
        Asked::Ending => budgets::put_ending(rt, given),
        Asked::Words => commands::put(rt, given),
        Asked::Owned => commands::put_owned(rt, given),
        Asked::Nothing => commands::put_nothing(rt),
        Asked::Work => commands::put_work(rt, given),
        Asked::Map => regions::put_map(rt, given),
        Asked::Region => regions::put_region(rt, given),
        Asked::Function => regions::put_function(rt, given),
        Asked::Image => images::put(rt),
        Asked::Source => outside::put_source(rt),
        Asked::Sink => outside::put_sink(rt),
        Asked::Files => outside::put_files(rt),
        Asked::Streams => outside::put_streams(rt),
        Asked::Host => host::put(rt),
    }
}
