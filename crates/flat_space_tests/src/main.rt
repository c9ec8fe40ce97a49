//! Tests of the routines on the runtime's spaces: each is run by a small interpreter of flat code over a memory of
//! words. Each line of standard input is a row, whose first word says what is asked, and for which the program prints
//! what came:
//! - `entries FORM`, `start FORM`: entries of the shadow space of a form, `direct` or `two-level` (`entries.rt`,
//!   `start.rt`);
//! - `births COUNT`: keys and lock words through so many births and deaths (`locks.rt`);
//! - `heap ACTIONS`: where blocks are placed (`heap.rt`);
//! - `judge ADDRESS SIZE WORD`: how the judgement of an access ends (`violations.rt`).
//!
//! `stdin` and `stdout` are made by `vectors.py` beside them: what C99 and the rules of keys say, worked out by hand.
#![tactic(auto)]

mod entries;
mod heap;
mod interpreter;
mod locks;
mod start;
mod violations;

use anyhow::{Result, bail};
use shadow_space::Direct;
use shadow_space::two_levels::TwoLevel;
use std::io::{BufRead, BufReader};

/// What a row asks.
#[derive(Clone, Copy)]
enum Asked {
    DirectEntries,
    TwoLevelEntries,
    DirectStart,
    TwoLevelStart,
    Births,
    Heap,
    Judge,
}

const ROW_WORDS: [(&str, Asked); 7] = [
    ("entries direct", Asked::DirectEntries),
    ("entries two-level", Asked::TwoLevelEntries),
    ("start direct", Asked::DirectStart),
    ("start two-level", Asked::TwoLevelStart),
    ("births ", Asked::Births),
    ("heap ", Asked::Heap),
    ("judge ", Asked::Judge),
];

// What a row asks, and what stands behind that.
fn read_row(row: &str) -> Result<(Asked, &str)> {
    for (words, asked) in ROW_WORDS.iter() {
        if let Some(given) = row.strip_prefix(*words) {
            return Ok((*asked, given));
        }
    }
    bail!("no row")
}

fn main(rt: HostRuntime) -> Result<()> {
    for line in BufReader::new(rt.alloc(), rt.reader())?.lines(rt.alloc()) {
        let line = line?;
        put_row(&rt, line.as_str())?;
    }
    Ok(())
}

fn put_row(rt: &HostRuntime, row: &str) -> Result<()> {
    let (asked, given) = read_row(row)?;
    match asked {
        Asked::DirectEntries => entries::put::<Direct>(rt),
        Asked::TwoLevelEntries => entries::put::<TwoLevel>(rt),
        Asked::DirectStart => start::put::<Direct>(rt),
        Asked::TwoLevelStart => start::put::<TwoLevel>(rt),
        Asked::Births => locks::put(rt, given),
        Asked::Heap => heap::put(rt, given),
        Asked::Judge => violations::put(rt, given),
    }
}
