//! Rows: a text, and what its run is given.

use anyhow::{Context, Result};
use std::alloc::Global;
use std::str::Split;
use tac_interpreter::Budgets;

/// A row.
#[derive(Drop)]
pub struct Row<'a> {
    pub name: &'a str,
    pub budgets: Budgets,
    /// The units of work of the text's meaning, if its turns and its work are asked for.
    pub work: Option<u64>,
    /// Whether its accesses are asked for.
    pub has_accesses: bool,
    /// Whether the keys and counted loops of its code are asked for.
    pub has_tables: bool,
    pub input: Vec<u8>,
    pub text: &'a str,
}

fn number(words: &mut Split<char>) -> Result<u64> {
    let word = words.next().context("a number")?;
    Ok(word.parse()?)
}

fn budgets(words: &mut Split<char>) -> Result<Budgets> {
    let heap = number(words)?;
    let stack = number(words)?;
    let calls = number(words)?;
    let blocks = number(words)?;
    let keys = number(words)?;
    let turns = number(words)?;
    Ok(Budgets {
        heap,
        stack,
        calls,
        blocks,
        keys,
        turns,
    })
}

impl<'a> Row<'a> {
    /// The row of a text whose first line says what its run is given.
    pub fn parse(alloc: Global, text: &'a str) -> Result<Row<'a>> {
        let (line, text) = text.split_once('\n').context("a line")?;
        let mut words = line.split(' ');
        let name = words.next().context("a name")?;
        let budgets = budgets(&mut words)?;
        let work = words.next().context("work")?.parse().ok();
        let has_accesses = words.next().context("accesses")? == "accesses";
        let has_tables = words.next().context("tables")? == "tables";
        let input = hex::decode(alloc, words.next().unwrap_or(""))?;
        Ok(Row {
            name,
            budgets,
            work,
            has_accesses,
            has_tables,
            input,
            text,
        })
    }
}
