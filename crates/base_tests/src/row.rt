//! The words of rows.

use anyhow::{Context, Result, bail};

/// What a row asks.
#[derive(Clone, Copy)]
pub enum Asked {
    Budgets,
    Default,
    Exit,
    Ending,
    Words,
    Owned,
    Nothing,
    Work,
    Map,
    Region,
    Function,
    Image,
    Source,
    Sink,
    Files,
    Streams,
    Host,
}

const WORDS: [(&str, Asked); 17] = [
    ("budgets", Asked::Budgets),
    ("default", Asked::Default),
    ("exit", Asked::Exit),
    ("ending", Asked::Ending),
    ("words", Asked::Words),
    ("owned", Asked::Owned),
    ("nothing", Asked::Nothing),
    ("work", Asked::Work),
    ("map", Asked::Map),
    ("region", Asked::Region),
    ("function", Asked::Function),
    ("image", Asked::Image),
    ("source", Asked::Source),
    ("sink", Asked::Sink),
    ("files", Asked::Files),
    ("streams", Asked::Streams),
    ("host", Asked::Host),
];

/// What a row asks that begins with this word.
pub fn kind_of(word: &str) -> Result<Asked> {
    for (name, asked) in WORDS.iter() {
        if *name == word {
            return Ok(*asked);
        }
    }
    bail!("no row")
}

/// The number of a word, in decimal digits.
pub fn number(word: Option<&str>) -> Result<u64> {
    Ok(word.context("a number")?.parse()?)
}
