//! Definitions of macros that double.

use anyhow::{Context, Result};
use std::alloc::{AllocError, Global};

/// The text of `%doubled N` and the lines behind it: the words that a1 stands for, and what stands behind the
/// definitions.
pub fn text_of(alloc: Global, asked: &str, given: &str) -> Result<String> {
    let number = asked.split(' ').skip(1).next().context("a number")?;
    let (first, behind) = given.split_once("\n").context("two lines")?;
    let mut text = format!(in alloc; "#define a1 {first}\n")?;
    push_doubled(alloc, &mut text, number.parse()?)?;
    text.push_str(behind)?;
    Ok(text)
}

// Definitions of a name with each number from 2 to the last.
fn push_doubled(alloc: Global, text: &mut String, last: u32) -> Result<(), AllocError> {
    for n in 1..last {
        let line = format!(in alloc; "#define a{} a{n} a{n}\n", n + 1)?;
        text.push_str(line.as_str())?;
    }
    Ok(())
}
