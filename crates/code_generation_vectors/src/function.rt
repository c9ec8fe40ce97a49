//! Functions as text.

use crate::families::Body;
use crate::list::push;
use anyhow::{Context, Result, ensure};
use flat_code::FlatFunction;
use std::alloc::{AllocError, Global};
use tree_containers::Items;

// Each virtual register has the word with its number as home.
fn homes(alloc: Global, count: u32) -> Result<Vec<u32>, AllocError> {
    let mut homes = Vec::new(alloc);
    for word in 0..count {
        homes.push(word)?;
    }
    Ok(homes)
}

// The instructions of lines.
fn body(alloc: Global, text: &str) -> Result<Body> {
    let mut body = Body::new(alloc);
    for line in text.lines().skip(1) {
        body.put_line(line)?;
    }
    Ok(body)
}

// The function of a text that begins with its numbers.
fn function(alloc: Global, text: &str) -> Result<FlatFunction> {
    let mut lines = text.lines();
    let head = lines.next().context("a function")?;
    let mut words = head.split(' ');
    let parameters: u32 = words.next().context("parameters")?.parse()?;
    let results: u32 = words.next().context("results")?.parse()?;
    let names: u32 = words.next().context("names")?.parse()?;
    ensure!(names <= 1_000_000, "too many names");
    let Body { instructions, .. } = body(alloc, text)?;
    Ok(FlatFunction {
        parameters,
        results,
        room: u64::from(8 + 8 * names),
        is_runtime: words.next() == Some("runtime"),
        homes: Items::from_vec(homes(alloc, names)?),
        body: Items::from_vec(instructions),
    })
}

/// The functions of a program.
pub fn read_functions(alloc: Global, text: &str) -> Result<Vec<FlatFunction>> {
    let mut functions = Vec::new(alloc);
    for part in text.split("function ").skip(1) {
        push(&mut functions, function(alloc, part)?)?;
    }
    Ok(functions)
}
