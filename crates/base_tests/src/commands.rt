//! The command of words, and the source that `work` compiles.

use crate::row::number;
use anyhow::Result;
use command_line::{command_of, work_source};

/// Prints the command of words, with a space between each two.
pub fn put(rt: &HostRuntime, given: &str) -> Result<()> {
    let words: Vec<&str> = given.split(' ').collect(rt.alloc())?;
    println!(rt; "{:?}", command_of(rt.alloc(), words.as_slice()))?;
    Ok(())
}

/// Prints the command of words that are owned.
pub fn put_owned(rt: &HostRuntime, given: &str) -> Result<()> {
    let mut words: Vec<String> = Vec::new(rt.alloc());
    for word in given.split(' ') {
        words.push(word.to_string(rt.alloc())?)?;
    }
    println!(rt; "{:?}", command_of(rt.alloc(), words.as_slice()))?;
    Ok(())
}

/// Prints the command of no words.
pub fn put_nothing(rt: &HostRuntime) -> Result<()> {
    let none: [&str; 0] = [];
    println!(rt; "{:?}", command_of(rt.alloc(), none.as_slice()))?;
    Ok(())
}

/// `SEED COUNT`: prints how many bytes the source has that `work` compiles, and the source.
pub fn put_work(rt: &HostRuntime, given: &str) -> Result<()> {
    let mut words = given.split(' ');
    let seed = number(words.next())?;
    let source = work_source(rt.alloc(), seed, number(words.next())?)?;
    println!(rt; "{} bytes", source.len())?;
    print!(rt; "{}", str::from_utf8(&source)?)?;
    Ok(())
}
