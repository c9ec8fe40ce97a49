//! Words of instructions. Each row is a word, in 8 hexadecimal digits, or the name of an instruction that is made here
//! (`made.rt`), whose word is what `encode` gives for it. For each the program prints the word that `encode` gives for
//! what `decode` makes of it, and the text of the instruction, whose address is 4 times its row, from 0; or `unknown`
//! for a word that is no instruction of RV64IM.

use crate::listing::Listing;
use crate::made;
use crate::number::word;
use anyhow::Result;
use rv_isa::{Instr, decode, encode};

/// Prints the instruction of each row.
pub fn put_all(rt: &HostRuntime, rows: &str) -> Result<()> {
    let mut address = 0u64;
    for row in rows.lines() {
        put_word(rt, word_of(row)?, address)?;
        address = address.wrapping_add(4);
    }
    Ok(())
}

fn put_word(rt: &HostRuntime, word: u32, address: u64) -> Result<()> {
    match decode(word) {
        Some(instr) => put_instruction(rt, &instr, address),
        None => {
            println!(rt; "unknown")?;
            Ok(())
        }
    }
}

fn put_instruction(rt: &HostRuntime, instr: &Instr, address: u64) -> Result<()> {
    let word = encode(*instr);
    let listing = Listing { instr, address };
    println!(rt; "{word:08x} {listing}")?;
    Ok(())
}

fn word_of(row: &str) -> Result<u32> {
    match made::instruction(row) {
        Some(instr) => Ok(encode(instr)),
        None => word(Some(row)),
    }
}
