//! Compares the instruction table, the assembler and the machine with other ones. Standard input has parts, with a line
//! `%%%` between each two, and the first line of a part says what its rows are:
//! - `lists`: labelled lists, with a line `%%` between each two (`list.rt`);
//! - `words`: words of instructions, one a line (`word.rt`);
//! - `machine`: operations, runs and images, one a line (`machine.rt`).
//!
//! `stdin` and `stdout` are made by the assembler and the disassembler of GNU Binutils for Debian 2.40 and by
//! qemu-riscv64 7.2.22 (Debian 12, binutils-riscv64-linux-gnu and qemu-user), as `vectors.py` beside them says, and by
//! hand.
#![tactic(auto)]

mod case;
mod copy_row;
mod image_row;
mod list;
mod listing;
mod machine;
mod made;
mod names;
mod number;
mod run_row;
mod sample;
mod word;

use anyhow::{Result, bail};
use std::io;

fn main(rt: HostRuntime) -> Result<()> {
    let input = io::read_to_string(rt.alloc(), rt.reader())?;
    put_parts(&rt, input.as_str())
}

fn put_parts(rt: &HostRuntime, parts: &str) -> Result<()> {
    for part in parts.split("%%%\n") {
        let (rows, given) = part.split_once("\n").unwrap_or((part, ""));
        match rows {
            "lists" => list::put_all(rt, given)?,
            "words" => word::put_all(rt, given)?,
            "machine" => machine::put_all(rt, given)?,
            _ => bail!("no rows"),
        }
    }
    Ok(())
}
