//! Compares listings with those of other tools. Standard input has rows, with a line `%%` between each two. A row is a
//! text, but for those of the three words below; for a text the program prints the bytes that it is read as, in
//! hexadecimal digits, or its fault and the line. Of these rows it prints
//! - `%line LINE`, the line of an instruction: the bytes that it is read as, and the line that these are listed as;
//! - `%list FIRST COUNT BYTES`, a range of code and bytes in hexadecimal digits: their listing;
//! - `%trip BYTES`: whether the listing of the bytes, all of them code, is read as the bytes.
//!
//! `stdin` and `stdout` are made by `vectors.py` beside them: lines of instructions by the assembler of GNU Binutils,
//! the others by hand, with what `docs/FORMATS.md` says of them.
#![tactic(auto)]

use anyhow::{Result, bail};
use rv_listing::{ListRefusal, list_text, read_list};
use std::io;

fn main(rt: HostRuntime) -> Result<()> {
    let input = io::read_to_string(rt.alloc(), rt.reader())?;
    for row in input.as_str().split("%%\n") {
        put_row(&rt, row)?;
    }
    Ok(())
}

fn put_row(rt: &HostRuntime, row: &str) -> Result<()> {
    let (asked, given) = row.split_once(" ").unwrap_or((row, ""));
    match asked {
        "%line" => put_line(rt, given),
        "%list" => put_listing(rt, given),
        "%trip" => put_trip(rt, given),
        _ => put_read(rt, row.as_bytes()),
    }
}

// The bytes of a listing.
fn read(rt: &HostRuntime, text: &[u8]) -> Result<Vec<u8>> {
    match read_list(rt.alloc(), text) {
        Ok(bytes) => Ok(bytes),
        Err(_) => bail!("a listing is refused"),
    }
}

fn put_read(rt: &HostRuntime, text: &[u8]) -> Result<()> {
    match read_list(rt.alloc(), text) {
        Ok(bytes) => println!(rt; "{}", hex::encode(rt.alloc(), &bytes)?)?,
        Err(ListRefusal::Fault { kind, line }) => {
            println!(rt; "fault {} at line {line}", kind.number())?;
        }
        Err(ListRefusal::Memory) => bail!("out of memory"),
    }
    Ok(())
}

fn put_line(rt: &HostRuntime, line: &str) -> Result<()> {
    let text = format!(in rt.alloc(); ".image 4\n{line}")?;
    let bytes = read(rt, text.as_bytes())?;
    let listed = list_text(rt.alloc(), &bytes, &[(0, 4)])?;
    let (_, again) = str::from_utf8(&listed)?
        .split_once("\n")
        .unwrap_or(("", ""));
    print!(rt; "{} {again}", hex::encode(rt.alloc(), &bytes)?)?;
    Ok(())
}

fn put_listing(rt: &HostRuntime, given: &str) -> Result<()> {
    let (first, rest) = given.split_once(" ").unwrap_or((given, ""));
    let (count, digits) = rest.split_once(" ").unwrap_or((rest, ""));
    let bytes = hex::decode(rt.alloc(), digits.trim_end())?;
    let listed = list_text(
        rt.alloc(),
        &bytes,
        &[(first.parse::<u64>()?, count.parse::<u64>()?)],
    )?;
    print!(rt; "{}", str::from_utf8(&listed)?)?;
    Ok(())
}

fn put_trip(rt: &HostRuntime, given: &str) -> Result<()> {
    let bytes = hex::decode(rt.alloc(), given.trim_end())?;
    let listed = list_text(rt.alloc(), &bytes, &[(0, bytes.len() as u64)])?;
    let again = read(rt, &listed)?;
    let same = bytes.as_slice() == again.as_slice();
    println!(rt; "{same}")?;
    Ok(())
}
