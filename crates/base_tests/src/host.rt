//! Files of the system.

use crate::outside::put_read;
use anyhow::Result;
use sb_outside::{Files, HostFiles};
use std::fs;

const NAME: &str = "sb_outside_test.bytes";

/// Prints what a write of ten bytes to a file gives, two reads of at most ten and nine bytes, a read once it was
/// removed, and a write into a folder that is not there.
pub fn put(rt: &HostRuntime) -> Result<()> {
    let mut files = HostFiles::new(rt);
    println!(rt; "{:?}", files.write(NAME, b"some bytes"))?;
    put_read(rt, files.read(rt.alloc(), NAME, 10))?;
    put_read(rt, files.read(rt.alloc(), NAME, 9))?;
    fs::remove_file(rt, NAME)?;
    put_read(rt, files.read(rt.alloc(), NAME, 9))?;
    println!(rt; "{:?}", files.write("no_such_folder/file", b""))?;
    Ok(())
}
