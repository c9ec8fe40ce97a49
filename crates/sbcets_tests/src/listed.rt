//! Images through their listings.
use anyhow::{Context, Result};
use sb_outside::{Files, MemFiles, MemSink, MemSource};
use sbcets_core::sbcets;
use std::alloc::Global;

// How many bytes a listing can have.
const ROOM: u64 = 4_194_304;

/// Whether an image is listed by `list`, and its listing put together by `asm` as the same bytes.
pub fn is_listed(alloc: Global, image: &[u8]) -> Result<bool> {
    let mut files = files_of(alloc, image)?;
    let listing = output_of(alloc, "list it.img", &mut files)?;
    files
        .write("it.lst", &listing)
        .ok()
        .context("room for a listing")?;
    output_of(alloc, "asm it.lst made.img", &mut files)?;
    let made = files
        .read(alloc, "made.img", ROOM)
        .ok()
        .context("an image")?;
    Ok(made.as_slice() == image)
}

fn files_of(alloc: Global, image: &[u8]) -> Result<MemFiles> {
    let mut pairs = Vec::new(alloc);
    pairs.push((
        String::from_str(alloc, "it.img")?,
        Vec::from_slice(alloc, image)?,
    ))?;
    pairs.push((String::from_str(alloc, "it.lst")?, Vec::new(alloc)))?;
    pairs.push((String::from_str(alloc, "made.img")?, Vec::new(alloc)))?;
    Ok(MemFiles::new(alloc, &pairs, ROOM, &[], &[])?)
}

// What the output takes of a call with these words.
fn output_of(alloc: Global, line: &str, files: &mut MemFiles) -> Result<Vec<u8>> {
    let mut words = Vec::new(alloc);
    for word in line.split_whitespace() {
        words.push(String::from_str(alloc, word)?)?;
    }
    let mut input = MemSource::new(alloc, &[], &[])?;
    let mut output = MemSink::new(alloc, ROOM, &[])?;
    let mut errors = MemSink::new(alloc, ROOM, &[])?;
    sbcets(alloc, &words, files, &mut input, &mut output, &mut errors);
    Ok(Vec::from_slice(alloc, output.bytes())?)
}
