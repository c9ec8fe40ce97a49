//! The calls of a case, and what each shows.
use crate::case::Case;
use crate::text::escaped;
use anyhow::{Context, Result, bail};
use sb_base::Budgets;
use sb_base::budget::{DEFAULT_BLOCKS, DEFAULT_CALLS, DEFAULT_HEAP, DEFAULT_KEYS, DEFAULT_STACK};
use sb_outside::{Files, MemFiles, MemSink, MemSource};
use sbcets_core::{Built, Counted, SourceRefusal, compile, sbcets};
use std::alloc::Global;

// How many bytes each file can take.
const FILE_ROOM: u64 = 262_144;

// The file that holds what the last call of `list` put out.
const LISTING: &str = "hi.lst";

// How many bytes the error output can take.
const ERROR_ROOM: u64 = 4096;

/// Makes the calls of a case, one after the other over the same files, and prints a line for each: its status, what the
/// output and the error output took, and of a case that holds an image how much of it `hi.img` holds, and whether
/// the call gave it.
pub fn put_calls(rt: &HostRuntime, case: &Case) -> Result<()> {
    let alloc = rt.alloc();
    if case.is_compiled {
        put_compiled(rt, case)?;
    }
    let image = image_of_source(alloc, case)?;
    let mut files = files_of(alloc, case)?;
    for words in case.calls.iter() {
        let given = put_call(rt, case, words, &mut files)?;
        if case.holds_image {
            let held = image_in(alloc, &mut files)?;
            put_share(rt, "file", &held, &image)?;
            put_share(rt, "image", &given, &image)?;
        }
        println!(rt; "")?;
    }
    Ok(())
}

// The budgets where none are asked for.
fn budgets() -> Result<Budgets> {
    let budgets = Budgets::new(
        DEFAULT_HEAP,
        DEFAULT_STACK,
        DEFAULT_CALLS,
        DEFAULT_BLOCKS,
        DEFAULT_KEYS,
    );
    budgets.ok().context("the budgets where none are asked for")
}

fn image_in(alloc: Global, files: &mut MemFiles) -> Result<Vec<u8>> {
    let bytes = files.read(alloc, "hi.img", FILE_ROOM).ok();
    bytes.context("the bytes of hi.img")
}

// The image of the source where the case holds one.
fn image_of_source(alloc: Global, case: &Case) -> Result<Vec<u8>> {
    if !case.holds_image {
        return Ok(Vec::new(alloc));
    }
    match compile(alloc, &case.source, &budgets()?) {
        Ok(built) => Ok(built.image),
        Err(_) => bail!("the source of a case that holds an image is refused"),
    }
}

// Prints what `compile` says of the source of a case that asks for it: the number of checks, or that it or its code is
// too large.
fn put_compiled(rt: &HostRuntime, case: &Case) -> Result<()> {
    match compile(rt.alloc(), &case.source, &budgets()?) {
        Ok(built) => put_checks(rt, &built),
        Err(refusal) => put_refusal(rt, &refusal),
    }
}

fn put_checks(rt: &HostRuntime, built: &Built) -> Result<()> {
    println!(rt; "compiled with {} checks", built.checks)?;
    Ok(())
}

fn put_refusal(rt: &HostRuntime, refusal: &SourceRefusal) -> Result<()> {
    match refusal {
        SourceRefusal::TooLarge {
            which: Counted::Source,
            count,
        } => println!(rt; "a source of {count} bytes")?,
        SourceRefusal::TooLarge {
            which: Counted::Code,
            ..
        } => println!(rt; "code of more than 8388608 bytes")?,
        _ => println!(rt; "refused")?,
    }
    Ok(())
}

// Prints a name and how much of the image some bytes are.
fn put_share(rt: &HostRuntime, name: &str, bytes: &[u8], image: &[u8]) -> Result<()> {
    if bytes.is_empty() {
        print!(rt; " {name} none")?;
    } else if bytes == image {
        print!(rt; " {name} whole")?;
    } else if image.starts_with(bytes) {
        print!(rt; " {name} begun {}", bytes.len())?;
    } else {
        print!(rt; " {name} other")?;
    }
    Ok(())
}

fn files_of(alloc: Global, case: &Case) -> Result<MemFiles> {
    let mut pairs = Vec::new(alloc);
    let source = Vec::from_slice(alloc, &case.source)?;
    pairs.push((String::from_str(alloc, "hi.c")?, source))?;
    let image = Vec::from_slice(alloc, &case.image)?;
    pairs.push((String::from_str(alloc, "hi.img")?, image))?;
    pairs.push((String::from_str(alloc, LISTING)?, Vec::new(alloc)))?;
    let faults = &case.faults;
    Ok(MemFiles::new(alloc, &pairs, FILE_ROOM, &faults.reads, &faults.writes)?)
}

// Makes a call, prints what it shows, and returns the image that it gives.
fn put_call(rt: &HostRuntime, case: &Case, words: &str, files: &mut MemFiles) -> Result<Vec<u8>> {
    let alloc = rt.alloc();
    let words = words_of(alloc, words)?;
    let mut input = MemSource::new(alloc, &case.input, &case.faults.takes)?;
    let mut output = MemSink::new(alloc, case.output_room, &case.faults.outputs)?;
    let mut errors = MemSink::new(alloc, ERROR_ROOM, &case.faults.errors)?;
    let (outcome, image) = sbcets(alloc, &words, files, &mut input, &mut output, &mut errors);
    print!(rt; "{}", outcome.status())?;
    let shown = if is_listing(&words) {
        files
            .write(LISTING, output.bytes())
            .ok()
            .context("room for a listing")?;
        lines_of(output.bytes(), case.lines)
    } else {
        shortened(output.bytes(), case.shown)
    };
    put_bytes(rt, "output", shown)?;
    put_bytes(rt, "errors", errors.bytes())?;
    Ok(image)
}

fn is_listing(words: &[String]) -> bool {
    words.first().is_some_and(|word| word.as_str() == "list")
}

// The lines with these numbers, from 0 on.
fn lines_of(text: &[u8], (first, behind): (usize, usize)) -> &[u8] {
    let start = line_start(text, first);
    let end = line_start(text, behind);
    text.get(start..end).unwrap_or_default()
}

// Where the line of this number stands, from 0 on.
fn line_start(text: &[u8], number: usize) -> usize {
    let ends = text.iter().enumerate().filter(|(_, byte)| **byte == b'\n');
    match number.checked_sub(1) {
        Some(before) => ends
            .map(|(place, _)| place + 1)
            .nth(before)
            .unwrap_or(text.len()),
        None => 0,
    }
}

// The words of a line; `""` is a word with no characters.
fn words_of(alloc: Global, line: &str) -> Result<Vec<String>> {
    let mut words = Vec::new(alloc);
    for word in line.split_whitespace() {
        words.push(String::from_str(alloc, word.trim_matches('"'))?)?;
    }
    Ok(words)
}

// The first bytes, where all behind them are as the last of them; else all.
fn shortened(bytes: &[u8], count: usize) -> &[u8] {
    let first = &bytes[..count.min(bytes.len())];
    let is_repeated = bytes
        .iter()
        .skip(count)
        .all(|byte| Some(byte) == first.last());
    if is_repeated { first } else { bytes }
}

// Prints a name and bytes, if there are any.
fn put_bytes(rt: &HostRuntime, name: &str, bytes: &[u8]) -> Result<()> {
    if !bytes.is_empty() {
        print!(rt; " {name} {}", escaped(rt.alloc(), bytes)?)?;
    }
    Ok(())
}
