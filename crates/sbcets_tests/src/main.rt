// Programs of integers, compiled and run, and calls of the program over an outside in memory. Standard input has two
// parts, with a line `%%%` between them, and in each a line `%%` between each two texts.
//
// The first has programs, each with its input behind a line `%<` where it reads one. For each is printed what the run
// wrote, and then on a line of its own its status, or what else the run came to. Its image is listed, and put together
// from the listing: where that is another one, a line says so.
//
// The second has cases. A line of a case that begins with one of these words says what is given, the others are lines
// of the file `hi.c`:
//
// - `%call WORDS`: the program is called with these words. A line is printed for each call: its status, what the output
//   and the error output took, and what `%holds` asks for.
// - `%text COUNT TEXT`: a text of `hi.c`, so many times, with its number from 0 on in place of each `@`.
// - `%input TEXT`: the input. `%image WORDS`: instructions of the image `hi.img`. `%cut COUNT`: its first bytes alone.
// - `%fails KIND NUMBER [COUNT]`: the call of this kind (`read`, `take`, `write`, `output`, `error`) with this number
//   from 0 on fails; one that writes keeps so many bytes.
// - `%room COUNT`: what the output can take. `%shown COUNT`: so many bytes of the output are shown, where those behind
//   are as the last of them. `%lines FIRST BEHIND`: of the listing that `list` puts out the lines from one number on up
//   to another, from 0 on, are shown; the whole is the file `hi.lst` for the calls behind.
// - `%holds image`: how much of the image of `hi.c` the file `hi.img` holds after each call, and the call gave.
// - `%compile hi.c`: what `compile` says of `hi.c`, on a line of its own.
//
// `stdin` and `stdout` are made by `vectors.py` beside them: of the programs by gcc 12.2.0 (Debian 12; -std=c99 -O1
// -fwrapv -funsigned-char), and of the cases from `cases.txt`, where each expected line stands with its case, as the
// documents state it (docs/LANGUAGE.md, docs/FORMATS.md).
#![tactic(auto)]

mod calls;
mod case;
mod image;
mod listed;
mod text;

use crate::calls::put_calls;
use crate::case::Case;
use crate::listed::is_listed;
use anyhow::{Context, Result};
use sb_outside::{MemFiles, MemSink, MemSource};
use sbcets_core::sbcets;
use std::alloc::Global;
use std::io;

// How many bytes a file and an output can take.
const LARGE_ROOM: u64 = 1_048_576;

fn main(rt: HostRuntime) -> Result<()> {
    let input = io::read_to_string(rt.alloc(), rt.reader())?;
    let (programs, cases) = input.as_str().split_once("%%%\n").context("two parts")?;
    put_programs(&rt, programs)?;
    for text in cases.split("%%\n") {
        put_calls(&rt, &Case::parse(rt.alloc(), text)?)?;
    }
    Ok(())
}

fn put_programs(rt: &HostRuntime, programs: &str) -> Result<()> {
    for text in programs.split("%%\n") {
        match text.split_once("%<\n") {
            Some((source, given)) => put_run(rt, source, given)?,
            None => put_run(rt, text, "")?,
        }
    }
    Ok(())
}

// Small budgets, since programs of integers have no objects, and a run begins with all its memory zero.
const COMMAND: &str = "go program.c --heap 4096 --stack 4096 --calls 1048576 --blocks 1";

// The words of a command.
fn command(alloc: Global) -> Result<Vec<String>> {
    let mut words = Vec::new(alloc);
    for word in COMMAND.split_whitespace() {
        words.push(String::from_str(alloc, word)?)?;
    }
    Ok(words)
}

// A file with a text.
fn held(alloc: Global, source: &str) -> Result<MemFiles> {
    let mut pairs = Vec::new(alloc);
    let name = String::from_str(alloc, "program.c")?;
    pairs.push((name, Vec::from_slice(alloc, source.as_bytes())?))?;
    let files = MemFiles::new(alloc, &pairs, LARGE_ROOM, &[], &[])?;
    Ok(files)
}

fn put_run(rt: &HostRuntime, source: &str, given: &str) -> Result<()> {
    let alloc = rt.alloc();
    let words = command(alloc)?;
    let mut files = held(alloc, source)?;
    let mut input = MemSource::new(alloc, given.as_bytes(), &[])?;
    let mut output = MemSink::new(alloc, LARGE_ROOM, &[])?;
    let mut errors = MemSink::new(alloc, LARGE_ROOM, &[])?;
    let (outcome, image) = sbcets(
        alloc,
        &words,
        &mut files,
        &mut input,
        &mut output,
        &mut errors,
    );
    print!(rt; "{}", str::from_utf8(output.bytes())?)?;
    println!(rt; "\n%% {}", outcome.status())?;
    if !is_listed(alloc, &image)? {
        println!(rt; "another image behind its listing")?;
    }
    Ok(())
}
