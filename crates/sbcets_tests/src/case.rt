//! A case: calls of the program over an outside in memory, some calls of which fail.
use crate::image::image_of;
use crate::text::unescaped;
use anyhow::{Context, Result, bail};
use std::alloc::Global;
use std::str::SplitWhitespace;

// How many bytes the output can take, where nothing else is said.
const ROOM: u64 = 4096;

/// The numbers of the calls that fail, counted from 0; with a call that writes, how many bytes it keeps.
#[derive(Drop)]
pub struct Faults {
    pub reads: Vec<u64>,
    pub writes: Vec<(u64, u64)>,
    pub takes: Vec<u64>,
    pub outputs: Vec<(u64, u64)>,
    pub errors: Vec<(u64, u64)>,
}

/// Calls of the program, what its files `hi.c` and `hi.img` and its input hold, and what of the outside fails.
#[derive(Drop)]
pub struct Case<'a> {
    pub calls: Vec<&'a str>,
    pub source: Vec<u8>,
    pub image: Vec<u8>,
    pub input: Vec<u8>,
    pub faults: Faults,
    pub output_room: u64,
    pub shown: usize,
    pub lines: (usize, usize),
    pub holds_image: bool,
    pub is_compiled: bool,
}

impl Faults {
    fn none(alloc: Global) -> Faults {
        Faults {
            reads: Vec::new(alloc),
            writes: Vec::new(alloc),
            takes: Vec::new(alloc),
            outputs: Vec::new(alloc),
            errors: Vec::new(alloc),
        }
    }

    // A kind of call, a number, and behind a call that writes how many bytes it keeps.
    fn add(&mut self, words: &str) -> Result<()> {
        let mut words = words.split_whitespace();
        let kind = words.next().context("a kind of call")?;
        let call = number(&mut words)?;
        match kind {
            "read" => self.reads.push(call)?,
            "take" => self.takes.push(call)?,
            "write" => self.writes.push((call, number(&mut words)?))?,
            "output" => self.outputs.push((call, number(&mut words)?))?,
            "error" => self.errors.push((call, number(&mut words)?))?,
            _ => bail!("no kind of call: {kind}"),
        }
        Ok(())
    }
}

impl<'a> Case<'a> {
    /// The case of a text. A line that begins with `%` says what `main` lists; the others are lines of `hi.c`.
    pub fn parse(alloc: Global, text: &'a str) -> Result<Case<'a>> {
        let mut case = Case::new(alloc);
        for line in text.lines() {
            if line.starts_with('%') {
                let (word, rest) = line.split_once(' ').unwrap_or((line, ""));
                case.add(alloc, word, rest)?;
            } else {
                case.add_line(line)?;
            }
        }
        Ok(case)
    }

    fn new(alloc: Global) -> Case<'a> {
        Case {
            calls: Vec::new(alloc),
            source: Vec::new(alloc),
            image: Vec::new(alloc),
            input: Vec::new(alloc),
            faults: Faults::none(alloc),
            output_room: ROOM,
            shown: usize::MAX,
            lines: (0, 0),
            holds_image: false,
            is_compiled: false,
        }
    }

    fn add_line(&mut self, line: &str) -> Result<()> {
        self.source.extend_from_slice(line.as_bytes())?;
        self.source.push(b'\n')?;
        Ok(())
    }

    fn add(&mut self, alloc: Global, word: &str, rest: &'a str) -> Result<()> {
        match word {
            "%call" => self.calls.push(rest)?,
            "%text" => self.add_text(alloc, rest)?,
            "%input" => self.input = unescaped(alloc, rest)?,
            "%image" => self.image = image_of(alloc, rest)?,
            "%cut" => self.image.truncate(rest.parse()?),
            "%fails" => self.faults.add(rest)?,
            "%room" => self.output_room = rest.parse()?,
            "%shown" => self.shown = rest.parse()?,
            "%lines" => self.lines = pair_of(rest)?,
            "%holds" => self.holds_image = true,
            "%compile" => self.is_compiled = true,
            _ => bail!("no line begins with {word}"),
        }
        Ok(())
    }

    // A count, and a text that stands so many times, with its number from 0 on in place of each `@`.
    fn add_text(&mut self, alloc: Global, words: &str) -> Result<()> {
        let (count, text) = words.split_once(' ').context("a text")?;
        let count: u64 = count.parse()?;
        for number in 0..count {
            self.add_numbered(alloc, number, text)?;
        }
        Ok(())
    }

    fn add_numbered(&mut self, alloc: Global, number: u64, text: &str) -> Result<()> {
        for (place, piece) in text.split('@').enumerate() {
            if place > 0 {
                let digits = format!(in alloc; "{number}")?;
                self.source.extend_from_slice(digits.as_bytes())?;
            }
            self.source.extend_from_slice(&unescaped(alloc, piece)?)?;
        }
        Ok(())
    }
}

fn pair_of(words: &str) -> Result<(usize, usize)> {
    let (first, second) = words.split_once(' ').context("two numbers")?;
    Ok((first.parse()?, second.parse()?))
}

fn number(words: &mut SplitWhitespace) -> Result<u64> {
    Ok(words.next().context("a number")?.parse()?)
}
