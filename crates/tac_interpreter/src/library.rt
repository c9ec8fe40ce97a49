//! Calls of the library.

use crate::state::{Cause, State, Stop, ended};
use crate::value::{int_of, integer};
use c_tree::Routine;
use obj_memory::{IntType, Value};
use sb_base::Line;

// The parts of a format.
#[derive(Clone, Copy)]
enum Part {
    Byte,
    Directive,
    LongDirective,
}

impl State {
    fn putchar(&mut self, value: Value) -> Result<Value, Stop> {
        let byte = (value.word & 0xff) as u8;
        self.tally(1);
        self.output.push(byte)?;
        Ok(integer(u64::from(byte)))
    }

    // The next byte of the input, or EOF.
    fn getchar(&mut self) -> Value {
        match self.input.get(self.taken) {
            Some(byte) => {
                let found = integer(u64::from(*byte));
                self.taken = self.taken.saturating_add(1);
                found
            }
            None => integer(u64::MAX),
        }
    }

    fn puts(&mut self, string: Value, line: Line) -> Result<Value, Stop> {
        let mut bytes = self.scan(string, line)?;
        bytes.push(b'\n')?;
        self.put(&bytes)?;
        Ok(integer(0))
    }

    /// A call of a routine with so many arguments from a temporary on.
    pub(crate) fn call_library(
        &mut self,
        routine: Routine,
        line: Line,
        first: usize,
        count: usize,
    ) -> Result<Value, Stop> {
        let one = self.argument(first, count, 0);
        let two = self.argument(first, count, 1);
        let three = self.argument(first, count, 2);
        match routine {
            Routine::Malloc => self.malloc(one, line),
            Routine::Calloc => self.calloc(one, two, line),
            Routine::Free => self.free(one, line),
            Routine::Realloc => self.realloc(one, two, line),
            Routine::Memcpy | Routine::Memmove => self.memmove(one, two, three, line),
            Routine::Memset => self.memset(one, two, three, line),
            Routine::Memcmp => self.memcmp(one, two, three, line),
            Routine::Strlen => self.strlen(one, line),
            Routine::Strcmp => self.strcmp(one, two, line),
            Routine::Strcpy => self.strcpy(one, two, line),
            Routine::Strncpy => self.strncpy(one, two, three, line),
            Routine::Strcat => self.strcat(one, two, line),
            Routine::Strchr => self.strchr(one, two, line),
            Routine::Putchar => self.putchar(one),
            Routine::Getchar => Ok(self.getchar()),
            Routine::Puts => self.puts(one, line),
            Routine::Exit => Err(Stop::Exited(int_of(one.word))),
            Routine::Abort => Err(ended(Cause::Abort, line)),
        }
    }

    // The bytes of an argument by its directive.
    fn put_argument(
        &mut self,
        bytes: &mut Vec<u8>,
        is_long: bool,
        directive: u8,
        value: Value,
        line: Line,
    ) -> Result<(), Stop> {
        let unsigned = IntType::UnsignedInt.fit(value.word);
        let alloc = self.alloc;
        let text = match directive {
            b'c' => return Ok(bytes.push((value.word & 0xff) as u8)?),
            b's' => return Ok(bytes.extend_from_slice(&self.scan(value, line)?)?),
            b'd' if is_long => format!(in alloc; "{}", value.word.cast_signed())?,
            b'u' if is_long => format!(in alloc; "{}", value.word)?,
            b'd' => format!(in alloc; "{}", int_of(value.word))?,
            b'u' => format!(in alloc; "{unsigned}")?,
            _ => format!(in alloc; "{unsigned:x}")?,
        };
        bytes.extend_from_slice(text.as_bytes())?;
        Ok(())
    }

    // The bytes of a format with arguments from a temporary on.
    fn formatted(
        &mut self,
        format: &[u8],
        line: Line,
        first: usize,
        count: usize,
    ) -> Result<Vec<u8>, Stop> {
        let mut bytes = Vec::new(self.alloc);
        let mut number = 0usize;
        let mut part = Part::Byte;
        for byte in format {
            match (part, *byte) {
                (Part::Byte, 0) => break,
                (Part::Byte, b'%') => part = Part::Directive,
                (Part::Directive, b'l') => part = Part::LongDirective,
                (Part::Byte, other) => bytes.push(other)?,
                (Part::Directive, b'%') => {
                    bytes.push(b'%')?;
                    part = Part::Byte;
                }
                (Part::Directive | Part::LongDirective, directive) => {
                    let value = self.argument(first, count, number);
                    let is_long = matches!(part, Part::LongDirective);
                    self.put_argument(&mut bytes, is_long, directive, value, line)?;
                    number = number.saturating_add(1);
                    part = Part::Byte;
                }
            }
        }
        Ok(bytes)
    }

    /// A call of `printf` with a format and so many arguments from a temporary on.
    pub(crate) fn print(
        &mut self,
        format: &[u8],
        line: Line,
        first: usize,
        count: usize,
    ) -> Result<Value, Stop> {
        let bytes = self.formatted(format, line, first, count)?;
        self.put(&bytes)?;
        Ok(integer(IntType::Int.fit(bytes.len() as u64)))
    }
}
