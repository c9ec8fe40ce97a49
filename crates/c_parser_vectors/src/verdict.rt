//! What the parser says of a text.

use anyhow::{Result, bail};
use c_lexer::{LexError, Tokens, lex};
use c_parser::{ParseFault, UnsupportedWord, parse, release};
use c_pre::{PreError, expand};
use sb_base::Line;
use std::alloc::Global;

/// What the parser says of a text.
#[derive(Clone, Copy)]
pub enum Verdict {
    /// It has a tree.
    Accepted,
    /// It has none.
    Refused {
        /// The number of the token of the fault, from 0.
        at: u64,
        /// The line of that token, or of the end of the text.
        line: Line,
    },
    /// A word of it is in no part of the subset.
    Unsupported {
        /// The first such word.
        word: UnsupportedWord,
        /// The line of that word.
        line: Line,
    },
    /// It has none, and too many brackets are open.
    Nested {
        /// The line on which they are too many.
        line: Line,
    },
}

impl Verdict {
    /// How the table has it.
    pub fn name(&self) -> &'static str {
        match *self {
            Verdict::Accepted => "accepted",
            Verdict::Refused { .. } | Verdict::Unsupported { .. } => "refused",
            Verdict::Nested { .. } => "nested",
        }
    }
}

/// The expanded tokens of a text. An error: there is no memory, or the text has no tokens or faulty directives.
pub fn tokens_of(alloc: Global, text: &[u8]) -> Result<Tokens<'_>> {
    if text.len() > 1_048_576 {
        bail!("a text is too long");
    }
    let tokens = match lex(alloc, text) {
        Ok(tokens) => tokens,
        Err(LexError::Memory) => bail!("out of memory"),
        Err(LexError::Fault(fault)) => bail!("no token on line {}", fault.line.number()),
    };
    match expand(alloc, tokens) {
        Ok(expanded) => Ok(expanded),
        Err(PreError::Memory) => bail!("out of memory"),
        Err(PreError::Fault(fault)) => bail!("a directive's fault on line {}", fault.line.number()),
    }
}

fn refusal(fault: ParseFault) -> Result<Verdict> {
    match fault {
        ParseFault::Memory => bail!("out of memory"),
        ParseFault::Unsupported(word, line) => Ok(Verdict::Unsupported { word, line }),
        ParseFault::Syntax { at, line } => Ok(Verdict::Refused { at, line }),
        ParseFault::Nesting { line, .. } => Ok(Verdict::Nested { line }),
    }
}

/// What the parser says of a text. An error: there is no memory, or the text has no tokens or faulty directives.
pub fn verdict_of(alloc: Global, text: &[u8]) -> Result<Verdict> {
    let tokens = tokens_of(alloc, text)?;
    match parse(alloc, &tokens) {
        Ok(unit) => {
            release(unit);
            Ok(Verdict::Accepted)
        }
        Err(fault) => refusal(fault),
    }
}
