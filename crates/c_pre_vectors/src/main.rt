// Compares directives and macros with another preprocessor. Standard input has rows, with a line `%%` between each two.
// A row is a text, but for those of the two words below. For a text the program prints its expanded tokens, those of a
// line of the text on one line behind its number; or the number and the line of the fault. Then comes a line `%%`. It
// prints
// - of `%all` and a text behind a newline all its expanded tokens and the line of its end on one line, or the fault;
// - of `%doubled N`, a line with two words and a text how many tokens it has behind definitions of a1, which stands for
//   the words, to aN, each of which stands for the one before it twice; how many bytes they have, the last of them, and
//   the line of the end, or the fault (`doubled.rt`).
//
// `stdin` and `stdout` are made by gcc 12.2.0 and clang 14.0.6 (Debian 12), which agree, as `vectors.py` beside them
// says, where the rows with words stand with what C99 and the rules of the subset give. Left out of the compilers' are
// texts in which the subset of C differs: the directives that it lacks in text that is read, `#` and `...` in macros
// with parameters, parameters that a list never names, headers, `##`, a replacement list that no white space parts from
// the name, a definition that differs from an older one in white space alone, `#` before a number, which gcc takes for
// the line of another text, and a `defined` that C99 leaves open. The last of them puts in more tokens than may be: gcc
// has no such limit, and what is to be printed there follows from the limit.
#![tactic(auto)]

mod doubled;

use anyhow::{Result, bail};
use c_lexer::{LexError, Token, Tokens, lex};
use c_pre::{PreError, expand};
use std::io;

/// How the tokens of a text are printed.
#[derive(Clone, Copy)]
enum Form {
    /// Those of each line behind its number.
    Lines,
    /// All on one line, and the line of the end.
    All,
    /// How many there are, the last of them, and the line of the end.
    Count,
}

fn main(rt: HostRuntime) -> Result<()> {
    let input = io::read_to_string(rt.alloc(), rt.reader())?;
    for row in input.as_str().split("%%\n") {
        put_row(&rt, row)?;
        println!(rt; "%%")?;
    }
    Ok(())
}

fn put_row(rt: &HostRuntime, row: &str) -> Result<()> {
    let (asked, given) = row.split_once("\n").unwrap_or((row, ""));
    if asked == "%all" {
        put_text(rt, given.as_bytes(), Form::All)
    } else if asked.starts_with("%doubled ") {
        let text = doubled::text_of(rt.alloc(), asked, given)?;
        put_text(rt, text.as_bytes(), Form::Count)
    } else {
        put_text(rt, row.as_bytes(), Form::Lines)
    }
}

fn put_text(rt: &HostRuntime, text: &[u8], form: Form) -> Result<()> {
    if text.len() > 1_048_576 {
        bail!("a text is too long");
    }
    let tokens = match lex(rt.alloc(), text) {
        Ok(tokens) => tokens,
        Err(LexError::Memory) => bail!("out of memory"),
        Err(LexError::Fault(fault)) => bail!("no token on line {}", fault.line.number()),
    };
    match expand(rt.alloc(), tokens) {
        Err(PreError::Memory) => bail!("out of memory"),
        Err(PreError::Fault(fault)) => {
            println!(rt;
                "fault {} line {}",
                fault.kind.number(),
                fault.line.number()
            )?;
            Ok(())
        }
        Ok(expanded) => put_expanded(rt, &expanded, form),
    }
}

fn put_expanded(rt: &HostRuntime, tokens: &Tokens<'_>, form: Form) -> Result<()> {
    match form {
        Form::Lines => return put_lines(rt, tokens.as_slice()),
        Form::All => put_all(rt, tokens.as_slice())?,
        Form::Count => put_count(rt, tokens.as_slice())?,
    }
    println!(rt; "end {}", tokens.end().number())?;
    Ok(())
}

fn put_lines(rt: &HostRuntime, tokens: &[Token<'_>]) -> Result<()> {
    let mut line = 0;
    for token in tokens {
        let here = token.line.number();
        if here != line {
            if line != 0 {
                println!(rt; "")?;
            }
            print!(rt; "{here}:")?;
            line = here;
        }
        let spelling = str::from_utf8(token.kind.spelling())?;
        print!(rt; " {spelling}")?;
    }
    if line != 0 {
        println!(rt; "")?;
    }
    Ok(())
}

fn put_all(rt: &HostRuntime, tokens: &[Token<'_>]) -> Result<()> {
    for token in tokens {
        let spelling = str::from_utf8(token.kind.spelling())?;
        print!(rt; "{spelling} ")?;
    }
    Ok(())
}

fn put_count(rt: &HostRuntime, tokens: &[Token<'_>]) -> Result<()> {
    let mut bytes = 0usize;
    for token in tokens {
        bytes = bytes.saturating_add(token.kind.spelling().len());
    }
    let last = match tokens.last() {
        Some(token) => str::from_utf8(token.kind.spelling())?,
        None => "none",
    };
    print!(rt; "{} tokens of {bytes} bytes, last {last}, ", tokens.len())?;
    Ok(())
}
