// Compares the lexer with another one. Standard input has rows, with a line `%%` between each two. A row is a text, but
// for those of the four words below. For a text the program prints its tokens, one on a line, with
// - the line;
// - `b` where it is the first on its line, else `s` where white space or a comment stands before it, else `-`;
// - its kind and its spelling;
// - the type and the value of an integer constant, the value of a character constant, the bytes of a string literal in
//   hexadecimal digits.
// Then comes the line of the end, or the byte and the line of a fault, and a line `%%`. Of these rows it prints
// - `%flags TEXT`: for each token its line, whether it is the first there and whether it has white space before it, and
//   its spelling, and then the line of the end;
// - `%integer BYTES`, `%character BYTES`, `%string BYTES`, a spelling in hexadecimal digits: the kind, and what stands
//   behind a token of this kind and spelling, nothing where it stands for none.
//
// `stdin` and `stdout` are made by Debian clang 14.0.6 (Debian 12), as `vectors.py` beside them says, where the last
// rows stand with what C99 says of them. Left out of clang's are texts in which the subset of C differs: `##`,
// digraphs, trigraphs, universal character names, `$` and letters outside ASCII in identifiers, a newline behind a
// backslash inside a token or behind a backslash and a space, a lone carriage return, and a wide literal that is not
// one character or holds an escape sequence above 255.
#![tactic(auto)]

use anyhow::{Result, bail};
use c_lexer::{
    IntegerType, LexError, Spelling, Token, TokenKind, Tokens, bytes_of_literal, character_value,
    constant_of, lex,
};
use std::alloc::Global;
use std::io;

fn main(rt: HostRuntime) -> Result<()> {
    let input = io::read_to_string(rt.alloc(), rt.reader())?;
    for row in input.as_str().split("%%\n") {
        put_row(&rt, row)?;
        println!(rt; "%%")?;
    }
    Ok(())
}

fn put_row(rt: &HostRuntime, row: &str) -> Result<()> {
    let (asked, given) = row.split_once(" ").unwrap_or((row, ""));
    match asked {
        "%integer" | "%character" | "%string" => put_spelled(rt, asked, given),
        "%flags" => put_flags(rt, given.as_bytes()),
        _ => put_text(rt, row.as_bytes()),
    }
}

// The tokens of a text, or none and the byte and the line of the fault.
fn tokens_of(alloc: Global, text: &[u8]) -> Result<Result<Tokens<'_>, (u64, u32)>> {
    if text.len() > 1_048_576 {
        bail!("a text is too long");
    }
    match lex(alloc, text) {
        Ok(tokens) => Ok(Ok(tokens)),
        Err(LexError::Memory) => bail!("out of memory"),
        Err(LexError::Fault(fault)) => Ok(Err((fault.at, fault.line.number()))),
    }
}

fn put_text(rt: &HostRuntime, text: &[u8]) -> Result<()> {
    match tokens_of(rt.alloc(), text)? {
        Err((at, line)) => println!(rt; "fault at {at} line {line}")?,
        Ok(tokens) => {
            for token in tokens.as_slice() {
                put_token(rt, token)?;
            }
            println!(rt; "end {}", tokens.end().number())?;
        }
    }
    Ok(())
}

fn put_flags(rt: &HostRuntime, text: &[u8]) -> Result<()> {
    let Ok(tokens) = tokens_of(rt.alloc(), text)? else {
        bail!("no tokens");
    };
    for token in tokens.as_slice() {
        let begins = if token.begins_line { "b" } else { "-" };
        let spaced = if token.is_spaced { "s" } else { "-" };
        let spelling = str::from_utf8(token.kind.spelling())?;
        println!(rt; "{} {begins}{spaced} {spelling}", token.line.number())?;
    }
    println!(rt; "end {}", tokens.end().number())?;
    Ok(())
}

fn put_spelled(rt: &HostRuntime, kind: &str, digits: &str) -> Result<()> {
    let bytes = hex::decode(rt.alloc(), digits)?;
    let spelling = Spelling::new(&bytes);
    let word = match kind {
        "%integer" => TokenKind::Integer(spelling),
        "%character" => TokenKind::Character(spelling),
        _ => TokenKind::StringLiteral(spelling),
    };
    print!(rt; "{}", kind_of(&word))?;
    put_meaning(rt, &word)?;
    println!(rt; "")?;
    Ok(())
}

fn put_token(rt: &HostRuntime, token: &Token) -> Result<()> {
    let flag = if token.begins_line {
        "b"
    } else if token.is_spaced {
        "s"
    } else {
        "-"
    };
    let kind = kind_of(&token.kind);
    let spelling = str::from_utf8(token.kind.spelling())?;
    print!(rt; "{} {flag} {kind} {spelling}", token.line.number())?;
    put_meaning(rt, &token.kind)?;
    println!(rt; "")?;
    Ok(())
}

fn kind_of(word: &TokenKind) -> &'static str {
    match word {
        TokenKind::Identifier(_) => "identifier",
        TokenKind::Keyword(_) => "keyword",
        TokenKind::Integer(_) => "integer",
        TokenKind::Character(_) => "character",
        TokenKind::StringLiteral(_) => "string",
        TokenKind::Wide(_) => "wide",
        TokenKind::Punctuator(_) => "punctuator",
    }
}

fn put_meaning(rt: &HostRuntime, word: &TokenKind) -> Result<()> {
    match word {
        TokenKind::Integer(spelling) => {
            if let Some(constant) = constant_of(spelling.bytes()) {
                print!(rt;
                    " = {} {}",
                    type_name(constant.integer_type),
                    constant.value
                )?;
            }
        }
        TokenKind::Character(spelling) => {
            if let Some(value) = character_value(spelling.bytes()) {
                print!(rt; " = {value}")?;
            }
        }
        TokenKind::StringLiteral(spelling) => {
            if let Some(bytes) = bytes_of_literal(rt.alloc(), spelling.bytes())? {
                print!(rt; " = {}", hex::encode(rt.alloc(), bytes.as_slice())?)?;
            }
        }
        _ => {}
    }
    Ok(())
}

fn type_name(integer_type: IntegerType) -> &'static str {
    match integer_type {
        IntegerType::Int => "int",
        IntegerType::UnsignedInt => "unsigned int",
        IntegerType::Long => "long",
        IntegerType::UnsignedLong => "unsigned long",
        IntegerType::LongLong => "long long",
        IntegerType::UnsignedLongLong => "unsigned long long",
    }
}
