//! Bytes as text: a backslash begins an escape.
use anyhow::{Context, Result};
use std::alloc::Global;

/// The bytes of a text in which `\n` is a newline, `\\` a backslash, and `\x` and two hexadecimal digits a byte.
pub fn unescaped(alloc: Global, text: &str) -> Result<Vec<u8>> {
    let mut bytes = Vec::new(alloc);
    let mut pieces = text.split('\\');
    bytes.extend_from_slice(pieces.next().unwrap_or("").as_bytes())?;
    while let Some(piece) = pieces.next() {
        let (byte, rest) = match piece.as_bytes().first() {
            Some(b'n') => (b'\n', &piece.as_bytes()[1..]),
            Some(b'x') => (
                hexadecimal(piece)?,
                piece.as_bytes().get(3..).context("two digits")?,
            ),
            _ => (b'\\', pieces.next().context("an escape")?.as_bytes()),
        };
        bytes.push(byte)?;
        bytes.extend_from_slice(rest)?;
    }
    Ok(bytes)
}

// The byte of `x` and two hexadecimal digits.
fn hexadecimal(piece: &str) -> Result<u8> {
    let digits = piece.get(1..3).context("two digits")?;
    Ok(u8::from_str_radix(digits, 16)?)
}

/// A text of these bytes, of which each that is no printable character of ASCII is an escape.
pub fn escaped(alloc: Global, bytes: &[u8]) -> Result<String> {
    let mut text = String::new(alloc);
    for byte in bytes {
        match byte {
            b'\n' => text.push_str("\\n")?,
            b'\\' => text.push_str("\\\\")?,
            b' '..=b'~' => text.push(char::from(*byte))?,
            _ => text.push_str(&format!(in alloc; "\\x{byte:02x}")?)?,
        }
    }
    Ok(text)
}
