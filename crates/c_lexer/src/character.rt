//! Sets of bytes (C99 5.2.1).

ghost use Rattle.std.specs.Prelude.{◌≡◌, ◌<◌};
ghost use Rattle.c_lexer.specs.Characters as spec;

pub fn is_digit(b: u8) -> bool
    ensures { result ≡ spec.is_digit b }
{
    matches!(b, b'0'..=b'9')
}

pub fn is_octal_digit(b: u8) -> bool
    ensures { result ≡ spec.is_octal_digit b }
{
    matches!(b, b'0'..=b'7')
}

pub fn is_hexadecimal_digit(b: u8) -> bool
    ensures { result ≡ spec.is_hexadecimal_digit b }
{
    matches!(b, b'0'..=b'9' | b'a'..=b'f' | b'A'..=b'F')
}

/// The value of a digit in base 8, 10 or 16, below 16.
pub fn digit_value(b: u8) -> u8
    ensures { result ≡ spec.digit_value b }
{
    if is_digit(b) {
        b - b'0'
    } else if b >= b'a' {
        b - (b'a' - 10)
    } else {
        b.saturating_sub(b'A' - 10)
    }
}

pub fn is_nondigit(b: u8) -> bool
    ensures { result ≡ spec.is_nondigit b }
{
    matches!(b, b'a'..=b'z' | b'A'..=b'Z' | b'_')
}

/// Whether an identifier goes on with it.
pub fn continues_identifier(b: u8) -> bool
    ensures { result ≡ spec.continues_identifier b }
{
    is_nondigit(b) || is_digit(b)
}

/// Whether the text begins with this byte.
pub fn begins(c: u8, text: &[u8]) -> bool
    ensures { result ≡ spec.begins c text.now }
{
    match text {
        [] => false,
        [b, ..] => *b == c,
    }
}
