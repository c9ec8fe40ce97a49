//! Character constants and string literals (C99 6.4.4.4, 6.4.5), whose bytes are read one by one.

ghost use Rattle.std.specs.Prelude.{◌≡◌, ◌≤◌, ◌<◌, ◌^◌, ◌++◌, length, option_map, IfSome, IfOk};
ghost use Rattle.c_lexer.specs.Literals as spec;
ghost use Rattle.c_lexer.specs.Scan.{closing_length};

use crate::character::{digit_value, is_hexadecimal_digit, is_octal_digit};
use std::alloc::{AllocError, Global};

/// What the bytes of a literal before a place, its opening quote apart, are.
#[derive(Clone, Copy, Debug, PartialEq, Eq)]
pub enum LiteralState {
    /// None.
    Start,
    /// They end with a whole character of this value, which no digit goes on with.
    Character(u8),
    /// They end with a backslash that begins an escape sequence.
    Escape,
    /// They end with an octal escape sequence of so many digits, 1 to 3, and this value so far.
    Octal { digits: u8, value: u8 },
    /// They end with `\x`, which a digit must follow.
    HexadecimalStart,
    /// They end with a hexadecimal escape sequence of this value so far.
    Hexadecimal(u8),
}

/// What a byte is in a literal.
#[derive(Clone, Copy, Debug, PartialEq, Eq)]
pub enum LiteralStep {
    /// It may not stand there.
    Refused,
    /// The closing quote.
    Closes,
    /// The first byte of a character.
    Begins(LiteralState),
    /// A further byte of a character.
    Continues(LiteralState),
}

#[tactic(auto, unfolding(crate::specs::Literals::simple_escape))]
fn simple_escape(b: u8) -> Option<u8>
    ensures { result ≡ spec.simple_escape b }
{
    match b {
        b'\'' | b'"' | b'?' | b'\\' => Some(b),
        b'a' => Some(7),
        b'b' => Some(8),
        b'f' => Some(12),
        b'n' => Some(10),
        b'r' => Some(13),
        b't' => Some(9),
        b'v' => Some(11),
        _ => None,
    }
}

#[tactic(auto, unfolding(crate::specs::Literals::next_character))]
fn next_character(quote: u8, b: u8) -> LiteralStep
    ensures { result ≡ spec.next_character quote b }
{
    if b == quote {
        LiteralStep::Closes
    } else if b == b'\n' {
        LiteralStep::Refused
    } else if b == b'\\' {
        LiteralStep::Begins(LiteralState::Escape)
    } else {
        LiteralStep::Begins(LiteralState::Character(b))
    }
}

#[tactic(auto, unfolding(crate::specs::Literals::escaped))]
fn escaped(b: u8) -> LiteralStep
    ensures { result ≡ spec.escaped b }
{
    if is_octal_digit(b) {
        return LiteralStep::Continues(LiteralState::Octal {
            digits: 1,
            value: digit_value(b),
        });
    }
    if b == b'x' {
        return LiteralStep::Continues(LiteralState::HexadecimalStart);
    }
    match simple_escape(b) {
        None => LiteralStep::Refused,
        Some(value) => LiteralStep::Continues(LiteralState::Character(value)),
    }
}

#[tactic(auto, unfolding(crate::specs::Literals::octal))]
fn octal(quote: u8, digits: u8, value: u8, b: u8) -> LiteralStep
    ensures { result ≡ spec.octal quote digits value b }
{
    if digits >= 3 || !is_octal_digit(b) {
        return next_character(quote, b);
    }
    let value = 8 * u16::from(value) + u16::from(digit_value(b));
    if value > 255 {
        return LiteralStep::Refused;
    }
    LiteralStep::Continues(LiteralState::Octal {
        digits: digits + 1,
        value: value as u8,
    })
}

#[tactic(auto, unfolding(crate::specs::Literals::hexadecimal))]
fn hexadecimal(quote: u8, value: u8, b: u8) -> LiteralStep
    ensures { result ≡ spec.hexadecimal quote value b }
{
    if !is_hexadecimal_digit(b) {
        return next_character(quote, b);
    }
    let value = 16 * u16::from(value) + u16::from(digit_value(b));
    if value > 255 {
        return LiteralStep::Refused;
    }
    LiteralStep::Continues(LiteralState::Hexadecimal(value as u8))
}

// What the byte is behind bytes that left this state.
#[tactic(auto, unfolding(crate::specs::Literals::literal_step))]
fn literal_step(quote: u8, state: LiteralState, b: u8) -> LiteralStep
    ensures { result ≡ spec.literal_step quote state b }
{
    match state {
        LiteralState::Start | LiteralState::Character(_) => next_character(quote, b),
        LiteralState::Escape => escaped(b),
        LiteralState::Octal { digits, value } => octal(quote, digits, value, b),
        LiteralState::HexadecimalStart => {
            if is_hexadecimal_digit(b) {
                LiteralStep::Continues(LiteralState::Hexadecimal(digit_value(b)))
            } else {
                LiteralStep::Refused
            }
        }
        LiteralState::Hexadecimal(value) => hexadecimal(quote, value, b),
    }
}

// The value of the character that ends where the next one begins, or the literal closes.
fn ended(state: LiteralState) -> Option<u8>
    ensures { spec.ended state ≡ spec.listed result }
{
    match state {
        LiteralState::Character(value)
        | LiteralState::Octal { value, .. }
        | LiteralState::Hexadecimal(value) => Some(value),
        LiteralState::Start | LiteralState::Escape | LiteralState::HexadecimalStart => None,
    }
}

/// How many bytes of a text there are to the quote that closes a literal, with that quote, where the text begins behind
/// its opening quote. `None` where no literal closes.
pub fn closing_length(quote: u8, text: &[u8]) -> Option<usize>
    requires { length text.now < 2 ^ 63 }
    ensures value { result ≡ closing_length quote LiteralState.Start text.now }
    ensures within { IfSome result (λ n. n ≤ length text.now) }
{
    let mut state = LiteralState::Start;
    let mut count = 0;
    let mut rest = text;
    while let [b, more @ ..] = rest {
        count += 1;
        rest = more;
        match literal_step(quote, state, *b) {
            LiteralStep::Refused => return None,
            LiteralStep::Closes => return Some(count),
            LiteralStep::Begins(next) | LiteralStep::Continues(next) => state = next,
        }
    }
    None
}

/// The value, 0 to 255, of a character constant of one character that is all of these bytes, with its quotes. `None`
/// where they are none.
#[tactic(auto, unfolding(crate::specs::Literals::character_value, crate::specs::Literals::characters_of))]
pub fn character_value(spelling: &[u8]) -> Option<u8>
    ensures { result ≡ spec.character_value spelling.now }
{
    let [b'\'', text @ ..] = spelling else {
        return None;
    };
    only_character(text)
}

#[tactic(auto, using(crate::proofs::LiteralBytes::behind_none, crate::proofs::LiteralBytes::two_are_not_one))]
// The value of the only character of a character constant, the opening quote apart.
fn only_character(text: &[u8]) -> Option<u8>
    ensures { result ≡ spec.only_one (spec.characters_from 39 LiteralState.Start text.now) }
{
    let mut state = LiteralState::Start;
    let mut first = None;
    let mut rest = text;
    while let [b, more @ ..] = rest {
        rest = more;
        match literal_step(b'\'', state, *b) {
            LiteralStep::Refused => return None,
            LiteralStep::Closes if more.is_empty() => return only_of(first, ended(state)),
            LiteralStep::Closes => return None,
            LiteralStep::Continues(next) => state = next,
            LiteralStep::Begins(next) => {
                if first.is_none() {
                    first = ended(state);
                } else if ended(state).is_some() {
                    return None;
                }
                state = next;
            }
        }
    }
    None
}

// The one that is there, where the other is not.
fn only_of(first: Option<u8>, last: Option<u8>) -> Option<u8>
    ensures { result ≡ spec.only (spec.listed first ++ spec.listed last) }
{
    match first {
        None => last,
        Some(_) if last.is_some() => None,
        Some(_) => first,
    }
}

/// The bytes that a string literal spells, without the final 0, where all of these bytes are one, with its quotes
/// (C99 6.4.5). `None` where they are none.
#[tactic(auto, unfolding(crate::specs::Literals::bytes_of_literal, crate::specs::Literals::characters_of))]
pub fn bytes_of_literal(alloc: Global, spelling: &[u8]) -> Result<Option<Vec<u8>>, AllocError>
    ensures { IfOk result (λ bytes. option_map (λ b. b.items) bytes ≡ spec.bytes_of_literal spelling.now) }
{
    let [b'"', text @ ..] = spelling else {
        return Ok(None);
    };
    string_bytes(alloc, text)
}

// The same, the opening quote apart.
fn string_bytes(alloc: Global, text: &[u8]) -> Result<Option<Vec<u8>>, AllocError>
    ensures { IfOk result (λ bytes. option_map (λ b. b.items) bytes
        ≡ spec.characters_from 34 LiteralState.Start text.now) }
{
    let mut bytes = Vec::new(alloc);
    let mut state = LiteralState::Start;
    let mut rest = text;
    while let [b, more @ ..] = rest {
        rest = more;
        match literal_step(b'"', state, *b) {
            LiteralStep::Refused => return Ok(None),
            LiteralStep::Closes => {
                push_ended(&mut bytes, state)?;
                return Ok(if more.is_empty() { Some(bytes) } else { None });
            }
            LiteralStep::Continues(next) => state = next,
            LiteralStep::Begins(next) => {
                push_ended(&mut bytes, state)?;
                state = next;
            }
        }
    }
    Ok(None)
}

fn push_ended(bytes: &mut Vec<u8>, state: LiteralState) -> Result<(), AllocError>
    ensures { IfOk result (λ _. bytes.new.items ≡ bytes.old.items ++ spec.ended state) }
{
    if let Some(value) = ended(state) {
        bytes.push(value)?;
    }
    Ok(())
}
