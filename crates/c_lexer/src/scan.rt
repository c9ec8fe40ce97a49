//! The token at the front of a text, found from left to right.

ghost use Rattle.std.specs.Prelude.{◌≡◌, ◌<◌, ◌≤◌, ◌^◌, length, Some, IfSome, take, bytes_eq, nat_eq, ◌∷◌};
ghost use Rattle.std.specs.List.{prefix_len, find, starts_with};
ghost use Rattle.c_lexer.specs.Characters.{continues_identifier};
ghost use Rattle.c_lexer.specs.Longest.{front_token, longest, valid, begins_comment};
ghost use Rattle.c_lexer.specs.Scan as spec;
ghost use Rattle.c_lexer.specs.Spellings.{keyword_of, keyword_spelling, punctuator_spelling};
ghost use Rattle.c_lexer.specs.Words as words;
ghost use Rattle.c_lexer.specs.declared.token.TokenKind.TheVariants as kinds;

use crate::character::{continues_identifier, is_digit, is_nondigit};
use crate::integer::constant_of;
use crate::keyword::{KEYWORDS, Keyword};
use crate::literal::{character_value, closing_length};
use crate::punctuator::{PUNCTUATORS, Punctuator};
use crate::token::{Spelling, TokenKind};

fn is_exponent(b: u8) -> bool
    ensures { result ≡ words.is_exponent b }
{
    matches!(b, b'e' | b'E' | b'p' | b'P')
}

fn continues_number(before: u8, b: u8) -> bool
    ensures { result ≡ words.continues_number before b }
{
    continues_identifier(b) || b == b'.' || ((b == b'+' || b == b'-') && is_exponent(before))
}

// How many bytes go on with a number.
fn number_length(before: u8, text: &[u8]) -> usize
    requires { length text.now < 2 ^ 63 }
    ensures value { result ≡ spec.number_length before text.now }
    ensures within { result ≤ length text.now }
{
    let mut count = 0;
    let mut last = before;
    let mut rest = text;
    while let [b, more @ ..] = rest {
        if !continues_number(last, *b) {
            return count;
        }
        count += 1;
        last = *b;
        rest = more;
    }
    count
}

fn identifier_length(text: &[u8]) -> usize
    ensures value { result ≡ prefix_len continues_identifier text.now }
    ensures within { result ≤ length text.now }
{
    text.iter()
        .take_while(|b| continues_identifier(**b))
        .count()
}

// The length of the character constant or string literal at the front.
#[tactic(auto, unfolding(crate::specs::Scan::literal_length))]
fn literal_length(text: &[u8]) -> Option<usize>
    requires { length text.now < 2 ^ 63 }
    ensures value { result ≡ spec.literal_length text.now }
    ensures within { IfSome result (λ n. n ≤ length text.now) }
{
    let [quote, rest @ ..] = text else {
        return None;
    };
    match *quote {
        b'"' => Some(closing_length(b'"', rest)? + 1),
        b'\'' => {
            let length = closing_length(b'\'', rest)? + 1;
            if character_value(&text[..length]).is_some() {
                Some(length)
            } else {
                None
            }
        }
        _ => None,
    }
}

// The first keyword of a table that is spelled so.
fn keyword_among(table: &[Keyword], text: &[u8]) -> Option<Keyword>
    ensures { result ≡ find (λ k. bytes_eq (keyword_spelling k) text.now) table.now }
{
    for keyword in table {
        if keyword.spelling() == text {
            return Some(*keyword);
        }
    }
    None
}

#[tactic(auto, unfolding(crate::specs::Spellings::keyword_of))]
fn keyword_of(text: &[u8]) -> Option<Keyword>
    ensures { result ≡ keyword_of text.now }
{
    keyword_among(&KEYWORDS, text)
}

// The first punctuator of a table that the text begins with.
fn punctuator_among(table: &[Punctuator], text: &[u8]) -> Option<Punctuator>
    ensures { result ≡ find (λ p. starts_with nat_eq text.now (punctuator_spelling p)) table.now }
{
    for punctuator in table {
        if text.starts_with(punctuator.spelling()) {
            return Some(*punctuator);
        }
    }
    None
}

#[tactic(auto, unfolding(crate::specs::Scan::scan_punctuator))]
fn scan_punctuator(text: &[u8]) -> Option<(TokenKind<'_>, usize)>
    ensures { result ≡ spec.scan_punctuator text.now }
{
    let punctuator = punctuator_among(&PUNCTUATORS, text)?;
    Some((
        TokenKind::Punctuator(punctuator),
        punctuator.spelling().len(),
    ))
}

// Of a text that begins with a nondigit.
#[tactic(auto, unfolding(crate::specs::Scan::scan_identifier))]
fn scan_identifier(text: &[u8]) -> (TokenKind<'_>, usize)
    ensures { result ≡ spec.scan_identifier text.now }
{
    let length = identifier_length(text);
    let spelling = &text[..length];
    match keyword_of(spelling) {
        None => (TokenKind::Identifier(Spelling::new(spelling)), length),
        Some(keyword) => (TokenKind::Keyword(keyword), length),
    }
}

// The same, where a wide literal may stand too.
#[tactic(auto, unfolding(crate::specs::Scan::scan_name))]
fn scan_name(text: &[u8]) -> (TokenKind<'_>, usize)
    requires { length text.now < 2 ^ 63 }
    ensures { result ≡ spec.scan_name text.now }
{
    let [b'L', rest @ ..] = text else {
        return scan_identifier(text);
    };
    match literal_length(rest) {
        None => scan_identifier(text),
        Some(count) => {
            let length = count + 1;
            (TokenKind::Wide(Spelling::new(&text[..length])), length)
        }
    }
}

fn begins_digit(text: &[u8]) -> bool
    ensures { result ≡ words.begins_digit text.now }
{
    match text {
        [] => false,
        [b, ..] => is_digit(*b),
    }
}

fn begins_number(first: u8, rest: &[u8]) -> bool
    ensures { result ≡ words.begins_number first rest.now }
{
    is_digit(first) || (first == b'.' && begins_digit(rest))
}

// Of a text that begins with a number.
#[tactic(auto, unfolding(crate::specs::Scan::scan_number))]
fn scan_number<'a>(first: u8, text: &'a [u8], rest: &[u8]) -> (TokenKind<'a>, usize)
    requires small { length text.now < 2 ^ 63 }
    requires front { text.now ≡ first ∷ rest.now }
    ensures { result ≡ spec.scan_number first rest.now }
{
    let length = number_length(first, rest) + 1;
    (TokenKind::Integer(Spelling::new(&text[..length])), length)
}

// The token at the front, from left to right.
#[tactic(auto, unfolding(crate::specs::Scan::scan))]
fn scan(text: &[u8]) -> Option<(TokenKind<'_>, usize)>
    requires { length text.now < 2 ^ 63 }
    ensures { result ≡ spec.scan text.now }
{
    let [first, rest @ ..] = text else {
        return None;
    };
    if is_nondigit(*first) {
        return Some(scan_name(text));
    }
    if begins_number(*first, rest) {
        return Some(scan_number(*first, text, rest));
    }
    if *first == b'"' {
        let length = literal_length(text)?;
        return Some((
            TokenKind::StringLiteral(Spelling::new(&text[..length])),
            length,
        ));
    }
    if *first == b'\'' {
        let length = literal_length(text)?;
        return Some((TokenKind::Character(Spelling::new(&text[..length])), length));
    }
    scan_punctuator(text)
}

#[tactic(auto, using(crate::proofs::Scanned::scan_longest), unfolding(crate::specs::Longest::front_token))]
fn scan_valid(text: &[u8]) -> Option<(TokenKind<'_>, usize)>
    requires { length text.now < 2 ^ 63 }
    ensures { result ≡ front_token text.now }
{
    if let [b'/', b'*', ..] = text {
        return None;
    }
    let (word, length) = scan(text)?;
    if let TokenKind::Integer(spelling) = &word
        && constant_of(spelling.bytes()).is_none()
    {
        return None;
    }
    Some((word, length))
}

/// The longest token at the front of a text that begins with no white space and no whole comment, and its length.
/// `None` where none stands: at the end, at a comment that is never closed, and at a number that is no integer constant
/// with a type.
pub fn front_token(text: &[u8]) -> Option<(TokenKind<'_>, usize)>
    requires { length text.now < 2 ^ 63 }
    ensures value { result ≡ front_token text.now }
    ensures within { IfSome result (λ t. (1 ≤ t.1) × (t.1 ≤ length text.now)) }
{
    scan_valid(text)
}
