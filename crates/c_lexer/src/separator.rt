//! White space and comments between tokens (C99 5.1.1.2, 6.4.9).

ghost use Rattle.std.specs.Prelude.{◌≡◌, ◌≤◌, ◌<◌, length, IfSome, MatchOption, Some, None, false};
ghost use Rattle.c_lexer.specs.Separators as spec;
ghost use Rattle.c_lexer.specs.View.{Separates};

use crate::character::begins;

// What stands behind white space or a comment, and whether that is a newline.
#[derive(Clone, Copy)]
pub struct Separator<'a> {
    pub rest: &'a [u8],
    pub is_newline: bool,
}

/// What stands behind the white space and the comments at the front of a text.
#[derive(Clone, Copy)]
pub struct Gap<'a> {
    pub rest: &'a [u8],
    /// Whether a newline is among them, outside comments and with no backslash before it, or one was before.
    pub has_newline: bool,
}

fn is_white_space(b: u8) -> bool
    ensures { result ≡ spec.is_white_space b }
{
    matches!(b, b' ' | 9..=13)
}

// From the newline on that ends a `//` comment, given the two bytes before.
fn line_comment_rest(before: (u8, u8), text: &[u8]) -> &[u8]
    ensures value { result.now ≡ spec.line_comment_rest before.0 before.1 text.now }
    ensures within { length result.now ≤ length text.now }
{
    let (mut second_last, mut last) = before;
    let mut rest = text;
    while let [b, more @ ..] = rest {
        let joins = last == b'\\' || (second_last == b'\\' && last == b'\r');
        if *b == b'\n' && !joins {
            return rest;
        }
        second_last = last;
        last = *b;
        rest = more;
    }
    rest
}

// Behind the first `*/`.
fn block_comment_rest(text: &[u8]) -> Option<&[u8]>
    ensures value { MatchOption result (spec.block_comment_rest text.now ≡ None)
        (λ z. spec.block_comment_rest text.now ≡ Some z.now) }
    ensures within { IfSome result (λ z. length z.now < length text.now) }
{
    let mut rest = text;
    while let [b, more @ ..] = rest {
        if *b == b'*' && begins(b'/', more) {
            return Some(&more[1..]);
        }
        rest = more;
    }
    None
}

fn passed(rest: &[u8]) -> Separator<'_>
    ensures rest { result.rest.now ≡ rest.now }
    ensures within { result.is_newline ≡ false }
{
    Separator {
        rest,
        is_newline: false,
    }
}

// Of a text behind a slash.
#[tactic(auto, unfolding(crate::specs::Separators::comment))]
fn comment(text: &[u8]) -> Option<Separator<'_>>
    ensures value { Separates result (spec.comment text.now) }
    ensures within { IfSome result (λ s. length s.rest.now ≤ length text.now) }
{
    match text {
        [b'/', more @ ..] => Some(passed(line_comment_rest((b'/', b'/'), more))),
        [b'*', more @ ..] => Some(passed(block_comment_rest(more)?)),
        _ => None,
    }
}

// Of a text behind a backslash.
#[tactic(auto, unfolding(crate::specs::Separators::joined_line))]
fn joined_line(text: &[u8]) -> Option<Separator<'_>>
    ensures value { Separates result (spec.joined_line text.now) }
    ensures within { IfSome result (λ s. length s.rest.now ≤ length text.now) }
{
    match text {
        [b'\n', more @ ..] | [b'\r', b'\n', more @ ..] => Some(passed(more)),
        _ => None,
    }
}

// One byte of white space, one joined line or one comment.
#[tactic(auto, unfolding(crate::specs::Separators::separator))]
fn next_separator(text: &[u8]) -> Option<Separator<'_>>
    ensures value { Separates result (spec.separator text.now) }
    ensures within { IfSome result (λ s. length s.rest.now < length text.now) }
{
    let [b, rest @ ..] = text else {
        return None;
    };
    if is_white_space(*b) {
        return Some(Separator {
            rest,
            is_newline: *b == b'\n',
        });
    }
    match *b {
        b'/' => comment(rest),
        b'\\' => joined_line(rest),
        _ => None,
    }
}

/// Passes the white space and the comments at the front of a text. A comment that is never closed stays.
#[tactic(auto, using(crate::proofs::Gaps::gap_turn), unfolding(crate::specs::Separators::gap))]
pub fn skip_gap(found: bool, text: &[u8]) -> Gap<'_>
    ensures value { spec.gap found text.now ≡ record { rest = result.rest.now; has_newline = result.has_newline } }
    ensures within { length result.rest.now ≤ length text.now }
{
    let mut rest = text;
    let mut has_newline = found;
    while let Some(separator) = next_separator(rest) {
        rest = separator.rest;
        has_newline = has_newline || separator.is_newline;
    }
    Gap { rest, has_newline }
}
