//! What tokens are to the arguments of calls of function-like macros (C99 6.10.3 paragraph 11).

ghost use Rattle.std.specs.Prelude.{◌≡◌, map, option_map, IfSome};
ghost use Rattle.std.specs.List.{AllByRecursion};
ghost use Rattle.c_pre.specs.Arguments as spec;
ghost use Rattle.c_pre.specs.Directives.{names_among};
ghost use Rattle.c_pre.specs.Ends.{role_of};
ghost use Rattle.c_pre.specs.Expansion as expansion;
ghost use Rattle.c_pre.specs.Names as names;
ghost use Rattle.c_pre.specs.Pending.{all_hiding, AreKnown};
ghost use Rattle.c_pre.specs.declared.hide_set.HideSets.{HideSets};

use crate::hiding::Hiding;
use crate::name::MacroName;
use crate::parameters::parameter_at;
use c_lexer::{Punctuator, Token, TokenKind};

/// What a token is to arguments.
#[derive(Clone, Copy, Debug, PartialEq, Eq)]
pub enum Role {
    /// `(`
    Opens,
    /// `)`
    Closes,
    /// `,`
    Parts,
    /// Any other.
    Other,
}

/// Where what begins with an unread token ends: how many tokens are unread from there on, or 0 where it does not end.
#[derive(Clone, Copy, Debug, PartialEq, Eq)]
pub struct Ends {
    /// The argument: at the first comma or `)` outside inner parentheses.
    pub argument: usize,
    /// The arguments of the call: at the first `)` outside inner parentheses, the matching one.
    pub call: usize,
}

impl Role {
    /// That of a token.
    pub fn of(token: &Token<'_>) -> Self
        ensures { role_of result ≡ spec.role token.now.kind }
    {
        match token.kind {
            TokenKind::Punctuator(Punctuator::LeftParenthesis) => Role::Opens,
            TokenKind::Punctuator(Punctuator::RightParenthesis) => Role::Closes,
            TokenKind::Punctuator(Punctuator::Comma) => Role::Parts,
            _ => Role::Other,
        }
    }
}

/// The argument of the parameter that a token names.
pub fn argument_of<'s, 'a>(
    parameters: &[Token<'a>],
    arguments: &'s [Vec<Hiding<'a>>],
    token: &Token<'a>,
) -> Option<&'s [Hiding<'a>]>
    ensures argument { (sets : HideSets) → option_map (λ argument. all_hiding sets argument.now) result
        ≡ expansion.argument_of (names_among parameters.now) (map (λ v. all_hiding sets v.items) arguments.now)
        (names.name_of token.now.kind) }
    ensures known { (sets : HideSets) → AllByRecursion (λ v. AreKnown sets v.items) arguments.now
        → IfSome result (λ argument. AreKnown sets argument.now) }
{
    let Some(name) = MacroName::of(&token.kind) else {
        return None;
    };
    let Some(place) = parameter_at(&name, parameters) else {
        return None;
    };
    if place < arguments.len() {
        Some(arguments[place].as_slice())
    } else {
        None
    }
}
