//! A whole text.

ghost use Rattle.std.specs.Prelude.{◌≡◌, ◌≤◌, length, IfOk};
ghost use Rattle.c_pre.specs.Limits.{max_expanded_tokens};
ghost use Rattle.c_pre.specs.Reading as spec;
ghost use Rattle.c_pre.specs.Outcomes.{Gives};

use crate::fault::PreError;
use crate::headers::Headers;
use crate::lines::run_len;
use crate::preprocessor::Preprocessor;
use c_lexer::{Token, Tokens};
use std::alloc::Global;

/// The expanded tokens of a text, or its first fault.
fn expand_tokens<'a>(alloc: Global, tokens: &[Token<'a>]) -> Result<Vec<Token<'a>>, PreError>
    ensures value { Gives (λ v. v.items) result (spec.expanded_tokens tokens.now) }
    ensures few { IfOk result (λ v. length v.items ≤ max_expanded_tokens) }
{
    let headers = Headers::new(alloc)?;
    let mut preprocessor = Preprocessor::new(alloc, &headers);
    let mut out = Vec::new(alloc);
    let mut at = 0;
    while at < tokens.len() {
        let rest = &tokens[at..];
        let len = run_len(rest);
        preprocessor.read_line(&rest[..len], &mut out)?;
        at += len;
    }
    preprocessor.finish()?;
    Ok(out)
}

/// Obeys the directives of a text and expands its macros: exactly the expanded tokens, or the first fault in the order
/// of the text. A token that a macro puts in has the line of the macro's use in the text, and otherwise stays as it
/// stands in the definition. The line on which the text ends stays.
pub fn expand<'a>(alloc: Global, tokens: Tokens<'a>) -> Result<Tokens<'a>, PreError>
    ensures value { Gives (λ list. list) result (spec.expanded tokens.entry) }
    ensures few { IfOk result (λ list. length list.tokens ≤ max_expanded_tokens) }
{
    let expanded = expand_tokens(alloc, tokens.as_slice())?;
    Ok(Tokens::new(expanded, tokens.end()))
}
