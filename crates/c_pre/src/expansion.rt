//! Macro replacement (C99 6.10.3).

ghost use Rattle.std.specs.Prelude.{◌≡◌, ◌≤◌, length, None};
ghost use Rattle.c_pre.specs.Expansion as expansion;
ghost use Rattle.c_pre.specs.Outcomes.{Emits, Expands, macros_of};
ghost use Rattle.c_pre.specs.Trace.{gives};
ghost use Rattle.c_pre.specs.Limits.{max_expanded_tokens};

use crate::MAX_EXPANDED_TOKENS;
use crate::definition::Macro;
use crate::expander::Expander;
use crate::fault::{PreError, PreFault, PreFaultKind};
use crate::name::MacroName;
use c_lexer::Token;
use indexmap::IndexMap;
use std::alloc::Global;

/// The macros that are defined, each with what it is defined as.
pub type MacroTable<'t, 'a> = IndexMap<MacroName<'a>, Macro<'t, 'a>>;

/// Gives a token, unless it is one too many.
#[tactic(auto, using(crate::proofs::Giving::one_too_many), unfolding(crate::specs::Trace::answer))]
pub fn give<'a>(out: &mut Vec<Token<'a>>, token: Token<'a>) -> Result<(), PreError>
    requires { length out.old.items ≤ max_expanded_tokens }
    ensures { Emits (gives token.entry) (λ x. x) out.old.items out.new.items result }
{
    if out.len() >= MAX_EXPANDED_TOKENS {
        return Err(PreError::Fault(PreFault::new(PreFaultKind::TooMany, token.line)));
    }
    out.push(token)?;
    Ok(())
}

/// Tokens that were expanded by themselves, and how many tokens replacement lists may still put in.
#[derive(Drop)]
pub struct Expanded<'a> {
    /// What was given.
    pub tokens: Vec<Token<'a>>,
    /// How many tokens replacement lists may still put in.
    pub room: usize,
}

/// Expands tokens by themselves, however many that gives.
pub fn expand_alone<'t, 'a>(
    alloc: Global,
    macros: &MacroTable<'t, 'a>,
    room: usize,
    text: &[Token<'a>],
) -> Result<Expanded<'a>, PreError>
    ensures { Expands (expansion.trace_of (expansion.expansion (macros_of macros.now) None room
        (expansion.of_text text.now))) result }
{
    let mut expander = Expander::new(alloc, room, text)?;
    let mut tokens = Vec::new(alloc);
    for _ in 0..u64::MAX {
        let mut given = Vec::new(alloc);
        let goes_on = expander.step(macros, &mut given)?;
        tokens.append(&mut given)?;
        if !goes_on {
            return Ok(Expanded {
                tokens,
                room: expander.unread.room,
            });
        }
    }
    Err(PreError::Memory)
}

/// Gives the expansion of text lines, and tells how many tokens replacement lists may still put in.
pub fn expand_run<'t, 'a>(
    alloc: Global,
    macros: &MacroTable<'t, 'a>,
    room: usize,
    text: &[Token<'a>],
    out: &mut Vec<Token<'a>>,
) -> Result<usize, PreError>
    requires { length out.old.items ≤ max_expanded_tokens }
    ensures { Emits (expansion.trace_of (expansion.expansion (macros_of macros.now) None room
        (expansion.of_text text.now))) (λ x. x) out.old.items out.new.items result }
{
    let mut expander = Expander::new(alloc, room, text)?;
    for _ in 0..u64::MAX {
        if !expander.step(macros, out)? {
            return Ok(expander.unread.room);
        }
    }
    Err(PreError::Memory)
}
