//! The tokens that are still to be expanded.

ghost use Rattle.std.specs.Prelude.{◌≡◌, ◌≤◌, [], ◌∷◌, length, take, map, None, option_map, is_some, IfOk, OnOk};
ghost use Rattle.std.specs.List.{AllByRecursion};
ghost use Rattle.c_pre.specs.ArgumentEnds.{each_ends};

use crate::arguments::{Ends, Role, argument_of};
use crate::fault::{PreError, PreFault, PreFaultKind};
use crate::hide_set::{EMPTY, HideSet, HideSets};
use crate::hiding::Hiding;
use c_lexer::Token;
use sb_base::Line;
use std::alloc::{AllocError, Global};

/// The tokens that are still to be read. Those of an argument stand before those behind it, where it is expanded.
#[derive(Drop)]
pub struct Unread<'a> {
    /// The hide sets of all tokens.
    pub sets: HideSets<'a>,
    /// The tokens, the next one last.
    pub tokens: Vec<Hiding<'a>>,
    /// For each of the tokens, where what begins with it ends: what is behind a token stays while that is unread.
    ends: Vec<Ends>,
    /// How many tokens replacement lists may still put in.
    pub room: usize,
    ghost ends_are: { ends.items ≡ each_ends [] tokens.items },
}

impl<'a> Unread<'a> {
    ghost use Rattle.c_pre.specs.ArgumentEnds.{ends_of, roles};
    ghost use Rattle.c_pre.specs.Arguments as arguments;
    ghost use Rattle.c_pre.specs.Arguments.{role};
    ghost use Rattle.c_pre.specs.Directives.{names_among};
    ghost use Rattle.c_pre.specs.Ends.{EndIs, NextIs, OpenIs, Pushed};
    ghost use Rattle.c_pre.specs.Expansion as expansion;
    ghost use Rattle.c_pre.specs.Pending.{above, all_hiding, AreKnown};
    ghost use Rattle.c_pre.specs.PutIn.{PutsIn};
    ghost use Rattle.c_pre.specs.SharedSets.{IsKnown, names_of};

    /// The tokens of a text.
    pub fn new(alloc: Global, room: usize, text: &[Token<'a>]) -> Result<Self, AllocError>
        ensures tokens { IfOk result (λ u. above 0 u.sets u.tokens.items ≡ expansion.of_text text.now) }
        ensures known { IfOk result (λ u. AreKnown u.sets u.tokens.items) }
        ensures room { IfOk result (λ u. u.room ≡ room) }
    {
        let mut unread = Unread {
            sets: HideSets::new(alloc),
            tokens: Vec::new(alloc),
            ends: Vec::new(alloc),
            room,
        };
        let mut n = text.len();
        while n > 0 {
            n -= 1;
            let token = &text[n];
            unread.push(Hiding {
                token: token.on_line(token.line),
                hidden: EMPTY,
            })?;
        }
        Ok(unread)
    }

    /// The ends of what begins with the last of so many unread tokens.
    fn ends_at(&self, height: usize) -> Ends
        requires { height ≤ length self.now.tokens.items }
        ensures { result ≡ ends_of (roles (take height self.now.tokens.items)) }
    {
        if height == 0 {
            return Ends {
                argument: 0,
                call: 0,
            };
        }
        self.ends[height - 1]
    }

    /// The ends of what begins with a token before all others. What begins with a `(` ends as what is behind its `)`.
    fn ends_before(&self, token: &Token<'a>) -> Ends
        ensures { result ≡ ends_of (role token.now.kind ∷ roles self.now.tokens.items) }
    {
        let height = self.tokens.len();
        let behind = self.ends_at(height);
        match Role::of(token) {
            Role::Opens => self.ends_at(behind.call.saturating_sub(1)),
            Role::Closes => Ends {
                argument: height + 1,
                call: height + 1,
            },
            Role::Parts => Ends {
                argument: height + 1,
                call: behind.call,
            },
            Role::Other => behind,
        }
    }

    /// Puts a token before all others.
    fn push(&mut self, x: Hiding<'a>) -> Result<(), AllocError>
        ensures { OnOk result (Pushed self.old self.new x.entry) }
    {
        let ends = self.ends_before(&x.token);
        self.ends.push(ends)?;
        match self.tokens.push(x) {
            Ok(()) => Ok(()),
            Err(_) => {
                self.ends.pop();
                Err(AllocError)
            }
        }
    }

    /// Takes the next token, if one stands above `end` tokens.
    pub fn next(&mut self, end: usize) -> Option<Hiding<'a>>
        ensures { NextIs self.old self.new end result }
    {
        if self.tokens.len() <= end {
            return None;
        }
        self.ends.pop();
        self.tokens.pop()
    }

    /// Takes the next token, if it is a `(` and stands above `end` tokens.
    pub fn open(&mut self, end: usize) -> Result<Option<Hiding<'a>>, AllocError>
        ensures { IfOk result (λ taken. OpenIs self.old self.new end taken) }
    {
        let Some(next) = self.next(end) else {
            return Ok(None);
        };
        match Role::of(&next.token) {
            Role::Opens => Ok(Some(next)),
            _ => {
                self.push(next)?;
                Ok(None)
            }
        }
    }

    /// The end of the argument that begins with the next token: how many tokens are unread from the comma or `)` on
    /// that ends it, if that stands above `end` tokens.
    pub fn argument_end(&self, end: usize) -> Option<usize>
        ensures { EndIs self.now end result }
    {
        let height = self.ends_at(self.tokens.len()).argument;
        if height > end { Some(height) } else { None }
    }

    /// Whether the `)` of the call that begins with the next token stands above `end` tokens.
    pub fn is_closed(&self, end: usize) -> bool
        ensures { result ≡ is_some (arguments.taken 0 (above end self.now.sets self.now.tokens.items)) }
    {
        self.ends_at(self.tokens.len()).call > end
    }

    /// Puts a token in, before all others.
    fn put(&mut self, line: Line, token: &Token<'a>, hidden: HideSet) -> Result<(), PreError>
        requires known { AreKnown self.old.sets self.old.tokens.items }
        requires set { IsKnown self.old.sets hidden }
        ensures { PutsIn (expansion.put_token line (names_of self.old.sets hidden) token.now None) self.old self.new
            line result }
    {
        if self.room == 0 {
            return Err(PreError::Fault(PreFault::new(PreFaultKind::TooMany, line)));
        }
        self.push(Hiding {
            token: token.on_line(line),
            hidden,
        })?;
        self.room -= 1;
        Ok(())
    }

    /// Puts an expanded argument in.
    fn put_argument(
        &mut self,
        line: Line,
        here: HideSet,
        argument: &[Hiding<'a>],
    ) -> Result<(), PreError>
        requires known { AreKnown self.old.sets self.old.tokens.items }
        requires set { IsKnown self.old.sets here }
        requires argument { AreKnown self.old.sets argument.now }
        ensures { PutsIn (expansion.put_argument line (names_of self.old.sets here)
            (all_hiding self.old.sets argument.now)) self.old self.new line result }
    {
        let mut n = argument.len();
        while n > 0 {
            n -= 1;
            let x = &argument[n];
            let hidden = self.sets.joined(x.hidden, here)?;
            self.put(line, &x.token, hidden)?;
        }
        Ok(())
    }

    /// Puts a replacement list in, with these expanded arguments for these parameters.
    pub fn put_in(
        &mut self,
        line: Line,
        here: HideSet,
        parameters: &[Token<'a>],
        arguments: &[Vec<Hiding<'a>>],
        list: &[Token<'a>],
    ) -> Result<(), PreError>
        requires known { AreKnown self.old.sets self.old.tokens.items }
        requires set { IsKnown self.old.sets here }
        requires arguments { AllByRecursion (λ v. AreKnown self.old.sets v.items) arguments.now }
        ensures { PutsIn (expansion.put_in line (names_of self.old.sets here) (names_among parameters.now)
            (map (λ v. all_hiding self.old.sets v.items) arguments.now) list.now) self.old self.new line result }
    {
        let mut n = list.len();
        while n > 0 {
            n -= 1;
            let token = &list[n];
            match argument_of(parameters, arguments, token) {
                Some(argument) => self.put_argument(line, here, argument)?,
                None => self.put(line, token, here)?,
            }
        }
        Ok(())
    }
}
