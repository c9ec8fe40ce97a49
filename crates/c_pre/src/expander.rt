//! The expansion of text lines, without recursion: a stack of the calls whose arguments are being expanded.

ghost use Rattle.std.specs.Prelude.{◌≡◌, ◌≤◌, [], ◌∷◌, length, option_map, IfOk, OnOk, None, is_some, true};
ghost use Rattle.c_pre.specs.Arguments.{fits, taken};
ghost use Rattle.c_pre.specs.Expansion as expansion;
ghost use Rattle.c_pre.specs.InnerFirst.{inner_first};
ghost use Rattle.c_pre.specs.Limits.{max_expanded_tokens};
ghost use Rattle.c_pre.specs.Outcomes.{macro_of, macros_of};
ghost use Rattle.c_pre.specs.Names.{Macros};
ghost use Rattle.c_pre.specs.Pending as pending;
ghost use Rattle.c_pre.specs.Progress as progress;
ghost use Rattle.c_pre.specs.SharedSets.{IsKnown, names_of};

use crate::arguments::Role;
use crate::definition::Definition;
use crate::expansion::{MacroTable, give};
use crate::fault::{PreError, PreFault, PreFaultKind};
use crate::hide_set::HideSet;
use crate::hiding::Hiding;
use crate::name::MacroName;
use crate::parameters::count;
use crate::unread::Unread;
use c_lexer::Token;
use sb_base::Line;
use std::alloc::{AllocError, Global};
use std::mem;

/// A call of a function-like macro whose arguments are being expanded.
#[derive(Drop)]
pub struct Call<'t, 'a> {
    /// The macro's name.
    pub name: MacroName<'a>,
    /// The hide set of the name.
    pub hidden: HideSet,
    /// The line on which all tokens of the call count.
    pub line: Line,
    /// The tokens between the parentheses of the definition.
    pub parameters: &'t [Token<'a>],
    /// The replacement list.
    pub list: &'t [Token<'a>],
    /// Whether the first argument has no tokens.
    pub is_empty: bool,
    /// How many tokens are unread from the comma or `)` on that ends the present argument.
    pub end: usize,
    /// The arguments that are expanded.
    pub done: Vec<Vec<Hiding<'a>>>,
    /// What the present argument gave so far.
    pub given: Vec<Hiding<'a>>,
}

impl<'t, 'a> Call<'t, 'a> {
    /// Ends the present argument.
    fn end_argument(&mut self, alloc: Global) -> Result<(), AllocError>
        ensures { OnOk result (progress.ArgumentEnds self.old self.new) }
    {
        let given = mem::replace(&mut self.given, Vec::new(alloc));
        self.done.push(given)?;
        Ok(())
    }
}

/// What is left to do.
#[derive(Drop)]
pub struct Expander<'t, 'a> {
    /// Where memory comes from.
    pub alloc: Global,
    /// The tokens that are still to be read.
    pub unread: Unread<'a>,
    /// The calls, the innermost last.
    pub calls: Vec<Call<'t, 'a>>,
}

/// A fault of a call on this line.
fn bad_call(line: Line) -> PreError
    ensures { result ≡ PreError.Fault (record { kind = PreFaultKind.BadCall; line = line }) }
{
    PreError::Fault(PreFault::new(PreFaultKind::BadCall, line))
}

/// Whether the number of arguments is that of the parameters, where the first argument has tokens or not.
fn fits(parameters: usize, is_empty: bool, arguments: usize) -> bool
    ensures { result ≡ fits parameters is_empty arguments }
{
    if parameters == 0 && is_empty && arguments == 1 {
        return true;
    }
    parameters == arguments
}

impl<'t, 'a> Expander<'t, 'a> {
    /// Begins with a text.
    pub fn new(alloc: Global, room: usize, text: &[Token<'a>]) -> Result<Self, AllocError>
        ensures sound { IfOk result (λ e. pending.IsSound e) }
        ensures whole { IfOk result (λ e. (macros : Macros) → pending.comes_to macros (pending.left e)
            ≡ expansion.expansion macros None room (expansion.of_text text.now)) }
    {
        Ok(Expander {
            alloc,
            unread: Unread::new(alloc, room, text)?,
            calls: Vec::new(alloc),
        })
    }

    /// How many tokens are unread from the end of the present argument on.
    #[tactic(auto, using(crate::proofs::Stacks::last_is_inner))]
    fn end(&self) -> usize
        ensures { result ≡ pending.end_of (inner_first self.now.calls.items) }
    {
        match self.calls.as_slice().split_last() {
            Some((call, _)) => call.end,
            None => 0,
        }
    }

    /// The line on which a token counts.
    #[tactic(auto, using(crate::proofs::Stacks::last_is_inner))]
    fn line(&self, token: &Token<'a>) -> Line
        ensures { result ≡ expansion.line_at (pending.line_of_calls (inner_first self.now.calls.items)) token.now.line }
    {
        match self.calls.as_slice().split_last() {
            Some((call, _)) => call.line,
            None => token.line,
        }
    }

    /// The macro that replaces a token, if one does.
    fn macro_for(&self, macros: &MacroTable<'t, 'a>, x: &Hiding<'a>) -> Option<Definition<'t, 'a>>
        requires { IsKnown self.now.unread.sets x.now.hidden }
        ensures { option_map (λ m. (m.name, macro_of m.meaning)) result
            ≡ expansion.replacement (macros_of macros.now) (pending.hiding self.now.unread.sets x.now) }
    {
        let name = MacroName::of(&x.token.kind)?;
        if self.unread.sets.contains(x.hidden, &name) {
            return None;
        }
        let meaning = macros.get(&name).copied()?;
        Some(Definition { name, meaning })
    }

    /// Gives a token that stays: to the present argument, or to the text.
    fn give(&mut self, x: Hiding<'a>, out: &mut Vec<Token<'a>>) -> Result<(), PreError>
        requires few { length out.old.items ≤ max_expanded_tokens }
        requires sound { pending.IsSound self.old }
        requires set { IsKnown self.old.unread.sets x.hidden }
        ensures { progress.Goes (λ macros. progress.staying macros self.old x.entry) self.new out.old.items
            out.new.items result }
    {
        let depth = self.calls.len();
        if depth == 0 {
            return give(out, x.token);
        }
        let Some(call) = self.calls.pop() else {
            return Err(PreError::Memory);
        };
        let mut call = call;
        call.given.push(x)?;
        self.calls.push(call)?;
        Ok(())
    }

    /// Puts in the list of an object-like macro for its name.
    fn replace(
        &mut self,
        x: Hiding<'a>,
        name: MacroName<'a>,
        list: &'t [Token<'a>],
    ) -> Result<(), PreError>
        requires sound { pending.IsSound self.old }
        requires set { IsKnown self.old.unread.sets x.hidden }
        requires within { pending.end_of (inner_first self.old.calls.items) ≤ length self.old.unread.tokens.items }
        ensures { progress.Steps (λ macros. progress.object_like macros self.old x.entry name.entry list.now) self.new
            result }
    {
        let line = self.line(&x.token);
        let none = Vec::new(self.alloc);
        let unread = &mut self.unread;
        let here = unread.sets.with(name, x.hidden)?;
        unread.put_in(line, here, &list[..0], &none, list)
    }

    /// The name of a function-like macro: begins a call, or gives the name where no `(` follows.
    fn call(
        &mut self,
        x: Hiding<'a>,
        name: MacroName<'a>,
        parameters: &'t [Token<'a>],
        list: &'t [Token<'a>],
        out: &mut Vec<Token<'a>>,
    ) -> Result<(), PreError>
        requires few { length out.old.items ≤ max_expanded_tokens }
        requires sound { pending.IsSound self.old }
        requires set { IsKnown self.old.unread.sets x.hidden }
        requires within { pending.end_of (inner_first self.old.calls.items) ≤ length self.old.unread.tokens.items }
        ensures { progress.Goes (λ macros. progress.function_like macros self.old x.entry name.entry parameters.now
            list.now) self.new out.old.items out.new.items result }
    {
        let end = self.end();
        match self.unread.open(end)? {
            None => self.give(x, out),
            Some(_) => self.begin_call(x, name, parameters, list),
        }
    }

    /// Begins a call whose `(` was read.
    fn begin_call(
        &mut self,
        x: Hiding<'a>,
        name: MacroName<'a>,
        parameters: &'t [Token<'a>],
        list: &'t [Token<'a>],
    ) -> Result<(), PreError>
        requires sound { pending.IsSound self.old }
        requires set { IsKnown self.old.unread.sets x.hidden }
        requires within { pending.end_of (inner_first self.old.calls.items) ≤ length self.old.unread.tokens.items }
        ensures { progress.Steps (λ macros. progress.beginning macros self.old x.entry name.entry parameters.now
            list.now) self.new result }
    {
        let outer = self.end();
        let line = self.line(&x.token);
        if !self.unread.is_closed(outer) {
            return Err(bad_call(line));
        }
        let Some(end) = self.unread.argument_end(outer) else {
            return Err(PreError::Memory);
        };
        let is_empty = end == self.unread.tokens.len();
        self.calls.push(Call {
            name,
            hidden: x.hidden,
            line,
            parameters,
            list,
            is_empty,
            end,
            done: Vec::new(self.alloc),
            given: Vec::new(self.alloc),
        })?;
        Ok(())
    }

    /// Begins the next argument of a call, behind those that are done.
    fn begin_argument(&mut self, call: Call<'t, 'a>) -> Result<(), PreError>
        requires sound { pending.IsSound self.old }
        requires call { pending.CallIsKnown self.old.unread.sets call }
        requires within { pending.end_of (inner_first self.old.calls.items) ≤ length self.old.unread.tokens.items }
        requires given { call.given.items ≡ [] }
        requires closed { is_some (taken 0 (pending.left self.old).tokens) ≡ true }
        ensures { progress.Steps (λ macros. progress.next_argument macros self.old call.entry) self.new result }
    {
        let outer = self.end();
        let Some(end) = self.unread.argument_end(outer) else {
            return Err(PreError::Memory);
        };
        let mut call = call;
        call.end = end;
        self.calls.push(call)?;
        Ok(())
    }

    /// Puts in the list of a call, all of whose arguments are expanded. The set is that of its `)`.
    fn end_call(&mut self, call: Call<'t, 'a>, close: HideSet) -> Result<(), PreError>
        requires sound { pending.IsSound self.old }
        requires call { pending.CallIsKnown self.old.unread.sets call }
        requires close { IsKnown self.old.unread.sets close }
        requires within { pending.end_of (inner_first self.old.calls.items) ≤ length self.old.unread.tokens.items }
        ensures { progress.Steps (λ macros. progress.last_argument macros self.old call.entry close) self.new result }
    {
        if !fits(count(call.parameters), call.is_empty, call.done.len()) {
            return Err(bad_call(call.line));
        }
        let unread = &mut self.unread;
        let shared = unread.sets.common(self.alloc, call.hidden, close)?;
        let here = unread.sets.with(call.name, shared)?;
        let done = call.done.as_slice();
        self.unread
            .put_in(call.line, here, call.parameters, done, call.list)
    }

    /// The end of the present argument of the innermost call, which is given.
    fn end_argument(&mut self, call: Call<'t, 'a>) -> Result<(), PreError>
        requires sound { pending.SoundIn self.old.unread.sets (call ∷ inner_first self.old.calls.items)
            self.old.unread.tokens.items }
        requires none { length self.old.unread.tokens.items ≤ call.end }
        ensures { progress.Steps (λ macros. pending.comes_to macros (pending.left_in self.old.unread.sets
            (call.entry ∷ inner_first self.old.calls.items) self.old.unread.tokens.items self.old.unread.room)) self.new
            result }
    {
        let outer = self.end();
        let Some(separator) = self.unread.next(outer) else {
            return Err(PreError::Memory);
        };
        let mut call = call;
        call.end_argument(self.alloc)?;
        match Role::of(&separator.token) {
            Role::Closes => self.end_call(call, separator.hidden),
            Role::Parts => self.begin_argument(call),
            _ => Err(PreError::Memory),
        }
    }

    /// Reads a token of the present argument, or of the text.
    fn read(
        &mut self,
        macros: &MacroTable<'t, 'a>,
        x: Hiding<'a>,
        out: &mut Vec<Token<'a>>,
    ) -> Result<(), PreError>
        requires few { length out.old.items ≤ max_expanded_tokens }
        requires sound { pending.IsSound self.old }
        requires set { IsKnown self.old.unread.sets x.hidden }
        requires within { pending.end_of (inner_first self.old.calls.items) ≤ length self.old.unread.tokens.items }
        ensures { progress.Reads (macros_of macros.now) (progress.reading (macros_of macros.now) self.old x.entry)
            self.new out.old.items out.new.items result }
    {
        let Some(definition) = self.macro_for(macros, &x) else {
            return self.give(x, out);
        };
        let meaning = definition.meaning;
        match meaning.parameters {
            None => self.replace(x, definition.name, meaning.list),
            Some(parameters) => self.call(x, definition.name, parameters, meaning.list, out),
        }
    }

    /// Reads one token, or ends an argument. Tells whether more is to be done.
    pub fn step(
        &mut self,
        macros: &MacroTable<'t, 'a>,
        out: &mut Vec<Token<'a>>,
    ) -> Result<bool, PreError>
        requires few { length out.old.items ≤ max_expanded_tokens }
        requires sound { pending.IsSound self.old }
        ensures { progress.Advances (pending.comes_to (macros_of macros.now) (pending.left self.old))
            (macros_of macros.now) self.new out.old.items out.new.items result }
    {
        let end = self.end();
        if let Some(x) = self.unread.next(end) {
            self.read(macros, x, out)?;
            return Ok(true);
        }
        let Some(call) = self.calls.pop() else {
            return Ok(false);
        };
        self.end_argument(call)?;
        Ok(true)
    }
}
