//! The state while a text is read, and the directives.

ghost use Rattle.std.specs.Prelude.{◌≡◌, ◌≤◌, length, None};
ghost use Rattle.c_pre.specs.Limits.{max_expanded_tokens};
ghost use Rattle.c_pre.specs.Lines.{lines};
ghost use Rattle.c_pre.specs.Directives.{line_kind};
ghost use Rattle.c_pre.specs.Headers.{header_tokens};
ghost use Rattle.c_pre.specs.Names as names;
ghost use Rattle.c_pre.specs.Trace.{quiet, line_of};
ghost use Rattle.c_pre.specs.Sections as sections;
ghost use Rattle.c_pre.specs.Reading as spec;
ghost use Rattle.c_pre.specs.InnerFirst.{inner_first};
ghost use Rattle.c_pre.specs.Outcomes.{Emits, Steps, state_of, line_of_kind, macro_of};

use crate::MAX_REPLACEMENT_TOKENS;
use crate::condition::{Condition, judge};
use crate::definition::{Definition, Macro};
use crate::directive::LineKind;
use crate::expansion::{MacroTable, expand_run};
use crate::fault::{PreError, PreFault, PreFaultKind};
use crate::header::Header;
use crate::headers::Headers;
use crate::lines::line_len;
use crate::name::MacroName;
use crate::parameters::same_names;
use crate::section::IfSection;
use c_lexer::Token;
use indexmap::IndexMap;
use sb_base::Line;
use smallvec::SmallVec;
use std::alloc::Global;

/// How many open if-sections take no memory of their own.
const OPEN_INLINE: usize = 8;

/// What was read so far.
#[derive(Drop)]
pub struct Preprocessor<'t, 'a> {
    /// Where memory comes from.
    pub alloc: Global,
    /// The headers, which lend their replacement lists.
    pub headers: &'t Headers<'a>,
    /// The macros that are defined.
    pub macros: MacroTable<'t, 'a>,
    /// The if-sections that are open, the innermost last.
    pub sections: SmallVec<IfSection, OPEN_INLINE>,
    /// How many tokens replacement lists may still put in.
    pub room: usize,
}

/// A fault as an error.
fn fault(kind: PreFaultKind, line: Line) -> PreError
    ensures { result ≡ PreError.Fault (record { kind = kind; line = line }) }
{
    PreError::Fault(PreFault::new(kind, line))
}

/// Whether two replacement lists have the same spellings in the same order.
fn same_list(a: &[Token<'_>], b: &[Token<'_>]) -> bool
    ensures { result ≡ names.same_list a.now b.now }
{
    let mut a = a;
    let mut b = b;
    while let [first, more @ ..] = a {
        let [other, others @ ..] = b else {
            return false;
        };
        if first.kind.spelling() != other.kind.spelling() {
            return false;
        }
        a = more;
        b = others;
    }
    b.is_empty()
}

/// Whether two macros have the same parameters in the same order, or both none.
fn same_parameters(a: &Macro<'_, '_>, b: &Macro<'_, '_>) -> bool
    ensures { result ≡ names.same_parameters (macro_of a.now).parameters (macro_of b.now).parameters }
{
    match a.parameters {
        None => b.parameters.is_none(),
        Some(names) => match b.parameters {
            None => false,
            Some(others) => same_names(names, others),
        },
    }
}

/// Whether two definitions are the same.
fn same_macro(a: &Macro<'_, '_>, b: &Macro<'_, '_>) -> bool
    ensures { result ≡ names.same_macro (macro_of a.now) (macro_of b.now) }
{
    same_parameters(a, b) && same_list(a.list, b.list)
}

impl<'t, 'a> Preprocessor<'t, 'a> {
    /// Begins a text: no name is defined.
    pub fn new(alloc: Global, headers: &'t Headers<'a>) -> Self
        ensures { state_of result ≡ spec.start }
    {
        Preprocessor {
            alloc,
            headers,
            macros: IndexMap::new(alloc),
            sections: SmallVec::new(alloc),
            room: MAX_REPLACEMENT_TOKENS,
        }
    }

    /// Whether the text here is read.
    #[tactic(auto, using(crate::proofs::Stacks::last_is_inner))]
    fn is_reading(&self) -> bool
        ensures { result ≡ sections.is_read (inner_first self.now.sections.items) }
    {
        match self.sections.as_slice().split_last() {
            Some((section, _)) => section.is_reading,
            None => true,
        }
    }

    /// Opens an if-section.
    #[tactic(auto, using(crate::proofs::Stacks::last_is_inner))]
    fn open(&mut self, section: IfSection) -> Result<(), PreError>
        ensures { Steps (quiet (sections.with_section section (state_of self.old))) (λ _. state_of self.new) result }
    {
        self.sections.push(section)?;
        Ok(())
    }

    /// `#if`.
    fn begin_if(&mut self, at: Line, condition: Condition<'t, 'a>) -> Result<(), PreError>
        ensures { Steps (spec.if_at at condition.entry.tokens.now (state_of self.old)) (λ _. state_of self.new) result }
    {
        let judged = judge(self.alloc, at, &self.macros, self.room, condition.tokens)?;
        self.room = judged.room;
        self.open(IfSection::opened(at, judged.holds))
    }

    /// `#elif`.
    #[tactic(auto, using(crate::proofs::Stacks::last_is_inner))]
    fn begin_elif(&mut self, at: Line, condition: Condition<'t, 'a>) -> Result<(), PreError>
        ensures { Steps (spec.elif_at at condition.entry.tokens.now (state_of self.old)
            (inner_first self.old.sections.items)) (λ _. state_of self.new) result }
    {
        let Some(section) = self.sections.pop() else {
            return Err(fault(PreFaultKind::StrayEnd, at));
        };
        if section.has_else {
            return Err(fault(PreFaultKind::StrayEnd, at));
        }
        if section.is_taken {
            self.sections.push(section.passed())?;
            return Ok(());
        }
        let judged = judge(self.alloc, at, &self.macros, self.room, condition.tokens)?;
        self.room = judged.room;
        self.sections.push(section.tried(judged.holds))?;
        Ok(())
    }

    /// `#else`.
    #[tactic(auto, using(crate::proofs::Stacks::last_is_inner))]
    fn begin_else(&mut self, at: Line, well_formed: bool) -> Result<(), PreError>
        ensures { Steps (sections.else_at at well_formed (state_of self.old) (inner_first self.old.sections.items))
            (λ _. state_of self.new) result }
    {
        let Some(section) = self.sections.pop() else {
            return Err(fault(PreFaultKind::StrayEnd, at));
        };
        if section.has_else {
            return Err(fault(PreFaultKind::StrayEnd, at));
        }
        if section.in_read_text && !well_formed {
            return Err(fault(PreFaultKind::UnknownDirective, at));
        }
        self.sections.push(IfSection {
            line: section.line,
            in_read_text: section.in_read_text,
            is_taken: true,
            has_else: true,
            is_reading: !section.is_taken,
        })?;
        Ok(())
    }

    /// `#endif`.
    #[tactic(auto, using(crate::proofs::Stacks::last_is_inner))]
    fn close(&mut self, at: Line, well_formed: bool) -> Result<(), PreError>
        ensures { Steps (sections.endif_at at well_formed (state_of self.old) (inner_first self.old.sections.items))
            (λ _. state_of self.new) result }
    {
        let Some(section) = self.sections.pop() else {
            return Err(fault(PreFaultKind::StrayEnd, at));
        };
        if section.in_read_text && !well_formed {
            return Err(fault(PreFaultKind::UnknownDirective, at));
        }
        Ok(())
    }

    /// `#define`.
    #[tactic(auto, using(crate::proofs::Tables::redefines))]
    fn define(&mut self, at: Line, definition: Definition<'t, 'a>) -> Result<(), PreError>
        ensures { Steps (spec.defined (state_of self.old) at definition.entry.name
            (macro_of definition.entry.meaning))
            (λ _. state_of self.new) result }
    {
        if let Some(old) = self.macros.get(&definition.name).copied() {
            if !same_macro(&old, &definition.meaning) {
                return Err(fault(PreFaultKind::MacroRedefined, at));
            }
        }
        self.macros.insert(definition.name, definition.meaning)?;
        Ok(())
    }

    /// `#undef`.
    #[tactic(auto, using(crate::proofs::Tables::redefines))]
    fn undefine(&mut self, name: &MacroName<'a>)
        ensures { state_of self.new ≡ spec.with_macro name.now None (state_of self.old) }
    {
        self.macros.swap_remove(name);
    }

    /// `#include`: defines the macros of the header, as at this line.
    fn include(&mut self, at: Line, header: Header) -> Result<(), PreError>
        ensures { Steps (spec.define_lines at (lines (header_tokens header)) (state_of self.old))
            (λ _. state_of self.new) result }
    {
        let tokens = self.headers.tokens(header);
        let mut from = 0;
        while from < tokens.len() {
            let rest = &tokens[from..];
            let len = line_len(rest);
            self.define_line(at, &rest[..len])?;
            from += len;
        }
        Ok(())
    }

    /// A line of a header.
    fn define_line(&mut self, at: Line, line: &'t [Token<'a>]) -> Result<(), PreError>
        ensures { Steps (spec.define_line (state_of self.old) at (line_kind line.now)) (λ _. state_of self.new) result }
    {
        match LineKind::of(line) {
            LineKind::Define(definition) => self.define(at, definition),
            _ => Ok(()),
        }
    }

    /// A directive in text that is read.
    fn obey(&mut self, at: Line, kind: LineKind<'t, 'a>) -> Result<(), PreError>
        ensures { Steps (spec.obeyed (state_of self.old) at (line_of_kind kind.entry)) (λ _. state_of self.new) result }
    {
        match kind {
            LineKind::Text | LineKind::Null => Ok(()),
            LineKind::Include(header) => self.include(at, header),
            LineKind::IfDefined(name, wanted) => {
                let holds = self.macros.contains_key(&name) == wanted;
                self.open(IfSection::opened(at, holds))
            }
            LineKind::If(condition) => self.begin_if(at, condition),
            LineKind::Elif(condition) => self.begin_elif(at, condition),
            LineKind::Else(well_formed) => self.begin_else(at, well_formed),
            LineKind::Endif(well_formed) => self.close(at, well_formed),
            LineKind::Define(definition) => self.define(at, definition),
            LineKind::Undef(name) => {
                self.undefine(&name);
                Ok(())
            }
            LineKind::UnknownInclude => Err(fault(PreFaultKind::UnknownInclude, at)),
            LineKind::IfOther | LineKind::UnknownDirective => Err(fault(
                PreFaultKind::UnknownDirective,
                at,
            )),
        }
    }

    /// A line of a skipped group.
    fn follow(&mut self, at: Line, kind: LineKind<'t, 'a>) -> Result<(), PreError>
        ensures { Steps (spec.followed (state_of self.old) at (line_of_kind kind.entry)) (λ _. state_of self.new)
            result }
    {
        match kind {
            LineKind::IfDefined(_, _) | LineKind::IfOther | LineKind::If(_) => {
                self.open(IfSection::skipped(at))
            }
            LineKind::Elif(condition) => self.begin_elif(at, condition),
            LineKind::Else(well_formed) => self.begin_else(at, well_formed),
            LineKind::Endif(well_formed) => self.close(at, well_formed),
            _ => Ok(()),
        }
    }

    /// Gives the expansion of a text line.
    fn read_text_line(
        &mut self,
        line: &'t [Token<'a>],
        out: &mut Vec<Token<'a>>,
    ) -> Result<(), PreError>
        requires { length out.old.items ≤ max_expanded_tokens }
        ensures { Emits (spec.read_text_line (state_of self.old) line.now) (λ _. state_of self.new) out.old.items
            out.new.items result }
    {
        self.room = expand_run(self.alloc, &self.macros, self.room, line, out)?;
        Ok(())
    }

    /// Reads a line, and gives its tokens.
    pub fn read_line(
        &mut self,
        line: &'t [Token<'a>],
        out: &mut Vec<Token<'a>>,
    ) -> Result<(), PreError>
        requires { length out.old.items ≤ max_expanded_tokens }
        ensures { Emits (spec.read_line (state_of self.old) line.now) (λ _. state_of self.new) out.old.items
            out.new.items result }
    {
        let at = line_of(line);
        let kind = LineKind::of(line);
        if !self.is_reading() {
            return self.follow(at, kind);
        }
        if kind.is_text() {
            return self.read_text_line(line, out);
        }
        self.obey(at, kind)
    }

    /// The end of the text.
    #[tactic(auto, using(crate::proofs::Stacks::first_is_outermost))]
    pub fn finish(&self) -> Result<(), PreError>
        ensures { Steps (sections.finished (inner_first self.now.sections.items)) (λ x. x) result }
    {
        match self.sections.as_slice().split_first() {
            None => Ok(()),
            Some((section, _)) => Err(fault(PreFaultKind::Unclosed, section.line)),
        }
    }
}

/// The line of the first of these tokens.
fn line_of(tokens: &[Token<'_>]) -> Line
    ensures { result ≡ line_of tokens.now }
{
    match tokens.split_first() {
        Some((token, _)) => token.line,
        None => Line::first(),
    }
}
