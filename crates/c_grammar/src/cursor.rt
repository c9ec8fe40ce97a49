//! A position in the words of a text, and the readers that take one word.

ghost use Rattle.std.specs.Prelude.{◌≡◌, IfErr};
ghost use Rattle.c_grammar.specs.Reader as spec;
ghost use Rattle.c_grammar.specs.declared.cursor.Fault.TheVariants.{Refused};
ghost use Rattle.c_grammar.specs.Reads.{Reads, Takes, TakesConst};

use crate::typedef_names::TypedefNames;
use c_lexer::{Keyword, Punctuator, Spelling, TokenKind};
use c_syntax::{Items, Position, Positioned, Spelled};
use std::alloc::{AllocError, AllocFailed, Global};

/// Why nothing was read.
#[derive(Clone, Copy, Debug, PartialEq, Eq)]
pub enum Fault {
    /// There is no memory.
    Memory,
    /// The next word is refused.
    Refused,
}

impl From<AllocError> for Fault {
    ghost use Rattle.c_grammar.specs.declared.cursor.Fault.TheVariants.{Memory};

    ghost from_gives = { λ _ e. e ≡ Memory };

    fn from(_error: AllocError) -> Fault {
        Fault::Memory
    }
}

impl<T: Drop> From<AllocFailed<T>> for Fault {
    ghost use Rattle.c_grammar.specs.declared.cursor.Fault.TheVariants.{Memory};

    ghost from_gives = { λ _ e. e ≡ Memory };

    fn from(_error: AllocFailed<T>) -> Fault {
        Fault::Memory
    }
}

/// The words that have not been taken.
#[derive(Drop)]
pub struct Cursor<'t, 'a> {
    /// The words in order.
    pub rest: &'t [Positioned<'a>],
}

/// Whether both are the same punctuator.
#[tactic(auto, unfolding(crate::specs::Reader::is_same))]
pub fn is_same(punctuator: Punctuator, other: Punctuator) -> bool
    ensures { result ≡ spec.is_same punctuator other }
{
    punctuator.spelling() == other.spelling()
}

/// Whether the word is this punctuator.
pub fn is_punctuator(word: &TokenKind, punctuator: Punctuator) -> bool
    ensures { result ≡ spec.is_punctuator punctuator word.now }
{
    match word {
        TokenKind::Punctuator(other) => is_same(punctuator, *other),
        _ => false,
    }
}

/// The spelling at a position.
pub fn spelled<'a>(spelling: &Spelling<'a>, position: Position) -> Spelled<'a>
    ensures spelling { result.spelling ≡ spelling.now }
    ensures position { result.position ≡ position }
{
    Spelled {
        spelling: spelling.again(),
        position,
    }
}

/// Whether the next word is this punctuator.
pub fn next_is(rest: &[Positioned], punctuator: Punctuator) -> bool
    ensures { result ≡ spec.next_is_punctuator punctuator rest.now }
{
    match rest.first() {
        Some(first) => is_punctuator(&first.kind, punctuator),
        None => false,
    }
}

impl<'t, 'a> Cursor<'t, 'a> {
    /// Takes this punctuator.
    #[tactic(auto, unfolding(crate::specs::Reader::expect))]
    pub fn expect(&mut self, punctuator: Punctuator) -> Result<Position, Fault>
        ensures read { Reads (λ p. p) (spec.expect punctuator self.old.rest.now) result self.new.rest.now }
        ensures no_memory { IfErr result (λ f. f ≡ Refused) }
    {
        let [first, rest @ ..] = self.rest else {
            return Err(Fault::Refused);
        };
        if !is_punctuator(&first.kind, punctuator) {
            return Err(Fault::Refused);
        }
        self.rest = rest;
        Ok(first.position)
    }

    /// Takes an identifier, which may be a typedef name.
    #[tactic(auto, unfolding(crate::specs::Reader::identifier_from))]
    pub fn identifier(&mut self) -> Result<Spelled<'a>, Fault>
        ensures read { Reads (λ x. x) (spec.identifier_from self.old.rest.now) result self.new.rest.now }
        ensures no_memory { IfErr result (λ f. f ≡ Refused) }
    {
        let [first, rest @ ..] = self.rest else {
            return Err(Fault::Refused);
        };
        let TokenKind::Identifier(spelling) = &first.kind else {
            return Err(Fault::Refused);
        };
        self.rest = rest;
        Ok(spelled(spelling, first.position))
    }

    /// Takes an identifier that is no typedef name.
    #[tactic(auto, unfolding(crate::specs::Reader::ordinary_from))]
    pub fn ordinary(&mut self, names: &TypedefNames) -> Result<Spelled<'a>, Fault>
        ensures read { Reads (λ x. x) (spec.ordinary_from names.now self.old.rest.now) result self.new.rest.now }
        ensures no_memory { IfErr result (λ f. f ≡ Refused) }
    {
        let [first, rest @ ..] = self.rest else {
            return Err(Fault::Refused);
        };
        let TokenKind::Identifier(spelling) = &first.kind else {
            return Err(Fault::Refused);
        };
        if names.has(spelling) {
            return Err(Fault::Refused);
        }
        self.rest = rest;
        Ok(spelled(spelling, first.position))
    }

    /// Takes the string literals that stand next.
    #[tactic(auto, unfolding(crate::specs::Reader::strings_from))]
    pub fn strings(&mut self, alloc: Global) -> Result<Items<Spelled<'a>>, Fault>
        ensures { Reads (λ z. z) (spec.strings_from self.old.rest.now) result self.new.rest.now }
    {
        let mut strings = Vec::new(alloc);
        while let [first, rest @ ..] = self.rest {
            let TokenKind::StringLiteral(spelling) = &first.kind else {
                break;
            };
            strings.push(spelled(spelling, first.position))?;
            self.rest = rest;
        }
        Ok(Items::from_vec(strings))
    }

    /// Takes this punctuator, or nothing and gives `None` where another word is next.
    pub fn take(&mut self, punctuator: Punctuator) -> Option<Position>
        ensures { Takes punctuator self.old.rest.now result self.new.rest.now }
    {
        let [first, rest @ ..] = self.rest else {
            return None;
        };
        if !is_punctuator(&first.kind, punctuator) {
            return None;
        }
        self.rest = rest;
        Some(first.position)
    }

    /// Takes the word `const`, or nothing and gives `None` where another word is next.
    #[tactic(auto, unfolding(crate::specs::Reader::consts_from))]
    fn take_const(&mut self) -> Option<Position>
        ensures { TakesConst self.old.rest.now result self.new.rest.now }
    {
        let [first, rest @ ..] = self.rest else {
            return None;
        };
        let TokenKind::Keyword(Keyword::Const) = &first.kind else {
            return None;
        };
        self.rest = rest;
        Some(first.position)
    }

    /// Takes the words `const` that stand next.
    pub fn consts(&mut self, alloc: Global) -> Result<Items<Position>, Fault>
        ensures { Reads (λ z. z) (spec.consts_from self.old.rest.now) result self.new.rest.now }
    {
        let mut consts = Vec::new(alloc);
        while let Some(position) = self.take_const() {
            consts.push(position)?;
        }
        Ok(Items::from_vec(consts))
    }
}
