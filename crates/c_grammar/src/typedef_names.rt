//! Typedef names (C99 6.7.7).

ghost use Rattle.std.specs.Prelude.{◌≡◌, [], ◌∷◌, ◌++◌, OnErr, OnOk};
ghost use Rattle.c_syntax.specs.Formed.{is_among};

use c_lexer::Spelling;
use indexmap::IndexSet;
use std::alloc::{AllocError, Global};
use std::marker::Model;

/// Typedef names. Contracts see the list of them in the order of their declarations, a name as often as it is declared.
#[derive(Drop)]
pub struct TypedefNames<'a> {
    in_order: Vec<Spelling<'a>>,
    // Each of them once, to find whether a name is among them.
    set: IndexSet<&'a [u8]>,
}

impl<'a> Model for TypedefNames<'a> {
    ghost use Rattle.std.specs.Prelude.{ℕ, List};

    ghost Value = { List (List ℕ) };

    ghost use Rattle.c_grammar.specs.NameSets.{HasNames};

    ghost view = { λ s. s.in_order.items };

    ghost invariant = { λ s. HasNames s.in_order.items s.set.keys };
}

impl<'a> TypedefNames<'a> {
    /// No names.
    pub fn new(alloc: Global) -> Self
        ensures { result ≡ [] }
    {
        TypedefNames {
            in_order: Vec::new(alloc),
            set: IndexSet::new(alloc),
        }
    }

    /// Whether a spelling is among them.
    pub fn has(&self, name: &Spelling) -> bool
        ensures { result ≡ is_among name.now self.now }
    {
        self.set.contains(name.bytes())
    }

    /// Puts a name behind the others. They stay where there is no memory.
    pub fn push(&mut self, name: Spelling<'a>) -> Result<(), AllocError>
        ensures ok { OnOk result (self.new ≡ self.old ++ name.entry ∷ []) }
        ensures err { OnErr result (self.new ≡ self.old) }
    {
        self.in_order.reserve(1)?;
        self.set.insert(name.bytes())?;
        self.in_order.push(name)?;
        Ok(())
    }
}
