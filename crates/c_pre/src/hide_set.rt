//! Hide sets (C99 6.10.3.4): the names by which a token is not replaced.

ghost use Rattle.std.specs.Prelude.{◌≡◌, ◌≤◌, ◌∷◌, length, IfOk, OnOk, IsTrue};
ghost use Rattle.c_pre.specs.Names as names;
ghost use Rattle.c_pre.specs.HideSets as spec;
ghost use Rattle.c_pre.specs.SharedSets.{earlier, FirstIs, Grows, IsKnown, names_of};

use crate::name::MacroName;
use std::alloc::{AllocError, Global};

/// A hide set, by its number among the sets that share their names. The empty set is number 0.
#[derive(Clone, Copy, Debug, PartialEq, Eq)]
pub struct HideSet {
    /// The number.
    pub number: usize,
}

/// A set that is not empty: a name, and the set of the others, which was made before it.
#[derive(Drop)]
pub struct HideNode<'a> {
    /// The name.
    pub name: MacroName<'a>,
    /// The others.
    pub others: HideSet,
}

/// All hide sets of an expansion. A set holds one name and points to the set of its others, so sets share names.
#[derive(Drop)]
pub struct HideSets<'a> {
    /// The sets that are not empty, in the order in which they were made: number n stands at n - 1.
    pub nodes: Vec<HideNode<'a>>,
}

/// The empty set.
pub const EMPTY: HideSet = HideSet { number: 0 };

impl<'a> HideNode<'a> {
    /// The set of the others, which was made before set n.
    fn earlier(&self, n: usize) -> HideSet
        ensures { result.number ≡ earlier n self.now.others.number }
    {
        if self.others.number < n {
            self.others
        } else {
            EMPTY
        }
    }
}

impl<'a> HideSets<'a> {
    /// No set but the empty one.
    pub fn new(alloc: Global) -> Self
        ensures { length result.nodes.items ≡ 0 }
    {
        HideSets {
            nodes: Vec::new(alloc),
        }
    }

    /// A name of a set and the set of its others, or None of the empty set.
    #[tactic(auto, using(crate::proofs::Sets::names_none))]
    fn first(&self, set: HideSet) -> Option<(MacroName<'a>, HideSet)>
        requires { IsKnown self.now set }
        ensures { FirstIs self.now set result }
    {
        if set.number == 0 {
            return None;
        }
        let node = &self.nodes[set.number - 1];
        let others = node.earlier(set.number);
        Some((node.name.again(), others))
    }

    /// Whether a name is in a set.
    pub fn contains(&self, set: HideSet, name: &MacroName<'a>) -> bool
        requires { IsKnown self.now set }
        ensures { result ≡ names.member name.now (names_of self.now set) }
    {
        let mut rest = set;
        while let Some((first, others)) = self.first(rest) {
            if first == *name {
                return true;
            }
            rest = others;
        }
        false
    }

    /// The set with one name more, which it does not have.
    pub fn with(&mut self, name: MacroName<'a>, set: HideSet) -> Result<HideSet, AllocError>
        requires { IsKnown self.old set }
        ensures names { IfOk result (λ made. names_of self.new made ≡ name.entry ∷ names_of self.old set) }
        ensures known { IfOk result (λ made. IsKnown self.new made) }
        ensures grows { OnOk result (Grows self.old self.new) }
    {
        self.nodes.push(HideNode { name, others: set })?;
        Ok(HideSet {
            number: self.nodes.len(),
        })
    }

    /// The names of the first set that the second has too, in order.
    fn common_names(
        &self,
        alloc: Global,
        set: HideSet,
        other: HideSet,
    ) -> Result<Vec<MacroName<'a>>, AllocError>
        requires set { IsKnown self.now set }
        requires other { IsKnown self.now other }
        ensures { IfOk result (λ v. v.items ≡ spec.common (names_of self.now set) (names_of self.now other)) }
    {
        let mut kept = Vec::new(alloc);
        let mut rest = set;
        while let Some((name, others)) = self.first(rest) {
            if self.contains(other, &name) {
                kept.push(name)?;
            }
            rest = others;
        }
        Ok(kept)
    }

    /// The set of these names.
    fn set_of(&mut self, names: Vec<MacroName<'a>>) -> Result<HideSet, AllocError>
        ensures names { IfOk result (λ made. names_of self.new made ≡ names.entry.items) }
        ensures known { IfOk result (λ made. IsKnown self.new made) }
        ensures grows { OnOk result (Grows self.old self.new) }
    {
        let mut names = names;
        let mut set = EMPTY;
        while let Some(name) = names.pop() {
            set = self.with(name, set)?;
        }
        Ok(set)
    }

    /// The set of the names that both sets have.
    pub fn common(
        &mut self,
        alloc: Global,
        set: HideSet,
        other: HideSet,
    ) -> Result<HideSet, AllocError>
        requires set { IsKnown self.old set }
        requires other { IsKnown self.old other }
        ensures names { IfOk result (λ made. names_of self.new made
            ≡ spec.common (names_of self.old set) (names_of self.old other)) }
        ensures known { IfOk result (λ made. IsKnown self.new made) }
        ensures grows { OnOk result (Grows self.old self.new) }
    {
        if set.number == other.number {
            return Ok(set);
        }
        let names = self.common_names(alloc, set, other)?;
        self.set_of(names)
    }

    /// Whether `set` is `other` or one of the sets that it points to, all of whose names it has.
    fn is_within(&self, set: HideSet, other: HideSet) -> bool
        requires set { IsKnown self.now set }
        requires other { IsKnown self.now other }
        ensures { IsTrue result → spec.joined (names_of self.now set) (names_of self.now other)
            ≡ names_of self.now other }
    {
        let mut rest = other;
        while rest.number > set.number {
            let Some((_, others)) = self.first(rest) else {
                return false;
            };
            rest = others;
        }
        rest.number == set.number
    }

    /// The set of the names of both sets.
    pub fn joined(&mut self, set: HideSet, other: HideSet) -> Result<HideSet, AllocError>
        requires set { IsKnown self.old set }
        requires other { IsKnown self.old other }
        ensures names { IfOk result (λ made. names_of self.new made
            ≡ spec.joined (names_of self.old set) (names_of self.old other)) }
        ensures known { IfOk result (λ made. IsKnown self.new made) }
        ensures grows { OnOk result (Grows self.old self.new) }
    {
        if self.is_within(set, other) {
            return Ok(other);
        }
        let mut rest = set;
        let mut made = other;
        while let Some((name, others)) = self.first(rest) {
            if !self.contains(made, &name) {
                made = self.with(name, made)?;
            }
            rest = others;
        }
        Ok(made)
    }
}
