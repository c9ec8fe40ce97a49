//! Tags of structures, unions and enumerations (C99 6.7.2.3).

ghost use Rattle.std.specs.Prelude.{◌≡◌, Err, IfOk, OnOk, option_copied};
ghost use Rattle.c_faults.specs.declared.fault.Refusal.TheVariants.{Fault as OfFault};
ghost use Rattle.c_faults.specs.declared.fault.Rule.TheVariants.{MistakenTag};
ghost use Rattle.c_scope.specs.Environment.{environment_of};
ghost use Rattle.c_scope.specs.Tags.{is_enumeration, is_of};

use crate::environment::Environment;
use crate::meaning::Tag;
use c_faults::{Fault, Refusal, Rule};
use sb_base::Line;
use std::alloc::{AllocError, Global};

/// What a tag is for.
#[derive(Clone, Copy)]
pub enum TagKind {
    /// `struct`
    Structure,
    /// `union`
    Union,
    /// `enum`
    Enumeration,
}

impl<'a> Environment<'a> {
    ghost use Rattle.std.specs.Prelude.{◌≡◌, OnOk, IfOk, option_copied};
    ghost use Rattle.c_scope.specs.Tags.{LeadsTo, added, begins, has_begun, marked, next_tag, tag_found, tagged};
    ghost use Rattle.c_scope.specs.Tags.{with_declaration};
    ghost use Rattle.c_scope.specs.declared.meaning.Tag.TheVariants as tag;

    /// What a tag stands for that has no list of members or enumerators behind it: in a declaration that declares
    /// nothing else a structure or union of this scope, else the innermost that is declared. Where there is none, it is
    /// declared here. The rule on tags is violated by one of another kind.
    pub fn tagged(
        &mut self,
        alloc: Global,
        is_alone: bool,
        kind: TagKind,
        name: &'a [u8],
        line: Line,
    ) -> Result<Tag, Refusal>
        ensures { LeadsTo (environment_of self.new) result
            (tagged is_alone kind name.now line (environment_of self.old)) }
    {
        match self.tag_found(is_alone, kind, name) {
            None => {
                let tag = self.add_tag(alloc, kind, Some(name))?;
                Ok(tag)
            }
            Some(tag) if is_of(kind, tag) => Ok(tag),
            Some(_) => mistaken(line),
        }
    }

    fn tag_found(&self, is_alone: bool, kind: TagKind, name: &[u8]) -> Option<Tag>
        ensures { result ≡ tag_found is_alone kind name.now (environment_of self.now) }
    {
        let found = if is_alone && !is_enumeration(kind) {
            self.tags.here(name)
        } else {
            self.tags.get(name)
        };
        found.copied()
    }

    /// Begins the list of members or enumerators of a structure, union or enumeration, with a tag or without. The rule
    /// on tags is violated where the scope has the tag for another kind, or has such a list for it already.
    pub fn begin(
        &mut self,
        alloc: Global,
        kind: TagKind,
        name: Option<&'a [u8]>,
        line: Line,
    ) -> Result<Tag, Refusal>
        ensures { LeadsTo (environment_of self.new) result
            (begins kind (option_copied name.entry) line (environment_of self.old)) }
    {
        let found = match name {
            None => None,
            Some(name) => self.tags.here(name).copied(),
        };
        let tag = match found {
            None => self.add_tag(alloc, kind, name)?,
            Some(tag) if is_of(kind, tag) && !self.has_begun(tag) => tag,
            Some(_) => return mistaken(line),
        };
        self.mark(tag);
        Ok(tag)
    }

    // Declares a structure, union or enumeration of which nothing else is known yet.
    fn add_tag(
        &mut self,
        alloc: Global,
        kind: TagKind,
        name: Option<&'a [u8]>,
    ) -> Result<Tag, AllocError>
        ensures tag { IfOk result (λ tag. tag ≡ next_tag kind (environment_of self.old)) }
        ensures added { OnOk result
            (environment_of self.new ≡ added kind (option_copied name.entry) (environment_of self.old)) }
    {
        let tag = self.add_declaration(alloc, kind, name)?;
        if let Some(name) = name {
            self.tags.bind(name, tag)?;
        }
        Ok(tag)
    }

    fn add_declaration(
        &mut self,
        alloc: Global,
        kind: TagKind,
        name: Option<&'a [u8]>,
    ) -> Result<Tag, AllocError>
        ensures tag { IfOk result (λ tag. tag ≡ next_tag kind (environment_of self.old)) }
        ensures added { OnOk result
            (environment_of self.new ≡ with_declaration kind (option_copied name.entry) (environment_of self.old)) }
    {
        let file_tag = if self.in_file() { name } else { None };
        match kind {
            TagKind::Structure => {
                let number = self.structures.declare(alloc, file_tag)?;
                Ok(Tag::Structure(number))
            }
            TagKind::Union => {
                let number = self.structures.declare(alloc, file_tag)?;
                Ok(Tag::Union(number))
            }
            TagKind::Enumeration => {
                let number = self.enumerations.len();
                self.enumerations.push(false)?;
                Ok(Tag::Enumeration(number))
            }
        }
    }

    fn has_begun(&self, tag: Tag) -> bool
        ensures { result ≡ has_begun (environment_of self.now) tag }
    {
        match tag {
            Tag::Structure(number) | Tag::Union(number) => self.structures.is_begun(number),
            Tag::Enumeration(number) => match self.enumerations.get(number) {
                Some(has_begun) => *has_begun,
                None => false,
            },
        }
    }

    fn mark(&mut self, tag: Tag)
        ensures { environment_of self.new ≡ marked tag (environment_of self.old) }
    {
        match tag {
            Tag::Structure(number) | Tag::Union(number) => self.structures.begin(number),
            Tag::Enumeration(number) => self.mark_enumeration(number),
        }
    }

    fn mark_enumeration(&mut self, number: usize)
        ensures { environment_of self.new ≡ marked (tag.Enumeration number) (environment_of self.old) }
    {
        if number < self.enumerations.len() {
            self.enumerations[number] = true;
        }
    }
}

fn mistaken(line: Line) -> Result<Tag, Refusal>
    ensures { result ≡ Err (OfFault (record { rule = MistakenTag; line = line })) }
{
    let rule = Rule::MistakenTag;
    Err(Refusal::Fault(Fault { rule, line }))
}

fn is_of(kind: TagKind, tag: Tag) -> bool
    ensures { result ≡ is_of kind tag }
{
    matches!(
        (kind, tag),
        (TagKind::Structure, Tag::Structure(_))
            | (TagKind::Union, Tag::Union(_))
            | (TagKind::Enumeration, Tag::Enumeration(_))
    )
}

fn is_enumeration(kind: TagKind) -> bool
    ensures { result ≡ is_enumeration kind }
{
    matches!(kind, TagKind::Enumeration)
}
