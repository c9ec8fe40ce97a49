//! What stands for names where a construct is typed, and what a declarator adds (C99 6.2.1 to 6.2.4, 6.7, 6.9.2).

ghost use Rattle.std.specs.Prelude.{◌≡◌, ◌+◌, OnOk, IfOk, is_some, length, map, option_copied, Ok};
ghost use Rattle.c_faults.specs.Answer.{Gives};
ghost use Rattle.c_scope.specs.Composite.{composite};
ghost use Rattle.c_scope.specs.Declaring.{Surroundings, declaration_of, surroundings_of};
ghost use Rattle.c_scope.specs.Environment.{at_end, declared_in, designated, ends_complete};
ghost use Rattle.c_scope.specs.Environment.{entity_with, environment_of};
ghost use Rattle.c_scope.specs.Environment.{facts_of, linked, statics_with, surroundings, type_or, visible_type};
ghost use Rattle.c_scope.specs.Environment.{with_declarator, with_name, without_linkage};
ghost use Rattle.c_scope.specs.Names.{meaning, names_of};
ghost use Rattle.c_scope.specs.Structures.{structures_of};

use crate::composite::composite;
use crate::declaring::{Declared, Surroundings, is_function, is_linked};
use crate::meaning::{Designated, Entity, Meaning, Storage, Tag};
use crate::names::{Names, Scopes};
use crate::structures::Structures;
use c_faults::Refusal;
use c_tree::{CType, TypeWord};
use std::alloc::{AllocError, Global};

/// What the file says as a whole, before it is typed.
#[derive(Drop)]
pub struct Facts<'a> {
    /// The functions that it defines, numbered in their order.
    pub functions: Names<'a, usize>,
    /// The objects that it defines, also tentatively.
    pub objects: Names<'a, bool>,
    /// The tags whose structures and unions get their members at file scope.
    pub tags: Names<'a, bool>,
}

impl<'a> Facts<'a> {
    /// A copy.
    pub fn copy(&self, alloc: Global) -> Result<Self, AllocError>
        ensures { IfOk result (λ same. facts_of same ≡ facts_of self.now) }
    {
        let functions = self.functions.copy(alloc)?;
        let objects = self.objects.copy(alloc)?;
        let tags = self.tags.copy(alloc)?;
        Ok(Facts {
            functions,
            objects,
            tags,
        })
    }
}

/// What stands for names where a construct is typed.
#[derive(Drop)]
pub struct Environment<'a> {
    /// The ordinary identifiers (6.2.3).
    pub names: Scopes<'a, Meaning>,
    /// The tags, which are names apart (6.2.3).
    pub tags: Scopes<'a, Tag>,
    /// The structures and unions.
    pub structures: Structures<'a>,
    /// The enumerations by number: whether the list of its enumerators has begun.
    pub enumerations: Vec<bool>,
    /// The objects and functions that have linkage.
    pub entities: Names<'a, Entity>,
    /// How many static objects there are so far.
    pub statics: usize,
    /// How many variables the function has so far.
    pub variables: usize,
    /// What the whole file says.
    pub facts: Facts<'a>,
}

impl<'a> Environment<'a> {
    ghost use Rattle.std.specs.Prelude.{◌≡◌, OnOk, IfOk, option_copied};
    ghost use Rattle.c_scope.specs.Environment.{Leads, in_file, with_block, with_static, without_block};
    ghost use Rattle.c_scope.specs.Environment.{structure_ends_complete, with_variable};
    ghost use Rattle.c_scope.specs.Names as names;

    /// A copy.
    pub fn copy(&self, alloc: Global) -> Result<Self, AllocError>
        ensures { IfOk result (λ same. environment_of same ≡ environment_of self.now) }
    {
        let names = self.names.copy(alloc)?;
        let tags = self.tags.copy(alloc)?;
        let structures = self.structures.copy(alloc)?;
        let enumerations = self.enumerations.to_vec(alloc)?;
        let entities = self.entities.copy(alloc)?;
        let facts = self.facts.copy(alloc)?;
        Ok(Environment {
            names,
            tags,
            structures,
            enumerations,
            entities,
            statics: self.statics,
            variables: self.variables,
            facts,
        })
    }

    /// Whether no block is open.
    pub fn in_file(&self) -> bool
        ensures { result ≡ in_file (environment_of self.now) }
    {
        self.names.is_file_scope()
    }

    /// Opens the scope of a block, or of a function's parameters and its block (6.2.1 paragraph 4).
    pub fn open(&mut self, alloc: Global) -> Result<(), AllocError>
        ensures { OnOk result (environment_of self.new ≡ with_block (environment_of self.old)) }
    {
        self.names.open(alloc)?;
        self.tags.open(alloc)?;
        Ok(())
    }

    /// Closes the innermost scope.
    pub fn close(&mut self)
        ensures { environment_of self.new ≡ without_block (environment_of self.old) }
    {
        self.names.close();
        self.tags.close();
    }

    // Where a declarator stands.
    fn surroundings(&self, declared: &Declared) -> Surroundings<'_>
        ensures { surroundings_of result ≡ surroundings (environment_of self.now) (declaration_of declared.now) }
    {
        Surroundings {
            in_file: self.in_file(),
            structures: self.structures.extents(),
            here: self.names.here(declared.name),
            entity: self.entities.get(declared.name),
            is_object_of_file: self.facts.objects.get(declared.name).is_some(),
            is_completed: self.ends_complete(at_end(declared.storage, declared.c_type)),
        }
    }

    /// Declares a name, or tells the first rule that its declarator violates.
    pub fn declare(&mut self, alloc: Global, declared: &Declared<'a, '_>) -> Result<(), Refusal>
        ensures { Leads (environment_of self.new) result
            (declared_in (environment_of self.old) (declaration_of declared.now)) }
    {
        if let Err(fault) = self.surroundings(declared).judge(declared) {
            return Err(Refusal::Fault(fault));
        }
        self.add(alloc, declared)?;
        Ok(())
    }

    // What a declarator adds that violates no rule.
    fn add(&mut self, alloc: Global, declared: &Declared<'a, '_>) -> Result<(), AllocError>
        ensures { OnOk result (environment_of self.new
            ≡ with_declarator (environment_of self.old) (declaration_of declared.now)) }
    {
        if declared.has_linkage(self.in_file()) {
            self.link(alloc, declared)
        } else {
            self.add_without_linkage(alloc, declared)
        }
    }

    fn add_without_linkage(
        &mut self,
        alloc: Global,
        declared: &Declared<'a, '_>,
    ) -> Result<(), AllocError>
        ensures { OnOk result (environment_of self.new
            ≡ without_linkage declared.now.storage (environment_of self.old) (declaration_of declared.now)) }
    {
        let c_type = CType::new(declared.c_type.to_vec(alloc)?);
        match declared.storage {
            Storage::Typedef => self.names.bind(declared.name, Meaning::Typedef(c_type)),
            Storage::Static => self.add_static(declared.name, c_type),
            _ => self.add_variable(declared.name, c_type),
        }
    }

    fn add_static(&mut self, name: &'a [u8], c_type: CType) -> Result<(), AllocError>
        ensures { OnOk result (environment_of self.new ≡ with_static name.now c_type (environment_of self.old)) }
    {
        let what = Designated::Static(self.statics);
        self.statics = next(self.statics)?;
        self.names.bind(name, Meaning::Named(what, c_type))
    }

    fn add_variable(&mut self, name: &'a [u8], c_type: CType) -> Result<(), AllocError>
        ensures { OnOk result (environment_of self.new ≡ with_variable name.now c_type (environment_of self.old)) }
    {
        let what = Designated::Variable(self.variables);
        self.variables = next(self.variables)?;
        self.names.bind(name, Meaning::Named(what, c_type))
    }

    fn link(&mut self, alloc: Global, declared: &Declared<'a, '_>) -> Result<(), AllocError>
        ensures { OnOk result (environment_of self.new
            ≡ linked (environment_of self.old) (declaration_of declared.now)) }
    {
        let c_type = self.visible_type(alloc, declared)?;
        let entity = self.entity_with(alloc, declared)?;
        let meaning = Meaning::Named(entity.what, c_type);
        self.statics = self.statics_with(declared)?;
        self.entities.bind(declared.name, entity)?;
        self.names.bind(declared.name, meaning)
    }

    fn statics_with(&self, declared: &Declared) -> Result<usize, AllocError>
        ensures { IfOk result (λ count. count ≡ statics_with (environment_of self.now) (declaration_of declared.now)
            (names.declared (declaration_of declared.now).name (environment_of self.now).entities)) }
    {
        match self.entities.get(declared.name) {
            None if !is_function(declared.c_type) => next(self.statics),
            _ => Ok(self.statics),
        }
    }

    // The type of a name with linkage is the composite with that of the declaration which is visible there, where that
    // has linkage too.
    fn visible_type(&self, alloc: Global, declared: &Declared) -> Result<CType, AllocError>
        ensures { IfOk result (λ c_type. c_type ≡ visible_type (declaration_of declared.now).type
            (meaning (declaration_of declared.now).name (environment_of self.now).names)) }
    {
        match self.names.get(declared.name) {
            Some(Meaning::Named(what, visible)) if is_linked(*what) => {
                composite_or(alloc, visible.words(), declared.c_type, declared.c_type)
            }
            _ => copied(alloc, declared.c_type),
        }
    }

    // What its declarations with linkage say, with this one.
    fn entity_with(&self, alloc: Global, declared: &Declared) -> Result<Entity, AllocError>
        ensures { IfOk result (λ entity. entity ≡ entity_with (environment_of self.now) (declaration_of declared.now)
            (names.declared (declaration_of declared.now).name (environment_of self.now).entities)) }
    {
        let is_tentative = declared.is_tentative(self.in_file());
        match self.entities.get(declared.name) {
            None => Ok(Entity {
                what: self.designated(declared),
                c_type: copied(alloc, declared.c_type)?,
                is_defined: declared.is_definition(),
                is_tentative,
            }),
            Some(entity) => {
                let words = entity.c_type.words();
                Ok(Entity {
                    what: entity.what,
                    c_type: composite_or(alloc, words, declared.c_type, words)?,
                    is_defined: entity.is_defined || declared.is_definition(),
                    is_tentative: entity.is_tentative || is_tentative,
                })
            }
        }
    }

    // What its first declaration makes an object or a function.
    fn designated(&self, declared: &Declared) -> Designated
        ensures { result ≡ designated (environment_of self.now) (declaration_of declared.now) }
    {
        if !is_function(declared.c_type) {
            return Designated::Object(self.statics);
        }
        match self.facts.functions.get(declared.name) {
            Some(number) => Designated::Function(*number),
            None => Designated::Function(self.facts.functions.len()),
        }
    }

    // Whether a type is complete at the end of the file.
    fn ends_complete(&self, words: &[TypeWord]) -> bool
        ensures { result
            ≡ ends_complete (environment_of self.now).facts (environment_of self.now).structures words.now }
    {
        match words {
            [
                TypeWord::Integer(_) | TypeWord::Enumeration(_) | TypeWord::Pointer,
                ..
            ] => true,
            [TypeWord::Structure(number), ..] => self.structure_ends_complete(*number),
            [TypeWord::Const | TypeWord::Array { .. }, behind @ ..] => self.ends_complete(behind),
            _ => false,
        }
    }

    fn structure_ends_complete(&self, number: usize) -> bool
        ensures { result
            ≡ structure_ends_complete (environment_of self.now).facts (environment_of self.now).structures number }
    {
        if self.structures.is_complete(number) {
            return true;
        }
        match self.structures.file_tag(number) {
            Some(tag) => self.facts.tags.get(tag).is_some(),
            None => false,
        }
    }
}

// The number behind a number of things.
fn next(count: usize) -> Result<usize, AllocError>
    ensures { IfOk result (λ more. more ≡ count + 1) }
{
    match count.checked_add(1) {
        Some(more) => Ok(more),
        None => Err(AllocError),
    }
}

fn copied(alloc: Global, words: &[TypeWord]) -> Result<CType, AllocError>
    ensures { IfOk result (λ c_type. c_type ≡ words.now) }
{
    let words = words.to_vec(alloc)?;
    Ok(CType::new(words))
}

// The composite of two types, or a third where they are not compatible.
fn composite_or(
    alloc: Global,
    left: &[TypeWord],
    right: &[TypeWord],
    other: &[TypeWord],
) -> Result<CType, AllocError>
    ensures { IfOk result (λ c_type. c_type ≡ type_or (composite left.now right.now) other.now) }
{
    match composite(alloc, left, right)? {
        Some(c_type) => Ok(c_type),
        None => copied(alloc, other),
    }
}

// A tentative array of unknown size gets one element at the end of the file, but not a static one.
fn at_end(storage: Storage, words: &[TypeWord]) -> &[TypeWord]
    ensures { result.now ≡ at_end storage words.now }
{
    match (storage, words) {
        (Storage::Static, _) => words,
        (_, [TypeWord::OpenArray, element @ ..]) => element,
        _ => words,
    }
}
