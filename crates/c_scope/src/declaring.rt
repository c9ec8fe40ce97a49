//! What a declarator declares, and the rules that it may violate (C99 6.2.2, 6.2.7, 6.7, 6.9.2).

ghost use Rattle.std.specs.Prelude.{◌≡◌, option_copied, Result, Ok, Err};
ghost use Rattle.c_scope.specs.Composite.{composite};
ghost use Rattle.c_scope.specs.Declaring.{Declaration, Surroundings, agrees, is_linked, are_compatible, clashes};
ghost use Rattle.c_scope.specs.Declaring.{declaration_of, differs, has_linkage, is_complete};
ghost use Rattle.c_scope.specs.Declaring.{is_extern, is_function, is_incomplete, is_misplaced, is_redeclared};
ghost use Rattle.c_scope.specs.Declaring.{is_tentative, is_typedef, is_undefined, is_wrongly_initialized, judged};
ghost use Rattle.c_scope.specs.Declaring.{sized_by_initializer, surroundings_of};

use crate::composite::are_compatible;
use crate::meaning::{Designated, Entity, Meaning, Storage};
use c_faults::{Fault, Rule};
use c_tree::{Extent, TypeWord};
use sb_base::Line;

/// A declarator with the type that it gives its name.
#[derive(Clone, Copy)]
pub struct Declared<'a, 't> {
    /// The name.
    pub name: &'a [u8],
    /// The line of the first token of the specifiers.
    pub specifiers_line: Line,
    /// The line of the name.
    pub line: Line,
    /// The line of the first token of the initializer; that of the name where there is none.
    pub initializer_line: Line,
    /// The storage-class specifier.
    pub storage: Storage,
    /// The type.
    pub c_type: &'t [TypeWord],
    /// The first of the rules on incomplete elements, misplaced functions, constants and large types that the type
    /// violates by itself.
    pub type_rule: Option<Rule>,
    /// Whether the type may be incomplete, as that of a parameter where the function is not defined (6.7.5.3 paragraph
    /// 12).
    pub may_be_incomplete: bool,
    /// Whether it has an initializer.
    pub has_initializer: bool,
    /// Whether it has the body of a function.
    pub has_body: bool,
}

/// Where a declarator stands.
#[derive(Clone, Copy)]
pub struct Surroundings<'s> {
    /// Whether no block is open.
    pub in_file: bool,
    /// The sizes and alignments of the structures and unions so far.
    pub structures: &'s [Option<Extent>],
    /// What the name stands for in the innermost scope.
    pub here: Option<&'s Meaning>,
    /// What the declarations of the name with linkage say so far.
    pub entity: Option<&'s Entity>,
    /// Whether the file defines an object of this name.
    pub is_object_of_file: bool,
    /// Whether the type is complete at the end of the file.
    pub is_completed: bool,
}

impl Declared<'_, '_> {
    ghost use Rattle.std.specs.Prelude.{◌≡◌};
    ghost use Rattle.c_scope.specs.Declaring.{declaration_of, has_linkage, is_definition, is_tentative};

    /// Whether it is a definition: it has an initializer or a body (6.9 paragraph 5).
    pub fn is_definition(&self) -> bool
        ensures { result ≡ is_definition (declaration_of self.now) }
    {
        self.has_initializer || self.has_body
    }

    /// Whether what it declares has linkage (6.2.2).
    pub fn has_linkage(&self, in_file: bool) -> bool
        ensures { result ≡ has_linkage in_file (declaration_of self.now) }
    {
        !is_typedef(self.storage)
            && (in_file || is_function(self.c_type) || is_extern(self.storage))
    }

    /// Whether it is a tentative definition (6.9.2 paragraph 2).
    pub fn is_tentative(&self, in_file: bool) -> bool
        ensures { result ≡ is_tentative in_file (declaration_of self.now) }
    {
        in_file
            && !is_typedef(self.storage)
            && !is_function(self.c_type)
            && !self.has_initializer
            && !is_extern(self.storage)
    }

    fn is_wrongly_initialized(&self) -> bool
        ensures { result ≡ is_wrongly_initialized (declaration_of self.now) }
    {
        self.has_initializer
            && (is_typedef(self.storage) || is_extern(self.storage) || is_function(self.c_type))
    }

    // Whether a meaning that the scope has for the name may stand beside it.
    fn agrees(&self, meaning: &Meaning) -> bool
        ensures { result ≡ agrees (declaration_of self.now) meaning.now }
    {
        match meaning {
            Meaning::Typedef(c_type) => {
                is_typedef(self.storage) && are_compatible(c_type.words(), self.c_type)
            }
            Meaning::Constant(_) => false,
            Meaning::Named(what, c_type) => {
                !is_typedef(self.storage)
                    && is_linked(*what)
                    && are_compatible(c_type.words(), self.c_type)
            }
        }
    }

    // In one scope a name repeats only at file scope, or where it has linkage.
    fn clashes(&self, in_file: bool, here: Option<&Meaning>) -> bool
        ensures { result ≡ clashes in_file (declaration_of self.now) (option_copied here.entry) }
    {
        match here {
            None => false,
            Some(meaning) => !(in_file || self.has_linkage(in_file)) || !self.agrees(meaning),
        }
    }

    // All declarations with linkage have compatible types, and one is a definition.
    fn differs(&self, entity: Option<&Entity>) -> bool
        ensures { result ≡ differs (declaration_of self.now) (option_copied entity.entry) }
    {
        match entity {
            None => false,
            Some(entity) => {
                !are_compatible(entity.c_type.words(), self.c_type)
                    || (entity.is_defined && self.is_definition())
            }
        }
    }

    fn is_complete(&self, structures: &[Option<Extent>]) -> bool
        ensures { result ≡ is_complete structures.now (declaration_of self.now) }
    {
        let words = if self.has_initializer {
            sized_by_initializer(self.c_type)
        } else {
            self.c_type
        };
        Extent::of_type(structures, words).is_some()
    }
}

impl Surroundings<'_> {
    ghost use Rattle.std.specs.Prelude.{◌≡◌};
    ghost use Rattle.c_faults.specs.Answer.{Answer};

    fn is_redeclared(&self, declared: &Declared) -> bool
        ensures { result ≡ is_redeclared (surroundings_of self.now) (declaration_of declared.now) }
    {
        declared.clashes(self.in_file, self.here)
            || (declared.has_linkage(self.in_file) && declared.differs(self.entity))
    }

    fn is_incomplete(&self, declared: &Declared) -> bool
        ensures { result ≡ is_incomplete (surroundings_of self.now) (declaration_of declared.now) }
    {
        if is_typedef(declared.storage)
            || is_function(declared.c_type)
            || is_extern(declared.storage)
            || declared.may_be_incomplete
        {
            false
        } else if declared.is_tentative(self.in_file) {
            !self.is_completed
        } else {
            !declared.is_complete(self.structures)
        }
    }

    fn is_undefined(&self, declared: &Declared) -> bool
        ensures { result ≡ is_undefined (surroundings_of self.now) (declaration_of declared.now) }
    {
        is_extern(declared.storage) && !is_function(declared.c_type) && !self.is_object_of_file
    }

    /// The first rule that a declarator violates here, in the order of the tokens: at its specifiers a storage-class
    /// specifier out of place, at its name a name that is declared again, an incomplete type, what its type violates by
    /// itself, or `extern` of what the file does not define, and at its initializer one of what has none.
    #[tactic(auto, unfolding(crate::specs::Declaring::judged))]
    pub fn judge(&self, declared: &Declared) -> Result<(), Fault>
        ensures { result ≡ judged (surroundings_of self.now) (declaration_of declared.now) }
    {
        let storage = Rule::MisplacedStorage;
        if is_misplaced(self.in_file, is_function(declared.c_type), declared.storage) {
            return violation(storage, declared.specifiers_line);
        }
        if self.is_redeclared(declared) {
            return violation(Rule::Redeclared, declared.line);
        }
        if self.is_incomplete(declared) {
            return violation(Rule::Incomplete, declared.line);
        }
        if let Some(rule) = declared.type_rule {
            return violation(rule, declared.line);
        }
        if self.is_undefined(declared) {
            return violation(storage, declared.line);
        }
        if declared.is_wrongly_initialized() {
            return violation(storage, declared.initializer_line);
        }
        Ok(())
    }
}

fn violation(rule: Rule, line: Line) -> Result<(), Fault>
    ensures { result ≡ Err (record { rule = rule; line = line }) }
{
    Err(Fault { rule, line })
}

fn is_typedef(storage: Storage) -> bool
    ensures { result ≡ is_typedef storage }
{
    matches!(storage, Storage::Typedef)
}

fn is_extern(storage: Storage) -> bool
    ensures { result ≡ is_extern storage }
{
    matches!(storage, Storage::Extern)
}

/// Whether a storage-class specifier is out of place (6.7.1, 6.9 paragraph 2).
pub fn is_misplaced(in_file: bool, of_function: bool, storage: Storage) -> bool
    ensures { result ≡ is_misplaced in_file of_function storage }
{
    match storage {
        Storage::Auto | Storage::Register => in_file || of_function,
        Storage::Static => !in_file && of_function,
        _ => false,
    }
}

/// Whether a type is that of functions (6.7.5.3).
pub fn is_function(words: &[TypeWord]) -> bool
    ensures { result ≡ is_function words.now }
{
    matches!(words, [TypeWord::Takes | TypeWord::Gives, ..])
}

/// Whether it has linkage (6.2.2).
pub fn is_linked(what: Designated) -> bool
    ensures { result ≡ is_linked what }
{
    !matches!(what, Designated::Static(_) | Designated::Variable(_))
}

fn sized_by_initializer(words: &[TypeWord]) -> &[TypeWord]
    ensures { result.now ≡ sized_by_initializer words.now }
{
    match words {
        [TypeWord::OpenArray, element @ ..] => element,
        _ => words,
    }
}
