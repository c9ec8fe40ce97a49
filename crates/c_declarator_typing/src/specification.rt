//! What the specifiers of a declaration say (C99 6.7.1 to 6.7.4, 6.7.7).

ghost use Rattle.std.specs.Prelude.{◌≡◌, IfOk};
ghost use Rattle.c_faults.specs.Answer.{Gives};
ghost use Rattle.c_declarator_typing.specs.Specifications.{gathered_of, nothing_gathered, specification_of, specified};
ghost use Rattle.c_declarator_typing.specs.Specifications.{tag_kind, tag_type, with_keyword, with_named, typedef_type};
ghost use Rattle.c_typing_state.specs.State.{state_of};

use c_faults::{Fault, Refusal, Rule};
use c_lexer::Keyword;
use c_place_rules::target::qualified;
use c_scope::meaning::{Meaning, Storage, Tag};
use c_scope::tags::TagKind;
use c_specifiers::Specified;
use c_tree::{CType, TypeWord};
use c_typing_state::Typer;
use sb_base::Line;
use std::alloc::{AllocError, Global};

/// What the specifiers so far say.
#[derive(Drop)]
pub struct Gathered {
    /// The keywords.
    pub keywords: Specified,
    /// The type that a structure, union, enumeration or typedef name among them is.
    pub c_type: Option<CType>,
}

/// What specifiers say.
#[derive(Drop)]
pub struct Specification {
    /// The line of the first of them.
    pub line: Line,
    /// The storage-class specifier.
    pub storage: Storage,
    /// Whether there is a second one.
    pub has_two_storages: bool,
    /// The type.
    pub c_type: CType,
}

impl Gathered {
    ghost use Rattle.std.specs.Prelude.{◌≡◌, IfOk};
    ghost use Rattle.c_declarator_typing.specs.Specifications.{gathered_of, nothing_gathered, specification_of};
    ghost use Rattle.c_declarator_typing.specs.Specifications.{specified};
    ghost use Rattle.c_declarator_typing.specs.Specifications.{with_keyword, with_named};

    /// No specifiers.
    pub fn nothing() -> Self
        ensures { gathered_of result ≡ nothing_gathered }
    {
        Gathered {
            keywords: Specified::nothing(),
            c_type: None,
        }
    }

    /// These and a keyword.
    pub fn with_keyword(self, keyword: Keyword) -> Self
        ensures { gathered_of result ≡ with_keyword keyword (gathered_of self) }
    {
        let Gathered { keywords, c_type } = self;
        Gathered {
            keywords: keywords.with(keyword),
            c_type,
        }
    }

    /// These and what names a type.
    pub fn with_named(self, c_type: CType) -> Self
        ensures { gathered_of result ≡ with_named c_type (gathered_of self) }
    {
        Gathered {
            keywords: self.keywords,
            c_type: Some(c_type),
        }
    }

    /// What all of them say, of which the first stands on a line.
    pub fn specified(self, alloc: Global, line: Line) -> Result<Specification, AllocError>
        ensures { IfOk result (λ spec. specification_of spec ≡ specified line (gathered_of self)) }
    {
        let Gathered { keywords, c_type } = self;
        let words = match c_type {
            Some(c_type) => c_type,
            None => CType::new(vec![in alloc; keywords.basic_type()]?),
        };
        let c_type = qualified(alloc, keywords.is_const, words.words())?;
        Ok(Specification {
            line,
            storage: keywords.storage,
            has_two_storages: keywords.has_two_storages,
            c_type,
        })
    }
}

/// Whether `struct` or `union` is the keyword.
pub fn tag_kind(keyword: Keyword) -> TagKind
    ensures { result ≡ tag_kind keyword }
{
    match keyword {
        Keyword::Union => TagKind::Union,
        _ => TagKind::Structure,
    }
}

/// The type that a tag stands for.
pub fn tag_type(alloc: Global, tag: Tag) -> Result<CType, AllocError>
    ensures { IfOk result (λ c_type. c_type ≡ tag_type tag) }
{
    let word = match tag {
        Tag::Structure(number) | Tag::Union(number) => TypeWord::Structure(number),
        Tag::Enumeration(number) => TypeWord::Enumeration(number),
    };
    Ok(CType::new(vec![in alloc; word]?))
}

/// The type that a typedef name stands for. The rule on undeclared names is violated by a name that is none.
pub fn typedef_type(typer: &Typer, name: &[u8], line: Line) -> Result<CType, Refusal>
    ensures { Gives (λ c_type. c_type) result (typedef_type name.now line (state_of typer.now)) }
{
    match typer.environment.names.get(name) {
        Some(Meaning::Typedef(c_type)) => {
            let words = c_type.words().to_vec(typer.alloc)?;
            Ok(CType::new(words))
        }
        _ => {
            let rule = Rule::Undeclared;
            Err(Refusal::Fault(Fault { rule, line }))
        }
    }
}
