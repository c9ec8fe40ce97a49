//! The words of one type (C99 6.7.2).

ghost use Rattle.std.specs.Prelude.{◌≡◌};
ghost use Rattle.c_syntax.specs.Formed as formed;
ghost use Rattle.c_syntax.specs.View as view;

use crate::tree::Specifier;
use c_lexer::Keyword;

/// The word that gives a type its size, among those that have come.
#[derive(Clone, Copy, Debug, PartialEq, Eq)]
pub enum TypeSize {
    /// None.
    Absent,
    /// `char`.
    Char,
    /// `short`.
    Short,
    /// One `long`.
    Long,
    /// Two `long`.
    LongLong,
    /// `void`, a structure, a union, an enumeration or a typedef name.
    Other,
}

/// The words of a type that have come so far.
#[derive(Clone, Copy, Debug, PartialEq, Eq)]
pub struct TypeWords {
    /// Whether `signed` or `unsigned` is among them.
    pub has_sign: bool,
    /// Whether `int` is among them.
    pub has_int: bool,
    /// The word that gives the size.
    pub size: TypeSize,
}

impl TypeWords {
    /// No word.
    pub fn none() -> Self
        ensures { result ≡ formed.no_type }
    {
        TypeWords {
            has_sign: false,
            has_int: false,
            size: TypeSize::Absent,
        }
    }

    /// These words and `signed` or `unsigned`; `None`: no type has them.
    fn with_sign(self) -> Option<Self>
        ensures { result ≡ formed.with_sign self }
    {
        match self.size {
            TypeSize::Other => None,
            _ if self.has_sign => None,
            _ => Some(TypeWords {
                has_sign: true,
                ..self
            }),
        }
    }

    /// These words and `int`; `None`: no type has them.
    fn with_int(self) -> Option<Self>
        ensures { result ≡ formed.with_int self }
    {
        match self.size {
            TypeSize::Char | TypeSize::Other => None,
            _ if self.has_int => None,
            _ => Some(TypeWords {
                has_int: true,
                ..self
            }),
        }
    }

    /// These words and `char`; `None`: no type has them.
    fn with_char(self) -> Option<Self>
        ensures { result ≡ formed.with_char self }
    {
        match self.size {
            TypeSize::Absent if !self.has_int => Some(TypeWords {
                size: TypeSize::Char,
                ..self
            }),
            _ => None,
        }
    }

    /// These words and `short`; `None`: no type has them.
    fn with_short(self) -> Option<Self>
        ensures { result ≡ formed.with_short self }
    {
        match self.size {
            TypeSize::Absent => Some(TypeWords {
                size: TypeSize::Short,
                ..self
            }),
            _ => None,
        }
    }

    /// These words and `long`; `None`: no type has them.
    fn with_long(self) -> Option<Self>
        ensures { result ≡ formed.of_size self (formed.longer self.size) }
    {
        match self.size {
            TypeSize::Absent => Some(TypeWords {
                size: TypeSize::Long,
                ..self
            }),
            TypeSize::Long => Some(TypeWords {
                size: TypeSize::LongLong,
                ..self
            }),
            _ => None,
        }
    }

    /// These words and `void`, a structure, union, enumeration or typedef name; `None`: no type has them.
    pub fn with_other(self) -> Option<Self>
        ensures { result ≡ formed.with_other self }
    {
        match self.size {
            TypeSize::Absent if !self.has_sign && !self.has_int => Some(TypeWords {
                size: TypeSize::Other,
                ..self
            }),
            _ => None,
        }
    }

    /// These words and a keyword, which is no word of the type where it is a storage class (C99 6.7.1), `const` (6.7.3)
    /// or
    /// `inline` (6.7.4); `None`: no specifiers have them.
    #[tactic(auto, unfolding(crate::specs::Formed::with_keyword))]
    pub fn with_keyword(self, keyword: Keyword) -> Option<Self>
        ensures { result ≡ formed.with_keyword keyword self }
    {
        match keyword {
            Keyword::Typedef
            | Keyword::Extern
            | Keyword::Static
            | Keyword::Auto
            | Keyword::Register
            | Keyword::Inline
            | Keyword::Const => Some(self),
            Keyword::Void => self.with_other(),
            Keyword::Char => self.with_char(),
            Keyword::Short => self.with_short(),
            Keyword::Int => self.with_int(),
            Keyword::Long => self.with_long(),
            Keyword::Signed | Keyword::Unsigned => self.with_sign(),
            _ => None,
        }
    }

    /// These words and `struct` or `union` with what follows it; `None`: no type has them, or the keyword is another.
    pub fn with_structure(self, keyword: Keyword) -> Option<Self>
        ensures { result ≡ formed.with_structure keyword self }
    {
        match keyword {
            Keyword::Struct | Keyword::Union => self.with_other(),
            _ => None,
        }
    }

    /// These words and a specifier; `None`: no specifiers have them.
    #[tactic(auto, unfolding(crate::specs::Formed::with_specifier))]
    pub fn with_specifier(self, specifier: &Specifier) -> Option<Self>
        ensures { result ≡ formed.with_specifier (view.specifier_of specifier.now) self }
    {
        match specifier {
            Specifier::Keyword(keyword, _) => self.with_keyword(*keyword),
            Specifier::Structure(keyword, _, _)
            | Specifier::StructureBody(keyword, _, _, _, _, _) => self.with_structure(*keyword),
            Specifier::TypedefName(_)
            | Specifier::Enumeration(_, _)
            | Specifier::EnumerationBody(_, _, _, _, _, _, _) => self.with_other(),
        }
    }

    /// Whether these words are a type.
    pub fn is_type(self) -> bool
        ensures { result ≡ formed.is_type self }
    {
        self.has_sign || self.has_int || !matches!(self.size, TypeSize::Absent)
    }
}

/// The words of specifiers so far and one more specifier; `None`: no specifiers have them.
fn and_specifier(words: Option<TypeWords>, specifier: &Specifier) -> Option<TypeWords>
    ensures { result ≡ formed.and_specifier (view.specifier_of specifier.now) words }
{
    match words {
        None => None,
        Some(words) => words.with_specifier(specifier),
    }
}

/// Whether specifiers have the words of one type, and no other words of types (C99 6.7.2).
pub fn names_one_type(specifiers: &[Specifier]) -> bool
    ensures { result ≡ formed.names_one_type (view.specifiers_in specifiers.now) }
{
    let mut words = Some(TypeWords::none());
    for specifier in specifiers {
        words = and_specifier(words, specifier);
    }
    match words {
        None => false,
        Some(words) => words.is_type(),
    }
}

/// Whether `typedef` is among the specifiers (C99 6.7.1).
pub fn has_typedef(specifiers: &[Specifier]) -> bool
    ensures { result ≡ formed.has_typedef (view.specifiers_in specifiers.now) }
{
    for specifier in specifiers {
        if matches!(specifier, Specifier::Keyword(Keyword::Typedef, _)) {
            return true;
        }
    }
    false
}
