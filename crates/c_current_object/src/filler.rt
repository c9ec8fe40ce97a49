//! What initializers ask of the type of an object (C99 6.7.8 paragraphs 13 and 14).

ghost use Rattle.std.specs.Prelude.{◌≡◌};
ghost use Rattle.c_current_object.specs.Types.{fills, fills_aggregate, filler_of, is_aggregate, is_character_array};
ghost use Rattle.c_current_object.specs.Types.{is_character_as, is_structure_as};

use c_rules::value::unqualified;
use c_tree::TypeWord;

/// An initializer without braces, by what it can be for beside a scalar.
#[derive(Clone, Copy)]
pub enum Filler {
    /// A string literal, for an array of character type.
    Literal,
    /// A value of the structure or union with this number, for an object of it.
    Structure(usize),
    /// Any other value.
    Scalar,
}

impl Filler {
    ghost use Rattle.std.specs.Prelude.{◌≡◌};
    ghost use Rattle.c_current_object.specs.Types.{filler_of, fills, fills_aggregate};

    /// That of a value of a type.
    pub fn of(words: &[TypeWord]) -> Filler
        ensures { result ≡ filler_of words.now }
    {
        match unqualified(words) {
            [TypeWord::Structure(number), ..] => Filler::Structure(*number),
            _ => Filler::Scalar,
        }
    }

    /// Whether it is for a whole object of a type, and not for its first part.
    pub fn fills(self, words: &[TypeWord]) -> bool
        ensures { result ≡ fills self words.now }
    {
        !is_aggregate(words) || self.fills_aggregate(words)
    }

    fn fills_aggregate(self, words: &[TypeWord]) -> bool
        ensures { result ≡ fills_aggregate self words.now }
    {
        match self {
            Filler::Literal => is_character_array(words),
            Filler::Structure(number) => is_structure(number, unqualified(words)),
            Filler::Scalar => false,
        }
    }
}

/// Whether a type is that of an array, a structure or a union.
pub fn is_aggregate(words: &[TypeWord]) -> bool
    ensures { result ≡ is_aggregate words.now }
{
    matches!(
        unqualified(words),
        [
            TypeWord::Array { .. } | TypeWord::OpenArray | TypeWord::Structure(_),
            ..
        ]
    )
}

/// Whether a type is that of an array of character type.
pub fn is_character_array(words: &[TypeWord]) -> bool
    ensures { result ≡ is_character_array words.now }
{
    match unqualified(words) {
        [TypeWord::Array { .. } | TypeWord::OpenArray, element @ ..] => {
            is_character(unqualified(element))
        }
        _ => false,
    }
}

fn is_character(words: &[TypeWord]) -> bool
    ensures { result ≡ is_character_as words.now }
{
    match words {
        [TypeWord::Integer(t), ..] => t.rank() == 1,
        _ => false,
    }
}

fn is_structure(number: usize, words: &[TypeWord]) -> bool
    ensures { result ≡ is_structure_as number words.now }
{
    match words {
        [TypeWord::Structure(other), ..] => *other == number,
        _ => false,
    }
}
