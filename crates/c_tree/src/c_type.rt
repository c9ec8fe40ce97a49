//! C types (C99 6.2.5), as the list of the words in which one reads them: "array of 3, pointer to, int".

ghost use Rattle.std.specs.Prelude.{◌≡◌, IsTrue, ◌↔◌};

use obj_memory::IntType;
use std::alloc::Global;
use std::marker::Model;

/// A word of a type. Each word but the last speaks of the type that the words behind it make.
#[derive(Clone, Copy, Debug, PartialEq, Eq)]
pub enum TypeWord {
    /// `void`
    Void,
    /// An integer type.
    Integer(IntType),
    /// An enumeration, by the number of its declaration; its values are ints (6.7.2.2).
    Enumeration(usize),
    /// "pointer to"
    Pointer,
    /// "array of so many", and the bytes of all its elements, at most 2^32 + 1 of them counted.
    Array { count: u64, bytes: u64 },
    /// "array of an unknown size of" (6.7.5.2 paragraph 4)
    OpenArray,
    /// A structure or union, by the number of its declaration.
    Structure(usize),
    /// "constant" (6.7.3)
    Const,
    /// "function taking" a parameter of the type behind it, and then what stands behind that type.
    Takes,
    /// "function giving", behind all its parameters.
    Gives,
}

/// A C type. Contracts see the list of its words.
#[derive(Drop)]
pub struct CType {
    words: Vec<TypeWord>,
}

impl Model for CType {
    ghost use Rattle.std.specs.Prelude.{List};
    ghost use Rattle.c_tree.specs.declared.c_type.TypeWord.{TypeWord};

    ghost Value = { List TypeWord };

    ghost view = { λ t. t.words.items };
}

impl CType {
    ghost use Rattle.std.specs.Prelude.{IsTrue, ◌↔◌};

    /// The type that these words spell.
    pub fn new(words: Vec<TypeWord>) -> Self
        ensures { result ≡ words.items }
    {
        CType { words }
    }

    /// Its words.
    pub fn words(&self) -> &[TypeWord]
        ensures { result.now ≡ self.now }
    {
        &self.words
    }

    /// Whether both are the same type: function types too are equal where their words are (6.2.7, 6.7.5.3).
    pub fn is(&self, other: &CType) -> bool
        ensures { IsTrue result ↔ (self.now ≡ other.now) }
    {
        are_same(&self.words, &other.words)
    }
}

// Whether both are the same words.
fn are_same(left: &[TypeWord], right: &[TypeWord]) -> bool
    ensures { IsTrue result ↔ (left.now ≡ right.now) }
{
    match left {
        [] => right.is_empty(),
        [first, behind @ ..] => match right {
            [] => false,
            [other, others @ ..] => *first == *other && are_same(behind, others),
        },
    }
}
