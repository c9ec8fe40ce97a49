//! Whether two C types are the same (C99 6.2.7): they are where their words are.

ghost use Rattle.std.specs.Prelude.{◌≡◌};
ghost use Rattle.c_tree.specs.TypesAgree.{same_word, same_words};

use crate::c_type::TypeWord;

/// Whether both types are the same.
pub fn same_words(left: &[TypeWord], right: &[TypeWord]) -> bool
    ensures { result ≡ same_words left.now right.now }
{
    match left {
        [] => right.is_empty(),
        [first, behind @ ..] => match right {
            [] => false,
            [other, others @ ..] => same_word(*first, *other) && same_words(behind, others),
        },
    }
}

fn same_word(left: TypeWord, right: TypeWord) -> bool
    ensures { result ≡ same_word left right }
{
    match (left, right) {
        (TypeWord::Integer(s), TypeWord::Integer(t)) => s as u8 == t as u8,
        (TypeWord::Enumeration(m), TypeWord::Enumeration(n))
        | (TypeWord::Structure(m), TypeWord::Structure(n)) => m == n,
        (
            TypeWord::Array { count, bytes },
            TypeWord::Array {
                count: others,
                bytes: size,
            },
        ) => { count == others && bytes == size }
        (TypeWord::Void, TypeWord::Void)
        | (TypeWord::Pointer, TypeWord::Pointer)
        | (TypeWord::OpenArray, TypeWord::OpenArray)
        | (TypeWord::Const, TypeWord::Const)
        | (TypeWord::Takes, TypeWord::Takes)
        | (TypeWord::Gives, TypeWord::Gives) => true,
        _ => false,
    }
}
