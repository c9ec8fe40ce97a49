//! The parts of the type of a function (C99 6.7.5.3).

ghost use Rattle.std.specs.Prelude.{◌≡◌, ◌+◌, ◌^◌, ◌<◌, ◌≤◌, length, [], option_map};
ghost use Rattle.c_tree.specs.TypesAgree.{behind_types, still};
ghost use Rattle.c_call_rules.specs.FunctionTypes.{behind_parameter, callee_type, first_types, result_type};

use c_tree::TypeWord;

/// The type of the function to which a value of a type points, if it is a pointer to a function.
pub fn callee_type(words: &[TypeWord]) -> Option<&[TypeWord]>
    ensures { option_map (λ type. type.now) result ≡ callee_type words.now }
{
    match words {
        [TypeWord::Const, behind @ ..] => callee_type(behind),
        [TypeWord::Pointer, function @ ..] => match function {
            [TypeWord::Takes | TypeWord::Gives, ..] => Some(function),
            _ => None,
        },
        _ => None,
    }
}

/// How many types are to be read behind a word, of so many that are to be read with it.
fn still(word: TypeWord, others: usize) -> usize
    requires { others + 2 < 2 ^ 64 }
    ensures value { result ≡ still word others }
    ensures few { result ≤ others + 2 }
{
    match word {
        TypeWord::Pointer
        | TypeWord::Array { .. }
        | TypeWord::OpenArray
        | TypeWord::Const
        | TypeWord::Gives => others + 1,
        TypeWord::Takes => others + 2,
        TypeWord::Void | TypeWord::Integer(_) | TypeWord::Enumeration(_) | TypeWord::Structure(_) =>
            others,
    }
}

// What stands behind so many types.
fn behind_types(words: &[TypeWord], types: usize) -> &[TypeWord]
    requires { types + length words.now < 2 ^ 63 }
    ensures value { result.now ≡ behind_types types words.now }
    ensures fewer { length result.now ≤ length words.now }
{
    match types.checked_sub(1) {
        None => words,
        Some(others) => match words {
            [] => words,
            [word, behind @ ..] => behind_types(behind, still(*word, others)),
        },
    }
}

/// The first type that some words spell.
#[tactic(auto, using(crate::proofs::FirstTypes::first_is))]
pub fn first_type(words: &[TypeWord]) -> &[TypeWord]
    ensures { result.now ≡ first_types 1 words.now }
{
    let behind = behind_types(words, 1);
    &words[..words.len() - behind.len()]
}

/// What stands behind the first parameter of a function type.
pub fn behind_parameter(words: &[TypeWord]) -> &[TypeWord]
    ensures { result.now ≡ behind_parameter words.now }
{
    match words {
        [TypeWord::Takes, parameter @ ..] => behind_types(parameter, 1),
        _ => &[],
    }
}

/// The type of the result of a function type.
pub fn result_type(words: &[TypeWord]) -> &[TypeWord]
    ensures { result.now ≡ result_type 0 words.now }
{
    result_behind(words, 0)
}

fn result_behind(words: &[TypeWord], types: usize) -> &[TypeWord]
    requires { types + length words.now < 2 ^ 63 }
    ensures { result.now ≡ result_type types words.now }
{
    match words {
        [] => words,
        [word, behind @ ..] => match types.checked_sub(1) {
            Some(others) => result_behind(behind, still(*word, others)),
            None => match word {
                TypeWord::Gives => behind,
                TypeWord::Takes => result_behind(behind, 1),
                _ => &[],
            },
        },
    }
}
