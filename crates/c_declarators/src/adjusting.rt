//! The types of parameters (C99 6.7.5.3 paragraphs 7, 8 and 15).

ghost use Rattle.std.specs.Prelude.{◌≡◌, IfOk};
ghost use Rattle.c_declarators.specs.Adjusted.{adjusted};

use c_place_rules::target::pointer_to;
use c_tree::{CType, TypeWord};
use std::alloc::{AllocError, Global};

/// The type of a parameter that is declared with a type: an array is a pointer to its elements, and a function a
/// pointer to it.
pub fn adjusted(alloc: Global, words: &[TypeWord]) -> Result<CType, AllocError>
    ensures { IfOk result (λ c_type. c_type ≡ adjusted words.now) }
{
    match words {
        [TypeWord::Array { .. } | TypeWord::OpenArray, element @ ..] => pointer_to(alloc, element),
        [TypeWord::Takes | TypeWord::Gives, ..] => pointer_to(alloc, words),
        _ => Ok(CType::new(words.to_vec(alloc)?)),
    }
}
