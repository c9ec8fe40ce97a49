//! Composite types (C99 6.2.7).

ghost use Rattle.std.specs.Prelude.{◌≡◌, IfOk, is_some, option_map};
ghost use Rattle.c_scope.specs.Composite.{composite, joint};

use c_tree::{CType, TypeWord, same_words};
use std::alloc::{AllocError, Global};

/// The composite of two types, where they are compatible: of two arrays one of which has no size it has the other's
/// size (6.2.7 paragraph 3).
#[tactic(auto, unfolding(crate::specs::Composite::composite))]
pub fn composite(
    alloc: Global,
    left: &[TypeWord],
    right: &[TypeWord],
) -> Result<Option<CType>, AllocError>
    ensures { IfOk result (λ found. option_map (λ c_type. c_type) found ≡ composite left.now right.now) }
{
    let mut words = Vec::new(alloc);
    let mut rest = right;
    for word in left {
        let [other, behind @ ..] = rest else {
            return Ok(None);
        };
        let Some(both) = joint(*word, *other) else {
            return Ok(None);
        };
        words.push(both)?;
        rest = behind;
    }
    if rest.is_empty() {
        Ok(Some(CType::new(words)))
    } else {
        Ok(None)
    }
}

/// Whether two types are compatible (6.2.7 paragraph 1).
#[tactic(auto, unfolding(crate::specs::Composite::composite))]
pub fn are_compatible(left: &[TypeWord], right: &[TypeWord]) -> bool
    ensures { result ≡ is_some (composite left.now right.now) }
{
    let mut rest = right;
    for word in left {
        let [other, behind @ ..] = rest else {
            return false;
        };
        if joint(*word, *other).is_none() {
            return false;
        }
        rest = behind;
    }
    rest.is_empty()
}

// What stands in a composite type where these stand in the two.
fn joint(left: TypeWord, right: TypeWord) -> Option<TypeWord>
    ensures { result ≡ joint left right }
{
    match (left, right) {
        (TypeWord::OpenArray, TypeWord::Array { .. }) => Some(right),
        (TypeWord::Array { .. }, TypeWord::OpenArray) => Some(left),
        _ if same_words(&[left], &[right]) => Some(left),
        _ => None,
    }
}
