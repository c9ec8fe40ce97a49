//! A part of an initializer and where it lies (C99 6.7.8 paragraph 22).

ghost use Rattle.std.specs.Prelude.{◌≡◌};
ghost use Rattle.c_tree.specs.View.{content_of};
ghost use Rattle.c_initializer_rules.specs.Placed.{count_with};

use c_current_object::Step;
use c_tree::{Content, MAX_SIZE, Part};
use tree_containers::Items;

/// A part, and the steps that lead to the subobject that it is for.
#[derive(Drop)]
pub struct PlacedPart {
    /// The steps from the whole object.
    pub path: Items<Step>,
    /// The part.
    pub part: Part,
}

/// The number of elements that an array of unknown size has at least, of which this is a part.
pub fn count_with(path: &[Step], content: &Content) -> u64
    ensures { result ≡ count_with path.now (content_of content.now) }
{
    match path {
        [step, ..] => step.number.saturating_add(1).min(MAX_SIZE + 1),
        [] => match content {
            Content::Value(_) => 0,
            Content::Literal(bytes) => bytes.as_slice().len() as u64,
        },
    }
}
