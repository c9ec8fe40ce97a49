//! The number of a type of functions among the types of a program.

ghost use Rattle.std.specs.Prelude.{◌≡◌};
ghost use Rattle.c_operand_typing.specs.Calls.{place_among};

use c_tree::{CType, TypeWord, same_words};

/// The place of a type among others, or how many these are where it is none of them.
pub fn place_among(words: &[TypeWord], types: &[CType]) -> usize
    ensures { result ≡ place_among words.now types.now }
{
    let mut place = 0;
    for c_type in types {
        if same_words(words, c_type.words()) {
            return place;
        }
        place += 1;
    }
    place
}
