//! Laws of words that spell types.

ghost use Rattle.std.specs.Prelude.{◌≡◌, true, List, Option};
ghost use Rattle.c_tree.specs.declared.c_type.TypeWord.{TypeWord};
ghost use Rattle.c_tree.specs.Arrays.{is_sized};
ghost use Rattle.c_tree.specs.Extents.{TypeExtent};
ghost use Rattle.typing_laws.specs.SpelledTypes.Spelled.{is_spelled};

/// In words that spell a type each array has the bytes of its elements (C99 6.7.5.2).
pub fn spelled_types_are_sized()
    ensures { (es : List (Option TypeExtent)) (type : List TypeWord) → is_spelled es 1 type ≡ true
        → is_sized es type ≡ true }
{}
