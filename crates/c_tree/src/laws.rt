//! Laws of layout, each as the contract of a function that does nothing: layers above rest on them.
ghost use Rattle.std.specs.Prelude.{◌≡◌, ℕ, ◌*◌, ◌%◌, ◌^◌, ◌<◌, ◌≤◌, List, ◌∷◌, length};
ghost use Rattle.std.specs.Prelude.{All, Option, Some, true};
ghost use Rattle.c_tree.specs.declared.c_type.TypeWord.{TypeWord};
ghost use Rattle.c_tree.specs.declared.c_type.TypeWord.TheVariants.{Array};
ghost use Rattle.c_tree.specs.Arrays.{array_word, is_sized};
ghost use Rattle.c_tree.specs.Extents.{TypeExtent, IsExtent, capped, extent_of};
ghost use Rattle.c_tree.specs.Layout.{array_size, member_offsets, structure_of, union_of};
ghost use Rattle.c_tree.specs.Members.{AreLaidOut, size_at, alignment_at};

/// The first member of a structure that is not too large lies at 0, each at a multiple of its alignment and behind
/// those before it, and all in the structure, whose size is a multiple of its alignment, which is no less than any
/// member's (C99 6.7.2.1).
pub fn structures_are_laid_out()
    ensures members { (ms : List TypeExtent) → All IsExtent ms → (structure_of ms).size ≤ 2 ^ 32
        → AreLaidOut ms (member_offsets ms) (structure_of ms).size }
    ensures whole { (ms : List TypeExtent) → (structure_of ms).size ≤ 2 ^ 32
        → (structure_of ms).size % (structure_of ms).alignment ≡ 0 }
    ensures alignment { (ms : List TypeExtent) (k : ℕ) → k < length ms
        → alignment_at ms k ≤ (structure_of ms).alignment }
{}

/// Each member of a union that is not too large, which all lie at 0, ends in it, and the same holds of its size and
/// alignment.
pub fn unions_hold_their_members()
    ensures members { (ms : List TypeExtent) → (union_of ms).size ≤ 2 ^ 32 → (k : ℕ) → k < length ms
        → size_at ms k ≤ (union_of ms).size }
    ensures whole { (ms : List TypeExtent) → (union_of ms).size ≤ 2 ^ 32
        → (union_of ms).size % (union_of ms).alignment ≡ 0 }
    ensures alignment { (ms : List TypeExtent) (k : ℕ) → k < length ms
        → alignment_at ms k ≤ (union_of ms).alignment }
{}

/// An array made of a complete type whose arrays have the bytes of their elements is such a type; of any such array the
/// bytes are those of its elements, and so is its size (C99 6.5.3.4).
pub fn arrays_have_the_bytes_of_their_elements()
    ensures made { (structures : List (Option TypeExtent)) (count : ℕ) (element : List TypeWord) (e : TypeExtent)
        → extent_of structures element ≡ Some e → is_sized structures element ≡ true
        → is_sized structures (array_word count e ∷ element) ≡ true }
    ensures bytes { (structures : List (Option TypeExtent)) (count bytes : ℕ) (element : List TypeWord) (e : TypeExtent)
        → extent_of structures element ≡ Some e → is_sized structures (Array count bytes ∷ element) ≡ true
        → bytes ≡ array_size count e.size }
    ensures extent { (structures : List (Option TypeExtent)) (count bytes : ℕ) (element : List TypeWord)
        (e : TypeExtent)
        → extent_of structures element ≡ Some e → is_sized structures (Array count bytes ∷ element) ≡ true
        → extent_of structures (Array count bytes ∷ element)
        ≡ Some (record { size = capped (count * e.size); alignment = e.alignment }) }
{}
