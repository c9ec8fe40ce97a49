//! What the definitions of `specs/` say in plainer words. The functions do nothing: their contracts are the laws.

ghost use Rattle.std.specs.Prelude.{◌≡◌, ◌↔◌, ℕ, true};
ghost use Rattle.elf_image.specs.Content.{SegmentContent};
ghost use Rattle.elf_image.specs.Tests.{holds, meets};
ghost use Rattle.elf_image.specs.Writing.{WrittenImage, SegmentsFit, IsInOrder};

/// Two segments overlap exactly where an address lies in both.
pub fn overlap_is_a_shared_address()
    ensures { (s t : SegmentContent) → (meets s t ≡ true) ↔ ((a : ℕ) × ((holds a s ≡ true) × (holds a t ≡ true))) }
{}

/// Segments that stand in the order of their addresses, with an entry in the first, pass the tests of an
/// image.
pub fn segments_in_order_fit()
    ensures { (p : WrittenImage) → IsInOrder p → SegmentsFit p }
{}
