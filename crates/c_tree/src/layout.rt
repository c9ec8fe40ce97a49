//! The layout of types (C99 6.5.3.4, 6.7.2.1; LP64 of the RISC-V psABI). A size above 2^32 bytes counts as 2^32 + 1,
//! and whoever asks for it refuses the type.

ghost use Rattle.std.specs.Prelude.{◌≡◌, ◌≤◌, ◌+◌, ◌^◌, IfOk};
ghost use Rattle.c_tree.specs.Extents.{capped};
ghost use Rattle.c_tree.specs.Layout.{aligned, array_size, behind_member, greatest_alignment, greatest_size};
ghost use Rattle.c_tree.specs.Layout.{member_offsets, padded, structure_of, union_of};

use crate::c_type::TypeWord;
use obj_memory::IntType;
use std::alloc::{AllocError, Global};
use std::marker::Model;

/// The largest size of a type, in bytes.
pub const MAX_SIZE: u64 = 1 << 32;

/// The size of a type, 0 to 2^32 + 1 bytes, and its alignment, 1 to 8 bytes.
#[derive(Clone, Copy, Debug, PartialEq, Eq)]
pub struct Extent {
    size: u64,
    alignment: u64,
}

impl Model for Extent {
    ghost use Rattle.c_tree.specs.Extents.{TypeExtent, IsExtent};

    ghost Value = { TypeExtent };

    ghost view = { λ e. record { size = e.size; alignment = e.alignment } };

    ghost invariant = { λ e. IsExtent (record { size = e.size; alignment = e.alignment }) };

    ghost inverse = { λ e. record { size = e.size; alignment = e.alignment } };
}

impl Extent {
    ghost use Rattle.std.specs.Prelude.{◌≡◌, ◌≤◌, ◌+◌, ◌^◌};
    ghost use Rattle.obj_memory.specs.Integers.{size_of};
    ghost use Rattle.c_tree.specs.Extents.{extent_of, scalar_extent, structure_extent, array_extent};

    /// The bytes of an object of the type, 0 to 2^32 + 1.
    pub fn size(self) -> u64
        ensures value { result ≡ self.size }
        ensures small { result ≤ 2 ^ 32 + 1 }
    {
        self.size
    }

    /// The alignment, 1 to 8 bytes.
    pub fn alignment(self) -> u64
        ensures value { result ≡ self.alignment }
        ensures least { 1 ≤ result }
        ensures greatest { result ≤ 8 }
    {
        self.alignment
    }

    /// That of an integer type.
    pub fn of_integer(t: IntType) -> Extent
        ensures { result ≡ scalar_extent (size_of t) }
    {
        Extent {
            size: t.size(),
            alignment: t.size(),
        }
    }

    /// That of a pointer.
    pub fn of_pointer() -> Extent
        ensures { result ≡ scalar_extent 8 }
    {
        Extent {
            size: 8,
            alignment: 8,
        }
    }

    /// That of an array of so many bytes, of elements of this extent.
    pub fn of_array(bytes: u64, element: Extent) -> Extent
        ensures { result ≡ array_extent bytes element }
    {
        Extent {
            size: capped(bytes),
            alignment: element.alignment,
        }
    }

    /// That of a type, where it is complete, among structures and unions that have these. `void`, functions, arrays
    /// of an unknown size and structures without one are not complete (6.2.5).
    #[tactic(auto, unfolding(crate::specs::Extents::extent_of))]
    pub fn of_type(structures: &[Option<Extent>], words: &[TypeWord]) -> Option<Extent>
        ensures { result ≡ extent_of structures.now words.now }
    {
        match words {
            [TypeWord::Integer(t), ..] => Some(Extent::of_integer(*t)),
            [TypeWord::Enumeration(_), ..] => Some(Extent::of_integer(IntType::Int)),
            [TypeWord::Pointer, ..] => Some(Extent::of_pointer()),
            [TypeWord::Structure(n), ..] => Extent::of_structure(structures, *n),
            [TypeWord::Const, behind @ ..] => Extent::of_type(structures, behind),
            [TypeWord::Array { bytes, .. }, element @ ..] => {
                let element = Extent::of_type(structures, element)?;
                Some(Extent::of_array(*bytes, element))
            }
            _ => None,
        }
    }

    fn of_structure(structures: &[Option<Extent>], number: usize) -> Option<Extent>
        ensures { result ≡ structure_extent structures.now number }
    {
        match structures.get(number) {
            Some(extent) => *extent,
            None => None,
        }
    }
}

impl TypeWord {
    ghost use Rattle.c_tree.specs.Arrays.{array_word};

    /// "array of so many" elements of this extent, the words of whose type stand behind it.
    pub fn array(count: u64, element: Extent) -> TypeWord
        ensures { result ≡ array_word count element }
    {
        TypeWord::Array {
            count,
            bytes: array_size(count, element.size()),
        }
    }
}

/// The size of an array of so many elements of this size.
#[tactic(auto, unfolding(crate::specs::Layout::array_size))]
pub fn array_size(count: u64, element: u64) -> u64
    ensures value { result ≡ array_size count element }
    ensures small { result ≤ 2 ^ 32 + 1 }
{
    capped(count.saturating_mul(element))
}

fn capped(size: u64) -> u64
    ensures value { result ≡ capped size }
    ensures small { result ≤ 2 ^ 32 + 1 }
{
    size.min(MAX_SIZE + 1)
}

fn aligned(alignment: u64, place: u64) -> u64
    requires least { 1 ≤ alignment }
    requires greatest { alignment ≤ 8 }
    requires small { place ≤ 2 ^ 32 + 1 }
    ensures value { result ≡ aligned alignment place }
    ensures near { result ≤ place + 7 }
{
    (place + (alignment - 1)) / alignment * alignment
}

fn behind_member(place: u64, member: Extent) -> u64
    requires small { place ≤ 2 ^ 32 + 1 }
    ensures value { result ≡ behind_member place member }
    ensures small { result ≤ 2 ^ 32 + 1 }
{
    capped(aligned(member.alignment(), place) + member.size())
}

fn padded(alignment: u64, size: u64) -> Extent
    requires least { 1 ≤ alignment }
    requires greatest { alignment ≤ 8 }
    requires small { size ≤ 2 ^ 32 + 1 }
    ensures { result ≡ padded alignment size }
{
    Extent {
        size: capped(aligned(alignment, size)),
        alignment,
    }
}

/// The offsets of the members of a structure, in their order.
#[tactic(auto, unfolding(crate::specs::Layout::member_offsets))]
pub fn member_offsets(alloc: Global, members: &[Extent]) -> Result<Vec<u64>, AllocError>
    ensures { IfOk result (λ offsets. offsets.items ≡ member_offsets members.now) }
{
    let mut offsets = Vec::new(alloc);
    let mut place = 0;
    for member in members {
        offsets.push(aligned(member.alignment(), place))?;
        place = behind_member(place, *member);
    }
    Ok(offsets)
}

/// The size and alignment of a structure with these members.
#[tactic(auto, unfolding(crate::specs::Layout::structure_of))]
pub fn structure_of(members: &[Extent]) -> Extent
    ensures { result ≡ structure_of members.now }
{
    let mut place = 0;
    for member in members {
        place = behind_member(place, *member);
    }
    padded(greatest_alignment(members), place)
}

/// The size and alignment of a union with these members.
#[tactic(auto, unfolding(crate::specs::Layout::union_of))]
pub fn union_of(members: &[Extent]) -> Extent
    ensures { result ≡ union_of members.now }
{
    padded(greatest_alignment(members), greatest_size(members))
}

#[tactic(auto, using(crate::proofs::Alignments::max_one))]
fn greatest_alignment(members: &[Extent]) -> u64
    ensures value { result ≡ greatest_alignment members.now }
    ensures least { 1 ≤ result }
    ensures greatest { result ≤ 8 }
{
    let mut greatest = 1;
    for member in members {
        greatest = member.alignment().max(greatest);
    }
    greatest
}

fn greatest_size(members: &[Extent]) -> u64
    ensures value { result ≡ greatest_size members.now }
    ensures small { result ≤ 2 ^ 32 + 1 }
{
    let mut greatest = 0;
    for member in members {
        greatest = member.size().max(greatest);
    }
    greatest
}
