//! Values: words with tags.

ghost use Rattle.std.specs.Prelude.{◌≡◌, ℕ, ◌+◌, ◌≤◌};

use crate::int_type::IntType;

/// The addresses that a pointer may reach: from `base` to before `bound` (SoftBound, "base and bound"). There are none
/// where `bound` is not above `base`.
#[derive(Clone, Copy, PartialEq, Eq)]
pub struct Bounds {
    /// The first address.
    pub base: u64,
    /// One past the last address.
    pub bound: u64,
}

/// What a pointer was made from.
#[derive(Clone, Copy, PartialEq, Eq)]
pub enum Tag {
    /// Nothing that may be reached: an integer, or a null pointer.
    Untagged,
    /// A function, by its number.
    OfFunction(usize),
    /// Some addresses of an object, which goes by its number.
    OfObject(usize, Bounds),
}

/// A value of a scalar type (C99 6.2.5): a word, and a tag, which only a pointer has.
#[derive(Clone, Copy, PartialEq, Eq)]
pub struct Value {
    /// An integer modulo 2^64, or an address.
    pub word: u64,
    /// What a pointer was made from.
    pub tag: Tag,
}

/// A scalar type (C99 6.2.5), as reads and writes know it.
#[derive(Clone, Copy, Debug, PartialEq, Eq)]
pub enum Scalar {
    /// An integer type.
    Integer(IntType),
    /// A pointer type, 8 bytes.
    Pointer,
}

/// A byte of an object.
#[derive(Clone, Copy, PartialEq, Eq)]
pub struct Place {
    /// The number of the object.
    pub object: usize,
    /// The number of bytes before it in the object.
    pub offset: u64,
}

impl Scalar {
    ghost use Rattle.obj_memory.specs.Access.{scalar_size};

    /// The number of its bytes: 1, 2, 4 or 8.
    pub fn size(self) -> u64
        ensures value { result ≡ scalar_size self }
        ensures small { result ≤ 8 }
    {
        match self {
            Scalar::Integer(of) => of.size(),
            Scalar::Pointer => 8,
        }
    }
}

impl Value {
    ghost use Rattle.obj_memory.specs.Judgement.{moved, narrowed};

    /// A pointer so many bytes further on. The address wraps, and the tag stays.
    #[tactic(auto, unfolding(crate::specs::Judgement::moved))]
    pub fn moved(self, offset: u64) -> Value
        ensures { result ≡ moved offset self }
    {
        Value {
            word: self.word.wrapping_add(offset),
            tag: self.tag,
        }
    }

    /// A pointer to a member of the structure or union that this one points to, by the member's
    /// offset and size. Its bounds are where the old bounds meet the member's bytes.
    #[tactic(auto, unfolding(crate::specs::Judgement::narrowed))]
    pub fn narrowed(self, offset: u64, size: u64) -> Value
        ensures { result ≡ narrowed offset size self }
    {
        let word = self.word.wrapping_add(offset);
        let tag = match self.tag {
            Tag::OfObject(object, bounds) => Tag::OfObject(
                object,
                Bounds {
                    base: bounds.base.max(word),
                    bound: bounds.bound.min(word.saturating_add(size)),
                },
            ),
            tag => tag,
        };
        Value { word, tag }
    }
}
