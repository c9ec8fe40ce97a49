//! Objects by number, and tags in terms of them.

use crate::memory::Memory;
use std::alloc::AllocError;

/// An object: its bytes, its key and the address of its lock word. It lives while the lock word holds the key.
#[derive(Clone, Copy)]
pub struct Object {
    pub first: u64,
    pub size: u64,
    pub key: u64,
    pub lock: u64,
}

impl Object {
    pub fn is_live(&self, memory: &Memory) -> bool {
        memory.word(self.lock) == self.key
    }
}

/// The metadata of a pointer.
#[derive(Clone, Copy, PartialEq, Eq)]
pub struct Metadata {
    pub base: u64,
    pub bound: u64,
    pub key: u64,
    pub lock: u64,
}

/// That of a word without a pointer.
pub const NONE: Metadata = Metadata {
    base: 0,
    bound: 0,
    key: 0,
    lock: 0,
};

// The key of the function type with number 0.
const FUNCTIONS: u64 = 1 << 63;

/// Objects, and the first and the last address of the lock words.
#[derive(Drop)]
pub struct Objects {
    pub items: Vec<Object>,
    pub locks: (u64, u64),
}

impl Objects {
    /// The first object with the key and the lock word of some metadata: all objects of a block share them.
    fn number_of(&self, metadata: &Metadata) -> Option<usize> {
        for (number, object) in self.items.iter().enumerate() {
            if object.key == metadata.key && object.lock == metadata.lock {
                return Some(number);
            }
        }
        None
    }

    // Whether a lock word other than the global one holds a key.
    fn is_held(&self, memory: &Memory, metadata: &Metadata) -> bool {
        let (first, last) = self.locks;
        metadata.lock > first
            && metadata.lock < last
            && metadata.lock % 8 == 0
            && memory.word(metadata.lock) == metadata.key
    }

    /// Writes metadata: `-` for none; the type and the address of a function; the number of an object, or the key of
    /// one that is new in this memory, with the bounds.
    pub fn write(
        &self,
        text: &mut String,
        memory: &Memory,
        metadata: &Metadata,
    ) -> Result<(), AllocError> {
        let Metadata {
            base,
            bound,
            key,
            lock,
        } = *metadata;
        if *metadata == NONE {
            return text.push_str("-");
        }
        if key >= FUNCTIONS && lock == 0 && base == bound {
            return write!(text, "fn/{base:x}/{:x}", key.wrapping_sub(FUNCTIONS));
        }
        match self.number_of(metadata) {
            Some(number) => write!(text, "{number:x}/{base:x}/{bound:x}"),
            None if self.is_held(memory, metadata) => {
                write!(text, "new{key:x}/{base:x}/{bound:x}")
            }
            None => write!(text, "?{key:x}@{lock:x}/{base:x}/{bound:x}"),
        }
    }

    /// The metadata that a row gives behind an address.
    pub fn read(&self, text: &str) -> Option<Metadata> {
        let mut parts = text.split('/');
        let name = parts.next()?;
        if name == "-" {
            return Some(NONE);
        }
        let base = hexadecimal(parts.next()?)?;
        let last = hexadecimal(parts.next()?)?;
        if name == "fn" {
            return Some(Metadata {
                base,
                bound: base,
                key: FUNCTIONS | last,
                lock: 0,
            });
        }
        let number = hexadecimal(name)?;
        let object = self.items.get(number as usize)?;
        Some(Metadata {
            base,
            bound: last,
            key: object.key,
            lock: object.lock,
        })
    }
}

/// So many bytes in whole words of 8.
pub fn whole_words(size: u64) -> u64 {
    (size.wrapping_add(7) / 8).wrapping_mul(8)
}

/// The number of hexadecimal digits.
pub fn hexadecimal(digits: &str) -> Option<u64> {
    u64::from_str_radix(digits, 16).ok()
}
