//! Objects: their bytes, and a tag for each of their words.

use obj_memory::{Scalar, Storage, Tag, Value};
use std::alloc::{AllocError, Global};

/// An object, or the contents of a structure value.
#[derive(Drop)]
pub(crate) struct Object {
    pub storage: Storage,
    pub address: u64,
    pub size: u64,
    pub is_live: bool,
    pub bytes: Vec<u8>,
    pub tags: Vec<Tag>,
}

// The number of some bytes, of which the first is the lowest.
fn number_of(bytes: &[u8]) -> u64 {
    let mut number = 0u64;
    for byte in bytes.iter().rev() {
        number = (number << 8) | u64::from(*byte);
    }
    number
}

impl Object {
    /// A new object, with zero bytes and no tags.
    pub(crate) fn new(
        alloc: Global,
        storage: Storage,
        address: u64,
        size: u64,
    ) -> Result<Object, AllocError> {
        let bytes = vec![in alloc; 0; size as usize]?;
        let tags = vec![in alloc; Tag::Untagged; (size / 8) as usize]?;
        Ok(Object {
            storage,
            address,
            size,
            is_live: true,
            bytes,
            tags,
        })
    }

    /// The same object again.
    pub(crate) fn copy(&self, alloc: Global) -> Result<Object, AllocError> {
        let bytes = Vec::from_slice(alloc, &self.bytes)?;
        let tags = Vec::from_slice(alloc, &self.tags)?;
        Ok(Object {
            storage: self.storage,
            address: self.address,
            size: self.size,
            is_live: self.is_live,
            bytes,
            tags,
        })
    }

    /// All bytes become zero, and the words lose their tags.
    pub(crate) fn clear(&mut self) {
        self.bytes.as_mut_slice().fill(0);
        self.tags.as_mut_slice().fill(Tag::Untagged);
    }

    /// Some bytes from an offset on, none where they are not all there.
    pub(crate) fn part(&self, offset: u64, size: u64) -> &[u8] {
        let first = offset as usize;
        let end = first.saturating_add(size as usize);
        self.bytes.get(first..end).unwrap_or(&[])
    }

    // The tag of the word that begins at an offset.
    fn tag(&self, offset: u64) -> Tag {
        if offset % 8 != 0 {
            return Tag::Untagged;
        }
        match self.tags.get((offset / 8) as usize) {
            Some(tag) => *tag,
            None => Tag::Untagged,
        }
    }

    fn put_tag(&mut self, offset: u64, tag: Tag) {
        if offset % 8 == 0
            && let Some(place) = self.tags.get_mut((offset / 8) as usize)
        {
            *place = tag;
        }
    }

    /// What is read of a scalar at an offset.
    pub(crate) fn read(&self, scalar: Scalar, offset: u64) -> Value {
        let number = number_of(self.part(offset, scalar.size()));
        match scalar {
            Scalar::Integer(of) => Value {
                word: of.fit(number),
                tag: Tag::Untagged,
            },
            Scalar::Pointer => Value {
                word: number,
                tag: self.tag(offset),
            },
        }
    }

    /// Bytes are set from an offset on; the tags stay.
    pub(crate) fn put_bytes(&mut self, offset: u64, new: &[u8]) {
        let mut place = offset as usize;
        for byte in new {
            if let Some(old) = self.bytes.get_mut(place) {
                *old = *byte;
            }
            place = place.wrapping_add(1);
        }
    }

    /// A scalar is written at an offset.
    pub(crate) fn write(&mut self, scalar: Scalar, offset: u64, value: Value) {
        let bytes = value.word.to_le_bytes();
        let size = scalar.size() as usize;
        self.put_bytes(offset, &bytes[..size]);
        if scalar == Scalar::Pointer {
            self.put_tag(offset, value.tag);
        }
    }

    // The tags of the whole words of a range, from those of the words that they come from.
    fn move_tags(&mut self, size: u64, start: u64, source: u64, from: &[Tag]) {
        let end = start.saturating_add(size);
        for (word, tag) in self.tags.iter_mut().enumerate() {
            let first = (word as u64).saturating_mul(8);
            if start <= first && first.saturating_add(8) <= end {
                let old = (first - start).saturating_add(source) / 8;
                *tag = from.get(old as usize).copied().unwrap_or(Tag::Untagged);
            }
        }
    }

    /// Some bytes of another object move here with the tags of whole words, where both offsets are equal modulo 8.
    pub(crate) fn move_into(&mut self, size: u64, start: u64, source: u64, from: &Object) {
        self.put_bytes(start, from.part(source, size));
        if start % 8 == source % 8 {
            self.move_tags(size, start, source, &from.tags);
        }
    }
}
