//! One object.

ghost use Rattle.std.specs.Prelude.{◌≡◌, ℕ, ◌+◌, ◌/◌, ◌%◌, ◌^◌, ◌<◌, ◌≤◌, ◌&&◌, if◌then◌else◌};
ghost use Rattle.std.specs.Prelude.{length, take, drop, get_or, true, false, Some, None, IfOk, IfSome};
ghost use Rattle.std.specs.Prelude.{IfNone};
ghost use Rattle.std.specs.Prelude.{OnOk, OnErr};
ghost use Rattle.byteorder.specs.Endian.{little_bytes, little_number};
ghost use Rattle.obj_memory.specs.Access.{is_aligned, moved_tags, overwrite, scalar_size};
ghost use Rattle.obj_memory.specs.declared.value.Tag.TheVariants.{Untagged};
ghost use Rattle.source_meaning.specs.Structures.{contents_of, moved_into};
ghost use Rattle.interpreter_objects.specs.Kept.{buried, found_in, has_bytes, has_range, part_of, read_in};
ghost use Rattle.interpreter_objects.specs.Kept.{with_bytes, with_tag, written_in, zeroed};

use byteorder::{ByteOrder, LittleEndian};
use obj_memory::{Scalar, Storage, Tag, Value};
use std::alloc::{AllocError, Global};
use std::marker::Model;

/// An object: its bytes, and a tag for each of its words, while it is live.
#[derive(Drop)]
pub struct Object {
    storage: Storage,
    address: u64,
    size: u64,
    is_live: bool,
    bytes: Vec<u8>,
    tags: Vec<Tag>,
}

impl Model for Object {
    ghost use Rattle.obj_memory.specs.Objects.{ObjectState};

    ghost Value = { ObjectState };

    ghost view = { λ o. record {
      storage = o.storage;
      address = o.address;
      size = o.size;
      is_live = o.is_live;
      bytes = o.bytes.items;
      tags = o.tags.items;
    } };
}

// Other items from a place on.
fn put_at<T: Copy>(items: &mut Vec<T>, place: u64, new: &[T])
    requires { place + length new.now ≤ length items.old.items }
    ensures { items.new.items ≡ overwrite place new.now items.old.items }
{
    let start = place as usize;
    items[start..start + new.len()].copy_from_slice(new);
}

// The lowest bytes of a word, written from an offset on.
#[tactic(auto, using(crate::proofs::LittleBytes::lowest_bytes))]
fn put_word(bytes: &mut Vec<u8>, offset: u64, size: u64, word: u64)
    requires small { size ≤ 8 }
    requires inside { offset + size ≤ length bytes.old.items }
    ensures { bytes.new.items ≡ overwrite offset (little_bytes size word) bytes.old.items }
{
    put_at(bytes, offset, &word.to_le_bytes()[..size as usize]);
}

// The number that so many bytes from an offset on are.
fn number(bytes: &[u8], offset: u64, size: u64) -> u64
    requires some { 1 ≤ size }
    requires few { size ≤ 8 }
    requires inside { offset + size ≤ length bytes.now }
    ensures { result ≡ little_number size (take size (drop offset bytes.now)) }
{
    let start = offset as usize;
    let count = size as usize;
    LittleEndian::read_uint(&bytes[start..start + count], count)
}

// The number of whole words that begin before an offset, or at it.
fn words_to(offset: u64) -> u64
    ensures { result ≡ (offset + 7) / 8 }
{
    if offset % 8 == 0 {
        offset / 8
    } else {
        offset / 8 + 1
    }
}

// The tags of the whole words of a range become those of other words, as far behind a multiple of 8.
#[tactic(auto, using(crate::proofs::Tags::words_stay))]
fn move_tags(tags: &mut Vec<Tag>, size: u64, start: u64, source: u64, from: &[Tag])
    requires phase { start % 8 ≡ source % 8 }
    requires inside { (start + size) / 8 ≤ length tags.old.items }
    requires there { (source + size) / 8 ≤ length from.now }
    requires fits { start + size < 2 ^ 63 }
    requires other_fits { source + size < 2 ^ 63 }
    ensures { tags.new.items ≡ moved_tags size start source from.now 0 tags.old.items }
{
    let first = words_to(start);
    let last = (start + size) / 8;
    if first < last {
        let other = words_to(source) as usize;
        let count = (last - first) as usize;
        put_at(tags, first, &from[other..other + count]);
    }
}

impl Object {
    ghost use Rattle.obj_memory.specs.Objects.{new_object};

    /// A new object of so many bytes at an address: zero bytes, and no tags.
    #[tactic(auto, unfolding(obj_memory::specs::Objects::new_object))]
    pub fn new(
        alloc: Global,
        storage: Storage,
        address: u64,
        size: u64,
    ) -> Result<Object, AllocError>
        ensures { IfOk result (λ object. object ≡ new_object storage address size) }
    {
        let bytes = vec![in alloc; 0; size as usize]?;
        let tags = vec![in alloc; Tag::Untagged; (size / 8) as usize]?;
        Ok(Object {
            storage,
            address,
            size,
            is_live: true,
            bytes,
            tags,
        })
    }

    /// Its storage duration.
    pub fn storage(&self) -> Storage
        ensures { result ≡ self.now.storage }
    {
        self.storage
    }

    /// The address of its first byte.
    pub fn address(&self) -> u64
        ensures { result ≡ self.now.address }
    {
        self.address
    }

    /// The number of its bytes, also once it is dead.
    pub fn size(&self) -> u64
        ensures { result ≡ self.now.size }
    {
        self.size
    }

    /// Whether it has not died.
    pub fn is_live(&self) -> bool
        ensures { result ≡ self.now.is_live }
    {
        self.is_live
    }

    /// Its bytes, none once it is dead.
    pub fn bytes(&self) -> &[u8]
        ensures { result.now ≡ self.now.bytes }
    {
        &self.bytes
    }

    /// Whether it is live and has so many bytes from an offset on.
    #[tactic(auto, unfolding(crate::specs::Kept::has_bytes))]
    pub fn has_bytes(&self, offset: u64, size: u64) -> bool
        ensures { result ≡ has_bytes offset size self.now }
    {
        let count = self.bytes.len() as u64;
        self.is_live && offset <= count && size <= count - offset
    }

    /// It dies, and lets go what it held.
    #[tactic(auto, unfolding(crate::specs::Kept::buried))]
    pub fn bury(&mut self, alloc: Global)
        ensures { self.new ≡ buried self.old }
    {
        self.is_live = false;
        self.bytes = Vec::new(alloc);
        self.tags = Vec::new(alloc);
    }

    // The tag of the word at an offset, none where none begins there.
    fn tag_at(&self, offset: u64) -> Tag
        ensures { result ≡ (if is_aligned offset then get_or self.now.tags (offset / 8) Untagged else Untagged) }
    {
        if offset % 8 != 0 {
            return Tag::Untagged;
        }
        match self.tags.get((offset / 8) as usize) {
            Some(tag) => *tag,
            None => Tag::Untagged,
        }
    }

    // The scalar at an offset.
    #[tactic(auto, unfolding(crate::specs::Kept::read_in, obj_memory::specs::Access::read_value))]
    fn scalar_at(&self, scalar: Scalar, offset: u64) -> Value
        requires { offset + scalar_size scalar ≤ length self.now.bytes }
        ensures { result ≡ read_in scalar offset self.now }
    {
        let word = number(&self.bytes, offset, scalar.size());
        match scalar {
            Scalar::Integer(of) => Value {
                word: of.fit(word),
                tag: Tag::Untagged,
            },
            Scalar::Pointer => Value {
                word,
                tag: self.tag_at(offset),
            },
        }
    }

    /// The scalar at an offset, where it is live and has the bytes.
    #[tactic(auto, using(crate::proofs::Insides::bytes_inside), unfolding(crate::specs::Kept::found_in))]
    pub fn read(&self, scalar: Scalar, offset: u64) -> Option<Value>
        ensures { result ≡ found_in scalar offset self.now }
    {
        if self.has_bytes(offset, scalar.size()) {
            Some(self.scalar_at(scalar, offset))
        } else {
            None
        }
    }

    // The tag of the word at an offset, where a word begins there.
    fn put_tag(&mut self, offset: u64, tag: Tag)
        ensures { self.new ≡ with_tag offset tag self.old }
    {
        let word = (offset / 8) as usize;
        if offset % 8 == 0 && word < self.tags.len() {
            self.tags[word] = tag;
        }
    }

    // A scalar is put at an offset.
    #[tactic(auto, unfolding(crate::specs::Kept::written_in))]
    fn put_scalar(&mut self, scalar: Scalar, offset: u64, value: Value)
        requires { offset + scalar_size scalar ≤ length self.old.bytes }
        ensures { self.new ≡ written_in scalar value offset self.old }
    {
        put_word(&mut self.bytes, offset, scalar.size(), value.word);
        if let Scalar::Pointer = scalar {
            self.put_tag(offset, value.tag);
        }
    }

    /// A scalar is written at an offset, where it is live and has the bytes.
    #[tactic(auto, using(crate::proofs::Insides::bytes_inside))]
    pub fn write(&mut self, scalar: Scalar, offset: u64, value: Value) -> bool
        ensures there { result ≡ has_bytes offset (scalar_size scalar) self.old }
        ensures value { self.new ≡ (if result then written_in scalar value offset self.old else self.old) }
    {
        if !self.has_bytes(offset, scalar.size()) {
            return false;
        }
        self.put_scalar(scalar, offset, value);
        true
    }

    /// So many bytes from an offset on, where it is live and has them.
    #[tactic(auto, using(crate::proofs::Insides::bytes_inside))]
    pub fn bytes_from(&self, offset: u64, size: u64) -> Option<&[u8]>
        ensures some { IfSome result (λ f. f.now ≡ take size (drop offset self.now.bytes)) }
        ensures there { IfSome result (λ f. has_bytes offset size self.now ≡ true) }
        ensures none { IfNone result (has_bytes offset size self.now ≡ false) }
    {
        if !self.has_bytes(offset, size) {
            return None;
        }
        let all = self.bytes();
        let found = &all[offset as usize..];
        Some(&found[..size as usize])
    }

    /// Bytes are put from an offset on, where it is live and has so many; the tags stay.
    #[tactic(auto, using(crate::proofs::Insides::bytes_inside))]
    pub fn put_bytes(&mut self, offset: u64, bytes: &[u8]) -> bool
        ensures there { result ≡ has_bytes offset (length bytes.now) self.old }
        ensures value { self.new ≡ (if result then with_bytes offset bytes.now self.old else self.old) }
    {
        if !self.has_bytes(offset, bytes.len() as u64) {
            return false;
        }
        put_at(&mut self.bytes, offset, bytes);
        true
    }

    /// Whether it is live and has so many bytes from an offset on, with the tags of the whole words among them.
    #[tactic(auto, using(crate::proofs::Insides::bytes_inside), unfolding(crate::specs::Kept::has_range))]
    pub fn has_range(&self, offset: u64, size: u64) -> bool
        ensures { result ≡ has_range offset size self.now }
    {
        self.has_bytes(offset, size) && (offset + size) / 8 <= self.tags.len() as u64
    }

    // Some bytes of another object, with the tags of their whole words, become those from an offset on.
    #[tactic(auto, unfolding(source_meaning::specs::Structures::moved_into))]
    fn put_range(&mut self, size: u64, start: u64, source: u64, from: &Object)
        requires inside { start + size ≤ length self.old.bytes }
        requires tags { (start + size) / 8 ≤ length self.old.tags }
        requires there { source + size ≤ length from.now.bytes }
        requires other_tags { (source + size) / 8 ≤ length from.now.tags }
        ensures { self.new ≡ moved_into size start source from.now self.old }
    {
        let begin = source as usize;
        put_at(
            &mut self.bytes,
            start,
            &from.bytes[begin..][..size as usize],
        );
        if start % 8 == source % 8 {
            move_tags(&mut self.tags, size, start, source, &from.tags);
        }
    }

    /// Some bytes of another object, from an offset `source` there, become those from an offset on, with the tags of
    /// their whole words where both offsets are equal modulo 8; nothing does where one of them has no such bytes.
    #[tactic(auto, using(crate::proofs::Insides::range_inside, crate::proofs::Insides::range_tags))]
    pub fn move_in(&mut self, size: u64, start: u64, source: u64, from: &Object) -> bool
        ensures there { result ≡ (has_range start size self.old && has_range source size from.now) }
        ensures value { self.new ≡ (if result then moved_into size start source from.now self.old else self.old) }
    {
        if !self.has_range(start, size) || !from.has_range(source, size) {
            return false;
        }
        self.put_range(size, start, source, from);
        true
    }

    /// The words from that of an offset on, up to the end of a range of bytes.
    #[tactic(auto, unfolding(crate::specs::Kept::part_of))]
    pub fn part(&self, alloc: Global, offset: u64, size: u64) -> Result<Object, AllocError>
        requires inside { offset + size ≤ length self.now.bytes }
        requires tags { (offset + size) / 8 ≤ length self.now.tags }
        ensures { IfOk result (λ o. o ≡ part_of offset size self.now) }
    {
        let first = (offset - offset % 8) as usize;
        let bytes = &self.bytes[first..];
        let count = (offset % 8 + size) as usize;
        let bytes = Vec::from_slice(alloc, &bytes[..count])?;
        let tags = &self.tags[(offset / 8) as usize..];
        let tags = Vec::from_slice(alloc, &tags[..count / 8])?;
        Ok(Object {
            storage: self.storage,
            address: self.address,
            size: self.size,
            is_live: self.is_live,
            bytes,
            tags,
        })
    }

    /// So many bytes from an offset on, as contents of their own, where it is live and has them.
    #[tactic(auto, using(crate::proofs::Contents::contents_by))]
    pub fn contents(
        &self,
        alloc: Global,
        size: u64,
        source: u64,
    ) -> Result<Option<Object>, AllocError>
        ensures { IfOk result (λ found. found ≡ (if has_range source size self.now
            then Some (contents_of size source self.now) else None)) }
    {
        if !self.has_range(source, size) {
            return Ok(None);
        }
        let mut contents = Object::new(alloc, Storage::Automatic, 0, size)?;
        contents.move_in(size, 0, source, self);
        Ok(Some(contents))
    }

    /// Its bytes become zero, and its words lose their tags.
    #[tactic(auto, unfolding(crate::specs::Kept::zeroed))]
    pub fn clear(&mut self, alloc: Global) -> Result<(), AllocError>
        ensures zero { OnOk result (self.new ≡ zeroed self.old) }
        ensures same { OnErr result (self.new ≡ self.old) }
    {
        let bytes = vec![in alloc; 0; self.size as usize]?;
        let tags = vec![in alloc; Tag::Untagged; (self.size / 8) as usize]?;
        self.bytes = bytes;
        self.tags = tags;
        Ok(())
    }
}
