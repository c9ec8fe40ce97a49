//! Objects (C99 3.14).

ghost use Rattle.std.specs.Prelude.{◌≡◌, IfOk, false};

use crate::value::Tag;
use std::alloc::{AllocError, Global};
use std::marker::Model;

/// The storage duration of an object (C99 6.2.4, and 7.20.3 of allocated objects).
#[derive(Clone, Copy, PartialEq, Eq)]
pub enum Storage {
    /// As long as the program runs.
    Static,
    /// As long as a call runs.
    Automatic,
    /// From `malloc` to `free`.
    Allocated,
}

/// An object: its bytes, and a tag for each of its words, which are the 8 bytes from each multiple of 8 on that lie
/// wholly in it.
#[derive(Drop)]
pub struct Object {
    storage: Storage,
    address: u64,
    size: u64,
    is_live: bool,
    bytes: Vec<u8>,
    tags: Vec<Tag>,
}

impl Model for Object {
    ghost use Rattle.obj_memory.specs.Objects.{ObjectState};

    ghost Value = { ObjectState };

    ghost view = { λ o. record {
      storage = o.storage;
      address = o.address;
      size = o.size;
      is_live = o.is_live;
      bytes = o.bytes.items;
      tags = o.tags.items;
    } };
}

impl Object {
    ghost use Rattle.obj_memory.specs.Objects.{new_object};

    /// A new object of so many bytes at an address: zero bytes, and no tags.
    #[tactic(auto, unfolding(crate::specs::Objects::new_object))]
    pub fn new(
        alloc: Global,
        storage: Storage,
        address: u64,
        size: u64,
    ) -> Result<Object, AllocError>
        ensures { IfOk result (λ object. object ≡ new_object storage address size) }
    {
        let bytes = vec![in alloc; 0; size as usize]?;
        let tags = vec![in alloc; Tag::Untagged; (size / 8) as usize]?;
        Ok(Object {
            storage,
            address,
            size,
            is_live: true,
            bytes,
            tags,
        })
    }

    /// Its storage duration.
    pub fn storage(&self) -> Storage
        ensures { result ≡ self.now.storage }
    {
        self.storage
    }

    /// The address of its first byte.
    pub fn address(&self) -> u64
        ensures { result ≡ self.now.address }
    {
        self.address
    }

    /// The number of its bytes.
    pub fn size(&self) -> u64
        ensures { result ≡ self.now.size }
    {
        self.size
    }

    /// Whether it has not died.
    pub fn is_live(&self) -> bool
        ensures { result ≡ self.now.is_live }
    {
        self.is_live
    }

    /// Its bytes.
    pub fn bytes(&self) -> &[u8]
        ensures { result.now ≡ self.now.bytes }
    {
        &self.bytes
    }

    /// The tags of its words.
    pub fn tags(&self) -> &[Tag]
        ensures { result.now ≡ self.now.tags }
    {
        &self.tags
    }

    /// It dies, and keeps its address, bytes and tags.
    pub fn kill(&mut self)
        ensures { self.new ≡ record self.old { is_live = false } }
    {
        self.is_live = false;
    }
}
