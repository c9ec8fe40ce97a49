//! The entries with which a run begins, and how they are put into bytes.

ghost use Rattle.std.specs.Prelude.{◌≡◌, ◌+◌, ◌≤◌, length};
ghost use Rattle.shadow_space.specs.Start.{metadata_of, with_word, with_entry};

// The first address of object space, and that of the shadow space.
pub(crate) const OBJECTS: u64 = 0x1000_0000;

pub(crate) const SHADOW: u64 = 0x4000_0000;

/// The entry of a word of static objects, when a run begins.
#[derive(Clone, Copy)]
pub struct StartEntry {
    /// The address of the word.
    pub at: u64,
    /// The first address that the pointer there may access.
    pub base: u64,
    /// One past the last.
    pub bound: u64,
    /// The key of the object.
    pub key: u64,
    /// The address of the lock word.
    pub lock: u64,
}

/// Puts a word at an offset, little endian.
pub fn put_word(bytes: &mut Vec<u8>, offset: usize, word: u64)
    requires inside { offset + 8 ≤ length bytes.old.items }
    ensures value { bytes.new.items ≡ with_word offset word bytes.old.items }
    ensures size { length bytes.new.items ≡ length bytes.old.items }
{
    bytes[offset..offset + 8].copy_from_slice(&word.to_le_bytes());
}

/// Puts the four words of an entry from an offset on.
pub fn put_entry(bytes: &mut Vec<u8>, offset: usize, entry: &StartEntry)
    requires inside { offset + 32 ≤ length bytes.old.items }
    ensures value { bytes.new.items ≡ with_entry offset (metadata_of entry.now) bytes.old.items }
    ensures size { length bytes.new.items ≡ length bytes.old.items }
{
    put_word(bytes, offset, entry.base);
    put_word(bytes, offset + 8, entry.bound);
    put_word(bytes, offset + 16, entry.key);
    put_word(bytes, offset + 24, entry.lock);
}
