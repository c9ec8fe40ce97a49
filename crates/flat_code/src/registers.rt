//! Virtual registers that go together.

/// The registers that hold a shadow entry: the metadata of a pointer.
#[derive(Clone, Copy)]
pub struct Entry {
    /// The first address that the pointer may access.
    pub base: u32,
    /// One past the last.
    pub bound: u32,
    /// The key of the object.
    pub key: u32,
    /// The address of the lock word.
    pub lock: u32,
}

/// The registers that hold a value and its metadata.
#[derive(Clone, Copy)]
pub struct Held {
    pub value: u32,
    pub tag: Entry,
}
