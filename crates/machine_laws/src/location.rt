//! Where a value is kept on the machine.

/// Where a value is kept.
#[derive(Clone, Copy)]
pub enum Location {
    /// In the machine's register with this number.
    Register(u32),
    /// In the word of the activation record so many bytes behind its first address.
    Frame(u64),
}
