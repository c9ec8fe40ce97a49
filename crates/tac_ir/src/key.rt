//! Keys of checks: what a judged pointer is over the values of plain variables and the places of named objects.

use std::alloc::Global;
use tree_containers::Items;

/// What a key begins with.
#[derive(Clone, Copy, Debug, PartialEq, Eq)]
pub enum Base {
    /// The value of a plain variable, by its number in the function.
    Plain(usize),
    /// The pointer to an automatic object, by the number of its variable in the function.
    Automatic(usize),
    /// The pointer to a static object, by its number.
    Static(usize),
}

/// A plain integer variable times a number of bytes.
#[derive(Clone, Copy, Debug, PartialEq, Eq)]
pub struct Scaled {
    /// Its number in the function.
    pub variable: usize,
    /// The bytes of an element.
    pub size: u64,
}

/// A member that a key is narrowed to.
#[derive(Clone, Copy, Debug, PartialEq, Eq)]
pub struct Member {
    /// The bytes from the base to it, modulo 2^64.
    pub constant: u64,
    /// The scaled variable that is added to them.
    pub scaled: Option<Scaled>,
    /// Its bytes.
    pub size: u64,
}

/// A key: the base, the members that its bounds are narrowed to, from the last to the first, and what is added to the
/// address of the base: a constant modulo 2^64, and at most one scaled variable.
#[derive(Drop)]
pub struct Key {
    pub base: Base,
    pub path: Items<Member>,
    pub constant: u64,
    pub scaled: Option<Scaled>,
}
