//! The keys of accesses: what the pointer of an access is over plain variables and the places of named objects.

pub mod assigned;
pub mod key;
pub mod variable;

pub use crate::keys::key::{read_key, write_key};
