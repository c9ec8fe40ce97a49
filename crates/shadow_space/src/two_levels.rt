//! The form of the shadow space in two levels: a word for each page of object space, and tables of entries that are
//! taken from a reserve as they are wanted.
//!
//! `specs/Tables` says where the levels stand and what always holds of them, `specs/Code` what the routines are.
//! Writing an entry that is none, and clearing, takes no table; the reserve has one for each page, so none is ever
//! wanting.

pub mod laws;
pub mod start;
pub mod two_level;

pub use crate::two_levels::two_level::TwoLevel;
