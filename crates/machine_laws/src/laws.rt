//! Laws, a module a subject.

pub mod blocks;
pub mod calls;
pub mod following;
pub mod layout;
pub mod segments;
pub mod view;
