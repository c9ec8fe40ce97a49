//! The flat code of the instructions, a kind in each module.

pub mod accesses;
pub mod calls;
pub mod computed;
pub mod control;
pub mod derived;
pub mod made;
pub mod names;
pub mod objects;
pub mod plain;
