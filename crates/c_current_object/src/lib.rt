//! Which subobject each initializer of a list in braces is for (C99 6.7.8): the parts of objects, the designators
//! that name them, the current object, and the elision of braces. Nothing here looks at a name's scope or at the
//! syntax.
#![tactic(auto)]

pub mod current;
pub mod filler;
pub mod members;
pub mod subobject;

pub use crate::current::{CurrentObject, Open};
pub use crate::filler::{Filler, is_character_array};
pub use crate::subobject::{Step, Subobject};
