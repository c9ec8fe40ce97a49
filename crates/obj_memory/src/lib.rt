//! Objects, pointer tags, the judgement of accesses, and the arithmetic of integer types.
//!
//! The functions compute types, operators, judgements and pointers. What it means to make an object, to
//! read, write and move its bytes and tags, and to place a block of the heap is defined in `specs/`
//! alone, and `laws` says what follows from it.
#![tactic(auto)]

pub mod int_type;
pub mod judgement;
pub mod laws;
pub mod object;
pub mod operator;
pub mod value;

pub use int_type::IntType;
pub use judgement::{Verdict, judge, named};
pub use object::{Object, Storage};
pub use operator::{BinaryOperator, UnaryOperator};
pub use value::{Bounds, Place, Scalar, Tag, Value};
