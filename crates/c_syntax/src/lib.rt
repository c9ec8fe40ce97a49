//! Syntax trees of the C subset, the words that a tree is written with, and which trees are well formed (C99 6.5 to
//! 6.9).
#![tactic(auto)]

pub mod declaration;
pub mod declarators;
pub mod names;
pub mod operators;
pub mod position;
pub mod specifiers;
pub mod statement;
pub mod tree;

pub use crate::declaration::{
    Declaration, Designation, Designator, InitDeclarator, InitDeclarators, InitialValue,
    Initializer, InitializerItem,
};
pub use crate::position::{Position, Positioned, Spelled, with_positions};
pub use crate::specifiers::{TypeSize, TypeWords};
pub use crate::statement::{
    Block, BlockItem, CaseLabel, DoEnd, External, ForHead, ForInit, Parenthesized, Statement, Unit,
};
pub use crate::tree::{
    Arguments, Declarator, Enumerator, Expression, Member, Parameters, Specifier, TypedDeclarator,
};
pub use tree_containers::{Boxed, Items};
