//! C types and their layout, and the typed tree of a program.
#![tactic(auto)]

pub mod c_type;
pub mod expression;
pub mod format;
pub mod laws;
pub mod layout;
pub mod member;
pub mod program;
pub mod routines;
pub mod same_type;
pub mod statement;

pub use crate::c_type::{CType, TypeWord};
pub use crate::expression::{
    Expression, Fixity, Kind, Lvalue, LvalueNode, Node, OffsetForm, PlainName, Routine, Update,
};
pub use crate::format::{Directive, Piece};
pub use crate::layout::{Extent, MAX_SIZE, array_size, member_offsets, structure_of, union_of};
pub use crate::member::Member;
pub use crate::program::{Function, FunctionType, Program, StaticObject, Variable};
pub use crate::routines::routine_type;
pub use crate::same_type::same_words;
pub use crate::statement::{
    CaseLabel, Content, DeclaredVariable, First, Initializer, Part, Statement, SwitchItem,
};
