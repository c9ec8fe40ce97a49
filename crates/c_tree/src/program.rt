//! Typed programs (C99 6.9).

use crate::c_type::CType;
use crate::expression::Kind;
use crate::layout::Extent;
use crate::statement::{Part, Statement};
use sb_base::Line;
use tree_containers::Items;

/// A parameter or automatic variable of a function.
#[derive(Clone, Copy, Debug, PartialEq, Eq)]
pub struct Variable {
    /// What it holds.
    pub kind: Kind,
    /// Whether it is an object: its address is taken, or it is an array, a structure or a union.
    pub is_object: bool,
}

/// A type of functions (C99 6.7.5.3).
#[derive(Drop)]
pub struct FunctionType {
    /// The type itself.
    pub c_type: CType,
    /// What its parameters hold, arrays and functions adjusted to pointers.
    pub parameters: Items<Kind>,
    /// What its functions give.
    pub result: Kind,
}

/// A function that the source defines.
#[derive(Drop)]
pub struct Function {
    /// The line of its name in its definition.
    pub line: Line,
    /// The number of its type among the function types of the program.
    pub type_number: usize,
    /// Its parameters, which have the first numbers of its variables.
    pub parameters: Items<Variable>,
    /// Its automatic variables in order of declaration, which have the next numbers.
    pub variables: Items<Variable>,
    /// The statements and declarations of its block.
    pub body: Items<Statement>,
    /// The bytes of the budget `calls` that a call of it takes.
    pub room: u64,
}

/// A static object: a variable at file scope, a static one in a block, or a string literal.
#[derive(Drop)]
pub struct StaticObject {
    /// What it holds.
    pub kind: Kind,
    /// Whether it is a string literal, which has no name.
    pub is_literal: bool,
    /// The number of the function in whose block it stands, where it stands in one.
    pub function: Option<usize>,
    /// Its initializer.
    pub parts: Items<Part>,
}

/// A program.
#[derive(Drop)]
pub struct Program {
    /// The sizes and alignments of the structures and unions, by number, where they are complete.
    pub structures: Items<Option<Extent>>,
    /// The static objects in the order in which their names or their tokens stand.
    pub statics: Items<StaticObject>,
    /// The types of functions, all different.
    pub function_types: Items<FunctionType>,
    /// The functions in the order of their definitions.
    pub functions: Items<Function>,
    /// The number of `main`.
    pub main: usize,
}
