//! Typed statements and initializers (C99 6.7.8, 6.8).

use crate::expression::Expression;
use sb_base::Line;
use tree_containers::{Boxed, Items};

/// A part of an initializer (6.7.8): what stands from an offset on in the object. Typing removes a part that a later
/// one overrides (6.7.8 paragraph 19).
#[derive(Drop)]
pub struct Part {
    pub offset: u64,
    pub content: Content,
}

/// What a part of an initializer stores.
#[derive(Drop)]
pub enum Content {
    /// A scalar, or a structure or union that is moved.
    Value(Expression),
    /// The bytes of a string literal that fills an array, its final 0 too where it fits.
    Literal(Items<u8>),
}

/// The initializer of a variable.
#[derive(Drop)]
pub enum Initializer {
    /// Of a plain variable.
    Plain(Expression),
    /// Of an automatic object: all its bytes become zero, then the parts are stored in their order.
    Object(Items<Part>),
}

/// A variable that a declaration declares, by its number in the function (6.7).
#[derive(Drop)]
pub struct DeclaredVariable {
    /// Its number in the function.
    pub variable: usize,
    /// Its initializer, where it has one.
    pub initializer: Option<Initializer>,
}

/// The first part of a `for` (6.8.5.3).
#[derive(Drop)]
pub enum First {
    Nothing,
    Expression(Expression),
    Declaration(Items<DeclaredVariable>),
}

/// A label of a switch (6.8.1).
#[derive(Clone, Copy, Debug, PartialEq, Eq)]
pub enum CaseLabel {
    /// `case K:`, the word of K in the type of the value of the switch.
    Case(u64),
    /// `default:`
    Default,
}

/// A statement (C99 6.8).
#[derive(Drop)]
#[cycle(statement)]
pub enum Statement {
    /// `E;`
    Expression(Expression),
    /// `;`
    Empty,
    /// A declaration in a block: all its automatic variables in order. It counts as no statement.
    Declaration(Items<DeclaredVariable>),
    /// `{ .. }`, with the line of its `{`.
    Block(Line, Items<Statement>),
    /// `if (E) S`
    If(Expression, Boxed<Statement>),
    /// `if (E) S else S`
    IfElse(Expression, Boxed<Statement>, Boxed<Statement>),
    /// `while (E) S`
    While(Expression, Boxed<Statement>),
    /// `do S while (E);`
    DoWhile(Boxed<Statement>, Expression),
    /// `for (..; E; E) S`: the line of the word, the first part, the condition, the step and the body.
    For(Line, First, Option<Expression>, Option<Expression>, Boxed<Statement>),
    /// `switch (E) { .. }`: the value, the line of `{`, and the items of its block.
    Switch(Expression, Line, Items<SwitchItem>),
    /// `break;`
    Break,
    /// `continue;`
    Continue,
    /// `return;` and `return E;`
    Return(Option<Expression>),
}

/// An item of the block of a switch, with the labels before it.
#[derive(Drop)]
#[cycle(statement)]
pub struct SwitchItem {
    pub labels: Items<CaseLabel>,
    pub statement: Statement,
}
