//! Trees of declarations and initializers (C99 6.7, 6.7.8).

use crate::position::{Position, Spelled};
use crate::tree::{Declarator, Expression, Specifier};
use tree_containers::{Boxed, Items};

/// A designator (C99 6.7.8).
#[derive(Drop)]
pub enum Designator<'a> {
    /// `[ expression ]`.
    Element(Position, Boxed<Expression<'a>>, Position),
    /// `.` and the name of a member.
    Member(Position, Spelled<'a>),
}

/// Designators and the `=` behind them (C99 6.7.8).
#[derive(Drop)]
pub struct Designation<'a> {
    /// The designators.
    pub designators: Items<Designator<'a>>,
    /// The `=`.
    pub equals: Position,
}

/// An expression as an initializer (C99 6.7.8).
#[derive(Drop)]
pub struct InitialValue<'a> {
    /// The expression.
    pub expression: Boxed<Expression<'a>>,
}

/// An initializer (C99 6.7.8).
#[cycle(initializers)]
#[derive(Drop)]
pub enum Initializer<'a> {
    /// An expression.
    Value(InitialValue<'a>),
    /// `{`, the first item, the others, each behind its comma, a last comma or none, and `}`.
    Braced(
        Position,
        Boxed<InitializerItem<'a>>,
        Items<(Position, InitializerItem<'a>)>,
        Option<Position>,
        Position,
    ),
}

/// An initializer in a list, and what it initializes where that is said (C99 6.7.8).
#[cycle(initializers)]
#[derive(Drop)]
pub struct InitializerItem<'a> {
    /// What it initializes.
    pub designation: Option<Designation<'a>>,
    /// The initializer.
    pub initializer: Initializer<'a>,
}

/// A declarator, and its `=` and initializer or none (C99 6.7).
#[derive(Drop)]
pub struct InitDeclarator<'a> {
    /// The declarator.
    pub declarator: Boxed<Declarator<'a>>,
    /// The `=` and the initializer.
    pub initializer: Option<(Position, Boxed<Initializer<'a>>)>,
}

/// The declarators of a declaration (C99 6.7).
#[derive(Drop)]
pub struct InitDeclarators<'a> {
    /// The first.
    pub first: InitDeclarator<'a>,
    /// The others, each behind its comma.
    pub others: Items<(Position, InitDeclarator<'a>)>,
}

/// A declaration (C99 6.7).
#[derive(Drop)]
pub struct Declaration<'a> {
    /// The specifiers.
    pub specifiers: Items<Specifier<'a>>,
    /// The declarators, if there are any.
    pub declarators: Option<Boxed<InitDeclarators<'a>>>,
    /// The semicolon.
    pub semicolon: Position,
}
