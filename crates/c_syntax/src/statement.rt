//! Trees of statements and of whole files (C99 6.8, 6.9). Their large parts stand in blocks of memory of their own,
//! since what hands a tree on, and its proof, pay for the size of the tree itself.

ghost use Rattle.std.specs.Prelude.{◌≡◌};
ghost use Rattle.c_syntax.specs.Formed as formed;
ghost use Rattle.c_syntax.specs.StatementsView as views;

use crate::declaration::Declaration;
use crate::position::Position;
use crate::tree::{Declarator, Expression, Specifier};
use tree_containers::{Boxed, Items};

/// `{ items }` (C99 6.8.2).
#[cycle(statements)]
#[derive(Drop)]
pub struct Block<'a> {
    /// The `{`.
    pub left: Position,
    /// The declarations and statements.
    pub items: Items<BlockItem<'a>>,
    /// The `}`.
    pub right: Position,
}

/// A declaration or statement of a block (C99 6.8.2).
#[cycle(statements)]
#[derive(Drop)]
pub enum BlockItem<'a> {
    /// A declaration.
    Declaration(Declaration<'a>),
    /// A statement.
    Statement(Boxed<Statement<'a>>),
}

/// The first part of the head of a `for` (C99 6.8.5.3).
#[derive(Drop)]
pub enum ForInit<'a> {
    /// A declaration, which has its semicolon.
    Declaration(Declaration<'a>),
    /// An expression or none, and the semicolon.
    Expression(Option<Boxed<Expression<'a>>>, Position),
}

/// An expression in parentheses (C99 6.8.4, 6.8.5).
#[derive(Drop)]
pub struct Parenthesized<'a> {
    /// The `(`.
    pub left: Position,
    /// The expression.
    pub inner: Boxed<Expression<'a>>,
    /// The `)`.
    pub right: Position,
}

/// What stands behind the body of a `do` (C99 6.8.5.2).
#[derive(Drop)]
pub struct DoEnd<'a> {
    /// The `while`.
    pub again: Position,
    /// The condition.
    pub condition: Parenthesized<'a>,
    /// The `;`.
    pub semicolon: Position,
}

/// What stands between `for` and its body (C99 6.8.5.3).
#[derive(Drop)]
pub struct ForHead<'a> {
    /// The `(`.
    pub left: Position,
    /// The first part, with its semicolon.
    pub init: ForInit<'a>,
    /// The condition.
    pub condition: Option<Boxed<Expression<'a>>>,
    /// The second semicolon.
    pub semicolon: Position,
    /// What each turn ends with.
    pub step: Option<Boxed<Expression<'a>>>,
    /// The `)`.
    pub right: Position,
}

/// `case expression :` (C99 6.8.1).
#[derive(Drop)]
pub struct CaseLabel<'a> {
    /// The `case`.
    pub position: Position,
    /// The expression.
    pub value: Boxed<Expression<'a>>,
    /// The `:`.
    pub colon: Position,
}

/// A statement (C99 6.8, without `goto` and its labels).
#[cycle(statements)]
#[derive(Drop)]
pub enum Statement<'a> {
    /// A block (6.8.2).
    Block(Block<'a>),
    /// An expression or none, and `;` (6.8.3).
    Expression(Option<Boxed<Expression<'a>>>, Position),
    /// `if ( expression ) statement` (6.8.4.1).
    If(Position, Parenthesized<'a>, Boxed<Statement<'a>>),
    /// `if ( expression ) statement else statement` (6.8.4.1).
    IfElse(Position, Parenthesized<'a>, Boxed<Statement<'a>>, Position, Boxed<Statement<'a>>),
    /// `switch ( expression ) block` (6.8.4.2).
    Switch(Position, Parenthesized<'a>, Block<'a>),
    /// `while ( expression ) statement` (6.8.5.1).
    While(Position, Parenthesized<'a>, Boxed<Statement<'a>>),
    /// `do statement while ( expression ) ;` (6.8.5.2).
    Do(Position, Boxed<Statement<'a>>, DoEnd<'a>),
    /// `for ( first condition ; step ) statement` (6.8.5.3).
    For(Position, ForHead<'a>, Boxed<Statement<'a>>),
    /// `case expression : statement` (6.8.1).
    Case(CaseLabel<'a>, Boxed<Statement<'a>>),
    /// `default : statement` (6.8.1).
    Default(Position, Position, Boxed<Statement<'a>>),
    /// `break ;` (6.8.6.3).
    Break(Position, Position),
    /// `continue ;` (6.8.6.2).
    Continue(Position, Position),
    /// `return`, an expression or none, and `;` (6.8.6.4).
    Return(Position, Option<Boxed<Expression<'a>>>, Position),
}

/// A function definition or a declaration at file scope (C99 6.9).
#[derive(Drop)]
pub enum External<'a> {
    /// The specifiers, the declarator and the block of a function (6.9.1).
    Function(Items<Specifier<'a>>, Boxed<Declarator<'a>>, Block<'a>),
    /// A declaration (6.7).
    Declaration(Declaration<'a>),
}

/// A file: its function definitions and declarations (C99 6.9).
#[derive(Drop)]
pub struct Unit<'a> {
    /// These in order.
    pub externals: Items<External<'a>>,
}

/// Whether a statement ends with an `if` that an `else` could follow (C99 6.8.4.1).
pub fn ends_open(statement: &Statement) -> bool
    ensures { result ≡ formed.ends_open (views.statement_of statement.now) }
{
    match statement {
        Statement::If(_, _, _) => true,
        Statement::IfElse(_, _, _, _, inner)
        | Statement::While(_, _, inner)
        | Statement::For(_, _, inner)
        | Statement::Case(_, inner)
        | Statement::Default(_, _, inner) => ends_open(inner.get()),
        Statement::Block(_)
        | Statement::Expression(_, _)
        | Statement::Switch(_, _, _)
        | Statement::Do(_, _, _)
        | Statement::Break(_, _)
        | Statement::Continue(_, _)
        | Statement::Return(_, _, _) => false,
    }
}
