//! Trees of expressions, declarators and specifiers, which contain each other (C99 6.5, 6.7). A node has the positions
//! of its own tokens in the order of the text; what its variant fixes is not kept.

use crate::position::{Position, Spelled};
use c_lexer::{Keyword, Punctuator};
use tree_containers::{Boxed, Items};

/// An expression (C99 6.5, without compound literals).
#[cycle(trees)]
#[derive(Drop)]
pub enum Expression<'a> {
    /// An identifier (6.5.1).
    Identifier(Spelled<'a>),
    /// An integer constant (6.5.1).
    Integer(Spelled<'a>),
    /// A character constant (6.5.1).
    Character(Spelled<'a>),
    /// String literals that stand side by side (6.5.1, 5.1.1.2 phase 6): the first and the others.
    Strings(Spelled<'a>, Items<Spelled<'a>>),
    /// `( expression )` (6.5.1).
    Parenthesized(Position, Boxed<Expression<'a>>, Position),
    /// `expression [ expression ]` (6.5.2.1).
    Subscript(Boxed<Expression<'a>>, Position, Boxed<Expression<'a>>, Position),
    /// `expression ( arguments )` (6.5.2.2).
    Call(Boxed<Expression<'a>>, Position, Arguments<'a>, Position),
    /// An expression, `.` or `->`, and the name of a member (6.5.2.3).
    Member(Boxed<Expression<'a>>, Punctuator, Position, Spelled<'a>),
    /// An expression and `++` or `--` (6.5.2.4).
    Postfix(Boxed<Expression<'a>>, Punctuator, Position),
    /// `++`, `--` or a unary operator, and its operand (6.5.3.1 to 6.5.3.3).
    Unary(Punctuator, Position, Boxed<Expression<'a>>),
    /// `sizeof expression` (6.5.3.4).
    SizeofExpression(Position, Boxed<Expression<'a>>),
    /// `sizeof ( type-name )` (6.5.3.4).
    SizeofType(Position, Position, Boxed<TypedDeclarator<'a>>, Position),
    /// `( type-name ) expression` (6.5.4).
    Cast(Position, Boxed<TypedDeclarator<'a>>, Position, Boxed<Expression<'a>>),
    /// Two operands around an operator from `*` to `||`, or around the comma (6.5.5 to 6.5.14, 6.5.17).
    Binary(Boxed<Expression<'a>>, Punctuator, Position, Boxed<Expression<'a>>),
    /// `expression ? expression : expression` (6.5.15).
    Conditional(
        Boxed<Expression<'a>>,
        Position,
        Boxed<Expression<'a>>,
        Position,
        Boxed<Expression<'a>>,
    ),
    /// Two operands around an assignment operator (6.5.16).
    Assignment(Boxed<Expression<'a>>, Punctuator, Position, Boxed<Expression<'a>>),
}

/// The arguments of a call (C99 6.5.2.2).
#[cycle(trees)]
#[derive(Drop)]
pub enum Arguments<'a> {
    /// None.
    Empty,
    /// The first, and the others, each behind its comma.
    Given(Boxed<Expression<'a>>, Items<(Position, Boxed<Expression<'a>>)>),
}

/// Specifiers and one declarator: a type name (C99 6.7.6), whose declarator has no name, or a parameter (6.7.5).
#[cycle(trees)]
#[derive(Drop)]
pub struct TypedDeclarator<'a> {
    /// The specifiers.
    pub specifiers: Items<Specifier<'a>>,
    /// The declarator.
    pub declarator: Boxed<Declarator<'a>>,
}

/// A declarator (C99 6.7.5), or an abstract one (6.7.6), which has no name.
#[cycle(trees)]
#[derive(Drop)]
pub enum Declarator<'a> {
    /// Its name.
    Named(Spelled<'a>),
    /// The position of the name that an abstract declarator does not have: no token.
    Unnamed,
    /// `*`, the words `const` behind it, and the declarator of the pointer (6.7.5.1).
    Pointer(Position, Items<Position>, Boxed<Declarator<'a>>),
    /// `( declarator )`.
    Parenthesized(Position, Boxed<Declarator<'a>>, Position),
    /// `declarator [ ]` (6.7.5.2).
    OpenArray(Boxed<Declarator<'a>>, Position, Position),
    /// `declarator [ size ]` (6.7.5.2).
    Array(Boxed<Declarator<'a>>, Position, Boxed<Expression<'a>>, Position),
    /// `declarator ( parameters )` (6.7.5.3).
    Function(Boxed<Declarator<'a>>, Position, Parameters<'a>, Position),
}

/// What stands between the parentheses of a function declarator (C99 6.7.5.3).
#[cycle(trees)]
#[derive(Drop)]
pub enum Parameters<'a> {
    /// Nothing.
    Empty,
    /// The word `void` alone.
    Void(Position),
    /// The first parameter, and the others, each behind its comma.
    Given(Boxed<TypedDeclarator<'a>>, Items<(Position, TypedDeclarator<'a>)>),
}

/// A word of the specifiers of a declaration (C99 6.7.1 to 6.7.4), or a structure, union or enumeration.
#[cycle(trees)]
#[derive(Drop)]
pub enum Specifier<'a> {
    /// A keyword by itself.
    Keyword(Keyword, Position),
    /// A typedef name (6.7.7).
    TypedefName(Spelled<'a>),
    /// `struct` or `union`, and a tag (6.7.2.1).
    Structure(Keyword, Position, Spelled<'a>),
    /// `struct` or `union`, a tag or none, and `{ members }` (6.7.2.1).
    StructureBody(Keyword, Position, Option<Spelled<'a>>, Position, Items<Member<'a>>, Position),
    /// `enum` and a tag (6.7.2.2).
    Enumeration(Position, Spelled<'a>),
    /// `enum`, a tag or none, `{`, the first enumerator, the others, each behind its comma, a last comma or none, and
    /// `}` (6.7.2.2).
    EnumerationBody(
        Position,
        Option<Spelled<'a>>,
        Position,
        Boxed<Enumerator<'a>>,
        Items<(Position, Enumerator<'a>)>,
        Option<Position>,
        Position,
    ),
}

/// A declaration of members (C99 6.7.2.1).
#[cycle(trees)]
#[derive(Drop)]
pub struct Member<'a> {
    /// The specifiers.
    pub specifiers: Items<Specifier<'a>>,
    /// The first declarator.
    pub first: Boxed<Declarator<'a>>,
    /// The others, each behind its comma.
    pub others: Items<(Position, Boxed<Declarator<'a>>)>,
    /// The semicolon.
    pub semicolon: Position,
}

/// An enumerator (C99 6.7.2.2).
#[cycle(trees)]
#[derive(Drop)]
pub enum Enumerator<'a> {
    /// Its name alone.
    Plain(Spelled<'a>),
    /// Its name, `=`, and its value.
    Valued(Spelled<'a>, Position, Boxed<Expression<'a>>),
}
