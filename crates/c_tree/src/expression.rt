//! Typed expressions (C99 6.5). The tree has the nodes of the text, each with its line, and between them what typing
//! puts in: reads of lvalues, decays of arrays, implicit conversions. Operands stand in the order of the text.

use obj_memory::{BinaryOperator, IntType, Scalar, UnaryOperator};
use sb_base::Line;
use tree_containers::{Boxed, Items};

/// What kind of value an expression gives, or of object an lvalue designates.
#[derive(Clone, Copy, Debug, PartialEq, Eq)]
pub enum Kind {
    /// No value.
    Void,
    /// An integer or a pointer.
    Scalar(Scalar),
    /// A structure or union of so many bytes.
    Structure(u64),
    /// An array of so many bytes. Only lvalues have it.
    Array(u64),
}

/// A routine of the library, `printf` apart (C99 7.19, 7.20, 7.21).
#[derive(Clone, Copy, Debug, PartialEq, Eq)]
pub enum Routine {
    Malloc,
    Calloc,
    Free,
    Realloc,
    Memcpy,
    Memmove,
    Memset,
    Memcmp,
    Strlen,
    Strcmp,
    Strcpy,
    Strncpy,
    Strcat,
    Strchr,
    Putchar,
    Getchar,
    Puts,
    Exit,
    Abort,
}

/// Where the pointer and the index stand in an addition or subtraction of both (C99 6.5.6).
#[derive(Clone, Copy, Debug, PartialEq, Eq)]
pub enum OffsetForm {
    /// `P + I`, and `P[I]`
    PointerPlusIndex,
    /// `I + P`, and `I[P]`
    IndexPlusPointer,
    /// `P - I`
    PointerMinusIndex,
}

/// How a compound assignment or an increment makes the new value of the old one and its right operand (C99 6.5.16.2).
#[derive(Clone, Copy, Debug, PartialEq, Eq)]
pub enum Update {
    /// By an operator in this type, to which the old value is converted; the new one is converted back.
    Arithmetic(BinaryOperator, IntType),
    /// A pointer moves forward by so many bytes for each one of the right operand.
    Forward(u64),
    /// A pointer moves back by so many bytes for each one of the right operand.
    Back(u64),
}

/// Whether `++` or `--` stands before its operand and gives the new value, or behind it and gives the old one (C99
/// 6.5.3.1, 6.5.2.4).
#[derive(Clone, Copy, Debug, PartialEq, Eq)]
pub enum Fixity {
    Prefix,
    Postfix,
}

/// A plain variable that is assigned: its number in the function, and the number of pairs of parentheses around its
/// name.
#[derive(Clone, Copy, Debug, PartialEq, Eq)]
pub struct PlainName {
    pub variable: usize,
    pub parentheses: u64,
}

/// An expression that gives a value, or none.
#[derive(Drop)]
#[cycle(expression)]
pub struct Expression {
    /// What it gives.
    pub kind: Kind,
    /// The line of its operator, or of its only token.
    pub line: Line,
    /// What it is.
    pub node: Node,
}

/// What an expression is. `Read`, `Decay` and `Convert` are no nodes of the text.
#[derive(Drop)]
#[cycle(expression)]
pub enum Node {
    /// An integer or character constant, the name of an enumeration constant, or `sizeof` with its operand: its word.
    Constant(u64),
    /// The name of a function, by its number: a pointer to it (6.3.2.1).
    Function(usize),
    /// The name of a plain variable, by its number in the function.
    Plain(usize),
    /// What an lvalue holds (6.3.2.1).
    Read(Boxed<Lvalue>),
    /// The pointer to the first byte of an array (6.3.2.1).
    Decay(Boxed<Lvalue>),
    /// `&L` (6.5.3.2).
    Address(Boxed<Lvalue>),
    /// `(E)` (6.5.1).
    Parenthesized(Boxed<Expression>),
    /// `*E`, where E is a pointer to a function: the function, which is that pointer again (6.5.3.2, 6.3.2.1).
    DerefFunction(Boxed<Expression>),
    /// `&E`, where E is the name of a function or `*` of a pointer to one: that pointer (6.5.3.2).
    AddressFunction(Boxed<Expression>),
    /// `(T)E`: a conversion to the kind of the node (6.5.4).
    Cast(Boxed<Expression>),
    /// An implicit conversion to the kind of the node (6.3).
    Convert(Boxed<Expression>),
    /// `+E`, `-E`, `~E` of a promoted operand, and `!E` of any scalar (6.5.3.3).
    Unary(UnaryOperator, Boxed<Expression>),
    /// An operator on integers of one type, of a shift at a promoted left operand; a comparison of two pointers too
    /// (6.5.5 to 6.5.12).
    Binary(BinaryOperator, Boxed<Expression>, Boxed<Expression>),
    /// A pointer and an index, and the bytes of an element (6.5.6). The index counts as it stands, without a
    /// conversion.
    Offset(OffsetForm, u64, Boxed<Expression>, Boxed<Expression>),
    /// `P - Q` of two pointers, and the bytes of an element (6.5.6).
    Difference(u64, Boxed<Expression>, Boxed<Expression>),
    /// `E && F` (6.5.13).
    And(Boxed<Expression>, Boxed<Expression>),
    /// `E || F` (6.5.14).
    Or(Boxed<Expression>, Boxed<Expression>),
    /// `E , F` (6.5.17).
    Comma(Boxed<Expression>, Boxed<Expression>),
    /// `C ? E : F` (6.5.15).
    Conditional(Boxed<Expression>, Boxed<Expression>, Boxed<Expression>),
    /// `L = E`, of a scalar, or of a structure or union that is moved with its tags (6.5.16.1).
    Assign(Boxed<Lvalue>, Boxed<Expression>),
    /// `x = E` of a plain variable.
    SetPlain(PlainName, Boxed<Expression>),
    /// `L op= E` (6.5.16.2).
    Compound(Update, Boxed<Lvalue>, Boxed<Expression>),
    /// `x op= E` of a plain variable.
    ChangePlain(Update, PlainName, Boxed<Expression>),
    /// `++` or `--` of an lvalue: the update by 1 (6.5.2.4, 6.5.3.1).
    Step(Update, Fixity, Boxed<Lvalue>),
    /// `++` or `--` of a plain variable.
    StepPlain(Update, Fixity, PlainName),
    /// `f(E, ..)` with the plain name of a function of the source, by its number (6.5.2.2).
    Call(usize, Items<Expression>),
    /// A call through a pointer to a function of the type with this number.
    CallThrough(usize, Boxed<Expression>, Items<Expression>),
    /// A call of a library routine.
    Library(Routine, Items<Expression>),
    /// A call of `printf`: the bytes of its format, and the arguments behind it (7.19.6.1).
    Printf(Items<u8>, Items<Expression>),
}

/// An lvalue (C99 6.3.2.1) that designates an object or a part of one.
#[derive(Drop)]
#[cycle(expression)]
pub struct Lvalue {
    /// What it designates.
    pub kind: Kind,
    /// The line of its outermost operator, parentheses aside, or of its name.
    pub line: Line,
    /// What it is.
    pub node: LvalueNode,
}

/// What an lvalue is.
#[derive(Drop)]
#[cycle(expression)]
pub enum LvalueNode {
    /// The name of an automatic object or of a parameter that is one, by its number in the function.
    Automatic(usize),
    /// The name of a static object, or a string literal, by its number.
    Static(usize),
    /// `*E` (6.5.3.2).
    Deref(Boxed<Expression>),
    /// `E[F]`, and the bytes of an element (6.5.2.1).
    Index(OffsetForm, u64, Boxed<Expression>, Boxed<Expression>),
    /// `L.m`: the offset and the bytes of m (6.5.2.3).
    Member(Boxed<Lvalue>, u64, u64),
    /// `E->m`: the offset and the bytes of m (6.5.2.3).
    Arrow(Boxed<Expression>, u64, u64),
    /// `E.m`, where E is a structure value and no lvalue: the offset and the bytes of m (6.5.2.3).
    MemberOfValue(Boxed<Expression>, u64, u64),
    /// `(L)` (6.5.1).
    Parenthesized(Boxed<Lvalue>),
}
