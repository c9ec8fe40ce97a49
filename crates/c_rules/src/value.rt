//! Typed values, and the conversions that stand between operators and their operands (C99 6.3).

ghost use Rattle.std.specs.Prelude.{◌≡◌, ◌∷◌, [], IfOk, Ok};
ghost use Rattle.c_tree.specs.Kinds.{integer, is_kind};
ghost use Rattle.c_tree.specs.View.{expression_of};
ghost use Rattle.c_tree.specs.Tree.{kind_of};
ghost use Rattle.c_rules.specs.Types.{same_pointee, same_pointee_behind, unqualified};
ghost use Rattle.c_tree.specs.TypesAgree.{same_words};
ghost use Rattle.c_faults.specs.Answer.{Gives};
ghost use Rattle.c_rules.specs.Values.{converted, integer_words, is_null, is_null_tree, is_zero, value_of};

use crate::holding::beside;
use c_const::constant_word;
use c_faults::Refusal;
use c_tree::{CType, Expression, Kind, Node, TypeWord, same_words};
use obj_memory::{IntType, Scalar};
use std::alloc::{AllocError, Global};
use tree_containers::Boxed;

/// A value: its type, without qualifiers of its own (C99 6.3.2.1), and its typed tree.
#[derive(Drop)]
pub struct TypedValue {
    /// Its type.
    pub c_type: CType,
    /// Its tree.
    pub tree: Expression,
}

/// The kind of an integer type.
pub fn integer(of: IntType) -> Kind
    ensures { result ≡ integer of }
{
    Kind::Scalar(Scalar::Integer(of))
}

/// An integer type.
pub fn integer_type(alloc: Global, of: IntType) -> Result<CType, AllocError>
    ensures { IfOk result (λ c_type. c_type ≡ integer_words of) }
{
    let words = vec![in alloc; TypeWord::Integer(of)]?;
    Ok(CType::new(words))
}

/// A tree of an integer type, with that type.
pub fn typed(alloc: Global, of: IntType, tree: Expression) -> Result<TypedValue, Refusal>
    ensures { Gives value_of result (Ok (record { type = integer_words of; tree = expression_of tree })) }
{
    let (tree, c_type) = beside(tree, integer_type(alloc, of))?;
    Ok(TypedValue { c_type, tree })
}

/// An expression converted to a kind, where it has another (C99 6.3).
pub fn converted(alloc: Global, kind: Kind, tree: Expression) -> Result<Expression, AllocError>
    ensures { IfOk result (λ tree'. expression_of tree' ≡ converted kind (expression_of tree)) }
{
    if is_kind(kind, tree.kind) {
        return Ok(tree);
    }
    let line = tree.line;
    let node = Node::Convert(Boxed::new(alloc, tree)?);
    Ok(Expression { kind, line, node })
}

/// Whether both kinds are the same.
pub fn is_kind(left: Kind, right: Kind) -> bool
    ensures { result ≡ is_kind left right }
{
    match (left, right) {
        (Kind::Void, Kind::Void) => true,
        (Kind::Scalar(Scalar::Integer(s)), Kind::Scalar(Scalar::Integer(t))) => {
            s as u8 == t as u8
        }
        (Kind::Scalar(Scalar::Pointer), Kind::Scalar(Scalar::Pointer)) => true,
        (Kind::Structure(m), Kind::Structure(n)) | (Kind::Array(m), Kind::Array(n)) => m == n,
        _ => false,
    }
}

/// A type without its own qualifiers.
pub fn unqualified(words: &[TypeWord]) -> &[TypeWord]
    ensures { result.now ≡ unqualified words.now }
{
    match words {
        [TypeWord::Const, behind @ ..] => unqualified(behind),
        _ => words,
    }
}

/// Whether both types are pointers to one type, qualifiers of that type aside.
pub fn same_pointee(left: &[TypeWord], right: &[TypeWord]) -> bool
    ensures { result ≡ same_pointee left.now right.now }
{
    match (unqualified(left), unqualified(right)) {
        ([TypeWord::Pointer, s @ ..], [TypeWord::Pointer, t @ ..]) => {
            same_words(unqualified(s), unqualified(t))
        }
        _ => false,
    }
}

/// Whether a value is a null pointer constant: the constant 0, or that converted to a pointer to void (C99 6.3.2.3).
pub fn is_null(value: &TypedValue) -> bool
    ensures { result ≡ is_null (value_of value.now) }
{
    is_zero(&value.tree)
        || is_null_tree(
            same_words(value.c_type.words(), &[TypeWord::Pointer, TypeWord::Void]),
            &value.tree,
        )
}

fn is_zero(tree: &Expression) -> bool
    ensures { result ≡ is_zero (expression_of tree.now) }
{
    match constant_word(tree) {
        Some(word) => word == 0,
        None => false,
    }
}

fn is_null_tree(is_void_pointer: bool, tree: &Expression) -> bool
    ensures { result ≡ is_null_tree is_void_pointer (expression_of tree.now) }
{
    match &tree.node {
        Node::Parenthesized(e) => is_null_tree(is_void_pointer, e.get()),
        Node::Cast(e) => is_void_pointer && is_zero(e.get()),
        _ => false,
    }
}
