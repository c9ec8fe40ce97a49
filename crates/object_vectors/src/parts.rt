//! Parts of the initializers of static objects.

use crate::row::{integer_type, number};
use anyhow::{Context, Result};
use c_tree::{Content, Expression, Kind, Lvalue, LvalueNode, Node, OffsetForm, Part};
use obj_memory::{IntType, Scalar};
use sb_base::Line;
use std::alloc::{AllocError, Global};
use tree_containers::{Boxed, Items};

/// The kind of a pointer.
pub const POINTER: Kind = Kind::Scalar(Scalar::Pointer);

fn constant(of: IntType, word: u64) -> Expression {
    Expression {
        kind: Kind::Scalar(Scalar::Integer(of)),
        line: Line::new(4),
        node: Node::Constant(word),
    }
}

fn pointer(node: Node) -> Expression {
    Expression {
        kind: POINTER,
        line: Line::new(4),
        node,
    }
}

// The name of the first static object, where it is of this kind.
fn first_static(kind: Kind) -> Lvalue {
    Lvalue {
        kind,
        line: Line::new(4),
        node: LvalueNode::Static(0),
    }
}

// y, an array of 16 bytes, where it stands for a pointer.
fn decayed(alloc: Global) -> Result<Boxed<Expression>, AllocError> {
    let array = Boxed::new(alloc, first_static(Kind::Array(16)))?;
    Boxed::new(alloc, pointer(Node::Decay(array)))
}

// &y[3]
fn address_of_element(alloc: Global) -> Result<Expression, AllocError> {
    let index = Boxed::new(alloc, constant(IntType::Int, 3))?;
    let element = Lvalue {
        kind: Kind::Scalar(Scalar::Integer(IntType::Int)),
        line: Line::new(4),
        node: LvalueNode::Index(OffsetForm::PointerPlusIndex, 4, decayed(alloc)?, index),
    };
    Ok(pointer(Node::Address(Boxed::new(alloc, element)?)))
}

// The value of a pointer, the first static object, as an expression.
fn value_of_variable(alloc: Global) -> Result<Expression, AllocError> {
    let variable = Boxed::new(alloc, first_static(POINTER))?;
    Ok(pointer(Node::Read(variable)))
}

fn literal(alloc: Global, digits: Option<&str>) -> Result<Content> {
    let bytes = hex::decode(alloc, digits.context("the bytes of a literal")?)?;
    Ok(Content::Literal(Items::from_vec(bytes)))
}

// What a part holds: `literal BYTES`, `element` for `&y[3]`, `variable` for the value of a pointer, or `TYPE NUMBER`.
fn content(alloc: Global, name: Option<&str>, digits: Option<&str>) -> Result<Content> {
    let name = name.context("a content")?;
    if name == "literal" {
        literal(alloc, digits)
    } else if name == "element" {
        Ok(Content::Value(address_of_element(alloc)?))
    } else if name == "variable" {
        Ok(Content::Value(value_of_variable(alloc)?))
    } else {
        let of = integer_type(Some(name))?;
        Ok(Content::Value(constant(of, number(digits)?)))
    }
}

/// The part of a word: `OFFSET:CONTENT`, whose words have a `:` between them. All expressions stand on line 4.
pub fn part(alloc: Global, word: &str) -> Result<Part> {
    let mut words = word.split(':');
    let offset = number(words.next())?;
    match content(alloc, words.next(), words.next()) {
        Ok(content) => Ok(Part { offset, content }),
        Err(error) => Err(error),
    }
}
