//! Whether the initializers of static objects are constant (C99 6.7.8 paragraph 4).

ghost use Rattle.std.specs.Prelude.{◌≡◌, is_some, map, replicate, IfOk};
ghost use Rattle.c_tree.specs.View.{content_of, expression_of, part_of, static_of};
ghost use Rattle.c_const.specs.Addresses.{untagged};
ghost use Rattle.c_const.specs.Contents.{constant_in};
ghost use Rattle.c_const.specs.Initializers.{content_fault, first_not_constant, parts_fault, statics_fault};
ghost use Rattle.c_const.specs.View.{pointers_of};
ghost use Rattle.c_programs.specs.Outlines.{outline_of, program_in};

use crate::outline::Outline;
use c_const::{Pointers, address_constant, constant_word};
use c_tree::{Content, Expression, Kind, Part, StaticObject};
use obj_memory::{Scalar, Tag, Value};
use sb_base::Line;
use std::alloc::{AllocError, Global};

// Whether an initializer may store an expression: an integer or address constant.
fn is_constant(pointers: &Pointers, expression: &Expression) -> bool
    ensures { result
        ≡ is_some (constant_in (pointers_of pointers.now) expression.now.kind (expression_of expression.now)) }
{
    match expression.kind {
        Kind::Scalar(Scalar::Integer(_)) => constant_word(expression).is_some(),
        Kind::Scalar(Scalar::Pointer) => address_constant(pointers, expression).is_some(),
        Kind::Void | Kind::Structure(_) | Kind::Array(_) => false,
    }
}

fn content_fault(pointers: &Pointers, content: &Content) -> Option<Line>
    ensures { result ≡ content_fault (pointers_of pointers.now) (content_of content.now) }
{
    match content {
        Content::Value(expression) => {
            if is_constant(pointers, expression) {
                None
            } else {
                Some(expression.line)
            }
        }
        Content::Literal(_) => None,
    }
}

fn parts_fault(pointers: &Pointers, parts: &[Part]) -> Option<Line>
    ensures { result ≡ parts_fault (pointers_of pointers.now) (map part_of parts.now) }
{
    for part in parts {
        if let Some(line) = content_fault(pointers, &part.content) {
            return Some(line);
        }
    }
    None
}

fn statics_fault(pointers: &Pointers, statics: &[StaticObject]) -> Option<Line>
    ensures { result ≡ statics_fault (pointers_of pointers.now) (map static_of statics.now) }
{
    for object in statics {
        if let Some(line) = parts_fault(pointers, object.parts.as_slice()) {
            return Some(line);
        }
    }
    None
}

// So many pointers of which it matters only that they are there.
fn nowhere(alloc: Global, count: usize) -> Result<Vec<Value>, AllocError>
    ensures { IfOk result (λ pointers. pointers.items ≡ replicate count (untagged 0)) }
{
    let value = Value {
        word: 0,
        tag: Tag::Untagged,
    };
    vec![in alloc; value; count]
}

/// The line of the first expression that an initializer of a static object stores and that is not constant.
#[tactic(auto, using(crate::proofs::Limiting::first_is))]
pub fn first_not_constant(alloc: Global, outline: &Outline) -> Result<Option<Line>, AllocError>
    ensures { IfOk result (λ line. line ≡ first_not_constant (program_in (outline_of outline.now))) }
{
    let objects = nowhere(alloc, outline.statics.len())?;
    let functions = nowhere(alloc, outline.definitions.len())?;
    let pointers = Pointers {
        statics: &objects,
        functions: &functions,
    };
    Ok(statics_fault(&pointers, &outline.statics))
}
