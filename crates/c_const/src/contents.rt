//! What static objects hold before a program runs (C99 6.7.8).

ghost use Rattle.std.specs.Prelude.{◌≡◌, ℕ, ◌+◌, ◌≤◌, ◌^◌, length, true, map, IfOk};
ghost use Rattle.std.specs.List.{list_all};
ghost use Rattle.byteorder.specs.Endian.{little_bytes};
ghost use Rattle.obj_memory.specs.Access.{overwrite, scalar_size};
ghost use Rattle.c_tree.specs.Kinds.{size_of_kind};
ghost use Rattle.c_tree.specs.View.{content_of, expression_of, part_of, static_of};
ghost use Rattle.c_tree.specs.ValidProgram.{content_size};
ghost use Rattle.c_const.specs.Contents.{constant_in, initial_contents, is_inside, is_laid_out, with_content};
ghost use Rattle.c_const.specs.Contents.{with_parts, with_scalar, with_tag, zero_contents};
ghost use Rattle.c_const.specs.View.{pointers_of};
ghost use Rattle.c_const.specs.Outcomes.{IsInitial, Stores};

use crate::address::{Pointers, address_constant};
use crate::integer::constant_word;
use c_tree::{Content, Expression, Kind, MAX_SIZE, Part, StaticObject};
use obj_memory::{Scalar, Tag, Value};
use sb_base::Line;
use std::alloc::{AllocError, Global};
use std::marker::Model;

/// What a static object holds before the program runs.
#[derive(Drop)]
pub struct InitialObject {
    bytes: Vec<u8>,
    tags: Vec<Tag>,
}

/// Why there is none.
#[derive(Clone, Copy, Debug, PartialEq, Eq)]
pub enum InitialFault {
    /// There is no memory for it.
    Memory,
    /// The initializer has an expression that is not constant, the first of which is at this line.
    NotConstant(Line),
}

impl Model for InitialObject {
    ghost use Rattle.c_const.specs.Contents.{Contents};

    ghost Value = { Contents };

    ghost view = { λ o. record { bytes = o.bytes.items; tags = o.tags.items } };
}

/// What a static object holds before the program runs, where its objects and functions stand so: its bytes and the tags
/// of its words, after the parts of its initializer are stored in their order. `NotConstant` comes exactly where an
/// expression that the initializer stores is neither an integer constant expression nor an address constant.
#[tactic(auto, unfolding(crate::specs::Contents::initial_contents))]
pub fn initial_bytes(
    alloc: Global,
    pointers: &Pointers,
    object: &StaticObject,
) -> Result<InitialObject, InitialFault>
    requires { is_laid_out (static_of object.now) ≡ true }
    ensures { IsInitial result (initial_contents (pointers_of pointers.now) (static_of object.now)) }
{
    let Ok(mut contents) = InitialObject::zero(alloc, size_of(object.kind)) else {
        return Err(InitialFault::Memory);
    };
    match contents.store_parts(pointers, object.parts.as_slice()) {
        Ok(()) => Ok(contents),
        Err(line) => Err(InitialFault::NotConstant(line)),
    }
}

/// Whether the object has at most 2^32 bytes, and each part of its initializer lies in it, as it is in a valid program.
pub fn is_laid_out(object: &StaticObject) -> bool
    ensures { result ≡ is_laid_out (static_of object.now) }
{
    let size = size_of(object.kind);
    size <= MAX_SIZE && are_inside(size, object.parts.as_slice())
}

// Whether each part lies in an object of so many bytes.
fn are_inside(size: u64, parts: &[Part]) -> bool
    ensures { result ≡ list_all (is_inside size) (map part_of parts.now) }
{
    for part in parts {
        if !is_inside(size, part) {
            return false;
        }
    }
    true
}

fn is_inside(size: u64, part: &Part) -> bool
    ensures { result ≡ is_inside size (part_of part.now) }
{
    part.offset <= size && size_of_content(&part.content) <= size - part.offset
}

fn size_of_content(content: &Content) -> u64
    ensures { result ≡ content_size (content_of content.now) }
{
    match content {
        Content::Value(expression) => size_of(expression.kind),
        Content::Literal(bytes) => bytes.as_slice().len() as u64,
    }
}

fn size_of(kind: Kind) -> u64
    ensures { result ≡ size_of_kind kind }
{
    match kind {
        Kind::Void => 0,
        Kind::Scalar(scalar) => scalar.size(),
        Kind::Structure(size) | Kind::Array(size) => size,
    }
}

// The value of a constant that an initializer stores, with its scalar type.
fn constant_in(pointers: &Pointers, expression: &Expression) -> Option<(Scalar, Value)>
    ensures { result ≡ constant_in (pointers_of pointers.now) expression.now.kind (expression_of expression.now) }
{
    match expression.kind {
        Kind::Scalar(Scalar::Integer(t)) => {
            let word = constant_word(expression)?;
            let tag = Tag::Untagged;
            Some((Scalar::Integer(t), Value { word, tag }))
        }
        Kind::Scalar(Scalar::Pointer) => {
            let value = address_constant(pointers, expression)?;
            Some((Scalar::Pointer, value))
        }
        Kind::Void | Kind::Structure(_) | Kind::Array(_) => None,
    }
}

// Bytes written from an offset on.
fn put_bytes(bytes: &mut Vec<u8>, offset: u64, new: &[u8])
    requires { offset + length new.now ≤ length bytes.old.items }
    ensures value { bytes.new.items ≡ overwrite offset new.now bytes.old.items }
    ensures size { length bytes.new.items ≡ length bytes.old.items }
{
    let start = offset as usize;
    bytes[start..start + new.len()].copy_from_slice(new);
}

// The lowest bytes of a word, written from an offset on.
#[tactic(auto, using(crate::proofs::LittleBytes::lowest_bytes))]
fn put_word(bytes: &mut Vec<u8>, offset: u64, size: u64, word: u64)
    requires small { size ≤ 8 }
    requires inside { offset + size ≤ length bytes.old.items }
    ensures value { bytes.new.items ≡ overwrite offset (little_bytes size word) bytes.old.items }
    ensures size { length bytes.new.items ≡ length bytes.old.items }
{
    put_bytes(bytes, offset, &word.to_le_bytes()[..size as usize]);
}

impl InitialObject {
    /// Its bytes.
    pub fn bytes(&self) -> &[u8]
        ensures { result.now ≡ self.now.bytes }
    {
        &self.bytes
    }

    /// The tag of each of its whole words of 8 bytes.
    pub fn tags(&self) -> &[Tag]
        ensures { result.now ≡ self.now.tags }
    {
        &self.tags
    }

    // Zero bytes, without tags.
    fn zero(alloc: Global, size: u64) -> Result<InitialObject, AllocError>
        ensures { IfOk result (λ object. object ≡ zero_contents size) }
    {
        let bytes = vec![in alloc; 0; size as usize]?;
        let tags = vec![in alloc; Tag::Untagged; (size / 8) as usize]?;
        Ok(InitialObject { bytes, tags })
    }

    // The tag of the word at an offset, where a word begins there.
    fn put_tag(&mut self, offset: u64, tag: Tag)
        ensures value { self.new ≡ with_tag offset tag self.old }
        ensures size { length self.new.bytes ≡ length self.old.bytes }
    {
        let word = (offset / 8) as usize;
        if offset % 8 == 0 && word < self.tags.len() {
            self.tags[word] = tag;
        }
    }

    fn put_scalar(&mut self, scalar: Scalar, offset: u64, value: Value)
        requires { offset + scalar_size scalar ≤ length self.old.bytes }
        ensures value { self.new ≡ with_scalar scalar offset value self.old }
        ensures size { length self.new.bytes ≡ length self.old.bytes }
    {
        put_word(&mut self.bytes, offset, scalar.size(), value.word);
        if let Scalar::Pointer = scalar {
            self.put_tag(offset, value.tag);
        }
    }

    fn store(&mut self, pointers: &Pointers, offset: u64, content: &Content) -> Result<(), Line>
        requires { offset + content_size (content_of content.now) ≤ length self.old.bytes }
        ensures value { Stores result (with_content (pointers_of pointers.now) offset (content_of content.now) self.old)
            self.new }
        ensures size { length self.new.bytes ≡ length self.old.bytes }
    {
        match content {
            Content::Value(expression) => match constant_in(pointers, expression) {
                Some((scalar, value)) => {
                    self.put_scalar(scalar, offset, value);
                    Ok(())
                }
                None => Err(expression.line),
            },
            Content::Literal(bytes) => {
                put_bytes(&mut self.bytes, offset, bytes.as_slice());
                Ok(())
            }
        }
    }

    fn store_parts(&mut self, pointers: &Pointers, parts: &[Part]) -> Result<(), Line>
        requires { list_all (is_inside (length self.old.bytes)) (map part_of parts.now) ≡ true }
        ensures { Stores result (with_parts (pointers_of pointers.now) (map part_of parts.now) self.old) self.new }
    {
        for part in parts {
            self.store(pointers, part.offset, &part.content)?;
        }
        Ok(())
    }
}
