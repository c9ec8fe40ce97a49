//! Address constants (C99 6.6 paragraph 9).

ghost use Rattle.std.specs.Prelude.{◌≡◌, ◌-◌, ◌*◌, ◌%◌, ◌^◌, slice_get};
ghost use Rattle.obj_memory.specs.Judgement.{moved};
ghost use Rattle.c_tree.specs.View.{expression_of, lvalue_of};
ghost use Rattle.c_const.specs.Addresses.{address_of, back, designated, forward, place_of, untagged};
ghost use Rattle.c_const.specs.View.{pointers_of};

use crate::integer::constant_word;
use c_tree::{Expression, Kind, Lvalue, LvalueNode, Node, OffsetForm};
use obj_memory::{Scalar, Tag, Value};

/// Pointers to the static objects and to the functions of a program, by number.
#[derive(Clone, Copy)]
pub struct Pointers<'a> {
    /// To the static objects.
    pub statics: &'a [Value],
    /// To the functions.
    pub functions: &'a [Value],
}

/// The pointer that an address constant gives, where objects and functions stand so. There is none where the expression
/// is no address constant, or names an object or function that has no pointer here.
pub fn address_constant(pointers: &Pointers, expression: &Expression) -> Option<Value>
    ensures { result ≡ address_of (pointers_of pointers.now) (expression_of expression.now) }
{
    address_of(pointers, expression)
}

fn untagged(word: u64) -> Value
    ensures { result ≡ untagged word }
{
    Value {
        word,
        tag: Tag::Untagged,
    }
}

// A pointer moved forward by an index of elements of some bytes.
fn forward(size: u64, pointer: Option<Value>, index: Option<u64>) -> Option<Value>
    ensures { result ≡ forward size pointer index }
{
    match (pointer, index) {
        (Some(pointer), Some(index)) => Some(moved_forward(size, pointer, index)),
        _ => None,
    }
}

#[tactic(auto, using(crate::proofs::Moves::forward_wraps), unfolding(obj_memory::specs::Judgement::moved))]
fn moved_forward(size: u64, pointer: Value, index: u64) -> Value
    ensures { result ≡ moved (index * size) pointer }
{
    pointer.moved(index.wrapping_mul(size))
}

// The same backward.
fn back(size: u64, pointer: Option<Value>, index: Option<u64>) -> Option<Value>
    ensures { result ≡ back size pointer index }
{
    match (pointer, index) {
        (Some(pointer), Some(index)) => Some(moved_back(size, pointer, index)),
        _ => None,
    }
}

#[tactic(auto, using(crate::proofs::Moves::back_wraps), unfolding(obj_memory::specs::Judgement::moved))]
fn moved_back(size: u64, pointer: Value, index: u64) -> Value
    ensures { result ≡ moved (2 ^ 64 - (index * size) % 2 ^ 64) pointer }
{
    pointer.moved(0u64.wrapping_sub(index.wrapping_mul(size)))
}

fn static_at(pointers: &Pointers, number: usize) -> Option<Value>
    ensures { result ≡ slice_get (pointers_of pointers.now).statics number }
{
    pointers.statics.get(number).copied()
}

fn function_at(pointers: &Pointers, number: usize) -> Option<Value>
    ensures { result ≡ slice_get (pointers_of pointers.now).functions number }
{
    pointers.functions.get(number).copied()
}

#[cycle(address)]
fn address_of(pointers: &Pointers, expression: &Expression) -> Option<Value>
    ensures { result ≡ address_of (pointers_of pointers.now) (expression_of expression.now) }
{
    match &expression.node {
        Node::Function(number) => function_at(pointers, *number),
        Node::Decay(p) | Node::Address(p) => place_of(pointers, p.get()),
        Node::Parenthesized(e) | Node::DerefFunction(e) => address_of(pointers, e.get()),
        Node::AddressFunction(e) => designated(pointers, e.get()),
        Node::Cast(e) | Node::Convert(e) => match (expression.kind, e.get().kind) {
            (Kind::Scalar(Scalar::Pointer), Kind::Scalar(Scalar::Integer(_))) => {
                let word = constant_word(e.get())?;
                Some(untagged(word))
            }
            (Kind::Scalar(Scalar::Pointer), Kind::Scalar(Scalar::Pointer)) => {
                address_of(pointers, e.get())
            }
            _ => None,
        },
        Node::Offset(OffsetForm::PointerPlusIndex, size, a, b) => {
            forward(*size, address_of(pointers, a.get()), constant_word(b.get()))
        }
        Node::Offset(OffsetForm::IndexPlusPointer, size, a, b) => {
            forward(*size, address_of(pointers, b.get()), constant_word(a.get()))
        }
        Node::Offset(OffsetForm::PointerMinusIndex, size, a, b) => {
            back(*size, address_of(pointers, a.get()), constant_word(b.get()))
        }
        _ => None,
    }
}

// The function that an operand of `&` designates.
#[cycle(address)]
fn designated(pointers: &Pointers, expression: &Expression) -> Option<Value>
    ensures { result ≡ designated (pointers_of pointers.now) (expression_of expression.now) }
{
    match &expression.node {
        Node::Function(number) => function_at(pointers, *number),
        Node::Parenthesized(e) => designated(pointers, e.get()),
        Node::DerefFunction(e) => address_of(pointers, e.get()),
        _ => None,
    }
}

// The pointer to what an lvalue designates.
#[cycle(address)]
fn place_of(pointers: &Pointers, lvalue: &Lvalue) -> Option<Value>
    ensures { result ≡ place_of (pointers_of pointers.now) (lvalue_of lvalue.now) }
{
    match &lvalue.node {
        LvalueNode::Static(number) => static_at(pointers, *number),
        LvalueNode::Deref(e) => address_of(pointers, e.get()),
        LvalueNode::Index(OffsetForm::PointerPlusIndex, size, a, b) => {
            forward(*size, address_of(pointers, a.get()), constant_word(b.get()))
        }
        LvalueNode::Index(OffsetForm::IndexPlusPointer, size, a, b) => {
            forward(*size, address_of(pointers, b.get()), constant_word(a.get()))
        }
        LvalueNode::Index(OffsetForm::PointerMinusIndex, size, a, b) => {
            back(*size, address_of(pointers, a.get()), constant_word(b.get()))
        }
        LvalueNode::Member(p, offset, size) => {
            let whole = place_of(pointers, p.get())?;
            Some(whole.narrowed(*offset, *size))
        }
        LvalueNode::Arrow(e, offset, size) => {
            let whole = address_of(pointers, e.get())?;
            Some(whole.narrowed(*offset, *size))
        }
        LvalueNode::Parenthesized(p) => place_of(pointers, p.get()),
        LvalueNode::Automatic(_) | LvalueNode::MemberOfValue(_, _, _) => None,
    }
}
