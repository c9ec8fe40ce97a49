//! Keys, from the base to the last member.

ghost use Rattle.std.specs.Prelude.{◌≡◌, ◌+◌, ◌-◌, ◌*◌, ◌%◌, ◌^◌, List, [], IfOk, slice_get};
ghost use Rattle.source_meaning.specs.Expressions.{is_judged};
ghost use Rattle.tac_ir.specs.declared.key.Member.{Member};
ghost use Rattle.c_tree.specs.View.{expression_of, lvalue_of};
ghost use Rattle.c_lower.specs.Keys.{base_key, key_plus, key_minus, member_key, index_of, pointer_key, place_key};
ghost use Rattle.c_lower.specs.Keys.{read_key, write_key, assigns_base, assigns_scaled, assigns_path, assigns_key};
ghost use Rattle.c_lower.specs.Keys.{moved_key, scaled_key, named_key};
ghost use Rattle.program_lowering.specs.AccessKeys.Built.{key_with, key_on};

use crate::keys::assigned::assigns;
use crate::keys::variable::variable;
use c_const::constant_word;
use c_tree::{Expression, Kind, Lvalue, LvalueNode, Node, OffsetForm};
use obj_memory::Scalar;
use std::alloc::{AllocError, Global};
use tac_ir::{Base, Key, Member, Scaled};
use tree_containers::Items;

/// A key but for its path of members.
#[derive(Clone, Copy)]
pub struct KeyHead {
    /// What it begins with.
    pub base: Base,
    /// The constant that is added, modulo 2^64.
    pub constant: u64,
    /// The scaled variable that is added.
    pub scaled: Option<Scaled>,
}

fn begun(base: Base) -> Option<KeyHead>
    ensures { key_with result [] ≡ base_key base }
{
    Some(KeyHead {
        base,
        constant: 0,
        scaled: None,
    })
}

// The name of a static object; a string literal is one without a name.
fn named(literals: &[bool], number: usize) -> Option<KeyHead>
    ensures { key_with result [] ≡ named_key (slice_get literals.now number) number }
{
    match literals.get(number) {
        Some(false) => begun(Base::Static(number)),
        _ => None,
    }
}

// An index of elements added to a constant.
#[tactic(auto, using(crate::proofs::AccessKeys::Moves::moves_forward))]
fn forward(constant: u64, index: u64, size: u64) -> u64
    ensures { result ≡ (constant + index * size) % 2 ^ 64 }
{
    constant.wrapping_add(index.wrapping_mul(size))
}

// An index of elements subtracted from one.
#[tactic(auto, using(crate::proofs::AccessKeys::Moves::moves_back))]
fn back(constant: u64, index: u64, size: u64) -> u64
    ensures { result ≡ (constant + (2 ^ 64 - index * size % 2 ^ 64)) % 2 ^ 64 }
{
    constant.wrapping_add(0u64.wrapping_sub(index.wrapping_mul(size)))
}

// A key with a constant number of elements added.
fn moved_forward(head: KeyHead, index: u64, size: u64) -> Option<KeyHead>
    ensures { (path : List Member) → key_with result path ≡ Some (moved_key (index * size) (key_on head path)) }
{
    Some(KeyHead {
        base: head.base,
        constant: forward(head.constant, index, size),
        scaled: head.scaled,
    })
}

// The same of elements subtracted.
fn moved_back(head: KeyHead, index: u64, size: u64) -> Option<KeyHead>
    ensures { (path : List Member)
        → key_with result path ≡ Some (moved_key (2 ^ 64 - index * size % 2 ^ 64) (key_on head path)) }
{
    Some(KeyHead {
        base: head.base,
        constant: back(head.constant, index, size),
        scaled: head.scaled,
    })
}

// A scaled variable added, where there is none yet.
fn scaled(head: KeyHead, variable: usize, size: u64) -> Option<KeyHead>
    ensures { (path : List Member) → key_with result path ≡ scaled_key head.scaled (key_on head path) variable size }
{
    match head.scaled {
        None => Some(KeyHead {
            base: head.base,
            constant: head.constant,
            scaled: Some(Scaled { variable, size }),
        }),
        Some(_) => None,
    }
}

// An index added.
fn plus(head: Option<KeyHead>, index: &Expression, size: u64) -> Option<KeyHead>
    ensures { (path : List Member)
        → key_with result path ≡ key_plus (key_with head path) (index_of (expression_of index.now)) size }
{
    match head {
        None => None,
        Some(head) => match constant_word(index) {
            Some(word) => moved_forward(head, word, size),
            None => match variable(index) {
                Some(x) => scaled(head, x, size),
                None => None,
            },
        },
    }
}

// An index subtracted.
fn minus(head: Option<KeyHead>, index: &Expression, size: u64) -> Option<KeyHead>
    ensures { (path : List Member)
        → key_with result path ≡ key_minus (key_with head path) (index_of (expression_of index.now)) size }
{
    match (head, constant_word(index)) {
        (Some(head), Some(word)) => moved_back(head, word, size),
        _ => None,
    }
}

// A key narrowed to a member.
fn narrowed(
    path: &mut Vec<Member>,
    head: Option<KeyHead>,
    offset: u64,
    size: u64,
) -> Result<Option<KeyHead>, AllocError>
    ensures { IfOk result (λ key. key_with key path.new.items ≡ member_key (key_with head path.old.items) offset size) }
{
    match head {
        None => Ok(None),
        Some(head) => {
            let constant = head.constant.wrapping_add(offset);
            let scaled = head.scaled;
            let member = Member {
                constant,
                scaled,
                size,
            };
            path.insert(0, member)?;
            let base = head.base;
            Ok(Some(KeyHead {
                base,
                constant,
                scaled,
            }))
        }
    }
}

// The key of a pointer's value, whose path is put into an empty list. Of each static object it is told whether it is a
// string literal.
#[cycle(key)]
fn pointer_head(
    path: &mut Vec<Member>,
    literals: &[bool],
    e: &Expression,
) -> Result<Option<KeyHead>, AllocError>
    requires { path.old.items ≡ [] }
    ensures { IfOk result (λ key. key_with key path.new.items ≡ pointer_key literals.now (expression_of e.now)) }
{
    match e.kind {
        Kind::Scalar(Scalar::Pointer) => match &e.node {
            Node::Plain(x) => Ok(begun(Base::Plain(*x))),
            Node::Decay(p) | Node::Address(p) => place_head(path, literals, p.get()),
            Node::Parenthesized(a) | Node::Cast(a) | Node::Convert(a) => {
                pointer_head(path, literals, a.get())
            }
            Node::Offset(OffsetForm::PointerPlusIndex, size, a, b) => {
                let head = pointer_head(path, literals, a.get())?;
                Ok(plus(head, b.get(), *size))
            }
            Node::Offset(OffsetForm::IndexPlusPointer, size, a, b) => {
                let head = pointer_head(path, literals, b.get())?;
                Ok(plus(head, a.get(), *size))
            }
            Node::Offset(OffsetForm::PointerMinusIndex, size, a, b) => {
                let head = pointer_head(path, literals, a.get())?;
                Ok(minus(head, b.get(), *size))
            }
            _ => Ok(None),
        },
        Kind::Void | Kind::Scalar(Scalar::Integer(_)) | Kind::Structure(_) | Kind::Array(_) => {
            Ok(None)
        }
    }
}

// The key of an lvalue, in the same way.
#[cycle(key)]
fn place_head(
    path: &mut Vec<Member>,
    literals: &[bool],
    p: &Lvalue,
) -> Result<Option<KeyHead>, AllocError>
    requires { path.old.items ≡ [] }
    ensures { IfOk result (λ key. key_with key path.new.items ≡ place_key literals.now (lvalue_of p.now)) }
{
    match &p.node {
        LvalueNode::Automatic(x) => Ok(begun(Base::Automatic(*x))),
        LvalueNode::Static(number) => Ok(named(literals, *number)),
        LvalueNode::Deref(a) => pointer_head(path, literals, a.get()),
        LvalueNode::Index(OffsetForm::PointerPlusIndex, size, a, b) => {
            let head = pointer_head(path, literals, a.get())?;
            Ok(plus(head, b.get(), *size))
        }
        LvalueNode::Index(OffsetForm::IndexPlusPointer, size, a, b) => {
            let head = pointer_head(path, literals, b.get())?;
            Ok(plus(head, a.get(), *size))
        }
        LvalueNode::Index(OffsetForm::PointerMinusIndex, size, a, b) => {
            let head = pointer_head(path, literals, a.get())?;
            Ok(minus(head, b.get(), *size))
        }
        LvalueNode::Member(inner, offset, size) => {
            let head = place_head(path, literals, inner.get())?;
            narrowed(path, head, *offset, *size)
        }
        LvalueNode::Arrow(a, offset, size) => {
            let head = pointer_head(path, literals, a.get())?;
            narrowed(path, head, *offset, *size)
        }
        LvalueNode::MemberOfValue(_, _, _) => Ok(None),
        LvalueNode::Parenthesized(inner) => place_head(path, literals, inner.get()),
    }
}

// Whether an access of an lvalue is judged.
fn is_judged(p: &Lvalue) -> bool
    ensures { result ≡ is_judged (lvalue_of p.now) }
{
    match &p.node {
        LvalueNode::Automatic(_) | LvalueNode::Static(_) | LvalueNode::MemberOfValue(_, _, _) => {
            false
        }
        LvalueNode::Deref(_) | LvalueNode::Index(_, _, _, _) | LvalueNode::Arrow(_, _, _) => true,
        LvalueNode::Member(inner, _, _) | LvalueNode::Parenthesized(inner) => {
            is_judged(inner.get())
        }
    }
}

fn assigns_base(a: &Expression, base: Base) -> bool
    ensures { result ≡ assigns_base (expression_of a.now) base }
{
    match base {
        Base::Plain(x) => assigns(x, a),
        Base::Automatic(_) | Base::Static(_) => false,
    }
}

fn assigns_scaled(a: &Expression, scaled: Option<Scaled>) -> bool
    ensures { result ≡ assigns_scaled (expression_of a.now) scaled }
{
    match scaled {
        Some(scaled) => assigns(scaled.variable, a),
        None => false,
    }
}

fn assigns_path(a: &Expression, path: &[Member]) -> bool
    ensures { result ≡ assigns_path (expression_of a.now) path.now }
{
    for member in path {
        if assigns_scaled(a, member.scaled) {
            return true;
        }
    }
    false
}

// Whether an expression assigns a plain variable of a key.
fn assigns_key(a: &Expression, head: KeyHead, path: &[Member]) -> bool
    ensures { result ≡ assigns_key (expression_of a.now) (key_on head path.now) }
{
    (assigns_base(a, head.base) || assigns_scaled(a, head.scaled)) || assigns_path(a, path)
}

fn whole(head: KeyHead, path: Vec<Member>) -> Key
    ensures { result ≡ key_on head path.items }
{
    Key {
        base: head.base,
        path: Items::from_vec(path),
        constant: head.constant,
        scaled: head.scaled,
    }
}

/// The key of an lvalue that is read, where its access is judged and its pointer has a key. An error comes where there
/// is
/// no memory for it.
pub fn read_key(alloc: Global, literals: &[bool], p: &Lvalue) -> Result<Option<Key>, AllocError>
    ensures { IfOk result (λ key. key ≡ read_key literals.now (lvalue_of p.now)) }
{
    if !is_judged(p) {
        return Ok(None);
    }
    let mut path = Vec::new(alloc);
    match place_head(&mut path, literals, p)? {
        Some(head) => Ok(Some(whole(head, path))),
        None => Ok(None),
    }
}

/// The key of an lvalue that is written after the right side is evaluated: there is none where the right side assigns a
/// plain variable of it. An error comes where there is no memory for it.
pub fn write_key(
    alloc: Global,
    literals: &[bool],
    p: &Lvalue,
    right: &Expression,
) -> Result<Option<Key>, AllocError>
    ensures { IfOk result (λ key. key ≡ write_key literals.now (lvalue_of p.now) (expression_of right.now)) }
{
    if !is_judged(p) {
        return Ok(None);
    }
    let mut path = Vec::new(alloc);
    match place_head(&mut path, literals, p)? {
        Some(head) if !assigns_key(right, head, &path) => Ok(Some(whole(head, path))),
        _ => Ok(None),
    }
}
