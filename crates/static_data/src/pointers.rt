//! Pointers to the static objects and to the functions of a program.

ghost use Rattle.std.specs.Prelude.{◌≡◌, ◌+◌, ◌≤◌, ◌^◌, IfOk, map, length};
ghost use Rattle.obj_memory.specs.Heap.{rounded_up};
ghost use Rattle.c_tree.specs.Kinds.{size_of_kind};
ghost use Rattle.c_tree.specs.View.{static_of};
ghost use Rattle.source_meaning.specs.Meaning.{statics_end};
ghost use Rattle.source_meaning.specs.Expressions.{function_pointer};
ghost use Rattle.static_data.specs.Data.{static_pointers, function_pointers};

use addr_map::function_address;
use c_tree::{Kind, StaticObject};
use obj_memory::{Bounds, Tag, Value};
use std::alloc::{AllocError, Global};

/// The first address of static objects.
const STATICS: u64 = 0x1000_0000;

/// The bytes of what a kind stands for.
pub fn size_of(kind: Kind) -> u64
    ensures { result ≡ size_of_kind kind }
{
    match kind {
        Kind::Void => 0,
        Kind::Scalar(scalar) => scalar.size(),
        Kind::Structure(size) | Kind::Array(size) => size,
    }
}

/// The next multiple of 16.
pub fn rounded(offset: u64) -> u64
    requires { offset ≤ 2 ^ 63 }
    ensures { result ≡ rounded_up 16 offset }
{
    (offset + 15) / 16 * 16
}

/// The pointers to static objects, each at the next multiple of 16.
pub fn static_pointers(alloc: Global, statics: &[StaticObject]) -> Result<Vec<Value>, AllocError>
    requires { statics_end (map static_of statics.now) 0 ≤ 0x400000 }
    ensures { IfOk result (λ vs. vs.items ≡ static_pointers (map static_of statics.now) 0 0) }
{
    let mut pointers = Vec::new(alloc);
    let mut offset = 0;
    for i in 0..statics.len() {
        let start = rounded(offset);
        let size = size_of(statics[i].kind);
        let base = STATICS + start;
        let bound = base + size;
        pointers.push(Value {
            word: base,
            tag: Tag::OfObject(i, Bounds { base, bound }),
        })?;
        offset = start + size;
    }
    Ok(pointers)
}

/// The pointers to functions.
pub fn function_pointers(alloc: Global, count: usize) -> Result<Vec<Value>, AllocError>
    requires { count ≤ 4096 }
    ensures { IfOk result (λ vs. vs.items ≡ function_pointers 0 count) }
{
    let mut pointers = Vec::new(alloc);
    for i in 0..count {
        pointers.push(Value {
            word: function_address(i),
            tag: Tag::OfFunction(i),
        })?;
    }
    Ok(pointers)
}

/// The bytes that static objects take together, each from the next multiple of 16 on.
pub fn global_bytes(statics: &[StaticObject]) -> u64
    requires { statics_end (map static_of statics.now) 0 ≤ 0x400000 }
    ensures { result ≡ statics_end (map static_of statics.now) 0 }
{
    let mut offset = 0;
    for i in 0..statics.len() {
        offset = rounded(offset) + size_of(statics[i].kind);
    }
    offset
}
