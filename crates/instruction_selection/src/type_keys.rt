//! What the keys of pointers to functions tell of their types (C99 6.5.2.2).

ghost use Rattle.std.specs.Prelude.{◌≡◌, ℕ, ◌+◌, ◌<◌, ◌≤◌, ◌^◌, IfOk, get_or, length, Some, slice_get};
ghost use Rattle.tac_ir.specs.declared.function.CodeFunction.{CodeFunction};
ghost use Rattle.lib_wrappers.specs.AllocatingRoutines.Entering.{block_bytes};
ghost use Rattle.metadata_relation.specs.Blocks.{objects_of_body};
ghost use Rattle.metadata_relation.specs.FunctionTypes.{HaveTypeKeys, object_units, type_key};

use crate::blocks::{block_bytes, has_objects};
use crate::calls::{body_objects, first_of_type};
use static_data::pointers::rounded;
use std::alloc::{AllocError, Global};
use tac_ir::CodeFunction;

// The units of 16 bytes that the objects of a body take, as a key tells them.
fn object_units(alloc: Global, function: &CodeFunction) -> Result<u64, AllocError>
    requires { block_bytes (objects_of_body function.now) ≤ 2 ^ 62 }
    ensures value { IfOk result (λ units. units ≡ object_units function.now) }
    ensures room { IfOk result (λ units. units ≤ 2 ^ 18 + 1) }
{
    let objects = body_objects(alloc, function)?;
    if !has_objects(&objects) {
        return Ok(0);
    }
    let units = rounded(block_bytes(&objects)) / 16;
    Ok(units.min(0x4_0001))
}

// What the key of a function among others tells.
fn type_key(
    alloc: Global,
    functions: &[CodeFunction],
    function: &CodeFunction,
) -> Result<u64, AllocError>
    requires few { length functions.now ≤ 2 ^ 12 }
    requires bytes { block_bytes (objects_of_body function.now) ≤ 2 ^ 62 }
    ensures value { IfOk result (λ key. key ≡ type_key functions.now function.now) }
    ensures room { IfOk result (λ key. key < 2 ^ 63) }
{
    let kind = first_of_type(functions, function.type_number) as u64;
    let units = object_units(alloc, function)?;
    let room = function.room.min(0x100_0001);
    Ok(kind + 0x1000 * (units + 0x8_0000 * room))
}

/// What the keys of pointers to functions tell, by the numbers of the functions. It fails only for want of memory.
#[tactic(auto, using(crate::proofs::TypeKeys::keys_told, crate::proofs::TypeKeys::keys_low))]
pub fn type_keys(alloc: Global, functions: &[CodeFunction]) -> Result<Vec<u64>, AllocError>
    requires few { length functions.now ≤ 2 ^ 12 }
    requires bytes { (f : ℕ) (c : CodeFunction) → slice_get functions.now f ≡ Some c
        → block_bytes (objects_of_body c) ≤ 2 ^ 62 }
    ensures keys { IfOk result (λ list. HaveTypeKeys functions.now (λ f. get_or list.items f 0)) }
    ensures room { IfOk result (λ list. (f : ℕ) → get_or list.items f 0 < 2 ^ 63) }
{
    let mut keys = Vec::new(alloc);
    for function in functions {
        keys.push(type_key(alloc, functions, function)?)?;
    }
    Ok(keys)
}
