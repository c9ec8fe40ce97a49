//! Scalars that are read and written through pointers (C99 6.3.2.1, 6.5.16).

ghost use Rattle.std.specs.Prelude.{◌≡◌, ◌+◌, ◌<◌, ◌≤◌, ◌^◌, ◌++◌, ◌∷◌, OnOk};
ghost use Rattle.std.specs.Prelude.{true};
ghost use Rattle.obj_memory.specs.declared.value.Scalar.TheVariants.{Pointer};
ghost use Rattle.flat_code.specs.Routines.Registers.{AreBelow};
ghost use Rattle.flat_actions.specs.Actions.{registers_of};
ghost use Rattle.lib_wrappers.specs.AccessRoutines.Holding.{holder_in, IsApartFrom};
ghost use Rattle.lib_wrappers.specs.AccessRoutines.Accessing.{load_code as load_list, store_code as store_list};
ghost use Rattle.metadata_relation.specs.InlineLists.{inline_lists};
ghost use Rattle.metadata_relation.specs.Blocks.{held_scalar, load_code, write_code};

use crate::context::FunctionContext;
use crate::entries::{held_from, put_untagged, put_value};
use crate::list::{append, put};
use addr_map::laws::sizes_are_in_range;
use flat_code::FlatInstruction;
use lib_wrappers::accesses::{HeldScalar, load, store};
use obj_memory::{IntType, Scalar};
use shadow_space::ShadowForm;
use std::alloc::AllocError;

/// A scalar in the registers of a value from one on.
pub fn held_scalar(scalar: Scalar, register: u32) -> HeldScalar
    requires { register ≤ 2 ^ 31 }
    ensures { result ≡ held_scalar scalar register }
{
    match scalar {
        Scalar::Integer(int_type) => HeldScalar::Integer(int_type, register),
        Scalar::Pointer => HeldScalar::Pointer(held_from(register)),
    }
}

/// Puts the load of a scalar behind a list, by the register of its address. It fails only for want of memory.
pub fn put_load<S: ShadowForm>(
    code: &mut Vec<FlatInstruction>,
    context: &FunctionContext,
    address: u32,
    into: HeldScalar,
    scratch: u32,
) -> Result<(), AllocError>
    requires below { AreBelow scratch (address ∷ registers_of (holder_in into)) }
    requires apart { IsApartFrom address into }
    requires room { scratch ≤ 2 ^ 31 }
    ensures { OnOk result (code.new.items ≡ code.old.items
        ++ load_list S.entry_read context.now.map.now address into scratch) }
{
    sizes_are_in_range(context.map);
    let list = load::<S>(context.alloc, context.map, address, into, scratch)?;
    append(code, &list)
}

/// Puts the store of a scalar behind a list, by the register of its address. It fails only for want of memory.
pub fn put_store<S: ShadowForm>(
    code: &mut Vec<FlatInstruction>,
    context: &FunctionContext,
    address: u32,
    from: HeldScalar,
    scratch: u32,
) -> Result<(), AllocError>
    requires below { AreBelow scratch (address ∷ registers_of (holder_in from)) }
    requires room { scratch ≤ 2 ^ 31 }
    ensures { OnOk result (code.new.items ≡ code.old.items
        ++ store_list S.entry_write context.now.map.now address from scratch) }
{
    sizes_are_in_range(context.map);
    let list = store::<S>(context.alloc, context.map, address, from, scratch)?;
    append(code, &list)
}

/// Puts the load of a pointer with its entry behind a list. It fails only for want of memory.
#[tactic(auto, using(crate::proofs::Operands::all_below, crate::proofs::Operands::all_apart))]
pub fn put_load_pointer<S: ShadowForm>(
    code: &mut Vec<FlatInstruction>,
    context: &FunctionContext,
    into: u32,
    from: u32,
    scratch: u32,
) -> Result<(), AllocError>
    requires into { into + 5 ≤ scratch }
    requires room { scratch + 16 ≤ 2 ^ 31 }
    ensures { OnOk result (code.new.items ≡ code.old.items
        ++ load_code (inline_lists S.entry_read S.entry_write context.now.map.now) Pointer true into from scratch) }
{
    // the address is moved away before the entry is written
    put(
        code,
        FlatInstruction::Move {
            into: scratch,
            from,
        },
    )?;
    let held = HeldScalar::Pointer(held_from(into));
    put_load::<S>(code, context, scratch, held, scratch + 1)
}

/// Puts the load of a scalar through a temporary behind a list. It fails only for want of memory.
pub fn put_scalar<S: ShadowForm>(
    code: &mut Vec<FlatInstruction>,
    context: &FunctionContext,
    scalar: Scalar,
    with_entry: bool,
    into: u32,
    from: u32,
    scratch: u32,
) -> Result<(), AllocError>
    requires into { into + 5 ≤ scratch }
    requires from { from + 5 ≤ scratch }
    requires room { scratch + 16 ≤ 2 ^ 31 }
    ensures { OnOk result (code.new.items ≡ code.old.items
        ++ load_code (inline_lists S.entry_read S.entry_write context.now.map.now) scalar with_entry into from scratch) }
{
    match scalar {
        Scalar::Integer(int_type) => {
            let held = HeldScalar::Integer(int_type, into);
            put_load::<S>(code, context, from, held, scratch)?;
            put_untagged(code, with_entry, into)
        }
        Scalar::Pointer if with_entry => put_load_pointer::<S>(code, context, into, from, scratch),
        Scalar::Pointer => {
            let word = HeldScalar::Integer(IntType::UnsignedLong, into);
            put_load::<S>(code, context, from, word, scratch)
        }
    }
}

/// The registers of a write through a pointer.
#[derive(Clone, Copy)]
pub struct WriteRegisters {
    /// That of the value that it gives.
    pub into: u32,
    /// That of the pointer.
    pub pointer: u32,
    /// That of the value that is stored.
    pub value: u32,
    /// The first that is free.
    pub scratch: u32,
}

// Puts a pointer stored through a pointer behind a list.
#[tactic(auto, using(crate::proofs::Operands::all_below))]
fn put_pointer_write<S: ShadowForm>(
    code: &mut Vec<FlatInstruction>,
    context: &FunctionContext,
    with_entry: bool,
    registers: WriteRegisters,
) -> Result<(), AllocError>
    requires into { registers.into + 5 ≤ registers.scratch }
    requires pointer { registers.pointer + 5 ≤ registers.scratch }
    requires value { registers.value + 5 ≤ registers.scratch }
    requires room { registers.scratch + 16 ≤ 2 ^ 31 }
    ensures { OnOk result (code.new.items ≡ code.old.items
        ++ write_code (inline_lists S.entry_read S.entry_write context.now.map.now) Pointer with_entry registers.into
        registers.pointer registers.value registers.scratch) }
{
    let held = HeldScalar::Pointer(held_from(registers.value));
    put_store::<S>(code, context, registers.pointer, held, registers.scratch)?;
    put_value(code, with_entry, registers.into, registers.value)
}

/// Puts a scalar stored through a pointer behind a list, and the value of the assignment. It fails only for want of
/// memory.
pub fn put_write<S: ShadowForm>(
    code: &mut Vec<FlatInstruction>,
    context: &FunctionContext,
    scalar: Scalar,
    with_entry: bool,
    registers: WriteRegisters,
) -> Result<(), AllocError>
    requires into { registers.into + 5 ≤ registers.scratch }
    requires pointer { registers.pointer + 5 ≤ registers.scratch }
    requires value { registers.value + 5 ≤ registers.scratch }
    requires room { registers.scratch + 16 ≤ 2 ^ 31 }
    ensures { OnOk result (code.new.items ≡ code.old.items
        ++ write_code (inline_lists S.entry_read S.entry_write context.now.map.now) scalar with_entry registers.into
        registers.pointer registers.value registers.scratch) }
{
    let WriteRegisters {
        into,
        pointer,
        value,
        scratch,
    } = registers;
    match scalar {
        Scalar::Integer(int_type) => {
            let held = HeldScalar::Integer(int_type, value);
            put_store::<S>(code, context, pointer, held, scratch)?;
            put(code, FlatInstruction::Move { into, from: value })?;
            put_untagged(code, with_entry, into)
        }
        Scalar::Pointer => put_pointer_write::<S>(code, context, with_entry, registers),
    }
}
