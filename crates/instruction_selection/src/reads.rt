//! What is read through pointers, or out of contents (C99 6.3.2.1, 6.5.2.3 paragraph 3).

ghost use Rattle.std.specs.Prelude.{◌≡◌, ◌+◌, ◌<◌, ◌≤◌, ◌^◌, ◌++◌, true, length, IfOk, OnOk};
ghost use Rattle.flat_code.specs.Routines.Registers.{AreBelow, AreDistinct};
ghost use Rattle.flat_actions.specs.Actions.{registers_of};
ghost use Rattle.lib_wrappers.specs.AccessRoutines.Holding.{holder_in};
ghost use Rattle.lib_wrappers.specs.AreaRoutines.Reading.{read_part_code};
ghost use Rattle.runtime_functions.specs.Library.{held_from};
ghost use Rattle.metadata_relation.specs.InlineLists.{inline_lists};
ghost use Rattle.metadata_relation.specs.Blocks.{load_code, read_code};
ghost use Rattle.metadata_relation.specs.Structures.{place_or_part, scalar_part_code};

use crate::accesses::put_scalar;
use crate::context::FunctionContext;
use crate::entries::{held_from, put_untagged, put_value};
use crate::list::append;
use crate::structures::put_either;
use addr_map::laws::sizes_are_in_range;
use c_tree::Kind;
use flat_code::FlatInstruction;
use lib_wrappers::accesses::HeldScalar;
use lib_wrappers::accesses::laws::loads_are_exact;
use lib_wrappers::areas::read_part;
use obj_memory::{IntType, Scalar};
use shadow_space::ShadowForm;
use std::alloc::AllocError;

/// The registers of a read.
#[derive(Clone, Copy)]
pub struct ReadRegisters {
    /// That of the value that it gives.
    pub into: u32,
    /// That of what is read.
    pub from: u32,
    /// The first that is free.
    pub scratch: u32,
}

// Puts what reads the scalar at the beginning of a part of contents behind a list.
#[tactic(auto, using(crate::proofs::Operands::held_below))]
fn put_part_read(
    code: &mut Vec<FlatInstruction>,
    context: &FunctionContext,
    from: u32,
    into: HeldScalar,
    scratch: u32,
) -> Result<(), AllocError>
    requires from { from + 5 ≤ scratch }
    requires below { AreBelow scratch (registers_of (holder_in into)) }
    requires distinct { AreDistinct (registers_of (holder_in into)) }
    requires room { scratch + 16 ≤ 2 ^ 31 }
    ensures { OnOk result (code.new.items ≡ code.old.items ++ read_part_code (held_from from) into scratch) }
{
    let list = read_part(context.alloc, held_from(from), into, scratch)?;
    append(code, &list)
}

// Puts what reads a scalar out of contents behind a list.
#[tactic(auto, using(crate::proofs::ReadLists::integer_read, crate::proofs::Operands::held_below, crate::proofs::Operands::held_distinct))]
fn put_scalar_part(
    code: &mut Vec<FlatInstruction>,
    context: &FunctionContext,
    scalar: Scalar,
    with_entry: bool,
    registers: ReadRegisters,
) -> Result<(), AllocError>
    requires into { registers.into + 5 ≤ registers.scratch }
    requires from { registers.from + 5 ≤ registers.scratch }
    requires room { registers.scratch + 16 ≤ 2 ^ 31 }
    ensures { OnOk result (code.new.items ≡ code.old.items
        ++ scalar_part_code scalar with_entry registers.into registers.from registers.scratch) }
{
    let ReadRegisters {
        into,
        from,
        scratch,
    } = registers;
    match scalar {
        Scalar::Integer(int_type) => {
            let held = HeldScalar::Integer(int_type, into);
            put_part_read(code, context, from, held, scratch)?;
            put_untagged(code, with_entry, into)
        }
        Scalar::Pointer if with_entry => {
            let held = HeldScalar::Pointer(held_from(into));
            put_part_read(code, context, from, held, scratch)
        }
        Scalar::Pointer => {
            let word = HeldScalar::Integer(IntType::UnsignedLong, into);
            put_part_read(code, context, from, word, scratch)
        }
    }
}

// What reads a scalar out of contents.
#[tactic(auto, using(crate::proofs::ReadLists::part_short))]
fn scalar_part(
    context: &FunctionContext,
    scalar: Scalar,
    with_entry: bool,
    registers: ReadRegisters,
) -> Result<Vec<FlatInstruction>, AllocError>
    requires into { registers.into + 5 ≤ registers.scratch }
    requires from { registers.from + 5 ≤ registers.scratch }
    requires room { registers.scratch + 16 ≤ 2 ^ 31 }
    ensures list { IfOk result (λ list. list.items
        ≡ scalar_part_code scalar with_entry registers.into registers.from registers.scratch) }
    ensures few { IfOk result (λ list. length list.items < 2 ^ 31) }
{
    let mut list = Vec::new(context.alloc);
    put_scalar_part(&mut list, context, scalar, with_entry, registers)?;
    Ok(list)
}

// What reads a scalar from its place.
fn scalar_place<S: ShadowForm>(
    context: &FunctionContext,
    scalar: Scalar,
    with_entry: bool,
    registers: ReadRegisters,
) -> Result<Vec<FlatInstruction>, AllocError>
    requires into { registers.into + 5 ≤ registers.scratch }
    requires from { registers.from + 5 ≤ registers.scratch }
    requires room { registers.scratch + 16 ≤ 2 ^ 31 }
    ensures list { IfOk result (λ list. list.items
        ≡ load_code (inline_lists S.entry_read S.entry_write context.now.map.now) scalar with_entry registers.into
        registers.from registers.scratch) }
    ensures few { IfOk result (λ list. length list.items < 2 ^ 31) }
{
    let ReadRegisters {
        into,
        from,
        scratch,
    } = registers;
    sizes_are_in_range(context.map);
    loads_are_exact::<S>();
    let mut list = Vec::new(context.alloc);
    put_scalar::<S>(&mut list, context, scalar, with_entry, into, from, scratch)?;
    Ok(list)
}

// Puts what reads a scalar behind a list: from its place, or out of contents, as the lock word tells.
#[tactic(auto, using(crate::proofs::ReadLists::place_or_part_put))]
fn put_place_or_part<S: ShadowForm>(
    code: &mut Vec<FlatInstruction>,
    context: &FunctionContext,
    scalar: Scalar,
    with_entry: bool,
    registers: ReadRegisters,
) -> Result<(), AllocError>
    requires into { registers.into + 5 ≤ registers.scratch }
    requires from { registers.from + 5 ≤ registers.scratch }
    requires room { registers.scratch + 16 ≤ 2 ^ 31 }
    ensures { OnOk result (code.new.items ≡ code.old.items ++ place_or_part true registers.from
        (scalar_part_code scalar with_entry registers.into registers.from registers.scratch)
        (load_code (inline_lists S.entry_read S.entry_write context.now.map.now) scalar with_entry registers.into
        registers.from registers.scratch)) }
{
    let part = scalar_part(context, scalar, with_entry, registers)?;
    let place = scalar_place::<S>(context, scalar, with_entry, registers)?;
    put_either(code, registers.from + 4, part.as_slice(), place.as_slice())
}

// Puts what reads a scalar behind a list, which may be a member of contents.
fn put_scalar_read<S: ShadowForm>(
    code: &mut Vec<FlatInstruction>,
    context: &FunctionContext,
    scalar: Scalar,
    may_be_part: bool,
    with_entry: bool,
    registers: ReadRegisters,
) -> Result<(), AllocError>
    requires into { registers.into + 5 ≤ registers.scratch }
    requires from { registers.from + 5 ≤ registers.scratch }
    requires room { registers.scratch + 16 ≤ 2 ^ 31 }
    ensures { OnOk result (code.new.items ≡ code.old.items ++ place_or_part may_be_part registers.from
        (scalar_part_code scalar with_entry registers.into registers.from registers.scratch)
        (load_code (inline_lists S.entry_read S.entry_write context.now.map.now) scalar with_entry registers.into
        registers.from registers.scratch)) }
{
    let ReadRegisters {
        into,
        from,
        scratch,
    } = registers;
    if may_be_part {
        put_place_or_part::<S>(code, context, scalar, with_entry, registers)
    } else {
        put_scalar::<S>(code, context, scalar, with_entry, into, from, scratch)
    }
}

/// Puts what gives what is read behind a list: a scalar is loaded through the pointer, or read out of contents where it
/// may be a member of these, and all else is where it lies. It fails only for want of memory.
pub fn put_read<S: ShadowForm>(
    code: &mut Vec<FlatInstruction>,
    context: &FunctionContext,
    kind: Kind,
    may_be_part: bool,
    with_entry: bool,
    registers: ReadRegisters,
) -> Result<(), AllocError>
    requires into { registers.into + 5 ≤ registers.scratch }
    requires from { registers.from + 5 ≤ registers.scratch }
    requires room { registers.scratch + 16 ≤ 2 ^ 31 }
    ensures { OnOk result (code.new.items ≡ code.old.items
        ++ read_code (inline_lists S.entry_read S.entry_write context.now.map.now) may_be_part kind with_entry
        registers.into registers.from registers.scratch) }
{
    match kind {
        Kind::Scalar(scalar) => {
            put_scalar_read::<S>(code, context, scalar, may_be_part, with_entry, registers)
        }
        Kind::Void | Kind::Structure(_) | Kind::Array(_) => {
            put_value(code, with_entry, registers.into, registers.from)
        }
    }
}
