//! Values with their entries, as they go from some registers to others.

ghost use Rattle.std.specs.Prelude.{◌≡◌, ◌+◌, ◌<◌, ◌≤◌, ◌^◌, ◌++◌, true, OnOk};
ghost use Rattle.flat_code.specs.Routines.Registers.{AreBelow};
ghost use Rattle.runtime_functions.specs.Library.{held_from};
ghost use Rattle.lib_wrappers.specs.AccessRoutines.Accessing.{no_entry};
ghost use Rattle.metadata_relation.specs.Registers.{entry_from};
ghost use Rattle.metadata_relation.specs.Blocks.{move_entry, move_entry_if, move_value, untagged};

use crate::list::put;
use flat_code::{Entry, FlatInstruction, Held};
use std::alloc::AllocError;

/// The registers of a value with its entry from one on.
pub fn held_from(register: u32) -> Held
    requires { register ≤ 2 ^ 31 }
    ensures { result ≡ held_from register }
{
    Held {
        value: register,
        tag: Entry {
            base: register + 1,
            bound: register + 2,
            key: register + 3,
            lock: register + 4,
        },
    }
}

/// The registers of an entry from one on.
pub fn entry_from(register: u32) -> Entry
    requires { register ≤ 2 ^ 31 }
    ensures { result ≡ entry_from register }
{
    Entry {
        base: register,
        bound: register + 1,
        key: register + 2,
        lock: register + 3,
    }
}

/// Puts what moves an entry behind a list. It fails only for want of memory.
pub fn put_entry(
    code: &mut Vec<FlatInstruction>,
    into: Entry,
    from: Entry,
) -> Result<(), AllocError>
    ensures { OnOk result (code.new.items ≡ code.old.items ++ move_entry into from) }
{
    put(
        code,
        FlatInstruction::Move {
            into: into.base,
            from: from.base,
        },
    )?;
    put(
        code,
        FlatInstruction::Move {
            into: into.bound,
            from: from.bound,
        },
    )?;
    put(
        code,
        FlatInstruction::Move {
            into: into.key,
            from: from.key,
        },
    )?;
    put(
        code,
        FlatInstruction::Move {
            into: into.lock,
            from: from.lock,
        },
    )
}

/// Puts what moves an entry behind a list, where it is kept. It fails only for want of memory.
#[tactic(auto, using(crate::proofs::Lists::nothing_behind))]
pub fn put_entry_if(
    code: &mut Vec<FlatInstruction>,
    with_entry: bool,
    into: Entry,
    from: Entry,
) -> Result<(), AllocError>
    ensures { OnOk result (code.new.items ≡ code.old.items ++ move_entry_if with_entry into from) }
{
    if with_entry {
        put_entry(code, into, from)
    } else {
        Ok(())
    }
}

// Puts the entry of no pointer behind a list.
fn put_no_entry(code: &mut Vec<FlatInstruction>, into: Entry) -> Result<(), AllocError>
    ensures { OnOk result (code.new.items ≡ code.old.items ++ no_entry into) }
{
    put(
        code,
        FlatInstruction::Constant {
            into: into.base,
            value: 0,
        },
    )?;
    put(
        code,
        FlatInstruction::Constant {
            into: into.bound,
            value: 0,
        },
    )?;
    put(
        code,
        FlatInstruction::Constant {
            into: into.key,
            value: 0,
        },
    )?;
    put(
        code,
        FlatInstruction::Constant {
            into: into.lock,
            value: 0,
        },
    )
}

/// Puts the entry of no pointer behind a list, where the integer in a register has one. It fails only for want of
/// memory.
#[tactic(auto, using(crate::proofs::Lists::nothing_behind))]
pub fn put_untagged(
    code: &mut Vec<FlatInstruction>,
    with_entry: bool,
    register: u32,
) -> Result<(), AllocError>
    requires { register ≤ 2 ^ 31 }
    ensures { OnOk result (code.new.items ≡ code.old.items ++ untagged with_entry register) }
{
    if with_entry {
        put_no_entry(code, held_from(register).tag)
    } else {
        Ok(())
    }
}

/// Puts what moves a value behind a list, with its entry where that is kept. It fails only for want of memory.
pub fn put_value(
    code: &mut Vec<FlatInstruction>,
    with_entry: bool,
    into: u32,
    from: u32,
) -> Result<(), AllocError>
    requires into { into ≤ 2 ^ 31 }
    requires from { from ≤ 2 ^ 31 }
    ensures { OnOk result (code.new.items ≡ code.old.items ++ move_value with_entry into from) }
{
    put(code, FlatInstruction::Move { into, from })?;
    if with_entry {
        put_entry(code, held_from(into).tag, held_from(from).tag)
    } else {
        Ok(())
    }
}
