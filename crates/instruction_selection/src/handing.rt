//! How values are handed over, to functions of the program and of the runtime (C99 6.5.2.2).

ghost use Rattle.std.specs.Prelude.{◌≡◌, ◌+◌, ◌*◌, ◌<◌, ◌≤◌, ◌^◌, ◌++◌, length, map, OnOk, IfOk};
ghost use Rattle.metadata_plan.specs.Registers.{most_temporaries};
ghost use Rattle.runtime_functions.specs.Library.{register_count, signature};
ghost use Rattle.metadata_relation.specs.Registers.{passed_as};
ghost use Rattle.metadata_relation.specs.Blocks.{pack, pack_value, unpack};
ghost use Rattle.instruction_selection.specs.Calls.{given_by, passed_by};
ghost use Rattle.instruction_selection.specs.Contexts.{HasRegisters};

use crate::context::FunctionContext;
use crate::entries::{put_untagged, put_value};
use crate::list::put;
use c_tree::{Kind, Variable};
use flat_code::FlatInstruction;
use obj_memory::Scalar;
use runtime_functions::LibraryFunction;
use std::alloc::{AllocError, Global};

/// How a value is handed over.
#[derive(Clone, Copy)]
pub enum Handed {
    /// In one register.
    Word,
    /// With its entry behind it, in five.
    Held,
}

impl Handed {
    /// How many registers it takes.
    pub fn count(self) -> u32
        ensures value { result ≡ register_count (passed_by self) }
        ensures few { result ≤ 5 }
    {
        match self {
            Handed::Word => 1,
            Handed::Held => 5,
        }
    }

    /// How a value of a kind is handed over.
    pub fn of(kind: Kind) -> Handed
        ensures { passed_by result ≡ passed_as kind }
    {
        match kind {
            Kind::Void | Kind::Scalar(Scalar::Integer(_)) | Kind::Array(_) => Handed::Word,
            Kind::Scalar(Scalar::Pointer) | Kind::Structure(_) => Handed::Held,
        }
    }
}

/// How the arguments of parameters are handed over. It fails only for want of memory.
pub fn handed_to(alloc: Global, parameters: &[Variable]) -> Result<Vec<Handed>, AllocError>
    ensures list { IfOk result (λ list. map passed_by list.items ≡ map (λ v. passed_as v.kind) parameters.now) }
    ensures count { IfOk result (λ list. length list.items ≡ length parameters.now) }
{
    let mut list = Vec::new(alloc);
    for i in 0..parameters.len() {
        list.push(Handed::of(parameters[i].kind))?;
    }
    Ok(list)
}

/// How the arguments of a routine of the library are handed over.
pub fn takes(function: LibraryFunction) -> &'static [Handed]
    ensures { map passed_by result.now ≡ (signature function).takes }
{
    match function {
        LibraryFunction::Malloc => &[Handed::Word],
        LibraryFunction::Calloc => &[Handed::Word, Handed::Word],
        LibraryFunction::Free | LibraryFunction::Strlen | LibraryFunction::Puts => &[Handed::Held],
        LibraryFunction::Realloc | LibraryFunction::Strchr => &[Handed::Held, Handed::Word],
        LibraryFunction::Memset => &[Handed::Held, Handed::Word, Handed::Word],
        LibraryFunction::Memcpy
        | LibraryFunction::Memmove
        | LibraryFunction::Memcmp
        | LibraryFunction::Strncpy => &[Handed::Held, Handed::Held, Handed::Word],
        LibraryFunction::Strcmp | LibraryFunction::Strcpy | LibraryFunction::Strcat => {
            &[Handed::Held, Handed::Held]
        }
    }
}

/// How the result of a routine of the library is handed over, if there is one.
pub fn gives(function: LibraryFunction) -> Option<Handed>
    ensures { given_by result ≡ (signature function).gives }
{
    match function {
        LibraryFunction::Free => None,
        LibraryFunction::Memcmp
        | LibraryFunction::Strlen
        | LibraryFunction::Strcmp
        | LibraryFunction::Puts => Some(Handed::Word),
        LibraryFunction::Malloc
        | LibraryFunction::Calloc
        | LibraryFunction::Realloc
        | LibraryFunction::Memcpy
        | LibraryFunction::Memmove
        | LibraryFunction::Memset
        | LibraryFunction::Strcpy
        | LibraryFunction::Strncpy
        | LibraryFunction::Strcat
        | LibraryFunction::Strchr => Some(Handed::Held),
    }
}

// Puts what hands over one value behind a list.
fn put_handed(
    code: &mut Vec<FlatInstruction>,
    handed: Handed,
    into: u32,
    from: u32,
) -> Result<(), AllocError>
    requires into { into ≤ 2 ^ 31 }
    requires from { from ≤ 2 ^ 31 }
    ensures { OnOk result (code.new.items ≡ code.old.items ++ pack_value (passed_by handed) into from) }
{
    match handed {
        Handed::Word => put(code, FlatInstruction::Move { into, from }),
        Handed::Held => put_value(code, true, into, from),
    }
}

/// Puts what hands over the values of temporaries, from one on, in registers one behind the other, behind a list. It
/// fails only for want of memory.
pub fn put_pack(
    code: &mut Vec<FlatInstruction>,
    context: &FunctionContext,
    list: &[Handed],
    into: u32,
    first: usize,
) -> Result<(), AllocError>
    requires registers { HasRegisters context.now }
    requires among { first + length list.now ≤ most_temporaries context.now.function.now.code }
    requires room { into + 5 * length list.now ≤ 2 ^ 31 }
    ensures { OnOk result (code.new.items ≡ code.old.items
        ++ pack context.now.function.now (map passed_by list.now) into first) }
{
    let mut register = into;
    for i in 0..list.len() {
        let handed = list[i];
        let from = context.temporary(first + i);
        let _room = context.free();
        put_handed(code, handed, register, from)?;
        register += handed.count();
    }
    Ok(())
}

/// Puts what brings a result to its temporary behind a list. It fails only for want of memory.
pub fn put_unpack(
    code: &mut Vec<FlatInstruction>,
    given: Option<Handed>,
    with_entry: bool,
    into: u32,
    from: u32,
) -> Result<(), AllocError>
    requires into { into ≤ 2 ^ 31 }
    requires from { from ≤ 2 ^ 31 }
    ensures { OnOk result (code.new.items ≡ code.old.items ++ unpack (given_by given) with_entry into from) }
{
    match given {
        Some(Handed::Held) => put_value(code, with_entry, into, from),
        Some(Handed::Word) => {
            put(code, FlatInstruction::Move { into, from })?;
            put_untagged(code, with_entry, into)
        }
        None => {
            put(code, FlatInstruction::Constant { into, value: 0 })?;
            put_untagged(code, with_entry, into)
        }
    }
}
