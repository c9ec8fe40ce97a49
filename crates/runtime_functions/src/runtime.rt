//! The functions of the runtime, a fixed list that stands behind the functions of the text.

ghost use Rattle.std.specs.Prelude.{◌≡◌, ◌+◌, ◌<◌, ◌^◌, IfOk, length};
ghost use Rattle.addr_map.specs.Places.{AreMapped};
ghost use Rattle.flat_code.specs.Routines.Shape.{HasShape};
ghost use Rattle.runtime_functions.specs.Functions.{cleared_registers};
ghost use Rattle.runtime_functions.specs.Sizes.{most_registers};
ghost use Rattle.runtime_functions.specs.Runtime.{most_instructions};
ghost use Rattle.runtime_functions.specs.Runtime.{runtime_list, argument_count, result_count, IsRuntimeCode};
ghost use Rattle.runtime_functions.specs.Runtime.{IsOfRuntime, AreOfRuntime};

use crate::function::{RuntimeFrame, runtime_function};
use crate::library::{LibraryFunction, library_code};
use addr_map::AddrMap;
use c_tree::Directive;
use flat_code::{Entry, FlatFunction, FlatInstruction, Held};
use lib_wrappers::allocating::{EntryRegisters, enter, zero};
use lib_wrappers::areas::{make_zero, put_structure, take_part, take_structure};
use lib_wrappers::moving::move_tagged;
use lib_wrappers::printing::numbers::number;
use lib_wrappers::strings::{put_bytes, scan};
use sb_base::Line;
use shadow_space::ShadowForm;
use std::alloc::{AllocError, Global};

/// A function of the runtime.
#[derive(Clone, Copy)]
pub enum RuntimeFunction {
    /// A routine of the library.
    Library(LibraryFunction),
    /// Scans the string of a pointer, and gives the address of its 0 byte.
    Scan,
    /// Puts out the bytes from one address up to another.
    PutBytes,
    /// Puts out the argument of a directive of `printf` (C99 7.19.6.1), and gives how many bytes these are.
    PutNumber(Directive),
    /// Makes a range of object space zero, from an address on, so many bytes.
    Zero,
    /// Moves a range with its entries: to an address, from an address, so many bytes.
    CopyTagged,
    /// Makes the objects of a block that is entered, by the end of the object stack and by their bytes. Gives where
    /// they begin and end, their key and their lock word.
    Enter,
    /// Makes the contents of a structure of zeros in an area, by where it begins and its bytes.
    ZeroArea,
    /// Takes the contents of a structure to an area: to where it begins, from an address, so many bytes.
    TakeArea,
    /// Puts a part of contents to a place: to an address, so many bytes, and the registers of the part.
    PutArea,
    /// Takes a part of contents to an area: to where it begins, so many bytes, and the registers of the part.
    MoveArea,
}

const RUNTIME: [RuntimeFunction; 30] = [
    RuntimeFunction::Library(LibraryFunction::Malloc),
    RuntimeFunction::Library(LibraryFunction::Calloc),
    RuntimeFunction::Library(LibraryFunction::Free),
    RuntimeFunction::Library(LibraryFunction::Realloc),
    RuntimeFunction::Library(LibraryFunction::Memcpy),
    RuntimeFunction::Library(LibraryFunction::Memmove),
    RuntimeFunction::Library(LibraryFunction::Memset),
    RuntimeFunction::Library(LibraryFunction::Memcmp),
    RuntimeFunction::Library(LibraryFunction::Strlen),
    RuntimeFunction::Library(LibraryFunction::Strcmp),
    RuntimeFunction::Library(LibraryFunction::Strcpy),
    RuntimeFunction::Library(LibraryFunction::Strncpy),
    RuntimeFunction::Library(LibraryFunction::Strcat),
    RuntimeFunction::Library(LibraryFunction::Strchr),
    RuntimeFunction::Library(LibraryFunction::Puts),
    RuntimeFunction::Scan,
    RuntimeFunction::PutBytes,
    RuntimeFunction::PutNumber(Directive::Int),
    RuntimeFunction::PutNumber(Directive::UnsignedInt),
    RuntimeFunction::PutNumber(Directive::Hexadecimal),
    RuntimeFunction::PutNumber(Directive::Character),
    RuntimeFunction::PutNumber(Directive::Long),
    RuntimeFunction::PutNumber(Directive::UnsignedLong),
    RuntimeFunction::Zero,
    RuntimeFunction::CopyTagged,
    RuntimeFunction::Enter,
    RuntimeFunction::ZeroArea,
    RuntimeFunction::TakeArea,
    RuntimeFunction::PutArea,
    RuntimeFunction::MoveArea,
];

/// All of them, in the order of their numbers.
pub fn all_functions() -> &'static [RuntimeFunction]
    ensures { result.now ≡ runtime_list }
{
    &RUNTIME
}

// How many registers each of the functions has.
const REGISTERS: u32 = 254;

// The registers of a pointer that is the only argument.
const POINTER: Held = Held {
    value: 0,
    tag: Entry {
        base: 1,
        bound: 2,
        key: 3,
        lock: 4,
    },
};

// Those of a part of contents, behind where to and how many bytes.
const PART: Held = Held {
    value: 2,
    tag: Entry {
        base: 3,
        bound: 4,
        key: 5,
        lock: 6,
    },
};

// Those that a block is entered with.
const ENTERED: EntryRegisters = EntryRegisters {
    first: 3,
    end: 4,
    key: 5,
    lock: 6,
};

impl RuntimeFunction {
    /// How many arguments it takes.
    pub fn parameters(self) -> u32
        ensures { result ≡ argument_count self }
    {
        match self {
            RuntimeFunction::Library(function) => function.parameters(),
            RuntimeFunction::Scan => 5,
            RuntimeFunction::PutBytes
            | RuntimeFunction::Zero
            | RuntimeFunction::Enter
            | RuntimeFunction::ZeroArea => 2,
            RuntimeFunction::PutNumber(_) => 1,
            RuntimeFunction::CopyTagged | RuntimeFunction::TakeArea => 3,
            RuntimeFunction::PutArea | RuntimeFunction::MoveArea => 7,
        }
    }

    /// How many results it gives, behind the status.
    pub fn results(self) -> u32
        ensures { result ≡ result_count self }
    {
        match self {
            RuntimeFunction::Library(function) => function.results(),
            RuntimeFunction::Scan | RuntimeFunction::PutNumber(_) => 1,
            RuntimeFunction::PutBytes
            | RuntimeFunction::Zero
            | RuntimeFunction::CopyTagged
            | RuntimeFunction::ZeroArea
            | RuntimeFunction::TakeArea
            | RuntimeFunction::PutArea
            | RuntimeFunction::MoveArea => 0,
            RuntimeFunction::Enter => 4,
        }
    }
}

// The code of a function, for a line.
fn runtime_code<S: ShadowForm>(
    alloc: Global,
    map: &AddrMap,
    function: RuntimeFunction,
    line: Line,
) -> Result<Vec<FlatInstruction>, AllocError>
    requires map { AreMapped map.now }
    ensures code { IfOk result (λ r. IsRuntimeCode map.now S.entry (S.IsGood map.now) function line r.items) }
    ensures shape { IfOk result (λ r. HasShape r.items (most_instructions function) most_registers) }
    ensures few { IfOk result (λ r. length r.items + cleared_registers < 2 ^ 31) }
{
    match function {
        RuntimeFunction::Library(function) => library_code::<S>(alloc, map, function, line),
        RuntimeFunction::Scan => scan::<S>(alloc, map, POINTER, 6, line, 7),
        RuntimeFunction::PutBytes => put_bytes(alloc, map, 0, 1, 3),
        RuntimeFunction::PutNumber(directive) => number(alloc, map, directive, 0, 2, 3),
        RuntimeFunction::Zero => zero::<S>(alloc, map, 0, 1, 3),
        RuntimeFunction::CopyTagged => move_tagged::<S>(alloc, map, 0, 1, 2, 4),
        RuntimeFunction::Enter => enter::<S>(alloc, map, 0, 1, ENTERED, line, 7),
        RuntimeFunction::ZeroArea => make_zero::<S>(alloc, map, 0, 1, 3),
        RuntimeFunction::TakeArea => take_structure::<S>(alloc, map, 0, 1, 2, 4),
        RuntimeFunction::PutArea => put_structure::<S>(alloc, map, 0, PART, 1, 8),
        RuntimeFunction::MoveArea => take_part::<S>(alloc, map, 0, PART, 1, 8),
    }
}

/// A function of the runtime, built once for calls at every line. The only refusal is that memory fails.
pub fn runtime_function_of<S: ShadowForm>(
    alloc: Global,
    map: &AddrMap,
    function: RuntimeFunction,
) -> Result<FlatFunction, AllocError>
    requires map { AreMapped map.now }
    ensures { IfOk result (IsOfRuntime map.now S.entry (S.IsGood map.now) function) }
{
    let routine = runtime_code::<S>(alloc, map, function, Line::first())?;
    let frame = RuntimeFrame {
        parameters: function.parameters(),
        results: function.results(),
        registers: REGISTERS,
    };
    runtime_function(alloc, &routine, frame)
}

// The functions of a list, in its order.
fn functions_of<S: ShadowForm>(
    alloc: Global,
    map: &AddrMap,
    list: &[RuntimeFunction],
) -> Result<Vec<FlatFunction>, AllocError>
    requires map { AreMapped map.now }
    ensures { IfOk result (λ r. AreOfRuntime map.now S.entry (S.IsGood map.now) list.now r.items) }
{
    let mut functions = Vec::new(alloc);
    for function in list {
        let next = runtime_function_of::<S>(alloc, map, *function)?;
        functions.push(next)?;
    }
    Ok(functions)
}

/// All functions of the runtime, in the order of their numbers. The only refusal is that memory fails.
pub fn runtime_functions<S: ShadowForm>(
    alloc: Global,
    map: &AddrMap,
) -> Result<Vec<FlatFunction>, AllocError>
    requires map { AreMapped map.now }
    ensures { IfOk result (λ r. AreOfRuntime map.now S.entry (S.IsGood map.now) runtime_list r.items) }
{
    functions_of::<S>(alloc, map, all_functions())
}
