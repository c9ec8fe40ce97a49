//! The routines of the library that are functions of the runtime.

ghost use Rattle.std.specs.Prelude.{◌≡◌, IfOk};
ghost use Rattle.addr_map.specs.Places.{AreMapped};
ghost use Rattle.flat_code.specs.Routines.Shape.{HasShape};
ghost use Rattle.runtime_functions.specs.Sizes.{most_registers};
ghost use Rattle.runtime_functions.specs.Runtime.{most_instructions};
ghost use Rattle.runtime_functions.specs.declared.runtime.RuntimeFunction.TheVariants.{Library};
ghost use Rattle.runtime_functions.specs.Library.{IsLibraryCode, parameters_of, results_of};

use addr_map::AddrMap;
use flat_code::{Entry, FlatInstruction, Held};
use lib_wrappers::allocating::{calloc, free, malloc, realloc};
use lib_wrappers::comparing::{RangeRegisters, memcmp, strchr, strcmp};
use lib_wrappers::moving::{CopyRegisters, FillRegisters, memmove, memset};
use lib_wrappers::strings::{puts, strcat, strcpy, strlen, strncpy};
use sb_base::Line;
use shadow_space::ShadowForm;
use std::alloc::{AllocError, Global};

/// A routine of the library that is a function of the runtime. What others do is code of the program.
#[derive(Clone, Copy)]
pub enum LibraryFunction {
    /// `malloc` (C99 7.20.3.3).
    Malloc,
    /// `calloc` (7.20.3.1).
    Calloc,
    /// `free` (7.20.3.2).
    Free,
    /// `realloc` (7.20.3.4).
    Realloc,
    /// `memcpy` (7.21.2.1).
    Memcpy,
    /// `memmove` (7.21.2.2).
    Memmove,
    /// `memset` (7.21.6.1).
    Memset,
    /// `memcmp` (7.21.4.1).
    Memcmp,
    /// `strlen` (7.21.6.3).
    Strlen,
    /// `strcmp` (7.21.4.2).
    Strcmp,
    /// `strcpy` (7.21.2.3).
    Strcpy,
    /// `strncpy` (7.21.2.4).
    Strncpy,
    /// `strcat` (7.21.3.1).
    Strcat,
    /// `strchr` (7.21.5.2).
    Strchr,
    /// `puts` (7.19.7.10).
    Puts,
}

// The registers of a pointer that is the first argument, and of one that is the second.
const FIRST: Held = Held {
    value: 0,
    tag: Entry {
        base: 1,
        bound: 2,
        key: 3,
        lock: 4,
    },
};

const SECOND: Held = Held {
    value: 5,
    tag: Entry {
        base: 6,
        bound: 7,
        key: 8,
        lock: 9,
    },
};

// The registers of the pointer that is given, behind the status, which stands behind the arguments.
const AT_2: Held = Held {
    value: 2,
    tag: Entry {
        base: 3,
        bound: 4,
        key: 5,
        lock: 6,
    },
};

const AT_3: Held = Held {
    value: 3,
    tag: Entry {
        base: 4,
        bound: 5,
        key: 6,
        lock: 7,
    },
};

const AT_7: Held = Held {
    value: 7,
    tag: Entry {
        base: 8,
        bound: 9,
        key: 10,
        lock: 11,
    },
};

const AT_8: Held = Held {
    value: 8,
    tag: Entry {
        base: 9,
        bound: 10,
        key: 11,
        lock: 12,
    },
};

const AT_11: Held = Held {
    value: 11,
    tag: Entry {
        base: 12,
        bound: 13,
        key: 14,
        lock: 15,
    },
};

const AT_12: Held = Held {
    value: 12,
    tag: Entry {
        base: 13,
        bound: 14,
        key: 15,
        lock: 16,
    },
};

const COPY: CopyRegisters = CopyRegisters {
    to: FIRST,
    from: SECOND,
    size: 10,
    into: AT_12,
};

const RANGE: FillRegisters = FillRegisters {
    to: FIRST,
    byte: 5,
    size: 6,
    into: AT_8,
};

const RANGES: RangeRegisters = RangeRegisters {
    left: FIRST,
    right: SECOND,
    size: 10,
    into: 12,
};

/// The routine at a line. The only refusal is that memory fails.
pub fn library_code<S: ShadowForm>(
    alloc: Global,
    map: &AddrMap,
    function: LibraryFunction,
    line: Line,
) -> Result<Vec<FlatInstruction>, AllocError>
    requires map { AreMapped map.now }
    ensures code { IfOk result (λ r. IsLibraryCode map.now S.entry (S.IsGood map.now) function line r.items) }
    ensures shape { IfOk result (λ r. HasShape r.items (most_instructions (Library function)) most_registers) }
{
    match function {
        LibraryFunction::Malloc => malloc::<S>(alloc, map, 0, AT_2, line, 7),
        LibraryFunction::Calloc => calloc::<S>(alloc, map, 0, 1, AT_3, line, 8),
        LibraryFunction::Free => free::<S>(alloc, map, FIRST, line, 6),
        LibraryFunction::Realloc => realloc::<S>(alloc, map, FIRST, 5, AT_7, line, 12),
        LibraryFunction::Memcpy => memmove::<S>(alloc, map, COPY, line, 17),
        LibraryFunction::Memmove => memmove::<S>(alloc, map, COPY, line, 17),
        LibraryFunction::Memset => memset::<S>(alloc, map, RANGE, line, 13),
        LibraryFunction::Memcmp => memcmp::<S>(alloc, map, RANGES, line, 13),
        LibraryFunction::Strlen => strlen::<S>(alloc, map, FIRST, 6, line, 7),
        LibraryFunction::Strcmp => strcmp::<S>(alloc, map, FIRST, SECOND, 11, line, 12),
        LibraryFunction::Strcpy => strcpy::<S>(alloc, map, FIRST, SECOND, AT_11, line, 16),
        LibraryFunction::Strncpy => strncpy::<S>(alloc, map, COPY, line, 17),
        LibraryFunction::Strcat => strcat::<S>(alloc, map, FIRST, SECOND, AT_11, line, 16),
        LibraryFunction::Strchr => strchr::<S>(alloc, map, FIRST, 5, AT_7, line, 12),
        LibraryFunction::Puts => puts::<S>(alloc, map, FIRST, 6, line, 7),
    }
}

impl LibraryFunction {
    /// How many registers its arguments take.
    pub fn parameters(self) -> u32
        ensures { result ≡ parameters_of self }
    {
        match self {
            LibraryFunction::Malloc => 1,
            LibraryFunction::Calloc => 2,
            LibraryFunction::Free | LibraryFunction::Strlen | LibraryFunction::Puts => 5,
            LibraryFunction::Realloc | LibraryFunction::Strchr => 6,
            LibraryFunction::Memset => 7,
            LibraryFunction::Strcmp | LibraryFunction::Strcpy | LibraryFunction::Strcat => 10,
            LibraryFunction::Memcpy | LibraryFunction::Memmove => 11,
            LibraryFunction::Memcmp | LibraryFunction::Strncpy => 11,
        }
    }

    /// How many registers its result takes.
    pub fn results(self) -> u32
        ensures { result ≡ results_of self }
    {
        match self {
            LibraryFunction::Free => 0,
            LibraryFunction::Memcmp | LibraryFunction::Strlen => 1,
            LibraryFunction::Strcmp | LibraryFunction::Puts => 1,
            LibraryFunction::Malloc | LibraryFunction::Calloc | LibraryFunction::Realloc => 5,
            LibraryFunction::Memcpy | LibraryFunction::Memmove | LibraryFunction::Memset => 5,
            LibraryFunction::Strcpy | LibraryFunction::Strncpy | LibraryFunction::Strcat => 5,
            LibraryFunction::Strchr => 5,
        }
    }
}
