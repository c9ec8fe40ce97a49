//! The regions of a compiled program's memory.

/// A region of memory, in the order of their addresses.
#[derive(Clone, Copy, Debug, PartialEq, Eq)]
pub enum Region {
    /// The jump table of the functions, and the runtime.
    JumpTable,
    /// Compiled code.
    Code,
    /// Objects of static storage duration.
    Globals,
    /// Automatic objects.
    Stack,
    /// Allocated objects.
    Heap,
    /// The metadata of the words of objects.
    Shadow,
    /// Lock words.
    Locks,
    /// The lock words that are free.
    FreeLocks,
    /// The live blocks of the heap.
    Blocks,
    /// Structures and unions that wait as values: arguments and results with their metadata.
    StructureValues,
    /// Single words of the runtime.
    Cells,
    /// The words of arguments and results while a call is made or returned from.
    Arguments,
    /// The activation records of the program's functions.
    Calls,
    /// The activation records of the runtime's functions, which stand behind those of the program.
    RuntimeCalls,
}
