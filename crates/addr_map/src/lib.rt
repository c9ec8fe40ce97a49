//! Where everything of a compiled program stands: the regions of its memory.
//!
//! | Region | First address | Bytes |
//! |---|---|---|
//! | `JumpTable` | 0x10000 | 0xf0000: a jump table entry of 16 bytes for each function, then the runtime |
//! | `Code` | 0x100000 | 0x800000: compiled code |
//! | `Globals` | 0x10000000 | the objects of static storage duration, in whole pages of 4096 bytes |
//! | `Stack` | behind `Globals` | the budget `stack`: automatic objects |
//! | `Heap` | behind `Stack` | the budget `heap`: allocated objects |
//! | `Shadow` | 0x40000000 | the entries of the words of `Globals`, `Stack` and `Heap`: of 32 bytes each (four for each
//! byte of object space), 8 bytes of a first level for each page of object space, and a cell of 8 bytes |
//! | `Locks` | behind `Shadow` | a lock word for `Globals`, for each 16 bytes of `Stack` and for each of the budget
//! `blocks` |
//! | `FreeLocks` | behind `Locks` | a word for each lock word, and a cell |
//! | `Blocks` | behind `FreeLocks` | for each of the budget `blocks` an address, a size, a key and a lock word's
//! address, and a cell |
//! | `StructureValues` | behind `Blocks` | the budget `calls`: structures that wait as values, five bytes for each of
//! theirs |
//! | `Cells` | behind `StructureValues` | 4096: single words of the runtime |
//! | `Arguments` | behind `Cells` | 8192: five words for each argument of a call, of which there are at most 127, and
//! for its result |
//! | `Calls` | behind `Arguments` | twice the budget `calls`: activation records of the program's functions, each of twice
//! the bytes that its call is charged |
//! | `RuntimeCalls` | behind `Calls` | 65536: those of the runtime's functions, whose calls do not nest deeper |
//!
//! The room of `Shadow` serves entries that stand directly (four bytes for each byte) as well as two
//! levels with a table in reserve for each page. Each region is in whole pages. Words have 8 bytes.
#![tactic(auto)]

pub mod laws;
pub mod map;
pub mod region;

pub use map::{AddrMap, TooLarge, function_address};
pub use region::Region;
