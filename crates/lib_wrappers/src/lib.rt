//! What a program asks of its runtime, in flat code: each routine is an action of the source's own definition of it.
//!
//! Objects: `accesses` has loads and stores of scalars, with both tests before them, `allocating` births and deaths of
//! objects, on the heap and in blocks, `areas` the contents of structures that stand for no object.
//!
//! The library: `moving` has ranges that are moved and filled, with `memmove`, `memcpy`, `memset` and the assignment of
//! structures; `strings` strings that are scanned, copied and put out; `printing` numbers and formats; `comparing`
//! bytes that are sought and compared.
#![tactic(auto)]

pub mod accesses;
pub mod allocating;
pub mod areas;
pub mod comparing;
pub mod moving;
pub mod printing;
pub mod strings;
