//! What the code of all functions of a program is made from.

use addr_map::AddrMap;
use instruction_selection::statics::StaticPlace;
use std::alloc::Global;
use tac_ir::Tac;

/// What the code of all functions of a program is made from.
#[derive(Clone, Copy)]
pub struct Tables<'a> {
    /// The allocator of the lists.
    pub alloc: Global,
    /// The places of the regions.
    pub map: &'a AddrMap,
    /// The program.
    pub program: &'a Tac,
    /// Where the static objects stand, by their numbers.
    pub statics: &'a [StaticPlace],
    /// What the keys of pointers to the functions tell of their types, by their numbers.
    pub types: &'a [u64],
}
