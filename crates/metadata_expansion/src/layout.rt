//! Where the blocks of a function lie.

ghost use Rattle.std.specs.Prelude.{◌≡◌, ◌+◌, ◌<◌, ◌≤◌, ◌^◌, ◌↔◌, length, Some, slice_get, IfOk, IsTrue};
ghost use Rattle.metadata_plan.specs.Laid.{begin_size, falls, size_at, size_from};
ghost use Rattle.metadata_expansion.specs.Joins.{AreJoins};
ghost use Rattle.metadata_expansion.specs.Laying.{ArePlaces, CanAllBePut, laid_size, place_in};

use crate::joins::Joins;
use crate::jumps::{follows, jump_count};
use crate::laying::{BlockSource, beginning_size, block_size};
use std::alloc::{AllocError, Global};
use tac_ir::{CodeFunction, Instruction, ways_of};
use tree_containers::Items;

/// The instruction of a node.
pub(crate) fn instruction_at(function: &CodeFunction, node: usize) -> &Instruction
    requires { node < length function.now.code }
    ensures { slice_get function.now.code node ≡ Some result.now }
{
    &function.code.as_slice()[node]
}

// How many instructions a node has, with the jumps behind its block.
fn node_size<B: BlockSource>(
    alloc: Global,
    blocks: &B,
    function: &CodeFunction,
    joins: &Joins,
    node: usize,
    instruction: &Instruction,
) -> Result<u128, AllocError>
    requires can { B.CanPut blocks.now instruction.now }
    requires joins { AreJoins joins.now function.now }
    requires inside { node ≤ length function.now.code }
    ensures value { IfOk result (λ n. n ≡ size_at (B.block_for blocks.now) (B.beginning blocks.now)
        function.now node instruction.now) }
    ensures few { IfOk result (λ n. n < 2 ^ 65) }
{
    let size = block_size(alloc, blocks, instruction)?;
    let jumps = jump_count(function, joins, node, ways_of(instruction));
    Ok(size as u128 + u128::from(jumps))
}

/// Whether the body of a function has fewer than 2^31 instructions. It fails only for want of memory.
pub fn is_short<B: BlockSource>(
    alloc: Global,
    blocks: &B,
    function: &CodeFunction,
) -> Result<bool, AllocError>
    requires begins { B.CanBegin blocks.now }
    requires can { CanAllBePut (B.CanPut blocks.now) function.now }
    ensures { IfOk result (λ short. IsTrue short
        ↔ (laid_size (B.block_for blocks.now) (B.beginning blocks.now) function.now < 2 ^ 31)) }
{
    let joins = Joins::new(alloc, function)?;
    let count = function.code.as_slice().len();
    let mut size = beginning_size(alloc, blocks)? as u128;
    if !follows(count, function.entry) {
        size += 1;
    }
    for node in 0..count {
        if size >= 1 << 31 {
            return Ok(false);
        }
        let instruction = instruction_at(function, node);
        size += node_size(alloc, blocks, function, &joins, node, instruction)?;
    }
    Ok(size < 1 << 31)
}

/// The place of each node of a function.
#[derive(Drop)]
pub struct Places {
    /// Those of the nodes, the last node's first.
    pub descending: Items<u32>,
    /// That of a number that is no node's: behind the prologue and its jump.
    pub begin: u32,
}

impl Places {
    /// The place of a node.
    pub fn of(&self, node: usize) -> u32
        ensures { result ≡ place_in self.now node }
    {
        let places = self.descending.as_slice();
        if node < places.len() {
            places[places.len() - 1 - node]
        } else {
            self.begin
        }
    }
}

/// A function whose blocks have their places.
#[derive(Clone, Copy)]
pub struct Layout<'a> {
    /// The function.
    pub function: &'a CodeFunction,
    /// The nodes that more than one way leads to.
    pub joins: &'a Joins,
    /// The places of its nodes.
    pub places: &'a Places,
}

impl<'a> Layout<'a> {
    /// The place of a node.
    pub fn place(&self, node: usize) -> u32
        ensures { result ≡ place_in self.now.places.now node }
    {
        self.places.of(node)
    }

    /// Whether the code of a node falls into that of another.
    pub fn falls(&self, node: usize, next: usize) -> bool
        requires joins { AreJoins self.now.joins.now self.now.function.now }
        requires inside { node ≤ length self.now.function.now.code }
        ensures { result ≡ falls self.now.function.now node next }
    {
        self.joins.falls(self.function, node, next)
    }
}

/// The places of all nodes of a function whose first block lies at a place, from the last node down.
pub fn placed<B: BlockSource>(
    alloc: Global,
    blocks: &B,
    function: &CodeFunction,
    joins: &Joins,
    begin: u32,
) -> Result<Places, AllocError>
    requires can { CanAllBePut (B.CanPut blocks.now) function.now }
    requires joins { AreJoins joins.now function.now }
    requires small { laid_size (B.block_for blocks.now) (B.beginning blocks.now) function.now < 2 ^ 31 }
    requires begin { begin ≡ begin_size (B.block_for blocks.now) (B.beginning blocks.now) function.now }
    ensures { IfOk result (λ places. ArePlaces places (B.block_for blocks.now) (B.beginning blocks.now) function.now) }
{
    let count = function.code.as_slice().len();
    let mut descending = Vec::new(alloc);
    let mut place = begin;
    for behind in 0..count {
        let node = count - 1 - behind;
        descending.push(place)?;
        let instruction = instruction_at(function, node);
        let size = node_size(alloc, blocks, function, joins, node, instruction)?;
        place += size as u32;
    }
    Ok(Places {
        descending: Items::from_vec(descending),
        begin,
    })
}
