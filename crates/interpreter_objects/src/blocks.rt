//! The live blocks of the heap, in the order of their addresses.

ghost use Rattle.std.specs.Prelude.{◌≡◌, ◌+◌, ◌^◌, ◌<◌, length, [], IfOk, OnOk, OnErr, IfSome, IfNone, ◌≤◌};
ghost use Rattle.obj_memory.specs.Heap.{block_room};
ghost use Rattle.interpreter_objects.specs.Blocks.{first_gap, gap_in, gap_index, index_of, with_gap_filled, without};

use std::alloc::{AllocError, Global};
use std::marker::Model;

/// A live block: its first address, and the first behind its room.
#[derive(Clone, Copy, PartialEq, Eq)]
pub struct Block {
    /// The first address.
    pub start: u64,
    /// The first address behind it.
    pub end: u64,
}

/// The live blocks.
#[derive(Drop)]
pub struct Blocks {
    blocks: Vec<Block>,
}

impl Model for Blocks {
    ghost use Rattle.std.specs.Prelude.{List};
    ghost use Rattle.interpreter_objects.specs.declared.blocks.Block.{Block as OfBlock};

    ghost Value = { List OfBlock };

    ghost view = { λ s. s.blocks.items };
}

// The bytes that a block of some size takes, where they are below 2^64.
fn room(size: u64) -> Option<u64>
    ensures some { IfSome result (λ n. n ≡ block_room size) }
    ensures none { IfNone result (2 ^ 64 ≤ block_room size) }
{
    let rounded = size.checked_add(15)? / 16 * 16;
    Some(rounded.max(16))
}

// The first gap of so many bytes, and how many blocks stand before it.
#[tactic(auto, unfolding(crate::specs::Blocks::first_gap, crate::specs::Blocks::gap_index))]
fn gap(blocks: &[Block], first: u64, room: u64) -> (usize, u64)
    ensures index { result.0 ≡ gap_index first room blocks.now }
    ensures start { result.1 ≡ first_gap first room blocks.now }
    ensures within { result.0 ≤ length blocks.now }
{
    let mut low = first;
    let mut index = 0;
    for block in blocks {
        if low <= block.start && room <= block.start - low {
            return (index, low);
        }
        low = block.end;
        index += 1;
    }
    (index, low)
}

// How many blocks stand before the first that is the same as another.
#[tactic(auto, unfolding(crate::specs::Blocks::index_of))]
fn index_of(blocks: &[Block], block: Block) -> usize
    ensures { result ≡ index_of block blocks.now }
{
    let mut index = 0;
    for other in blocks {
        if other.start == block.start && other.end == block.end {
            return index;
        }
        index += 1;
    }
    index
}

impl Blocks {
    /// No blocks.
    pub fn new(alloc: Global) -> Blocks
        ensures { result ≡ [] }
    {
        Blocks {
            blocks: Vec::new(alloc),
        }
    }

    /// How many there are.
    pub fn count(&self) -> usize
        ensures { result ≡ length self.now }
    {
        self.blocks.len()
    }

    /// Where a new block of some size would be placed: in the first gap of the heap, where there is one.
    #[tactic(auto, unfolding(crate::specs::Blocks::gap_in))]
    pub fn seek(&self, first: u64, last: u64, size: u64) -> Option<u64>
        requires { last + 1 < 2 ^ 64 }
        ensures { result ≡ gap_in first last (block_room size) self.now }
    {
        let Some(room) = room(size) else {
            return None;
        };
        let (_, start) = gap(&self.blocks, first, room);
        if u128::from(start) + u128::from(room) > u128::from(last) + 1 {
            return None;
        }
        Some(start)
    }

    /// A new block of some size is placed in the first gap of the heap, where there is one.
    #[tactic(auto, unfolding(crate::specs::Blocks::gap_in, crate::specs::Blocks::with_gap_filled))]
    pub fn place(&mut self, first: u64, last: u64, size: u64) -> Result<Option<u64>, AllocError>
        requires { last + 1 < 2 ^ 64 }
        ensures place { IfOk result (λ place. place ≡ gap_in first last (block_room size) self.old) }
        ensures added { OnOk result (self.new ≡ with_gap_filled first last (block_room size) self.old) }
        ensures same { OnErr result (self.new ≡ self.old) }
    {
        let Some(room) = room(size) else {
            return Ok(None);
        };
        let (index, start) = gap(&self.blocks, first, room);
        if u128::from(start) + u128::from(room) > u128::from(last) + 1 {
            return Ok(None);
        }
        let end = start + room;
        self.blocks.insert(index, Block { start, end })?;
        Ok(Some(start))
    }

    /// A block is no longer live.
    #[tactic(auto, unfolding(crate::specs::Blocks::without))]
    pub fn remove(&mut self, block: Block)
        ensures { self.new ≡ without block self.old }
    {
        let index = index_of(&self.blocks, block);
        if index < self.blocks.len() {
            self.blocks.remove(index);
        }
    }
}
