//! The body of a function: what it begins with, and the blocks with jumps between them, that of the last node first.

ghost use Rattle.std.specs.Prelude.{◌≡◌, ◌+◌, ◌<◌, ◌≤◌, ◌^◌, ◌++◌, length, OnOk};
ghost use Rattle.tac_ir.specs.Edges.{successors};
ghost use Rattle.tac_ir.specs.Ways.{nodes_of};
ghost use Rattle.metadata_plan.specs.Laid.{begin_code, body_of, jumps, laid_from, place_of};
ghost use Rattle.metadata_expansion.specs.Joins.{AreJoins};
ghost use Rattle.metadata_expansion.specs.Laying.{CanAllBePut, IsLaid, laid_size, place_in};

use crate::joins::Joins;
use crate::jumps::{follows, jump, put_jump};
use crate::laying::{BlockSource, beginning_size};
use crate::layout::{Layout, instruction_at, placed};
use crate::list::put;
use flat_code::FlatInstruction;
use std::alloc::{AllocError, Global};
use tac_ir::{CodeFunction, Instruction, Ways, ways_of};

// Puts the jumps behind the block of a node, which ends at a place.
fn put_jumps(
    code: &mut Vec<FlatInstruction>,
    layout: &Layout,
    node: usize,
    ways: Ways,
    place: u32,
) -> Result<(), AllocError>
    requires joins { AreJoins layout.now.joins.now layout.now.function.now }
    requires inside { node ≤ length layout.now.function.now.code }
    requires small { place + 1 < 2 ^ 32 }
    ensures { OnOk result (code.new.items ≡ code.old.items
        ++ jumps layout.now.function.now (place_in layout.now.places.now) node place (nodes_of ways)) }
{
    match ways {
        Ways::Nowhere => Ok(()),
        Ways::To(next) => put_jump(code, layout.falls(node, next), place, layout.place(next)),
        Ways::Either(first, second) => {
            put(code, jump(place, layout.place(second)))?;
            put_jump(
                code,
                layout.falls(node, first),
                place + 1,
                layout.place(first),
            )
        }
    }
}

// Puts the block of a node, and the jumps behind it.
fn put_node<B: BlockSource>(
    code: &mut Vec<FlatInstruction>,
    blocks: &B,
    layout: &Layout,
    node: usize,
    instruction: &Instruction,
) -> Result<(), AllocError>
    requires laid { IsLaid (B.block_for blocks.now) (B.beginning blocks.now) layout.now }
    requires can { B.CanPut blocks.now instruction.now }
    requires inside { node ≤ length layout.now.function.now.code }
    requires small { place_of (B.block_for blocks.now) (B.beginning blocks.now) layout.now.function.now node
        + length (B.block_for blocks.now instruction.now) < 2 ^ 31 }
    ensures { OnOk result (code.new.items ≡ code.old.items
        ++ (B.block_for blocks.now instruction.now ++ jumps layout.now.function.now
        (place_of (B.block_for blocks.now) (B.beginning blocks.now) layout.now.function.now) node
        (place_of (B.block_for blocks.now) (B.beginning blocks.now) layout.now.function.now node
        + length (B.block_for blocks.now instruction.now)) (successors instruction.now))) }
{
    let before = code.len();
    blocks.put_block(code, instruction)?;
    let size = code.len() - before;
    let place = layout.place(node) + size as u32;
    put_jumps(code, layout, node, ways_of(instruction), place)?;
    Ok(())
}

// Puts all nodes, the last first.
fn put_nodes<B: BlockSource>(
    code: &mut Vec<FlatInstruction>,
    blocks: &B,
    layout: &Layout,
) -> Result<(), AllocError>
    requires laid { IsLaid (B.block_for blocks.now) (B.beginning blocks.now) layout.now }
    requires can { CanAllBePut (B.CanPut blocks.now) layout.now.function.now }
    requires small { laid_size (B.block_for blocks.now) (B.beginning blocks.now) layout.now.function.now < 2 ^ 31 }
    ensures { OnOk result (code.new.items ≡ code.old.items
        ++ laid_from (B.block_for blocks.now) (B.beginning blocks.now) layout.now.function.now 0
        layout.now.function.now.code) }
{
    let function = layout.function;
    let count = function.code.as_slice().len();
    for behind in 0..count {
        let node = count - 1 - behind;
        let instruction = instruction_at(function, node);
        put_node(code, blocks, layout, node, instruction)?;
    }
    Ok(())
}

// Puts what a function begins with, and the jump to the entry.
fn put_begin<B: BlockSource>(
    code: &mut Vec<FlatInstruction>,
    blocks: &B,
    layout: &Layout,
    behind: u32,
) -> Result<(), AllocError>
    requires laid { IsLaid (B.block_for blocks.now) (B.beginning blocks.now) layout.now }
    requires begins { B.CanBegin blocks.now }
    requires behind { behind ≡ length (B.beginning blocks.now) }
    ensures { OnOk result (code.new.items ≡ code.old.items
        ++ begin_code (B.block_for blocks.now) (B.beginning blocks.now) layout.now.function.now) }
{
    let function = layout.function;
    blocks.put_beginning(code)?;
    let count = function.code.as_slice().len();
    let fallen = follows(count, function.entry);
    put_jump(code, fallen, behind, layout.place(function.entry))
}

/// Puts the body of a function behind a list. It fails only for want of memory.
pub fn put_body<B: BlockSource>(
    code: &mut Vec<FlatInstruction>,
    alloc: Global,
    blocks: &B,
    function: &CodeFunction,
) -> Result<(), AllocError>
    requires begins { B.CanBegin blocks.now }
    requires can { CanAllBePut (B.CanPut blocks.now) function.now }
    requires small { laid_size (B.block_for blocks.now) (B.beginning blocks.now) function.now < 2 ^ 31 }
    ensures { OnOk result (code.new.items ≡ code.old.items
        ++ body_of (B.block_for blocks.now) (B.beginning blocks.now) function.now) }
{
    let joins = Joins::new(alloc, function)?;
    let behind = beginning_size(alloc, blocks)? as u32;
    let count = function.code.as_slice().len();
    let jumps = if follows(count, function.entry) { 0 } else { 1 };
    let places = placed(alloc, blocks, function, &joins, behind + jumps)?;
    let layout = Layout {
        function,
        joins: &joins,
        places: &places,
    };
    put_begin(code, blocks, &layout, behind)?;
    put_nodes(code, blocks, &layout)
}
