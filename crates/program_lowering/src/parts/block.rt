//! Blocks, which are entered and left where they have objects (C99 6.2.4 paragraph 5).

ghost use Rattle.std.specs.Prelude.{◌≡◌, ◌++◌, IfOk, OnOk, map};
ghost use Rattle.c_tree.specs.Blocks.{block_objects, block_variables, switch_variables, first_variables, declared_by};
ghost use Rattle.c_tree.specs.Blocks.{variables_in};
ghost use Rattle.c_tree.specs.Statements.{statements_in, items_in};
ghost use Rattle.c_tree.specs.View.{declared_of, first_of, statement_of};
ghost use Rattle.source_meaning.specs.Blocks.{has_objects};
ghost use Rattle.program_lowering.specs.StatementParts.Items.{item_of};
ghost use Rattle.program_lowering.specs.StatementParts.Leaving.{exits_of};
ghost use Rattle.program_lowering.specs.StatementParts.Objects.{is_object, any_object};
ghost use Rattle.program_lowering.specs.StatementParts.Code.{BlockAdded, EntryCode, WaysOut, LeavingCode};

use crate::expressions::Emitter;
use crate::parts::exits::{BlockExits, Exits};
use c_tree::{DeclaredVariable, First, Statement, SwitchItem, Variable};
use sb_base::Line;
use std::alloc::{AllocError, Global};
use tac_ir::Instruction;
use tree_containers::Items;

fn is_object(variables: &[Variable], number: usize) -> bool
    ensures { result ≡ is_object variables.now number }
{
    match variables.get(number) {
        Some(variable) => variable.is_object,
        None => false,
    }
}

fn any_object(variables: &[Variable], numbers: &[usize]) -> bool
    ensures { result ≡ any_object variables.now numbers.now }
{
    for number in numbers {
        if is_object(variables, *number) {
            return true;
        }
    }
    false
}

// Whether a block that declares the variables with these numbers has objects.
fn has_objects(variables: &[Variable], numbers: &[usize]) -> bool
    ensures { result ≡ has_objects (block_objects variables.now numbers.now) }
{
    any_object(variables, numbers)
}

// The number of a block with its variables.
#[tactic(auto, using(crate::proofs::StatementParts::BlockParts::tables))]
fn add_block(code: &mut Emitter, numbers: &[usize]) -> Result<usize, AllocError>
    ensures { IfOk result (λ n. BlockAdded code.old code.new numbers.now n) }
{
    let number = code.blocks.len();
    let copy = Vec::from_slice(code.alloc, numbers)?;
    code.blocks.push(Items::from_vec(copy))?;
    Ok(number)
}

/// Enters a block that has objects, and so a number, before a node.
#[tactic(auto, using(crate::proofs::StatementParts::BlockParts::entering))]
pub fn enter(
    code: &mut Emitter,
    block: Option<usize>,
    line: Line,
    next: usize,
) -> Result<usize, AllocError>
    ensures { IfOk result (λ n. EntryCode code.old code.new block line n next) }
{
    match block {
        Some(block) => {
            let entry = code.add(Instruction::EnterBlock { block, line, next })?;
            Ok(entry)
        }
        None => Ok(next),
    }
}

// The exits of a block with that number within these: each leaves it.
#[tactic(auto, using(crate::proofs::StatementParts::BlockParts::ways))]
fn leave_block(code: &mut Emitter, block: usize, x: Exits) -> Result<Exits, AllocError>
    ensures { IfOk result (λ y. WaysOut code.old code.new block x y) }
{
    let next = code.add(Instruction::LeaveBlock {
        block,
        next: x.next,
    })?;
    let breaks = code.add(Instruction::LeaveBlock {
        block,
        next: x.breaks,
    })?;
    let continues = code.add(Instruction::LeaveBlock {
        block,
        next: x.continues,
    })?;
    let returns = code.add(Instruction::LeaveBlock {
        block,
        next: x.returns,
    })?;
    Ok(Exits {
        next,
        breaks,
        continues,
        returns,
    })
}

/// The exits of a block within these, with the variables that it declares: where it has objects, it gets a number, and
/// each exit leaves it.
#[tactic(auto, using(crate::proofs::StatementParts::BlockParts::leaving))]
pub fn leave(
    code: &mut Emitter,
    variables: &[Variable],
    numbers: &[usize],
    x: Exits,
) -> Result<BlockExits, AllocError>
    ensures { IfOk result (λ y. LeavingCode variables.now code.old code.new numbers.now x y) }
{
    if has_objects(variables, numbers) {
        let block = add_block(code, numbers)?;
        let exits = leave_block(code, block, x)?;
        Ok(BlockExits {
            block: Some(block),
            exits,
        })
    } else {
        Ok(BlockExits {
            block: None,
            exits: x,
        })
    }
}

// The variables of a declaration.
fn add_declared(numbers: &mut Vec<usize>, declared: &[DeclaredVariable]) -> Result<(), AllocError>
    ensures { OnOk result (numbers.new.items ≡ numbers.old.items ++ variables_in (map declared_of declared.now)) }
{
    for variable in declared {
        numbers.push(variable.variable)?;
    }
    Ok(())
}

// The variables that a statement declares in its block.
fn add_variables(numbers: &mut Vec<usize>, s: &Statement) -> Result<(), AllocError>
    ensures { OnOk result (numbers.new.items ≡ numbers.old.items ++ declared_by (statement_of s.now)) }
{
    match s {
        Statement::Declaration(declared) => add_declared(numbers, declared.as_slice()),
        _ => Ok(()),
    }
}

/// The numbers of the variables that a block declares itself, in order.
pub fn block_variables(alloc: Global, body: &[Statement]) -> Result<Vec<usize>, AllocError>
    ensures { IfOk result (λ ns. ns.items ≡ block_variables (statements_in (map statement_of body.now))) }
{
    let mut numbers = Vec::new(alloc);
    for statement in body {
        add_variables(&mut numbers, statement)?;
    }
    Ok(numbers)
}

/// Those of the block of a switch.
pub fn switch_variables(alloc: Global, items: &[SwitchItem]) -> Result<Vec<usize>, AllocError>
    ensures { IfOk result (λ ns. ns.items ≡ switch_variables (items_in (map item_of items.now))) }
{
    let mut numbers = Vec::new(alloc);
    for item in items {
        add_variables(&mut numbers, &item.statement)?;
    }
    Ok(numbers)
}

/// Those of the first part of a `for`.
pub fn first_variables(alloc: Global, first: &First) -> Result<Vec<usize>, AllocError>
    ensures { IfOk result (λ ns. ns.items ≡ first_variables (first_of first.now)) }
{
    let mut numbers = Vec::new(alloc);
    match first {
        First::Declaration(declared) => add_declared(&mut numbers, declared.as_slice())?,
        First::Nothing | First::Expression(_) => {}
    }
    Ok(numbers)
}
