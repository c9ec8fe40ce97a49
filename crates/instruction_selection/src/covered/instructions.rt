//! Which instructions are covered.

ghost use Rattle.std.specs.Prelude.{◌≡◌, ◌<◌, ◌+◌, ◌^◌, ◌||◌, not, nat_le, true, length, if◌then◌else◌, IfOk};
ghost use Rattle.obj_memory.specs.Heap.{rounded_up};
ghost use Rattle.c_tree.specs.Kinds.{size_of_kind};
ghost use Rattle.tac_ir.specs.declared.function.CodeFunction.{CodeFunction};
ghost use Rattle.tac_ir.specs.Fitting.{is_word};
ghost use Rattle.tac_ir.specs.Meaning.{objects_in};
ghost use Rattle.lib_wrappers.specs.AllocatingRoutines.Entering.{block_bytes};
ghost use Rattle.metadata_plan.specs.Registers.{all_variables};
ghost use Rattle.metadata_relation.specs.Registers.{is_no_aggregate};
ghost use Rattle.metadata_relation.specs.Steps.{is_sized as has_bytes, is_update_by_word, is_settled, is_few};
ghost use Rattle.metadata_relation.specs.Steps.{is_part, are_sized, can_be_entered, covers, is_scalar_type};
ghost use Rattle.instruction_selection.specs.Covered.{is_tested, is_access};

use crate::blocks::{block_objects, has_objects};
use crate::numbers::is_short;
use crate::variables::plain_type;
use c_tree::{Kind, Update, Variable};
use static_data::pointers::size_of;
use std::alloc::{AllocError, Global};
use tac_ir::{CodeFunction, Instruction, Mode};

// A number of which no register holds more.
const WORDS: u128 = 0x1_0000_0000_0000_0000;

// Whether a register holds a number.
fn is_word(number: u64) -> bool
    ensures { result ≡ is_word number }
{
    u128::from(number) < WORDS
}

// Whether a number has 33 bits.
fn is_few(number: u64) -> bool
    ensures { result ≡ is_few number }
{
    number < 0x2_0000_0000
}

// Whether a member can be narrowed to.
fn is_part(offset: u64, size: u64) -> bool
    ensures { result ≡ is_part offset size }
{
    (is_word(offset) && is_word(size))
        && ((is_short(offset) || is_short(size)) || (is_few(offset) && is_few(size)))
}

// Whether a kind is that of a scalar, or of no value.
pub(crate) fn is_no_aggregate(kind: Kind) -> bool
    ensures { result ≡ is_no_aggregate kind }
{
    match kind {
        Kind::Void | Kind::Scalar(_) => true,
        Kind::Structure(_) | Kind::Array(_) => false,
    }
}

// Whether a kind that is that of a structure has a byte.
fn has_bytes(kind: Kind) -> bool
    ensures { result ≡ has_bytes kind }
{
    match kind {
        Kind::Void | Kind::Scalar(_) | Kind::Array(_) => true,
        Kind::Structure(size) => 1 <= size,
    }
}

// Whether an update is by elements of a size that is a word.
fn is_update_by_word(update: Update) -> bool
    ensures { result ≡ is_update_by_word update }
{
    match update {
        Update::Arithmetic(..) => true,
        Update::Forward(size) | Update::Back(size) => is_word(size),
    }
}

// Whether an access names its object, or was judged.
fn is_settled(mode: Mode) -> bool
    ensures { result ≡ is_settled mode }
{
    match mode {
        Mode::Named | Mode::Judged => true,
        Mode::Unchecked => false,
    }
}

// Whether an access is covered.
fn covers_access(instruction: &Instruction) -> bool
    ensures { (k : CodeFunction) → is_access instruction.now ≡ true → result ≡ covers k instruction.now }
{
    match instruction {
        Instruction::Read { mode, .. } => is_settled(*mode),
        Instruction::Write {
            kind: Kind::Scalar(_),
            mode,
            ..
        } => is_settled(*mode),
        Instruction::Write {
            kind: Kind::Structure(size),
            mode,
            ..
        } => is_settled(*mode) && is_word(*size),
        Instruction::Update { update, mode, .. } => {
            is_settled(*mode) && is_update_by_word(*update)
        }
        Instruction::StorePart {
            kind: Kind::Scalar(_),
            offset,
            ..
        } => is_word(*offset),
        Instruction::StorePart {
            kind: Kind::Structure(size),
            offset,
            ..
        } => is_word(*offset) && is_word(*size),
        _ => false,
    }
}

// Whether an instruction with a type or a size of its own is covered.
fn covers_tested(instruction: &Instruction) -> bool
    ensures { (k : CodeFunction) → is_tested instruction.now ≡ true → result ≡ covers k instruction.now }
{
    match instruction {
        Instruction::ZeroOf { kind, .. } => has_bytes(*kind),
        Instruction::Take {
            kind: Kind::Structure(size),
            ..
        } => 1 <= *size,
        Instruction::Offset { size, .. } => is_word(*size),
        Instruction::Judge { size, .. } => 1 <= *size && is_word(*size),
        Instruction::Case { word, .. } => is_word(*word),
        Instruction::UpdatePlain { update, .. } => is_update_by_word(*update),
        Instruction::Difference { size, .. } => 1 <= *size && is_few(*size),
        Instruction::Narrow { offset, size, .. } | Instruction::Member { offset, size, .. } => {
            is_part(*offset, *size)
        }
        _ => false,
    }
}

// Where a variable ends that stands behind others, at a multiple of 16 if it is an object.
fn behind(end: u128, variable: Variable) -> u128
    requires { end < 2 ^ 64 }
    ensures { result ≡ (if variable.is_object then rounded_up 16 end + size_of_kind variable.kind else end) }
{
    if variable.is_object {
        (end + 15) / 16 * 16 + u128::from(size_of(variable.kind))
    } else {
        end
    }
}

// Whether a register holds how many bytes the objects of a block take.
fn have_word_of_bytes(variables: &[Variable]) -> bool
    ensures { result ≡ is_word (block_bytes variables.now) }
{
    let mut end = 0u128;
    for i in 0..variables.len() {
        let next = behind(end, variables[i]);
        if next >= WORDS {
            return false;
        }
        end = next;
    }
    true
}

// Whether a variable that is an object has a byte.
fn is_sized(variable: Variable) -> bool
    ensures { result ≡ (not variable.is_object || nat_le 1 (size_of_kind variable.kind)) }
{
    !variable.is_object || 1 <= size_of(variable.kind)
}

// Whether each object has a byte.
fn are_sized(variables: &[Variable]) -> bool
    ensures { result ≡ are_sized variables.now }
{
    for i in 0..variables.len() {
        if !is_sized(variables[i]) {
            return false;
        }
    }
    true
}

// Whether a block with these objects can be entered.
pub(crate) fn can_be_entered(variables: &[Variable]) -> bool
    ensures { result ≡ can_be_entered variables.now }
{
    has_objects(variables) && (are_sized(variables) && have_word_of_bytes(variables))
}

// Whether a block of a function can be entered.
fn can_enter_block(alloc: Global, function: &CodeFunction, block: usize) -> Result<bool, AllocError>
    requires { length (all_variables function.now) < 2 ^ 64 }
    ensures { IfOk result (λ yes. yes ≡ can_be_entered (objects_in (Some function.now) block)) }
{
    let objects = block_objects(alloc, function, block)?;
    Ok(can_be_entered(&objects))
}

// Whether an instruction of a function is covered.
pub(crate) fn covers(
    alloc: Global,
    function: &CodeFunction,
    instruction: &Instruction,
) -> Result<bool, AllocError>
    requires { length (all_variables function.now) < 2 ^ 64 }
    ensures { IfOk result (λ yes. yes ≡ covers function.now instruction.now) }
{
    match instruction {
        Instruction::GetPlain { variable, .. } => Ok(plain_type(function, *variable).is_some()),
        Instruction::EnterBlock { block, .. } => can_enter_block(alloc, function, *block),
        Instruction::Read { .. }
        | Instruction::Write { .. }
        | Instruction::Update { .. }
        | Instruction::StorePart { .. } => Ok(covers_access(instruction)),
        Instruction::ZeroOf { .. }
        | Instruction::Take { .. }
        | Instruction::Offset { .. }
        | Instruction::Judge { .. }
        | Instruction::Case { .. }
        | Instruction::UpdatePlain { .. }
        | Instruction::Difference { .. }
        | Instruction::Narrow { .. }
        | Instruction::Member { .. } => Ok(covers_tested(instruction)),
        Instruction::Reserved => Ok(false),
        _ => Ok(true),
    }
}
