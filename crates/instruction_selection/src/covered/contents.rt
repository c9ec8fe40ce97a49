//! Which temporaries may have the contents of a structure: those that have an area, and whose word no instruction
//! takes.

ghost use Rattle.std.specs.Prelude.{◌≡◌, ℕ, ◌<◌, ◌≤◌, ◌^◌, ◌&&◌, ◌||◌, ◌==◌, not};
ghost use Rattle.std.specs.Prelude.{false, nat_le, get_or, IfOk, Some};
ghost use Rattle.std.specs.List.{list_all};
ghost use Rattle.tac_ir.specs.Temporaries.{right_count, temporaries};
ghost use Rattle.metadata_expansion.specs.TemporarySets.{is_in, room};
ghost use Rattle.metadata_relation.specs.Contents.{AreKept, contents_source, is_read_there, is_right, structure_from};
ghost use Rattle.instruction_selection.specs.Covered.{is_other_source, may_have, reads_word};

use crate::temporaries::most_temporaries;
use c_tree::Kind;
use metadata_expansion::areas::{greatest_structures, has_area};
use metadata_expansion::closing::{
    TemporaryTable, TemporaryUse, closed_table, insert_among, insert_if,
};
use metadata_expansion::temporary_set::TemporarySet;
use std::alloc::{AllocError, Global};
use tac_ir::{CodeFunction, Instruction, RightOperand, Tac};

// The temporary where what is read is the structure itself.
fn structure_from(kind: Kind, from: usize) -> Option<usize>
    ensures { result ≡ structure_from kind from }
{
    match kind {
        Kind::Structure(_) => Some(from),
        Kind::Void | Kind::Scalar(_) | Kind::Array(_) => None,
    }
}

// The temporary whose contents an instruction gives.
fn contents_source(instruction: &Instruction) -> Option<usize>
    ensures { result ≡ contents_source instruction.now }
{
    match instruction {
        Instruction::Member { from, .. } => Some(*from),
        Instruction::Read { kind, from, .. } => structure_from(*kind, *from),
        _ => None,
    }
}

// Puts a temporary into a set.
fn insert_word(set: &mut TemporarySet, temporary: usize)
    requires { temporary < room set.old }
    ensures room { room set.new ≡ room set.old }
    ensures more { (y : ℕ) → is_in set.new y ≡ (is_in set.old y || y == temporary) }
{
    set.insert(temporary);
}

// Puts two temporaries into a set.
#[tactic(auto, using(crate::proofs::WordUses::both_inserted))]
fn insert_words(set: &mut TemporarySet, left: usize, right: usize)
    requires left { left < room set.old }
    requires right { right < room set.old }
    ensures room { room set.new ≡ room set.old }
    ensures more { (y : ℕ) → is_in set.new y ≡ (is_in set.old y || (y == left || y == right)) }
{
    insert_word(set, left);
    insert_word(set, right);
}

// Puts a right operand into a set.
fn insert_right(set: &mut TemporarySet, right: RightOperand)
    requires { right_count right ≤ room set.old }
    ensures room { room set.new ≡ room set.old }
    ensures more { (y : ℕ) → is_in set.new y ≡ (is_in set.old y || is_right right y) }
{
    match right {
        RightOperand::Temporary(number) => insert_word(set, number),
        RightOperand::One => {}
    }
}

// Puts the pointer and the right operand of an update into a set.
#[tactic(auto, using(crate::proofs::WordUses::both_inserted))]
fn insert_updated(set: &mut TemporarySet, right: RightOperand, pointer: usize)
    requires right { right_count right ≤ room set.old }
    requires pointer { pointer < room set.old }
    ensures room { room set.new ≡ room set.old }
    ensures more { (y : ℕ) → is_in set.new y ≡ (is_in set.old y || (is_right right y || y == pointer)) }
{
    insert_right(set, right);
    insert_word(set, pointer);
}

// Puts a temporary into a set of which something is read, but a scalar: where it is a structure, if another temporary
// gets it.
#[tactic(auto, using(crate::proofs::WordUses::none_besides, crate::proofs::WordUses::nothing_put))]
fn insert_read_word(set: &mut TemporarySet, kind: Kind, to: usize, from: usize)
    requires { from < room set.old }
    ensures room { room set.new ≡ room set.old }
    ensures more { (y : ℕ) → is_in set.new y ≡ (is_in set.old y
        || (is_other_source (structure_from kind from) (Some to) y || (is_read_there kind && y == from))) }
{
    match kind {
        Kind::Scalar(_) => {}
        Kind::Structure(_) => insert_if(set, from, from != to),
        Kind::Void | Kind::Array(_) => insert_word(set, from),
    }
}

// Puts a temporary into a set of which a member is given, if another temporary gets it.
#[tactic(auto, using(crate::proofs::WordUses::none_besides))]
fn insert_member_word(set: &mut TemporarySet, to: usize, from: usize)
    requires { from < room set.old }
    ensures room { room set.new ≡ room set.old }
    ensures more { (y : ℕ) → is_in set.new y ≡ (is_in set.old y || ((y == from && not (from == to)) || false)) }
{
    insert_if(set, from, from != to);
}

// Puts those temporaries into a set whose word an instruction takes.
fn insert_words_read(set: &mut TemporarySet, instruction: &Instruction)
    requires inside { temporaries instruction.now ≤ room set.old }
    requires small { room set.old < 2 ^ 64 }
    ensures room { room set.new ≡ room set.old }
    ensures more { (y : ℕ) → is_in set.new y ≡ (is_in set.old y || reads_word instruction.now y) }
{
    match instruction {
        Instruction::UpdatePlain { right, .. } => insert_right(set, *right),
        Instruction::Convert { from, .. }
        | Instruction::Unary { from, .. }
        | Instruction::Narrow { from, .. }
        | Instruction::Branch { from, .. }
        | Instruction::Case { from, .. } => insert_word(set, *from),
        Instruction::Binary { left, right, .. }
        | Instruction::Offset { left, right, .. }
        | Instruction::Difference { left, right, .. } => insert_words(set, *left, *right),
        Instruction::Member { to, from, .. } => insert_member_word(set, *to, *from),
        Instruction::Read { kind, to, from, .. } => insert_read_word(set, *kind, *to, *from),
        Instruction::Write { pointer, .. } | Instruction::Judge { pointer, .. } => {
            insert_word(set, *pointer);
        }
        Instruction::Update { right, pointer, .. } => insert_updated(set, *right, *pointer),
        Instruction::Library { first, count, .. } | Instruction::Print { first, count, .. } => {
            insert_among(set, *first, *count);
        }
        Instruction::CallThrough { first, .. } => insert_word(set, *first),
        _ => {}
    }
}

/// Words, which are taken of temporaries.
#[derive(Clone, Copy)]
pub struct WordUse;

impl TemporaryUse for WordUse {
    ghost reads = { λ _ _ i y. reads_word i y };

    ghost source = { contents_source };

    ghost IsOf = { λ _ _ _. Unit {0} };

    #[tactic(auto, using(crate::proofs::WordUses::source_low))]
    fn source_of(&self, instruction: &Instruction) -> Option<usize> {
        contents_source(instruction)
    }

    fn insert_read(
        &self,
        set: &mut TemporarySet,
        program: &Tac,
        function: &CodeFunction,
        instruction: &Instruction,
    ) {
        let _program = program;
        let _function = function;
        insert_words_read(set, instruction);
    }
}

/// Which temporaries of a function may have the contents of a structure at its nodes.
#[derive(Drop)]
pub struct FunctionContents {
    /// The bytes of the greatest structure of each temporary.
    pub areas: Vec<u128>,
    /// The temporaries whose word is taken.
    pub words: TemporaryTable,
}

impl FunctionContents {
    /// Whether a temporary may have contents at a node.
    pub fn may_have(&self, node: usize, temporary: usize) -> bool
        ensures { result ≡ may_have self.now node temporary }
    {
        has_area(self.areas.as_slice(), temporary) && !self.words.has(node, temporary)
    }
}

// Whether no temporary has an area.
fn have_none(areas: &[u128]) -> bool
    ensures { result ≡ list_all (λ bytes. bytes == 0) areas.now }
{
    for bytes in areas {
        if *bytes != 0 {
            return false;
        }
    }
    true
}

/// The contents of a function that it keeps: none where no structure is put into a temporary, or where it has more
/// temporaries than registers can be found for. It takes time and memory for each node and each 64 temporaries, and
/// fails only for want of memory.
#[tactic(auto, using(crate::proofs::WordUses::none_kept, crate::proofs::WordUses::all_none_kept))]
pub fn contents_of(
    alloc: Global,
    program: &Tac,
    function: &CodeFunction,
) -> Result<FunctionContents, AllocError>
    ensures { IfOk result (λ contents. AreKept program.now function.now (may_have contents)) }
{
    let instructions = function.code.as_slice();
    let most = most_temporaries(instructions);
    if most >= 1 << 31 {
        return Ok(FunctionContents {
            areas: Vec::new(alloc),
            words: TemporaryTable::Every,
        });
    }
    let areas = greatest_structures(alloc, program, instructions, most as usize)?;
    if have_none(areas.as_slice()) {
        return Ok(FunctionContents {
            areas,
            words: TemporaryTable::Every,
        });
    }
    let words = closed_table(alloc, program, function, &WordUse)?;
    Ok(FunctionContents { areas, words })
}
