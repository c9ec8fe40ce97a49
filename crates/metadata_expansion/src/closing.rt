//! Sets of temporaries that are closed under what instructions read and make of others, found in one pass over the nodes
//! of a function.

ghost use Rattle.std.specs.Prelude.{◌≡◌, ℕ, ◌+◌, ◌*◌, ◌<◌, ◌≤◌, ◌&&◌, ◌||◌, ◌==◌, ◌^◌, length, false, true, IfOk, Some};
ghost use Rattle.std.specs.Prelude.{Bool, Option, slice_get};
ghost use Rattle.tac_ir.specs.declared.instruction.Instruction.{Instruction};
ghost use Rattle.tac_ir.specs.declared.function.CodeFunction.{CodeFunction};
ghost use Rattle.tac_ir.specs.declared.function.Tac.{Tac};
ghost use Rattle.tac_ir.specs.Temporaries.{temporaries};
ghost use Rattle.tac_ir.specs.Ways.{nodes_of};
ghost use Rattle.metadata_plan.specs.Registers.{most_temporaries};
ghost use Rattle.metadata_plan.specs.Entries.{given, is_among};
ghost use Rattle.metadata_expansion.specs.TemporarySets.{is_in, room};
ghost use Rattle.metadata_expansion.specs.ClosedSets.{AreNone, HaveRoom, IsClosedUnder, ReadsNone, has_at};
ghost use Rattle.metadata_expansion.specs.ClosedSets.{in_sets, in_table, is_passed_on, needs};

use crate::layout::instruction_at;
use crate::registers::most_temporaries;
use crate::temporary_set::TemporarySet;
use std::alloc::{AllocError, Global};
use tac_ir::{CodeFunction, Instruction, Tac, Ways, ways_of};

/// A set of temporaries of a function for each of its nodes.
#[derive(Drop)]
pub enum TemporaryTable {
    /// All of them at each.
    Every,
    /// One by one.
    Sets(Vec<TemporarySet>),
}

impl TemporaryTable {
    /// Whether a temporary is in the set of a node.
    pub fn has(&self, node: usize, temporary: usize) -> bool
        ensures { result ≡ in_table self.now node temporary }
    {
        match self {
            TemporaryTable::Every => true,
            TemporaryTable::Sets(sets) => match sets.get(node) {
                Some(set) => set.contains(temporary),
                None => false,
            },
        }
    }
}

/// What instructions want of temporaries, by what is known of their function: which of them one reads, and of which it
/// makes what it gives.
pub trait TemporaryUse {
    /// Whether an instruction of a function reads a temporary.
    ghost reads: { Tac → CodeFunction → Instruction → ℕ → Bool };

    /// The temporary of which an instruction makes what it gives.
    ghost source: { Instruction → Option ℕ };

    /// Whether what is known of a function is right.
    ghost IsOf: { Self → Tac → CodeFunction → Type 0 };

    /// Puts those temporaries into a set that an instruction of a function reads.
    fn insert_read(
        &self,
        set: &mut TemporarySet,
        program: &Tac,
        function: &CodeFunction,
        instruction: &Instruction,
    )
        requires known { IsOf self.now program.now function.now }
        requires inside { temporaries instruction.now ≤ room set.old }
        requires small { room set.old < 2 ^ 64 }
        ensures room { room set.new ≡ room set.old }
        ensures more { (y : ℕ) → is_in set.new y
            ≡ (is_in set.old y || reads program.now function.now instruction.now y) };

    /// The temporary of which an instruction makes what it gives.
    fn source_of(&self, instruction: &Instruction) -> Option<usize>
        ensures same { result ≡ source instruction.now }
        ensures among { (a : ℕ) → result ≡ Some a → a < temporaries instruction.now };
}

// The temporary that gets a value.
fn given(instruction: &Instruction) -> Option<usize>
    ensures { result ≡ given instruction.now }
{
    match instruction {
        Instruction::Constant { to, .. }
        | Instruction::FunctionPointer { to, .. }
        | Instruction::GetPlain { to, .. }
        | Instruction::UpdatePlain { to, .. }
        | Instruction::HomePointer { to, .. }
        | Instruction::StaticPointer { to, .. }
        | Instruction::ZeroOf { to, .. }
        | Instruction::Convert { to, .. }
        | Instruction::Unary { to, .. }
        | Instruction::Binary { to, .. }
        | Instruction::Offset { to, .. }
        | Instruction::Difference { to, .. }
        | Instruction::Narrow { to, .. }
        | Instruction::Member { to, .. }
        | Instruction::Take { to, .. }
        | Instruction::Read { to, .. }
        | Instruction::Write { to, .. }
        | Instruction::Update { to, .. } => Some(*to),
        Instruction::Library { first, .. }
        | Instruction::Print { first, .. }
        | Instruction::Call { first, .. }
        | Instruction::CallThrough { first, .. } => Some(*first),
        Instruction::Reserved
        | Instruction::Skip { .. }
        | Instruction::SetPlain { .. }
        | Instruction::Judge { .. }
        | Instruction::Zero { .. }
        | Instruction::StorePart { .. }
        | Instruction::StoreText { .. }
        | Instruction::Branch { .. }
        | Instruction::Case { .. }
        | Instruction::Turn { .. }
        | Instruction::EnterBlock { .. }
        | Instruction::LeaveBlock { .. }
        | Instruction::Return { .. } => None,
    }
}

/// Puts a temporary into a set where that is wanted.
pub fn insert_if(set: &mut TemporarySet, temporary: usize, wanted: bool)
    requires { temporary < room set.old }
    ensures room { room set.new ≡ room set.old }
    ensures more { (y : ℕ) → is_in set.new y ≡ (is_in set.old y || (y == temporary && wanted)) }
{
    if wanted {
        set.insert(temporary);
    }
}

/// Puts so many temporaries from one on into a set.
#[tactic(auto, using(crate::proofs::ClosedSets::among_step))]
pub fn insert_among(set: &mut TemporarySet, first: usize, count: usize)
    requires inside { first + count ≤ room set.old }
    requires small { room set.old < 2 ^ 64 }
    ensures room { room set.new ≡ room set.old }
    ensures more { (y : ℕ) → is_in set.new y ≡ (is_in set.old y || is_among first count y) }
{
    for i in 0..count {
        insert_if(set, first + i, true);
    }
}

// Puts those temporaries into a set that are in that of a node.
fn insert_at(set: &mut TemporarySet, sets: &[TemporarySet], node: usize)
    requires { HaveRoom (room set.old) sets.now }
    ensures room { room set.new ≡ room set.old }
    ensures more { (y : ℕ) → is_in set.new y ≡ (is_in set.old y || in_sets sets.now node y) }
{
    if let Some(other) = sets.get(node) {
        set.insert_all(other);
    }
}

// Puts those into a set that are in one where an instruction leads.
fn insert_behind(set: &mut TemporarySet, sets: &[TemporarySet], ways: Ways)
    requires { HaveRoom (room set.old) sets.now }
    ensures room { room set.new ≡ room set.old }
    ensures more { (y : ℕ) → is_in set.new y ≡ (is_in set.old y || has_at (in_sets sets.now) (nodes_of ways) y) }
{
    match ways {
        Ways::Nowhere => {}
        Ways::To(next) => insert_at(set, sets, next),
        Ways::Either(first, second) => {
            insert_at(set, sets, first);
            insert_at(set, sets, second);
        }
    }
}

// What is wanted behind an instruction becomes what is wanted before it, by what it gives and what of.
fn pass_on(set: &mut TemporarySet, to: Option<usize>, source: Option<usize>)
    requires to { (d : ℕ) → to ≡ Some d → d < room set.old }
    requires source { (a : ℕ) → source ≡ Some a → a < room set.old }
    ensures room { room set.new ≡ room set.old }
    ensures passed { (y : ℕ) → is_in set.new y ≡ is_passed_on (is_in set.old) to source y }
{
    let Some(to) = to else {
        return;
    };
    let wanted = set.contains(to);
    set.remove(to);
    if let Some(source) = source {
        insert_if(set, source, wanted);
    }
}

// The temporaries that are wanted before an instruction, where those of other nodes are known.
fn needed<U: TemporaryUse>(
    alloc: Global,
    words: usize,
    sets: &[TemporarySet],
    program: &Tac,
    function: &CodeFunction,
    uses: &U,
    instruction: &Instruction,
) -> Result<TemporarySet, AllocError>
    requires known { U.IsOf uses.now program.now function.now }
    requires few { words < 2 ^ 32 }
    requires sets { HaveRoom (64 * words) sets.now }
    requires among { temporaries instruction.now ≤ 64 * words }
    ensures room { IfOk result (λ set. room set ≡ 64 * words) }
    ensures needed { IfOk result (λ set. (y : ℕ) → is_in set y
        ≡ needs (U.reads program.now function.now) U.source (in_sets sets.now) instruction.now y) }
{
    let mut set = TemporarySet::new(alloc, words)?;
    insert_behind(&mut set, sets, ways_of(instruction));
    pass_on(&mut set, given(instruction), uses.source_of(instruction));
    uses.insert_read(&mut set, program, function, instruction);
    Ok(set)
}

// Empty sets for so many nodes.
fn empty_sets(alloc: Global, words: usize, nodes: usize) -> Result<Vec<TemporarySet>, AllocError>
    ensures size { IfOk result (λ sets. length sets.items ≡ nodes) }
    ensures room { IfOk result (λ sets. HaveRoom (64 * words) sets.items) }
    ensures none { IfOk result (λ sets. AreNone (in_sets sets.items)) }
{
    let mut sets = Vec::new(alloc);
    for _ in 0..nodes {
        let set = TemporarySet::new(alloc, words)?;
        sets.push(set)?;
    }
    Ok(sets)
}

// The set of a node becomes another one.
#[tactic(auto, using(crate::proofs::ClosedSets::room_set, crate::proofs::ClosedSets::none_set))]
fn replace(sets: &mut Vec<TemporarySet>, node: usize, set: TemporarySet)
    requires node { node < length sets.old.items }
    ensures size { length sets.new.items ≡ length sets.old.items }
    ensures room { (n : ℕ) → HaveRoom n sets.old.items → room set ≡ n → HaveRoom n sets.new.items }
    ensures none { AreNone (in_sets sets.old.items) → ((y : ℕ) → is_in set y ≡ false) → AreNone (in_sets sets.new.items) }
{
    sets[node] = set;
}

// The set of a node becomes what is wanted there, as far as the sets of others tell.
fn improve<U: TemporaryUse>(
    alloc: Global,
    words: usize,
    sets: &mut Vec<TemporarySet>,
    program: &Tac,
    function: &CodeFunction,
    uses: &U,
    node: usize,
) -> Result<(), AllocError>
    requires known { U.IsOf uses.now program.now function.now }
    requires few { words < 2 ^ 32 }
    requires inside { most_temporaries function.now.code ≤ 64 * words }
    requires node { node < length function.now.code }
    requires size { length sets.old.items ≡ length function.now.code }
    requires room { HaveRoom (64 * words) sets.old.items }
    ensures size { length sets.new.items ≡ length function.now.code }
    ensures room { HaveRoom (64 * words) sets.new.items }
    ensures none { ReadsNone (U.reads program.now function.now) function.now → AreNone (in_sets sets.old.items)
        → AreNone (in_sets sets.new.items) }
{
    let instruction = instruction_at(function, node);
    let set = needed(
        alloc,
        words,
        sets.as_slice(),
        program,
        function,
        uses,
        instruction,
    )?;
    replace(sets, node, set);
    Ok(())
}

// The node behind another one to which that leads alone: where a check was put in, what it checks stands behind all.
fn later(function: &CodeFunction, node: usize) -> Option<usize>
    requires { node < length function.now.code }
    ensures { (k : ℕ) → result ≡ Some k → k < length function.now.code }
{
    match ways_of(instruction_at(function, node)) {
        Ways::To(next) if node < next && next < function.code.as_slice().len() => Some(next),
        _ => None,
    }
}

// The same of two nodes behind one, the last of them first.
fn improve_later<U: TemporaryUse>(
    alloc: Global,
    words: usize,
    sets: &mut Vec<TemporarySet>,
    program: &Tac,
    function: &CodeFunction,
    uses: &U,
    node: usize,
) -> Result<(), AllocError>
    requires known { U.IsOf uses.now program.now function.now }
    requires few { words < 2 ^ 32 }
    requires inside { most_temporaries function.now.code ≤ 64 * words }
    requires node { node < length function.now.code }
    requires size { length sets.old.items ≡ length function.now.code }
    requires room { HaveRoom (64 * words) sets.old.items }
    ensures size { length sets.new.items ≡ length function.now.code }
    ensures room { HaveRoom (64 * words) sets.new.items }
    ensures none { ReadsNone (U.reads program.now function.now) function.now → AreNone (in_sets sets.old.items)
        → AreNone (in_sets sets.new.items) }
{
    if let Some(first) = later(function, node) {
        if let Some(second) = later(function, first) {
            improve(alloc, words, sets, program, function, uses, second)?;
        }
        improve(alloc, words, sets, program, function, uses, first)?;
    }
    Ok(())
}

// A set for each node. Code that comes later has lower nodes: so those to which an instruction leads are known before it,
// but for the ends of loops, where no temporary is in use, and for checks that were put in and what they check, which stand
// behind all.
fn found<U: TemporaryUse>(
    alloc: Global,
    words: usize,
    program: &Tac,
    function: &CodeFunction,
    uses: &U,
) -> Result<Vec<TemporarySet>, AllocError>
    requires known { U.IsOf uses.now program.now function.now }
    requires few { words < 2 ^ 32 }
    requires inside { most_temporaries function.now.code ≤ 64 * words }
    ensures size { IfOk result (λ sets. length sets.items ≡ length function.now.code) }
    ensures room { IfOk result (λ sets. HaveRoom (64 * words) sets.items) }
    ensures none { IfOk result (λ sets. ReadsNone (U.reads program.now function.now) function.now
        → AreNone (in_sets sets.items)) }
{
    let nodes = function.code.as_slice().len();
    let mut sets = empty_sets(alloc, words, nodes)?;
    for node in 0..nodes {
        improve_later(alloc, words, &mut sets, program, function, uses, node)?;
        improve(alloc, words, &mut sets, program, function, uses, node)?;
    }
    Ok(sets)
}

// The set of a node.
fn set_at(sets: &[TemporarySet], node: usize) -> &TemporarySet
    requires { node < length sets.now }
    ensures { slice_get sets.now node ≡ Some result.now }
{
    &sets[node]
}

// Whether a set for each node is closed.
fn is_closed<U: TemporaryUse>(
    alloc: Global,
    words: usize,
    sets: &[TemporarySet],
    program: &Tac,
    function: &CodeFunction,
    uses: &U,
) -> Result<bool, AllocError>
    requires known { U.IsOf uses.now program.now function.now }
    requires few { words < 2 ^ 32 }
    requires inside { most_temporaries function.now.code ≤ 64 * words }
    requires size { length sets.now ≡ length function.now.code }
    requires room { HaveRoom (64 * words) sets.now }
    ensures closed { IfOk result (λ b. b ≡ true
        → IsClosedUnder (U.reads program.now function.now) U.source function.now (in_sets sets.now)) }
    ensures none { IfOk result (λ b. ReadsNone (U.reads program.now function.now) function.now
        → AreNone (in_sets sets.now) → b ≡ true) }
{
    for node in 0..function.code.as_slice().len() {
        let instruction = instruction_at(function, node);
        let set = needed(alloc, words, sets, program, function, uses, instruction)?;
        let found = set_at(sets, node);
        if !set.is_within(found) {
            return Ok(false);
        }
    }
    Ok(true)
}

/// A closed set of temporaries of a function, and an empty one where no instruction reads any. It takes time and memory
/// for each node and each 64 temporaries, and fails only for want of memory.
pub fn closed_table<U: TemporaryUse>(
    alloc: Global,
    program: &Tac,
    function: &CodeFunction,
    uses: &U,
) -> Result<TemporaryTable, AllocError>
    requires known { U.IsOf uses.now program.now function.now }
    requires few { most_temporaries function.now.code < 2 ^ 32 }
    ensures closed { IfOk result (λ table. IsClosedUnder (U.reads program.now function.now) U.source function.now
        (in_table table)) }
    ensures none { IfOk result (λ table. ReadsNone (U.reads program.now function.now) function.now
        → AreNone (in_table table)) }
{
    let words = (most_temporaries(function.code.as_slice()) / 64) as usize + 1;
    let sets = found(alloc, words, program, function, uses)?;
    if is_closed(alloc, words, sets.as_slice(), program, function, uses)? {
        return Ok(TemporaryTable::Sets(sets));
    }
    Ok(TemporaryTable::Every)
}
