//! The typed program of a file.

ghost use Rattle.std.specs.Prelude.{◌≡◌, ◌*◌, ◌≤◌, true, None, IfErr, IfOk, length};
ghost use Rattle.c_syntax.specs.Formed.{IsWellFormed};
ghost use Rattle.c_syntax.specs.StatementsView.{externals_in, unit_of};
ghost use Rattle.c_syntax.specs.Words.{unit_words};
ghost use Rattle.c_tree.specs.ValidProgram.{is_valid_program};
ghost use Rattle.c_tree.specs.View as view;
ghost use Rattle.c_const.specs.Initializers.{first_not_constant};
ghost use Rattle.program_laws.specs.TreeSizes.Nodes.{nodes_of};
ghost use Rattle.c_programs.specs.FileState.{file_of};
ghost use Rattle.c_unit_typing.specs.Programs.{program_of};
ghost use Rattle.c_unit_typing.specs.Typed.{a_program, typed_unit, within_limits};
ghost use Rattle.c_programs.specs.Outlines.{outline_of, program_in};
ghost use Rattle.c_typer.specs.Limited.{IsWithinLimits};
ghost use Rattle.c_typer.specs.Refused.{IsCauseOf, IsRefused, UnlessMemory, refusal_of};

use crate::file::file_in;
use c_faults::{Fault, Refusal};
use c_programs::constants::first_not_constant;
use c_programs::limits::excess;
use c_programs::outline::{Outline, complete, outlined};
use c_programs::refusal::ProgramRefusal;
use c_programs::state::FileTyper;
use c_syntax::Unit;
use c_tree::Program;
use c_unit_typing::limits::Limited;
use sb_base::Line;
use std::alloc::Global;

/// Why a file has no typed program.
#[derive(Clone, Copy, Debug)]
pub enum UnitRefusal {
    /// The first rule that it violates, with its line.
    Fault(Fault),
    /// It violates no other rule. The line of the first expression that an initializer of a static object stores and
    /// that is not constant (C99 6.7.8 paragraph 4).
    NotConstant(Line),
    /// It violates no rule, and there is more of something than its limit, and how much there is.
    TooLarge(Limited, u128),
    /// It violates no rule, nothing is too large, and a call of the function with this number, which is the first such
    /// one, takes 2^64 bytes or more of the budget `calls`.
    RoomTooLarge(usize),
    /// There is no memory.
    Memory,
}

fn refused(refusal: Refusal) -> UnitRefusal
    ensures { result ≡ refusal_of refusal }
{
    match refusal {
        Refusal::Fault(fault) => UnitRefusal::Fault(fault),
        Refusal::Memory => UnitRefusal::Memory,
    }
}

// The program of an outline of which nothing is too large.
#[tactic(auto, using(crate::proofs::Causes::without_room))]
fn completed(alloc: Global, outline: Outline) -> Result<Program, UnitRefusal>
    ensures typed { IfOk result (λ program. view.program_of program ≡ program_in (outline_of outline)) }
    ensures refused { IfErr result
        (λ refusal. UnlessMemory refusal (IsCauseOf refusal (a_program (program_in (outline_of outline))))) }
{
    match complete(alloc, outline) {
        Ok(program) => Ok(program),
        Err(ProgramRefusal::RoomTooLarge(number)) => Err(UnitRefusal::RoomTooLarge(number)),
        Err(ProgramRefusal::Memory) => Err(UnitRefusal::Memory),
    }
}

// Why an outline is refused, whatever its functions take: an initializer that is not constant, or what it has too much
// of.
#[tactic(auto, using(crate::proofs::Causes::fine, crate::proofs::Causes::large, crate::proofs::Causes::inconstant))]
fn cause(alloc: Global, unit: &Unit, outline: &Outline) -> Option<UnitRefusal>
    ensures { IsRefused (externals_in unit.now.externals) (outline_of outline.now) result }
{
    match first_not_constant(alloc, outline) {
        Ok(None) => match excess(unit, outline) {
            None => None,
            Some((which, count)) => Some(UnitRefusal::TooLarge(which, count)),
        },
        Ok(Some(line)) => Some(UnitRefusal::NotConstant(line)),
        Err(_) => Some(UnitRefusal::Memory),
    }
}

// The program of an outline, or why there is none.
#[tactic(auto, using(crate::proofs::Causes::within, crate::proofs::Causes::caused))]
fn judged(alloc: Global, unit: &Unit, outline: Outline) -> Result<Program, UnitRefusal>
    ensures typed { IfOk result (λ program. within_limits (externals_in unit.now.externals)
        (program_in (outline_of outline)) ≡ a_program (view.program_of program)) }
    ensures refused { IfErr result (λ refusal. UnlessMemory refusal (IsCauseOf refusal
        (within_limits (externals_in unit.now.externals) (program_in (outline_of outline))))) }
{
    match cause(alloc, unit, &outline) {
        None => completed(alloc, outline),
        Some(refusal) => Err(refusal),
    }
}

// The program of a typed file, or why there is none.
#[tactic(auto, using(crate::proofs::Causes::of_outline, crate::proofs::Causes::cause_of_outline))]
fn program_in(alloc: Global, unit: &Unit, file: FileTyper) -> Result<Program, UnitRefusal>
    ensures typed { IfOk result (λ program. within_limits (externals_in unit.now.externals)
        (program_of (file_of file.entry)) ≡ a_program (view.program_of program)) }
    ensures refused { IfErr result (λ refusal. UnlessMemory refusal (IsCauseOf refusal
        (within_limits (externals_in unit.now.externals) (program_of (file_of file.entry))))) }
{
    match outlined(file) {
        Ok(outline) => judged(alloc, unit, outline),
        Err(_) => Err(UnitRefusal::Memory),
    }
}

/// The typed program of a file whose text ends on a line (C99 6.9), or why there is none: a rule that it violates, else
/// that an initializer of a static object is not constant (6.7.8 paragraph 4), else that it has too much of something,
/// else that calls of a function take too much; or that there is no memory. The program has at most 3 nodes for each
/// word of the file, the bytes of its literals aside, and no more functions and parameters of each than the limits. Its
/// initializers are constant, and that of a well-formed file is valid.
pub fn type_unit(alloc: Global, end: Line, unit: &Unit) -> Result<Program, UnitRefusal>
    ensures typed { IfOk result
        (λ program. typed_unit end (unit_of unit.now) ≡ a_program (view.program_of program)) }
    ensures small { IfOk result
        (λ program. nodes_of (view.program_of program) ≤ 3 * length (unit_words (unit_of unit.now))) }
    ensures within { IfOk result (λ program. IsWithinLimits (view.program_of program)) }
    ensures valid { IfOk result (λ program. IsWellFormed (unit_of unit.now)
        → is_valid_program (view.program_of program) ≡ true) }
    ensures constant { IfOk result (λ program. first_not_constant (view.program_of program) ≡ None) }
    ensures refused { IfErr result
        (λ refusal. UnlessMemory refusal (IsCauseOf refusal (typed_unit end (unit_of unit.now)))) }
{
    match file_in(alloc, end, unit.externals.as_slice()) {
        Ok(file) => program_in(alloc, unit, file),
        Err(refusal) => Err(refused(refusal)),
    }
}
