//! From a typed program to its image.

ghost use Rattle.std.specs.Prelude.{◌≡◌, ◌+◌, ◌≤◌, ◌-◌, ◌^◌, true, length, min, None, Ok, Err, IfOk, IfErr};
ghost use Rattle.c_tree.specs.View.{program_of};
ghost use Rattle.c_tree.specs.ValidProgram.{is_valid_program};
ghost use Rattle.c_const.specs.Initializers.{first_not_constant};
ghost use Rattle.tac_ir.specs.declared.function.Tac.{Tac};
ghost use Rattle.program_lowering.specs.ProgramCode.Checks.{checks_of};
ghost use Rattle.check_insert.specs.Counting.{checks, checks_to_insert};
ghost use Rattle.tac_ir.specs.Bodies.{HaveClosedBodies, HaveNoneAdded, KeepVariables};
ghost use Rattle.compiled_programs.specs.Programs.{is_integer_program};
ghost use Rattle.image_laws.specs.Images.Images.{HaveFewParameters, sizes_of, IsChecked, DoesWhatIsMeant};
ghost use Rattle.image_compiler.specs.declared.error.CompileError.{CompileError};
ghost use Rattle.image_compiler.specs.Built.{HasChecks, IsExpandable, IsBuilt, IsRefused, NeedsNodes, UnlessMemory};

use crate::error::CompileError;
use crate::image::image_of_checked;
use addr_map::AddrMap;
use addr_map::laws::sizes_are_in_range;
use c_tree::Program;
use check_elim::drop_available;
use check_insert::{checks, insert};
use image_laws::laws::images::{flat_code_is_encodable, images_do_what_is_meant};
use image_laws::laws::plans::flat_code_is_plannable;
use image_laws::laws::sizes::code_of_few_nodes_is_not_too_large;
use program_lowering::programs::lower;
use sb_base::Budgets;
use std::alloc::Global;
use tac_ir::Tac;

/// What is built of a program.
#[derive(Drop)]
pub struct Built {
    /// The file.
    pub image: Vec<u8>,
    /// The checks of its text, spatial and temporal each, whether a run reaches them or not; of more than 2^64 - 1 so
    /// many.
    pub checks: u64,
    /// How many of these are not in the image: the available ones, in functions of fewer than 2^32 nodes.
    pub dropped: u64,
}

// An image with its numbers of checks, if there is one.
fn with_checks(
    image: Result<Vec<u8>, CompileError>,
    checks: u64,
    dropped: u64,
) -> Result<Built, CompileError>
    ensures ok { IfOk result
        (λ built. (image ≡ Ok built.image) × (built.checks ≡ checks) × (built.dropped ≡ dropped)) }
    ensures err { (e : CompileError) → result ≡ Err e → image ≡ Err e }
{
    match image {
        Ok(image) => Ok(Built {
            image,
            checks,
            dropped,
        }),
        Err(error) => Err(error),
    }
}

// What is built of lowered code, in which the checks are put in and the available ones dropped; or why nothing is.
fn built_of(alloc: Global, map: &AddrMap, lowered: Tac) -> Result<Built, CompileError>
    requires count { length lowered.functions ≤ 4096 }
    requires none_added { HaveNoneAdded lowered }
    requires closed { HaveClosedBodies lowered }
    requires variables { KeepVariables lowered }
    requires expandable { (r : Tac) → HasChecks lowered r → IsExpandable map.now r }
    ensures built { IfOk result
        (λ built. IsBuilt (HasChecks lowered) (checks lowered + checks_to_insert lowered) map.now built) }
    ensures checks { IfOk result
        (λ built. built.checks ≡ min (2 ^ 64 - 1) (checks lowered + checks_to_insert lowered)) }
    ensures refused { IfErr result (λ e. UnlessMemory e (IsRefused (HasChecks lowered) map.now e)) }
{
    let checked = insert(alloc, lowered)?;
    let count = checks(&checked);
    let left = drop_available(alloc, checked)?;
    with_checks(image_of_checked(alloc, map, &left.0), count, left.1)
}

// The map of a program without static objects.
#[tactic(auto, unfolding(addr_map::specs::Places::mapped))]
fn map_of(budgets: &Budgets) -> AddrMap
    ensures { result ≡ record { budgets = budgets.now; global_bytes = 0 } }
{
    match AddrMap::new(budgets, 0) {
        Ok(map) => map,
        Err(_) => unreachable!(),
    }
}

/// What is built of a valid program of integers, whose initializers are constant and which has at most 4096 functions
/// of at most 127 parameters each, with some budgets; or why nothing is. The image does what the program means, with at
/// most 1008 instructions for each unit of its work; its checks are those of the text, of more than 2^64 - 1 so many,
/// and of these just the available ones are dropped, as many as are told. Want of memory is the one answer that may
/// come without a cause; the code is too large only of a text with more than 8192 nodes.
pub fn compile(alloc: Global, budgets: &Budgets, program: &Program) -> Result<Built, CompileError>
    requires valid { is_valid_program (program_of program.now) ≡ true }
    requires integers { is_integer_program (program_of program.now) ≡ true }
    requires constant { first_not_constant (program_of program.now) ≡ None }
    requires few { length (program_of program.now).functions ≤ 4096 }
    requires parameters { HaveFewParameters (program_of program.now) }
    ensures built { IfOk result (λ built. IsBuilt (IsChecked (program_of program.now))
        (checks_of (program_of program.now)) (sizes_of (program_of program.now) budgets.now) built) }
    ensures checks { IfOk result (λ built. built.checks ≡ min (2 ^ 64 - 1) (checks_of (program_of program.now))) }
    ensures does { IfOk result (λ built. DoesWhatIsMeant (program_of program.now) budgets.now built.image.items) }
    ensures refused { IfErr result (λ e. UnlessMemory e (IsRefused (IsChecked (program_of program.now))
        (sizes_of (program_of program.now) budgets.now) e)) }
    ensures nodes { IfErr result (λ e. NeedsNodes e (program_of program.now)) }
{
    code_of_few_nodes_is_not_too_large();
    flat_code_is_plannable();
    flat_code_is_encodable();
    images_do_what_is_meant();
    let map = map_of(budgets);
    sizes_are_in_range(&map);
    let lowered = lower(alloc, program)?;
    built_of(alloc, &map, lowered)
}
