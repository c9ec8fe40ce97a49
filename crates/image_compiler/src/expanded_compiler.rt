//! From a typed program with objects and pointers to its image.

ghost use Rattle.std.specs.Prelude.{◌≡◌, ◌+◌, ◌≤◌, ◌-◌, ◌^◌, true, length, min, None, IfOk};
ghost use Rattle.c_tree.specs.View.{program_of};
ghost use Rattle.c_tree.specs.ValidProgram.{is_valid_program};
ghost use Rattle.c_const.specs.Initializers.{first_not_constant};
ghost use Rattle.source_meaning.specs.Meaning.{statics_end};
ghost use Rattle.tac_ir.specs.declared.function.Tac.{Tac};
ghost use Rattle.tac_ir.specs.Bodies.{HaveClosedBodies, HaveNoneAdded, KeepVariables};
ghost use Rattle.check_insert.specs.Counting.{checks, checks_to_insert};
ghost use Rattle.program_lowering.specs.ProgramCode.Checks.{checks_of};
ghost use Rattle.image_laws.specs.Images.Images.{sizes_of, IsChecked, DoesWhatIsMeant};
ghost use Rattle.image_compiler.specs.Built.{HasChecks};
ghost use Rattle.image_compiler.specs.Expanded.{HasSoundStatics, IsBuiltByExpansion};

use crate::compiler::Built;
use crate::expansion::{ExpansionError, image_of_expansion};
use addr_map::AddrMap;
use addr_map::laws::sizes_are_in_range;
use c_tree::Program;
use check_elim::drop_available;
use check_insert::{checks, insert};
use image_laws::laws::expansions::images_of_expansions_do_what_is_meant;
use metadata_relation::laws::start_data::static_objects_are_sound_and_in_their_region;
use program_lowering::programs::lower;
use sb_base::Budgets;
use shadow_space::ShadowForm;
use std::alloc::Global;
use tac_ir::Tac;

// The map of a program with so many bytes of static objects.
#[tactic(auto, unfolding(addr_map::specs::Places::mapped))]
fn map_of(budgets: &Budgets, global_bytes: u64) -> Result<AddrMap, ExpansionError>
    ensures { IfOk result (λ map. map ≡ record { budgets = budgets.now; global_bytes = global_bytes }) }
{
    match AddrMap::new(budgets, global_bytes) {
        Ok(map) => Ok(map),
        Err(_) => Err(ExpansionError::NotCompiled),
    }
}

// What is built of lowered code, in which the checks are put in and the available ones dropped.
fn built_of<S: ShadowForm>(
    alloc: Global,
    map: &AddrMap,
    lowered: Tac,
) -> Result<Built, ExpansionError>
    requires none_added { HaveNoneAdded lowered }
    requires closed { HaveClosedBodies lowered }
    requires variables { KeepVariables lowered }
    requires statics { (r : Tac) → HasChecks lowered r → HasSoundStatics map.now r }
    ensures built { IfOk result (λ built. IsBuiltByExpansion S.entry_read S.entry_write S.entry (S.IsGood map.now)
        (HasChecks lowered) (checks lowered + checks_to_insert lowered) map.now built) }
    ensures checks { IfOk result
        (λ built. built.checks ≡ min (2 ^ 64 - 1) (checks lowered + checks_to_insert lowered)) }
{
    let checked = insert(alloc, lowered)?;
    let count = checks(&checked);
    let left = drop_available(alloc, checked)?;
    let image = image_of_expansion::<S>(alloc, map, &left.0)?;
    Ok(Built {
        image,
        checks: count,
        dropped: left.1,
    })
}

/// What is built of a valid program by the expansion of its checked code under a form of the shadow space, with some
/// budgets: its initializers are constant, its static objects take at most 4 MiB, and it has at most 4096 functions.
/// The image does what the program means, with at most 1008 instructions for each unit of its work; its checks are
/// those of the text, of more than 2^64 - 1 so many, and of these just the available ones are dropped, as many as are
/// told. An error may come of any program: nothing is promised yet of which programs pass the tests.
pub fn compile_expanded<S: ShadowForm>(
    alloc: Global,
    budgets: &Budgets,
    program: &Program,
) -> Result<Built, ExpansionError>
    requires valid { is_valid_program (program_of program.now) ≡ true }
    requires constant { first_not_constant (program_of program.now) ≡ None }
    requires small { statics_end (program_of program.now).statics 0 ≤ 0x400000 }
    requires few { length (program_of program.now).functions ≤ 4096 }
    ensures built { IfOk result (λ built. IsBuiltByExpansion S.entry_read S.entry_write S.entry
        (S.IsGood (sizes_of (program_of program.now) budgets.now)) (IsChecked (program_of program.now))
        (checks_of (program_of program.now)) (sizes_of (program_of program.now) budgets.now) built) }
    ensures checks { IfOk result (λ built. built.checks ≡ min (2 ^ 64 - 1) (checks_of (program_of program.now))) }
    ensures does { IfOk result (λ built. DoesWhatIsMeant (program_of program.now) budgets.now built.image.items) }
{
    images_of_expansions_do_what_is_meant::<S>();
    static_objects_are_sound_and_in_their_region();
    let lowered = lower(alloc, program)?;
    let map = map_of(budgets, lowered.global_bytes)?;
    sizes_are_in_range(&map);
    built_of::<S>(alloc, &map, lowered)
}
