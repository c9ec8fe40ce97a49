//! The law of images of programs with objects and pointers, as the contract of a function that does nothing.

ghost use Rattle.std.specs.Prelude.{◌≡◌, ℕ, ◌≤◌, List, length, true};
ghost use Rattle.sb_base.specs.Budgets.{BudgetSizes};
ghost use Rattle.addr_map.specs.Places.{AreMapped};
ghost use Rattle.c_tree.specs.Programs.{Program};
ghost use Rattle.c_tree.specs.ValidProgram.{is_valid_program};
ghost use Rattle.tac_ir.specs.declared.function.Tac.{Tac};
ghost use Rattle.image_laws.specs.Images.Images.{DoesWhatIsMeant, IsChecked, sizes_of};
ghost use Rattle.image_laws.specs.Images.Expansions.{IsExpandedImage};

use behaviours::following_is_faithful;
use c_lower::laws::lowered_code_follows_its_program;
use check_elim::laws::code_without_available_checks_means_the_same;
use check_insert::laws::checked_code_is_never_stuck;
use flat_code::laws::steps_begin_at_most_one_turn;
use flat_propagation::laws::propagated_programs_mean_the_same;
use metadata_relation::laws::inline::lists_of_a_form_are_inline_code;
use metadata_relation::laws::laid::laid_programs_are_expanded;
use metadata_relation::laws::start_data::{
    a_file_with_static_objects_stands_for_the_source, static_objects_are_sound_and_in_their_region,
};
use metadata_relation::laws::steps::covered_programs_are_followed;
use rv_codegen::images::laws::{data_is_held, images_follow};
use rv_sim::laws::machine_is_machine;
use shadow_space::ShadowForm;
use source_meaning::laws::running_has_begun_all_turns;

/// An image of a valid program of at most 4096 functions, made of an expansion of its checked code under any form of
/// the shadow space, all of whose instructions are covered, does what the program means: it shows just what the program
/// does, with at most 1008 instructions for each unit of the program's work.
pub fn images_of_expansions_do_what_is_meant<S: ShadowForm>()
    ensures { (p : Program) (budgets : BudgetSizes) → is_valid_program p ≡ true → length p.functions ≤ 4096
        → AreMapped (sizes_of p budgets) → (r : Tac) → IsChecked p r → (file : List ℕ)
        → IsExpandedImage S.entry_read S.entry_write S.entry (S.IsGood (sizes_of p budgets)) (sizes_of p budgets) r file
        → DoesWhatIsMeant p budgets file }
{
    running_has_begun_all_turns();
    lowered_code_follows_its_program();
    checked_code_is_never_stuck();
    code_without_available_checks_means_the_same();
    lists_of_a_form_are_inline_code::<S>();
    laid_programs_are_expanded::<S>();
    S::entries_are_local();
    static_objects_are_sound_and_in_their_region();
    a_file_with_static_objects_stands_for_the_source::<S>();
    covered_programs_are_followed::<S>();
    steps_begin_at_most_one_turn();
    propagated_programs_mean_the_same();
    images_follow();
    data_is_held();
    machine_is_machine();
    following_is_faithful();
}
