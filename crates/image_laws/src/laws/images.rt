//! Laws of images of programs of integers, each as the contract of a function that does nothing.

ghost use Rattle.std.specs.Prelude.{◌≡◌, ℕ, ◌+◌, ◌*◌, ◌≤◌, List, [], length, true};
ghost use Rattle.addr_map.specs.Places.{MapSizes, AreMapped, functions_begin, code_begin};
ghost use Rattle.sb_base.specs.Budgets.{BudgetSizes, AreInRange};
ghost use Rattle.c_tree.specs.Programs.{Program};
ghost use Rattle.c_tree.specs.ValidProgram.{is_valid_program};
ghost use Rattle.tac_ir.specs.declared.function.Tac.{Tac};
ghost use Rattle.tac_ir.specs.Meaning.{setting_of_code};
ghost use Rattle.compiled_programs.specs.Programs.{is_integer_program};
ghost use Rattle.metadata_expansion.specs.Numbers.{AreAllSmall};
ghost use Rattle.flat_code.specs.declared.function.FlatProgram.{FlatProgram};
ghost use Rattle.reg_plan.specs.declared.plan.FunctionPlan.{FunctionPlan};
ghost use Rattle.reg_plan.specs.Planned.{ArePlannable, ArePlanned, IsPlanOfRegisters};
ghost use Rattle.reg_plan.specs.Tests.{AreAccepted};
ghost use Rattle.machine_laws.specs.Calls.Table.{start_address};
ghost use Rattle.machine_laws.specs.Following.Code.{IsEncodable};
ghost use Rattle.machine_laws.specs.Following.Start.{IsStartable};
ghost use Rattle.machine_laws.specs.Segments.Segments.{table_bytes};
ghost use Rattle.rv_codegen.specs.MachineImages.Image.{IsImage};
ghost use Rattle.image_laws.specs.Images.Images.{HaveFewParameters, sizes_of, IsChecked, flat_code, IsFlat};
ghost use Rattle.image_laws.specs.Images.Images.{DoesWhatIsMeant};

use crate::laws::lowering::lowered_integers_are_integer_code;
use behaviours::following_is_faithful;
use c_lower::laws::lowered_code_follows_its_program;
use check_elim::laws::code_without_available_checks_means_the_same;
use check_insert::laws::checked_code_is_never_stuck;
use flat_code::laws::steps_begin_at_most_one_turn;
use flat_propagation::laws::propagated_programs_mean_the_same;
use metadata_plan::laws::operator_lists::operators_compute;
use rv_codegen::images::laws::{data_is_held, images_follow};
use rv_sim::laws::machine_is_machine;
use source_meaning::laws::running_has_begun_all_turns;

/// The code of a program with its checks put in, and the available ones dropped, has the sizes of the program.
pub fn code_has_the_sizes_of_its_program()
    ensures { (p : Program) (r : Tac) → IsChecked p r → (budgets : BudgetSizes)
        → (setting_of_code r budgets).sizes ≡ sizes_of p budgets }
{}

/// The flat code of checked code has instructions of the machine: its numbers are short, and its lines have 32 bits.
pub fn flat_code_is_encodable()
    ensures { (p : Program) (budgets : BudgetSizes) → is_valid_program p ≡ true → is_integer_program p ≡ true
        → HaveFewParameters p → AreMapped (sizes_of p budgets) → (code : FlatProgram)
        → IsFlat p (sizes_of p budgets) code → IsEncodable code }
{}

/// And the machine can begin it.
pub fn flat_code_is_startable()
    ensures { (p : Program) (budgets : BudgetSizes) (code : FlatProgram)
        → IsFlat p (sizes_of p budgets) code → IsStartable (sizes_of p budgets) code }
{}

/// The start of flat code stands behind the entries of the functions of the text, 16 bytes each, from 0x10000 on.
pub fn starts_stand_behind_the_text_functions()
    ensures { (p : Program) (budgets : BudgetSizes) (code : FlatProgram) → IsFlat p (sizes_of p budgets) code
        → start_address code ≡ 65536 + 16 * length p.functions }
{}

/// What stands before compiled code has room there: the jump table of at most 4096 functions, the start, the
/// tails of endings, and the function with which a run begins, under plans that give out registers.
pub fn runtimes_have_room()
    ensures { (map : MapSizes) (r : Tac) → AreAllSmall map r → length r.functions ≤ 4096
        → ArePlannable (flat_code map r) → IsEncodable (flat_code map r) → (plans : List FunctionPlan)
        → ArePlanned (flat_code map r) plans (length (flat_code map r).functions)
        (IsPlanOfRegisters (flat_code map r))
        → functions_begin + table_bytes map (flat_code map r) plans ≤ code_begin }
{}

/// An image of a valid program of integers of at most 4096 functions, made of its flat code under accepted plans, with
/// no data at the start, does what the program means: it shows just what the program does, with at most 1008
/// instructions for each unit of the program's work.
pub fn images_do_what_is_meant()
    ensures { (p : Program) (budgets : BudgetSizes) → is_valid_program p ≡ true → is_integer_program p ≡ true
        → HaveFewParameters p → length p.functions ≤ 4096 → AreInRange budgets → (code : FlatProgram)
        → IsFlat p (sizes_of p budgets) code → (plans : List FunctionPlan) → AreAccepted code plans → (file : List ℕ)
        → IsImage (sizes_of p budgets) code plans [] [] file → DoesWhatIsMeant p budgets file }
{
    running_has_begun_all_turns();
    lowered_code_follows_its_program();
    checked_code_is_never_stuck();
    code_without_available_checks_means_the_same();
    lowered_integers_are_integer_code();
    operators_compute();
    steps_begin_at_most_one_turn();
    propagated_programs_mean_the_same();
    images_follow();
    data_is_held();
    machine_is_machine();
    following_is_faithful();
}
