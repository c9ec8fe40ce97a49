//! Laws of the size of the code of programs of integers, each as the contract of a function that does nothing.

ghost use Rattle.std.specs.Prelude.{◌≡◌, ℕ, ◌*◌, ◌<◌, ◌≤◌, List, length, true};
ghost use Rattle.addr_map.specs.Places.{MapSizes};
ghost use Rattle.c_tree.specs.Programs.{Program};
ghost use Rattle.c_tree.specs.ValidProgram.{is_valid_program};
ghost use Rattle.tac_ir.specs.declared.function.Tac.{Tac};
ghost use Rattle.c_lower.specs.Programs.{IsLowered};
ghost use Rattle.program_lowering.specs.ProgramCode.Weights.{IsWeighed};
ghost use Rattle.check_insert.specs.SameButChecks.{SameButChecks};
ghost use Rattle.compiled_programs.specs.Programs.{is_integer_program};
ghost use Rattle.metadata_expansion.specs.Numbers.{AreAllSmall};
ghost use Rattle.reg_plan.specs.declared.plan.FunctionPlan.{FunctionPlan};
ghost use Rattle.reg_plan.specs.Tests.{AreAccepted};
ghost use Rattle.machine_laws.specs.Segments.Segments.{code_bytes};
ghost use Rattle.rv_codegen.specs.declared.code.GenerateError.TheVariants.{TooLarge};
ghost use Rattle.rv_codegen.specs.Generated.{IsCause};
ghost use Rattle.image_laws.specs.Images.Images.{flat_code};
ghost use Rattle.image_laws.specs.Sizes.Nodes.{program_nodes};

use crate::laws::code_sizes::programs_have_few_bytes;
use crate::laws::lowering::lowered_integers_are_integer_code;

/// The compiled code of a valid program of integers has at most 1024 bytes for each node of its text, whatever accepted
/// plan it has: what it lowers to weighs just what its text does, it has any checks, its numbers fit, it
/// has at most 4096 functions, and its budget `calls` is at most 16 MiB.
pub fn code_has_few_bytes_for_each_node()
    ensures { (p : Program) (t : Tac) (r : Tac) (map : MapSizes) (plans : List FunctionPlan)
        → is_valid_program p ≡ true → is_integer_program p ≡ true → IsLowered p t → IsWeighed p t → SameButChecks t r
        → map.budgets.calls ≤ 16777216 → length p.functions ≤ 4096 → AreAllSmall map r
        → AreAccepted (flat_code map r) plans
        → code_bytes map (flat_code map r) plans ≤ 1024 * program_nodes p }
{
    programs_have_few_bytes();
    lowered_integers_are_integer_code();
}

/// So code is too large only of a text of more than 8192 nodes.
pub fn code_of_few_nodes_is_not_too_large()
    ensures { (p : Program) (t : Tac) (r : Tac) (map : MapSizes) (plans : List FunctionPlan) (bytes : ℕ)
        → is_valid_program p ≡ true → is_integer_program p ≡ true → IsLowered p t → IsWeighed p t → SameButChecks t r
        → map.budgets.calls ≤ 16777216 → length p.functions ≤ 4096 → AreAllSmall map r
        → AreAccepted (flat_code map r) plans
        → IsCause map (flat_code map r) plans (TooLarge bytes) → 8192 < program_nodes p }
{
    code_has_few_bytes_for_each_node();
}
