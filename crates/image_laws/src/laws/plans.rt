//! Laws of flat code of integers, each as the contract of a function that does nothing.

ghost use Rattle.std.specs.Prelude.{◌≡◌, true};
ghost use Rattle.addr_map.specs.Places.{MapSizes};
ghost use Rattle.c_tree.specs.Programs.{Program};
ghost use Rattle.c_tree.specs.ValidProgram.{is_valid_program};
ghost use Rattle.tac_ir.specs.declared.function.Tac.{Tac};
ghost use Rattle.c_lower.specs.Programs.{IsLowered};
ghost use Rattle.check_insert.specs.SameButChecks.{SameButChecks};
ghost use Rattle.compiled_programs.specs.Programs.{is_integer_program};
ghost use Rattle.metadata_expansion.specs.Numbers.{AreAllSmall};
ghost use Rattle.reg_plan.specs.Planned.{ArePlannable};
ghost use Rattle.image_laws.specs.Images.Images.{flat_code};

/// The flat code of what is lowered of a valid program of integers alone, whatever checks are put in, can be planned
/// where its numbers fit: every virtual register that a function names has a home, which lies within its activation
/// record where the value is needed; values that are needed together have different homes; and where a function is
/// entered none but its parameters are needed.
pub fn flat_code_is_plannable()
    ensures { (p : Program) (t r : Tac) (map : MapSizes) → is_valid_program p ≡ true → is_integer_program p ≡ true
        → IsLowered p t → SameButChecks t r → AreAllSmall map r → ArePlannable (flat_code map r) }
{}
