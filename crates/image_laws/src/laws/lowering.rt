//! Laws of lowered programs of integers, each as the contract of a function that does nothing.

ghost use Rattle.std.specs.Prelude.{◌≡◌, true};
ghost use Rattle.c_tree.specs.Programs.{Program};
ghost use Rattle.c_tree.specs.ValidProgram.{is_valid_program};
ghost use Rattle.tac_ir.specs.declared.function.Tac.{Tac};
ghost use Rattle.c_lower.specs.Programs.{IsLowered};
ghost use Rattle.check_insert.specs.SameButChecks.{SameButChecks};
ghost use Rattle.compiled_programs.specs.Programs.{is_integer_program};
ghost use Rattle.metadata_plan.specs.Part.{IsIntegerCode};

/// What is lowered of a valid program of integers alone is code of integers, whatever checks are put in: every
/// instruction that a path from the entry of a function comes to is one of integers.
pub fn lowered_integers_are_integer_code()
    ensures { (p : Program) (t r : Tac) → is_valid_program p ≡ true → is_integer_program p ≡ true → IsLowered p t
        → SameButChecks t r → IsIntegerCode r }
{}
