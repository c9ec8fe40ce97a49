//! Laws of the typing of files.

ghost use Rattle.std.specs.Prelude.{◌≡◌, ℕ, List, None};
ghost use Rattle.c_const.specs.Initializers.{first_not_constant};
ghost use Rattle.c_counts.specs.Counts.{counts_of};
ghost use Rattle.c_syntax.specs.Statements.{External, Unit};
ghost use Rattle.c_tree.specs.Programs.{Program};
ghost use Rattle.c_unit_typing.specs.Typed.{IsWithin, a_program, typed_unit, within_limits};

/// The program that is given of a typed file is the one that is typed. The initializers of its static objects are
/// constant (C99 6.7.8 paragraph 4), and it is within the limits (5.2.4.1): it has at most 4096 functions, the file has
/// no list of more than 127 parameters, and the static objects take at most 4194304 bytes.
#[tactic(auto, using(crate::proofs::Within::given_within))]
pub fn given_programs_are_within_the_limits()
    ensures { (es : List External) (p q : Program) → within_limits es p ≡ a_program q
        → IsWithin (counts_of es) p q }
{}

/// The initializers of the program of a typed file are constant (C99 6.7.8 paragraph 4).
#[tactic(auto, using(crate::proofs::Within::unit_constant))]
pub fn initializers_of_typed_programs_are_constant()
    ensures { (end : ℕ) (u : Unit) (p : Program) → typed_unit end u ≡ a_program p → first_not_constant p ≡ None }
{}
