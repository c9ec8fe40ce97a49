//! Laws of string literals.

ghost use Rattle.std.specs.Prelude.{◌≡◌, ℕ, ◌≤◌, Bool, true, List, Option, Some, Ok, length, slice_get};
ghost use Rattle.c_syntax.specs.Statements.{External};
ghost use Rattle.c_typing_state.specs.State.{Literal};
ghost use Rattle.c_unit_typing.specs.Files.{File};
ghost use Rattle.c_unit_typing.specs.Programs.{program_of};
ghost use Rattle.c_unit_typing.specs.Units.{file_with};
ghost use Rattle.typing_laws.specs.Scopes.Regular.{are_regular_externals};
ghost use Rattle.typing_laws.specs.Scopes.Defined.{define_functions};
ghost use Rattle.program_laws.specs.Statics.Program.{stand_in_functions};

/// The string literals of a file that is accepted stand outside of functions or in functions of its program (C99
/// 6.4.5).
pub fn literals_stand_in_functions()
    ensures { (objects : Option (List (List Bool))) (end : ℕ) (es : List External) (f : File)
        → are_regular_externals es ≡ true → define_functions es ≡ true → file_with objects end es ≡ Ok f
        → stand_in_functions (program_of f) f.state.literals ≡ true }
{}

/// Each string literal of a file that is accepted has at least the byte 0 that ends it (C99 6.4.5 paragraph 5).
pub fn literals_have_bytes()
    ensures { (objects : Option (List (List Bool))) (end : ℕ) (es : List External) (f : File)
        → are_regular_externals es ≡ true → define_functions es ≡ true → file_with objects end es ≡ Ok f
        → (n : ℕ) (l : Literal) → slice_get f.state.literals n ≡ Some l → 1 ≤ length l.bytes }
{}
