//! Laws of whole programs.

ghost use Rattle.std.specs.Prelude.{◌≡◌, ℕ, ◌≤◌, Bool, true, List, Option, Ok};
ghost use Rattle.c_syntax.specs.Formed.{IsWellFormed};
ghost use Rattle.c_syntax.specs.Statements.{External, Unit};
ghost use Rattle.c_tree.specs.Programs.{Program};
ghost use Rattle.c_tree.specs.ValidProgram.{is_valid_program};
ghost use Rattle.c_unit_typing.specs.Files.{File};
ghost use Rattle.c_unit_typing.specs.Programs.{program_of};
ghost use Rattle.c_unit_typing.specs.Typed.{a_program, global_bytes, most_bytes, typed_unit};
ghost use Rattle.c_unit_typing.specs.Units.{file_with};
ghost use Rattle.typing_laws.specs.Scopes.Regular.{are_regular_externals};
ghost use Rattle.typing_laws.specs.Scopes.Defined.{define_functions};
ghost use Rattle.program_laws.specs.Names.Linked.{HaveSizes};

/// At the end of a file that is accepted each object with linkage is complete, and each string literal has the size of
/// an object, where static objects take no more bytes than the limit says (C99 5.2.4.1, 6.4.5, 6.9.2).
pub fn objects_have_sizes()
    ensures { (objects : Option (List (List Bool))) (end : ℕ) (es : List External) (f : File)
        → are_regular_externals es ≡ true → define_functions es ≡ true → file_with objects end es ≡ Ok f
        → global_bytes (program_of f) ≤ most_bytes → HaveSizes f }
{}

/// The program of such a file is valid (C99 6.9).
pub fn programs_are_valid()
    ensures { (objects : Option (List (List Bool))) (end : ℕ) (es : List External) (f : File)
        → are_regular_externals es ≡ true → define_functions es ≡ true → file_with objects end es ≡ Ok f
        → HaveSizes f → is_valid_program (program_of f) ≡ true }
{}

/// The typed program of a well-formed file is valid (C99 6.7.8, 6.9).
pub fn typed_files_are_valid()
    ensures { (end : ℕ) (u : Unit) (p : Program) → IsWellFormed u → typed_unit end u ≡ a_program p
        → is_valid_program p ≡ true }
{}
