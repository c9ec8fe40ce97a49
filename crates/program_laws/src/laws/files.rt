//! Laws of typed files.

ghost use Rattle.std.specs.Prelude.{◌≡◌, ℕ, Bool, true, List, Option, Some, Ok, length, map, slice_get};
ghost use Rattle.c_syntax.specs.Statements.{External};
ghost use Rattle.c_tree.specs.Kinds.{is_size};
ghost use Rattle.c_tree.specs.Programs.{StaticObject};
ghost use Rattle.c_tree.specs.Valid.{Scope};
ghost use Rattle.c_scope.specs.declared.meaning.Designated.TheVariants as what;
ghost use Rattle.c_scope.specs.declared.meaning.Entity.{Entity};
ghost use Rattle.c_scope.specs.Names.{Name, declared};
ghost use Rattle.c_typing_state.specs.State.{Literal, extents};
ghost use Rattle.c_unit_typing.specs.Declarations.{kind_in};
ghost use Rattle.typing_laws.specs.Validity.Sound.{IsLiteral};
ghost use Rattle.c_unit_typing.specs.Files.{File};
ghost use Rattle.c_unit_typing.specs.Programs.{final_type, program_of};
ghost use Rattle.c_unit_typing.specs.Units.{file_with};
ghost use Rattle.typing_laws.specs.Scopes.Regular.{are_regular_externals};
ghost use Rattle.typing_laws.specs.Scopes.Defined.{define_functions};
ghost use Rattle.program_laws.specs.Files.Functions.{AreFunctionTypes};
ghost use Rattle.program_laws.specs.Files.Numbers.{AreInOrder, HasKind, entries};

/// Each number of a static object is that of one string literal, object without linkage or object with linkage, which
/// stands at its number in the program (C99 6.2.4).
pub fn static_objects_are_in_order()
    ensures { (objects : Option (List (List Bool))) (end : ℕ) (es : List External) (f : File)
        → are_regular_externals es ≡ true → file_with objects end es ≡ Ok f → AreInOrder f }
{}

/// The types of functions that a typed program defines or calls are all different, and each agrees with the kinds of
/// its parameters and result, with the structures that are complete at the end (C99 6.7.5.3).
pub fn function_types_are_valid()
    ensures { (objects : Option (List (List Bool))) (end : ℕ) (es : List External) (f : File)
        → are_regular_externals es ≡ true → define_functions es ≡ true → file_with objects end es ≡ Ok f
        → AreFunctionTypes f }
{}

/// Each string literal, object without linkage and object with linkage has its kind at its number among the static
/// objects of the program; so a string literal that is no larger than an object may be is an array there (C99 6.4.5).
pub fn static_objects_have_kinds()
    ensures objects { (objects : Option (List (List Bool))) (end : ℕ) (es : List External) (f : File)
        → are_regular_externals es ≡ true → file_with objects end es ≡ Ok f → (k : ℕ) (e : ℕ × StaticObject)
        → slice_get (entries f) k ≡ Some e → HasKind (map (λ s. s.kind) (program_of f).statics) e.0 e.1.kind }
    ensures literals { (objects : Option (List (List Bool))) (end : ℕ) (es : List External) (f : File)
        → are_regular_externals es ≡ true → file_with objects end es ≡ Ok f → (scope : Scope)
        → scope.statics ≡ map (λ s. s.kind) (program_of f).statics → (n : ℕ) (l : Literal)
        → slice_get f.state.literals n ≡ Some l → is_size (length l.bytes) ≡ true → IsLiteral scope l }
    ensures linked { (objects : Option (List (List Bool))) (end : ℕ) (es : List External) (f : File)
        → are_regular_externals es ≡ true → file_with objects end es ≡ Ok f → (name : Name) (x : Entity) (n : ℕ)
        → declared name f.state.environment.entities ≡ Some x → x.what ≡ what.Object n
        → HasKind (map (λ s. s.kind) (program_of f).statics) n
        (kind_in f.state (final_type (extents f.state) x.c_type)) }
{}
