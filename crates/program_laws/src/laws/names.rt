//! Laws of names with linkage.

ghost use Rattle.std.specs.Prelude.{◌≡◌, ℕ, Bool, true, List, Option, Ok};
ghost use Rattle.c_syntax.specs.Statements.{External};
ghost use Rattle.c_tree.specs.declared.c_type.TypeWord.{TypeWord};
ghost use Rattle.c_tree.specs.Kinds.{has_size};
ghost use Rattle.c_tree.specs.Valid.{Scope};
ghost use Rattle.c_typing_state.specs.State.{extents};
ghost use Rattle.c_unit_typing.specs.Files.{Definition, File};
ghost use Rattle.c_unit_typing.specs.Programs.{final_type, program_of};
ghost use Rattle.c_unit_typing.specs.Units.{file_with};
ghost use Rattle.typing_laws.specs.Scopes.Defined.{define_functions};
ghost use Rattle.typing_laws.specs.Scopes.Regular.{are_regular_externals};
ghost use Rattle.program_laws.specs.Bodies.Defined.{HasFile};
ghost use Rattle.program_laws.specs.Bodies.Standing.{LinkedAreMeant};
ghost use Rattle.typing_laws.specs.Validity.Names.{IsStaticOf, kind_among};
ghost use Rattle.typing_laws.specs.Validity.Sound.{Knows};
ghost use Rattle.typing_laws.specs.Validity.Steps.{Structures};
ghost use Rattle.program_laws.specs.Files.Numbers.{HasKind};
ghost use Rattle.program_laws.specs.Functions.Entities.{Fills};
ghost use Rattle.program_laws.specs.Names.Known.{AreKnown, IsKnown};
ghost use Rattle.program_laws.specs.Names.Linked.{AreFilled, HaveSizes, IsOf};

/// A static object that has the size and the kind of its type at the end of the file is what a name stands for whose
/// type only lacks sizes of arrays (C99 6.2.7, 6.9.2).
pub fn names_of_static_objects_are_meant()
    ensures { (scope : Scope) (last : Structures) (n : ℕ) (type named : List TypeWord)
        → HasKind scope.statics n (kind_among last (final_type last type))
        → has_size (kind_among last (final_type last type)) ≡ true → Fills named type → IsStaticOf scope last n named }
{}

/// What a declaration with linkage in a block binds its name to is an object or a function of the program, of the kind
/// of its type, where that is so of what the name stood for before (C99 6.2.2, 6.2.7 paragraph 4).
pub fn linked_declarations_are_meant()
    ensures { (objects : Option (List (List Bool))) (end : ℕ) (es : List External) (f : File)
        → are_regular_externals es ≡ true → define_functions es ≡ true → file_with objects end es ≡ Ok f → HaveSizes f
        → (scope : Scope) → IsOf (program_of f) scope → LinkedAreMeant scope (extents f.state) f.state }
{}

/// Behind each definition of a file that is accepted, and at its end, each name with linkage stands for the object or
/// function of that name, whose type has the sizes of arrays that the type of the name has (C99 6.2.7, 6.9).
pub fn names_have_types_of_linked_objects()
    ensures end { (objects : Option (List (List Bool))) (end : ℕ) (es : List External) (f : File)
        → are_regular_externals es ≡ true → define_functions es ≡ true → file_with objects end es ≡ Ok f
        → AreFilled f.state.environment }
    ensures definitions { (objects : Option (List (List Bool))) (end : ℕ) (es : List External) (f : File)
        → are_regular_externals es ≡ true → define_functions es ≡ true → file_with objects end es ≡ Ok f
        → AreKnown f f.definitions }
{}

/// Where the parameters of a function that is defined begin, names stand for something of the kind of their type in the
/// program of the file (C99 6.2.1, 6.9.1).
pub fn definitions_know_names()
    ensures { (objects : Option (List (List Bool))) (end : ℕ) (es : List External) (f : File)
        → are_regular_externals es ≡ true → define_functions es ≡ true → file_with objects end es ≡ Ok f → HaveSizes f
        → (scope : Scope) → IsOf (program_of f) scope → (d : Definition) (k : IsKnown f d)
        → Knows scope (extents f.state) k.definition.defines.before.state }
{}

/// The program of a file has what the file has at its end: the string literals, the types of functions, the static
/// objects, and what names with linkage stand for (C99 6.2.4, 6.9).
pub fn programs_have_their_files()
    ensures { (objects : Option (List (List Bool))) (end : ℕ) (es : List External) (f : File)
        → are_regular_externals es ≡ true → define_functions es ≡ true → file_with objects end es ≡ Ok f → HaveSizes f
        → (scope : Scope) → IsOf (program_of f) scope → HasFile scope (extents f.state) f }
{}
