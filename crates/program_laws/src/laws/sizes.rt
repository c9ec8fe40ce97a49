//! Laws of the sizes of objects with linkage.

ghost use Rattle.std.specs.Prelude.{◌≡◌, ℕ, Bool, true, List, Option, Some, Ok};
ghost use Rattle.c_syntax.specs.Statements.{External};
ghost use Rattle.c_tree.specs.Kinds.{has_size};
ghost use Rattle.c_scope.specs.declared.meaning.Designated.TheVariants as what;
ghost use Rattle.c_scope.specs.declared.meaning.Entity.{Entity};
ghost use Rattle.c_scope.specs.Names.{Name, declared};
ghost use Rattle.c_typing_state.specs.State.{extents};
ghost use Rattle.c_unit_typing.specs.Declarations.{kind_in};
ghost use Rattle.c_unit_typing.specs.Files.{File};
ghost use Rattle.c_unit_typing.specs.Programs.{final_type};
ghost use Rattle.c_unit_typing.specs.Units.{file_with};
ghost use Rattle.typing_laws.specs.Scopes.Regular.{are_regular_externals};
ghost use Rattle.program_laws.specs.Sizes.Tags.{TagsAreComplete};

/// Each object with linkage is of a type that is complete at the end of the file, where the structures and unions are
/// whose tags get their members at file scope: it has at least one byte, and at most 2^32 (C99 6.9.2). An array whose
/// size is unknown then has one element.
pub fn objects_with_linkage_are_complete()
    ensures { (objects : Option (List (List Bool))) (end : ℕ) (es : List External) (f : File)
        → are_regular_externals es ≡ true → file_with objects end es ≡ Ok f → TagsAreComplete f
        → (name : Name) (x : Entity) (n : ℕ) → declared name f.state.environment.entities ≡ Some x
        → x.what ≡ what.Object n → has_size (kind_in f.state (final_type (extents f.state) x.c_type)) ≡ true }
{}
