//! Laws of the functions that a file defines.

ghost use Rattle.std.specs.Prelude.{◌≡◌, ℕ, Bool, true, false, List, Option, Some, Ok, map, slice_get};
ghost use Rattle.c_syntax.specs.Statements.{BlockItems, Declaration, External};
ghost use Rattle.c_tree.specs.declared.c_type.TypeWord.{TypeWord};
ghost use Rattle.c_tree.specs.Valid.{Scope};
ghost use Rattle.c_tree.specs.ValidProgram.{is_main, signature_at, signatures_of};
ghost use Rattle.c_typing_state.specs.State.{extents};
ghost use Rattle.c_operand_typing.specs.Primaries.{is_undefined};
ghost use Rattle.c_scope.specs.declared.meaning.Designated.TheVariants as what;
ghost use Rattle.c_scope.specs.declared.meaning.Designated.{Designated};
ghost use Rattle.c_scope.specs.declared.meaning.Meaning.TheVariants as meanings;
ghost use Rattle.c_scope.specs.declared.meaning.Entity.{Entity};
ghost use Rattle.c_scope.specs.Declaring.{Declaration as Declarator, has_linkage, is_linked, judged};
ghost use Rattle.c_scope.specs.Environment.{Environment, entity_with, in_file, surroundings, visible_type};
ghost use Rattle.c_scope.specs.Names.{Name, declared, meaning};
ghost use Rattle.c_unit_typing.specs.Declarations.{declaration};
ghost use Rattle.c_unit_typing.specs.Constructs.{Around};
ghost use Rattle.c_unit_typing.specs.Statements.{block_items};
ghost use Rattle.typing_laws.specs.Validity.Sound.{IsFormed};
ghost use Rattle.typing_laws.specs.Validity.Names.{IsFunctionOf};
ghost use Rattle.typing_laws.specs.Validity.Sound.{IsTypeOf};
ghost use Rattle.c_unit_typing.specs.Files.{File};
ghost use Rattle.c_unit_typing.specs.Programs.{program_of};
ghost use Rattle.c_unit_typing.specs.Units.{externals, file_with};
ghost use Rattle.typing_laws.specs.Scopes.Regular.{are_regular_externals, are_regular_block_items};
ghost use Rattle.typing_laws.specs.Scopes.Regular.{is_regular_declaration};
ghost use Rattle.c_tree.specs.Programs.{Function};
ghost use Rattle.typing_laws.specs.Scopes.Defined.{define_functions};
ghost use Rattle.program_laws.specs.Functions.Entities.{Fills, IfContinues, without_sizes};
ghost use Rattle.program_laws.specs.Functions.Functions.{Functions, HasTypeAndRoom};

/// A file that is accepted defines `int main(void)`, and its typed program has that function's number (C99 5.1.2.2.1).
pub fn main_is_defined()
    ensures { (objects : Option (List (List Bool))) (end : ℕ) (es : List External) (f : File)
        → are_regular_externals es ≡ true → define_functions es ≡ true → file_with objects end es ≡ Ok f
        → is_main (program_of f) ≡ true }
{}

/// The functions that a file defines stand in the order of their definitions: the number of a name is that of its
/// definition, whose type is that of all declarations of the function but for sizes of arrays, and is among the types
/// of functions (C99 6.2.7, 6.9.1).
pub fn functions_are_numbered()
    ensures { (objects : Option (List (List Bool))) (end : ℕ) (es : List External) (f : File)
        → are_regular_externals es ≡ true → define_functions es ≡ true → file_with objects end es ≡ Ok f
        → Functions f.definitions f.state.environment.entities f.state.function_types
        f.state.environment.facts.functions }
{}

/// Each function of a typed program has the number of its type, and the bytes that a call of it takes.
pub fn functions_have_types_and_rooms()
    ensures { (objects : Option (List (List Bool))) (end : ℕ) (es : List External) (f : File)
        → are_regular_externals es ≡ true → define_functions es ≡ true → file_with objects end es ≡ Ok f
        → (k : ℕ) (g : Function) → slice_get (program_of f).functions k ≡ Some g → HasTypeAndRoom (program_of f) k g }
{}

/// Each type of functions has its number among those of the program, and spells its signature with the structures that
/// are complete at the end (C99 6.7.5.3).
pub fn function_types_have_signatures()
    ensures { (objects : Option (List (List Bool))) (end : ℕ) (es : List External) (f : File)
        → are_regular_externals es ≡ true → define_functions es ≡ true → file_with objects end es ≡ Ok f
        → (scope : Scope) → scope.types ≡ signatures_of (program_of f) → (n : ℕ) (type : List TypeWord)
        → slice_get f.state.function_types n ≡ Some type → IsTypeOf scope (extents f.state) n type }
{}

/// A name of a function that the file defines stands, wherever its type is that of the function but for sizes of
/// arrays, for the function of its number in the program, whose signature that type spells at the end (C99 6.2.7,
/// 6.9.1).
pub fn defined_functions_are_designated()
    ensures { (objects : Option (List (List Bool))) (end : ℕ) (es : List External) (f : File)
        → are_regular_externals es ≡ true → define_functions es ≡ true → file_with objects end es ≡ Ok f
        → (scope : Scope)
        → scope.functions ≡ map (λ g. signature_at (program_of f) g.type_number) (program_of f).functions
        → (name : Name) (x : Entity) (n : ℕ) → declared name f.state.environment.entities ≡ Some x
        → x.what ≡ what.Function n → (type : List TypeWord) → without_sizes type ≡ without_sizes x.c_type
        → is_undefined n f.state ≡ false → IsFunctionOf scope (extents f.state) n type }
{}

/// Objects and functions with linkage stay what they are in the declarations, statements and definitions behind, with
/// the same types but for sizes of arrays, and stay defined (C99 6.2.2, 6.2.7).
pub fn linked_names_continue()
    ensures externals { (es : List External) → are_regular_externals es ≡ true → (f : File) → IsFormed f.state
        → IfContinues f (externals es f) }
    ensures declarations { (in_head : Bool) (d : Declaration) → is_regular_declaration d ≡ true → (f : File)
        → IsFormed f.state → IfContinues f (declaration in_head d f) }
    ensures items { (around : Around) (xs : BlockItems) → are_regular_block_items xs ≡ true → (f : File)
        → IsFormed f.state → IfContinues f (block_items around xs f) }
{}

/// A declarator with linkage binds its name to the object or function of that name, with its type but for sizes of
/// arrays, of which it has no other, where the declaration that is visible there has no other (C99 6.2.7 paragraph 4).
pub fn linked_names_have_types()
    ensures words { (env : Environment) (d : Declarator) (u : Unit {0}) → judged (surroundings env d) d ≡ Ok u
        → has_linkage (in_file env) d ≡ true
        → without_sizes (visible_type d.type (meaning d.name env.names))
        ≡ without_sizes (entity_with env d (declared d.name env.entities)).c_type }
    ensures sizes { (env : Environment) (d : Declarator) (u : Unit {0}) → judged (surroundings env d) d ≡ Ok u
        → has_linkage (in_file env) d ≡ true
        → ((w : Designated) (s : List TypeWord) → meaning d.name env.names ≡ Some (meanings.Named w s)
        → is_linked w ≡ true → Fills s (entity_with env d (declared d.name env.entities)).c_type)
        → Fills (visible_type d.type (meaning d.name env.names))
        (entity_with env d (declared d.name env.entities)).c_type }
{}
