//! Laws of static objects.

ghost use Rattle.std.specs.Prelude.{◌≡◌, ℕ, Bool, true, List, Ok, Option, Some, map};
ghost use Rattle.std.specs.List.{list_all};
ghost use Rattle.c_syntax.specs.Statements.{BlockItems, Declaration, External, Statement};
ghost use Rattle.c_syntax.specs.Tree.{Initializer};
ghost use Rattle.c_tree.specs.declared.c_type.TypeWord.{TypeWord};
ghost use Rattle.c_tree.specs.Programs.{Program};
ghost use Rattle.c_tree.specs.Valid.{Scope};
ghost use Rattle.c_tree.specs.ValidProgram.{is_static_object};
ghost use Rattle.c_scope.specs.declared.meaning.Designated.TheVariants as what;
ghost use Rattle.c_scope.specs.declared.meaning.Entity.{Entity};
ghost use Rattle.c_scope.specs.Names.{Name, Names};
ghost use Rattle.c_typing_state.specs.State.{State, extents};
ghost use Rattle.c_unit_typing.specs.Constructs.{Around, Labels};
ghost use Rattle.c_unit_typing.specs.Declarations.{declaration, initialized_if, with_parts};
ghost use Rattle.c_unit_typing.specs.Files.{File, in_state, ◌~>◌};
ghost use Rattle.c_unit_typing.specs.Statements.{block_items, statement};
ghost use Rattle.c_unit_typing.specs.Programs.{linked_objects, literal_object, program_of};
ghost use Rattle.c_unit_typing.specs.Units.{file_with};
ghost use Rattle.typing_laws.specs.Validity.Sound.{Covers, IsFormed};
ghost use Rattle.typing_laws.specs.Validity.Steps.{Structures};
ghost use Rattle.typing_laws.specs.Scopes.Defined.{define_functions};
ghost use Rattle.typing_laws.specs.Scopes.Regular.{are_regular_block_items, is_regular_declaration};
ghost use Rattle.typing_laws.specs.Scopes.Regular.{is_regular_statement, are_regular_externals};
ghost use Rattle.typing_laws.specs.Scopes.Regular.{is_regular_initializer};
ghost use Rattle.typing_laws.specs.Declarations.Binding.{IsCompleteFor};
ghost use Rattle.typing_laws.specs.Layouts.Listed.{HasSizes, IsLaidOut};
ghost use Rattle.program_laws.specs.Bodies.Defined.{Defines};
ghost use Rattle.program_laws.specs.Bodies.Standing.{IsReady};
ghost use Rattle.program_laws.specs.Names.Linked.{HaveSizes};
ghost use Rattle.program_laws.specs.Statics.Added.{IfAdds};
ghost use Rattle.program_laws.specs.Statics.Defining.{HasFunctions};
ghost use Rattle.program_laws.specs.Statics.Linked.{IfAddsParts, are_initialized};
ghost use Rattle.program_laws.specs.Statics.Program.{AddsObjectsOf, HasObjectsOf, IsFunctionOf};
ghost use Rattle.program_laws.specs.Statics.Program.{are_static_objects};
ghost use Rattle.program_laws.specs.Statics.Program.{stand_in_functions};

/// The static objects that the declarations of a block add to a file, in it and in the statements of it, are objects of
/// complete types, whose initializers are valid where all variables of their function can be named, and lie in them
/// (C99 6.2.4, 6.7.8); they are those of that function.
pub fn blocks_add_valid_static_objects()
    ensures declaration { (result : List TypeWord) (in_head : Bool) (d : Declaration) → is_regular_declaration d ≡ true
        → (f : File) → IsReady f.state → IfAdds result f (declaration in_head d f) }
    ensures statement { (result : List TypeWord) (a : Around) (ls : Labels) (s : Statement)
        → is_regular_statement s ≡ true → (f : File) → IsReady f.state → IfAdds result f (statement a ls s f) }
    ensures items { (result : List TypeWord) (a : Around) (xs : BlockItems) → are_regular_block_items xs ≡ true
        → (f : File) → IsReady f.state → IfAdds result f (block_items a xs f) }
{}

/// The static objects that the block of a definition adds to a file are valid static objects of the program that has
/// the function that is made of the definition.
pub fn static_objects_of_blocks_are_valid()
    ensures { (p : Program) (structures : Structures) (f behind : File) (d : Defines f behind)
        → IsFunctionOf p structures f behind d → AddsObjectsOf p d.before d.end }
{}

/// String literals, which are arrays of the size of their bytes, are valid static objects of a program that has what a
/// state has (C99 6.4.5 paragraph 5).
pub fn string_literals_are_valid()
    ensures { (p : Program) (scope : Scope) (structures : Structures) (s : State) → Covers scope structures s
        → stand_in_functions p s.literals ≡ true → are_static_objects p (map literal_object s.literals) ≡ true }
{}

/// What the initializer of an object with linkage stores is valid and lies in the object, which is of a complete type
/// behind it (C99 6.7.8, 6.9.2). In a program in which that holds of all objects with linkage at the end of its file
/// they are valid.
pub fn objects_with_linkage_are_valid()
    ensures declared { (f : File) → IsFormed f.state → IsLaidOut f.state → (n : ℕ) (name : Name × ℕ)
        (type : List TypeWord) (x : Initializer) → is_regular_initializer x ≡ true
        → IsCompleteFor (extents f.state) true type → HasSizes (extents f.state) type
        → IfAddsParts n f ((in_state (initialized_if (what.Object n) name type (Some x)) ~> with_parts n true) f) }
    ensures linked { (p : Program) (f : File) (es : Names Entity) → are_initialized p f es ≡ true
        → are_static_objects p (linked_objects f es) ≡ true }
{}

/// The static objects of the program of a file are valid: those of blocks and string literals, where definitions have
/// their functions, and those with linkage, where their initializers are valid and lie in them.
pub fn static_objects_of_files_are_valid()
    ensures { (f : File) → HasObjectsOf f
        → list_all (is_static_object (program_of f)) (program_of f).statics ≡ true }
{}

/// At the end of a file that is accepted, and whose objects with linkage have sizes, what their initializers store is
/// valid where no variable can be named, and lies in them (C99 6.2.7, 6.7.8, 6.9.2).
pub fn linked_objects_are_initialized()
    ensures { (objects : Option (List (List Bool))) (end : ℕ) (es : List External) (f : File)
        → are_regular_externals es ≡ true → define_functions es ≡ true → file_with objects end es ≡ Ok f → HaveSizes f
        → are_initialized (program_of f) f f.state.environment.entities ≡ true }
{}

/// The definitions of a file that is accepted stand in turn, and each has its function in the program, whose number is
/// the place of the definition (C99 6.9.1); the program has what the file has at its end.
pub fn definitions_have_their_functions()
    ensures { (objects : Option (List (List Bool))) (end : ℕ) (es : List External) (f : File)
        → are_regular_externals es ≡ true → define_functions es ≡ true → file_with objects end es ≡ Ok f
        → HaveSizes f → HasFunctions f }
{}
