//! Laws of initializers, declarations and statements.

ghost use Rattle.std.specs.Prelude.{◌≡◌, ℕ, Bool, true, false, List, Option};
ghost use Rattle.c_scope.specs.Environment.{Facts};
ghost use Rattle.c_initializer_rules.specs.Initializing.{Initializing};
ghost use Rattle.c_syntax.specs.Formed.{IsWellFormed};
ghost use Rattle.c_syntax.specs.Statements.{BlockItems, Declaration, External, Statement, Unit};
ghost use Rattle.c_syntax.specs.Tree.{Initializer};
ghost use Rattle.c_typing_state.specs.State.{State};
ghost use Rattle.c_unit_typing.specs.Constructs.{Around, Labels};
ghost use Rattle.c_unit_typing.specs.Declarations.{declaration};
ghost use Rattle.c_unit_typing.specs.Files.{File};
ghost use Rattle.c_unit_typing.specs.Initializers.{initialized};
ghost use Rattle.c_unit_typing.specs.Statements.{block_items, statement};
ghost use Rattle.c_unit_typing.specs.Units.{file_before, file_in};
ghost use Rattle.typing_laws.specs.Validity.Sound.{IsFormed};
ghost use Rattle.typing_laws.specs.Validity.Typed.{HaveMembers};
ghost use Rattle.typing_laws.specs.Declarators.Extending.{Extending};
ghost use Rattle.typing_laws.specs.Declarators.Given.{anything};
ghost use Rattle.typing_laws.specs.Scopes.Defined.{define_functions};
ghost use Rattle.typing_laws.specs.Scopes.Leaving.{IfEnds, Leading};
ghost use Rattle.typing_laws.specs.Scopes.Regular.{are_regular_block_items, are_regular_externals};
ghost use Rattle.typing_laws.specs.Scopes.Regular.{is_regular_declaration, is_regular_initializer};
ghost use Rattle.typing_laws.specs.Scopes.Regular.{is_regular_statement};

/// Behind a file that is accepted, tags stand for structures and unions that are declared, complete ones have from 1 to
/// 2^32 bytes, and their members lie in them (C99 6.7.2.1).
pub fn files_end_formed()
    ensures { (end : ℕ) (es : List External) → are_regular_externals es ≡ true → IfEnds (file_in end es) }
{}

/// At the start of a file the state is formed, and no structure has members.
pub fn files_begin_formed()
    ensures { (objects : Option (List (List Bool))) (facts : Facts)
        → IsFormed (file_before objects facts).state × HaveMembers (file_before objects facts).state }
{}

/// Initializers, declarations and statements leave the scopes around as they are, structures and unions that are
/// complete with their members, and add to the variables, static objects and initializers of the file (C99 6.2.1).
pub fn typing_leaves_scopes()
    ensures initializer { (x : Initializer) → is_regular_initializer x ≡ true → (i : Initializing) (s : State)
        → IsFormed s → Extending false s anything (initialized x i s) }
    ensures declaration { (in_head : Bool) (d : Declaration) → is_regular_declaration d ≡ true → (f : File)
        → IsFormed f.state → Leading f (declaration in_head d f) }
    ensures statement { (a : Around) (ls : Labels) (s : Statement) → is_regular_statement s ≡ true → (f : File)
        → IsFormed f.state → Leading f (statement a ls s f) }
    ensures items { (a : Around) (xs : BlockItems) → are_regular_block_items xs ≡ true → (f : File)
        → IsFormed f.state → Leading f (block_items a xs f) }
{}

/// A well-formed file is regular: its structures and unions have members, each with a name (C99 6.7.2.1). Its
/// definitions are of functions whose parameters have names (6.9.1).
pub fn well_formed_files_are_regular()
    ensures regular { (u : Unit) → IsWellFormed u → are_regular_externals u.externals ≡ true }
    ensures defined { (u : Unit) → IsWellFormed u → define_functions u.externals ≡ true }
{}
