//! Laws of what is laid out behind declarations and statements.

ghost use Rattle.std.specs.Prelude.{◌≡◌, ℕ, Bool, true, List};
ghost use Rattle.c_syntax.specs.Statements.{BlockItems, Declaration, External, Statement};
ghost use Rattle.c_tree.specs.declared.c_type.TypeWord.{TypeWord};
ghost use Rattle.c_scope.specs.Parameters.{ParameterScope};
ghost use Rattle.c_unit_typing.specs.Constructs.{Around, Labels, scope_closed, scope_opened};
ghost use Rattle.c_unit_typing.specs.Declarations.{declaration};
ghost use Rattle.c_unit_typing.specs.Files.{File};
ghost use Rattle.c_unit_typing.specs.Statements.{block_items, statement};
ghost use Rattle.c_unit_typing.specs.Units.{entered, externals};
ghost use Rattle.typing_laws.specs.Validity.Sound.{IsFormed};
ghost use Rattle.typing_laws.specs.Declarators.Given.{IsParameterScope};
ghost use Rattle.typing_laws.specs.Layouts.Listed.{IsLaidOut};
ghost use Rattle.typing_laws.specs.Scopes.Leaving.{FileLeads};
ghost use Rattle.typing_laws.specs.Scopes.Regular.{are_regular_block_items, are_regular_externals};
ghost use Rattle.typing_laws.specs.Scopes.Regular.{is_regular_declaration, is_regular_statement};
ghost use Rattle.typing_laws.specs.LaidOut.Behind.{IfLaid, IsLaidIf};

/// Behind declarations and statements the state is laid out, as it is in a scope that is opened or closed (C99 6.2.1).
pub fn typing_leaves_files_laid_out()
    ensures declaration { (in_head : Bool) (d : Declaration) → is_regular_declaration d ≡ true → (f : File)
        → IsFormed f.state → IsLaidOut f.state → IfLaid f (declaration in_head d f) }
    ensures statement { (a : Around) (ls : Labels) (s : Statement) → is_regular_statement s ≡ true → (f : File)
        → IsFormed f.state → IsLaidOut f.state → IfLaid f (statement a ls s f) }
    ensures items { (a : Around) (xs : BlockItems) → are_regular_block_items xs ≡ true → (f : File)
        → IsFormed f.state → IsLaidOut f.state → IfLaid f (block_items a xs f) }
    ensures opened { (f : File) → IsLaidOut f.state → IsLaidOut (scope_opened f).state }
    ensures closed { (f behind : File) → FileLeads (scope_opened f) behind → IsLaidOut f.state
        → IsLaidOut behind.state → IsLaidOut (scope_closed behind).state }
{}

/// So is the state behind definitions of functions and declarations of a file (C99 6.9).
pub fn files_stay_laid_out()
    ensures externals { (es : List External) → are_regular_externals es ≡ true → (f : File) → IsFormed f.state
        → IsLaidOut f.state → IsLaidIf (externals es f) }
    ensures entered { (f : File) → IsLaidOut f.state → (number : ℕ) (type : List TypeWord) (p : ParameterScope)
        → IsParameterScope f.state p → IsLaidOut (entered number type p f).state }
{}
