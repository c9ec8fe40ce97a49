//! Laws of bodies of functions.

ghost use Rattle.std.specs.Prelude.{◌≡◌, ℕ, Bool, true, false, [], List};
ghost use Rattle.std.specs.List.{list_all};
ghost use Rattle.c_syntax.specs.Statements.{Block, BlockItems, Declaration, External, Statement};
ghost use Rattle.c_syntax.specs.Tree.{Declarator, Specifiers};
ghost use Rattle.c_tree.specs.declared.c_type.TypeWord.{TypeWord};
ghost use Rattle.c_tree.specs.Blocks.{all_of, all_variables, block_variables, each_variables, variables_in};
ghost use Rattle.c_syntax.specs.Formed.{defines_function};
ghost use Rattle.c_tree.specs.declared.expression.Kind.{Kind};
ghost use Rattle.c_tree.specs.TypesAgree.{agrees};
ghost use Rattle.c_tree.specs.Kinds.{Signature};
ghost use Rattle.c_tree.specs.Programs.{Function};
ghost use Rattle.c_call_rules.specs.FineCalls.{Spells};
ghost use Rattle.c_call_rules.specs.FunctionTypes.{result_type};
ghost use Rattle.c_tree.specs.Statements.{Statements};
ghost use Rattle.c_tree.specs.Statements as tree;
ghost use Rattle.c_tree.specs.Valid.{Scope};
ghost use Rattle.c_tree.specs.ValidProgram.{Inside, are_declared, are_statements, declares_all, is_statement};
ghost use Rattle.c_tree.specs.ValidProgram.{are_parameters, is_variable};
ghost use Rattle.c_unit_typing.specs.Constructs.{Around, Labels};
ghost use Rattle.c_unit_typing.specs.Declarations.{declaration};
ghost use Rattle.c_unit_typing.specs.Files.{Definition, File};
ghost use Rattle.c_unit_typing.specs.Statements.{block_items, statement};
ghost use Rattle.c_unit_typing.specs.Units.{definition, file_in};
ghost use Rattle.typing_laws.specs.Validity.Regular.{are_regular_specifiers, is_regular_declarator};
ghost use Rattle.typing_laws.specs.Validity.Steps.{Structures};
ghost use Rattle.typing_laws.specs.Places.Placed.{are_placed, is_placed};
ghost use Rattle.typing_laws.specs.Scopes.Regular.{are_regular_block_items, are_regular_externals};
ghost use Rattle.typing_laws.specs.Scopes.Regular.{is_regular_block, is_regular_declaration};
ghost use Rattle.typing_laws.specs.Scopes.Regular.{is_regular_statement};
ghost use Rattle.typing_laws.specs.Layouts.Listed.{IsLaidOut};
ghost use Rattle.program_laws.specs.Bodies.Defined.{Defines, HasFile, IfDefined, IsScopeOf, no_jumps};
ghost use Rattle.program_laws.specs.Bodies.Parameters.{IsOutside};
ghost use Rattle.program_laws.specs.Bodies.Parts.{has_valid_parts, have_valid_parts};
ghost use Rattle.program_laws.specs.Bodies.Standing.{IsReady, IsResult};
ghost use Rattle.program_laws.specs.Bodies.Typed.{IfTyped, none};
ghost use Rattle.program_laws.specs.Bodies.Whole.{IfInTurn, IfWhole, IsDefinition};
ghost use Rattle.typing_laws.specs.Scopes.Defined.{define_functions};

/// Statements that stand where they may, and whose expressions and initializers are valid, are valid (C99 6.8).
pub fn placed_statements_with_valid_parts_are_valid()
    ensures statement { (scope : Scope) (inside : Inside) (s : tree.Statement) → is_placed inside s ≡ true
        → has_valid_parts scope s ≡ true → is_statement scope inside s ≡ true }
    ensures statements { (scope : Scope) (inside : Inside) (ss : Statements) → are_placed inside ss ≡ true
        → have_valid_parts scope ss ≡ true → are_statements scope inside ss ≡ true }
{}

/// Declarations, statements and the items of blocks are typed to what is valid in the scope of their function (C99 6.7,
/// 6.8): the variables that they declare are numbered in the order of the text, as the file has them, and behind them
/// names stand for something of the kind of their type again. Before them and behind them arrays have the
/// bytes of their elements, and the members of complete structures and unions lie in these.
pub fn constructs_of_functions_are_valid()
    ensures declaration { (result : List TypeWord) (in_head : Bool) (d : Declaration)
        → is_regular_declaration d ≡ true → (f : File) → IsReady f.state
        → IfTyped result variables_in variables_in (λ scope ds. are_declared scope ds ≡ true) f
        (declaration in_head d f) }
    ensures statement { (a : Around) (ls : Labels) (s : Statement) → is_regular_statement s ≡ true
        → (f : File) → IsReady f.state
        → IfTyped a.result (λ l. all_variables l.statement) none (λ scope l. has_valid_parts scope l.statement ≡ true) f
        (statement a ls s f) }
    ensures items { (a : Around) (xs : BlockItems) → are_regular_block_items xs ≡ true → (f : File) → IsReady f.state
        → IfTyped a.result each_variables block_variables (λ scope ss. are_statements scope a.inside ss ≡ true) f
        (block_items a xs f) }
{}

/// The block of a function that is defined is typed to what is valid in the scope of that function, and its parameters
/// are the first of its variables (C99 6.9.1); behind it the file is outside of functions again.
pub fn definitions_have_valid_blocks()
    ensures { (specs : Specifiers) (d : Declarator) (b : Block)
        → are_regular_specifiers specs ≡ true → is_regular_declarator d ≡ true → is_regular_block b ≡ true
        → defines_function d ≡ true → (f : File) → IsOutside f.state → IsLaidOut f.state
        → IfDefined f (definition specs d b f) }
{}

/// The function of a program that is made of a definition has a valid body, whose declarations are of its variables,
/// in the order of their numbers, and variables that hold scalars or are objects (C99 6.8, 6.9.1).
pub fn functions_have_valid_bodies()
    ensures body { (scope : Scope) (structures : Structures) (g : Function) (f behind : File) (d : Defines f behind)
        → IsScopeOf scope structures g f behind d → are_statements scope no_jumps g.body ≡ true }
    ensures declares { (scope : Scope) (structures : Structures) (g : Function) (f behind : File)
        (d : Defines f behind) → IsScopeOf scope structures g f behind d → declares_all g ≡ true }
    ensures variables { (scope : Scope) (structures : Structures) (g : Function) (f behind : File)
        (d : Defines f behind) → IsScopeOf scope structures g f behind d → list_all is_variable (all_of g) ≡ true }
    ensures parameters { (scope : Scope) (structures : Structures) (g : Function) (f behind : File)
        (d : Defines f behind) → IsScopeOf scope structures g f behind d → (ks : List Kind) (k : Kind)
        → agrees structures d.type ks k ≡ true → are_parameters g.parameters ks ≡ true }
{}

/// What a function gives has the kind of the result of its type, where that spells a signature (C99 6.7.5.3, 6.8.6.4).
pub fn results_have_the_kind_of_their_type()
    ensures { (scope : Scope) (structures : Structures) (type : List TypeWord) (s : Signature)
        → Spells structures type s → scope.result ≡ s.result → IsResult scope structures (result_type 0 type) }
{}

/// Each definition of a file that is accepted has a valid block, and the declarations and definitions behind it add to
/// what the file has there (C99 6.9).
pub fn files_have_valid_definitions()
    ensures { (end : ℕ) (es : List External)
        → are_regular_externals es ≡ true → define_functions es ≡ true → IfWhole (file_in end es) }
{}

/// The static objects without linkage of a file that is accepted are those that the blocks of its definitions add, one
/// behind the other (C99 6.2.2, 6.2.4).
pub fn definitions_stand_in_turn()
    ensures { (end : ℕ) (es : List External)
        → are_regular_externals es ≡ true → define_functions es ≡ true → IfInTurn (file_in end es) }
{}

/// What a program has of a file at its end, it has of the file at the end of each definition.
pub fn files_keep_what_definitions_have()
    ensures { (scope : Scope) (structures : Structures) (end : File) (d : Definition) (h : IsDefinition end d)
        → HasFile scope structures end → HasFile scope structures h.defines.end }
{}
