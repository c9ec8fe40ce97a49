//! Laws of nodes.

ghost use Rattle.std.specs.Prelude.{◌≡◌, ℕ, ◌+◌, ◌*◌, ◌≤◌, Bool, List, length, Ok};
ghost use Rattle.c_initializer_rules.specs.Initializing.{Initializing};
ghost use Rattle.c_initializer_rules.specs.Placed.{parts_in};
ghost use Rattle.c_syntax.specs.Statements.{BlockItems, Declaration, External, Statement, Unit as TextUnit};
ghost use Rattle.c_syntax.specs.Tree.{Expression, Initializer};
ghost use Rattle.c_syntax.specs.Words.{unit_words};
ghost use Rattle.c_tree.specs.Programs.{Program};
ghost use Rattle.c_tree.specs.Statements as tree;
ghost use Rattle.c_tree.specs.Tree as typed_tree;
ghost use Rattle.c_typing_state.specs.State.{State};
ghost use Rattle.c_unit_typing.specs.Constructs.{Around, Labelled, Labels, evaluated};
ghost use Rattle.c_unit_typing.specs.Declarations.{declaration};
ghost use Rattle.c_unit_typing.specs.Files.{File};
ghost use Rattle.c_unit_typing.specs.Initializers.{initialized};
ghost use Rattle.c_unit_typing.specs.Programs.{program_of};
ghost use Rattle.c_unit_typing.specs.Statements.{block_items, statement};
ghost use Rattle.c_unit_typing.specs.Typed.{a_program, typed_unit};
ghost use Rattle.c_unit_typing.specs.Units.{file_in};
ghost use Rattle.program_laws.specs.TreeSizes.Nodes.{nodes, nodes_of, parts_nodes, statement_nodes, statements_nodes};
ghost use Rattle.program_laws.specs.TreeSizes.WordCounts.{words_in, words_in_block_items, words_in_declaration};
ghost use Rattle.program_laws.specs.TreeSizes.WordCounts.{words_in_externals, words_in_initializer, words_in_statement};
ghost use Rattle.program_laws.specs.TreeSizes.WordCounts.{words_of};
ghost use Rattle.program_laws.specs.ProgramSizes.Sizes.{file_nodes};

/// The typed program of a file has at most 3 nodes for each word of the file, the bytes of its literals aside (C99
/// 6.9).
pub fn typed_programs_have_few_nodes()
    ensures counted { (end : ℕ) (u : TextUnit) (p : Program) → typed_unit end u ≡ a_program p
        → nodes_of p ≤ 3 * words_of u }
    ensures words { (end : ℕ) (u : TextUnit) (p : Program) → typed_unit end u ≡ a_program p
        → nodes_of p ≤ 3 * length (unit_words u) }
    ensures file { (end : ℕ) (xs : List External) (f : File) → file_in end xs ≡ Ok f
        → nodes_of (program_of f) ≤ 3 * words_in_externals xs }
{}

/// What expressions, declarations and statements are typed to, and what they add to a file, has at most 3 nodes for
/// each of their words; an initializer may have two more, for the `=`, the comma or the `{` before it (C99 6.5, 6.7,
/// 6.8).
pub fn statements_have_few_nodes()
    ensures expression { (e : Expression) (s behind : State) (x : typed_tree.Expression)
        → evaluated e s ≡ Ok (behind, x)
        → nodes x + length behind.literals ≤ length s.literals + 3 * words_in e }
    ensures initializer { (x : Initializer) (i j : Initializing) (s behind : State)
        → initialized x i s ≡ Ok (behind, j)
        → parts_nodes (parts_in j.parts) + length behind.literals
        ≤ length s.literals + parts_nodes (parts_in i.parts) + (2 + 3 * words_in_initializer x) }
    ensures declaration { (in_head : Bool) (d : Declaration) (f behind : File) (vs : List tree.DeclaredVariable)
        → declaration in_head d f ≡ Ok (behind, vs)
        → statement_nodes (tree.declaration vs) + file_nodes behind ≤ file_nodes f + 3 * words_in_declaration d }
    ensures statement { (a : Around) (ls : Labels) (x : Statement) (f behind : File) (y : Labelled)
        → statement a ls x f ≡ Ok (behind, y)
        → length y.labels + statement_nodes y.statement + file_nodes behind
        ≤ file_nodes f + length ls.own + 3 * words_in_statement x }
    ensures items { (a : Around) (xs : BlockItems) (f behind : File) (ss : tree.Statements)
        → block_items a xs f ≡ Ok (behind, ss)
        → statements_nodes ss + file_nodes behind ≤ file_nodes f + 3 * words_in_block_items xs }
{}
