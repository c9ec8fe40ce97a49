//! Laws of words and nodes.

ghost use Rattle.std.specs.Prelude.{◌≡◌, ℕ, ◌+◌, ◌*◌, ◌≤◌, Bool, List, length, Ok};
ghost use Rattle.c_rules.specs.Values.{Value};
ghost use Rattle.c_syntax.specs.Statements.{Unit as File};
ghost use Rattle.c_syntax.specs.Tree.{Declarator, Expression, Specifiers};
ghost use Rattle.c_syntax.specs.Words.{unit_words};
ghost use Rattle.c_declarator_typing.specs.Declarators.{Shape};
ghost use Rattle.c_declarator_typing.specs.Specifications.{Specification};
ghost use Rattle.c_typing_state.specs.State.{State};
ghost use Rattle.c_expression_typing.specs.Constructs.{valued};
ghost use Rattle.c_expression_typing.specs.Typed.{shape, specification, typed};
ghost use Rattle.program_laws.specs.TreeSizes.Nodes.{nodes};
ghost use Rattle.program_laws.specs.TreeSizes.WordCounts.{words_in, words_in_declarator, words_in_specifiers, words_of};

/// The words of a tree are as many as are counted (C99 6.4).
pub fn words_are_counted()
    ensures { (u : File) → length (unit_words u) ≡ words_of u }
{}

/// The value of an expression and the string literals that it adds, each of which is a part of a static object, have
/// at most 3 nodes for each word of the expression (C99 6.3, 6.5).
pub fn expressions_have_few_nodes()
    ensures { (is_evaluated : Bool) (e : Expression) (s behind : State) (v : Value)
        → valued (typed is_evaluated e) s ≡ Ok (behind, v)
        → nodes v.tree + length behind.literals ≤ length s.literals + 3 * words_in e }
{}

/// Declarators and specifiers add at most 3 string literals for each of their words (C99 6.7).
pub fn declarators_add_few_literals()
    ensures declarator { (in_definition : Bool) (d : Declarator) (s behind : State) (sh : Shape)
        → shape in_definition d s ≡ Ok (behind, sh)
        → length behind.literals ≤ length s.literals + 3 * words_in_declarator d }
    ensures specifiers { (is_alone : Bool) (x : Specifiers) (s behind : State) (spec : Specification)
        → specification is_alone x s ≡ Ok (behind, spec)
        → length behind.literals ≤ length s.literals + 3 * words_in_specifiers x }
{}
