//! Typing answers the first violation, and violations are in the order of the tokens.

ghost use Rattle.std.specs.Prelude.{◌≡◌, ℕ, Bool, List, [], Some};
ghost use Rattle.c_lexer.specs.declared.token.Token.{Token};
ghost use Rattle.c_syntax.specs.Formed.{IsExpression, IsWellFormed};
ghost use Rattle.c_syntax.specs.Statements.{BlockItems, Declaration, Statement, Unit};
ghost use Rattle.c_syntax.specs.Tree.{Declarator, Expression, Initializer, Specifiers, TypedDeclarator};
ghost use Rattle.c_syntax.specs.Words.{expression_words, positioned, unit_words};
ghost use Rattle.c_initializer_rules.specs.Initializing.{Initializing};
ghost use Rattle.c_typing_state.specs.State.{State};
ghost use Rattle.c_expression_typing.specs.Typed as expressions;
ghost use Rattle.c_unit_typing.specs.Constructs.{Around, Labels};
ghost use Rattle.c_unit_typing.specs.Declarations as declarations;
ghost use Rattle.c_unit_typing.specs.Files.{File};
ghost use Rattle.c_unit_typing.specs.Initializers as initializers;
ghost use Rattle.c_unit_typing.specs.Statements as statements;
ghost use Rattle.c_unit_typing.specs.Typed.{typed_unit};
ghost use Rattle.typing_laws.specs.Violations.Agreeing.{fault_of, first_of};
ghost use Rattle.typing_laws.specs.Violations.Declarations.{declaration};
ghost use Rattle.typing_laws.specs.Violations.Expressions.{operand, shape, specification, type_name};
ghost use Rattle.typing_laws.specs.Violations.Files.{externals, fault_in, first_in, violations};
ghost use Rattle.typing_laws.specs.Violations.Initializers.{initializer};
ghost use Rattle.typing_laws.specs.Violations.Order.{AreInOrder, Ascend};
ghost use Rattle.typing_laws.specs.Violations.Statements.{block_items, statement, within};

/// What typing answers of a construct is its first violation, and none where it has none: of an expression, type name,
/// declarator, list of specifiers, initializer, declaration, statement, list of items of a block, and source.
pub fn typing_answers_the_first_violation()
    ensures expression { (is_evaluated : Bool) (e : Expression) (s : State)
        → first_of (operand is_evaluated e s).violations ≡ fault_of (expressions.typed is_evaluated e s) }
    ensures type_name { (x : TypedDeclarator) (s : State)
        → first_of (type_name x s).violations ≡ fault_of (expressions.type_name x s) }
    ensures declarator { (in_definition : Bool) (d : Declarator) (s : State)
        → first_of (shape in_definition d s).violations ≡ fault_of (expressions.shape in_definition d s) }
    ensures specifiers { (is_alone : Bool) (x : Specifiers) (s : State)
        → first_of (specification is_alone x s).violations ≡ fault_of (expressions.specification is_alone x s) }
    ensures initializer { (x : Initializer) (i : Initializing) (s : State)
        → first_of (initializer x (Some i) s).violations ≡ fault_of (initializers.initialized x i s) }
    ensures declaration { (in_head : Bool) (d : Declaration) (f : File)
        → first_of (declaration in_head d f).violations ≡ fault_of (declarations.declaration in_head d f) }
    ensures statement { (a : Around) (ls : Labels) (s : Statement) (f : File)
        → first_of (statement (within a) ls s (f, ls.own)).violations ≡ fault_of (statements.statement a ls s f) }
    ensures items { (a : Around) (xs : BlockItems) (f : File)
        → first_of (block_items (within a) xs f).violations ≡ fault_of (statements.block_items a xs f) }
    ensures source { (end : ℕ) (u : Unit) → first_in (violations end u) ≡ fault_in (typed_unit end u) }
{}

/// In a source that is well formed and written with its tokens all violations but those that are judged at its end
/// stand
/// in the order of the tokens at which they are judged, whatever stands before; and so do those in an expression.
pub fn violations_are_in_the_order_of_the_tokens()
    ensures source { (u : Unit) (tokens : List Token) (f : File) → IsWellFormed u → unit_words u ≡ positioned tokens
        → AreInOrder 0 (externals u.externals f).violations }
    ensures expression { (names : List (List ℕ)) (e : Expression) (n : ℕ) (is_evaluated : Bool) (s : State)
        → IsExpression names e → Ascend n (expression_words e []) → AreInOrder n (operand is_evaluated e s).violations }
{}
