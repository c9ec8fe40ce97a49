//! Laws of what typing leaves behind.

ghost use Rattle.std.specs.Prelude.{◌≡◌, Bool, true, false, List};
ghost use Rattle.c_syntax.specs.Tree.{Declarator, Expression, Specifiers, TypedDeclarator};
ghost use Rattle.c_tree.specs.declared.c_type.TypeWord.{TypeWord};
ghost use Rattle.c_tree.specs.Valid.{Scope};
ghost use Rattle.c_typing_state.specs.State.{State};
ghost use Rattle.c_expression_typing.specs.Typed.{shape, specification, type_name, typed};
ghost use Rattle.typing_laws.specs.Validity.Regular.{are_regular_specifiers, is_regular, is_regular_declarator};
ghost use Rattle.typing_laws.specs.Validity.Regular.{is_regular_name};
ghost use Rattle.typing_laws.specs.Validity.Sound.{IsFormed, Keeps, Sound};
ghost use Rattle.typing_laws.specs.Validity.Steps.{Fine, Structures, TypeNames, nothing};
ghost use Rattle.typing_laws.specs.Declarators.Extending.{Extending, Extends};
ghost use Rattle.typing_laws.specs.Declarators.Given.{IsShapeOf, IsSpecified, OperandHasWords, anything};

/// What is typed leaves the scopes around as they are, adds nothing but enumerators to the innermost one, and
/// completes only structures and unions that it declares or whose members begin in it (C99 6.2.1, 6.7.2.3).
pub fn typing_extends_states()
    ensures expression { (is_evaluated : Bool) (e : Expression) → is_regular e ≡ true → (s : State) → IsFormed s
        → Extending false s OperandHasWords (typed is_evaluated e s) }
    ensures name { (x : TypedDeclarator) → is_regular_name x ≡ true → (s : State) → IsFormed s
        → Extending false s anything (type_name x s) }
    ensures declarator { (in_definition : Bool) (d : Declarator) → is_regular_declarator d ≡ true → (s : State)
        → IsFormed s → Extending false s (λ t sh. IsShapeOf t d sh) (shape in_definition d s) }
    ensures specifiers { (is_alone : Bool) (specs : Specifiers) → are_regular_specifiers specs ≡ true → (s : State)
        → IsFormed s → Extending false s IsSpecified (specification is_alone specs s) }
{}

/// What is known of the names and members of a state is known of one that extends it.
pub fn extended_states_keep_what_is_known()
    ensures { (scope : Scope) (last : Structures) (s behind : State) → Extends false s behind
        → Keeps scope last s behind }
{}

/// Type names keep what is known: abstract declarators, and the structures, unions and enumerations in them (C99
/// 6.7.6).
pub fn type_names_keep_what_is_known()
    ensures { (scope : Scope) (last : Structures) → TypeNames scope last }
{}

/// What an expression is typed to is valid, where it is evaluated, in the scope of its function in a program (C99 6.5):
/// where names stand for something of the kind of their type before it, a static object only of a complete type, and
/// the string literals and the types of functions are those of that program, which uses no function that it does not
/// define.
pub fn expressions_are_valid()
    ensures { (scope : Scope) (last : Structures) (is_evaluated : Bool) (e : Expression) → is_regular e ≡ true
        → (s : State) → Sound scope last s nothing (Fine scope is_evaluated) (typed is_evaluated e s) }
{}
