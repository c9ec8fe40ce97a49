//! Laws of typed operands.

ghost use Rattle.std.specs.Prelude.{◌≡◌, ℕ, Bool, true, List, Option};
ghost use Rattle.c_operand_typing.specs.Primaries.{character_constant, integer_constant};
ghost use Rattle.c_tree.specs.declared.expression.Fixity.{Fixity};
ghost use Rattle.c_call_rules.specs.Printing.{Format};
ghost use Rattle.c_operand_typing.specs.declared.forms.AssignmentForm.{AssignmentForm};
ghost use Rattle.c_operand_typing.specs.declared.forms.BinaryForm.{BinaryForm};
ghost use Rattle.c_operand_typing.specs.declared.forms.PrefixForm.{PrefixForm};
ghost use Rattle.c_operand_typing.specs.Calls.{printed};
ghost use Rattle.c_operand_typing.specs.Operators.{as_value, assigned_by, combined, indexed, stepped_by};
ghost use Rattle.c_typing_state.specs.State.{State, extents, judged};
ghost use Rattle.c_syntax.specs.Tree.{Expression};
ghost use Rattle.c_expression_typing.specs.Typed.{typed};
ghost use Rattle.c_expression_typing.specs.Constructs.{cast_to, chosen, prefixed, sized};
ghost use Rattle.typing_laws.specs.Validity.Regular.{is_regular};
ghost use Rattle.typing_laws.specs.Validity.Sound.{Sound};
ghost use Rattle.typing_laws.specs.Validity.Steps.{Fine, Structures, TypeNames, nothing};
ghost use Rattle.typing_laws.specs.Validity.Typed.{IfTyped, IfValued};
ghost use Rattle.c_tree.specs.declared.c_type.TypeWord.{TypeWord};
ghost use Rattle.c_tree.specs.Extents.{TypeExtent};
ghost use Rattle.c_tree.specs.Kinds.{Signature};
ghost use Rattle.c_tree.specs.Valid.{Scope};
ghost use Rattle.c_rules.specs.Fine.{IsFine};
ghost use Rattle.c_rules.specs.Values.{Value};
ghost use Rattle.c_place_rules.specs.Operands.{Operand};
ghost use Rattle.c_place_laws.specs.FinePlaces.{IsEarlierOperand, IsFineOperand};
ghost use Rattle.c_call_rules.specs.FineCalls.{AreFine, Spells};
ghost use Rattle.typing_laws.specs.Validity.More.{AreMore};

/// Where a later token completes structures (C99 6.7.2.3), the operands and arguments before it stay valid and of the
/// kinds of their types, and types of functions keep their signatures.
pub fn completed_structures_keep_operands_valid()
    ensures operand { (scope : Scope) (structures more : List (Option TypeExtent)) → AreMore structures more
        → (o : Operand) → IsFineOperand scope structures o → IsEarlierOperand scope more o }
    ensures value { (scope : Scope) (structures more : List (Option TypeExtent)) → AreMore structures more
        → (v : Value) → IsFine scope structures v → IsFine scope more v }
    ensures arguments { (scope : Scope) (structures more : List (Option TypeExtent)) → AreMore structures more
        → (vs : List Value) → AreFine scope structures vs → AreFine scope more vs }
    ensures function_type { (structures more : List (Option TypeExtent)) → AreMore structures more
        → (words : List TypeWord) (s : Signature) → Spells structures words s → Spells more words s }
{}

/// The value of a valid operand, and what an operator of the syntax makes of valid operands, are valid with the
/// structures that are complete behind it (C99 6.5.2 to 6.5.17).
pub fn operators_keep_operands_valid()
    ensures value { (scope : Scope) (s : State) (o : Operand) → IsFineOperand scope (extents s) o
        → IfValued scope (as_value o s) }
    ensures combined { (scope : Scope) (f : BinaryForm) (line : ℕ) (a b : Value) (s : State)
        → IsFine scope (extents s) a → IsFine scope (extents s) b → IfTyped scope (judged (combined f line a b) s) }
    ensures assigned { (scope : Scope) (f : AssignmentForm) (line : ℕ) (o : Operand) (v : Value) (s : State)
        → IsEarlierOperand scope (extents s) o → IsFine scope (extents s) v
        → IfTyped scope (judged (assigned_by f line o v) s) }
    ensures stepped { (scope : Scope) (f : PrefixForm) (fix : Fixity) (line : ℕ) (o : Operand) (s : State)
        → IsFineOperand scope (extents s) o → IfTyped scope (judged (stepped_by f fix line o) s) }
    ensures prefixed { (scope : Scope) (is_evaluated : Bool) (f : PrefixForm) (line : ℕ) (o : Operand) (s : State)
        → IsFineOperand scope (extents s) o → IfTyped scope (prefixed is_evaluated f line o s) }
    ensures indexed { (scope : Scope) (line : ℕ) (a b : Value) (s : State) → IsFine scope (extents s) a
        → IsFine scope (extents s) b → IfTyped scope (judged (indexed line a b) s) }
    ensures sized { (scope : Scope) (line : ℕ) (type : List TypeWord) (s : State)
        → IfTyped scope (judged (sized line type) s) }
    ensures cast { (scope : Scope) (line : ℕ) (type : List TypeWord) (v : Value) (s : State)
        → IsFine scope (extents s) v → IfTyped scope (judged (cast_to line type v) s) }
    ensures chosen { (scope : Scope) (line : ℕ) (c a b : Value) (s : State) → IsFine scope (extents s) c
        → IsFine scope (extents s) a → IsFine scope (extents s) b → IfTyped scope (judged (chosen line c a b) s) }
    ensures printed { (scope : Scope) (line : ℕ) (format : Option Format) (vs : List Value) (s : State)
        → AreFine scope (extents s) vs → IfTyped scope (judged (printed line format vs) s) }
{}

/// Constants are valid, of their types (C99 6.4.4).
pub fn constants_are_valid()
    ensures integer { (scope : Scope) (structures : List (Option TypeExtent)) (spelling : List ℕ) (line : ℕ)
        → IsFine scope structures (integer_constant spelling line) }
    ensures character { (scope : Scope) (structures : List (Option TypeExtent)) (spelling : List ℕ) (line : ℕ)
        → IsFine scope structures (character_constant spelling line) }
{}

/// What an expression is typed to is valid, where it is evaluated, in the scope of its function in a program (C99 6.5):
/// where names stand for something of the kind of their type before it, a static object only of a complete type, and
/// the string literals and the types of functions are those of that program, which uses no function that it does not
/// define. That type names keep what is known is taken as it is.
pub fn expressions_are_typed_to_valid_trees()
    ensures { (scope : Scope) (last : Structures) → TypeNames scope last
        → (is_evaluated : Bool) (e : Expression) → is_regular e ≡ true → (s : State)
        → Sound scope last s nothing (Fine scope is_evaluated) (typed is_evaluated e s) }
{}
