//! Laws of initializers.

ghost use Rattle.std.specs.Prelude.{◌≡◌, ℕ, Bool, true, false, List, Option, is_some};
ghost use Rattle.c_tree.specs.declared.c_type.TypeWord.{TypeWord};
ghost use Rattle.c_tree.specs.declared.expression.Kind.{Kind};
ghost use Rattle.c_tree.specs.Statements.{Part, of_plain};
ghost use Rattle.c_tree.specs.Valid.{Scope};
ghost use Rattle.c_syntax.specs.Tree.{Initializer};
ghost use Rattle.c_scope.specs.declared.meaning.Designated.{Designated};
ghost use Rattle.c_scope.specs.Names.{Name};
ghost use Rattle.c_initializer_rules.specs.Initializing.{Initializing};
ghost use Rattle.c_operand_typing.specs.Primaries.{is_aggregate};
ghost use Rattle.c_typing_state.specs.State.{State, extents};
ghost use Rattle.c_unit_typing.specs.Declarations.{initialized_by, initialized_if, parts_initializer};
ghost use Rattle.c_unit_typing.specs.Initializers.{initialized};
ghost use Rattle.typing_laws.specs.Validity.Sound.{IsFormed, Sound};
ghost use Rattle.typing_laws.specs.Validity.Steps.{Structures};
ghost use Rattle.typing_laws.specs.Declarations.Binding.{IsCompleteFor};
ghost use Rattle.typing_laws.specs.Scopes.Regular.{is_regular_initializer, is_regular_initializer_if};
ghost use Rattle.typing_laws.specs.Layouts.Listed.{HasSizes, IsLaidOut};
ghost use Rattle.typing_laws.specs.Initializers.Cursor.{Every, IsPlacing};
ghost use Rattle.typing_laws.specs.Initializers.Giving.{Giving};
ghost use Rattle.typing_laws.specs.Initializers.Initialized.{IfInitialized, IfScalar, IsValidPart, IsValueOf};
ghost use Rattle.typing_laws.specs.Initializers.Placing.{FitsIn, IsPlaced};

/// An initializer keeps what is known, and what its parts store is valid in the scope of the function in a program: a
/// value of a kind that may be stored, or a literal (C99 6.7.8).
pub fn initializers_store_what_is_valid()
    ensures { (scope : Scope) (last : Structures) (x : Initializer) → is_regular_initializer x ≡ true
        → (i : Initializing) (s : State)
        → Sound scope last s (λ es. Every (IsValidPart scope) i.parts) (λ es j. Every (IsValidPart scope) j.parts)
        (initialized x i s) }
{}

/// An object of scalar type gets exactly one value, of the kind of its type, at its start (C99 6.7.8 paragraph 11):
/// that is the initializer of a plain variable.
pub fn scalars_get_one_value()
    ensures scalar { (scope : Scope) (last : Structures) (what : Designated) (name : Name × ℕ) (type : List TypeWord)
        → is_aggregate type ≡ false → (s : State) → IsFormed s → (x : Initializer) → is_regular_initializer x ≡ true
        → IfScalar scope last type s (initialized_by what name type x s) }
    ensures plain { (scope : Scope) (k : Kind) (parts : List Part) → (h : IsValueOf scope k parts)
        → parts_initializer false parts ≡ of_plain h.value }
{}

/// Wherever the current object is, it lies in the object that is initialized, and so does each part; an array of
/// unknown size has the elements that its parts name, or the bytes of a literal (C99 6.7.8 paragraphs 14 to 22). Behind
/// its initializer, if it has one, an object is of a complete type, and its parts are valid and lie in it.
pub fn parts_lie_in_their_object()
    ensures placed { (scope : Scope) (last : Structures) (is_open : Bool) (size : ℕ) (base : List TypeWord)
        (x : Initializer) → is_regular_initializer x ≡ true → (i : Initializing) (s : State)
        → Giving true scope last IsLaidOut s
        (λ es. IsPlacing (IsPlaced is_open size base es) (Every (FitsIn is_open size)) i)
        (λ es j. IsPlacing (IsPlaced is_open size base es) (Every (FitsIn is_open size)) j) (initialized x i s) }
    ensures initialized { (scope : Scope) (last : Structures) (what : Designated) (name : Name × ℕ)
        (type : List TypeWord) (x : Option Initializer) → is_regular_initializer_if x ≡ true → (s : State)
        → IsFormed s → IsLaidOut s → IsCompleteFor (extents s) (is_some x) type → HasSizes (extents s) type
        → IfInitialized scope last what name.0 s (initialized_if what name type x s) }
{}
