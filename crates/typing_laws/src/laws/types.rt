//! Laws of the types that typing carries.

ghost use Rattle.std.specs.Prelude.{◌≡◌, Bool, true};
ghost use Rattle.c_syntax.specs.Tree.{Expression};
ghost use Rattle.c_typing_state.specs.State.{State};
ghost use Rattle.c_expression_typing.specs.Typed.{typed};
ghost use Rattle.typing_laws.specs.Validity.Regular.{is_regular};
ghost use Rattle.typing_laws.specs.Validity.Sound.{IsFormed};
ghost use Rattle.typing_laws.specs.Types.Typed.{OfType, Typed, Types};

/// An expression has a type that is spelled, and leaves types that are (C99 6.2.5).
pub fn expressions_have_types()
    ensures { (is_evaluated : Bool) (e : Expression) → is_regular e ≡ true → (s : State) → IsFormed s → Types s
        → Typed OfType (typed is_evaluated e s) }
{}
