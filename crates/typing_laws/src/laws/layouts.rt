//! Laws of arrays and of the members of structures and unions.

ghost use Rattle.std.specs.Prelude.{◌≡◌, ℕ, Bool, true, List, Option, is_some};
ghost use Rattle.c_syntax.specs.Tree.{Declarator, Expression, Specifiers, TypedDeclarator};
ghost use Rattle.c_tree.specs.declared.c_type.TypeWord.{TypeWord};
ghost use Rattle.c_scope.specs.declared.meaning.Meaning.{Meaning};
ghost use Rattle.c_scope.specs.Environment.{Facts};
ghost use Rattle.c_scope.specs.Names.{Name};
ghost use Rattle.c_declarator_typing.specs.Declarators.{Shape};
ghost use Rattle.c_declarator_typing.specs.Specifications.{Specification};
ghost use Rattle.c_typing_state.specs.State.{State, extents};
ghost use Rattle.c_expression_typing.specs.Typed.{shape, specification, type_name, typed};
ghost use Rattle.c_unit_typing.specs.Declarations.{declared_as};
ghost use Rattle.c_unit_typing.specs.Units.{file_before};
ghost use Rattle.typing_laws.specs.Validity.More.{AreMore};
ghost use Rattle.typing_laws.specs.Validity.Regular.{are_regular_specifiers, is_regular, is_regular_declarator};
ghost use Rattle.typing_laws.specs.Validity.Regular.{is_regular_name};
ghost use Rattle.typing_laws.specs.Validity.Sound.{IsFormed, is_sized_array};
ghost use Rattle.typing_laws.specs.Validity.Steps.{Structures};
ghost use Rattle.typing_laws.specs.Declarators.Given.{AreCounted, anything};
ghost use Rattle.typing_laws.specs.Declarations.Binding.{Binds};
ghost use Rattle.typing_laws.specs.Layouts.Listed.{HasArrays, HasArraysIn, IfLaidOut, IsDeclared, IsLaidOut};
ghost use Rattle.typing_laws.specs.Layouts.Listed.{has_array_bytes};

/// Behind what is typed, the members of complete structures and unions lie in them still, and the arrays in the types
/// of members and of names have the bytes of their elements (C99 6.2.5, 6.7.2.1); so do those in the types of
/// specifiers.
pub fn typing_keeps_states_laid_out()
    ensures expression { (is_evaluated : Bool) (e : Expression) → is_regular e ≡ true → (s : State) → IsFormed s
        → IsLaidOut s → IfLaidOut anything (typed is_evaluated e s) }
    ensures name { (x : TypedDeclarator) → is_regular_name x ≡ true → (s : State) → IsFormed s → IsLaidOut s
        → IfLaidOut anything (type_name x s) }
    ensures declarator { (in_definition : Bool) (d : Declarator) → is_regular_declarator d ≡ true → (s : State)
        → IsFormed s → IsLaidOut s → IfLaidOut anything (shape in_definition d s) }
    ensures specifiers { (is_alone : Bool) (specs : Specifiers) → are_regular_specifiers specs ≡ true → (s : State)
        → IsFormed s → IsLaidOut s → IfLaidOut HasArrays (specification is_alone specs s) }
{}

/// The arrays in the type of what a declarator declares have the bytes of their elements, where those in the type of
/// its specifiers do, and the state stays laid out (C99 6.7.5.2), as it does where such a name is bound again; and with
/// an initializer that type, or that of the elements of an array of unknown size, is complete (6.7 paragraph 7, 6.2.7).
pub fn declarators_keep_states_laid_out()
    ensures declared { (in_head : Bool) (s : State) → IsFormed s → IsLaidOut s → (spec : Specification)
        → is_sized_array spec.type ≡ true → HasArrays s spec → (sh : Shape) → AreCounted sh.derivations
        → (initializer : Option ℕ) (name : Name × ℕ)
        → IfLaidOut (IsDeclared (is_some initializer)) (declared_as in_head spec sh initializer name s) }
    ensures bound { (name : Name) (m : Meaning) (s behind : State) → Binds name m s behind
        → HasArraysIn (extents s) m → IsLaidOut s → IsLaidOut behind }
    ensures kept { (structures more : Structures) → AreMore structures more → (type : List TypeWord)
        → has_array_bytes structures type ≡ true → has_array_bytes more type ≡ true }
{}

/// At the start of a file the state is laid out.
pub fn files_begin_laid_out()
    ensures { (objects : Option (List (List Bool))) (facts : Facts) → IsLaidOut (file_before objects facts).state }
{}
