//! Laws of declarators.

ghost use Rattle.std.specs.Prelude.{◌≡◌, ℕ, ◌<◌, Bool, true, List, Option, Some};
ghost use Rattle.c_scope.specs.declared.meaning.Designated.{Designated};
ghost use Rattle.c_scope.specs.declared.meaning.Meaning.{Meaning};
ghost use Rattle.c_scope.specs.Declaring.{Declaration};
ghost use Rattle.c_scope.specs.Names.{Name};
ghost use Rattle.c_tree.specs.declared.c_type.TypeWord.{TypeWord};
ghost use Rattle.c_tree.specs.Extents.{TypeExtent, extent_of};
ghost use Rattle.c_tree.specs.Kinds.{has_size};
ghost use Rattle.c_tree.specs.Valid.{Scope};
ghost use Rattle.c_tree.specs.ValidProgram.{is_variable};
ghost use Rattle.c_declarator_typing.specs.Declarators.{Shape, built_in};
ghost use Rattle.c_declarator_typing.specs.Specifications.{Specification};
ghost use Rattle.c_typing_state.specs.State.{State, extents};
ghost use Rattle.c_unit_typing.specs.Declarations.{completed, declaration_of, declared_as, kind_in, variable_in};
ghost use Rattle.typing_laws.specs.Validity.More.{AreMore};
ghost use Rattle.typing_laws.specs.Validity.Names.{IsMeant, IsStaticOf, IsVariableOf};
ghost use Rattle.typing_laws.specs.Validity.Sound.{IsFormed, IsObjectExtent, Knows, is_sized_array};
ghost use Rattle.typing_laws.specs.Validity.Steps.{Structures};
ghost use Rattle.typing_laws.specs.Declarators.Given.{AreCounted};
ghost use Rattle.typing_laws.specs.Declarations.Binding.{Binds, HasStatic, HasVariable, IfCompleted};
ghost use Rattle.typing_laws.specs.Declarations.Binding.{IfDeclared};
ghost use Rattle.typing_laws.specs.Declarations.Binding.{IsCompleteFor};

/// A declarator that violates no rule binds its name alone, to the type, the next variable or object, or the object or
/// function of that name; what has no linkage is of a complete type (C99 6.2.1, 6.2.2, 6.7 paragraph 7). An array of
/// unknown size gets its size from its initializer (6.7.8 paragraph 22).
pub fn declarators_bind_their_names()
    ensures declared { (in_head : Bool) (s : State) → IsFormed s → (spec : Specification)
        → is_sized_array spec.type ≡ true → (sh : Shape) → AreCounted sh.derivations → (initializer : Option ℕ)
        (name : Name × ℕ)
        → IfDeclared (declaration_of spec (built_in s spec sh) name initializer) s
        (declared_as in_head spec sh initializer name s) }
    ensures completed { (s : State) → IsFormed s → (what : Designated) (name : Name × ℕ) (type : List TypeWord)
        (count : ℕ) → 0 < count → IsCompleteFor (extents s) true type
        → IfCompleted what name.0 s (completed what name type count s) }
{}

/// Where a name is bound to something of the kind of its type, all names that stood for something of the kind of their
/// type do so still.
pub fn bound_names_keep_what_is_known()
    ensures { (name : Name) (m : Meaning) (s behind : State) → Binds name m s behind → (scope : Scope)
        (last : Structures) → Knows scope last s → IsMeant scope last behind (Some m) → Knows scope last behind }
{}

/// An automatic variable and a static object of a complete type are of the kind of that type in each scope that has
/// them as they are declared; such a variable holds a scalar or is an object, and such an object has a size.
pub fn declared_objects_are_of_the_kind_of_their_type()
    ensures variable { (scope : Scope) (s : State) (last : Structures) → AreMore (extents s) last → (n : ℕ)
        (type : List TypeWord) (e : TypeExtent) → extent_of (extents s) type ≡ Some e → IsObjectExtent e
        → HasVariable scope s n type → IsVariableOf scope last s n type }
    ensures object { (scope : Scope) (s : State) (last : Structures) → AreMore (extents s) last → (n : ℕ)
        (type : List TypeWord) (e : TypeExtent) → extent_of (extents s) type ≡ Some e → IsObjectExtent e
        → HasStatic scope s n type → IsStaticOf scope last n type }
    ensures valid { (s : State) (n : ℕ) (type : List TypeWord) (e : TypeExtent) → extent_of (extents s) type ≡ Some e
        → IsObjectExtent e → is_variable (variable_in s n type) ≡ true }
    ensures sized { (s : State) (type : List TypeWord) (e : TypeExtent) → extent_of (extents s) type ≡ Some e
        → IsObjectExtent e → has_size (kind_in s type) ≡ true }
{}
