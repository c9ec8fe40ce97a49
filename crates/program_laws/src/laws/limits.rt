//! Laws of limits.

ghost use Rattle.std.specs.Prelude.{◌≡◌, ℕ, ◌≤◌, Bool, true, List, length, nat_le, Some, None, Ok};
ghost use Rattle.std.specs.List.{list_all};
ghost use Rattle.c_counts.specs.Counts as counts;
ghost use Rattle.c_counts.specs.Counts.{Count};
ghost use Rattle.c_counts.specs.Excess.{first_above, most_parameters, parameters_among};
ghost use Rattle.c_expression_typing.specs.Typed.{shape};
ghost use Rattle.c_scope.specs.Parameters.{ParameterScope};
ghost use Rattle.c_syntax.specs.Statements.{Unit as TextUnit};
ghost use Rattle.c_syntax.specs.Tree.{Declarator};
ghost use Rattle.c_tree.specs.Programs.{Program};
ghost use Rattle.c_declarator_typing.specs.Declarators.{Shape};
ghost use Rattle.c_typing_state.specs.State.{State};
ghost use Rattle.c_unit_typing.specs.Typed.{a_program, typed_unit};
ghost use Rattle.typing_laws.specs.Scopes.Variables.{variables_among};

/// No function of a typed program has more parameters than the limit says (C99 5.2.4.1, 6.9.1).
pub fn typed_functions_have_few_parameters()
    ensures { (end : ℕ) (u : TextUnit) (p : Program) → typed_unit end u ≡ a_program p
        → list_all (λ f. nat_le (length f.parameters) most_parameters) p.functions ≡ true }
{}

/// Where no list of parameters of a declarator is longer than some number, the scope of the parameters behind its name
/// has at most so many variables: enumerators that these declare are none (C99 6.2.1, 6.7.5.3).
pub fn scopes_of_parameters_have_few_variables()
    ensures { (most : ℕ) (in_definition : Bool) (d : Declarator) (cs : List Count)
        → first_above most (parameters_among (counts.declarator d cs)) ≡ None → (s behind : State) (sh : Shape)
        (scope : ParameterScope) → shape in_definition d s ≡ Ok (behind, sh) → sh.parameters ≡ Some scope
        → variables_among scope.names ≤ most }
{}
