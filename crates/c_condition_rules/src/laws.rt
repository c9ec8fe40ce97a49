//! Laws of conditions, each as the contract of a function that does nothing: layers above rest on them.
ghost use Rattle.std.specs.Prelude.{ℕ, List, Option};
ghost use Rattle.c_tree.specs.Extents.{TypeExtent};
ghost use Rattle.c_tree.specs.Valid.{Scope};
ghost use Rattle.c_rules.specs.Fine.{IfFine, IsFine};
ghost use Rattle.c_rules.specs.Values.{Value};
ghost use Rattle.c_condition_rules.specs.Conditions.{condition, conditional, switch_value};
ghost use Rattle.c_condition_rules.specs.Controlling.{IfCondition, IfSwitchValue};

/// What `?:` gives, a condition and the value of a switch are valid where their operands are.
pub fn conditions_keep_trees_valid()
    ensures conditional { (scope : Scope) (structures : List (Option TypeExtent)) (line : ℕ) (c a b : Value)
        → IsFine scope structures c → IsFine scope structures a → IsFine scope structures b
        → IfFine scope structures (conditional structures line c a b) }
    ensures condition { (scope : Scope) (structures : List (Option TypeExtent)) (line : ℕ) (a : Value)
        → IsFine scope structures a → IfCondition scope (condition structures line a) }
    ensures switch { (scope : Scope) (structures : List (Option TypeExtent)) (line : ℕ) (a : Value)
        → IsFine scope structures a → IfSwitchValue scope structures (switch_value structures line a) }
{}
