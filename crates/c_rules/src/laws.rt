//! Laws of the operators, each as the contract of a function that does nothing: layers above rest on them.
ghost use Rattle.std.specs.Prelude.{ℕ, List, Option};
ghost use Rattle.obj_memory.specs.declared.operator.BinaryOperator.{BinaryOperator};
ghost use Rattle.obj_memory.specs.declared.operator.UnaryOperator.{UnaryOperator};
ghost use Rattle.c_tree.specs.declared.c_type.TypeWord.{TypeWord};
ghost use Rattle.c_tree.specs.Extents.{TypeExtent};
ghost use Rattle.c_tree.specs.Valid.{Scope};
ghost use Rattle.c_rules.specs.Binary.{binary};
ghost use Rattle.c_rules.specs.declared.unary.LogicalOperator.{LogicalOperator};
ghost use Rattle.c_rules.specs.Unary.{combined, comma, unary};
ghost use Rattle.c_rules.specs.Conversions.{assigned, cast};
ghost use Rattle.c_rules.specs.Fine.{IfFine, IfFineAs, IsFine};
ghost use Rattle.c_rules.specs.Values.{Value};

/// What an operator between two operands gives is valid where its operands are, and has the kind of its type.
pub fn binary_operators_keep_trees_valid()
    ensures { (scope : Scope) (structures : List (Option TypeExtent)) (op : BinaryOperator) (line : ℕ) (a b : Value)
        → IsFine scope structures a → IsFine scope structures b
        → IfFine scope structures (binary structures op line a b) }
{}

/// So is what a unary operator on a value gives.
pub fn unary_operators_keep_trees_valid()
    ensures { (scope : Scope) (structures : List (Option TypeExtent)) (op : UnaryOperator) (line : ℕ) (a : Value)
        → IsFine scope structures a → IfFine scope structures (unary structures op line a) }
{}

/// So is what `&&`, `||` and `,` give.
pub fn logical_operators_keep_trees_valid()
    ensures logical { (scope : Scope) (structures : List (Option TypeExtent)) (op : LogicalOperator) (line : ℕ)
        (a b : Value) → IsFine scope structures a → IsFine scope structures b
        → IfFine scope structures (combined structures op line a b) }
    ensures comma { (scope : Scope) (structures : List (Option TypeExtent)) (line : ℕ) (a b : Value)
        → IsFine scope structures a → IsFine scope structures b → IfFine scope structures (comma line a b) }
{}

/// So is what a cast gives.
pub fn casts_keep_trees_valid()
    ensures { (scope : Scope) (structures : List (Option TypeExtent)) (line : ℕ) (to : List TypeWord) (a : Value)
        → IsFine scope structures a → IfFine scope structures (cast structures line to a) }
{}

/// So is what a conversion as by assignment gives: it has the kind of the type to which it passes, and may be stored.
pub fn conversions_keep_trees_valid()
    ensures { (scope : Scope) (structures : List (Option TypeExtent)) (line : ℕ) (to : List TypeWord) (a : Value)
        → IsFine scope structures a → IfFineAs scope structures to (assigned structures line to a) }
{}
