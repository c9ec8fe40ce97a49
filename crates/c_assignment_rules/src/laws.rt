//! Laws of assignments, each as the contract of a function that does nothing: layers above rest on them.
ghost use Rattle.std.specs.Prelude.{ℕ, Bool, List, Option};
ghost use Rattle.obj_memory.specs.declared.operator.BinaryOperator.{BinaryOperator};
ghost use Rattle.c_tree.specs.declared.expression.Fixity.{Fixity};
ghost use Rattle.c_tree.specs.Extents.{TypeExtent};
ghost use Rattle.c_tree.specs.Valid.{Scope};
ghost use Rattle.c_rules.specs.Fine.{IfFine, IsFine};
ghost use Rattle.c_rules.specs.Values.{Value};
ghost use Rattle.c_place_rules.specs.Operands.{Operand};
ghost use Rattle.c_place_laws.specs.FinePlaces.{IsEarlierOperand};
ghost use Rattle.c_assignment_rules.specs.declared.operators.StepOperator.{StepOperator};
ghost use Rattle.c_assignment_rules.specs.Assignments.{assignment, compound, stepped};

/// What `=`, the compound assignments, `++` and `--` give is valid where their operands are, and has the kind of its
/// type. What is written may be typed where fewer structures were complete than behind the right operand.
pub fn assignments_keep_trees_valid()
    ensures assignment { (scope : Scope) (structures : List (Option TypeExtent)) (with_const : List Bool) (line : ℕ)
        (o : Operand) (a : Value) → IsEarlierOperand scope structures o → IsFine scope structures a
        → IfFine scope structures (assignment structures with_const line o a) }
    ensures compound { (scope : Scope) (structures : List (Option TypeExtent)) (with_const : List Bool)
        (op : BinaryOperator) (line : ℕ) (o : Operand) (a : Value)
        → IsEarlierOperand scope structures o → IsFine scope structures a
        → IfFine scope structures (compound structures with_const op line o a) }
    ensures stepped { (scope : Scope) (structures : List (Option TypeExtent)) (with_const : List Bool)
        (op : StepOperator) (fixity : Fixity) (line : ℕ) (o : Operand) → IsEarlierOperand scope structures o
        → IfFine scope structures (stepped structures with_const op fixity line o) }
{}
