//! Laws of the operators on lvalues and functions, each as the contract of a function that does nothing: what they give
//! is valid, and of the kind of its type, where their operands are (C99 6.3.2.1, 6.5.2, 6.5.3).
#![tactic(auto)]

ghost use Rattle.std.specs.Prelude.{ℕ, List, Option};
ghost use Rattle.c_tree.specs.declared.c_type.TypeWord.{TypeWord};
ghost use Rattle.c_tree.specs.Extents.{TypeExtent};
ghost use Rattle.c_tree.specs.Valid.{Scope};
ghost use Rattle.c_rules.specs.Fine.{IfFine, IsFine};
ghost use Rattle.c_rules.specs.Values.{Value};
ghost use Rattle.c_place_rules.specs.Operands.{Operand, enclosed, value_in};
ghost use Rattle.c_place_rules.specs.Places.{Member, address, arrow, dereferenced, indexed, selected, size_of};
ghost use Rattle.c_place_rules.specs.Places.{structure_of, type_in};
ghost use Rattle.c_place_laws.specs.FinePlaces.{IfFineOperand, IfFinePlace, IsFineOperand, IsFound, IsFoundBehind};
ghost use Rattle.c_place_laws.specs.FinePlaces.{IsReadable};

/// The value of a valid operand is valid: what an lvalue of a complete type holds, the pointer to the first element of
/// an array, the pointer to a function; and a valid operand stays one in parentheses.
pub fn operands_have_valid_values()
    ensures value { (scope : Scope) (structures : List (Option TypeExtent)) (o : Operand)
        → IsFineOperand scope structures o → IsReadable structures o → IfFine scope structures (value_in o) }
    ensures enclosed { (scope : Scope) (structures : List (Option TypeExtent)) (line : ℕ) (o : Operand)
        → IsFineOperand scope structures o → IfFineOperand scope structures (enclosed line o) }
{}

/// What `*` and `[]` designate, and the pointer that `&` gives, are valid.
pub fn pointers_keep_trees_valid()
    ensures dereferenced { (scope : Scope) (structures : List (Option TypeExtent)) (line : ℕ) (a : Value)
        → IsFine scope structures a → IfFineOperand scope structures (dereferenced structures line a) }
    ensures address { (scope : Scope) (structures : List (Option TypeExtent)) (line : ℕ) (o : Operand)
        → IsFineOperand scope structures o → IfFine scope structures (address line o) }
    ensures indexed { (scope : Scope) (structures : List (Option TypeExtent)) (line : ℕ) (a b : Value)
        → IsFine scope structures a → IsFine scope structures b
        → IfFinePlace scope structures (indexed structures line a b) }
{}

/// A member that lies in its structure or union is valid, by `.` and by `->` of a pointer.
pub fn members_keep_trees_valid()
    ensures selected { (scope : Scope) (structures : List (Option TypeExtent)) (line : ℕ) (found : Option Member)
        (o : Operand) → IsFineOperand scope structures o → IsFound structures (structure_of (type_in o)) found
        → IfFinePlace scope structures (selected line found o) }
    ensures arrow { (scope : Scope) (structures : List (Option TypeExtent)) (line : ℕ) (found : Option Member)
        (a : Value) → IsFine scope structures a → IsFoundBehind structures a.type found
        → IfFinePlace scope structures (arrow line found a) }
{}

/// What `sizeof` gives is valid.
pub fn sizes_are_valid()
    ensures { (scope : Scope) (structures : List (Option TypeExtent)) (line : ℕ) (type : List TypeWord)
        → IfFine scope structures (size_of structures line type) }
{}
