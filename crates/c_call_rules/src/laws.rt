//! Laws of calls, each as the contract of a function that does nothing: layers above rest on them.
ghost use Rattle.std.specs.Prelude.{◌≡◌, ℕ, List, Option, Some};
ghost use Rattle.c_tree.specs.declared.c_type.TypeWord.{TypeWord};
ghost use Rattle.c_tree.specs.Extents.{TypeExtent};
ghost use Rattle.c_tree.specs.declared.expression.Routine.{Routine};
ghost use Rattle.c_tree.specs.Kinds.{Signature, routine_signature};
ghost use Rattle.c_tree.specs.Valid.{Scope};
ghost use Rattle.c_rules.specs.Fine.{IfFine, IsFine};
ghost use Rattle.c_rules.specs.Values.{Value};
ghost use Rattle.c_call_rules.specs.FunctionTypes.{callee_type};
ghost use Rattle.c_call_rules.specs.Calls.{Callee, called, called_through};
ghost use Rattle.c_call_rules.specs.FineCalls.{AreFine, HasSignature, IsFineCallee, Spells};
ghost use Rattle.c_call_rules.specs.Printing.{Format, formatted};
ghost use Rattle.c_tree.specs.Routines.{routine_words};

/// What a call gives is valid where the callee has a signature that its type spells, and the arguments are valid; and
/// it has the kind of its type.
pub fn calls_keep_trees_valid()
    ensures called { (scope : Scope) (structures : List (Option TypeExtent)) (line : ℕ) (callee : Callee)
        (s : Signature) (words : List TypeWord) (vs : List Value)
        → IsFineCallee scope callee s → Spells structures words s → AreFine scope structures vs
        → IfFine scope structures (called structures line callee words vs) }
    ensures through { (scope : Scope) (structures : List (Option TypeExtent)) (line n : ℕ) (f : Value)
        (s : Signature) (vs : List Value) → IsFine scope structures f → HasSignature scope.types n s
        → ((type : List TypeWord) → callee_type f.type ≡ Some type → Spells structures type s)
        → AreFine scope structures vs → IfFine scope structures (called_through structures line n f vs) }
{}

/// The type of each routine of the library has the routine's signature, so that a call of it is valid too.
pub fn routines_have_their_signatures()
    ensures { (structures : List (Option TypeExtent)) (r : Routine)
        → Spells structures (routine_words r) (routine_signature r) }
{}

/// What a call of `printf` gives is valid where the arguments behind its format are.
pub fn printing_keeps_trees_valid()
    ensures { (scope : Scope) (structures : List (Option TypeExtent)) (line : ℕ) (format : Option Format)
        (vs : List Value) → AreFine scope structures vs
        → IfFine scope structures (formatted structures line format vs) }
{}
