//! Laws of validity in two scopes of one program.

ghost use Rattle.std.specs.Prelude.{◌≡◌, ℕ, true, false, List, []};
ghost use Rattle.c_tree.specs.declared.expression.Kind.TheVariants as kind;
ghost use Rattle.c_tree.specs.Tree.{Expression, Expressions, Lvalue};
ghost use Rattle.c_tree.specs.Walk.{names_variable};
ghost use Rattle.c_tree.specs.Statements.{Content, Part};
ghost use Rattle.c_tree.specs.Programs.{Program, StaticObject};
ghost use Rattle.c_tree.specs.Kinds.{size_of_kind};
ghost use Rattle.c_tree.specs.Valid.{Scope, is_valid, are_valid, is_valid_lvalue};
ghost use Rattle.c_tree.specs.ValidProgram.{content_names_variable, name_variables, is_content, is_part, are_parts};
ghost use Rattle.c_tree.specs.ValidProgram.{scope_in, static_scope, variables_of_function};
ghost use Rattle.program_laws.specs.Scopes.Scopes.{AreAmong, AreOfOneProgram};

/// What is valid in one scope is valid in another of its program where all can be named that can be named in the first
/// (C99 6.2.1).
pub fn opened_scopes_keep_what_is_valid()
    ensures expression { (a b : Scope) → AreOfOneProgram a b → AreAmong a.variables b.variables → (e : Expression)
        → is_valid a e ≡ true → is_valid b e ≡ true }
    ensures row { (a b : Scope) → AreOfOneProgram a b → AreAmong a.variables b.variables → (es : Expressions)
        → are_valid a es ≡ true → are_valid b es ≡ true }
    ensures place { (a b : Scope) → AreOfOneProgram a b → AreAmong a.variables b.variables → (p : Lvalue)
        → is_valid_lvalue a p ≡ true → is_valid_lvalue b p ≡ true }
    ensures content { (a b : Scope) → AreOfOneProgram a b → AreAmong a.variables b.variables → (c : Content)
        → is_content a c ≡ true → is_content b c ≡ true }
    ensures part { (a b : Scope) → AreOfOneProgram a b → AreAmong a.variables b.variables → (size : ℕ) (p : Part)
        → is_part a size p ≡ true → is_part b size p ≡ true }
    ensures parts { (a b : Scope) → AreOfOneProgram a b → AreAmong a.variables b.variables
        → (size : ℕ) (ps : List Part) → are_parts a size ps ≡ true → are_parts b size ps ≡ true }
{}

/// What names no parameter or automatic variable is valid in all scopes of a program or in none.
pub fn what_names_no_variable_is_valid_in_each_scope()
    ensures expression { (a b : Scope) → AreOfOneProgram a b → (e : Expression) → names_variable e ≡ false
        → is_valid a e ≡ true → is_valid b e ≡ true }
    ensures content { (a b : Scope) → AreOfOneProgram a b → (c : Content) → content_names_variable c ≡ false
        → is_content a c ≡ true → is_content b c ≡ true }
    ensures part { (a b : Scope) → AreOfOneProgram a b → (size : ℕ) (p : Part)
        → content_names_variable p.content ≡ false → is_part a size p ≡ true → is_part b size p ≡ true }
    ensures parts { (a b : Scope) → AreOfOneProgram a b → (size : ℕ) (ps : List Part) → name_variables ps ≡ false
        → are_parts a size ps ≡ true → are_parts b size ps ≡ true }
{}

/// The parts of a static object's initializer that are valid where it is declared are valid in the scope in which the
/// program judges them: if they name a variable, all variables of the function can be named there.
pub fn initializers_of_static_objects_are_valid_in_their_programs()
    ensures static_parts { (p : Program) (o : StaticObject) (a : Scope)
        → AreOfOneProgram a (scope_in p [] [] kind.Void)
        → (name_variables o.parts ≡ true → AreAmong a.variables (variables_of_function p.functions o.function))
        → are_parts a (size_of_kind o.kind) o.parts ≡ true
        → are_parts (static_scope p o) (size_of_kind o.kind) o.parts ≡ true }
{}
