//! The law of lines, as the contract of a function that does nothing.

ghost use Rattle.std.specs.Prelude.{ℕ, Bool, List};
ghost use Rattle.obj_memory.specs.declared.int_type.IntType.{IntType};
ghost use Rattle.obj_memory.specs.declared.operator.BinaryOperator.{BinaryOperator};
ghost use Rattle.obj_memory.specs.declared.value.Scalar.{Scalar};
ghost use Rattle.obj_memory.specs.declared.value.Value.{Value};
ghost use Rattle.c_tree.specs.declared.expression.Fixity.{Fixity};
ghost use Rattle.c_tree.specs.declared.expression.Kind.{Kind};
ghost use Rattle.c_tree.specs.declared.expression.Routine.{Routine};
ghost use Rattle.c_tree.specs.declared.expression.Update.{Update};
ghost use Rattle.c_tree.specs.declared.program.Variable.{Variable};
ghost use Rattle.source_meaning.specs.State.{Header, Rvalue, Setting};
ghost use Rattle.source_meaning.specs.Actions.{load, located, operate, read_lvalue, store, take_key, update};
ghost use Rattle.source_meaning.specs.Actions.{update_plain, updated, write_lvalue};
ghost use Rattle.source_meaning.specs.Structures.{read_rvalue, take_value, write_rvalue};
ghost use Rattle.source_meaning.specs.Blocks.{enter_block};
ghost use Rattle.source_meaning.specs.Calls.{set_up};
ghost use Rattle.source_meaning.specs.Expressions.{callee};
ghost use Rattle.source_meaning.specs.Library.{routine};
ghost use Rattle.source_meaning.specs.Lines.{RunsAlikeAt};
ghost use Rattle.source_meaning.specs.Printing.{print_formatted};

/// What is run at one line does the same at any other, but that it ends with the other line where it ends: a routine of
/// the library, `printf`, a block that is entered, what a call does before its body, the choice of the function that is
/// called through a pointer, and each access and operator. So code of it that leaves the line open serves all lines.
pub fn runs_do_the_same_at_each_line()
    ensures routine { (line other : ℕ) (g : Setting) (r : Routine) (vs : List Value)
        → RunsAlikeAt other (routine g r vs line) (routine g r vs other) }
    ensures print { (line other : ℕ) (format : List ℕ) (vs : List Value)
        → RunsAlikeAt other (print_formatted format vs line) (print_formatted format vs other) }
    ensures enter { (line other : ℕ) (g : Setting) (vs : List Variable)
        → RunsAlikeAt other (enter_block g vs line) (enter_block g vs other) }
    ensures set_up { (line other : ℕ) (g : Setting) (f : Header) (vs : List Rvalue)
        → RunsAlikeAt other (set_up g f vs line) (set_up g f vs other) }
    ensures callee { (line other : ℕ) (functions : List Header) (type_number : ℕ) (v : Value)
        → RunsAlikeAt other (callee functions type_number v line) (callee functions type_number v other) }
    ensures key { (line other : ℕ) (g : Setting) → RunsAlikeAt other (take_key g line) (take_key g other) }
    ensures located { (line other : ℕ) (j : Bool) (size : ℕ) (p : Value)
        → RunsAlikeAt other (located j size p line) (located j size p other) }
    ensures load { (line other : ℕ) (k : Scalar) (j : Bool) (p : Value)
        → RunsAlikeAt other (load k j p line) (load k j p other) }
    ensures store { (line other : ℕ) (k : Scalar) (j : Bool) (p v : Value)
        → RunsAlikeAt other (store k j p line v) (store k j p other v) }
    ensures read_lvalue { (line other : ℕ) (kind : Kind) (j : Bool) (p : Value)
        → RunsAlikeAt other (read_lvalue kind j p line) (read_lvalue kind j p other) }
    ensures write_lvalue { (line other : ℕ) (kind : Kind) (j : Bool) (p v : Value)
        → RunsAlikeAt other (write_lvalue kind j p line v) (write_lvalue kind j p other v) }
    ensures read_rvalue { (line other : ℕ) (kind : Kind) (j : Bool) (q : Rvalue)
        → RunsAlikeAt other (read_rvalue kind j q line) (read_rvalue kind j q other) }
    ensures write_rvalue { (line other : ℕ) (kind : Kind) (j : Bool) (p : Value) (v : Rvalue)
        → RunsAlikeAt other (write_rvalue kind j p line v) (write_rvalue kind j p other v) }
    ensures taken { (line other : ℕ) (kind : Kind) (v : Rvalue)
        → RunsAlikeAt other (take_value kind line v) (take_value kind other v) }
    ensures operate { (line other : ℕ) (op : BinaryOperator) (t : IntType) (x y : Value)
        → RunsAlikeAt other (operate op t x y line) (operate op t x y other) }
    ensures updated { (line other : ℕ) (u : Update) (k : Scalar) (right old : Value)
        → RunsAlikeAt other (updated u k right line old) (updated u k right other old) }
    ensures update { (line other : ℕ) (u : Update) (k : Scalar) (j : Bool) (p right : Value) (f : Fixity)
        → RunsAlikeAt other (update k j p line (updated u k right line) f)
        (update k j p other (updated u k right other) f) }
    ensures update_plain { (line other : ℕ) (u : Update) (k : Scalar) (x : ℕ) (right : Value) (f : Fixity)
        → RunsAlikeAt other (update_plain x (updated u k right line) f)
        (update_plain x (updated u k right other) f) }
{}
