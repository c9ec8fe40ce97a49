//! Laws of the definitions, each as the contract of a function that does nothing: layers above rest on
//! them.

pub mod constants;
pub mod lines;

ghost use Rattle.std.specs.Prelude.{◌≡◌, ◌≢◌, ◌<◌, ℕ, IfSome, List, Bool, true, false, length, map, Some};
ghost use Rattle.behaviours.specs.Behaviour.{IsSource};
ghost use Rattle.sb_base.specs.Budgets.{BudgetSizes};
ghost use Rattle.addr_map.specs.Places.{AreMapped, MapSizes};
ghost use Rattle.obj_memory.specs.declared.int_type.IntType.{IntType};
ghost use Rattle.obj_memory.specs.declared.object.Storage.{Storage};
ghost use Rattle.obj_memory.specs.declared.operator.BinaryOperator.{BinaryOperator};
ghost use Rattle.obj_memory.specs.declared.value.Value.{Value};
ghost use Rattle.obj_memory.specs.declared.value.Scalar.{Scalar};
ghost use Rattle.obj_memory.specs.declared.value.Place.{Place};
ghost use Rattle.obj_memory.specs.Sound.{Continues, IsAllowed, IsSoundTag};
ghost use Rattle.c_tree.specs.declared.expression.Kind.{Kind};
ghost use Rattle.c_tree.specs.declared.expression.Kind.TheVariants.{Scalar as OfScalar, Structure};
ghost use Rattle.c_tree.specs.Kinds.{routine_signature, size_of_kind};
ghost use Rattle.obj_memory.specs.declared.int_type.IntType.TheVariants.{Int};
ghost use Rattle.obj_memory.specs.declared.value.Scalar.TheVariants.{Integer};
ghost use Rattle.c_tree.specs.declared.expression.Update.{Update};
ghost use Rattle.c_tree.specs.declared.expression.Fixity.{Fixity};
ghost use Rattle.c_tree.specs.declared.expression.Routine.{Routine};
ghost use Rattle.c_tree.specs.declared.program.Variable.{Variable};
ghost use Rattle.c_tree.specs.Programs.{Function, Program};
ghost use Rattle.c_tree.specs.ValidProgram.{are_declared, function_scope, Inside as Surrounding, is_statement};
ghost use Rattle.c_tree.specs.ValidProgram.{is_valid_program};
ghost use Rattle.source_meaning.specs.State.{Env, State, Rvalue, Gives, Run, Header, Setting, change};
ghost use Rattle.source_meaning.specs.Actions.{located, read_lvalue, write_lvalue, read_scalar, write_scalar, updated};
ghost use Rattle.source_meaning.specs.Actions.{update, update_in_parts, update_plain, set_plain, move_bytes};
ghost use Rattle.source_meaning.specs.Actions.{make_object, put_bytes};
ghost use Rattle.source_meaning.specs.Actions.{take_key, each_value, operate, load, store};
ghost use Rattle.source_meaning.specs.Structures.{make_zero, moved_into, put_range, read_rvalue, take_value};
ghost use Rattle.source_meaning.specs.Structures.{write_rvalue};
ghost use Rattle.obj_memory.specs.Objects.{ObjectState, Objects, object_at};
ghost use Rattle.obj_memory.specs.Access.{move_range, scalar_size};
ghost use Rattle.obj_memory.specs.Integers.{fit};
ghost use Rattle.obj_memory.specs.Operators.{binary_value, unary_value};
ghost use Rattle.obj_memory.specs.declared.operator.UnaryOperator.{UnaryOperator};
ghost use Rattle.c_tree.specs.Kinds.{are_operands, class_of};
ghost use Rattle.c_tree.specs.Valid.{is_operand, is_update};
ghost use Rattle.source_meaning.specs.Actions.{integer_type, scalar_of};
ghost use Rattle.source_meaning.specs.Expressions.{callee, evaluate, place, values};
ghost use Rattle.source_meaning.specs.Initializers.{zero_variable, store_bytes};
ghost use Rattle.source_meaning.specs.Library.{routine};
ghost use Rattle.source_meaning.specs.Printing.{print_formatted};
ghost use Rattle.source_meaning.specs.Blocks.{Block, enter_block, has_objects, leave_block};
ghost use Rattle.source_meaning.specs.Calls.{Caller, back_to, caller, calls, env_of, function_at, header_of, set_up};
ghost use Rattle.source_meaning.specs.Meaning.{meaning, outcome, initial_objects, setting_of, start};
ghost use Rattle.source_meaning.specs.Acting.{IsAction, RunsAlike, state_of};
ghost use Rattle.source_meaning.specs.Turns.{Grows};
ghost use Rattle.c_tree.specs.Tree.{Expression, Expressions, Lvalue, kind_of, kinds_of, lvalue_kind};
ghost use Rattle.c_tree.specs.Statements.{DeclaredVariable, Statement};
ghost use Rattle.c_tree.specs.Blocks.{all_of, block_objects, opened};
ghost use Rattle.c_tree.specs.Assigning.{declared_assign, statement_assigns};
ghost use Rattle.c_tree.specs.Walk.{assigns, lvalue_assigns};
ghost use Rattle.source_meaning.specs.Staying.{Stays, Keeps, KeepsLives, frees};
ghost use Rattle.c_tree.specs.Valid.{Scope, are_valid, is_valid, is_valid_lvalue};
ghost use Rattle.source_meaning.specs.Initializers.{initialize_all};
ghost use Rattle.source_meaning.specs.Statements.{execute};
ghost use Rattle.source_meaning.specs.Good.{EntersBy, IsEntered, Leaves, Any, ArgumentIs, ArgumentsAre, basis_of};
ghost use Rattle.source_meaning.specs.Good.{Calling, CompletionIs, Context, context_of, file_scope, function_count};
ghost use Rattle.source_meaning.specs.Good.{Inside, IsGood, LvalueIs, signature_in, Sure, ValueIs, program_context};
ghost use Rattle.source_meaning.specs.Good.{SetsUpBy, IsSetUp, AreGiven, Basis, IsGiven, IsTagged, on_pointer};
ghost use Rattle.source_meaning.specs.Good.{plain_type, PlaceIs, Updates, IsOfKind, object_kind};
ghost use Rattle.source_meaning.specs.Judging.{tested};
ghost use Rattle.source_meaning.specs.Keeping.{AreTagged, IsDirect, IsSoundState};
ghost use Rattle.source_meaning.specs.Working.{Counts, CountsAtOnce, CountsBy, HaveBytes};

/// More turns show more of the same: what is shown never shrinks, no work and no turn is taken back, and
/// a run that ended stays as it is.
pub fn more_turns_show_more()
    ensures { (p : Program) (budgets : BudgetSizes) (input : List ℕ) → Grows (meaning p budgets input) }
{}

/// A run that is still running has begun all its turns.
pub fn running_has_begun_all_turns()
    ensures { (p : Program) (budgets : BudgetSizes) (input : List ℕ) → IsSource (meaning p budgets input) }
{}

/// Objects stay where they are along a run, a new one has a new number, and the dead stay dead.
pub fn objects_continue_along_a_run()
    ensures { (p : Program) (budgets : BudgetSizes) (input : List ℕ) (t : ℕ)
        → Continues (initial_objects p (setting_of p budgets)) (state_of (outcome p budgets input t)).objects }
{}

/// In a run of a valid program every tag that is stored, and that of each plain value, names a function of the
/// program, or an object outside which it reaches nothing, with bounds below 2^64; each object has its bytes and
/// tags, and stands in the region of its storage; no two live objects share an address that they take, blocks of the
/// heap with their rounded room; and each access was of bytes of an object.
pub fn runs_keep_objects_sound()
    ensures { (p : Program) (budgets : BudgetSizes) → AreMapped (setting_of p budgets).sizes
        → is_valid_program p ≡ true → (input : List ℕ) (t : ℕ)
        → IsSoundState (length p.functions) (setting_of p budgets).sizes (state_of (outcome p budgets input t)) }
{}

/// An access that is made is, at that moment, of bytes of a live object: one that is judged, through a pointer whose
/// tag is sound, and one that names its object, where that is live.
pub fn accesses_are_of_live_objects()
    ensures judged { (functions size : ℕ) (p : Value) (line : ℕ) (s s' : State) (place : Place)
        → IsSoundTag functions s.objects p.tag
        → located true size p line s ≡ Gives place s' → IsAllowed s.objects p size place }
    ensures named { (size : ℕ) (p : Value) (line : ℕ) (s s' : State) (place : Place) → IsDirect s.objects p size
        → located false size p line s ≡ Gives place s' → IsAllowed s.objects p size place }
{}

/// An update through a pointer to a live object is a read, the new value and a write through that pointer.
pub fn updates_are_reads_and_writes()
    ensures { (u : Update) (k : Scalar) (p : Value) (line : ℕ) (right : Value) (at : ℕ) (f : Fixity) (s : State)
        → IsDirect s.objects p (scalar_size k)
        → update k false p line (updated u k right at) f s ≡ update_in_parts k p line (updated u k right at) f s }
{}

/// Accesses and changes of variables begin no turn, do the same at any count of work, and add to it.
pub fn accesses_are_actions()
    ensures located { (j : Bool) (size : ℕ) (p : Value) (line : ℕ) → IsAction (located j size p line) }
    ensures read { (k : Scalar) (address : ℕ) (p : Place) → IsAction (read_scalar k address p) }
    ensures write { (k : Scalar) (address : ℕ) (p : Place) (v : Value) → IsAction (write_scalar k address p v) }
    ensures moved { (size : ℕ) (d s : Place) → IsAction (move_bytes size d s) }
    ensures read_lvalue { (kind : Kind) (j : Bool) (p : Value) (line : ℕ) → IsAction (read_lvalue kind j p line) }
    ensures write_lvalue { (kind : Kind) (j : Bool) (p : Value) (line : ℕ) (v : Value)
        → IsAction (write_lvalue kind j p line v) }
    ensures read_rvalue { (kind : Kind) (j : Bool) (q : Rvalue) (line : ℕ) → IsAction (read_rvalue kind j q line) }
    ensures write_rvalue { (kind : Kind) (j : Bool) (p : Value) (line : ℕ) (v : Rvalue)
        → IsAction (write_rvalue kind j p line v) }
    ensures taken { (kind : Kind) (line : ℕ) (v : Rvalue) → IsAction (take_value kind line v) }
    ensures made { (kind : Kind) → IsAction (make_zero kind) }
    ensures updated { (u : Update) (k : Scalar) (right : Value) (line : ℕ) (old : Value)
        → IsAction (updated u k right line old) }
    ensures update { (u : Update) (k : Scalar) (j : Bool) (p : Value) (line : ℕ) (right : Value) (at : ℕ) (f : Fixity)
        → IsAction (update k j p line (updated u k right at) f) }
    ensures operate { (op : BinaryOperator) (t : IntType) (x y : Value) (line : ℕ) → IsAction (operate op t x y line) }
    ensures load { (k : Scalar) (j : Bool) (p : Value) (line : ℕ) → IsAction (load k j p line) }
    ensures store { (k : Scalar) (j : Bool) (p : Value) (line : ℕ) (v : Value) → IsAction (store k j p line v) }
    ensures make { (storage : Storage) (address size : ℕ) → IsAction (make_object storage address size) }
    ensures put { (bytes : List ℕ) → IsAction (put_bytes bytes) }
    ensures key { (g : Setting) (line : ℕ) → IsAction (take_key g line) }
    ensures plain { (x : ℕ) (v : Value) → IsAction (set_plain x v) }
    ensures update_plain { (u : Update) (k : Scalar) (x : ℕ) (right : Value) (at : ℕ) (f : Fixity)
        → IsAction (update_plain x (updated u k right at) f) }
    ensures zero { (x : ℕ) → IsAction (zero_variable x) }
    ensures bytes { (p : Value) (offset : ℕ) (bytes : List ℕ) → IsAction (store_bytes p offset bytes) }
{}

/// So do the routines of the library, what a call does before and after its body, and a block where it is entered and
/// left.
pub fn routines_and_calls_are_actions()
    ensures routine { (g : Setting) (r : Routine) (vs : List Value) (line : ℕ) → IsAction (routine g r vs line) }
    ensures print { (format : List ℕ) (vs : List Value) (line : ℕ) → IsAction (print_formatted format vs line) }
    ensures callee { (functions : List Header) (type_number : ℕ) (v : Value) (line : ℕ)
        → IsAction (callee functions type_number v line) }
    ensures set_up { (g : Setting) (f : Header) (vs : List Rvalue) (line : ℕ) → IsAction (set_up g f vs line) }
    ensures back { (c : Caller) → IsAction (change (back_to c)) }
    ensures enter { (g : Setting) (vs : List Variable) (line : ℕ) → IsAction (enter_block g vs line) }
    ensures leave { (b : Block) → IsAction (change (leave_block b)) }
{}

/// And so does every call, with all that it leads to: the work that was done before plays no part.
pub fn calls_do_the_same_at_any_work()
    ensures { (functions : List Function) (g : Setting) (limit n f : ℕ) (vs : List Rvalue) (line : ℕ)
        → RunsAlike (calls functions g limit n f vs line) }
{}

/// Objects that are laid out, taken or zeroed are counted: a block with objects, each of which has a byte, counts at
/// least two units, a structure that is taken its bytes, and so does a variable that is zeroed. A call counts itself at
/// once, and its body where it returns.
pub fn objects_and_calls_are_counted()
    ensures enter { (g : Setting) (vs : List Variable) (line : ℕ) → HaveBytes vs → has_objects vs ≡ true
        → Counts 2 (enter_block g vs line) }
    ensures taken { (size line : ℕ) (v : Rvalue) → Counts size (take_value (Structure size) line v) }
    ensures zero { (sc : Context) (x : ℕ) (kind : Kind) → object_kind sc.scope.variables x ≡ Some kind → (s : State)
        → IsGood sc s → CountsBy (size_of_kind kind) s (zero_variable x s) }
    ensures set_up { (g : Setting) (f : Header) (vs : List Rvalue) (line : ℕ) → CountsAtOnce 1 (set_up g f vs line) }
    ensures call { (functions : List Function) (g : Setting) (limit n f : ℕ) (vs : List Rvalue) (line : ℕ)
        → Counts 2 (calls functions g limit n f vs line) }
{}

/// From a good state every expression, lvalue and list of arguments of a valid program comes to good states with a
/// sound value of its kind, so that an integer has no tag and is a word of its type; and so does an initializer: at
/// each step, also within a turn. An lvalue that rests on a name is of a live object.
pub fn expressions_keep_states_good()
    ensures value { (sc : Context) (env : Env) → Calling sc env → (e : Expression) → is_valid sc.scope e ≡ true
        → Sure sc Any (evaluate env e) (ValueIs (function_count sc) (kind_of e)) }
    ensures lvalue { (sc : Context) (env : Env) → Calling sc env → (p : Lvalue) → is_valid_lvalue sc.scope p ≡ true
        → Sure sc Any (place env p) (LvalueIs (function_count sc) (basis_of p) (lvalue_kind p)) }
    ensures arguments { (sc : Context) (env : Env) → Calling sc env → (es : Expressions) → are_valid sc.scope es ≡ true
        → Sure sc Any (each_value (values env es)) (ArgumentsAre (function_count sc) (kinds_of es)) }
    ensures initializers { (sc : Context) (env : Env) → Calling sc env → (ds : List DeclaredVariable)
        → are_declared sc.scope ds ≡ true → Sure sc Any (initialize_all env ds) (λ _. Any) }
{}

/// So does every statement, wherever it stands, and leaves the names around it as they were.
pub fn statements_keep_states_good()
    ensures { (base : Scope) (sizes : MapSizes) (env : Env) → Inside base sizes env → (vs : List Variable)
        (within : Surrounding) (s : Statement)
        → is_statement (context_of base sizes env.variables vs).scope within s ≡ true
        → Sure (context_of base sizes env.variables vs) Any (execute env s)
        (CompletionIs (length base.functions) base.result) }
{}

/// So does every call of a valid program, and its first state is good: what the two laws above ask of calls.
pub fn calls_keep_states_good()
    ensures call { (p : Program) (budgets : BudgetSizes) → AreMapped (setting_of p budgets).sizes
        → is_valid_program p ≡ true
        → (limit n : ℕ) (sc : Context) → sc.scope.statics ≡ (file_scope p).statics
        → sc.scope.functions ≡ (file_scope p).functions → sc.sizes ≡ (setting_of p budgets).sizes
        → (f : ℕ) (vs : List Rvalue) (line : ℕ)
        → Sure sc (ArgumentsAre (function_count sc) (signature_in (file_scope p).functions f).parameters vs)
        (calls p.functions (setting_of p budgets) limit n f vs line)
        (ArgumentIs (function_count sc) (signature_in (file_scope p).functions f).result) }
    ensures inside { (p : Program) (budgets : BudgetSizes) → AreMapped (setting_of p budgets).sizes
        → is_valid_program p ≡ true → (limit n : ℕ) (f : Function)
        → Inside (function_scope p f) (setting_of p budgets).sizes
        (env_of p.functions (setting_of p budgets) limit n (all_of f)) }
    ensures functions { (p : Program) → length (file_scope p).functions ≡ length p.functions }
    ensures start { (p : Program) (budgets : BudgetSizes) → AreMapped (setting_of p budgets).sizes
        → is_valid_program p ≡ true → (input : List ℕ)
        → IsGood (record { scope = file_scope p; sizes = (setting_of p budgets).sizes })
        (start p (setting_of p budgets) input) }
{}

/// A judged access is two tests, one after the other, of the bounds and of the life of the object, and then an access
/// that names its object.
pub fn judgement_is_two_tests()
    ensures { (size : ℕ) (v : Value) (line : ℕ) (s : State) → located true size v line s ≡ tested size v line s }
{}

/// A block that is entered from a good state is ended in it, or leaves a good one in which its variables have homes
/// too; where it is left, the names around it are good again.
pub fn blocks_keep_states_good()
    ensures enter { (base : Scope) (sizes : MapSizes) (all vars : List Variable) (numbers : List ℕ) (g : Setting)
        → g.sizes ≡ sizes → AreMapped sizes → (line : ℕ) (s : State)
        → IsGood (context_of base sizes all vars) s
        → EntersBy base sizes all vars numbers s (enter_block g (block_objects all numbers) line s) }
    ensures leave { (base : Scope) (sizes : MapSizes) (all vars : List Variable) (numbers : List ℕ) (s : State)
        → IsGood (context_of base sizes all vars) s → (b : Block) (s1 s2 : State)
        → IsEntered base sizes all vars numbers s b s1
        → Leaves (context_of base sizes all (opened numbers 0 all vars)) s1 s2
        → Leaves (context_of base sizes all vars) s (leave_block b s2) }
{}

/// A plain variable that an expression, an lvalue, a statement or an initializer does not assign, and every home, is as
/// before; a call gives the caller all of its variables back.
pub fn unassigned_variables_stay()
    ensures expression { (functions : List Function) (g : Setting) (limit n : ℕ) (variables : List Variable) (y : ℕ)
        (e : Expression) → assigns y e ≡ false → Stays y (evaluate (env_of functions g limit n variables) e) }
    ensures lvalue { (functions : List Function) (g : Setting) (limit n : ℕ) (variables : List Variable) (y : ℕ)
        (p : Lvalue) → lvalue_assigns y p ≡ false → Stays y (place (env_of functions g limit n variables) p) }
    ensures statement { (functions : List Function) (g : Setting) (limit n : ℕ) (variables : List Variable) (y : ℕ)
        (s : Statement) → statement_assigns y s ≡ false
        → Stays y (execute (env_of functions g limit n variables) s) }
    ensures initializers { (functions : List Function) (g : Setting) (limit n : ℕ) (variables : List Variable) (y : ℕ)
        (ds : List DeclaredVariable) → declared_assign y ds ≡ false
        → Stays y (initialize_all (env_of functions g limit n variables) ds) }
    ensures call { (y : ℕ) (functions : List Function) (g : Setting) (limit n f : ℕ) (vs : List Rvalue) (line : ℕ)
        → Stays y (calls functions g limit n f vs line) }
{}

/// Objects die, by name, in `free` and `realloc`, where a block is left and where a call returns: in no other action.
pub fn objects_die_where_they_are_freed()
    ensures located { (j : Bool) (size : ℕ) (p : Value) (line : ℕ) → KeepsLives (located j size p line) }
    ensures read { (k : Scalar) (address : ℕ) (p : Place) → KeepsLives (read_scalar k address p) }
    ensures write { (k : Scalar) (address : ℕ) (p : Place) (v : Value) → KeepsLives (write_scalar k address p v) }
    ensures moved { (size : ℕ) (d s : Place) → KeepsLives (move_bytes size d s) }
    ensures load { (k : Scalar) (j : Bool) (p : Value) (line : ℕ) → KeepsLives (load k j p line) }
    ensures store { (k : Scalar) (j : Bool) (p : Value) (line : ℕ) (v : Value) → KeepsLives (store k j p line v) }
    ensures read_lvalue { (kind : Kind) (j : Bool) (p : Value) (line : ℕ) → KeepsLives (read_lvalue kind j p line) }
    ensures write_lvalue { (kind : Kind) (j : Bool) (p : Value) (line : ℕ) (v : Value)
        → KeepsLives (write_lvalue kind j p line v) }
    ensures read_rvalue { (kind : Kind) (j : Bool) (q : Rvalue) (line : ℕ) → KeepsLives (read_rvalue kind j q line) }
    ensures write_rvalue { (kind : Kind) (j : Bool) (p : Value) (line : ℕ) (v : Rvalue)
        → KeepsLives (write_rvalue kind j p line v) }
    ensures taken { (kind : Kind) (line : ℕ) (v : Rvalue) → KeepsLives (take_value kind line v) }
    ensures made { (kind : Kind) → KeepsLives (make_zero kind) }
    ensures updated { (u : Update) (k : Scalar) (right : Value) (line : ℕ) (old : Value)
        → KeepsLives (updated u k right line old) }
    ensures update { (u : Update) (k : Scalar) (j : Bool) (p : Value) (line : ℕ) (right : Value) (at : ℕ) (f : Fixity)
        → KeepsLives (update k j p line (updated u k right at) f) }
    ensures operate { (op : BinaryOperator) (t : IntType) (x y : Value) (line : ℕ)
        → KeepsLives (operate op t x y line) }
    ensures make { (storage : Storage) (address size : ℕ) → KeepsLives (make_object storage address size) }
    ensures put { (bytes : List ℕ) → KeepsLives (put_bytes bytes) }
    ensures key { (g : Setting) (line : ℕ) → KeepsLives (take_key g line) }
    ensures plain { (x : ℕ) (v : Value) → KeepsLives (set_plain x v) }
    ensures update_plain { (u : Update) (k : Scalar) (x : ℕ) (right : Value) (at : ℕ) (f : Fixity)
        → KeepsLives (update_plain x (updated u k right at) f) }
    ensures zero { (x : ℕ) → KeepsLives (zero_variable x) }
    ensures bytes { (p : Value) (offset : ℕ) (bytes : List ℕ) → KeepsLives (store_bytes p offset bytes) }
    ensures routine { (g : Setting) (r : Routine) (vs : List Value) (line : ℕ) → frees r ≡ false
        → KeepsLives (routine g r vs line) }
    ensures print { (format : List ℕ) (vs : List Value) (line : ℕ) → KeepsLives (print_formatted format vs line) }
    ensures callee { (functions : List Header) (type_number : ℕ) (v : Value) (line : ℕ)
        → KeepsLives (callee functions type_number v line) }
    ensures set_up { (g : Setting) (f : Header) (vs : List Rvalue) (line : ℕ) → KeepsLives (set_up g f vs line) }
    ensures enter { (g : Setting) (vs : List Variable) (line : ℕ) → KeepsLives (enter_block g vs line) }
{}

/// Plain variables and homes change where a variable is set, where a block is entered or left, and where a call begins
/// and returns: in no other action.
pub fn variables_change_where_they_are_set()
    ensures located { (j : Bool) (size : ℕ) (p : Value) (line : ℕ) → Keeps (located j size p line) }
    ensures read { (k : Scalar) (address : ℕ) (p : Place) → Keeps (read_scalar k address p) }
    ensures write { (k : Scalar) (address : ℕ) (p : Place) (v : Value) → Keeps (write_scalar k address p v) }
    ensures moved { (size : ℕ) (d s : Place) → Keeps (move_bytes size d s) }
    ensures load { (k : Scalar) (j : Bool) (p : Value) (line : ℕ) → Keeps (load k j p line) }
    ensures store { (k : Scalar) (j : Bool) (p : Value) (line : ℕ) (v : Value) → Keeps (store k j p line v) }
    ensures read_lvalue { (kind : Kind) (j : Bool) (p : Value) (line : ℕ) → Keeps (read_lvalue kind j p line) }
    ensures write_lvalue { (kind : Kind) (j : Bool) (p : Value) (line : ℕ) (v : Value)
        → Keeps (write_lvalue kind j p line v) }
    ensures read_rvalue { (kind : Kind) (j : Bool) (q : Rvalue) (line : ℕ) → Keeps (read_rvalue kind j q line) }
    ensures write_rvalue { (kind : Kind) (j : Bool) (p : Value) (line : ℕ) (v : Rvalue)
        → Keeps (write_rvalue kind j p line v) }
    ensures taken { (kind : Kind) (line : ℕ) (v : Rvalue) → Keeps (take_value kind line v) }
    ensures made { (kind : Kind) → Keeps (make_zero kind) }
    ensures updated { (u : Update) (k : Scalar) (right : Value) (line : ℕ) (old : Value)
        → Keeps (updated u k right line old) }
    ensures update { (u : Update) (k : Scalar) (j : Bool) (p : Value) (line : ℕ) (right : Value) (at : ℕ) (f : Fixity)
        → Keeps (update k j p line (updated u k right at) f) }
    ensures operate { (op : BinaryOperator) (t : IntType) (x y : Value) (line : ℕ) → Keeps (operate op t x y line) }
    ensures make { (storage : Storage) (address size : ℕ) → Keeps (make_object storage address size) }
    ensures put { (bytes : List ℕ) → Keeps (put_bytes bytes) }
    ensures key { (g : Setting) (line : ℕ) → Keeps (take_key g line) }
    ensures zero { (x : ℕ) → Keeps (zero_variable x) }
    ensures bytes { (p : Value) (offset : ℕ) (bytes : List ℕ) → Keeps (store_bytes p offset bytes) }
    ensures routine { (g : Setting) (r : Routine) (vs : List Value) (line : ℕ) → Keeps (routine g r vs line) }
    ensures print { (format : List ℕ) (vs : List Value) (line : ℕ) → Keeps (print_formatted format vs line) }
    ensures callee { (functions : List Header) (type_number : ℕ) (v : Value) (line : ℕ)
        → Keeps (callee functions type_number v line) }
{}

/// A call of a valid program that is set up from a good state is ended there, or leaves a good state of the function
/// that is called; where it returns, the caller's state is good again.
pub fn calls_are_entered_and_left()
    ensures enter { (p : Program) (budgets : BudgetSizes) → AreMapped (setting_of p budgets).sizes
        → is_valid_program p ≡ true → (n : ℕ) (f : Function) → function_at p.functions n ≡ Some f → (around : Scope)
        → (vs : List Rvalue) (line : ℕ) (s : State)
        → IsGood (program_context p (setting_of p budgets).sizes around) s
        → ArgumentsAre (length (file_scope p).functions) (map (λ v. v.kind) f.parameters) vs s.objects
        → SetsUpBy (record { scope = function_scope p f; sizes = (setting_of p budgets).sizes }) s.objects
        (set_up (setting_of p budgets) (header_of f) vs line s) }
    ensures leave { (p : Program) (budgets : BudgetSizes) → AreMapped (setting_of p budgets).sizes
        → is_valid_program p ≡ true → (n : ℕ) (f : Function) → function_at p.functions n ≡ Some f → (around : Scope)
        → (s s1 s2 : State) → IsGood (program_context p (setting_of p budgets).sizes around) s
        → IsSetUp (record { scope = function_scope p f; sizes = (setting_of p budgets).sizes }) s.objects s1
        → Leaves (record { scope = function_scope p f; sizes = (setting_of p budgets).sizes }) s1 s2
        → Leaves (program_context p (setting_of p budgets).sizes around) s (back_to (caller s) s2) }
{}

/// Each action keeps states good, and gives what is of its kind: reads and writes of lvalues of each basis, updates,
/// operators, plain variables, initializers, routines. Blocks and calls have laws of their own.
pub fn actions_keep_states_good()
    ensures read { (sc : Context) (b : Basis) (kind : Kind) (q : Rvalue) (line : ℕ)
        → Sure sc (LvalueIs (function_count sc) b kind q) (read_rvalue kind (on_pointer b) q line)
        (ValueIs (function_count sc) kind) }
    ensures write { (sc : Context) (b : Basis) (kind : Kind) (q : Value) (line : ℕ) (v : Rvalue)
        → Sure sc (λ o. PlaceIs (function_count sc) b kind q o × ValueIs (function_count sc) kind v o)
        (write_rvalue kind (on_pointer b) q line v) (ValueIs (function_count sc) kind) }
    ensures taken { (sc : Context) (kind : Kind) (line : ℕ) (v : Rvalue)
        → Sure sc (ValueIs (function_count sc) kind v) (take_value kind line v) (ArgumentIs (function_count sc) kind) }
    ensures load { (sc : Context) (b : Basis) (k : Scalar) (q : Value) (line : ℕ)
        → Sure sc (PlaceIs (function_count sc) b (OfScalar k) q) (load k (on_pointer b) q line)
        (IsGiven (function_count sc) (OfScalar k)) }
    ensures store { (sc : Context) (b : Basis) (k : Scalar) (q : Value) (line : ℕ) (v : Value)
        → Sure sc (λ o. IsTagged (function_count sc) v o × PlaceIs (function_count sc) b (OfScalar k) q o)
        (store k (on_pointer b) q line v) (λ done o. IsTagged (function_count sc) v o) }
    ensures update { (sc : Context) (b : Basis) (k : Scalar) (q : Value) (line : ℕ) (u : Update) → Updates u k
        → (right : Value) (at : ℕ) (f : Fixity)
        → Sure sc (PlaceIs (function_count sc) b (OfScalar k) q)
        (update k (on_pointer b) q line (updated u k right at) f) (IsGiven (function_count sc) (OfScalar k)) }
    ensures updated { (sc : Context) (u : Update) (k : Scalar) → Updates u k → (right : Value) (line : ℕ)
        → (old : Value) → Sure sc (IsTagged (function_count sc) old) (updated u k right line old)
        (IsGiven (function_count sc) (OfScalar k)) }
    ensures operate { (sc : Context) (op : BinaryOperator) (t : IntType) (x y : Value) (line : ℕ) (result : IntType)
        → IfSome (binary_value op t x.word y.word) (λ w. fit result w ≡ w)
        → Sure sc Any (operate op t x y line) (IsGiven (function_count sc) (OfScalar (Integer result))) }
    ensures callee { (sc : Context) (functions : List Header) (type_number : ℕ) (v : Value) (line : ℕ)
        → Sure sc Any (callee functions type_number v line) (λ f. Any) }
    ensures update_plain { (sc : Context) (u : Update) (k : Scalar) (x : ℕ) → Updates u k
        → plain_type sc.scope.variables x ≡ Some k → (right : Value) (at : ℕ) (f : Fixity)
        → Sure sc Any (update_plain x (updated u k right at) f) (IsGiven (function_count sc) (OfScalar k)) }
    ensures plain { (sc : Context) (x : ℕ) (k : Scalar) → plain_type sc.scope.variables x ≡ Some k → (v : Value)
        → Sure sc (IsGiven (function_count sc) (OfScalar k) v) (set_plain x v)
        (λ done o. IsTagged (function_count sc) v o) }
    ensures zero { (sc : Context) (x : ℕ) → Sure sc Any (zero_variable x) (λ done. Any) }
    ensures put { (sc : Context) (bytes : List ℕ) → Sure sc Any (put_bytes bytes) (λ done. Any) }
    ensures key { (sc : Context) (g : Setting) (line : ℕ) → Sure sc Any (take_key g line) (λ done. Any) }
    ensures routine { (sc : Context) (g : Setting) → AreMapped g.sizes → g.sizes ≡ sc.sizes → (r : Routine)
        → (vs : List Value) (line : ℕ)
        → Sure sc (AreGiven (function_count sc) (routine_signature r).parameters vs) (routine g r vs line)
        (IsGiven (function_count sc) (routine_signature r).result) }
    ensures print { (sc : Context) (format : List ℕ) (vs : List Value) (line : ℕ)
        → Sure sc (AreTagged (function_count sc) vs) (print_formatted format vs line)
        (IsGiven (function_count sc) (OfScalar (Integer Int))) }
{}

/// Contents that are moved to a place leave there what the same move from an object leaves, and every other object
/// stays.
pub fn moved_contents_are_written()
    ensures object { (size : ℕ) (d : Place) (source : ℕ) (c : ObjectState) (objects : Objects)
        → d.object < length objects → object_at (put_range size d source c objects) d.object
        ≡ moved_into size d.offset source c (object_at objects d.object) }
    ensures other { (size : ℕ) (d : Place) (source n : ℕ) (c : ObjectState) (objects : Objects) → n ≢ d.object
        → object_at (put_range size d source c objects) n ≡ object_at objects n }
    ensures range { (size : ℕ) (d s : Place) (objects : Objects)
        → move_range size d s objects ≡ put_range size d s.offset (object_at objects s.object) objects }
{}

/// Of a valid operator with operands of their kinds, what it gives is of the type of its result; a valid update is
/// one of the type that it updates.
pub fn valid_operators_give_their_types()
    ensures unary { (op : UnaryOperator) (k result : Kind) → is_operand op k result ≡ true
        → (t : IntType) × (result ≡ OfScalar (Integer t))
        × ((w : ℕ) → fit t (unary_value op (integer_type (scalar_of k)) w)
        ≡ unary_value op (integer_type (scalar_of k)) w) }
    ensures binary { (op : BinaryOperator) (k l result : Kind) → are_operands (class_of op) k l result ≡ true
        → (t : IntType) × (result ≡ OfScalar (Integer t))
        × ((functions : ℕ) (x y : Value) → IsOfKind functions k x → IsOfKind functions l y
        → IfSome (binary_value op (integer_type (scalar_of k)) x.word y.word) (λ w. fit t w ≡ w)) }
    ensures update { (u : Update) (k : Scalar) (right : Kind) → is_update u (OfScalar k) right ≡ true → Updates u k }
{}
