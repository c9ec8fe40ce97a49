//! The laws.
ghost use Rattle.std.specs.Prelude.{◌≡◌, ◌≤◌, ℕ, List, Some, slice_get};
ghost use Rattle.addr_map.specs.Places.{AreMapped};
ghost use Rattle.sb_base.specs.Budgets.{BudgetSizes};
ghost use Rattle.obj_memory.specs.Objects.{object_at};
ghost use Rattle.obj_memory.specs.declared.value.Value.{Value};
ghost use Rattle.c_tree.specs.Tree.{Expression};
ghost use Rattle.c_tree.specs.Programs.{Program};
ghost use Rattle.c_const.specs.Integers.{constant_word};
ghost use Rattle.c_const.specs.Addresses.{Pointers, address_of};
ghost use Rattle.c_const.specs.Contents.{Contents};
ghost use Rattle.source_meaning.specs.Meaning.{initial_objects, placed_statics, setting_of, statics_end};
ghost use Rattle.source_meaning.specs.Places.{statics_first};
ghost use Rattle.source_meaning.specs.State.{Env, State};
ghost use Rattle.source_meaning.specs.Actions.{integer};
ghost use Rattle.source_meaning.specs.Expressions.{evaluate};
ghost use Rattle.source_meaning.specs.Constants.Finding.{Finds, PointTo};
ghost use Rattle.source_meaning.specs.Constants.Leaving.{AreConstant, filled_all};

/// An integer constant expression has its word in every state, whatever stands around it, and changes nothing but the
/// count of work (C99 6.6 paragraph 6).
pub fn integer_constants_have_their_value()
    ensures { (env : Env) (e : Expression) (w : ℕ) (s : State) → constant_word e ≡ Some w
        → Finds (evaluate env e) (integer w) s }
{}

/// An address constant has its pointer in every state in which the objects and functions stand so, and changes nothing
/// but the count of work (C99 6.6 paragraph 9).
pub fn address_constants_have_their_value()
    ensures { (env : Env) (ps : Pointers) (e : Expression) (v : Value) (s : State) → PointTo ps s.objects
        → address_of ps e ≡ Some v → Finds (evaluate env e) v s }
{}

/// What `c_const` says that a static object holds, its bytes and the tags of its words, is what the initializers of the
/// program leave in it before the program runs, where all are constant (C99 6.7.8 paragraph 4). So the bytes that an
/// image has for static objects are those of the meaning, and so are the tags of the pointers in them.
pub fn static_initializers_leave_their_contents()
    ensures { (p : Program) (budgets : BudgetSizes) (ps : Pointers) (cs : List Contents)
        → AreMapped (setting_of p budgets).sizes
        → PointTo ps (placed_statics (statics_first (setting_of p budgets)) p.statics 0)
        → AreConstant ps p.statics cs → (n : ℕ) (c : Contents) → slice_get cs n ≡ Some c
        → let o = object_at (initial_objects p (setting_of p budgets)) n in
        (o.bytes ≡ c.bytes) × (o.tags ≡ c.tags) }
{}

/// So the objects before the run are the static objects where they are placed, each with its contents, where they take
/// at most 4 MiB together.
pub fn static_objects_are_their_contents()
    ensures { (p : Program) (budgets : BudgetSizes) (ps : Pointers) (cs : List Contents)
        → statics_end p.statics 0 ≤ 0x400000
        → PointTo ps (placed_statics (statics_first (setting_of p budgets)) p.statics 0)
        → AreConstant ps p.statics cs → initial_objects p (setting_of p budgets)
        ≡ filled_all cs (placed_statics (statics_first (setting_of p budgets)) p.statics 0) }
{}
