//! Laws of the definitions, each as the contract of a function that does nothing: the objects that are kept stand for
//! all objects of a run, and the blocks in order for its live blocks.

ghost use Rattle.std.specs.Prelude.{◌≡◌, ℕ, ◌+◌, ◌%◌, true, false, length, List, [], Some, None};
ghost use Rattle.obj_memory.specs.declared.object.Storage.{Storage};
ghost use Rattle.obj_memory.specs.declared.value.Place.{Place};
ghost use Rattle.obj_memory.specs.declared.value.Scalar.{Scalar};
ghost use Rattle.obj_memory.specs.declared.value.Value.{Value};
ghost use Rattle.obj_memory.specs.declared.object.Storage.TheVariants.{Allocated};
ghost use Rattle.obj_memory.specs.Heap.{block_count, block_room, is_allocated, is_live_block, least_place};
ghost use Rattle.obj_memory.specs.Access.{bytes_at};
ghost use Rattle.obj_memory.specs.Judgement.{judge, named};
ghost use Rattle.obj_memory.specs.Objects.{ObjectState, Objects, object_at, pointer_to, with_dead, with_new};
ghost use Rattle.obj_memory.specs.Sound.{KeepsObjects};
ghost use Rattle.source_meaning.specs.Structures.{contents_of};
ghost use Rattle.interpreter_objects.specs.declared.blocks.Block.{Block};
ghost use Rattle.interpreter_objects.specs.Blocks.{AreInOrder, AreLive, block_of, gap_in, with_gap_filled, without};
ghost use Rattle.interpreter_objects.specs.Kept.{found, has_range, is_movable, is_puttable, is_there, kept};
ghost use Rattle.interpreter_objects.specs.Kept.{with_buried, with_bytes_put, with_cleared, with_moved, with_put};
ghost use Rattle.interpreter_objects.specs.Kept.{with_written};

/// Pointers are judged among the objects that are kept as among all, also those to dead objects, and a pointer to an
/// object is the same.
pub fn kept_objects_are_judged_alike()
    ensures judged { (size : ℕ) (v : Value) (objects : Objects) → judge size v (kept objects) ≡ judge size v objects }
    ensures named { (v : Value) (objects : Objects) → named v (kept objects) ≡ named v objects }
    ensures pointer { (n : ℕ) (objects : Objects) → pointer_to n (kept objects) ≡ pointer_to n objects }
{}

/// What is read where it is there is the same, and it is there in both or in neither.
pub fn kept_objects_hold_the_same()
    ensures there { (size : ℕ) (p : Place) (objects : Objects)
        → is_there size p (kept objects) ≡ is_there size p objects }
    ensures bytes { (size : ℕ) (p : Place) (objects : Objects) → is_there size p objects ≡ true
        → bytes_at size p (kept objects) ≡ bytes_at size p objects }
    ensures scalars { (k : Scalar) (p : Place) (objects : Objects) → found k p (kept objects) ≡ found k p objects }
    ensures contents { (size offset n : ℕ) (objects : Objects)
        → has_range offset size (object_at objects n) ≡ true
        → contents_of size offset (object_at (kept objects) n) ≡ contents_of size offset (object_at objects n) }
{}

/// What changes objects changes those that are kept to those that are kept then.
pub fn kept_objects_change_alike()
    ensures made { (storage : Storage) (address size : ℕ) (objects : Objects)
        → kept (with_new storage address size objects) ≡ with_new storage address size (kept objects) }
    ensures dead { (n : ℕ) (objects : Objects) → kept (with_dead n objects) ≡ with_buried n (kept objects) }
    ensures written { (k : Scalar) (v : Value) (p : Place) (objects : Objects)
        → with_written k v p (kept objects) ≡ kept (with_written k v p objects) }
    ensures bytes { (bytes : List ℕ) (p : Place) (objects : Objects)
        → with_bytes_put bytes p (kept objects) ≡ kept (with_bytes_put bytes p objects) }
    ensures movable { (size : ℕ) (d s : Place) (objects : Objects)
        → is_movable size d s (kept objects) ≡ is_movable size d s objects }
    ensures moved { (size : ℕ) (d s : Place) (objects : Objects)
        → with_moved size d s (kept objects) ≡ kept (with_moved size d s objects) }
    ensures puttable { (size : ℕ) (d : Place) (source : ℕ) (c : ObjectState) (objects : Objects)
        → is_puttable size d source c (kept objects) ≡ is_puttable size d source c objects }
    ensures put { (size : ℕ) (d : Place) (source : ℕ) (c : ObjectState) (objects : Objects)
        → with_put size d source c (kept objects) ≡ kept (with_put size d source c objects) }
    ensures cleared { (n : ℕ) (objects : Objects)
        → with_cleared n (kept objects) ≡ kept (with_cleared n objects) }
{}

/// What an object is stays, also once it is dead.
pub fn kept_objects_are_the_same()
    ensures storage { (objects : Objects) (n : ℕ)
        → (object_at (kept objects) n).storage ≡ (object_at objects n).storage }
    ensures address { (objects : Objects) (n : ℕ)
        → (object_at (kept objects) n).address ≡ (object_at objects n).address }
    ensures size { (objects : Objects) (n : ℕ) → (object_at (kept objects) n).size ≡ (object_at objects n).size }
    ensures life { (objects : Objects) (n : ℕ) → (object_at (kept objects) n).is_live ≡ (object_at objects n).is_live }
{}

/// There are as many live blocks, and a new one has the same place.
pub fn kept_objects_have_the_same_blocks()
    ensures count { (objects : Objects) → block_count (kept objects) ≡ block_count objects }
    ensures place { (first last size : ℕ) (objects : Objects)
        → least_place first last size (kept objects) ≡ least_place first last size objects }
{}

/// Of live blocks in order from the first address of the heap, a multiple of 16, to its last, the first gap is where a
/// new block is placed, and there are as many as live blocks.
pub fn live_blocks_tell_the_place()
    ensures place { (objects : Objects) (bs : List Block) (first last size : ℕ) → AreLive objects bs
        → AreInOrder first (last + 1) bs → first % 16 ≡ 0
        → gap_in first last (block_room size) bs ≡ least_place first last size objects }
    ensures count { (objects : Objects) (bs : List Block) → AreLive objects bs → length bs ≡ block_count objects }
{}

/// The blocks stay those that are live: where a block is placed in the gap, where one dies, and where objects are made,
/// die and change that are none.
pub fn live_blocks_stay_live()
    ensures none { AreLive [] [] }
    ensures made { (first last size p : ℕ) (objects : Objects) (bs : List Block)
        → gap_in first last (block_room size) bs ≡ Some p → AreLive objects bs
        → AreLive (with_new Allocated p size objects) (with_gap_filled first last (block_room size) bs) }
    ensures not_made { (first last room : ℕ) (bs : List Block) → gap_in first last room bs ≡ None
        → with_gap_filled first last room bs ≡ bs }
    ensures other { (storage : Storage) (address size : ℕ) (objects : Objects) (bs : List Block)
        → is_allocated storage ≡ false → AreLive objects bs → AreLive (with_new storage address size objects) bs }
    ensures dead { (objects : Objects) (bs : List Block) (n : ℕ) → is_live_block (object_at objects n) ≡ true
        → AreLive objects bs → AreLive (with_dead n objects) (without (block_of (object_at objects n)) bs) }
    ensures dead_other { (objects : Objects) (bs : List Block) (n : ℕ) → is_live_block (object_at objects n) ≡ false
        → AreLive objects bs → AreLive (with_dead n objects) bs }
    ensures changed { (old new : Objects) (bs : List Block) → KeepsObjects old new → AreLive old bs → AreLive new bs }
{}

/// And they stay in order.
pub fn live_blocks_stay_in_order()
    ensures placed { (first last size : ℕ) (bs : List Block) → AreInOrder first (last + 1) bs → first % 16 ≡ 0
        → AreInOrder first (last + 1) (with_gap_filled first last (block_room size) bs) }
    ensures removed { (x : Block) (low high : ℕ) (bs : List Block) → AreInOrder low high bs
        → AreInOrder low high (without x bs) }
{}
