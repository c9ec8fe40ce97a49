//! Laws of the definitions, each as the contract of a function that does nothing: layers above rest on
//! them.
ghost use Rattle.std.specs.Prelude.{◌≡◌, ◌≢◌, ℕ, ◌+◌, ◌-◌, ◌*◌, ◌/◌, ◌%◌, ◌^◌, ◌<◌};
ghost use Rattle.std.specs.Prelude.{◌≤◌, ◌⊎◌, List, [], length, take};
ghost use Rattle.std.specs.Prelude.{drop, get_or, replicate, true, false, ◌==◌, if◌then◌else◌, IfSome, Some, None};
ghost use Rattle.obj_memory.specs.declared.int_type.IntType.{IntType};
ghost use Rattle.obj_memory.specs.declared.operator.UnaryOperator.{UnaryOperator};
ghost use Rattle.obj_memory.specs.declared.operator.BinaryOperator.{BinaryOperator};
ghost use Rattle.obj_memory.specs.declared.object.Storage.{Storage};
ghost use Rattle.obj_memory.specs.declared.value.Tag.{Tag};
ghost use Rattle.obj_memory.specs.declared.value.Value.{Value};
ghost use Rattle.obj_memory.specs.declared.value.Scalar.{Scalar};
ghost use Rattle.obj_memory.specs.declared.value.Place.{Place};
ghost use Rattle.obj_memory.specs.declared.object.Storage.TheVariants.{Allocated};
ghost use Rattle.obj_memory.specs.declared.value.Tag.TheVariants.{Untagged};
ghost use Rattle.obj_memory.specs.declared.value.Scalar.TheVariants.{Integer, Pointer};
ghost use Rattle.obj_memory.specs.declared.judgement.Verdict.TheVariants.{Inside};
ghost use Rattle.obj_memory.specs.Integers.{fit, is_signed, size_of};
ghost use Rattle.obj_memory.specs.Operators.{shift_right, unary_value, binary_value};
ghost use Rattle.obj_memory.specs.Objects.{Objects, object_at, new_object, with_new, with_dead, with_zeroed};
ghost use Rattle.obj_memory.specs.Objects.{pointer_to};
ghost use Rattle.obj_memory.specs.Judgement.{judge, named, moved, narrowed};
ghost use Rattle.obj_memory.specs.Access.{scalar_size, overwrite, read_value, write_value, kept_value, write_bytes};
ghost use Rattle.obj_memory.specs.Access.{bytes_at, tag_at, tag_of, moved_tags, move_range};
ghost use Rattle.byteorder.specs.Endian.{little_bytes};
ghost use Rattle.obj_memory.specs.Heap.{is_allocated, is_live_block, block_count, block_room, has_room, least_place};
ghost use Rattle.obj_memory.specs.Sound.{IsSound, IsSoundTag, IsPlace, IsAllowed, IsPartOf, KeepsObjects, Continues};
ghost use Rattle.obj_memory.specs.Sound.{AreApart, AreBeside, AreDisjoint, DoNotMeet, HasRoom, IsBlockPlace};

/// A conversion reads no more than the bytes of its type and gives a word, and a second one changes
/// nothing.
pub fn conversions_give_words()
    ensures word { (t : IntType) (x : ℕ) → fit t (x % 2 ^ 64) ≡ fit t x }
    ensures bytes { (t : IntType) (x : ℕ) → fit t (x % 2 ^ (8 * size_of t)) ≡ fit t x }
    ensures twice { (t : IntType) (x : ℕ) → fit t (fit t x) ≡ fit t x }
    ensures below { (t : IntType) (x : ℕ) → fit t x < 2 ^ 64 }
{}

/// Operators give words at words.
pub fn operators_give_words()
    ensures unary { (op : UnaryOperator) (t : IntType) (x : ℕ) → unary_value op t x < 2 ^ 64 }
    ensures binary { (op : BinaryOperator) (t : IntType) (x y : ℕ) → x < 2 ^ 64 → y < 2 ^ 64
        → IfSome (binary_value op t x y) (λ z. z < 2 ^ 64) }
{}

/// What an operator gives at words of a type is a word of that type, so bitwise operators and shifts to the
/// right, which convert nothing, need no conversion. The amount of a shift may be of any type.
pub fn operators_stay_in_their_type()
    ensures value { (op : BinaryOperator) (t : IntType) (x y : ℕ) → fit t x ≡ x → fit t y ≡ y
        → IfSome (binary_value op t x y) (λ z. fit t z ≡ z) }
    ensures shift { (t : IntType) (x by : ℕ) → fit t x ≡ x
        → fit t (shift_right (is_signed t) x by) ≡ shift_right (is_signed t) x by }
{}

/// At the place of a write its value is read, as the scalar there keeps it, and what was read at a
/// place apart from it still is.
pub fn what_was_written_is_read()
    ensures there { (functions : ℕ) (s : Scalar) (v : Value) (p : Place) (objects : Objects) → IsSound functions objects
        → IsPlace objects p (scalar_size s) → v.word < 2 ^ 64
        → read_value s p (write_value s v p objects) ≡ kept_value s v p }
    ensures apart { (functions : ℕ) (s : Scalar) (v : Value) (p : Place) (r : Scalar) (q : Place) (objects : Objects)
        → IsSound functions objects → IsPlace objects p (scalar_size s) → AreApart p (scalar_size s) q (scalar_size r)
        → read_value r q (write_value s v p objects) ≡ read_value r q objects }
{}

/// A write puts the bytes of its value into the object of its place, and leaves every other object.
pub fn writes_change_one_object()
    ensures bytes { (s : Scalar) (v : Value) (p : Place) (objects : Objects) → p.object < length objects
        → (object_at (write_value s v p objects) p.object).bytes
        ≡ overwrite p.offset (little_bytes (scalar_size s) v.word) (object_at objects p.object).bytes }
    ensures other { (s : Scalar) (v : Value) (p : Place) (n : ℕ) (objects : Objects) → n ≢ p.object
        → object_at (write_value s v p objects) n ≡ object_at objects n }
{}

/// A write of a pointer at a multiple of 8 sets the tag of the word there, and every other tag
/// stays at every write.
pub fn writes_change_one_tag()
    ensures pointer { (functions : ℕ) (v : Value) (p : Place) (objects : Objects) → IsSound functions objects
        → IsPlace objects p 8
        → p.offset % 8 ≡ 0 → tag_of p.object (p.offset / 8) (write_value Pointer v p objects) ≡ v.tag }
    ensures other { (v : Value) (p : Place) (n word : ℕ) (objects : Objects) → (n ≢ p.object) ⊎ (word ≢ p.offset / 8)
        → tag_of n word (write_value Pointer v p objects) ≡ tag_of n word objects }
    ensures misaligned { (v : Value) (p : Place) (n word : ℕ) (objects : Objects) → p.offset % 8 ≢ 0
        → tag_of n word (write_value Pointer v p objects) ≡ tag_of n word objects }
    ensures integer { (t : IntType) (v : Value) (p : Place) (n word : ℕ) (objects : Objects)
        → tag_of n word (write_value (Integer t) v p objects) ≡ tag_of n word objects }
{}

/// The same of bytes, which leave every tag.
pub fn written_bytes_are_read()
    ensures there { (functions : ℕ) (new : List ℕ) (p : Place) (objects : Objects) → IsSound functions objects
        → IsPlace objects p (length new)
        → bytes_at (length new) p (write_bytes new p objects) ≡ new }
    ensures apart { (functions : ℕ) (new : List ℕ) (p q : Place) (count : ℕ) (objects : Objects)
        → IsSound functions objects
        → IsPlace objects p (length new) → AreApart p (length new) q count
        → bytes_at count q (write_bytes new p objects) ≡ bytes_at count q objects }
    ensures tags { (new : List ℕ) (p q : Place) (objects : Objects)
        → tag_at q (write_bytes new p objects) ≡ tag_at q objects }
    ensures object { (new : List ℕ) (p : Place) (objects : Objects) → p.object < length objects
        → object_at (write_bytes new p objects) p.object ≡ record (object_at objects p.object) {
          bytes = overwrite p.offset new (object_at objects p.object).bytes;
        } }
    ensures other { (new : List ℕ) (p : Place) (n : ℕ) (objects : Objects) → n ≢ p.object
        → object_at (write_bytes new p objects) n ≡ object_at objects n }
{}

/// What is read is a word, with a tag that names an object and reaches nothing outside it.
pub fn what_is_read_is_sound()
    ensures word { (functions : ℕ) (s : Scalar) (p : Place) (objects : Objects) → IsSound functions objects
        → IsPlace objects p (scalar_size s)
        → (read_value s p objects).word < 2 ^ 64 }
    ensures tag { (functions : ℕ) (s : Scalar) (p : Place) (objects : Objects) → IsSound functions objects
        → IsSoundTag functions objects (read_value s p objects).tag }
{}

/// A moved range has the bytes of its source as they were before, and those beside it stay.
pub fn moved_bytes_are_read()
    ensures there { (functions : ℕ) (size : ℕ) (d s : Place) (objects : Objects) → IsSound functions objects
        → IsPlace objects d size
        → IsPlace objects s size → bytes_at size d (move_range size d s objects) ≡ bytes_at size s objects }
    ensures beside { (functions : ℕ) (size : ℕ) (d s : Place) (objects : Objects) (start count : ℕ)
        → IsSound functions objects
        → IsPlace objects d size → IsPlace objects s size → DoNotMeet start count d.offset size
        → take count (drop start (object_at (move_range size d s objects) d.object).bytes)
        ≡ take count (drop start (object_at objects d.object).bytes) }
    ensures object { (size : ℕ) (d s : Place) (objects : Objects) → d.object < length objects
        → object_at (move_range size d s objects) d.object ≡ record (object_at objects d.object) {
          bytes = overwrite d.offset (bytes_at size s objects) (object_at objects d.object).bytes;
          tags = if d.offset % 8 == s.offset % 8
              then moved_tags size d.offset s.offset (object_at objects s.object).tags 0
              (object_at objects d.object).tags
              else (object_at objects d.object).tags;
        } }
    ensures other { (size : ℕ) (d s : Place) (n : ℕ) (objects : Objects) → n ≢ d.object
        → object_at (move_range size d s objects) n ≡ object_at objects n }
{}

/// A word that lies in a moved range has the tag of its source, where both ranges begin at offsets
/// that are equal modulo 8, and every other tag stays.
pub fn moved_words_have_their_tags()
    ensures moved { (functions : ℕ) (size : ℕ) (d s : Place) (word : ℕ) (objects : Objects) → IsSound functions objects
        → IsPlace objects d size
        → d.offset % 8 ≡ s.offset % 8 → d.offset ≤ 8 * word → 8 * word + 8 ≤ d.offset + size
        → tag_of d.object word (move_range size d s objects) ≡ tag_of s.object
        ((8 * word - d.offset + s.offset) / 8) objects }
    ensures kept { (size : ℕ) (d s : Place) (word : ℕ) (objects : Objects) → d.object < length objects
        → (d.offset % 8 ≢ s.offset % 8) ⊎ ((8 * word < d.offset) ⊎ (d.offset + size < 8 * word + 8))
        → tag_of d.object word (move_range size d s objects) ≡ tag_of d.object word objects }
{}

/// A new object has the next number and reads as zero, and the others stay.
pub fn new_object_stands_last()
    ensures last { (storage : Storage) (address size : ℕ) (objects : Objects)
        → object_at (with_new storage address size objects) (length objects) ≡ new_object storage address size }
    ensures zero { (storage : Storage) (address size : ℕ) (s : Scalar) (p : Place) (objects : Objects)
        → p.object ≡ length objects
        → read_value s p (with_new storage address size objects) ≡ record { word = 0; tag = Untagged } }
    ensures other { (storage : Storage) (address size n : ℕ) (objects : Objects) → n < length objects
        → object_at (with_new storage address size objects) n ≡ object_at objects n }
{}

/// An object that was set to zero reads as zero, and the others stay.
pub fn zeroed_object_reads_zero()
    ensures zero { (s : Scalar) (p : Place) (objects : Objects) → p.object < length objects
        → read_value s p (with_zeroed p.object objects) ≡ record { word = 0; tag = Untagged } }
    ensures object { (n : ℕ) (objects : Objects) → n < length objects
        → object_at (with_zeroed n objects) n ≡ record (object_at objects n) {
          bytes = replicate (object_at objects n).size 0;
          tags = replicate ((object_at objects n).size / 8) Untagged;
        } }
    ensures other { (n m : ℕ) (objects : Objects) → m ≢ n → object_at (with_zeroed n objects) m ≡ object_at objects m }
{}

/// An object that died is dead, and the others stay.
pub fn dead_object_is_dead()
    ensures dead { (n : ℕ) (objects : Objects) → (object_at (with_dead n objects) n).is_live ≡ false }
    ensures object { (n : ℕ) (objects : Objects) → n < length objects
        → object_at (with_dead n objects) n ≡ record (object_at objects n) { is_live = false } }
    ensures other { (n m : ℕ) (objects : Objects) → m ≢ n → object_at (with_dead n objects) m ≡ object_at objects m }
{}

/// A write leaves the objects, but for bytes and tags.
pub fn writes_keep_objects()
    ensures bytes { (new : List ℕ) (p : Place) (objects : Objects) → KeepsObjects objects (write_bytes new p objects) }
    ensures value { (s : Scalar) (v : Value) (p : Place) (objects : Objects)
        → KeepsObjects objects (write_value s v p objects) }
    ensures moved { (size : ℕ) (d s : Place) (objects : Objects) → KeepsObjects objects (move_range size d s objects) }
    ensures zeroed { (n : ℕ) (objects : Objects) → KeepsObjects objects (with_zeroed n objects) }
{}

/// Objects that differ in bytes and tags alone are judged alike, and leave the same room for
/// blocks.
pub fn kept_objects_are_judged_alike()
    ensures judge { (old new : Objects) → KeepsObjects old new → (size : ℕ) (v : Value)
        → judge size v new ≡ judge size v old }
    ensures named { (old new : Objects) → KeepsObjects old new → (v : Value) → named v new ≡ named v old }
    ensures count { (old new : Objects) → KeepsObjects old new → block_count new ≡ block_count old }
    ensures place { (first last size : ℕ) (old new : Objects) → KeepsObjects old new
        → least_place first last size new ≡ least_place first last size old }
    ensures disjoint { (old new : Objects) → KeepsObjects old new → AreDisjoint old → AreDisjoint new }
{}

/// Every action leaves each object where it is, and dead if it was.
pub fn the_dead_stay_dead()
    ensures new { (storage : Storage) (address size : ℕ) (objects : Objects)
        → Continues objects (with_new storage address size objects) }
    ensures dead { (n : ℕ) (objects : Objects) → Continues objects (with_dead n objects) }
    ensures zeroed { (n : ℕ) (objects : Objects) → Continues objects (with_zeroed n objects) }
    ensures bytes { (new : List ℕ) (p : Place) (objects : Objects) → Continues objects (write_bytes new p objects) }
    ensures value { (s : Scalar) (v : Value) (p : Place) (objects : Objects)
        → Continues objects (write_value s v p objects) }
    ensures moved { (size : ℕ) (d s : Place) (objects : Objects) → Continues objects (move_range size d s objects) }
{}

/// So does one action after another, and a tag that was sound stays so.
pub fn actions_in_turn_continue()
    ensures none { (objects : Objects) → Continues objects objects }
    ensures more { (a b c : Objects) → Continues a b → Continues b c → Continues a c }
    ensures tag { (functions : ℕ) (old new : Objects) → Continues old new → (t : Tag) → IsSoundTag functions old t
        → IsSoundTag functions new t }
{}

/// Objects stay sound under every action.
pub fn actions_keep_objects_sound()
    ensures none { (functions : ℕ) → IsSound functions [] }
    ensures new { (functions : ℕ) (storage : Storage) (address size : ℕ) (objects : Objects)
        → IsSound functions objects → address % 16 ≡ 0
        → IsSound functions (with_new storage address size objects) }
    ensures dead { (functions : ℕ) (n : ℕ) (objects : Objects) → IsSound functions objects
        → IsSound functions (with_dead n objects) }
    ensures zeroed { (functions : ℕ) (n : ℕ) (objects : Objects) → IsSound functions objects
        → IsSound functions (with_zeroed n objects) }
    ensures bytes { (functions : ℕ) (new : List ℕ) (p : Place) (objects : Objects) → IsSound functions objects
        → IsPlace objects p (length new)
        → ((k : ℕ) → get_or new k 0 < 256) → IsSound functions (write_bytes new p objects) }
    ensures value { (functions : ℕ) (s : Scalar) (v : Value) (p : Place) (objects : Objects) → IsSound functions objects
        → IsPlace objects p (scalar_size s) → IsSoundTag functions objects v.tag
        → IsSound functions (write_value s v p objects) }
    ensures moved { (functions : ℕ) (size : ℕ) (d s : Place) (objects : Objects) → IsSound functions objects
        → IsPlace objects d size
        → IsPlace objects s size → IsSound functions (move_range size d s objects) }
{}

/// An access that is judged to be inside is of bytes of a live object, those at the pointer's
/// address.
pub fn judged_access_is_of_a_live_object()
    ensures { (functions : ℕ) (objects : Objects) (size : ℕ) (v : Value) (p : Place)
        → IsSoundTag functions objects v.tag
        → judge size v objects ≡ Inside p → IsAllowed objects v size p }
{}

/// A pointer to an object, to a member and to another byte reaches nothing outside its object, and
/// a pointer to a member no more than the one it was made from.
pub fn derived_pointers_are_sound()
    ensures whole { (functions : ℕ) (n : ℕ) (objects : Objects) → n < length objects
        → (object_at objects n).address + (object_at objects n).size < 2 ^ 64
        → IsSoundTag functions objects (pointer_to n objects).tag }
    ensures moved { (functions : ℕ) (objects : Objects) (offset : ℕ) (v : Value) → IsSoundTag functions objects v.tag
        → IsSoundTag functions objects (moved offset v).tag }
    ensures narrowed { (functions : ℕ) (objects : Objects) (offset size : ℕ) (v : Value)
        → IsSoundTag functions objects v.tag
        → IsSoundTag functions objects (narrowed offset size v).tag }
    ensures part { (offset size : ℕ) (v : Value) → IsPartOf (narrowed offset size v).tag v.tag }
{}

/// The place of a block lies in the heap, clear of every live block, and no multiple of 16 below it
/// would do; just such a place is found, and where there is none, none would do.
pub fn block_place_is_the_least()
    ensures found { (first last size : ℕ) (objects : Objects) (place : ℕ)
        → least_place first last size objects ≡ Some place → IsBlockPlace first last size objects place }
    ensures least { (first last size : ℕ) (objects : Objects) (place : ℕ) → IsBlockPlace first last size objects place
        → least_place first last size objects ≡ Some place }
    ensures room { (last room : ℕ) (objects : Objects) (start : ℕ) → has_room last room objects start ≡ true
        → HasRoom last room objects start }
    ensures has_room { (last room : ℕ) (objects : Objects) (start : ℕ) → HasRoom last room objects start
        → has_room last room objects start ≡ true }
    ensures none { (first last size : ℕ) (objects : Objects) → least_place first last size objects ≡ None → (i : ℕ)
        → has_room last (block_room size) objects (first + 16 * i) ≡ false }
{}

/// A block takes as many bytes as it has or more, at least 16 and a multiple of 16.
pub fn block_has_its_room()
    ensures holds { (size : ℕ) → size ≤ block_room size }
    ensures some { (size : ℕ) → 16 ≤ block_room size }
    ensures whole { (size : ℕ) → block_room size % 16 ≡ 0 }
{}

/// The count of live blocks rises by one where an allocated object is made, and falls by one where
/// one dies.
pub fn blocks_are_counted()
    ensures made { (address size : ℕ) (objects : Objects)
        → block_count (with_new Allocated address size objects) ≡ block_count objects + 1 }
    ensures other { (storage : Storage) (address size : ℕ) (objects : Objects) → is_allocated storage ≡ false
        → block_count (with_new storage address size objects) ≡ block_count objects }
    ensures dead { (n : ℕ) (objects : Objects) → is_live_block (object_at objects n) ≡ true
        → block_count (with_dead n objects) + 1 ≡ block_count objects }
    ensures dead_other { (n : ℕ) (objects : Objects) → is_live_block (object_at objects n) ≡ false
        → block_count (with_dead n objects) ≡ block_count objects }
{}

/// A word begins at an offset just where its address is a multiple of 8.
pub fn words_are_aligned()
    ensures { (functions : ℕ) (objects : Objects) (p : Place) → IsSound functions objects
        → ((object_at objects p.object).address + p.offset) % 8 ≡ p.offset % 8 }
{}

/// Live objects that share no address that they take stay so when one dies, and when one is made that meets none
/// of them. They share none of their bytes then.
pub fn live_objects_stay_disjoint()
    ensures dead { (n : ℕ) (objects : Objects) → AreDisjoint objects → AreDisjoint (with_dead n objects) }
    ensures new { (storage : Storage) (address size : ℕ) (objects : Objects) → AreDisjoint objects → ((n : ℕ)
        → (object_at objects n).is_live ≡ true
        → AreBeside (new_object storage address size) (object_at objects n))
        → AreDisjoint (with_new storage address size objects) }
    ensures bytes { (objects : Objects) → AreDisjoint objects → (m n : ℕ) → m ≢ n
        → (object_at objects m).is_live ≡ true → (object_at objects n).is_live ≡ true
        → DoNotMeet (object_at objects m).address (object_at objects m).size (object_at objects n).address
        (object_at objects n).size }
{}
