//! Laws of the table of live blocks, each as the contract of a function that does nothing: crates above rest on them.

ghost use Rattle.std.specs.Prelude.{◌≡◌, ◌+◌, ◌*◌, ◌%◌, ℕ, List, Option, None, if◌then◌else◌, nat_lt, length, []};
ghost use Rattle.addr_map.specs.Places.{MapSizes, AreMapped};
ghost use Rattle.obj_memory.specs.Objects.{Objects};
ghost use Rattle.obj_memory.specs.Heap.{block_count, least_place};
ghost use Rattle.obj_memory.specs.Sound.{AreDisjoint};
ghost use Rattle.flat_code.specs.Memory.{Bytes, load};
ghost use Rattle.flat_code.specs.Routines.Objects.StandsFor.{BlockRow, Keys, IsTable};
ghost use Rattle.heap_space.specs.Rows.{AreInOrder, row_place};
ghost use Rattle.heap_space.specs.Table.{block_rows, total_cell, IsTableGood, KeepsTable};

/// Where the rows are those of the live blocks, their number is that of the live blocks, and the place of a block by
/// the rows is the place by the objects (C99 7.20.3.3).
pub fn the_place_by_rows_is_that_by_objects()
    ensures count { (k : Keys) (objects : Objects) (rows : List BlockRow) → IsTable k objects rows
        → AreDisjoint objects → length rows ≡ block_count objects }
    ensures place { (k : Keys) (objects : Objects) (rows : List BlockRow) (first last blocks size : ℕ)
        → IsTable k objects rows → AreDisjoint objects → AreInOrder first (last + 1) rows → first % 16 ≡ 0
        → row_place first (last + 1) blocks size rows
        ≡ (if nat_lt (block_count objects) blocks then least_place first last size objects else None) }
{}

/// The rows depend on the bytes of the table alone, and so does what holds of it.
pub fn the_table_is_local()
    ensures rows { (s : MapSizes) (m m' : Bytes) → AreMapped s → KeepsTable s m m' → IsTableGood s m
        → block_rows s m' ≡ block_rows s m }
    ensures good { (s : MapSizes) (m m' : Bytes) → AreMapped s → KeepsTable s m m' → IsTableGood s m
        → IsTableGood s m' }
{}

/// Where the number of live blocks is 0, as when a run begins, there is no row.
pub fn the_table_begins_good()
    ensures good { (s : MapSizes) (m : Bytes) → AreMapped s → load 8 m (total_cell s) ≡ 0 → IsTableGood s m }
    ensures rows { (s : MapSizes) (m : Bytes) → load 8 m (total_cell s) ≡ 0 → block_rows s m ≡ [] }
{}
