//! Laws of the form in two levels, each as the contract of a function that does nothing.

ghost use Rattle.std.specs.Prelude.{◌≡◌, ◌+◌, ◌<◌, ◌≤◌, ℕ};
ghost use Rattle.addr_map.specs.declared.region.Region.TheVariants.{Shadow};
ghost use Rattle.addr_map.specs.Places.{MapSizes, AreMapped, spaces_begin, region_size};
ghost use Rattle.flat_code.specs.Memory.{Bytes};
ghost use Rattle.flat_code.specs.Routines.Metadata.{no_metadata, IsObjectWord};
ghost use Rattle.shadow_space.specs.TwoLevel.Tables.{two_level_entry, AreTablesGood};

/// Where the shadow space is zero, no table is taken, what holds whenever a routine is called does, and no word has
/// metadata.
pub fn zero_bytes_are_no_entries()
    ensures good { (s : MapSizes) (m : Bytes) → AreMapped s
        → ((a : ℕ) → spaces_begin ≤ a → a < spaces_begin + region_size s Shadow → m a ≡ 0) → AreTablesGood s m }
    ensures none { (s : MapSizes) (m : Bytes) → AreMapped s
        → ((a : ℕ) → spaces_begin ≤ a → a < spaces_begin + region_size s Shadow → m a ≡ 0)
        → (a : ℕ) → IsObjectWord s a → two_level_entry m a ≡ no_metadata }
{}
