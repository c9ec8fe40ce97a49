//! What a form of the shadow space gives.

ghost use Rattle.std.specs.Prelude.{◌≡◌, ℕ, ◌+◌, ◌≤◌, ◌^◌, IfOk, [], ◌∷◌, length};
ghost use Rattle.addr_map.specs.Places.{MapSizes, AreMapped};
ghost use Rattle.flat_code.specs.Memory.{Bytes};
ghost use Rattle.flat_code.specs.Routines.Registers.{AreDistinct, AreBelow};
ghost use Rattle.flat_code.specs.Routines.Metadata.{View, IsObjectWord, KeepsShadow, entry_registers};
ghost use Rattle.flat_code.specs.Routines.InputOutput.{IsWithoutInputOutput};
ghost use Rattle.flat_code.specs.Routines.Shape.{HasShape};
ghost use Rattle.shadow_space.specs.Form.{IsReadRoutine, IsWriteRoutine, IsClearRoutine};
ghost use Rattle.shadow_space.specs.Form.{EntryCode, ReadsEntries, WritesEntries, HasEntryShape};
ghost use Rattle.shadow_space.specs.Start.{AreStartEntries, StartsShadow};

use crate::start::StartEntry;
use addr_map::AddrMap;
use flat_code::{Entry, FlatInstruction};
use std::alloc::{AllocError, Global};

/// A form of the shadow space. The addresses handed to routines are multiples of 8, and the words there lie in object
/// space. A routine may write the registers from `scratch` on, and those that it gives a result in; it touches the
/// shadow space alone, takes no input, shows nothing and does not end the run. It names no register from the sixth
/// behind `scratch` on, and is at most 32 instructions. The only refusal is that memory fails.
pub trait ShadowForm {
    /// The entry of each word, by the memory.
    ghost entry: { View };

    /// What holds of the memory whenever a routine is called.
    ghost IsGood: { MapSizes → Bytes → Type 0 };

    /// The instructions that read an entry: compiled code has them where it loads a pointer.
    ghost entry_read: { EntryCode };

    /// The instructions that write an entry.
    ghost entry_write: { EntryCode };

    /// Reads the entry of the word at the address in `at` into the registers of `into`, without input and output.
    fn read_entry(
        alloc: Global,
        map: &AddrMap,
        at: u32,
        into: Entry,
        scratch: u32,
    ) -> Result<Vec<FlatInstruction>, AllocError>
        requires map { AreMapped map.now }
        requires distinct { AreDistinct (at ∷ entry_registers into) }
        requires below { AreBelow scratch (at ∷ entry_registers into) }
        requires room { scratch ≤ 2 ^ 31 }
        ensures code { IfOk result (λ r. r.items ≡ entry_read map.now at into scratch) }
        ensures does { IfOk result (λ r. IsReadRoutine map.now entry (IsGood map.now) at into scratch r.items) }
        ensures computes { IfOk result (λ r. IsWithoutInputOutput r.items) }
        ensures shape { IfOk result (λ r. HasShape r.items 32 (scratch + 6)) }
        ensures short { IfOk result (λ r. length r.items ≤ 32) };

    /// Writes the values of the registers of `from` as the entry of the word at the address in `at`, without input and
    /// output.
    fn write_entry(
        alloc: Global,
        map: &AddrMap,
        at: u32,
        from: Entry,
        scratch: u32,
    ) -> Result<Vec<FlatInstruction>, AllocError>
        requires map { AreMapped map.now }
        requires below { AreBelow scratch (at ∷ entry_registers from) }
        requires room { scratch ≤ 2 ^ 31 }
        ensures code { IfOk result (λ r. r.items ≡ entry_write map.now at from scratch) }
        ensures does { IfOk result (λ r. IsWriteRoutine map.now entry (IsGood map.now) at from scratch r.items) }
        ensures computes { IfOk result (λ r. IsWithoutInputOutput r.items) }
        ensures shape { IfOk result (λ r. HasShape r.items 32 (scratch + 6)) }
        ensures short { IfOk result (λ r. length r.items ≤ 32) };

    /// Makes the entries of the words from the address in `first` on, as many bytes as `bytes` holds, those of words
    /// without a pointer, without input and output.
    fn clear(
        alloc: Global,
        map: &AddrMap,
        first: u32,
        bytes: u32,
        scratch: u32,
    ) -> Result<Vec<FlatInstruction>, AllocError>
        requires map { AreMapped map.now }
        requires below { AreBelow scratch (first ∷ bytes ∷ []) }
        requires room { scratch ≤ 2 ^ 31 }
        ensures does { IfOk result (λ r. IsClearRoutine map.now entry (IsGood map.now) first bytes scratch r.items) }
        ensures computes { IfOk result (λ r. IsWithoutInputOutput r.items) }
        ensures shape { IfOk result (λ r. HasShape r.items 32 (scratch + 6)) }
        ensures short { IfOk result (λ r. length r.items ≤ 32) };

    /// Entries depend on the bytes of the shadow space alone, and so does what holds of the memory.
    fn entries_are_local()
        ensures { (map : MapSizes) (m m' : Bytes) → AreMapped map → KeepsShadow map m m' → IsGood map m
            → IsGood map m' × ((a : ℕ) → IsObjectWord map a → entry m' a ≡ entry m a) };

    /// The instructions that read and write an entry do so over whatever registers meet the premises of the two calls:
    /// at most 16 and 22, which name no register from the third and the fifth behind `scratch` on.
    fn entries_are_read_and_written()
        ensures reads { ReadsEntries entry IsGood entry_read }
        ensures writes { WritesEntries entry IsGood entry_write }
        ensures read_shape { HasEntryShape entry_read 16 3 }
        ensures write_shape { HasEntryShape entry_write 22 5 };

    /// The bytes with which the region of the shadow space begins, where all behind them is zero: then each of these
    /// words of static objects reads as its entry, every other word as one without a pointer, and what holds whenever
    /// a routine is called does. At most 32 MiB; the only refusal is that memory fails.
    fn start(alloc: Global, map: &AddrMap, entries: &[StartEntry]) -> Result<Vec<u8>, AllocError>
        requires map { AreMapped map.now }
        requires entries { AreStartEntries map.now entries.now }
        ensures does { IfOk result (λ r. StartsShadow map.now entry (IsGood map.now) entries.now r.items) }
        ensures short { IfOk result (λ r. length r.items ≤ 2 ^ 25) };
}
