//! Laws of the map, each as the contract of a function that does nothing: layers above rest on them.
ghost use Rattle.std.specs.Prelude.{◌≡◌, ◌+◌, ◌<◌, ◌≤◌, ◌%◌, ◌^◌, ℕ};
ghost use Rattle.addr_map.specs.declared.region.Region.{Region};
ghost use Rattle.addr_map.specs.declared.region.Region.TheVariants.{Code, Globals, Heap};
ghost use Rattle.addr_map.specs.Places.{MapSizes, AreMapped, code_begin, code_size, objects_begin, spaces_begin};
ghost use Rattle.addr_map.specs.Places.{order_of, region_start, region_end, function_address};

use crate::map::AddrMap;

/// Regions do not overlap: each ends where a later one begins, or before. All are in whole pages and end
/// below 0x60000000.
pub fn regions_stand_in_order()
    ensures apart { (m : MapSizes) → AreMapped m → (r s : Region) → order_of r < order_of s
        → region_end m r ≤ region_start m s }
    ensures low { (m : MapSizes) → AreMapped m → (r : Region) → region_end m r < 0x60000000 }
    ensures pages { (m : MapSizes) → AreMapped m → (r : Region) → region_start m r % 4096 ≡ 0 }
    ensures whole { (m : MapSizes) → AreMapped m → (r : Region) → region_end m r % 4096 ≡ 0 }
{}

/// The static, automatic and allocated objects stand in object space, and nothing else does: the other regions lie
/// before or behind it. Compiled code has its fixed addresses.
pub fn objects_stand_in_object_space()
    ensures objects { (m : MapSizes) → AreMapped m → (r : Region) → order_of Globals ≤ order_of r
        → order_of r ≤ order_of Heap
        → (objects_begin ≤ region_start m r) × (region_end m r ≤ spaces_begin) }
    ensures before { (m : MapSizes) → AreMapped m → (r : Region) → order_of r < order_of Globals
        → region_end m r ≤ objects_begin }
    ensures behind { (m : MapSizes) → AreMapped m → (r : Region) → order_of Heap < order_of r
        → spaces_begin ≤ region_start m r }
    ensures code { (m : MapSizes) → (region_start m Code ≡ code_begin) × (region_end m Code ≡ code_begin + code_size) }
{}

/// The jump table of the functions stand in their region below the runtime, one for each function.
pub fn function_addresses_differ()
    ensures first { (k : ℕ) → 0x10000 ≤ function_address k }
    ensures last { (k : ℕ) → k ≤ 4096 → function_address k ≤ 0x20000 }
    ensures apart { (j k : ℕ) → function_address j ≡ function_address k → j ≡ k }
{}

/// The sizes of a map are in their ranges, as the other laws want them.
pub fn sizes_are_in_range(map: &AddrMap)
    ensures { AreMapped map.now }
{
    // What each of these reads ensures is that its number is in its range.
    let budgets = map.budgets();
    let _ = map.global_bytes();
    let _ = budgets.heap();
    let _ = budgets.stack();
    let _ = budgets.calls();
    let _ = budgets.blocks();
    let _ = budgets.keys();
}
