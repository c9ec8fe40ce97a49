//! The map from regions to addresses.

ghost use Rattle.std.specs.Prelude.{◌≡◌, ℕ, ◌+◌, ◌*◌, ◌/◌, ◌-◌, ◌≤◌, ◌<◌, ◌^◌};
ghost use Rattle.addr_map.specs.Places.{spaces_begin, whole_pages, function_address};

use crate::region::Region;
use sb_base::Budgets;
use std::marker::Model;

/// The largest number of bytes of `Globals`.
pub const MAX_GLOBAL_BYTES: u64 = 0x40_0000;

const PAGE: u64 = 4096;

// Where the jump table, compiled code, the objects and the runtime's spaces begin, and the bytes of compiled code.
const FUNCTIONS: u64 = 0x1_0000;

const CODE: u64 = 0x10_0000;

const CODE_SIZE: u64 = 0x80_0000;

const OBJECTS: u64 = 0x1000_0000;

const SPACES: u64 = 0x4000_0000;

/// Why there is no map: the objects of static storage duration take more than 4 MiB, this many bytes.
#[derive(Clone, Copy, Debug, PartialEq, Eq)]
pub struct TooLarge(pub u64);

/// The regions of a program with some budgets and so many bytes of static objects.
#[derive(Clone, Copy, Debug, PartialEq, Eq)]
pub struct AddrMap {
    budgets: Budgets,
    global_bytes: u64,
}

impl Model for AddrMap {
    ghost use Rattle.addr_map.specs.Places.{MapSizes};
    ghost use Rattle.std.specs.Prelude.{◌≤◌};

    ghost Value = { MapSizes };

    ghost view = { λ m. record { budgets = m.budgets; global_bytes = m.global_bytes } };

    ghost invariant = { λ m. m.global_bytes ≤ 0x400000 };

    ghost inverse = { λ s. record { budgets = s.budgets; global_bytes = s.global_bytes } };
}

impl AddrMap {
    ghost use Rattle.addr_map.specs.Places.{mapped, region_size, region_start, region_last, lock_count, behind_locks};

    /// The map for these budgets and so many bytes of static objects, which need not be whole pages.
    /// `TooLarge` exactly above 4 MiB.
    #[tactic(auto, unfolding(crate::specs::Places::mapped))]
    pub fn new(budgets: &Budgets, global_bytes: u64) -> Result<AddrMap, TooLarge>
        ensures { result ≡ mapped budgets.now global_bytes }
    {
        if global_bytes > MAX_GLOBAL_BYTES {
            return Err(TooLarge(global_bytes));
        }
        Ok(AddrMap {
            budgets: *budgets,
            global_bytes,
        })
    }

    /// The budgets.
    pub fn budgets(&self) -> Budgets
        ensures { result ≡ self.now.budgets }
    {
        self.budgets
    }

    /// The bytes of the static objects, as given.
    pub fn global_bytes(&self) -> u64
        ensures value { result ≡ self.now.global_bytes }
        ensures small { result ≤ 0x400000 }
    {
        self.global_bytes
    }

    /// The first and the last address of a region. The last of an empty region is one below its first.
    pub fn region(&self, which: Region) -> (u64, u64)
        ensures { result ≡ (region_start self.now which, region_last self.now which) }
    {
        let start = self.start(which);
        (start, start + self.size(which) - 1)
    }

    // The first address of a region.
    #[tactic(auto, unfolding(crate::specs::Places::region_start))]
    fn start(&self, which: Region) -> u64
        ensures value { result ≡ region_start self.now which }
        ensures some { 0 < result }
        ensures small { result < 2 ^ 31 }
    {
        match which {
            Region::JumpTable => FUNCTIONS,
            Region::Code => CODE,
            Region::Globals => OBJECTS,
            Region::Stack => OBJECTS + self.size(Region::Globals),
            Region::Heap => OBJECTS + self.size(Region::Globals) + self.size(Region::Stack),
            Region::Shadow => SPACES,
            Region::Locks => SPACES + self.size(Region::Shadow),
            Region::FreeLocks => SPACES + self.size(Region::Shadow) + self.size(Region::Locks),
            Region::Blocks => self.behind_locks(),
            Region::StructureValues => self.behind_blocks(),
            Region::Cells => self.behind_blocks() + self.size(Region::StructureValues),
            Region::Arguments => {
                self.behind_blocks() + self.size(Region::StructureValues) + self.size(Region::Cells)
            }
            Region::Calls => self.behind_arguments(),
            Region::RuntimeCalls => self.behind_arguments() + self.size(Region::Calls),
        }
    }

    // The first address behind the lock words.
    fn behind_locks(&self) -> u64
        ensures value { result ≡ behind_locks self.now }
        ensures some { 0 < result }
        ensures small { result ≤ spaces_begin + 3 * 2 ^ 27 }
    {
        SPACES + self.size(Region::Shadow) + self.size(Region::Locks) + self.size(Region::FreeLocks)
    }

    // The first address behind the live blocks.
    #[tactic(auto, unfolding(crate::specs::Places::region_start))]
    fn behind_blocks(&self) -> u64
        ensures value { result ≡ region_start self.now Region.StructureValues }
        ensures some { 0 < result }
        ensures small { result ≤ spaces_begin + 4 * 2 ^ 27 }
    {
        self.behind_locks() + self.size(Region::Blocks)
    }

    // The first address behind the runtime's words and the arguments of a call.
    #[tactic(auto, unfolding(crate::specs::Places::region_start, crate::specs::Places::region_size))]
    fn behind_arguments(&self) -> u64
        ensures value { result ≡ region_start self.now Region.Calls }
        ensures some { 0 < result }
        ensures small { result ≤ spaces_begin + 5 * 2 ^ 27 }
    {
        self.behind_blocks() + self.budgets.calls() + 3 * PAGE
    }

    // The bytes of a region.
    #[tactic(auto, unfolding(crate::specs::Places::region_size))]
    fn size(&self, which: Region) -> u64
        ensures value { result ≡ region_size self.now which }
        ensures small { result ≤ 2 ^ 27 }
    {
        match which {
            Region::JumpTable => CODE - FUNCTIONS,
            Region::Code => CODE_SIZE,
            Region::Globals => whole_pages(self.global_bytes),
            Region::Stack => self.budgets.stack(),
            Region::Heap => self.budgets.heap(),
            Region::Shadow => self.shadow_size(),
            Region::Locks => whole_pages(8 * self.lock_count()),
            Region::FreeLocks => whole_pages(8 * self.lock_count() + 8),
            Region::Blocks => whole_pages(32 * self.budgets.blocks() + 8),
            Region::StructureValues => self.budgets.calls(),
            Region::Cells => PAGE,
            Region::Arguments => 2 * PAGE,
            Region::Calls => 2 * self.budgets.calls(),
            Region::RuntimeCalls => 16 * PAGE,
        }
    }

    // The bytes of the entries, of the first level and of its cell.
    #[tactic(auto, unfolding(crate::specs::Places::region_size))]
    fn shadow_size(&self) -> u64
        ensures value { result ≡ region_size self.now Region.Shadow }
        ensures small { result ≤ 2 ^ 27 }
    {
        let objects = whole_pages(self.global_bytes) + self.budgets.stack() + self.budgets.heap();
        whole_pages(32 * (objects / 8) + 8 * (objects / PAGE) + 8)
    }

    fn lock_count(&self) -> u64
        ensures value { result ≡ lock_count self.now }
        ensures small { result ≤ 2 ^ 19 }
    {
        1 + self.budgets.stack() / 16 + self.budgets.blocks()
    }
}

// So many bytes in whole pages.
fn whole_pages(bytes: u64) -> u64
    requires { bytes ≤ 2 ^ 32 }
    ensures value { result ≡ whole_pages bytes }
    ensures near { result ≤ bytes + 4095 }
{
    bytes.div_ceil(PAGE) * PAGE
}

/// The address of a function by its number, that of its jump table entry. It serves as the number of functions
/// too, and then is the address of the runtime. A program has at most 4096 functions.
#[tactic(auto, unfolding(crate::specs::Places::function_address))]
pub fn function_address(number: usize) -> u64
    requires { number ≤ 4096 }
    ensures { result ≡ function_address number }
{
    FUNCTIONS + 16 * number as u64
}
