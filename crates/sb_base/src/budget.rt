//! The budgets of a build: how much a source may use of what the runtime hands out.

ghost use Rattle.std.specs.Prelude.{◌≡◌, ◌≤◌, ◌^◌, IsTrue, OnOk, IfErr};
ghost use Rattle.sb_base.specs.Budgets.{BudgetSizes, IsPages, IsTested, allows, ◌unless_allowed◌, is_pages};
ghost use Rattle.sb_base.specs.Budgets.{default_sizes};

use std::marker::Model;

/// The bytes of a page. `heap`, `stack` and `calls` are whole pages.
pub const PAGE: u64 = 4096;

/// The largest `heap`, in bytes.
pub const MAX_HEAP: u64 = 16_777_216;

/// The largest `stack`, in bytes.
pub const MAX_STACK: u64 = 4_194_304;

/// The largest `calls`, in bytes.
pub const MAX_CALLS: u64 = 16_777_216;

/// The largest number of blocks.
pub const MAX_BLOCKS: u64 = 65_536;

/// The largest number of keys.
pub const MAX_KEYS: u64 = 1 << 62;

/// The bytes of `heap` where none are asked for.
pub const DEFAULT_HEAP: u64 = 4_194_304;

/// The bytes of `stack` where none are asked for.
pub const DEFAULT_STACK: u64 = 1_048_576;

/// The bytes of `calls` where none are asked for.
pub const DEFAULT_CALLS: u64 = 4_194_304;

/// The number of blocks where none is asked for.
pub const DEFAULT_BLOCKS: u64 = 16_384;

/// The number of keys where none is asked for.
pub const DEFAULT_KEYS: u64 = MAX_KEYS;

/// One of the budgets, in the order in which `Budgets::new` tests them.
#[derive(Clone, Copy, Debug, PartialEq, Eq)]
pub enum Budget {
    /// The bytes from which `malloc` takes blocks: 4096 to 16777216, a multiple of 4096.
    Heap,
    /// The bytes for automatic objects: 4096 to 4194304, a multiple of 4096.
    Stack,
    /// The bytes for calls that have not returned: 4096 to 16777216, a multiple of 4096.
    Calls,
    /// The number of blocks of the heap that are live at once: 1 to 65536.
    Blocks,
    /// The number of keys that are made, for blocks and for calls that have automatic objects: 0 to 2^62.
    Keys,
}

impl Budget {
    // Whether this budget may have this size.
    fn allows(self, size: u64) -> bool
        ensures { result ≡ allows self size }
    {
        match self {
            Budget::Heap => is_pages(MAX_HEAP, size),
            Budget::Stack => is_pages(MAX_STACK, size),
            Budget::Calls => is_pages(MAX_CALLS, size),
            Budget::Blocks => 1 <= size && size <= MAX_BLOCKS,
            Budget::Keys => size <= MAX_KEYS,
        }
    }

    // The fault, unless this budget may have this size.
    fn test(self, given: u64) -> Result<(), BudgetFault>
        ensures ok { OnOk result (IsTrue (allows self given)) }
        ensures err { IfErr result (λ f. self unless_allowed given ≡ Some f) }
    {
        if self.allows(given) {
            Ok(())
        } else {
            Err(BudgetFault { which: self, given })
        }
    }
}

// Whether this many bytes are whole pages, at least one and at most so many bytes.
fn is_pages(most: u64, size: u64) -> bool
    ensures { result ≡ is_pages most size }
{
    PAGE <= size && size <= most && size.is_multiple_of(PAGE)
}

/// Why sizes are no budgets: the first that is out of range or no multiple of 4096.
#[derive(Clone, Copy, Debug, PartialEq, Eq)]
pub struct BudgetFault {
    /// The budget.
    pub which: Budget,
    /// The size that it was given.
    pub given: u64,
}

/// A size for each budget, within its range.
#[derive(Clone, Copy, Debug, PartialEq, Eq)]
pub struct Budgets {
    heap: u64,
    stack: u64,
    calls: u64,
    blocks: u64,
    keys: u64,
}

impl Model for Budgets {
    ghost use Rattle.sb_base.specs.Budgets.{BudgetSizes, AreInRange};

    ghost Value = { BudgetSizes };

    ghost view = { λ b. record { heap = b.heap; stack = b.stack; calls = b.calls; blocks = b.blocks; keys = b.keys } };

    ghost invariant = { λ b.
        AreInRange (record { heap = b.heap; stack = b.stack; calls = b.calls; blocks = b.blocks; keys = b.keys }) };

    ghost inverse = { λ s. record {
      heap = s.heap;
      stack = s.stack;
      calls = s.calls;
      blocks = s.blocks;
      keys = s.keys;
    } };
}

impl Budgets {
    /// Budgets of these sizes: bytes of `heap`, `stack` and `calls`, numbers of `blocks` and `keys`. The fault is the
    /// first of them, in this order, that is out of its range or, of the first three, no multiple of 4096.
    #[tactic(auto, unfolding(crate::specs::Budgets::budget_fault))]
    pub fn new(
        heap: u64,
        stack: u64,
        calls: u64,
        blocks: u64,
        keys: u64,
    ) -> Result<Self, BudgetFault>
        ensures { IsTested (record { heap = heap; stack = stack; calls = calls; blocks = blocks; keys = keys }) result }
    {
        Budget::Heap.test(heap)?;
        Budget::Stack.test(stack)?;
        Budget::Calls.test(calls)?;
        Budget::Blocks.test(blocks)?;
        Budget::Keys.test(keys)?;
        Ok(Budgets {
            heap,
            stack,
            calls,
            blocks,
            keys,
        })
    }

    /// The bytes from which `malloc` takes blocks.
    pub fn heap(self) -> u64
        ensures value { result ≡ self.heap }
        ensures in_range { IsPages 16777216 result }
    {
        self.heap
    }

    /// The bytes for automatic objects.
    pub fn stack(self) -> u64
        ensures value { result ≡ self.stack }
        ensures in_range { IsPages 4194304 result }
    {
        self.stack
    }

    /// The bytes for calls that have not returned.
    pub fn calls(self) -> u64
        ensures value { result ≡ self.calls }
        ensures in_range { IsPages 16777216 result }
    {
        self.calls
    }

    /// The number of blocks of the heap that may be live at once.
    pub fn blocks(self) -> u64
        ensures value { result ≡ self.blocks }
        ensures some { 1 ≤ result }
        ensures in_range { result ≤ 65536 }
    {
        self.blocks
    }

    /// The number of keys that may be made.
    pub fn keys(self) -> u64
        ensures value { result ≡ self.keys }
        ensures in_range { result ≤ 2 ^ 62 }
    {
        self.keys
    }
}

impl Default for Budgets {
    ghost is_default = { λ b. b ≡ default_sizes };

    fn default() -> Self
        ensures { result ≡ default_sizes }
    {
        Budgets {
            heap: DEFAULT_HEAP,
            stack: DEFAULT_STACK,
            calls: DEFAULT_CALLS,
            blocks: DEFAULT_BLOCKS,
            keys: DEFAULT_KEYS,
        }
    }
}
