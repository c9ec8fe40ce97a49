//! `malloc`, `calloc`, `free` and `realloc` (C99 7.20.3).

ghost use Rattle.std.specs.Prelude.{◌≡◌, ◌+◌, ◌%◌, ◌^◌, ◌<◌, ◌*◌, true, false, min, nat_lt, Some, IfOk, IfSome, IfNone};
ghost use Rattle.obj_memory.specs.declared.object.Storage.TheVariants.{Allocated};
ghost use Rattle.obj_memory.specs.Objects.{object_at};
ghost use Rattle.source_meaning.specs.State.{Setting, read_state};
ghost use Rattle.source_meaning.specs.Actions.{make_object};
ghost use Rattle.source_meaning.specs.Heap.{allocate, bad_free, block_place, calloc, free, freed, is_block_start};
ghost use Rattle.source_meaning.specs.Heap.{make_block, malloc, move_block};
ghost use Rattle.source_meaning.specs.Heap.{realloc, release, replace_block, tally_blocks};
ghost use Rattle.source_interp.specs.Heaping.{IsFirstGap, add_block, find_freed, free_some, freed_at, move_to};
ghost use Rattle.source_interp.specs.Heaping.{replace_by, resize};
ghost use Rattle.source_interp.specs.Limits.{AreLimits};
ghost use Rattle.source_interp.specs.Outside.{Outside};
ghost use Rattle.source_interp.specs.Performing.{Fails};
ghost use Rattle.source_interp.specs.Standing.{Acts, ActsAlone};

use crate::automatic::one_and;
use crate::limits::Limits;
use crate::machine::Machine;
use crate::stop::{Cause, Fault, Stop};
use crate::value::{integer, is_zero};
use interpreter_objects::Object;
use obj_memory::{Place, Storage, Tag, Value};

fn is_below(left: u64, right: u64) -> bool
    ensures { result ≡ nat_lt left right }
{
    left < right
}

// Whether the heap begins at a multiple of 16 and ends before the last address.
fn is_regular(limits: &Limits) -> bool
    ensures first { result ≡ true → limits.now.heap_first % 16 ≡ 0 }
    ensures last { result ≡ true → limits.now.heap_last + 1 < 2 ^ 64 }
{
    limits.heap_first % 16 == 0 && limits.heap_last < u64::MAX
}

// The product of two numbers, where it is below 2^64.
fn product(left: u64, right: u64) -> Option<u64>
    ensures value { IfSome result (λ n. n ≡ left * right) }
    ensures fits { IfSome result (λ n. nat_lt (left * right) (2 ^ 64) ≡ true) }
    ensures none { IfNone result (nat_lt (left * right) (2 ^ 64) ≡ false) }
{
    left.checked_mul(right)
}

fn least(left: u64, right: u64) -> u64
    ensures { result ≡ min left right }
{
    left.min(right)
}

// Whether a place that was found is one that was found before.
fn is_at(place: Option<u64>, address: u64) -> bool
    ensures { result ≡ true → place ≡ Some address }
{
    match place {
        Some(found) => found == address,
        None => false,
    }
}

// Whether an object is a block of the heap that begins at an address.
fn is_block_start(object: &Object, address: u64) -> bool
    ensures { result ≡ is_block_start object.now address }
{
    match object.storage() {
        Storage::Allocated => address == object.address(),
        Storage::Static => false,
        Storage::Automatic => false,
    }
}

impl Machine {
    // The work of seeking a place in the heap, and of a block's end.
    fn tally_blocks(&mut self) -> Result<(), Stop>
        ensures { ActsAlone self.old self.new result tally_blocks }
    {
        match one_and(self.blocks.count() as u64) {
            Some(work) => {
                self.tally(work);
                Ok(())
            }
            None => Err(Stop::Failed(Fault::Memory)),
        }
    }

    // The place of a new block, as there is one by the number of blocks.
    fn seek(&self, limits: &Limits, size: u64) -> Result<Option<u64>, Stop>
        ensures gap { IfOk result (λ place. IsFirstGap limits.now size self.now.blocks place) }
        ensures failed { Fails result }
    {
        if is_regular(limits) {
            Ok(self.blocks.seek(limits.heap_first, limits.heap_last, size))
        } else {
            Err(Stop::Failed(Fault::Memory))
        }
    }

    // The place of a new block: none where as many blocks are live as the budget allows, or there is no room.
    fn block_place(&self, limits: &Limits, size: u64) -> Result<Option<u64>, Stop>
        ensures { (g : Setting) (o : Outside) → AreLimits limits.now g
            → Acts g self.now self.now o o result (read_state (λ s. block_place g size s.objects)) }
    {
        if is_below(self.blocks.count() as u64, limits.blocks) {
            self.seek(limits, size)
        } else {
            Ok(None)
        }
    }

    // A new block at the place that was found for it, which is the first gap.
    #[tactic(auto, using(crate::proofs::Acting::failing))]
    fn fill_gap(&mut self, limits: &Limits, address: u64, size: u64) -> Result<usize, Stop>
        requires first { limits.now.heap_first % 16 ≡ 0 }
        requires last { limits.now.heap_last + 1 < 2 ^ 64 }
        ensures { (g : Setting) (o : Outside) → AreLimits limits.now g
            → Acts g self.old self.new o o result (add_block address size) }
    {
        let found = self
            .blocks
            .place(limits.heap_first, limits.heap_last, size)?;
        let number = self.store.add(Storage::Allocated, address, size)?;
        if is_at(found, address) {
            Ok(number)
        } else {
            Err(Stop::Failed(Fault::Memory))
        }
    }

    fn add_block(&mut self, limits: &Limits, address: u64, size: u64) -> Result<usize, Stop>
        ensures { (g : Setting) (o : Outside) → AreLimits limits.now g
            → Acts g self.old self.new o o result (add_block address size) }
    {
        if is_regular(limits) {
            self.fill_gap(limits, address, size)
        } else {
            Err(Stop::Failed(Fault::Memory))
        }
    }

    // A new block; that it becomes zero is work.
    fn make_allocated(&mut self, limits: &Limits, address: u64, size: u64) -> Result<usize, Stop>
        ensures { (g : Setting) (o : Outside) → AreLimits limits.now g
            → Acts g self.old self.new o o result (make_object Allocated address size) }
    {
        match one_and(size) {
            Some(work) => {
                self.tally(work);
                self.add_block(limits, address, size)
            }
            None => Err(Stop::Failed(Fault::Memory)),
        }
    }

    // A new block with a key of its own.
    fn make_some(
        &mut self,
        limits: &Limits,
        size: u64,
        line: u32,
        address: u64,
    ) -> Result<Value, Stop>
        ensures { (g : Setting) (o : Outside) → AreLimits limits.now g
            → Acts g self.old self.new o o result (make_block g size line (Some address)) }
    {
        self.take_key(limits.keys, line)?;
        let number = self.make_allocated(limits, address, size)?;
        self.pointer_to(number)
    }

    // The same where there is a place.
    fn make_block(
        &mut self,
        limits: &Limits,
        size: u64,
        line: u32,
        place: Option<u64>,
    ) -> Result<Value, Stop>
        ensures { (g : Setting) (o : Outside) → AreLimits limits.now g
            → Acts g self.old self.new o o result (make_block g size line place) }
    {
        match place {
            Some(address) => self.make_some(limits, size, line, address),
            None => Ok(integer(0)),
        }
    }

    fn allocate(&mut self, limits: &Limits, size: u64, line: u32) -> Result<Value, Stop>
        ensures { (g : Setting) (o : Outside) → AreLimits limits.now g
            → Acts g self.old self.new o o result (allocate g size line) }
    {
        self.tally_blocks()?;
        let place = self.block_place(limits, size)?;
        self.make_block(limits, size, line, place)
    }

    /// A new block of so many bytes (7.20.3.3).
    pub fn malloc(&mut self, limits: &Limits, size: Value, line: u32) -> Result<Value, Stop>
        ensures { (g : Setting) (o : Outside) → AreLimits limits.now g
            → Acts g self.old self.new o o result (malloc g size line) }
    {
        self.allocate(limits, size.word, line)
    }

    /// A new block for an array of zero bytes, null where its size is no size_t (7.20.3.1).
    pub fn calloc(
        &mut self,
        limits: &Limits,
        count: Value,
        size: Value,
        line: u32,
    ) -> Result<Value, Stop>
        ensures { (g : Setting) (o : Outside) → AreLimits limits.now g
            → Acts g self.old self.new o o result (calloc g count size line) }
    {
        match product(count.word, size.word) {
            Some(bytes) => self.allocate(limits, bytes, line),
            None => Ok(integer(0)),
        }
    }

    fn bad_free(&mut self, line: u32) -> Result<usize, Stop>
        ensures { ActsAlone self.old self.new result (bad_free line) }
    {
        self.tally_blocks()?;
        Err(Stop::Ended(Cause::BadFree, line))
    }

    fn is_live(&self, number: usize) -> bool
        ensures { result ≡ (object_at self.now.store number).is_live }
    {
        match self.store.object(number) {
            Some(object) => object.is_live(),
            None => false,
        }
    }

    fn is_block_start(&self, number: usize, address: u64) -> bool
        ensures { result ≡ is_block_start (object_at self.now.store number) address }
    {
        match self.store.object(number) {
            Some(object) => is_block_start(object, address),
            None => false,
        }
    }

    fn freed_at(&mut self, number: usize, is_start: bool, line: u32) -> Result<usize, Stop>
        ensures { ActsAlone self.old self.new result (freed_at number is_start line) }
    {
        if is_start {
            Ok(number)
        } else {
            self.bad_free(line)
        }
    }

    // The object that the tag of a pointer names, where it is the start of a live block.
    fn find_freed(&mut self, number: usize, address: u64, line: u32) -> Result<usize, Stop>
        ensures { ActsAlone self.old self.new result (find_freed number address line) }
    {
        if self.is_live(number) {
            let is_start = self.is_block_start(number, address);
            self.freed_at(number, is_start, line)
        } else {
            Err(Stop::Ended(Cause::Temporal, line))
        }
    }

    // The number of the block that a pointer other than null frees.
    fn freed(&mut self, pointer: Value, line: u32) -> Result<usize, Stop>
        ensures { ActsAlone self.old self.new result (freed pointer line) }
    {
        match pointer.tag {
            Tag::OfObject(number, _) => self.find_freed(number, pointer.word, line),
            Tag::Untagged => self.bad_free(line),
            Tag::OfFunction(_) => self.bad_free(line),
        }
    }

    // A block dies.
    fn release(&mut self, number: usize) -> Result<(), Stop>
        ensures { ActsAlone self.old self.new result (release number) }
    {
        self.tally_blocks()?;
        self.bury(number)
    }

    fn free_some(&mut self, pointer: Value, line: u32) -> Result<Value, Stop>
        ensures { ActsAlone self.old self.new result (free_some pointer line) }
    {
        let number = self.freed(pointer, line)?;
        self.release(number)?;
        Ok(integer(0))
    }

    /// A block is freed; nothing is done to a null pointer (7.20.3.2).
    pub fn free(&mut self, pointer: Value, line: u32) -> Result<Value, Stop>
        ensures { ActsAlone self.old self.new result (free pointer line) }
    {
        if is_zero(pointer) {
            Ok(integer(0))
        } else {
            self.free_some(pointer, line)
        }
    }

    // The bytes and tags that an object and a new block both have room for are moved to the block.
    fn move_block(&mut self, number: usize, new: Value, size: u64, line: u32) -> Result<(), Stop>
        ensures { ActsAlone self.old self.new result (move_block number new size line) }
    {
        let to = self.located(false, size, new, line)?;
        let lesser = least(size, self.store.size(number));
        let from = Place {
            object: number,
            offset: 0,
        };
        self.move_bytes(lesser, to, from)
    }

    // A block moves to a new one, and dies.
    fn move_to(&mut self, number: usize, new: Value, size: u64, line: u32) -> Result<Value, Stop>
        ensures { ActsAlone self.old self.new result (move_to number new size line) }
    {
        self.move_block(number, new, size, line)?;
        self.release(number)?;
        Ok(new)
    }

    // The same where there is a new one.
    fn replace_by(&mut self, number: usize, new: Value, size: u64, line: u32) -> Result<Value, Stop>
        ensures { ActsAlone self.old self.new result (replace_by number new size line) }
    {
        if is_zero(new) {
            Ok(new)
        } else {
            self.move_to(number, new, size, line)
        }
    }

    // A block in place of an old one, which lives while a place is sought, and on where there is none.
    fn replace_block(
        &mut self,
        limits: &Limits,
        number: usize,
        size: u64,
        line: u32,
    ) -> Result<Value, Stop>
        ensures { (g : Setting) (o : Outside) → AreLimits limits.now g
            → Acts g self.old self.new o o result (replace_block g number size line) }
    {
        let new = self.allocate(limits, size, line)?;
        self.replace_by(number, new, size, line)
    }

    fn resize(&mut self, limits: &Limits, old: Value, size: u64, line: u32) -> Result<Value, Stop>
        ensures { (g : Setting) (o : Outside) → AreLimits limits.now g
            → Acts g self.old self.new o o result (resize g old size line) }
    {
        let number = self.freed(old, line)?;
        self.replace_block(limits, number, size, line)
    }

    /// A block of another size; of a null pointer a new one (7.20.3.4).
    pub fn realloc(
        &mut self,
        limits: &Limits,
        old: Value,
        size: Value,
        line: u32,
    ) -> Result<Value, Stop>
        ensures { (g : Setting) (o : Outside) → AreLimits limits.now g
            → Acts g self.old self.new o o result (realloc g old size line) }
    {
        if is_zero(old) {
            self.allocate(limits, size.word, line)
        } else {
            self.resize(limits, old, size.word, line)
        }
    }
}
