//! `malloc`, `calloc`, `free` and `realloc`.

use crate::access::Finding;
use crate::object::Object;
use crate::state::{Cause, State, Stop, ended, rounded};
use crate::value::integer;
use obj_memory::{Place, Storage, Tag, Value};
use sb_base::Line;

// The bytes that a block of so many takes.
fn block_room(size: u64) -> u64 {
    rounded(size).max(16)
}

fn is_live_block(object: &Object) -> bool {
    object.storage == Storage::Allocated && object.is_live
}

// Whether a range meets no live block.
fn is_clear(objects: &[Object], start: u64, room: u64) -> bool {
    for object in objects {
        let end = object.address.saturating_add(block_room(object.size));
        let is_apart = start.saturating_add(room) <= object.address || end <= start;
        if is_live_block(object) && !is_apart {
            return false;
        }
    }
    true
}

impl State {
    fn block_count(&self) -> u64 {
        let mut count = 0u64;
        for object in self.objects.iter() {
            if is_live_block(object) {
                count = count.saturating_add(1);
            }
        }
        count
    }

    // The work of seeking a place, and of a block's end.
    fn tally_blocks(&mut self) {
        self.tally(self.block_count().saturating_add(1));
    }

    // The least place of a block of so many bytes.
    fn least_place(&self, size: u64) -> Option<u64> {
        let room = block_room(size);
        let mut start = self.places.heap;
        for _ in 0..self.budgets.heap / 16 {
            if start.saturating_add(room) > self.places.end {
                return None;
            }
            if is_clear(&self.objects, start, room) {
                return Some(start);
            }
            start = start.saturating_add(16);
        }
        None
    }

    fn allocate(&mut self, size: u64, line: Line) -> Result<Value, Stop> {
        self.tally_blocks();
        if self.block_count() >= self.budgets.blocks {
            return Ok(integer(0));
        }
        match self.least_place(size) {
            None => Ok(integer(0)),
            Some(address) => {
                self.take_key(line)?;
                let number = self.make_object(Storage::Allocated, address, size)?;
                Ok(self.pointer_to(number))
            }
        }
    }

    fn bad_free(&mut self, line: Line) -> Result<usize, Stop> {
        self.tally_blocks();
        Err(ended(Cause::BadFree, line))
    }

    // The number of the block that a pointer other than null frees.
    fn freed(&mut self, pointer: Value, line: Line) -> Result<usize, Stop> {
        let Tag::OfObject(number, _) = pointer.tag else {
            return self.bad_free(line);
        };
        let Some(object) = self.objects.get(number) else {
            return Err(Stop::Stuck);
        };
        if !object.is_live {
            return Err(ended(Cause::Temporal, line));
        }
        if object.storage == Storage::Allocated && object.address == pointer.word {
            Ok(number)
        } else {
            self.bad_free(line)
        }
    }

    fn release(&mut self, number: usize) {
        self.tally_blocks();
        self.kill(number);
    }

    pub(crate) fn malloc(&mut self, size: Value, line: Line) -> Result<Value, Stop> {
        self.allocate(size.word, line)
    }

    pub(crate) fn calloc(&mut self, count: Value, size: Value, line: Line) -> Result<Value, Stop> {
        match count.word.checked_mul(size.word) {
            Some(bytes) => self.allocate(bytes, line),
            None => Ok(integer(0)),
        }
    }

    pub(crate) fn free(&mut self, pointer: Value, line: Line) -> Result<Value, Stop> {
        if pointer.word != 0 {
            let number = self.freed(pointer, line)?;
            self.release(number);
        }
        Ok(integer(0))
    }

    // The bytes that an object and a new block both have room for move to the block.
    fn move_block(&mut self, number: usize, new: Value, size: u64, line: Line) -> Result<(), Stop> {
        let to = self.located(Finding::Named, size, new, line)?;
        let old = self.objects.get(number).map_or(0, |object| object.size);
        let from = Place {
            object: number,
            offset: 0,
        };
        self.move_bytes(old.min(size), to, from)
    }

    pub(crate) fn realloc(&mut self, old: Value, size: Value, line: Line) -> Result<Value, Stop> {
        if old.word == 0 {
            return self.allocate(size.word, line);
        }
        let number = self.freed(old, line)?;
        let new = self.allocate(size.word, line)?;
        if new.word != 0 {
            self.move_block(number, new, size.word, line)?;
            self.release(number);
        }
        Ok(new)
    }
}
