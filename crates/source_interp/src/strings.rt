//! Routines on strings (C99 7.21). The bytes of a string are judged one by one.

ghost use Rattle.std.specs.Prelude.{◌≡◌, ◌==◌, ◌-◌, ◌++◌, length, replicate, IfOk};
ghost use Rattle.source_meaning.specs.Strings.{compare_within, go_on, reach, scan, scan_within, seek_within};
ghost use Rattle.source_meaning.specs.Strings.{strcat, strchr, strcmp, strcpy, strlen, strncpy, write_string};
ghost use Rattle.source_interp.specs.declared.machine.Machine.{Machine as OfMachine};
ghost use Rattle.source_interp.specs.Comparing.{look_at_both};
ghost use Rattle.source_interp.specs.Routines.{behind_scan, copy_some, scanned};
ghost use Rattle.source_interp.specs.Standing.{ActsAlone};

use crate::items::append;
use crate::machine::Machine;
use crate::memory::order;
use crate::stop::{Cause, Stop};
use crate::value::{integer, is_zero};
use obj_memory::{IntType, Tag, Value};
use std::alloc::{AllocError, Global};
use tree_containers::Items;

// How many bytes lie between a pointer and its bound.
fn reach(pointer: Value) -> u64
    ensures { result ≡ reach pointer }
{
    match pointer.tag {
        Tag::OfObject(_, bounds) => bounds.bound.saturating_sub(pointer.word),
        Tag::Untagged => 0,
        Tag::OfFunction(_) => 0,
    }
}

// Whether a byte ends a string (7.1.1 paragraph 1).
fn is_end(byte: u8) -> bool
    ensures { result ≡ (byte == 0) }
{
    byte == 0
}

// Whether a byte is one that is sought.
fn is_same(byte: u8, sought: u64) -> bool
    ensures { result ≡ (byte == sought) }
{
    u64::from(byte) == sought
}

/// A byte of each of two strings.
#[derive(Clone, Copy)]
pub struct Pair {
    /// Of the first one.
    pub first: u8,
    /// Of the second one.
    pub second: u8,
}

// Whether both are equal and neither string ends.
fn goes_on(pair: Pair) -> bool
    ensures { result ≡ go_on pair.first pair.second }
{
    pair.first == pair.second && pair.first != 0
}

// Bytes with zeros up to a number.
#[tactic(auto, using(crate::proofs::Scanning::padding))]
fn padded(alloc: Global, bytes: Items<u8>, size: u64) -> Result<Items<u8>, AllocError>
    ensures { IfOk result (λ all. all ≡ bytes ++ replicate (size - length bytes) 0) }
{
    let mut all = bytes.into_vec();
    let count = size.saturating_sub(all.as_slice().len() as u64);
    let zeros = vec![in alloc; 0u8; count as usize]?;
    all.extend_from_slice(&zeros)?;
    Ok(Items::from_vec(all))
}

// What a scan comes to that found these bytes and no 0 byte.
fn without_end(bytes: Items<u8>, must_end: bool, line: u32) -> Result<Items<u8>, Stop>
    ensures { (m : OfMachine) → ActsAlone m m result (scanned bytes must_end line) }
{
    if must_end {
        Err(Stop::Ended(Cause::Spatial, line))
    } else {
        Ok(bytes)
    }
}

impl Machine {
    // The bytes of a string before its 0 byte, at most so many; that there are more may be a violation.
    #[tactic(auto, using(crate::proofs::Acting::failing))]
    fn scan_within(
        &mut self,
        alloc: Global,
        count: u64,
        must_end: bool,
        string: Value,
        line: u32,
    ) -> Result<Items<u8>, Stop>
        ensures { ActsAlone self.old self.new result (scan_within count (behind_scan must_end line) string line) }
    {
        let mut bytes = Vec::new(alloc);
        let mut pointer = string;
        for _ in 0..count {
            let byte = self.look(pointer, line)?;
            if is_end(byte) {
                return Ok(Items::from_vec(bytes));
            }
            append(&mut bytes, byte)?;
            pointer = pointer.moved(1);
        }
        without_end(Items::from_vec(bytes), must_end, line)
    }

    /// The bytes of a string before its 0 byte (7.1.1 paragraph 1).
    pub fn scan(&mut self, alloc: Global, string: Value, line: u32) -> Result<Items<u8>, Stop>
        ensures { ActsAlone self.old self.new result (scan string line) }
    {
        self.scan_within(alloc, reach(string), true, string, line)
    }

    /// The number of bytes before the 0 byte (7.21.6.3).
    pub fn strlen(&mut self, alloc: Global, string: Value, line: u32) -> Result<Value, Stop>
        ensures { ActsAlone self.old self.new result (strlen string line) }
    {
        let bytes = self.scan(alloc, string, line)?;
        Ok(integer(bytes.as_slice().len() as u64))
    }

    // A string is written at a pointer, with its 0 byte.
    #[tactic(auto, using(crate::proofs::Acting::failing))]
    fn write_string(&mut self, to: Value, bytes: Items<u8>, line: u32) -> Result<(), Stop>
        ensures { ActsAlone self.old self.new result (write_string to bytes line) }
    {
        let mut all = bytes.into_vec();
        append(&mut all, 0)?;
        let whole = all.as_slice();
        let place = self.located(true, whole.len() as u64, to, line)?;
        self.set_bytes(place, whole)
    }

    /// A string is copied (7.21.2.3).
    pub fn strcpy(
        &mut self,
        alloc: Global,
        to: Value,
        from: Value,
        line: u32,
    ) -> Result<Value, Stop>
        ensures { ActsAlone self.old self.new result (strcpy to from line) }
    {
        let bytes = self.scan(alloc, from, line)?;
        self.write_string(to, bytes, line)?;
        Ok(to)
    }

    /// A string is written over the 0 byte of another (7.21.3.1).
    pub fn strcat(
        &mut self,
        alloc: Global,
        to: Value,
        from: Value,
        line: u32,
    ) -> Result<Value, Stop>
        ensures { ActsAlone self.old self.new result (strcat to from line) }
    {
        let before = self.scan(alloc, to, line)?;
        let bytes = self.scan(alloc, from, line)?;
        self.write_string(to.moved(before.as_slice().len() as u64), bytes, line)?;
        Ok(to)
    }

    // So many bytes are copied, of which there are some.
    #[tactic(auto, using(crate::proofs::Acting::failing))]
    fn copy_some(
        &mut self,
        alloc: Global,
        to: Value,
        from: Value,
        size: u64,
        line: u32,
    ) -> Result<Value, Stop>
        ensures { ActsAlone self.old self.new result (copy_some to from size line) }
    {
        let bytes = self.scan_within(alloc, size, false, from, line)?;
        let place = self.located(true, size, to, line)?;
        let all = padded(alloc, bytes, size)?;
        let whole = all.as_slice();
        self.set_bytes(place, whole)?;
        Ok(to)
    }

    /// At most so many bytes of a string are copied, with zeros up to that number (7.21.2.4).
    pub fn strncpy(
        &mut self,
        alloc: Global,
        to: Value,
        from: Value,
        size: Value,
        line: u32,
    ) -> Result<Value, Stop>
        ensures { ActsAlone self.old self.new result (strncpy to from size line) }
    {
        if is_zero(size) {
            Ok(to)
        } else {
            self.copy_some(alloc, to, from, size.word, line)
        }
    }

    // The first of so many bytes that is one that is sought, or null at the end of the string.
    fn seek_within(
        &mut self,
        count: u64,
        sought: u64,
        string: Value,
        line: u32,
    ) -> Result<Value, Stop>
        ensures { ActsAlone self.old self.new result (seek_within count sought string line) }
    {
        let mut pointer = string;
        for _ in 0..count {
            let byte = self.look(pointer, line)?;
            if is_same(byte, sought) {
                return Ok(pointer);
            }
            if is_end(byte) {
                return Ok(integer(0));
            }
            pointer = pointer.moved(1);
        }
        Err(Stop::Ended(Cause::Spatial, line))
    }

    /// The first byte of a string that is a value, converted to char, or null; the 0 byte is sought too (7.21.5.2).
    pub fn strchr(&mut self, string: Value, byte: Value, line: u32) -> Result<Value, Stop>
        ensures { ActsAlone self.old self.new result (strchr string byte line) }
    {
        let sought = IntType::Char.fit(byte.word);
        self.seek_within(reach(string), sought, string, line)
    }

    // A byte of the first string, and then one of the second.
    fn look_at_both(&mut self, left: Value, right: Value, line: u32) -> Result<Pair, Stop>
        ensures { ActsAlone self.old self.new result (look_at_both left right line) }
    {
        let first = self.look(left, line)?;
        let second = self.look(right, line)?;
        Ok(Pair { first, second })
    }

    fn compare_within(
        &mut self,
        count: u64,
        left: Value,
        right: Value,
        line: u32,
    ) -> Result<Value, Stop>
        ensures { ActsAlone self.old self.new result (compare_within count left right line) }
    {
        let mut first = left;
        let mut second = right;
        for _ in 0..count {
            let pair = self.look_at_both(first, second, line)?;
            if goes_on(pair) {
                first = first.moved(1);
                second = second.moved(1);
            } else {
                return Ok(order(pair.first, pair.second));
            }
        }
        Err(Stop::Ended(Cause::Spatial, line))
    }

    /// A byte of the first string and one of the second in turn, up to a difference or the end (7.21.4.2).
    pub fn strcmp(&mut self, left: Value, right: Value, line: u32) -> Result<Value, Stop>
        ensures { ActsAlone self.old self.new result (strcmp left right line) }
    {
        self.compare_within(reach(left), left, right, line)
    }
}
