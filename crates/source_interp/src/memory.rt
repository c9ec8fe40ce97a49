//! Routines that look at, set and move bytes (C99 7.21.2, 7.21.6).

ghost use Rattle.std.specs.Prelude.{◌≡◌, IfSome};
ghost use Rattle.obj_memory.specs.declared.int_type.IntType.TheVariants.{UnsignedChar};
ghost use Rattle.obj_memory.specs.Access.{write_bytes};
ghost use Rattle.obj_memory.specs.Integers.{fit};
ghost use Rattle.source_meaning.specs.State.{change};
ghost use Rattle.source_meaning.specs.Bytes.{look, order, set_bytes};
ghost use Rattle.source_meaning.specs.Memory.{memmove, memset};
ghost use Rattle.source_interp.specs.Routines.{byte_at, move_some, set_some};
ghost use Rattle.source_interp.specs.Standing.{ActsAlone};

use crate::machine::Machine;
use crate::stop::{Fault, Stop};
use crate::value::{integer, is_zero};
use obj_memory::{IntType, Place, Scalar, Value};
use std::alloc::Global;

/// How the first of two bytes compares with the second (7.21.4 paragraph 1).
pub fn order(left: u8, right: u8) -> Value
    ensures { result ≡ order left right }
{
    if left < right {
        integer(u64::MAX)
    } else {
        integer(u64::from(right < left))
    }
}

// A word that is a byte.
fn byte_of(word: u64) -> Option<u8>
    ensures { IfSome result (λ byte. byte ≡ word) }
{
    u8::try_from(word).ok()
}

// The low byte of a word.
#[tactic(auto, unfolding(obj_memory::specs::Integers::fit))]
fn low_byte(word: u64) -> u8
    ensures { result ≡ fit UnsignedChar word }
{
    (word % 256) as u8
}

impl Machine {
    fn write_bytes(&mut self, place: Place, bytes: &[u8]) -> Result<(), Stop>
        ensures { ActsAlone self.old self.new result
            (change (λ s. record s { objects = write_bytes bytes.now place s.objects })) }
    {
        if self.store.write_bytes(place, bytes) {
            Ok(())
        } else {
            Err(Stop::Failed(Fault::Memory))
        }
    }

    /// Bytes are set at a place, each of which is work; the tags of their words stay.
    pub fn set_bytes(&mut self, place: Place, bytes: &[u8]) -> Result<(), Stop>
        ensures { ActsAlone self.old self.new result (set_bytes bytes.now place) }
    {
        self.tally(bytes.len() as u64);
        self.write_bytes(place, bytes)
    }

    // The byte at a place.
    fn byte_at(&self, place: Place) -> Result<u8, Stop>
        ensures { ActsAlone self.now self.now result (byte_at place) }
    {
        let found = self.scalar_at(Scalar::Integer(IntType::UnsignedChar), place)?;
        match byte_of(found.word) {
            Some(byte) => Ok(byte),
            None => Err(Stop::Failed(Fault::Memory)),
        }
    }

    /// A byte, judged and looked at.
    pub fn look(&mut self, pointer: Value, line: u32) -> Result<u8, Stop>
        ensures { ActsAlone self.old self.new result (look pointer line) }
    {
        let place = self.located(true, 1, pointer, line)?;
        self.tally(1);
        self.byte_at(place)
    }

    // Bytes are moved, of which there are some.
    fn move_some(&mut self, to: Value, from: Value, size: u64, line: u32) -> Result<Value, Stop>
        ensures { ActsAlone self.old self.new result (move_some to from size line) }
    {
        let place = self.located(true, size, to, line)?;
        let source = self.located(true, size, from, line)?;
        self.move_bytes(size, place, source)?;
        Ok(to)
    }

    /// Bytes and tags are moved, the destination judged first; the ranges may overlap (7.21.2.2). `memcpy` moves them
    /// so too.
    pub fn memmove(&mut self, to: Value, from: Value, size: Value, line: u32) -> Result<Value, Stop>
        ensures { ActsAlone self.old self.new result (memmove to from size line) }
    {
        if is_zero(size) {
            Ok(to)
        } else {
            self.move_some(to, from, size.word, line)
        }
    }

    // Bytes are set, of which there are some.
    #[tactic(auto, using(crate::proofs::Acting::failing))]
    fn set_some(
        &mut self,
        alloc: Global,
        to: Value,
        byte: u8,
        size: u64,
        line: u32,
    ) -> Result<Value, Stop>
        ensures { ActsAlone self.old self.new result (set_some to byte size line) }
    {
        let place = self.located(true, size, to, line)?;
        let bytes = vec![in alloc; byte; size as usize]?;
        let whole = bytes.as_slice();
        self.set_bytes(place, whole)?;
        Ok(to)
    }

    /// Bytes are set to one value, converted to unsigned char (7.21.6.1).
    pub fn memset(
        &mut self,
        alloc: Global,
        to: Value,
        byte: Value,
        size: Value,
        line: u32,
    ) -> Result<Value, Stop>
        ensures { ActsAlone self.old self.new result (memset to byte size line) }
    {
        if is_zero(size) {
            Ok(to)
        } else {
            self.set_some(alloc, to, low_byte(byte.word), size.word, line)
        }
    }
}
