//! The runtime under one form of the shadow space, and what a routine does to it.

ghost use Rattle.addr_map.specs.Places.{AreMapped};

use crate::changes::{write_born, write_bytes, write_lives, write_spaces, write_tags};
use crate::code::{RESULT, SCRATCH, code_of, line_of};
use crate::function::{
    CLEARED, STATUS, call_function, call_listed, clear, function_in_list, function_of,
};
use crate::machine::{Left, Machine, REGISTERS};
use crate::memory::Memory;
use crate::objects::{Metadata, Object, Objects, hexadecimal, whole_words};
use crate::routine::{Given, Piece, RoutineCall, directive_named, routine_named, type_named};
use crate::shown::{write_given, write_left, write_registers, write_shown, write_steps};
use addr_map::{AddrMap, Region};
use anyhow::{Context, Result, bail};
use flat_code::FlatInstruction;
use shadow_space::{ShadowForm, StartEntry};
use std::alloc::{AllocError, Global};
use std::mem::swap;

/// A memory, the objects that were made, and the key and the lock word of the last.
#[derive(Drop)]
pub struct Side {
    pub machine: Machine,
    pub objects: Objects,
    pub key: u64,
    pub lock: u64,
    /// Where the space of structure values begins.
    pub areas: u64,
}

// The entries of static objects with which every scene begins.
fn start_bytes<S: ShadowForm>(alloc: Global, map: &AddrMap) -> Result<Vec<u8>>
    requires map { AreMapped map.now }
{
    if map.global_bytes() != 8192 {
        bail!("static objects have two pages");
    }
    let (lock, _) = map.region(Region::Locks);
    let entries = [
        StartEntry {
            at: 0x1000_0010,
            base: 0x1000_0040,
            bound: 0x1000_0060,
            key: 1,
            lock,
        },
        StartEntry {
            at: 0x1000_1ff8,
            base: 0x1000_0000,
            bound: 0x1000_0018,
            key: 1,
            lock,
        },
    ];
    let bytes = S::start(alloc, map, &entries)?;
    Ok(bytes)
}

/// The memory with which a run begins.
pub fn side_of<S: ShadowForm>(alloc: Global, map: &AddrMap) -> Result<Side>
    requires map { AreMapped map.now }
{
    let mut memory = Memory::new(alloc, map)?;
    let bytes = start_bytes::<S>(alloc, map)?;
    for (place, byte) in memory.spaces.iter_mut().zip(bytes.iter()) {
        *place = *byte;
    }
    let (lock, _) = map.region(Region::Locks);
    let (areas, _) = map.region(Region::StructureValues);
    if !memory.store(lock, 8, 1) {
        bail!("no global lock word");
    }
    Ok(Side {
        machine: Machine::new(alloc, memory),
        objects: Objects {
            items: Vec::new(alloc),
            locks: map.region(Region::Locks),
        },
        key: 1,
        lock,
        areas,
    })
}

// What the registers below the scratch registers hold where no operand is: those that a function makes 0 are 0.
fn unused(register: u32) -> u64 {
    if STATUS <= register && register < STATUS + CLEARED {
        0
    } else {
        0xa5a5_0000_0000_0000 | register as u64
    }
}

impl Side {
    /// An object is there, with the last key and lock word.
    pub fn add(&mut self, first: u64, size: u64) -> Result<(), AllocError> {
        self.objects.items.push(Object {
            first,
            size,
            key: self.key,
            lock: self.lock,
        })?;
        Ok(())
    }

    // A machine with the memory, and with no operands.
    fn prepared(&self, alloc: Global) -> Result<Machine, AllocError> {
        let mut machine = Machine::new(alloc, self.machine.memory.copy(alloc)?);
        for register in 0..SCRATCH {
            machine.set(register, unused(register));
        }
        Ok(machine)
    }

    // Puts an operand of a row into the registers from a place on, or into the call where it is a part of the code, and
    // gives how many registers it takes.
    fn put_operand(
        &self,
        machine: &mut Machine,
        call: &mut RoutineCall,
        place: u32,
        word: &str,
    ) -> Result<u32> {
        if let Some(part) = word.strip_prefix("part") {
            self.put_part_of_contents(machine, place, part)?;
            return Ok(5);
        }
        if let Some(offset) = word.strip_prefix("area") {
            let offset = hexadecimal(offset).context("an area")?;
            machine.set(place, self.areas.wrapping_add(offset));
            return Ok(5);
        }
        if let Some((address, tag)) = word.split_once('/') {
            machine.set(place, hexadecimal(address).context("an address")?);
            let metadata = self.objects.read(tag).context("a tag")?;
            set_metadata(machine, place.saturating_add(1), &metadata);
            return Ok(5);
        }
        if let Some(number) = word.strip_prefix("lock") {
            machine.set(place, self.lock_of(number)?);
            return Ok(5);
        }
        if put_part(call, word)? {
            return Ok(if word.starts_with(".") { 5 } else { 0 });
        }
        let number = hexadecimal(word).context("a number")?;
        call.number = number;
        machine.set(place, number);
        Ok(5)
    }

    // Puts the registers of a part of contents: its address, where its area begins and where the entries there do, and 0
    // in the place of a lock word.
    fn put_part_of_contents(&self, machine: &mut Machine, place: u32, part: &str) -> Result<()> {
        let mut numbers = part.split('/').map(hexadecimal);
        let offset = numbers.next().flatten().context("an offset")?;
        let area = numbers.next().flatten().context("an area")?;
        let size = numbers.next().flatten().context("a size")?;
        let begin = self.areas.wrapping_add(area);
        machine.set(place, begin.wrapping_add(offset));
        machine.set(place.saturating_add(1), begin);
        machine.set(
            place.saturating_add(2),
            begin.wrapping_add(whole_words(size)),
        );
        machine.set(place.saturating_add(4), 0);
        Ok(())
    }

    // The lock word of an object.
    fn lock_of(&self, number: &str) -> Result<u64> {
        let number = hexadecimal(number).context("a number")?;
        let object = self
            .objects
            .items
            .get(number as usize)
            .context("an object")?;
        Ok(object.lock)
    }

    // What a line asks for, and a machine with its operands.
    fn call_of(&self, alloc: Global, line: &str) -> Result<(RoutineCall, Machine)> {
        let mut words = line.split(' ');
        let name = words.next().context("a routine")?;
        let number = words.next().and_then(hexadecimal).context("a line")?;
        let limit = words.next().and_then(hexadecimal).context("a limit")?;
        let mut call = RoutineCall {
            routine: routine_named(name).context("no routine")?,
            line: u32::try_from(number)?,
            limit,
            of: None,
            pieces: Vec::new(alloc),
            number: 0,
        };
        let mut machine = self.prepared(alloc)?;
        let mut place = 0u32;
        for word in words {
            let taken = self.put_operand(&mut machine, &mut call, place, word)?;
            place = place.saturating_add(taken);
        }
        Ok((call, machine))
    }

    /// Does what a line asks for, and tells what came of it. The memory is left so where it is kept.
    pub fn perform<S: ShadowForm>(
        &mut self,
        alloc: Global,
        map: &AddrMap,
        line: &str,
        is_kept: bool,
    ) -> Result<String>
        requires map { AreMapped map.now }
    {
        let called = self.perform_called::<S>(alloc, map, line)?;
        let (call, mut after) = self.call_of(alloc, line)?;
        let code = code_of::<S>(alloc, map, &call)?;
        let operands = after.values;
        let left = after.run(&code)?;
        let (key, lock) = (after.value(RESULT.tag.key), after.value(RESULT.tag.lock));
        let mut text = self.told::<S>(alloc, map, &call, &operands, left, &mut after)?;
        if let Some(called) = called
            && called.as_str() != text.as_str()
        {
            text.push_str("\nbut as a function ")?;
            text.push_str(&called)?;
        }
        if is_kept {
            self.key = key;
            self.lock = lock;
            swap(&mut self.machine.memory, &mut after.memory);
        }
        Ok(text)
    }

    // The same by the call of a function of the runtime: that of the fixed list, or one made of the routine for the
    // first line.
    fn perform_called<S: ShadowForm>(
        &mut self,
        alloc: Global,
        map: &AddrMap,
        line: &str,
    ) -> Result<Option<String>>
        requires map { AreMapped map.now }
    {
        let (mut call, mut after) = self.call_of(alloc, line)?;
        if !call.may_be_function() {
            return Ok(None);
        }
        let at = line_of(call.line);
        call.line = 1;
        // the registers that are made 0, a return, and the number of an ending
        call.limit = call.limit.saturating_add(CLEARED.into()).saturating_add(2);
        let listed = function_in_list(&call);
        if listed.is_none() {
            clear(&mut after);
        }
        let operands = after.values;
        let left = match listed {
            Some(function) => call_listed::<S>(alloc, map, &mut after, function, at)?,
            None => {
                let code = code_of::<S>(alloc, map, &call)?;
                let function = function_of(alloc, &code)?;
                call_function(&mut after, &function, at)?
            }
        };
        let text = self.told::<S>(alloc, map, &call, &operands, left, &mut after)?;
        Ok(Some(text))
    }

    // What came of a run.
    fn told<S: ShadowForm>(
        &mut self,
        alloc: Global,
        map: &AddrMap,
        call: &RoutineCall,
        operands: &[u64; REGISTERS],
        left: Left,
        after: &mut Machine,
    ) -> Result<String>
        requires map { AreMapped map.now }
    {
        let read = S::read_entry(alloc, map, 0, RESULT.tag, SCRATCH)?;
        let mut text = String::new(alloc);
        write_left(&mut text, left, &after.report)?;
        if left == Left::Past {
            let given = call.given();
            write_given(&mut text, &self.objects, given, after, self.areas)?;
            write_registers(&mut text, given, operands, &after.values)?;
        }
        write_shown(&mut text, call.is_of_program(), after)?;
        write_steps(&mut text, after.steps, call.limit)?;
        if left == Left::Past {
            self.write_changes(&mut text, map, call.given(), after, &read)?;
        } else {
            // a run that ends was judged before it wrote
            write_bytes(
                &mut text,
                &self.machine.memory.objects,
                &after.memory.objects,
            )?;
        }
        Ok(text)
    }

    // What is changed in memory.
    fn write_changes(
        &mut self,
        text: &mut String,
        map: &AddrMap,
        given: Given,
        after: &mut Machine,
        read: &[FlatInstruction],
    ) -> Result<(), AllocError> {
        let born = born_range(given, after);
        let area = area_given(given, after);
        write_bytes(text, &self.machine.memory.objects, &after.memory.objects)?;
        write_tags(text, &self.objects, &mut self.machine, after, read)?;
        write_spaces(text, map, &self.machine.memory, &after.memory, area)?;
        write_lives(text, &self.objects, &self.machine.memory, &after.memory)?;
        write_born(text, &self.objects, after, read, born)
    }
}

// The range of the objects that are given and were not there before.
fn born_range(given: Given, after: &Machine) -> (u64, u64) {
    let (base, bound) = (after.value(RESULT.tag.base), after.value(RESULT.tag.bound));
    match given {
        Given::Birth => (base, bound),
        Given::Block => (after.value(RESULT.value), base),
        _ => (0, 0),
    }
}

// The bytes of the area where contents are given: those in whole words, and an entry of 32 bytes for each word.
fn area_given(given: Given, after: &Machine) -> Option<(u64, u64)> {
    match given {
        Given::Contents(bytes) => {
            let first = after.value(0);
            let size = after.value(bytes);
            let entries = (size / 8).wrapping_mul(32);
            let end = first.wrapping_add(whole_words(size)).wrapping_add(entries);
            Some((first, end))
        }
        _ => None,
    }
}

// Puts a word of a row into the call, if it is a part of the code.
fn put_part(call: &mut RoutineCall, word: &str) -> Result<bool> {
    if let Some(name) = word.strip_prefix(":") {
        call.of = Some(type_named(name).context("a type")?);
    } else if let Some(name) = word.strip_prefix("%") {
        let directive = directive_named(name).context("a directive")?;
        call.pieces.push(Piece::Argument(directive))?;
    } else if let Some(digits) = word.strip_prefix(".") {
        let byte = hexadecimal(digits).context("a byte")?;
        call.pieces.push(Piece::Byte((byte & 0xff) as u8))?;
    } else {
        return Ok(false);
    }
    Ok(true)
}

fn set_metadata(machine: &mut Machine, place: u32, metadata: &Metadata) {
    machine.set(place, metadata.base);
    machine.set(place.saturating_add(1), metadata.bound);
    machine.set(place.saturating_add(2), metadata.key);
    machine.set(place.saturating_add(3), metadata.lock);
}
