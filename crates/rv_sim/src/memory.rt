//! Memory: segments of bytes with permissions. An access lies in the one segment that holds its first
//! byte, or is refused; it may be misaligned. Numbers are little endian.
ghost use Rattle.std.specs.Prelude.{◌≡◌, ℕ, ◌+◌, ◌-◌, ◌*◌, ◌/◌, ◌%◌, ◌^◌, ◌<◌, ◌≤◌};
ghost use Rattle.std.specs.Prelude.{length, IfSome, MatchOption};
ghost use Rattle.std.specs.Prelude.{true, false, Some, None};
ghost use Rattle.rv_sim.specs.Memory.{SegmentState, holds, covers, place_of, number_in, with_number, segment_at};
ghost use Rattle.rv_sim.specs.Memory.{read_in, fetched_in, written_in, bytes_in, bytes_at, room_in, may_write, load};
ghost use Rattle.rv_sim.specs.Memory.{fetch, store};
ghost use Rattle.rv_sim.specs.Width.{byte_count};

use crate::width::Width;
use byteorder::{ByteOrder, LittleEndian};
use std::marker::Model;

/// A range of addresses with its bytes and permissions.
#[derive(Drop)]
pub struct Segment {
    address: u64,
    bytes: Vec<u8>,
    readable: bool,
    writable: bool,
    executable: bool,
}

impl Model for Segment {
    ghost Value = { SegmentState };

    ghost view = { λ s. record {
      address = s.address;
      bytes = s.bytes.items;
      readable = s.readable;
      writable = s.writable;
      executable = s.executable;
    } };
}

impl Segment {
    /// A segment from an address on, as long as its bytes.
    pub fn new(
        address: u64,
        bytes: Vec<u8>,
        readable: bool,
        writable: bool,
        executable: bool,
    ) -> Self
        ensures { result
            ≡ record {
              address = address;
              bytes = bytes.items;
              readable = readable;
              writable = writable;
              executable = executable;
            } }
    {
        Self {
            address,
            bytes,
            readable,
            writable,
            executable,
        }
    }

    fn holds(&self, address: u64) -> bool
        ensures { result ≡ holds self.now address }
    {
        self.address <= address && address - self.address < self.bytes.len() as u64
    }

    // Whether so many bytes from an address of the segment on are its own.
    fn covers(&self, address: u64, count: u64) -> bool
        ensures { result ≡ covers self.now address count }
    {
        let start = address.saturating_sub(self.address);
        let len = self.bytes.len() as u64;
        start <= len && count <= len - start
    }

    fn number(&self, address: u64, width: Width) -> u64
        requires { address - self.now.address + byte_count width ≤ length self.now.bytes }
        ensures value { result ≡ number_in self.now address (byte_count width) }
        ensures fits { result < 256 ^ byte_count width }
    {
        let start = address.saturating_sub(self.address) as usize;
        let bytes = &self.bytes[start..];
        match width {
            Width::Byte => u64::from(bytes[0]),
            Width::Half => u64::from(LittleEndian::read_u16(bytes)),
            Width::Word => u64::from(LittleEndian::read_u32(bytes)),
            Width::Double => LittleEndian::read_u64(bytes),
        }
    }

    fn read(&self, address: u64, width: Width) -> Option<u64>
        ensures value { result ≡ read_in self.now address (byte_count width) }
        ensures fits { IfSome result (λ n. n < 256 ^ byte_count width) }
    {
        if self.readable && self.covers(address, width.bytes() as u64) {
            Some(self.number(address, width))
        } else {
            None
        }
    }

    fn fetched(&self, address: u64) -> Option<u32>
        ensures { result ≡ fetched_in self.now address }
    {
        if self.executable && self.covers(address, 4) {
            Some(self.number(address, Width::Word) as u32)
        } else {
            None
        }
    }

    fn buffer(&self, address: u64, count: u64) -> Option<&[u8]>
        ensures { MatchOption result (bytes_in self.now address count ≡ None)
            (λ bytes. bytes_in self.now address count ≡ Some bytes.now) }
    {
        if self.readable && self.covers(address, count) {
            let start = address.saturating_sub(self.address) as usize;
            Some(&self.bytes[start..start + count as usize])
        } else {
            None
        }
    }

    fn has_room(&self, address: u64, count: u64) -> bool
        ensures { result ≡ room_in (Some self.now) address count }
    {
        self.writable && self.covers(address, count)
    }

    fn put(&mut self, address: u64, width: Width, value: u64)
        requires { address - self.old.address + byte_count width ≤ length self.old.bytes }
        ensures { self.new ≡ with_number self.old address (byte_count width) value }
    {
        let start = address.saturating_sub(self.address) as usize;
        let bytes = &mut self.bytes[start..];
        match width {
            Width::Byte => bytes[0] = (value & 0xff) as u8,
            Width::Half => LittleEndian::write_u16(bytes, (value & 0xffff) as u16),
            Width::Word => LittleEndian::write_u32(bytes, (value & 0xffff_ffff) as u32),
            Width::Double => LittleEndian::write_u64(bytes, value),
        }
    }

    // Whether the number was written; else nothing changes.
    fn write(&mut self, address: u64, width: Width, value: u64) -> bool
        ensures { MatchOption (written_in self.old address (byte_count width) value)
            ((result ≡ false) × (self.new ≡ self.old)) (λ after. (result ≡ true) × (self.new ≡ after)) }
    {
        if self.writable && self.covers(address, width.bytes() as u64) {
            self.put(address, width, value);
            true
        } else {
            false
        }
    }
}

// The place of the segment that holds an address.
#[tactic(auto, unfolding(crate::specs::Memory::place_of))]
fn place(memory: &[Segment], address: u64) -> Option<usize>
    ensures place { result ≡ place_of memory.now address }
    ensures within { IfSome result (λ i. i < length memory.now) }
{
    memory.iter().position(|s| s.holds(address))
}

fn find(memory: &[Segment], address: u64) -> Option<&Segment>
    ensures { MatchOption result (segment_at memory.now address ≡ None)
        (λ s. segment_at memory.now address ≡ Some s.now) }
{
    let place = place(memory, address)?;
    Some(&memory[place])
}

/// The number at an address. `None` where a byte of it lies outside the segment that holds the first,
/// or that segment may not be read.
#[tactic(auto, unfolding(crate::specs::Memory::load))]
pub fn load_number(memory: &[Segment], address: u64, width: Width) -> Option<u64>
    ensures value { result ≡ load memory.now address (byte_count width) }
    ensures fits { IfSome result (λ n. n < 256 ^ byte_count width) }
{
    find(memory, address)?.read(address, width)
}

/// The word of the instruction at an address. `None` where a byte of it lies outside the segment that
/// holds the first, or that segment may not be executed.
#[tactic(auto, unfolding(crate::specs::Memory::fetch))]
pub fn fetch_word(memory: &[Segment], address: u64) -> Option<u32>
    ensures { result ≡ fetch memory.now address }
{
    find(memory, address)?.fetched(address)
}

/// Stores the low bytes of a number at an address. `false`, and nothing changes, where a byte lies
/// outside the segment that holds the first, or that segment may not be written.
#[tactic(auto, unfolding(crate::specs::Memory::store))]
pub fn store_number(memory: &mut [Segment], address: u64, width: Width, value: u64) -> bool
    ensures { MatchOption (store memory.old address (byte_count width) value)
        ((result ≡ false) × (memory.new ≡ memory.old)) (λ after. (result ≡ true) × (memory.new ≡ after)) }
{
    match place(memory, address) {
        Some(place) => memory[place].write(address, width, value),
        None => false,
    }
}

/// The buffer of so many bytes from an address on. `None` where a byte lies outside the segment that
/// holds the first, or that segment may not be read.
#[tactic(auto, unfolding(crate::specs::Memory::bytes_at))]
pub fn buffer_at(memory: &[Segment], address: u64, count: u64) -> Option<&[u8]>
    ensures { MatchOption result (bytes_at memory.now address count ≡ None)
        (λ bytes. bytes_at memory.now address count ≡ Some bytes.now) }
{
    find(memory, address)?.buffer(address, count)
}

/// Whether the buffer of so many bytes from an address on lies in one segment that may be written.
#[tactic(auto, unfolding(crate::specs::Memory::may_write))]
pub fn has_room(memory: &[Segment], address: u64, count: u64) -> bool
    ensures { result ≡ may_write memory.now address count }
{
    match find(memory, address) {
        Some(segment) => segment.has_room(address, count),
        None => false,
    }
}
