//! The memory of flat code: object space, and the spaces of the runtime up to the end of its cells.

use addr_map::{AddrMap, Region};
use std::alloc::{AllocError, Global};

/// The first address of object space.
pub const OBJECTS: u64 = 0x1000_0000;

/// The first address of the spaces of the runtime.
pub const SPACES: u64 = 0x4000_0000;

/// The bytes that flat code may use.
#[derive(Drop)]
pub struct Memory {
    pub objects: Vec<u8>,
    pub spaces: Vec<u8>,
}

// The bytes from an address up to the last of a region.
fn size_up_to(map: &AddrMap, region: Region, start: u64) -> usize {
    let (_, last) = map.region(region);
    last.saturating_sub(start).saturating_add(1) as usize
}

impl Memory {
    /// A memory of zeros for a map.
    pub fn new(alloc: Global, map: &AddrMap) -> Result<Memory, AllocError> {
        let objects = vec![in alloc; 0; size_up_to(map, Region::Heap, OBJECTS)]?;
        let spaces = vec![in alloc; 0; size_up_to(map, Region::Cells, SPACES)]?;
        Ok(Memory { objects, spaces })
    }

    pub fn copy(&self, alloc: Global) -> Result<Memory, AllocError> {
        let objects = Vec::from_slice(alloc, &self.objects)?;
        let spaces = Vec::from_slice(alloc, &self.spaces)?;
        Ok(Memory { objects, spaces })
    }

    fn bytes(&self, address: u64, size: usize) -> Option<&[u8]> {
        if address >= SPACES {
            let first = (address - SPACES) as usize;
            return self.spaces.get(first..first.saturating_add(size));
        }
        let first = address.checked_sub(OBJECTS)? as usize;
        self.objects.get(first..first.saturating_add(size))
    }

    /// The number in so many bytes, or nothing where flat code may not use one of them.
    pub fn load(&self, address: u64, size: usize) -> Option<u64> {
        let bytes = self.bytes(address, size)?;
        let mut number = 0u64;
        for byte in bytes.iter().rev() {
            number = (number << 8) | *byte as u64;
        }
        Some(number)
    }

    /// The word at an address, 0 where there is none.
    pub fn word(&self, address: u64) -> u64 {
        self.load(address, 8).unwrap_or(0)
    }

    /// Puts the low bytes of a number at an address; false where flat code may not use one of them.
    pub fn store(&mut self, address: u64, size: usize, number: u64) -> bool {
        if self.bytes(address, size).is_none() {
            return false;
        }
        let mut rest = number;
        let mut place = address;
        for _ in 0..size {
            self.put(place, (rest & 0xff) as u8);
            rest >>= 8;
            place = place.wrapping_add(1);
        }
        true
    }

    /// Puts a byte at an address of this memory.
    pub fn put(&mut self, address: u64, byte: u8) {
        if address >= SPACES {
            put_at(&mut self.spaces, address - SPACES, byte);
        } else {
            put_at(&mut self.objects, address.saturating_sub(OBJECTS), byte);
        }
    }
}

fn put_at(bytes: &mut Vec<u8>, offset: u64, byte: u8) {
    if let Some(place) = bytes.get_mut(offset as usize) {
        *place = byte;
    }
}
