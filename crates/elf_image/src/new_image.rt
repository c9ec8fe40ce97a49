//! What an image is written from.

use std::marker::Model;

/// A segment to be written.
#[derive(Drop)]
pub struct NewSegment {
    /// The first address of the segment in memory (ELF-64, `p_vaddr`).
    pub address: u64,
    /// The bytes that the file has of it, from its first address on. Those after them are zero in memory.
    pub bytes: Vec<u8>,
    /// How many bytes the segment has in memory (`p_memsz`).
    pub size: u64,
}

impl Model for NewSegment {
    ghost use Rattle.elf_image.specs.Writing.{WrittenSegment};

    ghost Value = { WrittenSegment };

    ghost view = { λ p. record { address = p.address; bytes = p.bytes.items; size = p.size } };
}

/// An image to be written: where its run begins, and its four segments.
#[derive(Drop)]
pub struct NewImage {
    /// The address of the first instruction (ELF-64, `e_entry`).
    pub entry: u64,
    /// The jump table of the functions, and the runtime: executable, and neither readable nor writable.
    pub jump_table: NewSegment,
    /// The compiled code: executable, and neither readable nor writable.
    pub code: NewSegment,
    /// The objects of the program: readable and writable.
    pub objects: NewSegment,
    /// The spaces of the runtime: readable and writable.
    pub runtime: NewSegment,
}

impl Model for NewImage {
    ghost use Rattle.elf_image.specs.Writing.{WrittenImage};

    ghost Value = { WrittenImage };

    ghost view = { λ p. record {
      entry = p.entry;
      jump_table = p.jump_table;
      code = p.code;
      objects = p.objects;
      runtime = p.runtime;
    } };
}
