//! The machine of an image.

ghost use Rattle.std.specs.Prelude.{◌≡◌, IfOk, None};
ghost use Rattle.elf_image.specs.Layout.{content_of};
ghost use Rattle.elf_image.specs.Tests.{image_fault};
ghost use Rattle.rv_sim.specs.Start.{start_of};

use elf_image::Image;
use rv_sim::Machine;
use std::alloc::{AllocError, Global};

/// The machine that begins the image that the bytes of a file spell, as `image_of` makes them. An error is want of
/// memory.
pub fn machine_of(alloc: Global, file: &[u8]) -> Result<Machine, AllocError>
    requires { image_fault file.now ≡ None }
    ensures { IfOk result (λ m. m ≡ record { state = start_of (content_of file.now); stopped = None }) }
{
    match Image::read(alloc, file) {
        Ok(image) => Machine::load(alloc, &image),
        Err(_) => Err(AllocError),
    }
}
