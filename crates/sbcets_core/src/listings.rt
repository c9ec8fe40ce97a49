//! The commands on listings, the tool's own line apart.
ghost use Rattle.std.specs.Prelude.{◌≡◌, [], None, IfOk, IfErr, OnOk, ℕ, List, Option};
ghost use Rattle.elf_image.specs.Tests.{Fails, image_fault};
ghost use Rattle.sb_outside.specs.Rest.{Rest};
ghost use Rattle.sbcets_core.specs.Commands.{outside_of};
ghost use Rattle.sbcets_core.specs.Counting.{CommandCounts, counts_of};
ghost use Rattle.sbcets_core.specs.Listings.{Assembles, Lists, Spells, SpellsNone, listing_of};

use crate::commands::{MAX_IMAGE, read_of};
use crate::outcome::Outcome;
use elf_image::{Image, ReadError, code_ranges};
use rv_listing::{ListRefusal, list_text, read_list};
use sb_outside::{Files, Sink};
use std::alloc::Global;

// The largest listing that is read, in bytes.
const MAX_LISTING: u64 = 1_073_741_824;

/// `list`: reads an image, and puts its listing to the output.
#[tactic(auto, using(crate::proofs::ListingCases::listing))]
pub fn list<F: Files, O: Sink>(alloc: Global, name: &str, files: &mut F, output: &mut O) -> Outcome
    ensures lists { (input : Rest) (errors : Option (List ℕ)) → Lists name.now result []
        (outside_of (F.held files.old) (F.reads files.old) (F.writes files.old) input (O.taken output.old) errors)
        (outside_of (F.held files.new) (F.reads files.new) (F.writes files.new) input (O.taken output.new) errors) }
    ensures counts { (input errors : ℕ) → CommandCounts result
        (counts_of (F.read_faults files.old) (F.write_faults files.old) input (O.faults output.old) errors)
        (counts_of (F.read_faults files.new) (F.write_faults files.new) input (O.faults output.new) errors) }
{
    let image = match read_of(alloc, name, MAX_IMAGE, files) {
        Ok(image) => image,
        Err(outcome) => return outcome,
    };
    let text = match listing_of(alloc, &image) {
        Ok(text) => text,
        Err(ReadError::Memory) => return Outcome::Memory,
        Err(ReadError::Fault(fault)) => return Outcome::ImageRefused(fault),
    };
    match output.put(&text) {
        Ok(()) => Outcome::Done,
        Err(_) => Outcome::WriteFault,
    }
}

/// `asm`: reads a listing, and writes the image that it spells into a file.
#[tactic(auto, using(crate::proofs::ListingCases::assembling))]
pub fn assemble<F: Files>(alloc: Global, name: &str, target: &str, files: &mut F) -> Outcome
    ensures assembles { (input : Rest) (output errors : Option (List ℕ)) → Assembles name.now target.now result []
        (outside_of (F.held files.old) (F.reads files.old) (F.writes files.old) input output errors)
        (outside_of (F.held files.new) (F.reads files.new) (F.writes files.new) input output errors) }
    ensures counts { (input output errors : ℕ) → CommandCounts result
        (counts_of (F.read_faults files.old) (F.write_faults files.old) input output errors)
        (counts_of (F.read_faults files.new) (F.write_faults files.new) input output errors) }
{
    let text = match read_of(alloc, name, MAX_LISTING, files) {
        Ok(text) => text,
        Err(outcome) => return outcome,
    };
    let image = match image_of_listing(alloc, &text) {
        Ok(image) => image,
        Err(outcome) => return outcome,
    };
    match files.write(target, &image) {
        Ok(()) => Outcome::Done,
        Err(_) => Outcome::WriteFault,
    }
}

// The listing of an image.
fn listing_of(alloc: Global, bytes: &[u8]) -> Result<Vec<u8>, ReadError>
    ensures readable { OnOk result (image_fault bytes.now ≡ None) }
    ensures text { IfOk result (λ text. text.items ≡ listing_of bytes.now) }
    ensures refused { IfErr result (λ e. Fails e (image_fault bytes.now)) }
{
    test_image(alloc, bytes)?;
    let ranges = match code_ranges(alloc, bytes) {
        Ok(ranges) => ranges,
        Err(_) => return Err(ReadError::Memory),
    };
    match list_text(alloc, bytes, &ranges) {
        Ok(text) => Ok(text),
        Err(_) => Err(ReadError::Memory),
    }
}

// Whether bytes are an image, or the first of its tests that they fail.
fn test_image(alloc: Global, bytes: &[u8]) -> Result<(), ReadError>
    ensures readable { OnOk result (image_fault bytes.now ≡ None) }
    ensures refused { IfErr result (λ e. Fails e (image_fault bytes.now)) }
{
    match Image::read(alloc, bytes) {
        Ok(_) => Ok(()),
        Err(error) => Err(error),
    }
}

// The image that a listing spells, or the outcome without it.
fn image_of_listing(alloc: Global, text: &[u8]) -> Result<Vec<u8>, Outcome>
    ensures spelled { IfOk result (λ image. Spells text.now image.items) }
    ensures refused { IfErr result (λ outcome. SpellsNone text.now outcome) }
{
    let bytes = match read_list(alloc, text) {
        Ok(bytes) => bytes,
        Err(ListRefusal::Fault { kind, line }) => return Err(Outcome::ListRefused { kind, line }),
        Err(ListRefusal::Memory) => return Err(Outcome::Memory),
    };
    match test_image(alloc, &bytes) {
        Ok(()) => Ok(bytes),
        Err(ReadError::Memory) => Err(Outcome::Memory),
        Err(ReadError::Fault(fault)) => Err(Outcome::ImageRefused(fault)),
    }
}
