//! Images.

ghost use Rattle.std.specs.Prelude.{◌≡◌, ◌++◌, ◌≤◌, length, MatchResult, OnOk, IfOk};
ghost use Rattle.elf_image.specs.Writing.{SegmentsFit};
ghost use Rattle.machine_laws.specs.Following.Matching.{object_bytes, space_bytes};
ghost use Rattle.machine_laws.specs.Layout.Lists.{bytes_of};
ghost use Rattle.rv_codegen.specs.Generated.{IsReady, IsCause};
ghost use Rattle.rv_codegen.specs.MachineImages.Image.{code_part, image_with, IsImage, ImageFollows};

use crate::images::laws::images_follow;
use crate::{Code, GenerateError, generate};
use addr_map::laws::{objects_stand_in_object_space, regions_stand_in_order, sizes_are_in_range};
use addr_map::{AddrMap, Region};
use elf_image::laws::segments_in_order_fit;
use elf_image::{Image, NewImage, NewSegment};
use flat_code::FlatProgram;
use reg_plan::FunctionPlan;
use std::alloc::{AllocError, Global};

// Where the segments begin.
const FUNCTIONS: u64 = 0x1_0000;

const CODE: u64 = 0x10_0000;

const OBJECTS: u64 = 0x1000_0000;

const SPACES: u64 = 0x4000_0000;

// Puts the bytes of words, of each the lowest first.
fn put_bytes(bytes: &mut Vec<u8>, words: &[u32]) -> Result<(), AllocError>
    ensures { OnOk result (bytes.new.items ≡ bytes.old.items ++ bytes_of words.now) }
{
    for word in words {
        bytes.extend_from_slice(&word.to_le_bytes())?;
    }
    Ok(())
}

// A segment of code.
fn code_part(alloc: Global, address: u64, words: &[u32]) -> Result<NewSegment, AllocError>
    ensures { IfOk result (λ part. part ≡ code_part address words.now) }
{
    let mut bytes = Vec::new(alloc);
    put_bytes(&mut bytes, words)?;
    let size = bytes.len() as u64;
    Ok(NewSegment {
        address,
        bytes,
        size,
    })
}

// The bytes of object space.
fn object_bytes(map: &AddrMap) -> u64
    ensures { result ≡ object_bytes map.now }
{
    sizes_are_in_range(map);
    regions_stand_in_order();
    objects_stand_in_object_space();
    let (_, last) = map.region(Region::Heap);
    last + 1 - OBJECTS
}

// The bytes of the runtime's spaces, with the words of arguments and the activation records.
fn space_bytes(map: &AddrMap) -> u64
    ensures { result ≡ space_bytes map.now }
{
    sizes_are_in_range(map);
    regions_stand_in_order();
    objects_stand_in_object_space();
    let (_, last) = map.region(Region::RuntimeCalls);
    last + 1 - SPACES
}

// The four segments.
fn parts_of(
    alloc: Global,
    map: &AddrMap,
    code: &Code,
    objects: Vec<u8>,
    spaces: Vec<u8>,
) -> Result<NewImage, AllocError>
    ensures { IfOk result (λ parts. parts ≡ image_with map.now code.now.start code.now.table.items
        code.now.compiled.items objects.items spaces.items) }
{
    let jump_table = code_part(alloc, FUNCTIONS, &code.table)?;
    let compiled = code_part(alloc, CODE, &code.compiled)?;
    Ok(NewImage {
        entry: code.start,
        jump_table,
        code: compiled,
        objects: NewSegment {
            address: OBJECTS,
            bytes: objects,
            size: object_bytes(map),
        },
        runtime: NewSegment {
            address: SPACES,
            bytes: spaces,
            size: space_bytes(map),
        },
    })
}

/// The image of a program under its plans, one for each function: its generated code, the bytes that object space has
/// at the start, from 0x10000000 on, and those of the runtime's spaces, from 0x40000000 on; what is not given is zero.
/// The machine that begins it follows the program, for every input. An error is a cause that `generate` names.
pub fn image_of(
    alloc: Global,
    map: &AddrMap,
    program: &FlatProgram,
    plans: &[FunctionPlan],
    objects: Vec<u8>,
    spaces: Vec<u8>,
) -> Result<Vec<u8>, GenerateError>
    requires ready { IsReady program.now plans.now }
    requires objects { length objects.items ≤ object_bytes map.now }
    requires spaces { length spaces.items ≤ space_bytes map.now }
    ensures image { MatchResult result
        (λ file. IsImage map.now program.now plans.now objects.items spaces.items file.items)
        (IsCause map.now program.now plans.now) }
    ensures follows { IfOk result
        (λ file. ImageFollows map.now program.now plans.now objects.items spaces.items file.items) }
{
    let code = generate(alloc, map, program, plans)?;
    sizes_are_in_range(map);
    segments_in_order_fit();
    images_follow();
    let parts = parts_of(alloc, map, &code, objects, spaces)?;
    let file = Image::write(alloc, &parts)?;
    Ok(file)
}
