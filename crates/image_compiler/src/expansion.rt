//! Images of checked code by its expansion under a form of the shadow space, for programs with objects and pointers.

ghost use Rattle.std.specs.Prelude.{◌≡◌, ◌<◌, IfOk};
ghost use Rattle.std.specs.List.{All};
ghost use Rattle.addr_map.specs.declared.region.Region.TheVariants.{Shadow};
ghost use Rattle.addr_map.specs.Places.{region_size};
ghost use Rattle.image_laws.specs.Images.Expansions.{IsExpandedImage};
ghost use Rattle.image_compiler.specs.Expanded.{AreDataOf, IsExpandedFlat, IsTestedFlat, HasSoundStatics};
ghost use Rattle.image_compiler.specs.declared.expansion.ExpansionError.TheVariants.{Memory};

use addr_map::laws::{regions_stand_in_order, sizes_are_in_range};
use addr_map::{AddrMap, Region};
use flat_code::FlatProgram;
use flat_propagation::propagate;
use image_laws::laws::encoding::expanded_programs_are_startable;
use image_laws::laws::propagation::propagated_programs_are_startable;
use instruction_selection::covered::covers_all;
use instruction_selection::start_data::{static_bytes, static_entries};
use instruction_selection::type_keys::type_keys;
use program_expansion::limits::are_within_limits;
use program_expansion::{ExpandError, expand};
use reg_plan::planned::registers;
use runtime_functions::runtime::runtime_functions;
use rv_codegen::GenerateError;
use rv_codegen::images::image_of;
use shadow_space::ShadowForm;
use std::alloc::{AllocError, Global};
use tac_ir::Tac;
use target_limits::{is_encodable, is_plannable};

/// Why a program has no image by its expansion.
#[derive(Clone, Copy, Debug)]
pub enum ExpansionError {
    /// It is not compiled yet: an instruction of its checked code is not covered, its numbers are not within limits, or
    /// its flat code cannot be encoded, planned or placed.
    NotCompiled,
    /// There is no memory.
    Memory,
}

impl From<AllocError> for ExpansionError {
    ghost from_gives = { λ _ e. e ≡ Memory };

    fn from(_: AllocError) -> ExpansionError {
        ExpansionError::Memory
    }
}

// What an error of the expansion is here.
fn of_expand(error: ExpandError) -> ExpansionError {
    match error {
        ExpandError::OutsideLimits | ExpandError::TooManyInstructions =>
            ExpansionError::NotCompiled,
        ExpandError::Memory => ExpansionError::Memory,
    }
}

// What an error of code generation is here.
fn of_generate(error: GenerateError) -> ExpansionError {
    match error {
        GenerateError::TooLarge(_) | GenerateError::RuntimeTooLarge(_) =>
            ExpansionError::NotCompiled,
        GenerateError::Memory => ExpansionError::Memory,
    }
}

// The flat code of covered code, in which values are carried to where they are used.
fn flat_code<S: ShadowForm>(
    alloc: Global,
    map: &AddrMap,
    code: &Tac,
) -> Result<FlatProgram, ExpansionError>
    ensures { IfOk result (IsExpandedFlat S.entry_read S.entry_write S.entry (S.IsGood map.now) map.now code.now) }
{
    sizes_are_in_range(map);
    if !covers_all(alloc, code)? {
        return Err(ExpansionError::NotCompiled);
    }
    let runtime = runtime_functions::<S>(alloc, map)?;
    match expand::<S>(alloc, map, code, runtime) {
        Ok(expanded) => Ok(propagate(alloc, expanded)?),
        Err(error) => Err(of_expand(error)),
    }
}

// The same, where the machine has instructions for it, and it can be planned; the machine can begin it.
fn tested_code<S: ShadowForm>(
    alloc: Global,
    map: &AddrMap,
    code: &Tac,
) -> Result<FlatProgram, ExpansionError>
    ensures { IfOk result (IsTestedFlat S.entry_read S.entry_write S.entry (S.IsGood map.now) map.now code.now) }
{
    expanded_programs_are_startable();
    propagated_programs_are_startable();
    let flat = flat_code::<S>(alloc, map, code)?;
    if is_encodable(&flat) && is_plannable(alloc, &flat)? {
        Ok(flat)
    } else {
        Err(ExpansionError::NotCompiled)
    }
}

/// The data with which an image begins.
#[derive(Drop)]
pub struct ImageData {
    /// The bytes of the static objects.
    pub objects: Vec<u8>,
    /// The bytes of the shadow space.
    pub spaces: Vec<u8>,
}

// The bytes of the shadow space.
#[tactic(auto, unfolding(addr_map::specs::Places::region_size))]
fn shadow_bytes(map: &AddrMap) -> u64
    ensures { result ≡ region_size map.now Shadow }
{
    sizes_are_in_range(map);
    regions_stand_in_order();
    let (first, last) = map.region(Region::Shadow);
    last + 1 - first
}

// Bytes are less than 256.
fn are_bytes(bytes: &[u8])
    ensures { All (λ b. b < 256) bytes.now }
{
    // What is known of a slice that is read: each of its items is in the range of its type.
    let _count = bytes.len();
}

// The data of code: its static objects, and the entries of the pointers that they hold.
fn data_of<S: ShadowForm>(
    alloc: Global,
    map: &AddrMap,
    code: &Tac,
) -> Result<ImageData, ExpansionError>
    requires { HasSoundStatics map.now code.now }
    ensures { IfOk result (AreDataOf S.entry (S.IsGood map.now) map.now code.now) }
{
    if !are_within_limits(alloc, code)? {
        return Err(ExpansionError::NotCompiled);
    }
    sizes_are_in_range(map);
    let statics = code.statics.as_slice();
    let types = type_keys(alloc, code.functions.as_slice())?;
    let (lock, _) = map.region(Region::Locks);
    let objects = static_bytes(alloc, statics)?;
    let entries = static_entries(alloc, statics, &types, lock)?;
    let spaces = S::start(alloc, map, &entries)?;
    if spaces.len() as u64 > shadow_bytes(map) {
        return Err(ExpansionError::NotCompiled);
    }
    are_bytes(&spaces);
    Ok(ImageData { objects, spaces })
}

/// The image of checked code by its expansion, if it is covered and passes all tests. An error says nothing but whether
/// memory was wanting.
pub fn image_of_expansion<S: ShadowForm>(
    alloc: Global,
    map: &AddrMap,
    code: &Tac,
) -> Result<Vec<u8>, ExpansionError>
    requires { HasSoundStatics map.now code.now }
    ensures { IfOk result (λ file. IsExpandedImage S.entry_read S.entry_write S.entry (S.IsGood map.now) map.now
        code.now file.items) }
{
    let flat = tested_code::<S>(alloc, map, code)?;
    let plan = registers(alloc, &flat)?;
    let data = data_of::<S>(alloc, map, code)?;
    match image_of(
        alloc,
        map,
        &flat,
        &plan.functions,
        data.objects,
        data.spaces,
    ) {
        Ok(file) => Ok(file),
        Err(error) => Err(of_generate(error)),
    }
}
