//! Images of flat code and of checked code.

ghost use Rattle.std.specs.Prelude.{◌≡◌, ℕ, ◌<◌, ◌≤◌, ◌^◌, length, Err, IfOk, MatchResult};
ghost use Rattle.metadata_expansion.specs.Numbers.{AreAllSmall};
ghost use Rattle.reg_plan.specs.Planned.{ArePlannable};
ghost use Rattle.rv_codegen.specs.declared.code.GenerateError.TheVariants.{RuntimeTooLarge};
ghost use Rattle.image_laws.specs.Images.Images.{flat_code};
ghost use Rattle.image_compiler.specs.Built.{IsExpandable, IsPlannedImage, IsNotGenerated, IsImageOf, Refuses};
ghost use Rattle.image_compiler.specs.Built.{IsCompiled};

use crate::error::CompileError;
use addr_map::AddrMap;
use flat_code::FlatProgram;
use flat_propagation::propagate;
use image_laws::laws::images::runtimes_have_room;
use metadata_expansion::{expand, fits};
use reg_plan::planned::registers;
use rv_codegen::GenerateError;
use rv_codegen::images::image_of;
use std::alloc::{AllocError, Global};
use tac_ir::Tac;

/// The image of flat code under the plans that give out registers, with no data at the start; or why there is none.
pub fn image_of_flat(
    alloc: Global,
    map: &AddrMap,
    code: &FlatProgram,
) -> Result<Vec<u8>, GenerateError>
    requires count { length code.now.functions < 2 ^ 32 }
    requires plannable { ArePlannable code.now }
    ensures { MatchResult result (λ file. IsPlannedImage map.now code.now file.items)
        (IsNotGenerated map.now code.now) }
{
    let plan = registers(alloc, code)?;
    image_of(
        alloc,
        map,
        code,
        &plan.functions,
        Vec::new(alloc),
        Vec::new(alloc),
    )
}

// The flat code of checked code, in which values are carried to where they are used. It fails only for want of memory.
fn flat_code(alloc: Global, map: &AddrMap, checked: &Tac) -> Result<FlatProgram, AllocError>
    requires { AreAllSmall map.now checked.now }
    ensures { IfOk result (λ code. code ≡ flat_code map.now checked.now) }
{
    let expanded = expand(alloc, map, checked)?;
    propagate(alloc, expanded)
}

// A file that was generated, or the error that its cause is here.
fn compiled(generated: Result<Vec<u8>, GenerateError>) -> Result<Vec<u8>, CompileError>
    requires { (bytes : ℕ) → generated ≡ Err (RuntimeTooLarge bytes) → ⊥ }
    ensures { IsCompiled generated result }
{
    match generated {
        Ok(file) => Ok(file),
        Err(GenerateError::TooLarge(bytes)) => Err(CompileError::TooLarge(bytes)),
        Err(GenerateError::RuntimeTooLarge(_)) => unreachable!(),
        Err(GenerateError::Memory) => Err(CompileError::Memory),
    }
}

/// The image of checked code, whose flat code can be planned and encoded; or why there is none.
pub fn image_of_checked(
    alloc: Global,
    map: &AddrMap,
    checked: &Tac,
) -> Result<Vec<u8>, CompileError>
    requires count { length checked.now.functions ≤ 4096 }
    requires expandable { IsExpandable map.now checked.now }
    ensures { MatchResult result (λ file. IsImageOf map.now checked.now file.items)
        (Refuses map.now checked.now) }
{
    runtimes_have_room();
    if !fits(alloc, map, checked)? {
        return Err(CompileError::NumbersTooLarge);
    }
    let code = flat_code(alloc, map, checked)?;
    compiled(image_of_flat(alloc, map, &code))
}
