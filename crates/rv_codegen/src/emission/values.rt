//! Where the values of a function are kept: operands come from there, results go there.

ghost use Rattle.std.specs.Prelude.{◌≡◌, ◌<◌, ◌^◌, ◌++◌, ◌==◌, if◌then◌else◌, [], slice_get, OnOk};
ghost use Rattle.flat_code.specs.declared.instruction.RightOperand.{RightOperand};
ghost use Rattle.machine_laws.specs.Blocks.Places.{home, location, frame_register, saved_register, left_scratch};
ghost use Rattle.machine_laws.specs.Blocks.Places.{right_scratch};
ghost use Rattle.machine_laws.specs.Blocks.Blocks.{constant, used, fetch, keep, used_right, fetch_right, operands};
ghost use Rattle.machine_laws.specs.Blocks.Blocks.{is_same};
ghost use Rattle.machine_laws.specs.Calls.Calls.{save_one, restore_one};
ghost use Rattle.rv_codegen.specs.EmittedCode.Kept.{IsSmall};

use crate::emission::constants::{put_constant, put_load_at, put_store_at};
use flat_code::{FlatFunction, RightOperand};
use machine_laws::Location;
use reg_plan::{FunctionPlan, Place};
use rv_isa::{Instr, Reg};
use std::alloc::AllocError;

/// The register for a left operand or a result that is kept in memory.
pub(crate) fn left_scratch() -> Reg
    ensures { result ≡ left_scratch }
{
    Reg::new(5)
}

/// The register for a right operand that is kept in memory, or is a number.
pub(crate) fn right_scratch() -> Reg
    ensures { result ≡ right_scratch }
{
    Reg::new(6)
}

/// The register of the first address of the activation record of a function.
pub(crate) fn frame_register(function: &FlatFunction) -> Reg
    ensures { result ≡ frame_register function.now }
{
    Reg::new(if function.is_runtime { 4 } else { 2 })
}

// The saved register with a number of a plan.
fn saved_register(number: u32) -> Reg
    ensures { result ≡ saved_register number }
{
    let number = u64::from(number);
    Reg::low(((if number < 2 { 8 + number } else { 16 + number }) % 32) as u32)
}

// Where the home of a virtual register is in the activation record.
#[tactic(auto, unfolding(machine_laws::specs::Blocks::Places::home))]
fn home_of(function: &FlatFunction, register: u64) -> u64
    ensures value { result ≡ home function.now register }
    ensures same { result ≡ Rattle.machine_laws.specs.Blocks.Places.home_of (slice_get function.now.homes register) }
    ensures small { result < 2 ^ 63 }
{
    match function.homes.as_slice().get(register as usize) {
        Some(word) => 8 + 8 * u64::from(*word),
        None => 8,
    }
}

// Where the value of a virtual register is kept.
#[tactic(auto, unfolding(machine_laws::specs::Blocks::Places::location))]
fn location(function: &FlatFunction, plan: &FunctionPlan, register: u64) -> Location
    ensures value { result ≡ location function.now plan.now register }
    ensures small { IsSmall result }
{
    match plan.places.get(register as usize) {
        Some(Place::Register(number)) => {
            Location::Register(u32::from(saved_register(*number).number()))
        }
        Some(Place::Home) | None => Location::Frame(home_of(function, register)),
    }
}

// Whether two places are one.
fn is_same(left: Location, right: Location) -> bool
    ensures { result ≡ is_same left right }
{
    match (left, right) {
        (Location::Register(one), Location::Register(other)) => one == other,
        (Location::Frame(one), Location::Frame(other)) => one == other,
        _ => false,
    }
}

/// Whether two virtual registers are kept in one place.
pub(crate) fn is_same_place(
    function: &FlatFunction,
    plan: &FunctionPlan,
    left: u64,
    right: u64,
) -> bool
    ensures { result ≡ is_same (location function.now plan.now left) (location function.now plan.now right) }
{
    is_same(
        location(function, plan, left),
        location(function, plan, right),
    )
}

// The register in which a value is found or left: its own, or the scratch register.
fn used_at(location: Location, scratch: Reg) -> Reg
    requires { IsSmall location }
    ensures { result ≡ used location scratch }
{
    match location {
        Location::Register(number) => Reg::new(number as u8),
        Location::Frame(_) => scratch,
    }
}

// Puts what brings a value that is kept in its home into the scratch register.
#[tactic(auto, using(crate::proofs::EmittedCode::Lists::nothing_fetched))]
fn put_fetch_at(
    code: &mut Vec<Instr>,
    location: Location,
    base: Reg,
    scratch: Reg,
) -> Result<(), AllocError>
    requires { IsSmall location }
    ensures { OnOk result (code.new.items ≡ code.old.items ++ fetch location base scratch) }
{
    match location {
        Location::Register(_) => Ok(()),
        Location::Frame(offset) => put_load_at(code, scratch, base, offset),
    }
}

// Puts what brings a result from the scratch register to its home, if it is kept there.
#[tactic(auto, using(crate::proofs::EmittedCode::Lists::nothing_kept))]
fn put_keep_at(
    code: &mut Vec<Instr>,
    location: Location,
    base: Reg,
    scratch: Reg,
) -> Result<(), AllocError>
    requires { IsSmall location }
    ensures { OnOk result (code.new.items ≡ code.old.items ++ keep location base scratch) }
{
    match location {
        Location::Register(_) => Ok(()),
        Location::Frame(offset) => put_store_at(code, scratch, base, offset),
    }
}

// The register in which a number is found as a right operand: x0 has 0.
fn number_register(number: u64) -> Reg
    ensures { result ≡ (if number == 0 then 0 else right_scratch) }
{
    if number == 0 {
        Reg::ZERO
    } else {
        right_scratch()
    }
}

// Puts what brings it there.
#[tactic(auto, using(crate::proofs::EmittedCode::Lists::nothing_behind))]
fn put_number(code: &mut Vec<Instr>, number: u64) -> Result<(), AllocError>
    ensures { OnOk result
        (code.new.items ≡ code.old.items ++ (if number == 0 then [] else constant right_scratch number)) }
{
    if number == 0 {
        return Ok(());
    }
    put_constant(code, right_scratch(), u128::from(number))
}

/// The register in which the value of a right operand is found.
pub(crate) fn used_right(function: &FlatFunction, plan: &FunctionPlan, right: RightOperand) -> Reg
    ensures { result ≡ used_right (location function.now plan.now) right }
{
    match right {
        RightOperand::Register(register) => {
            used(function, plan, u64::from(register), right_scratch())
        }
        RightOperand::Number(number) => number_register(number),
    }
}

// Puts what brings the value of a right operand into its register.
fn put_fetch_right(
    code: &mut Vec<Instr>,
    function: &FlatFunction,
    plan: &FunctionPlan,
    right: RightOperand,
) -> Result<(), AllocError>
    ensures { OnOk result
        (code.new.items ≡ code.old.items
        ++ fetch_right (location function.now plan.now) (frame_register function.now) right) }
{
    match right {
        RightOperand::Register(register) => {
            put_fetch(code, function, plan, u64::from(register), right_scratch())
        }
        RightOperand::Number(number) => put_number(code, number),
    }
}

/// Puts what brings the values of both operands into their registers.
pub(crate) fn put_operands(
    code: &mut Vec<Instr>,
    function: &FlatFunction,
    plan: &FunctionPlan,
    left: u32,
    right: RightOperand,
) -> Result<(), AllocError>
    ensures { OnOk result
        (code.new.items ≡ code.old.items
        ++ operands (location function.now plan.now) (frame_register function.now) left right) }
{
    put_fetch(code, function, plan, u64::from(left), left_scratch())?;
    put_fetch_right(code, function, plan, right)
}

// Puts what brings a value that is kept in a register to its home.
#[tactic(auto, using(crate::proofs::EmittedCode::Lists::nothing_saved))]
fn put_save_at(
    code: &mut Vec<Instr>,
    location: Location,
    base: Reg,
    home: u64,
) -> Result<(), AllocError>
    requires location { IsSmall location }
    requires home { home < 2 ^ 63 }
    ensures { OnOk result (code.new.items ≡ code.old.items ++ save_one location base home) }
{
    match location {
        Location::Register(number) => put_store_at(code, Reg::new(number as u8), base, home),
        Location::Frame(_) => Ok(()),
    }
}

// Puts what brings it back.
#[tactic(auto, using(crate::proofs::EmittedCode::Lists::nothing_restored))]
fn put_restore_at(
    code: &mut Vec<Instr>,
    location: Location,
    base: Reg,
    home: u64,
) -> Result<(), AllocError>
    requires location { IsSmall location }
    requires home { home < 2 ^ 63 }
    ensures { OnOk result (code.new.items ≡ code.old.items ++ restore_one location base home) }
{
    match location {
        Location::Register(number) => put_load_at(code, Reg::new(number as u8), base, home),
        Location::Frame(_) => Ok(()),
    }
}

/// The register in which the value of a virtual register is found or left: its own, or the scratch register.
pub(crate) fn used(function: &FlatFunction, plan: &FunctionPlan, register: u64, scratch: Reg) -> Reg
    ensures { result ≡ used (location function.now plan.now register) scratch }
{
    used_at(location(function, plan, register), scratch)
}

/// Puts what brings the value of a virtual register that is kept in its home into the scratch register.
pub(crate) fn put_fetch(
    code: &mut Vec<Instr>,
    function: &FlatFunction,
    plan: &FunctionPlan,
    register: u64,
    scratch: Reg,
) -> Result<(), AllocError>
    ensures { OnOk result
        (code.new.items ≡ code.old.items
        ++ fetch (location function.now plan.now register) (frame_register function.now) scratch) }
{
    put_fetch_at(
        code,
        location(function, plan, register),
        frame_register(function),
        scratch,
    )
}

/// Puts what brings a result from the scratch register to the home of a virtual register, if it is kept there.
pub(crate) fn put_keep(
    code: &mut Vec<Instr>,
    function: &FlatFunction,
    plan: &FunctionPlan,
    register: u64,
    scratch: Reg,
) -> Result<(), AllocError>
    ensures { OnOk result
        (code.new.items ≡ code.old.items
        ++ keep (location function.now plan.now register) (frame_register function.now) scratch) }
{
    put_keep_at(
        code,
        location(function, plan, register),
        frame_register(function),
        scratch,
    )
}

/// Puts what brings the value of a virtual register that is kept in a register to its home.
pub(crate) fn put_save(
    code: &mut Vec<Instr>,
    function: &FlatFunction,
    plan: &FunctionPlan,
    register: u64,
) -> Result<(), AllocError>
    ensures { OnOk result
        (code.new.items ≡ code.old.items
        ++ save_one (location function.now plan.now register) (frame_register function.now)
        (home function.now register)) }
{
    let location = location(function, plan, register);
    put_save_at(
        code,
        location,
        frame_register(function),
        home_of(function, register),
    )
}

/// Puts what brings it back.
pub(crate) fn put_restore(
    code: &mut Vec<Instr>,
    function: &FlatFunction,
    plan: &FunctionPlan,
    register: u64,
) -> Result<(), AllocError>
    ensures { OnOk result
        (code.new.items ≡ code.old.items
        ++ restore_one (location function.now plan.now register) (frame_register function.now)
        (home function.now register)) }
{
    let location = location(function, plan, register);
    put_restore_at(
        code,
        location,
        frame_register(function),
        home_of(function, register),
    )
}
