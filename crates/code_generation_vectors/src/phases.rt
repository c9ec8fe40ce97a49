//! What is done with a program that can be planned.

ghost use Rattle.reg_plan.specs.Planned.{ArePlannable};
ghost use Rattle.code_generation_vectors.specs.Named.{IsSmall};

use crate::runs::{Given, image, map_of, put_runs};
use anyhow::{Result, bail};
use flat_code::FlatProgram;
use reg_plan::planned::{registers, slots};

/// How far it goes.
#[derive(Clone, Copy)]
pub enum Phase {
    /// It was tested whether it can be planned, and no more.
    Test,
    /// Registers are given out.
    Plan,
    /// The image under that plan is made.
    Generate,
    /// The images under both plans are printed in hexadecimal digits.
    Print,
    /// Both images run.
    Run,
}

impl Phase {
    /// The phase with a name.
    pub fn named(name: &str) -> Result<Phase> {
        Ok(match name {
            "test" => Phase::Test,
            "plan" => Phase::Plan,
            "generate" => Phase::Generate,
            "print" => Phase::Print,
            _ => bail!("no phase"),
        })
    }
}

// Prints how many functions have a plan.
fn put_plan(rt: &HostRuntime, program: &FlatProgram) -> Result<()>
    requires small { IsSmall program.now }
    requires plannable { ArePlannable program.now }
{
    let plan = registers(rt.alloc(), program)?;
    println!(rt; "{} functions", plan.functions.len())?;
    Ok(())
}

// Prints how long the image is.
fn put_length(rt: &HostRuntime, given: &Given, program: &FlatProgram) -> Result<()>
    requires small { IsSmall program.now }
    requires plannable { ArePlannable program.now }
{
    let map = map_of(given)?;
    let plan = registers(rt.alloc(), program)?;
    let file = image(rt.alloc(), &map, program, &plan)?;
    println!(rt; "{} bytes", file.len())?;
    Ok(())
}

// Prints both images.
fn put_images(rt: &HostRuntime, given: &Given, program: &FlatProgram) -> Result<()>
    requires small { IsSmall program.now }
    requires plannable { ArePlannable program.now }
{
    let alloc = rt.alloc();
    let map = map_of(given)?;
    let at_home = image(alloc, &map, program, &slots(alloc, program)?)?;
    let placed = image(alloc, &map, program, &registers(alloc, program)?)?;
    print!(rt; "{} ", hex::encode(alloc, &at_home)?)?;
    println!(rt; "{}", hex::encode(alloc, &placed)?)?;
    Ok(())
}

/// Does with a program what its phase says.
pub fn put_phase(rt: &HostRuntime, phase: Phase, given: &Given, program: &FlatProgram) -> Result<()>
    requires small { IsSmall program.now }
    requires plannable { ArePlannable program.now }
{
    match phase {
        Phase::Test => {
            println!(rt; "can be planned")?;
            Ok(())
        }
        Phase::Plan => put_plan(rt, program),
        Phase::Generate => put_length(rt, given, program),
        Phase::Print => put_images(rt, given, program),
        Phase::Run => put_runs(rt, given, program),
    }
}
