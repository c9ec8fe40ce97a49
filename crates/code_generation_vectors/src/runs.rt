//! Runs of images.

ghost use Rattle.std.specs.Prelude.{◌≡◌, None, IfOk};
ghost use Rattle.elf_image.specs.Tests.{image_fault};
ghost use Rattle.reg_plan.specs.Planned.{ArePlannable};
ghost use Rattle.rv_codegen.specs.Generated.{IsReady};
ghost use Rattle.code_generation_vectors.specs.Named.{IsSmall};

use addr_map::AddrMap;
use anyhow::{Context, Result, bail};
use flat_code::FlatProgram;
use reg_plan::Plan;
use reg_plan::planned::{registers, slots};
use rv_codegen::images::{image_of, machine_of};
use rv_sim::{Machine, Stop};
use sb_base::Budgets;
use sb_outside::{MemSink, MemSource};
use std::alloc::Global;

/// What a program is given.
#[derive(Drop)]
pub struct Given {
    pub name: String,
    pub entry: u32,
    calls: u64,
    input: Vec<u8>,
}

impl Given {
    /// The first line of a program.
    pub fn read(alloc: Global, line: &str) -> Result<Given> {
        let mut words = line.split(' ');
        let name = words.next().context("a name")?;
        let calls = words.next().context("a budget")?.parse()?;
        let entry = words.next().context("an entry")?.parse()?;
        let digits = words.next().unwrap_or("");
        Ok(Given {
            name: String::from_str(alloc, name)?,
            entry,
            calls,
            input: hex::decode(alloc, digits)?,
        })
    }
}

/// What a run showed.
#[derive(Drop)]
struct Shown {
    stop: Stop,
    output: MemSink,
    errors: MemSink,
}

// Runs a machine.
fn run(alloc: Global, machine: &mut Machine, input: &[u8]) -> Result<Shown> {
    let mut source = MemSource::new(alloc, input, &[])?;
    let mut output = MemSink::new(alloc, 100_000, &[])?;
    let mut errors = MemSink::new(alloc, 100, &[])?;
    let stop = machine.run(&mut source, &mut output, &mut errors, 100_000_000);
    Ok(Shown {
        stop,
        output,
        errors,
    })
}

/// The map with the budgets of a program, and without static objects.
pub fn map_of(given: &Given) -> Result<AddrMap> {
    let Ok(budgets) = Budgets::new(4096, 4096, given.calls, 1, 1) else {
        bail!("no budgets")
    };
    let Ok(map) = AddrMap::new(&budgets, 0) else {
        bail!("no map")
    };
    Ok(map)
}

/// The image of a program under a plan.
pub fn image(alloc: Global, map: &AddrMap, program: &FlatProgram, plan: &Plan) -> Result<Vec<u8>>
    requires { IsReady program.now plan.now.functions.items }
    ensures { IfOk result (λ file. image_fault file.items ≡ None) }
{
    let nothing = Vec::new(alloc);
    match image_of(
        alloc,
        map,
        program,
        &plan.functions,
        nothing,
        Vec::new(alloc),
    ) {
        Ok(file) => Ok(file),
        Err(error) => bail!("no image: {error:?}"),
    }
}

// What an image does.
fn run_image(alloc: Global, file: &[u8], input: &[u8]) -> Result<Shown>
    requires { image_fault file.now ≡ None }
{
    let mut machine = machine_of(alloc, file)?;
    run(alloc, &mut machine, input)
}

// Whether two runs showed the same.
fn are_same(left: &Shown, right: &Shown) -> bool {
    left.stop == right.stop
        && left.output.bytes() == right.output.bytes()
        && left.errors.bytes() == right.errors.bytes()
}

// Prints what a run showed.
fn put_shown(rt: &HostRuntime, shown: &Shown) -> Result<()> {
    match shown.stop {
        Stop::Exited(status) => print!(rt; "{status}")?,
        other => print!(rt; "{other:?}")?,
    }
    let output = hex::encode(rt.alloc(), shown.output.bytes())?;
    let report = String::from_utf8_lossy(rt.alloc(), shown.errors.bytes())?;
    println!(rt;
        " {output}{}{}",
        if report.is_empty() { "" } else { " " },
        report.trim_end()
    )?;
    Ok(())
}

/// Prints what a program does under both plans.
pub fn put_runs(rt: &HostRuntime, given: &Given, program: &FlatProgram) -> Result<()>
    requires small { IsSmall program.now }
    requires plannable { ArePlannable program.now }
{
    let alloc = rt.alloc();
    let map = map_of(given)?;
    let file = image(alloc, &map, program, &slots(alloc, program)?)?;
    let at_home = run_image(alloc, &file, &given.input)?;
    let file = image(alloc, &map, program, &registers(alloc, program)?)?;
    let placed = run_image(alloc, &file, &given.input)?;
    put_shown(rt, &at_home)?;
    if !are_same(&at_home, &placed) {
        put_shown(rt, &placed)?;
    }
    Ok(())
}
