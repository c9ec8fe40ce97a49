//! The regions of a map.

use crate::row::number;
use addr_map::{AddrMap, Region, function_address};
use anyhow::{Context, Result, bail};
use sb_base::Budgets;

const REGIONS: [Region; 14] = [
    Region::JumpTable,
    Region::Code,
    Region::Globals,
    Region::Stack,
    Region::Heap,
    Region::Shadow,
    Region::Locks,
    Region::FreeLocks,
    Region::Blocks,
    Region::StructureValues,
    Region::Cells,
    Region::Arguments,
    Region::Calls,
    Region::RuntimeCalls,
];

/// `BYTES`: prints of the map with so many bytes of static objects and the default budgets how many they are and the
/// budgets, or that they are too many.
pub fn put_map(rt: &HostRuntime, bytes: &str) -> Result<()> {
    match AddrMap::new(&Budgets::default(), bytes.parse()?) {
        Ok(map) => println!(rt; "{} {:?}", map.global_bytes(), map.budgets())?,
        Err(refused) => println!(rt; "{refused:?}")?,
    }
    Ok(())
}

/// `BYTES NUMBER`: prints the first and the last address of a region, by its number among all.
pub fn put_region(rt: &HostRuntime, given: &str) -> Result<()> {
    let mut words = given.split(' ');
    let Ok(map) = AddrMap::new(&Budgets::default(), number(words.next())?) else {
        bail!("too many bytes");
    };
    let place = usize::try_from(number(words.next())?)?;
    let which = *REGIONS.get(place).context("a region")?;
    let (first, last) = map.region(which);
    println!(rt; "{which:?} {first:x} {last:x}")?;
    Ok(())
}

/// `NUMBER`: prints the address of a function.
pub fn put_function(rt: &HostRuntime, number: &str) -> Result<()> {
    let number: usize = number.parse()?;
    if number > 4096 {
        bail!("no function");
    }
    println!(rt; "{:x}", function_address(number))?;
    Ok(())
}
