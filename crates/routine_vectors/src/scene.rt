//! A scene: a map with objects, under both forms of the shadow space.

ghost use Rattle.addr_map.specs.Places.{AreMapped};

use crate::objects::hexadecimal;
use crate::side::{Side, side_of};
use addr_map::AddrMap;
use anyhow::{Context, Result, bail};
use sb_base::Budgets;
use shadow_space::Direct;
use shadow_space::two_levels::TwoLevel;
use std::alloc::Global;

/// A map, and the runtime under each form.
#[derive(Drop)]
pub struct Scene {
    map: AddrMap,
    direct: Side,
    two_level: Side,
}

// The map of budgets that a line gives: bytes of heap and stack, numbers of blocks and keys.
fn map_of(line: &str) -> Result<AddrMap> {
    let mut words = line.split(' ');
    let heap = words.next().and_then(hexadecimal).context("a heap")?;
    let stack = words.next().and_then(hexadecimal).context("a stack")?;
    let blocks = words.next().and_then(hexadecimal).context("blocks")?;
    let keys = words.next().and_then(hexadecimal).context("keys")?;
    let Ok(budgets) = Budgets::new(heap, stack, 4096, blocks, keys) else {
        bail!("no budgets");
    };
    match AddrMap::new(&budgets, 8192) {
        Ok(map) => Ok(map),
        Err(_) => bail!("no map"),
    }
}

// What a routine does under both forms, told once where it is the same.
fn joined(alloc: Global, direct: &str, two_level: &str) -> Result<String> {
    let mut text = String::new(alloc);
    text.push_str(direct)?;
    if direct != two_level {
        text.push_str("\nbut in two levels ")?;
        text.push_str(two_level)?;
    }
    Ok(text)
}

impl Scene {
    /// A scene that begins with these budgets.
    pub fn new(alloc: Global, budgets: &str) -> Result<Scene> {
        let map = map_of(budgets)?;
        addr_map::laws::sizes_are_in_range(&map);
        let direct = side_of::<Direct>(alloc, &map)?;
        let two_level = side_of::<TwoLevel>(alloc, &map)?;
        Ok(Scene {
            map,
            direct,
            two_level,
        })
    }

    /// What a line asks for, and what is told of it.
    pub fn follow(&mut self, alloc: Global, line: &str) -> Result<Option<String>> {
        let (kind, rest) = line.split_once(' ').context("a line")?;
        match kind {
            "object" => {
                self.add(rest)?;
                Ok(None)
            }
            "bytes" => {
                self.put_bytes(alloc, rest)?;
                Ok(None)
            }
            "keep" => Ok(Some(self.perform(alloc, rest, true)?)),
            "row" => Ok(Some(self.perform(alloc, rest, false)?)),
            _ => bail!("no line"),
        }
    }

    fn add(&mut self, line: &str) -> Result<()> {
        let (first, size) = line.split_once(' ').context("an object")?;
        let first = hexadecimal(first).context("an address")?;
        let size = hexadecimal(size).context("a size")?;
        self.direct.add(first, size)?;
        self.two_level.add(first, size)?;
        Ok(())
    }

    fn put_bytes(&mut self, alloc: Global, line: &str) -> Result<()> {
        let (first, digits) = line.split_once(' ').context("bytes")?;
        let mut address = hexadecimal(first).context("an address")?;
        let bytes = hex::decode(alloc, digits)?;
        for byte in bytes.iter() {
            self.direct.machine.memory.put(address, *byte);
            self.two_level.machine.memory.put(address, *byte);
            address = address.wrapping_add(1);
        }
        Ok(())
    }

    fn perform(&mut self, alloc: Global, line: &str, is_kept: bool) -> Result<String> {
        addr_map::laws::sizes_are_in_range(&self.map);
        let direct = self
            .direct
            .perform::<Direct>(alloc, &self.map, line, is_kept)?;
        let two_level = self
            .two_level
            .perform::<TwoLevel>(alloc, &self.map, line, is_kept)?;
        joined(alloc, &direct, &two_level)
    }
}
