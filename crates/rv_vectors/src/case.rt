//! One operation on given operands.

ghost use Rattle.std.specs.Prelude.{IfOk};
ghost use Rattle.elf_image.specs.Writing.{SegmentsFit};

use crate::number::{number, word};
use crate::sample::{machine_of, parts, run};
use anyhow::{Result, ensure};
use elf_image::NewImage;
use rv_isa::Reg;
use rv_sim::{Machine, Stop};
use std::alloc::{AllocError, Global};

/// A word that works on a0 and a1, and their values.
#[derive(Clone, Copy)]
pub struct Case {
    word: u32,
    left: u64,
    right: u64,
}

impl Case {
    /// A row of four fields: a name, which is passed over, the word and the values.
    pub fn parse(row: &str) -> Result<Case> {
        let mut fields = row.split(' ').skip(1);
        Ok(Case {
            word: word(fields.next())?,
            left: number(fields.next())?,
            right: number(fields.next())?,
        })
    }

    /// What the machine leaves in a2.
    pub fn run(&self, alloc: Global) -> Result<u64> {
        match machine_of(alloc, &self.parts(alloc)?) {
            Ok(mut machine) => result_of(alloc, &mut machine),
            Err(error) => Err(error),
        }
    }

    // The operands are the first objects. The code is `lui t0,0x10000`, `ld a0,0(t0)`, `ld a1,8(t0)` and the word.
    fn parts(&self, alloc: Global) -> Result<NewImage, AllocError>
        ensures { IfOk result SegmentsFit }
    {
        let mut code = vec![in alloc; 0xb7, 2, 0, 0x10, 3, 0xb5, 2, 0, 0x83, 0xb5, 0x82, 0]?;
        code.extend_from_slice(&self.word.to_le_bytes())?;
        let mut objects = Vec::new(alloc);
        objects.extend_from_slice(&self.left.to_le_bytes())?;
        objects.extend_from_slice(&self.right.to_le_bytes())?;
        parts(alloc, code, objects)
    }
}

fn result_of(alloc: Global, machine: &mut Machine) -> Result<u64> {
    let stop = run(alloc, machine, 4)?;
    ensure!(stop == Stop::Limit, "the machine stopped: {stop:?}");
    Ok(machine.register(Reg::A2))
}
