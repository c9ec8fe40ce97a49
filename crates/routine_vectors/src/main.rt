//! Runs the routines of the library and the actions on memory in the meaning of flat code, over concrete memories,
//! under both forms of the shadow space. Standard input has scenes, with a line `%%` between each two. The first
//! line of a scene has the bytes of the heap and of the object stack and the numbers of blocks and of keys. Each
//! further line is one of
//!
//! - `object ADDRESS SIZE`: an object is there, with the key and the lock word of the last routine that was kept,
//!   and before the first such with those of static objects;
//! - `bytes ADDRESS DIGITS`: bytes of object space;
//! - `row NAME LINE LIMIT OPERANDS` or `keep NAME LINE LIMIT OPERANDS`: a routine, at a line of a source, that may
//!   take so many steps; with `keep` what comes later begins with what it left.
//!
//! Operands stand in registers, five for each: a number, a pointer `ADDRESS/TAG`, `lockN`, the lock word of object N,
//! `areaOFFSET`, an area by how far it stands behind the first address of the space of structure values, or
//! `partOFFSET/AREA/SIZE`, a part of the contents of so many bytes there. Others are parts of the code: `:TYPE`,
//! `%DIRECTIVE`, and `.BYTE`. A tag is `-`, `NUMBER/BASE/BOUND` or `fn/ADDRESS/TYPE`. All numbers are hexadecimal.
//!
//! Of each row a line tells how the run was left, what it gave (of contents all bytes and tags) and showed, whether
//! its steps are as few as promised, and each byte of object space, each tag of a live object and each key, block and
//! life that changed; of a run that ended each such byte.
//! Where the two forms differ there are two lines. What may be a function of the runtime is run as one too, that of
//! the fixed list or else one made of the routine at the first line of a source, called at the row's line, and told
//! once more where that differs.
//!
//! `stdin` and `stdout` are made by `vectors.py` beside them: what must be told comes from a model of the source's
//! objects.
#![tactic(auto)]

mod changes;
mod code;
mod function;
mod machine;
mod memory;
mod objects;
mod operators;
mod routine;
mod scene;
mod shown;
mod side;

use crate::scene::Scene;
use anyhow::{Context, Result};
use std::io;

fn main(rt: HostRuntime) -> Result<()> {
    let input = io::read_to_string(rt.alloc(), rt.reader())?;
    for text in input.as_str().split("%%\n") {
        play(&rt, text)?;
    }
    Ok(())
}

fn play(rt: &HostRuntime, text: &str) -> Result<()> {
    let mut lines = text.lines();
    let budgets = lines.next().context("a scene")?;
    let mut scene = Scene::new(rt.alloc(), budgets)?;
    println!(rt; "{budgets}")?;
    for line in lines {
        if let Some(told) = scene.follow(rt.alloc(), line)? {
            println!(rt; "{told}")?;
        }
    }
    Ok(())
}
