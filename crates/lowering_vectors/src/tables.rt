//! What is told of the keys of accesses and of the counted loops of lowered code.

use anyhow::Result;
use tac_ir::{Base, CodeFunction, CountedLoop, Instruction, Key, Mode, Scaled, Tac};

/// What an instruction does through a pointer.
#[derive(Clone, Copy)]
enum JudgedAccess {
    /// No access that is judged.
    Nothing,
    /// An access whose pointer has no key.
    Unknown,
    /// An access whose pointer has the key with this number.
    Keyed(usize),
}

fn through(mode: Mode, key: Option<usize>) -> JudgedAccess {
    match mode {
        Mode::Named => JudgedAccess::Nothing,
        Mode::Unchecked | Mode::Judged => match key {
            Some(number) => JudgedAccess::Keyed(number),
            None => JudgedAccess::Unknown,
        },
    }
}

fn access_of(instruction: &Instruction) -> JudgedAccess {
    match instruction {
        Instruction::Read { mode, key, .. } => through(*mode, *key),
        Instruction::Write { mode, key, .. } => through(*mode, *key),
        Instruction::Update { mode, key, .. } => through(*mode, *key),
        _ => JudgedAccess::Nothing,
    }
}

fn put_scaled(rt: &HostRuntime, scaled: Option<Scaled>) -> Result<()> {
    if let Some(scaled) = scaled {
        print!(rt; "+{}*v{}", scaled.size, scaled.variable)?;
    }
    Ok(())
}

fn put_base(rt: &HostRuntime, base: Base) -> Result<()> {
    match base {
        Base::Plain(variable) => print!(rt; " v{variable}")?,
        Base::Automatic(variable) => print!(rt; " a{variable}")?,
        Base::Static(number) => print!(rt; " s{number}")?,
    }
    Ok(())
}

// Prints a key: its base, the members from the first to the last in brackets, each with its bytes behind where it
// begins, and what is added to the base.
fn put_key(rt: &HostRuntime, key: &Key) -> Result<()> {
    put_base(rt, key.base)?;
    let path = key.path.as_slice();
    for i in (0..path.len()).rev() {
        print!(rt; "[{}", path[i].constant)?;
        put_scaled(rt, path[i].scaled)?;
        print!(rt; ":{}]", path[i].size)?;
    }
    print!(rt; "+{}", key.constant)?;
    put_scaled(rt, key.scaled)
}

fn put_access(rt: &HostRuntime, keys: &[Key], access: JudgedAccess) -> Result<()> {
    match access {
        JudgedAccess::Nothing => {}
        JudgedAccess::Unknown => print!(rt; " -")?,
        JudgedAccess::Keyed(number) => {
            if let Some(key) = keys.get(number) {
                put_key(rt, key)?;
            }
        }
    }
    Ok(())
}

// The last instructions stand first.
fn put_keys(rt: &HostRuntime, function: &CodeFunction) -> Result<()> {
    let code = function.code.as_slice();
    for i in (0..code.len()).rev() {
        put_access(rt, function.keys.as_slice(), access_of(&code[i]))?;
    }
    Ok(())
}

// The number of a word in two's complement.
fn signed(word: u64) -> i128 {
    if word >= 1 << 63 {
        word as i128 - (1 << 64)
    } else {
        word as i128
    }
}

fn put_loops(rt: &HostRuntime, loops: &[CountedLoop]) -> Result<()> {
    for i in (0..loops.len()).rev() {
        let counted = loops[i];
        let start = signed(counted.start);
        let bound = signed(counted.bound);
        print!(rt; " v{} {start}..{bound}", counted.variable)?;
    }
    Ok(())
}

/// Prints a line on each function of a program: the keys of its accesses through pointers in the order of the text, `-`
/// for one without a key, and its counted loops, each with its variable, and from what and below what it counts.
pub fn put_tables(rt: &HostRuntime, code: &Tac) -> Result<()> {
    let functions = code.functions.as_slice();
    for i in 0..functions.len() {
        print!(rt; "  function {i}: keys")?;
        put_keys(rt, &functions[i])?;
        print!(rt; "; loops")?;
        put_loops(rt, functions[i].loops.as_slice())?;
        println!(rt; "")?;
    }
    Ok(())
}
