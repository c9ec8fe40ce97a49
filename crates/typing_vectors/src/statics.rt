//! What static objects hold before a run.
use anyhow::{Result, bail};
use c_const::{InitialFault, InitialObject, Pointers, initial_bytes, is_laid_out};
use c_tree::{Program, StaticObject};
use obj_memory::{Bounds, Tag, Value};
use std::alloc::Global;

// Where the first static object stands, where the first function, and how far it is from one to the next.
const STATICS: u64 = 0x1000_0000;

const FUNCTIONS: u64 = 0x2000_0000;

const STEP: u64 = 0x1_0000;

// The pointer to the static object of a number.
fn static_pointer(number: u8) -> Value {
    let base = STATICS + u64::from(number) * STEP;
    let bound = base + STEP;
    Value {
        word: base,
        tag: Tag::OfObject(usize::from(number), Bounds { base, bound }),
    }
}

// The pointer to the function of a number.
fn function_pointer(number: u8) -> Value {
    Value {
        word: FUNCTIONS + u64::from(number) * STEP,
        tag: Tag::OfFunction(usize::from(number)),
    }
}

// The pointers to the first 256 static objects.
fn static_pointers(alloc: Global) -> Result<Vec<Value>> {
    let mut pointers = Vec::new(alloc);
    for number in 0..=255 {
        pointers.push(static_pointer(number))?;
    }
    Ok(pointers)
}

// The pointers to the first 256 functions.
fn function_pointers(alloc: Global) -> Result<Vec<Value>> {
    let mut pointers = Vec::new(alloc);
    for number in 0..=255 {
        pointers.push(function_pointer(number))?;
    }
    Ok(pointers)
}

/// Prints a line for each static object of a program: how many bytes it has, its words in their order, before one that
/// is a pointer the number of its object or function, and the bytes behind the last word.
pub fn put_statics(rt: &HostRuntime, program: &Program) -> Result<()> {
    let statics = static_pointers(rt.alloc())?;
    let functions = function_pointers(rt.alloc())?;
    let pointers = Pointers {
        statics: &statics,
        functions: &functions,
    };
    for object in program.statics.as_slice() {
        put_object(rt, &pointers, object)?;
    }
    Ok(())
}

fn put_object(rt: &HostRuntime, pointers: &Pointers, object: &StaticObject) -> Result<()> {
    if !is_laid_out(object) {
        bail!("a part lies outside of its object");
    }
    match initial_bytes(rt.alloc(), pointers, object) {
        Ok(contents) => put_contents(rt, &contents),
        Err(fault) => put_fault(rt, fault),
    }
}

fn put_fault(rt: &HostRuntime, fault: InitialFault) -> Result<()> {
    println!(rt; "{fault:?}")?;
    Ok(())
}

fn put_contents(rt: &HostRuntime, contents: &InitialObject) -> Result<()> {
    let mut rest = contents.bytes();
    print!(rt; "{}", rest.len())?;
    for tag in contents.tags() {
        let (word, behind) = rest.split_at(rest.len().min(8));
        put_mark(rt, *tag)?;
        print!(rt; "{}", hex::encode(rt.alloc(), word)?)?;
        rest = behind;
    }
    println!(rt; " {}", hex::encode(rt.alloc(), rest)?)?;
    Ok(())
}

// Prints what stands before a word.
fn put_mark(rt: &HostRuntime, tag: Tag) -> Result<()> {
    match tag {
        Tag::Untagged => print!(rt; " ")?,
        Tag::OfObject(number, _) => print!(rt; " @{number}:")?,
        Tag::OfFunction(number) => print!(rt; " f{number}:")?,
    }
    Ok(())
}
