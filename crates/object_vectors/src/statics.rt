//! Bytes of static objects, and places of addresses in them.

use crate::constants::pushed;
use crate::parts::{POINTER, part};
use crate::row::number;
use anyhow::{Result, bail};
use c_const::{InitialFault, InitialObject, Pointers, initial_bytes, is_laid_out};
use c_tree::{Kind, Part, StaticObject};
use obj_memory::{Bounds, Tag, Value};
use std::alloc::Global;
use tree_containers::Items;

/// A pointer to the first of two static objects, `int y[4]`.
const Y: Value = Value {
    word: 0x1000_0000,
    tag: Tag::OfObject(
        0,
        Bounds {
            base: 0x1000_0000,
            bound: 0x1000_0010,
        },
    ),
};

// The kind of `structure`, `array` or `pointer`, of this size.
fn kind(word: Option<&str>, size: u64) -> Kind {
    if word == Some("structure") {
        Kind::Structure(size)
    } else if word == Some("array") {
        Kind::Array(size)
    } else {
        POINTER
    }
}

fn push_parts(alloc: Global, parts: &mut Vec<Part>, given: &str) -> Result<()> {
    for word in given.split(' ').skip(2) {
        pushed(parts, part(alloc, word)?)?;
    }
    Ok(())
}

fn tag_name(tag: Tag) -> &'static str {
    if tag == Tag::Untagged {
        "-"
    } else if tag == Y.tag {
        "y"
    } else {
        "other"
    }
}

// Prints for each word of an object the object into which it points, and its bytes.
fn put_contents(rt: &HostRuntime, object: &InitialObject) -> Result<()> {
    for tag in object.tags() {
        print!(rt; "{} ", tag_name(*tag))?;
    }
    println!(rt; "{:?}", object.bytes())?;
    Ok(())
}

fn put_object(rt: &HostRuntime, object: &StaticObject) -> Result<()> {
    let pointers = Pointers {
        statics: &[Y],
        functions: &[],
    };
    if !is_laid_out(object) {
        bail!("a part lies outside");
    }
    match initial_bytes(rt.alloc(), &pointers, object) {
        Ok(contents) => put_contents(rt, &contents),
        Err(fault) => put_fault(rt, fault),
    }
}

fn put_fault(rt: &HostRuntime, fault: InitialFault) -> Result<()> {
    println!(rt; "{fault:?}")?;
    Ok(())
}

fn put_parts(rt: &HostRuntime, kind: Kind, parts: Vec<Part>) -> Result<()> {
    let object = StaticObject {
        kind,
        is_literal: false,
        function: None,
        parts: Items::from_vec(parts),
    };
    put_object(rt, &object)
}

/// `KIND SIZE PARTS`: prints what a static object of this kind with these parts holds.
pub fn put(rt: &HostRuntime, given: &str) -> Result<()> {
    let mut words = given.split(' ');
    let word = words.next();
    let kind = kind(word, number(words.next())?);
    let mut parts = Vec::new(rt.alloc());
    match push_parts(rt.alloc(), &mut parts, given) {
        Ok(()) => put_parts(rt, kind, parts),
        Err(error) => Err(error),
    }
}
