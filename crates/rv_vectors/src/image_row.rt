//! The tests of an image.

use crate::number::{byte, number};
use crate::sample::parts;
use anyhow::{Result, bail};
use elf_image::{Image, ImageFault, ReadError};
use std::alloc::{AllocError, Global};

const ROWS: [u8; 4] = [0x6f, 0, 0, 0];

fn sample(alloc: Global) -> Result<Vec<u8>, AllocError> {
    let rows = Vec::from_slice(alloc, &ROWS)?;
    let objects = Vec::from_slice(alloc, &[1, 2, 3])?;
    Image::write(alloc, &parts(alloc, rows, objects)?)
}

// The fault of these bytes.
fn fault_of(alloc: Global, bytes: &[u8]) -> Result<Option<ImageFault>> {
    match Image::read(alloc, bytes) {
        Ok(_) => Ok(None),
        Err(ReadError::Fault(fault)) => Ok(Some(fault)),
        Err(ReadError::Memory) => bail!("out of memory"),
    }
}

fn put_answer(rt: &HostRuntime, fault: Option<ImageFault>) -> Result<()> {
    match fault {
        Some(fault) => println!(rt; "{fault:?}")?,
        None => println!(rt; "read")?,
    }
    Ok(())
}

/// `image CHANGES`: prints the fault of the sample with these changes, each a length to which it is cut, or a place, a
/// `=` and the byte that is to stand there; a place behind the end is passed over.
pub fn put(rt: &HostRuntime, row: &str) -> Result<()> {
    match changed(rt.alloc(), row) {
        Ok(bytes) => put_fault(rt, &bytes),
        Err(error) => Err(error),
    }
}

fn put_fault(rt: &HostRuntime, bytes: &[u8]) -> Result<()> {
    put_answer(rt, fault_of(rt.alloc(), bytes)?)
}

fn changed(alloc: Global, row: &str) -> Result<Vec<u8>> {
    let mut bytes = sample(alloc)?;
    match apply_all(&mut bytes, row) {
        Ok(()) => Ok(bytes),
        Err(error) => Err(error),
    }
}

fn apply_all(bytes: &mut Vec<u8>, row: &str) -> Result<()> {
    for change in row.split(' ').skip(1) {
        apply(bytes, change)?;
    }
    Ok(())
}

fn apply(bytes: &mut Vec<u8>, change: &str) -> Result<()> {
    let mut parts = change.split('=');
    let place = number(parts.next())? as usize;
    match parts.next() {
        None => bytes.truncate(place),
        value => put_byte(bytes, place, byte(value)?),
    }
    Ok(())
}

fn put_byte(bytes: &mut [u8], place: usize, value: u8) {
    if let Some(byte) = bytes.get_mut(place) {
        *byte = value;
    }
}

/// Prints the fault of the sample cut to each length, with each length at which it is another one.
pub fn put_cuts(rt: &HostRuntime) -> Result<()> {
    match sample(rt.alloc()) {
        Ok(file) => put_cuts_of(rt, &file),
        Err(_) => bail!("out of memory"),
    }
}

fn put_cuts_of(rt: &HostRuntime, file: &[u8]) -> Result<()> {
    let mut last = None;
    for length in 0..file.len() {
        let fault = fault_of(rt.alloc(), &file[..length])?;
        if fault != last {
            put_cut(rt, length, fault)?;
        }
        last = fault;
    }
    put_cut(rt, file.len(), fault_of(rt.alloc(), file)?)
}

fn put_cut(rt: &HostRuntime, length: usize, fault: Option<ImageFault>) -> Result<()> {
    print!(rt; "{length:x} ")?;
    put_answer(rt, fault)
}
