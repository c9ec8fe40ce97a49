//! The bytes of a listing.

ghost use Rattle.std.specs.Prelude.{◌≡◌, ◌≤◌, ◌++◌, ℕ, length, replicate, IfOk, IfErr, OnOk};
ghost use Rattle.rv_listing.specs.Lines.{read_line, line_bytes, LineFits};
ghost use Rattle.rv_listing.specs.Listings.{Reading, Reads, Refuses, read_listing, read_lines, lines_of, at_end};
ghost use Rattle.rv_listing.specs.Listings.{if_line, behind};
ghost use Rattle.rv_listing.specs.declared.fault.ListRefusal.TheVariants.{Fault};

use crate::fault::{ListFault, ListRefusal};
use crate::line::{Line, image_in, read_line};
use crate::text::cut;
use std::alloc::{AllocError, Global};

/// The bytes of a listing. Refused is the first line at fault, with the lowest fault that it has; memory is taken for
/// no more bytes than the first line tells.
#[tactic(auto, unfolding(crate::specs::Listings::read_listing, crate::specs::Listings::read_all))]
pub fn read_list(alloc: Global, text: &[u8]) -> Result<Vec<u8>, ListRefusal>
    ensures { Reads (λ bytes. bytes.items) (read_listing text.now) result }
{
    let Some((first, rest)) = cut(text, b'\n') else {
        return Err(fault(ListFault::Form, 1));
    };
    match image_in(first) {
        Ok(size) => read_lines(alloc, size, rest),
        Err(kind) => Err(fault(kind, 1)),
    }
}

fn fault(kind: ListFault, line: u64) -> ListRefusal
    ensures { result ≡ Fault kind line }
{
    ListRefusal::Fault { kind, line }
}

// The bytes of the lines behind the first, which has told their count.
fn read_lines(alloc: Global, size: u64, text: &[u8]) -> Result<Vec<u8>, ListRefusal>
    requires { size ≤ 67108864 }
    ensures { Reads (λ bytes. bytes.items) (read_lines 2 size (lines_of text.now).0 (lines_of text.now).1) result }
{
    let mut bytes = Vec::with_capacity(alloc, text.len().min(size as usize))?;
    let mut room = size;
    let mut number = 2;
    let mut rest = text;
    loop {
        let Some((line, after)) = cut(rest, b'\n') else {
            return at_end(bytes, number, room, rest);
        };
        room = take_line(&mut bytes, number, room, line)?;
        number += 1;
        rest = after;
    }
}

#[tactic(auto, unfolding(crate::specs::Listings::at_end, crate::specs::Listings::behind))]
fn at_end(bytes: Vec<u8>, number: u64, room: u64, rest: &[u8]) -> Result<Vec<u8>, ListRefusal>
    ensures { Reads (λ bytes. bytes.items) (behind bytes.items (at_end number room rest.now)) result }
{
    if !rest.is_empty() {
        return Err(fault(ListFault::Form, number));
    }
    if room > 0 {
        return Err(fault(ListFault::Length, number));
    }
    Ok(bytes)
}

// Puts the bytes of a line behind those before it, where there is room for them, and gives how much is left of it.
#[tactic(auto, unfolding(crate::specs::Listings::if_line, crate::specs::Listings::behind))]
fn take_line(bytes: &mut Vec<u8>, number: u64, room: u64, text: &[u8]) -> Result<u64, ListRefusal>
    ensures ok { IfOk result (λ left. (next : ℕ → Reading)
        → behind bytes.new.items (next left) ≡ behind bytes.old.items (if_line number room (read_line text.now) next)) }
    ensures err { IfErr result (λ e. (next : ℕ → Reading)
        → Refuses (behind bytes.old.items (if_line number room (read_line text.now) next)) e) }
    ensures less { IfOk result (λ left. left ≤ room) }
{
    let line = match read_line(text) {
        Ok(line) => line,
        Err(kind) => return Err(fault(kind, number)),
    };
    let count = line_length(line);
    if count > room {
        return Err(fault(ListFault::Length, number));
    }
    put_line(bytes, line)?;
    Ok(room - count)
}

fn line_length(line: Line) -> u64
    requires { LineFits line }
    ensures { result ≡ length (line_bytes line) }
{
    match line {
        Line::Zeros(count) => count,
        Line::Group { count, .. } => count as u64,
    }
}

fn put_line(bytes: &mut Vec<u8>, line: Line) -> Result<(), AllocError>
    requires { LineFits line }
    ensures { OnOk result (bytes.new.items ≡ bytes.old.items ++ line_bytes line) }
{
    match line {
        Line::Zeros(count) => put_zeros(bytes, count),
        Line::Group {
            bytes: group,
            count,
        } => bytes.extend_from_slice(&group[..count]),
    }
}

fn put_zeros(bytes: &mut Vec<u8>, count: u64) -> Result<(), AllocError>
    ensures { OnOk result (bytes.new.items ≡ bytes.old.items ++ replicate count 0) }
{
    for _i in 0..count {
        bytes.push(0)?;
    }
    Ok(())
}
