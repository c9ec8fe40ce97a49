//! The routines on bytes and strings.

use crate::access::Finding;
use crate::state::{Cause, State, Stop, ended};
use crate::value::integer;
use obj_memory::{Place, Tag, Value};
use sb_base::Line;

// How the first of two bytes compares with the second.
fn order(left: u8, right: u8) -> Value {
    if left < right {
        integer(u64::MAX)
    } else {
        integer(u64::from(right < left))
    }
}

// How many bytes lie between a pointer and its bound.
fn reach(pointer: Value) -> u64 {
    match pointer.tag {
        Tag::OfObject(_, bounds) => bounds.bound.saturating_sub(pointer.word),
        Tag::Untagged | Tag::OfFunction(_) => 0,
    }
}

fn low_byte(value: Value) -> u8 {
    (value.word & 0xff) as u8
}

impl State {
    // A byte, judged and looked at.
    fn look(&mut self, pointer: Value, line: Line) -> Result<u8, Stop> {
        let place = self.located(Finding::Judged, 1, pointer, line)?;
        self.tally(1);
        match self.objects.get(place.object) {
            Some(object) => Ok(object.part(place.offset, 1).first().copied().unwrap_or(0)),
            None => Err(Stop::Stuck),
        }
    }

    // Bytes are set at a place; the tags of their words stay.
    fn set_bytes(&mut self, bytes: &[u8], place: Place) {
        self.tally(bytes.len() as u64);
        if let Some(object) = self.objects.get_mut(place.object) {
            object.put_bytes(place.offset, bytes);
        }
    }

    // The bytes from a pointer on before the first 0 byte, at most so many, and whether that byte came.
    fn scan_within(
        &mut self,
        count: u64,
        pointer: Value,
        line: Line,
    ) -> Result<(Vec<u8>, bool), Stop> {
        let mut bytes = Vec::new(self.alloc);
        let mut place = pointer;
        for _ in 0..count {
            let byte = self.look(place, line)?;
            if byte == 0 {
                return Ok((bytes, true));
            }
            bytes.push(byte)?;
            place = place.moved(1);
        }
        Ok((bytes, false))
    }

    /// The bytes of a string before its 0 byte.
    pub(crate) fn scan(&mut self, string: Value, line: Line) -> Result<Vec<u8>, Stop> {
        match self.scan_within(reach(string), string, line) {
            Ok((bytes, true)) => Ok(bytes),
            Ok((_, false)) => Err(ended(Cause::Spatial, line)),
            Err(stop) => Err(stop),
        }
    }

    pub(crate) fn strlen(&mut self, string: Value, line: Line) -> Result<Value, Stop> {
        let bytes = self.scan(string, line)?;
        Ok(integer(bytes.len() as u64))
    }

    pub(crate) fn strcmp(&mut self, left: Value, right: Value, line: Line) -> Result<Value, Stop> {
        let mut one = left;
        let mut other = right;
        for _ in 0..reach(left) {
            let first = self.look(one, line)?;
            let second = self.look(other, line)?;
            if first != second || first == 0 {
                return Ok(order(first, second));
            }
            one = one.moved(1);
            other = other.moved(1);
        }
        Err(ended(Cause::Spatial, line))
    }

    // A string is written at a pointer, with its 0 byte.
    fn write_string(&mut self, to: Value, string: Vec<u8>, line: Line) -> Result<(), Stop> {
        let mut bytes = string;
        bytes.push(0)?;
        let place = self.located(Finding::Judged, bytes.len() as u64, to, line)?;
        self.set_bytes(&bytes, place);
        Ok(())
    }

    pub(crate) fn strcpy(&mut self, to: Value, from: Value, line: Line) -> Result<Value, Stop> {
        let bytes = self.scan(from, line)?;
        self.write_string(to, bytes, line)?;
        Ok(to)
    }

    pub(crate) fn strcat(&mut self, to: Value, from: Value, line: Line) -> Result<Value, Stop> {
        let before = self.scan(to, line)?.len();
        let bytes = self.scan(from, line)?;
        self.write_string(to.moved(before as u64), bytes, line)?;
        Ok(to)
    }

    pub(crate) fn strncpy(
        &mut self,
        to: Value,
        from: Value,
        size: Value,
        line: Line,
    ) -> Result<Value, Stop> {
        if size.word == 0 {
            return Ok(to);
        }
        let (mut bytes, _) = self.scan_within(size.word, from, line)?;
        let place = self.located(Finding::Judged, size.word, to, line)?;
        for _ in bytes.len() as u64..size.word {
            bytes.push(0)?;
        }
        self.set_bytes(&bytes, place);
        Ok(to)
    }

    pub(crate) fn strchr(&mut self, string: Value, byte: Value, line: Line) -> Result<Value, Stop> {
        let mut place = string;
        for _ in 0..reach(string) {
            let found = self.look(place, line)?;
            if found == low_byte(byte) {
                return Ok(place);
            }
            if found == 0 {
                return Ok(integer(0));
            }
            place = place.moved(1);
        }
        Err(ended(Cause::Spatial, line))
    }

    pub(crate) fn memmove(
        &mut self,
        to: Value,
        from: Value,
        size: Value,
        line: Line,
    ) -> Result<Value, Stop> {
        if size.word != 0 {
            let destination = self.located(Finding::Judged, size.word, to, line)?;
            let source = self.located(Finding::Judged, size.word, from, line)?;
            self.move_bytes(size.word, destination, source)?;
        }
        Ok(to)
    }

    pub(crate) fn memset(
        &mut self,
        to: Value,
        byte: Value,
        size: Value,
        line: Line,
    ) -> Result<Value, Stop> {
        if size.word != 0 {
            let place = self.located(Finding::Judged, size.word, to, line)?;
            let bytes = vec![in self.alloc; low_byte(byte); size.word as usize]?;
            self.set_bytes(&bytes, place);
        }
        Ok(to)
    }

    pub(crate) fn memcmp(
        &mut self,
        left: Value,
        right: Value,
        size: Value,
        line: Line,
    ) -> Result<Value, Stop> {
        if size.word == 0 {
            return Ok(integer(0));
        }
        let one = self.located(Finding::Judged, size.word, left, line)?;
        let other = self.located(Finding::Judged, size.word, right, line)?;
        self.compare(one, other, size.word)
    }

    // How two ranges compare; each pair of bytes that is compared counts two.
    fn compare(&mut self, left: Place, right: Place, size: u64) -> Result<Value, Stop> {
        let (Some(one), Some(other)) = (
            self.objects.get(left.object),
            self.objects.get(right.object),
        ) else {
            return Err(Stop::Stuck);
        };
        let mut pairs = 0u64;
        let mut found = integer(0);
        let bytes = one.part(left.offset, size).iter();
        for (first, second) in bytes.zip(other.part(right.offset, size)) {
            pairs = pairs.saturating_add(1);
            if first != second {
                found = order(*first, *second);
                break;
            }
        }
        self.tally(pairs.saturating_mul(2));
        Ok(found)
    }
}
