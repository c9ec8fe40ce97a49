//! Accesses of objects, and structures by value.

use crate::object::Object;
use crate::state::{Access, Cause, State, Stop, Temporary, ended, plain};
use crate::value::{converted_to, given, integer, moved_back};
use c_tree::{Fixity, Kind, Update};
use obj_memory::{BinaryOperator, Bounds, IntType, Place, Scalar, Storage, Tag, Value};
use sb_base::Line;
use static_data::pointers::size_of;

/// How the place of an access is found: by judgement of its pointer, or by its tag alone.
#[derive(Clone, Copy)]
pub(crate) enum Finding {
    Judged,
    Named,
}

/// A binary operator in a type, which ends the run where the divisor is zero.
pub(crate) fn operate(
    operator: BinaryOperator,
    of: IntType,
    left: u64,
    right: u64,
    line: Line,
) -> Result<Value, Stop> {
    match operator.apply(of, left, right) {
        Some(word) => Ok(integer(word)),
        None => Err(ended(Cause::Divide, line)),
    }
}

/// The new value of a scalar that is updated.
pub(crate) fn updated(
    update: Update,
    scalar: Scalar,
    right: Value,
    line: Line,
    old: Value,
) -> Result<Value, Stop> {
    match update {
        Update::Arithmetic(operator, of) => {
            let new = operate(operator, of, of.fit(old.word), right.word, line)?;
            Ok(converted_to(scalar, new))
        }
        Update::Forward(size) => Ok(old.moved(right.word.wrapping_mul(size))),
        Update::Back(size) => Ok(moved_back(old, right.word.wrapping_mul(size))),
    }
}

/// Whether so many bytes from an address on are within bounds.
pub(crate) fn are_within(bounds: Bounds, address: u64, size: u64) -> bool {
    bounds.base <= address && address <= bounds.bound && size <= bounds.bound - address
}

impl State {
    fn place_in(&self, number: usize, address: u64) -> Place {
        let first = self.objects.get(number).map_or(0, |object| object.address);
        Place {
            object: number,
            offset: address.saturating_sub(first),
        }
    }

    /// Whether the object with a number lives.
    pub(crate) fn is_live(&self, number: usize) -> bool {
        self.objects
            .get(number)
            .is_some_and(|object| object.is_live)
    }

    /// The place of an access of so many bytes.
    pub(crate) fn located(
        &self,
        finding: Finding,
        size: u64,
        pointer: Value,
        line: Line,
    ) -> Result<Place, Stop> {
        let Tag::OfObject(number, bounds) = pointer.tag else {
            return Err(ended(Cause::Spatial, line));
        };
        match finding {
            Finding::Named => {}
            Finding::Judged if !are_within(bounds, pointer.word, size) => {
                return Err(ended(Cause::Spatial, line));
            }
            Finding::Judged if !self.is_live(number) => {
                return Err(ended(Cause::Temporal, line));
            }
            Finding::Judged => {}
        }
        Ok(self.place_in(number, pointer.word))
    }

    fn note(&mut self, is_write: bool, address: u64, size: u64) -> Result<(), Stop> {
        self.accesses.push(Access {
            is_write,
            address,
            size,
        })?;
        Ok(())
    }

    fn read_scalar(&mut self, scalar: Scalar, address: u64, place: Place) -> Result<Value, Stop> {
        self.note(false, address, scalar.size())?;
        match self.objects.get(place.object) {
            Some(object) => Ok(object.read(scalar, place.offset)),
            None => Err(Stop::Stuck),
        }
    }

    fn write_scalar(
        &mut self,
        scalar: Scalar,
        address: u64,
        place: Place,
        value: Value,
    ) -> Result<(), Stop> {
        self.note(true, address, scalar.size())?;
        match self.objects.get_mut(place.object) {
            Some(object) => {
                object.write(scalar, place.offset, value);
                Ok(())
            }
            None => Err(Stop::Stuck),
        }
    }

    /// A byte of a literal is written at an offset of an object.
    pub(crate) fn store_byte(&mut self, number: usize, offset: u64, byte: u8) -> Result<(), Stop> {
        let address = self.pointer_to(number).word.wrapping_add(offset);
        let place = Place {
            object: number,
            offset,
        };
        let scalar = Scalar::Integer(IntType::Char);
        self.write_scalar(scalar, address, place, integer(u64::from(byte)))
    }

    /// A scalar is judged once, read, updated and written: the line of the access, then that of the operator.
    pub(crate) fn update(
        &mut self,
        (update, scalar, fixity): (Update, Scalar, Fixity),
        finding: Finding,
        pointer: Value,
        right: Value,
        (line, operator_line): (Line, Line),
    ) -> Result<Value, Stop> {
        let place = self.located(finding, scalar.size(), pointer, line)?;
        let old = self.read_scalar(scalar, pointer.word, place)?;
        let new = updated(update, scalar, right, operator_line, old)?;
        self.write_scalar(scalar, pointer.word, place, new)?;
        Ok(given(fixity, old, new))
    }

    /// A plain variable is updated, at the line of the operator.
    pub(crate) fn update_plain(
        &mut self,
        (update, scalar, fixity): (Update, Scalar, Fixity),
        variable: usize,
        right: Value,
        line: Line,
    ) -> Result<Value, Stop> {
        let old = self.plain_value(variable);
        let new = updated(update, scalar, right, line, old)?;
        self.set_plain(variable, new);
        Ok(given(fixity, old, new))
    }

    // A part of contents, which is no access.
    fn part_of(&self, kind: Kind, contents: usize, pointer: Value) -> Temporary {
        match kind {
            Kind::Scalar(scalar) => match self.contents.get(contents) {
                Some(object) => plain(object.read(scalar, pointer.word)),
                None => plain(integer(0)),
            },
            Kind::Structure(_) => Temporary {
                value: pointer,
                contents: Some(contents),
            },
            Kind::Void | Kind::Array(_) => plain(integer(0)),
        }
    }

    /// What a pointer points to, or a part of contents.
    pub(crate) fn read(
        &mut self,
        kind: Kind,
        finding: Finding,
        from: Temporary,
        line: Line,
    ) -> Result<Temporary, Stop> {
        if let Some(contents) = from.contents {
            return Ok(self.part_of(kind, contents, from.value));
        }
        match kind {
            Kind::Void | Kind::Array(_) => Ok(plain(from.value)),
            Kind::Structure(size) => {
                self.located(finding, size, from.value, line)?;
                Ok(plain(from.value))
            }
            Kind::Scalar(scalar) => {
                let place = self.located(finding, scalar.size(), from.value, line)?;
                let value = self.read_scalar(scalar, from.value.word, place)?;
                Ok(plain(value))
            }
        }
    }

    /// What a pointer points to gets a value; what is given is the value as it is stored.
    pub(crate) fn write(
        &mut self,
        kind: Kind,
        finding: Finding,
        pointer: Value,
        line: Line,
        value: Temporary,
    ) -> Result<Temporary, Stop> {
        match kind {
            Kind::Void | Kind::Array(_) => Ok(value),
            Kind::Structure(size) => {
                let place = self.located(finding, size, pointer, line)?;
                self.copy_structure(size, place, value, line)?;
                Ok(plain(pointer))
            }
            Kind::Scalar(scalar) => {
                let place = self.located(finding, scalar.size(), pointer, line)?;
                self.write_scalar(scalar, pointer.word, place, value.value)?;
                Ok(plain(value.value))
            }
        }
    }

    // What a structure value is a part of, copied, and its offset there.
    fn source_of(&self, size: u64, value: Temporary, line: Line) -> Result<(Object, u64), Stop> {
        let found = match value.contents {
            Some(contents) => (self.contents.get(contents), value.value.word),
            None => {
                let place = self.located(Finding::Named, size, value.value, line)?;
                (self.objects.get(place.object), place.offset)
            }
        };
        match found {
            (Some(object), offset) => Ok((object.copy(self.alloc)?, offset)),
            _ => Err(Stop::Stuck),
        }
    }

    // A structure is moved to a place.
    fn copy_structure(
        &mut self,
        size: u64,
        place: Place,
        value: Temporary,
        line: Line,
    ) -> Result<(), Stop> {
        let (object, offset) = self.source_of(size, value, line)?;
        self.tally(size);
        if let Some(to) = self.objects.get_mut(place.object) {
            to.move_into(size, place.offset, offset, &object);
        }
        Ok(())
    }

    /// Bytes move with their tags from one place to another.
    pub(crate) fn move_bytes(&mut self, size: u64, to: Place, from: Place) -> Result<(), Stop> {
        self.tally(size);
        let Some(object) = self.objects.get(from.object) else {
            return Err(Stop::Stuck);
        };
        let object = object.copy(self.alloc)?;
        if let Some(new) = self.objects.get_mut(to.object) {
            new.move_into(size, to.offset, from.offset, &object);
        }
        Ok(())
    }

    fn with_contents(&mut self, contents: Object) -> Result<Temporary, Stop> {
        let number = self.contents.len();
        self.contents.push(contents)?;
        Ok(Temporary {
            value: integer(0),
            contents: Some(number),
        })
    }

    // The contents of a structure value: so many bytes of what it is a part of.
    fn taken(&mut self, size: u64, value: Temporary, line: Line) -> Result<Temporary, Stop> {
        let (object, offset) = self.source_of(size, value, line)?;
        self.tally(size);
        let mut contents = Object::new(self.alloc, Storage::Automatic, 0, size)?;
        contents.move_into(size, 0, offset, &object);
        self.with_contents(contents)
    }

    /// A value as an argument or a result.
    pub(crate) fn take(
        &mut self,
        kind: Kind,
        line: Line,
        value: Temporary,
    ) -> Result<Temporary, Stop> {
        match kind {
            Kind::Structure(size) => self.taken(size, value, line),
            Kind::Void | Kind::Scalar(_) | Kind::Array(_) => Ok(value),
        }
    }

    /// 0 of a kind.
    pub(crate) fn zero_of(&mut self, kind: Kind) -> Result<Temporary, Stop> {
        match kind {
            Kind::Structure(size) => {
                self.tally(size);
                let contents = Object::new(self.alloc, Storage::Automatic, 0, size)?;
                self.with_contents(contents)
            }
            Kind::Void | Kind::Scalar(_) | Kind::Array(_) => Ok(plain(integer(0))),
        }
    }

    // Whether some bytes are there: bytes of contents, or of a live object, whatever the bounds.
    fn is_there(&self, size: u64, value: Temporary) -> bool {
        match (value.contents, value.value.tag) {
            (Some(contents), _) => self.contents.get(contents).is_some_and(|object| value
                .value
                .word
                .saturating_add(size)
                <= object.size),
            (None, Tag::OfObject(number, _)) => self.is_live_part(size, number, value.value.word),
            _ => false,
        }
    }

    fn is_live_part(&self, size: u64, number: usize, address: u64) -> bool {
        let Some(object) = self.objects.get(number) else {
            return false;
        };
        let end = object.address.saturating_add(object.size);
        object.is_live && object.address <= address && address.saturating_add(size) <= end
    }

    /// A step is wrong that moves a structure value which is not there.
    pub(crate) fn admit_moved(&self, kind: Kind, value: Temporary) -> Result<(), Stop> {
        match kind {
            Kind::Structure(size) if !self.is_there(size, value) => Err(Stop::Stuck),
            _ => Ok(()),
        }
    }

    /// A step is wrong that accesses by name what is not there.
    pub(crate) fn admit_named(&self, kind: Kind, value: Temporary) -> Result<(), Stop> {
        if self.is_there(size_of(kind), value) {
            Ok(())
        } else {
            Err(Stop::Stuck)
        }
    }

    /// A step is wrong that accesses contents through a pointer.
    pub(crate) fn admit_pointer(&self, value: Temporary) -> Result<(), Stop> {
        match value.contents {
            None => Ok(()),
            Some(_) => Err(Stop::Stuck),
        }
    }

    /// A step is wrong that accesses behind its checks what they do not allow.
    pub(crate) fn admit_judged(&self, kind: Kind, value: Temporary) -> Result<(), Stop> {
        self.admit_pointer(value)?;
        match value.value.tag {
            Tag::OfObject(number, bounds)
                if are_within(bounds, value.value.word, size_of(kind)) && self.is_live(number) => {
                Ok(())
            }
            _ => Err(Stop::Stuck),
        }
    }
}
