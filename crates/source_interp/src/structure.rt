//! Reads and writes of any kind, with structures by value (C99 6.3.2.1, 6.5.2.2, 6.5.16.1).

ghost use Rattle.std.specs.Prelude.{◌≡◌, Some};
ghost use Rattle.obj_memory.specs.Access.{move_range};
ghost use Rattle.obj_memory.specs.Objects.{ObjectState};
ghost use Rattle.c_tree.specs.declared.expression.Kind.TheVariants.{Scalar as OfScalar};
ghost use Rattle.source_meaning.specs.State.{change, done};
ghost use Rattle.source_meaning.specs.Actions.{copy_structure, load_structure, move_bytes, read_lvalue, write_lvalue};
ghost use Rattle.source_meaning.specs.Structures.{as_rvalue, copy_value, part_of, put_range, read_rvalue};
ghost use Rattle.source_meaning.specs.Structures.{write_rvalue};
ghost use Rattle.source_interp.specs.declared.machine.Machine.{Machine as OfMachine};
ghost use Rattle.source_interp.specs.Copying.{copied, stored_rvalue};
ghost use Rattle.source_interp.specs.Standing.{ActsAlone, ActsTraced};

use crate::found::Found;
use crate::machine::Machine;
use crate::stop::{Fault, Stop};
use crate::trace::Trace;
use crate::value::integer;
use c_tree::Kind;
use interpreter_objects::Object;
use obj_memory::{Place, Scalar, Value};

// A scalar of contents.
fn scalar_part(scalar: Scalar, from: &Found) -> Result<Found, Stop>
    ensures { (m : OfMachine) (c : ObjectState) → from.now.contents ≡ Some c
        → ActsAlone m m result (done (part_of (OfScalar scalar) c from.now.value)) }
{
    match from.scalar(scalar) {
        Some(value) => Ok(Found::plain(value)),
        None => Err(Stop::Failed(Fault::Memory)),
    }
}

// A part of contents, which is no access.
fn part(kind: Kind, from: Found) -> Result<Found, Stop>
    ensures { (m : OfMachine) (c : ObjectState) → from.contents ≡ Some c
        → ActsAlone m m result (done (part_of kind c from.value)) }
{
    match kind {
        Kind::Void => Ok(Found::plain(integer(0))),
        Kind::Array(_) => Ok(Found::plain(integer(0))),
        Kind::Structure(_) => Ok(from),
        Kind::Scalar(scalar) => scalar_part(scalar, &from),
    }
}

impl Machine {
    #[tactic(auto, using(crate::proofs::Acting::failing))]
    fn move_range(&mut self, size: u64, to: Place, from: Place) -> Result<(), Stop>
        ensures { ActsAlone self.old self.new result
            (change (λ s. record s { objects = move_range size to from s.objects })) }
    {
        let moved = self.store.move_range(size, to, from)?;
        if moved {
            Ok(())
        } else {
            Err(Stop::Failed(Fault::Memory))
        }
    }

    /// Bytes move with their tags from one place to another, each of which is work.
    pub fn move_bytes(&mut self, size: u64, to: Place, from: Place) -> Result<(), Stop>
        ensures { ActsAlone self.old self.new result (move_bytes size to from) }
    {
        self.tally(size);
        self.move_range(size, to, from)
    }

    // A structure is moved from where it was read from.
    fn copy_structure(
        &mut self,
        size: u64,
        is_judged: bool,
        pointer: Value,
        line: u32,
        value: Value,
    ) -> Result<(), Stop>
        ensures { ActsAlone self.old self.new result (copy_structure size is_judged pointer line value) }
    {
        let to = self.located(is_judged, size, pointer, line)?;
        let from = self.located(false, size, value, line)?;
        self.move_bytes(size, to, from)
    }

    // A structure is read: it stands for its place.
    fn load_structure(
        &self,
        size: u64,
        is_judged: bool,
        pointer: Value,
        line: u32,
    ) -> Result<Value, Stop>
        ensures { ActsAlone self.now self.now result (load_structure size is_judged pointer line) }
    {
        self.located(is_judged, size, pointer, line)?;
        Ok(pointer)
    }

    // What an lvalue holds.
    fn read_lvalue<T: Trace>(
        &mut self,
        trace: &mut T,
        kind: Kind,
        is_judged: bool,
        pointer: Value,
        line: u32,
    ) -> Result<Value, Stop>
        ensures { ActsTraced self.old self.new (T.noted trace.old) (T.noted trace.new) result
            (read_lvalue kind is_judged pointer line) }
    {
        match kind {
            Kind::Void => Ok(pointer),
            Kind::Array(_) => Ok(pointer),
            Kind::Scalar(scalar) => self.load(trace, scalar, is_judged, pointer, line),
            Kind::Structure(size) => self.load_structure(size, is_judged, pointer, line),
        }
    }

    /// What an lvalue of a kind holds, or a part of contents (6.3.2.1 paragraph 2).
    pub fn read_rvalue<T: Trace>(
        &mut self,
        trace: &mut T,
        kind: Kind,
        is_judged: bool,
        from: Found,
        line: u32,
    ) -> Result<Found, Stop>
        ensures { ActsTraced self.old self.new (T.noted trace.old) (T.noted trace.new) result
            (read_rvalue kind is_judged from line) }
    {
        if from.has_contents() {
            return part(kind, from);
        }
        let value = self.read_lvalue(trace, kind, is_judged, from.value(), line)?;
        Ok(Found::plain(value))
    }

    fn put_range(
        &mut self,
        size: u64,
        to: Place,
        source: u64,
        contents: &Object,
    ) -> Result<(), Stop>
        ensures { ActsAlone self.old self.new result
            (change (λ s. record s { objects = put_range size to source contents.now s.objects })) }
    {
        if self.store.put(size, to, source, contents) {
            Ok(())
        } else {
            Err(Stop::Failed(Fault::Memory))
        }
    }

    // A structure is moved from contents.
    fn put_contents(
        &mut self,
        size: u64,
        is_judged: bool,
        pointer: Value,
        line: u32,
        value: Value,
        contents: &Object,
    ) -> Result<(), Stop>
        ensures { ActsAlone self.old self.new result
            (copy_value (Some contents.now) size is_judged pointer line value) }
    {
        let to = self.located(is_judged, size, pointer, line)?;
        self.tally(size);
        self.put_range(size, to, value.word, contents)
    }

    // A structure is assigned: moved from its place, or from its contents.
    fn copy_value(
        &mut self,
        size: u64,
        is_judged: bool,
        pointer: Value,
        line: u32,
        value: &Found,
    ) -> Result<(), Stop>
        ensures { ActsAlone self.old self.new result
            (copy_value value.now.contents size is_judged pointer line value.now.value) }
    {
        let found = value.value();
        match value.contents() {
            Some(contents) => { self.put_contents(size, is_judged, pointer, line, found, contents) }
            None => self.copy_structure(size, is_judged, pointer, line, found),
        }
    }

    fn write_scalar_value<T: Trace>(
        &mut self,
        trace: &mut T,
        scalar: Scalar,
        is_judged: bool,
        pointer: Value,
        line: u32,
        value: Value,
    ) -> Result<Found, Stop>
        ensures { ActsTraced self.old self.new (T.noted trace.old) (T.noted trace.new) result
            (as_rvalue (write_lvalue (OfScalar scalar) is_judged pointer line value)) }
    {
        self.store(trace, scalar, is_judged, pointer, line, value)?;
        Ok(Found::plain(value))
    }

    fn write_structure(
        &mut self,
        size: u64,
        is_judged: bool,
        pointer: Value,
        line: u32,
        value: &Found,
    ) -> Result<Found, Stop>
        ensures { ActsAlone self.old self.new result
            (copied value.now.contents size is_judged pointer line value.now.value) }
    {
        self.copy_value(size, is_judged, pointer, line, value)?;
        Ok(Found::plain(pointer))
    }

    /// An lvalue of a kind gets a value; what is given is the value as it is stored, for a structure its place (6.5.16
    /// paragraph 3).
    pub fn write_rvalue<T: Trace>(
        &mut self,
        trace: &mut T,
        kind: Kind,
        is_judged: bool,
        pointer: Value,
        line: u32,
        value: Found,
    ) -> Result<Found, Stop>
        ensures { ActsTraced self.old self.new (T.noted trace.old) (T.noted trace.new) result
            (write_rvalue kind is_judged pointer line value) }
    {
        match kind {
            Kind::Void => Ok(value),
            Kind::Array(_) => Ok(value),
            Kind::Scalar(scalar) => {
                let stored = value.value();
                self.write_scalar_value(trace, scalar, is_judged, pointer, line, stored)
            }
            Kind::Structure(size) => self.write_structure(size, is_judged, pointer, line, &value),
        }
    }

    /// The same of a value that stays, where what is given is let go.
    pub fn store_rvalue<T: Trace>(
        &mut self,
        trace: &mut T,
        kind: Kind,
        is_judged: bool,
        pointer: Value,
        line: u32,
        value: &Found,
    ) -> Result<(), Stop>
        ensures { ActsTraced self.old self.new (T.noted trace.old) (T.noted trace.new) result
            (stored_rvalue kind is_judged pointer line value.now) }
    {
        match kind {
            Kind::Void => Ok(()),
            Kind::Array(_) => Ok(()),
            Kind::Scalar(scalar) => {
                let stored = value.value();
                self.store(trace, scalar, is_judged, pointer, line, stored)
            }
            Kind::Structure(size) => self.copy_value(size, is_judged, pointer, line, value),
        }
    }
}
