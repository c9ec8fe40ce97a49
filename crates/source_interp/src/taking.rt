//! Structures as arguments and results (C99 6.5.2.2 paragraph 4, 6.8.6.4 paragraph 3): their contents are found at
//! once.

ghost use Rattle.std.specs.Prelude.{◌≡◌, Some, None};
ghost use Rattle.obj_memory.specs.Objects.{object_at};
ghost use Rattle.c_tree.specs.declared.expression.Kind.TheVariants.{Structure};
ghost use Rattle.source_meaning.specs.State.{done, read_state};
ghost use Rattle.source_meaning.specs.Structures.{contents_size, make_zero, take_value, taken, with_contents, zero_of};
ghost use Rattle.source_interp.specs.Standing.{ActsAlone};

use crate::found::Found;
use crate::machine::Machine;
use crate::stop::{Fault, Stop};
use crate::value::integer;
use c_tree::Kind;
use interpreter_objects::Object;
use obj_memory::{Place, Storage, Value};
use std::alloc::Global;

fn contents_size(kind: Kind) -> u64
    ensures { result ≡ contents_size kind }
{
    match kind {
        Kind::Structure(size) => size,
        Kind::Void | Kind::Scalar(_) | Kind::Array(_) => 0,
    }
}

impl Machine {
    // The contents of a structure at a place.
    #[tactic(auto, using(crate::proofs::Acting::failing))]
    fn contents_at(&self, size: u64, place: Place) -> Result<Found, Stop>
        ensures { ActsAlone self.now self.now result
            (read_state (λ s. with_contents size place.offset (object_at s.objects place.object))) }
    {
        match self.store.take(size, place)? {
            Some(contents) => Ok(Found::with_contents(contents)),
            None => Err(Stop::Failed(Fault::Memory)),
        }
    }

    fn taken_at(&mut self, size: u64, pointer: Value, line: u32) -> Result<Found, Stop>
        ensures { ActsAlone self.old self.new result (taken None size pointer line) }
    {
        let place = self.located(false, size, pointer, line)?;
        self.tally(size);
        self.contents_at(size, place)
    }

    // A part of contents as contents of its own.
    #[tactic(auto, using(crate::proofs::Acting::failing))]
    fn part_at(
        &self,
        alloc: Global,
        size: u64,
        source: u64,
        contents: &Object,
    ) -> Result<Found, Stop>
        ensures { ActsAlone self.now self.now result (done (with_contents size source contents.now)) }
    {
        match contents.contents(alloc, size, source)? {
            Some(part) => Ok(Found::with_contents(part)),
            None => Err(Stop::Failed(Fault::Memory)),
        }
    }

    fn taken_part(
        &mut self,
        alloc: Global,
        size: u64,
        value: Value,
        line: u32,
        contents: &Object,
    ) -> Result<Found, Stop>
        ensures { ActsAlone self.old self.new result (taken (Some contents.now) size value line) }
    {
        self.tally(size);
        self.part_at(alloc, size, value.word, contents)
    }

    fn taken(&mut self, alloc: Global, size: u64, value: &Found, line: u32) -> Result<Found, Stop>
        ensures { ActsAlone self.old self.new result (taken value.now.contents size value.now.value line) }
    {
        let found = value.value();
        match value.contents() {
            Some(contents) => self.taken_part(alloc, size, found, line, contents),
            None => self.taken_at(size, found, line),
        }
    }

    /// A value as an argument or a result, of a structure with its contents; each byte is work.
    pub fn take_value(
        &mut self,
        alloc: Global,
        kind: Kind,
        line: u32,
        value: Found,
    ) -> Result<Found, Stop>
        ensures { ActsAlone self.old self.new result (take_value kind line value) }
    {
        match kind {
            Kind::Structure(size) => self.taken(alloc, size, &value, line),
            Kind::Void => Ok(value),
            Kind::Scalar(_) => Ok(value),
            Kind::Array(_) => Ok(value),
        }
    }

    #[tactic(auto, using(crate::proofs::Acting::failing))]
    fn zero_structure(&self, alloc: Global, size: u64) -> Result<Found, Stop>
        ensures { ActsAlone self.now self.now result (done (zero_of (Structure size))) }
    {
        let contents = Object::new(alloc, Storage::Automatic, 0, size)?;
        Ok(Found::with_contents(contents))
    }

    fn zero_of(&self, alloc: Global, kind: Kind) -> Result<Found, Stop>
        ensures { ActsAlone self.now self.now result (done (zero_of kind)) }
    {
        match kind {
            Kind::Structure(size) => self.zero_structure(alloc, size),
            Kind::Void => Ok(Found::plain(integer(0))),
            Kind::Scalar(_) => Ok(Found::plain(integer(0))),
            Kind::Array(_) => Ok(Found::plain(integer(0))),
        }
    }

    /// 0 of a kind with no tag, of a structure with all bytes 0, each of which is work.
    pub fn make_zero(&mut self, alloc: Global, kind: Kind) -> Result<Found, Stop>
        ensures { ActsAlone self.old self.new result (make_zero kind) }
    {
        self.tally(contents_size(kind));
        self.zero_of(alloc, kind)
    }
}
