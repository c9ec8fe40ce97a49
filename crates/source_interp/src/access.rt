//! Accesses of scalars.

ghost use Rattle.std.specs.Prelude.{◌≡◌};
ghost use Rattle.obj_memory.specs.Access.{read_value, write_value};
ghost use Rattle.source_meaning.specs.State.{change, read_state};
ghost use Rattle.source_meaning.specs.Actions.{load, located, read_scalar, store, verdict_on, write_scalar};
ghost use Rattle.source_interp.specs.Standing.{ActsAlone, ActsTraced};

use crate::machine::Machine;
use crate::stop::{Cause, Fault, Stop};
use crate::trace::Trace;
use obj_memory::{Place, Scalar, Value, Verdict};

impl Machine {
    fn verdict(&self, is_judged: bool, size: u64, pointer: Value) -> Verdict
        ensures { result ≡ verdict_on is_judged size pointer self.now.store }
    {
        if is_judged {
            self.store.judge(size, pointer)
        } else {
            self.store.named(pointer)
        }
    }

    /// The place of an access of some bytes through a pointer, which is judged or names its object.
    pub fn located(
        &self,
        is_judged: bool,
        size: u64,
        pointer: Value,
        line: u32,
    ) -> Result<Place, Stop>
        ensures { ActsAlone self.now self.now result (located is_judged size pointer line) }
    {
        match self.verdict(is_judged, size, pointer) {
            Verdict::Outside => Err(Stop::Ended(Cause::Spatial, line)),
            Verdict::Dead => Err(Stop::Ended(Cause::Temporal, line)),
            Verdict::Inside(place) => Ok(place),
        }
    }

    /// The scalar at a place, which is no access.
    pub fn scalar_at(&self, scalar: Scalar, place: Place) -> Result<Value, Stop>
        ensures { ActsAlone self.now self.now result (read_state (λ s. read_value scalar place s.objects)) }
    {
        match self.store.read(scalar, place) {
            Some(value) => Ok(value),
            None => Err(Stop::Failed(Fault::Memory)),
        }
    }

    fn put_scalar(&mut self, scalar: Scalar, place: Place, value: Value) -> Result<(), Stop>
        ensures { ActsAlone self.old self.new result
            (change (λ s. record s { objects = write_value scalar value place s.objects })) }
    {
        if self.store.write(scalar, place, value) {
            Ok(())
        } else {
            Err(Stop::Failed(Fault::Memory))
        }
    }

    /// A scalar is read at a place, which was found from an address.
    pub fn read_scalar<T: Trace>(
        &mut self,
        trace: &mut T,
        scalar: Scalar,
        address: u64,
        place: Place,
    ) -> Result<Value, Stop>
        ensures { ActsTraced self.old self.new (T.noted trace.old) (T.noted trace.new) result
            (read_scalar scalar address place) }
    {
        self.note(trace, false, address, scalar.size())?;
        self.scalar_at(scalar, place)
    }

    /// A scalar is written at a place, which was found from an address.
    pub fn write_scalar<T: Trace>(
        &mut self,
        trace: &mut T,
        scalar: Scalar,
        address: u64,
        place: Place,
        value: Value,
    ) -> Result<(), Stop>
        ensures { ActsTraced self.old self.new (T.noted trace.old) (T.noted trace.new) result
            (write_scalar scalar address place value) }
    {
        self.note(trace, true, address, scalar.size())?;
        self.put_scalar(scalar, place, value)
    }

    /// A scalar is read through a pointer.
    pub fn load<T: Trace>(
        &mut self,
        trace: &mut T,
        scalar: Scalar,
        is_judged: bool,
        pointer: Value,
        line: u32,
    ) -> Result<Value, Stop>
        ensures { ActsTraced self.old self.new (T.noted trace.old) (T.noted trace.new) result
            (load scalar is_judged pointer line) }
    {
        let place = self.located(is_judged, scalar.size(), pointer, line)?;
        self.read_scalar(trace, scalar, pointer.word, place)
    }

    /// A scalar is written through a pointer.
    pub fn store<T: Trace>(
        &mut self,
        trace: &mut T,
        scalar: Scalar,
        is_judged: bool,
        pointer: Value,
        line: u32,
        value: Value,
    ) -> Result<(), Stop>
        ensures { ActsTraced self.old self.new (T.noted trace.old) (T.noted trace.new) result
            (store scalar is_judged pointer line value) }
    {
        let place = self.located(is_judged, scalar.size(), pointer, line)?;
        self.write_scalar(trace, scalar, pointer.word, place, value)
    }
}
