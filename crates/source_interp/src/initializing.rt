//! What initializers store (C99 6.7.8).

ghost use Rattle.std.specs.Prelude.{◌≡◌, ◌+◌, IfSome, false};
ghost use Rattle.obj_memory.specs.declared.int_type.IntType.TheVariants.{Char};
ghost use Rattle.obj_memory.specs.declared.value.Scalar.TheVariants.{Integer};
ghost use Rattle.obj_memory.specs.Judgement.{narrowed};
ghost use Rattle.obj_memory.specs.Objects.{with_zeroed};
ghost use Rattle.source_meaning.specs.State.{change};
ghost use Rattle.source_meaning.specs.Actions.{integer, store};
ghost use Rattle.source_meaning.specs.Initializers.{store_bytes, zero_object, zero_variable};
ghost use Rattle.source_interp.specs.Standing.{ActsAlone, ActsTraced};
ghost use Rattle.source_interp.specs.Storing.{store_literal};

use crate::automatic::one_and;
use crate::items::nth;
use crate::machine::Machine;
use crate::stop::{Fault, Stop};
use crate::trace::Trace;
use crate::value::integer;
use obj_memory::{IntType, Scalar, Value};

// Where a byte stands so many bytes behind an offset.
fn further(offset: u64, count: usize) -> Option<u64>
    ensures { IfSome result (λ n. n ≡ offset + count) }
{
    offset.checked_add(count as u64)
}

impl Machine {
    #[tactic(auto, using(crate::proofs::Zeroing::clearing, crate::proofs::Acting::failing))]
    fn clear_object(&mut self, number: usize) -> Result<(), Stop>
        ensures { ActsAlone self.old self.new result
            (change (λ s. record s { objects = with_zeroed number s.objects })) }
    {
        let cleared = self.store.clear(number)?;
        if cleared {
            Ok(())
        } else {
            Err(Stop::Failed(Fault::Memory))
        }
    }

    // All bytes of an object become zero, each of which is work.
    fn zero_object(&mut self, number: usize) -> Result<(), Stop>
        ensures { ActsAlone self.old self.new result (zero_object number) }
    {
        let size = self.store.size(number);
        self.tally(size);
        self.clear_object(number)
    }

    /// The object of a variable becomes zero (6.7.8 paragraph 21).
    pub fn zero_variable(&mut self, variable: usize) -> Result<(), Stop>
        ensures { ActsAlone self.old self.new result (zero_variable variable) }
    {
        match self.frame.home(variable) {
            Some(number) => self.zero_object(number),
            None => Ok(()),
        }
    }

    // A byte of a literal.
    fn store_byte<T: Trace>(
        &mut self,
        trace: &mut T,
        object: Value,
        offset: u64,
        byte: u8,
    ) -> Result<(), Stop>
        ensures { ActsTraced self.old self.new (T.noted trace.old) (T.noted trace.new) result
            (store (Integer Char) false (narrowed offset 1 object) 0 (integer byte)) }
    {
        let place = object.narrowed(offset, 1);
        let value = integer(u64::from(byte));
        self.store(
            trace,
            Scalar::Integer(IntType::Char),
            false,
            place,
            0,
            value,
        )
    }

    fn store_nth<T: Trace>(
        &mut self,
        trace: &mut T,
        object: Value,
        offset: u64,
        count: usize,
        byte: u8,
    ) -> Result<(), Stop>
        ensures { ActsTraced self.old self.new (T.noted trace.old) (T.noted trace.new) result
            (store (Integer Char) false (narrowed (offset + count) 1 object) 0 (integer byte)) }
    {
        match further(offset, count) {
            Some(place) => self.store_byte(trace, object, place, byte),
            None => Err(Stop::Failed(Fault::Memory)),
        }
    }

    /// The bytes of a literal are stored from an offset of an object on (6.7.8 paragraph 14).
    pub fn store_bytes<T: Trace>(
        &mut self,
        trace: &mut T,
        object: Value,
        offset: u64,
        bytes: &[u8],
    ) -> Result<(), Stop>
        ensures { ActsTraced self.old self.new (T.noted trace.old) (T.noted trace.new) result
            (store_bytes object offset bytes.now) }
    {
        for i in 0..bytes.len() {
            let byte = nth(bytes, i);
            self.store_nth(trace, object, offset, i, byte)?;
        }
        Ok(())
    }

    /// A literal is stored from an offset of an object on; each of its bytes is work.
    pub fn store_literal<T: Trace>(
        &mut self,
        trace: &mut T,
        object: Value,
        offset: u64,
        bytes: &[u8],
    ) -> Result<(), Stop>
        ensures { ActsTraced self.old self.new (T.noted trace.old) (T.noted trace.new) result
            (store_literal object offset bytes.now) }
    {
        match one_and(bytes.len() as u64) {
            Some(work) => {
                self.tally(work);
                self.store_bytes(trace, object, offset, bytes)
            }
            None => Err(Stop::Failed(Fault::Memory)),
        }
    }
}
